//! Why a value could not be read or written.

ghost use Rattle.std.specs.Prelude.{◌≡◌};
ghost use Rattle.zk_jute.specs.FaultText.{take_error_code};
ghost use Rattle.zk_jute.specs.declared.fault.TakeError.TheVariants as take_errors;
ghost use Rattle.zk_jute.specs.declared.fault.PutError.TheVariants as put_errors;

use std::alloc::{AllocError, AllocFailed};
use std::error::Error;
use std::fmt;

/// Why no value could be read: the first fault from left to right. A place is a number of bytes, counted from the
/// first byte of the payload.
///
/// Refusing what `BadLength`, `BadBool` and `NotUtf8` name is a rule of this project.
#[derive(Clone, Copy, Debug)]
pub enum TakeError {
    /// J1: a number, a boolean or the contents of a buffer or a text are cut off. The place of its first byte.
    Short(usize),
    /// J2: a length or a count is below -1. The place of its first byte.
    BadLength(usize),
    /// J3: a boolean is neither 0 nor 1. The place of its byte.
    BadBool(usize),
    /// J4: a text is not UTF-8. The place of the first byte of its contents.
    NotUtf8(usize),
    /// J5: the allocator refused a request. It has no place.
    Memory,
}

impl TakeError {
    /// The code of the fault, `J1` to `J5`: its place is not part of it.
    pub fn code(self) -> &'static str
        ensures { result.now ≡ take_error_code self }
    {
        match self {
            TakeError::Short(_) => "J1",
            TakeError::BadLength(_) => "J2",
            TakeError::BadBool(_) => "J3",
            TakeError::NotUtf8(_) => "J4",
            TakeError::Memory => "J5",
        }
    }
}

impl fmt::Display for TakeError {
    ghost use Rattle.std.specs.Prelude.{Some};
    ghost use Rattle.zk_jute.specs.FaultText.{take_error_words};

    ghost output = { λ e. Some (take_error_words e) };

    fn fmt<W: fmt::Write>(&self, f: &mut fmt::Formatter<W>) -> fmt::Result {
        match self {
            TakeError::Short(place) => write!(f, "a value at byte {place} is cut off"),
            TakeError::BadLength(place) => write!(f, "a length at byte {place} is below -1"),
            TakeError::BadBool(place) => write!(f, "a boolean at byte {place} is neither 0 nor 1"),
            TakeError::NotUtf8(place) => write!(f, "a text at byte {place} is not UTF-8"),
            TakeError::Memory => write!(f, "out of memory"),
        }
    }
}

impl Error for TakeError {}

impl From<AllocError> for TakeError {
    ghost from_gives = { λ _ e. e ≡ take_errors.Memory };

    fn from(_e: AllocError) -> TakeError {
        TakeError::Memory
    }
}

impl<T: Drop> From<AllocFailed<T>> for TakeError {
    ghost from_gives = { λ _ e. e ≡ take_errors.Memory };

    fn from(_e: AllocFailed<T>) -> TakeError {
        TakeError::Memory
    }
}

/// Why a value could not be written.
#[derive(Clone, Copy, Debug)]
pub enum PutError {
    /// A length or a count is above 2,147,483,647, the greatest int.
    TooLong,
    /// The allocator refused a request.
    Memory,
}

impl fmt::Display for PutError {
    ghost use Rattle.std.specs.Prelude.{Some};
    ghost use Rattle.zk_jute.specs.FaultText.{put_error_words};

    ghost output = { λ e. Some (put_error_words e) };

    fn fmt<W: fmt::Write>(&self, f: &mut fmt::Formatter<W>) -> fmt::Result {
        match self {
            PutError::TooLong => write!(f, "too long"),
            PutError::Memory => write!(f, "out of memory"),
        }
    }
}

impl Error for PutError {}

impl From<AllocError> for PutError {
    ghost from_gives = { λ _ e. e ≡ put_errors.Memory };

    fn from(_e: AllocError) -> PutError {
        PutError::Memory
    }
}

impl<T: Drop> From<AllocFailed<T>> for PutError {
    ghost from_gives = { λ _ e. e ≡ put_errors.Memory };

    fn from(_e: AllocFailed<T>) -> PutError {
        PutError::Memory
    }
}
