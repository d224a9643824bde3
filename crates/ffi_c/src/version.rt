//! The version of the interface.

ghost use Rattle.std.specs.Prelude.{◌≡◌};
ghost use Rattle.ffi_c.specs.declared.version.TheConstants.{VERSION};

/// The version, as a number in which 1.2.3 is 1002003: that of the file VERSION.
pub const VERSION: u32 = 3000;

/// The version of the library. A caller has the header of the same.
#[unsafe(no_mangle)]
pub extern "C" fn dw_version() -> u32
    ensures { result ≡ VERSION }
{
    VERSION
}
