//! What follows of what is told, over definitions alone.

ghost use Rattle.ffi_device.specs.Replies.{BringsAll};

/// Whoever is told of the reply to what it has spelled is told all of it: if the code of the reply is 0, by the number 7, and as its
/// text all bytes that stand after the header, as they came; and else the code, as it came.
pub fn brings_all()
    ensures { BringsAll }
{}
