//! What follows of the bytes of a connection from what each call of a joint, and of a link, does.

ghost use Rattle.script_live.specs.Flowing.{BytesComeWhole, BytesGoWhole};
ghost use Rattle.script_live.specs.Lives.{LivesPrint};

/// What the client is handed of a connection, joined, is a beginning of what its stream had to give: nothing is lost on the way, nothing
/// comes twice, and nothing from elsewhere.
pub fn bytes_come_whole()
    ensures { BytesComeWhole }
{}

/// What the stream of a connection took is a beginning of what the client sent on it: the rest is still to be written.
pub fn bytes_go_whole()
    ensures { BytesGoWhole }
{}

/// All that a script prints is what its client says, which is handed the bytes of its streams and no others.
pub fn lives_print()
    ensures { LivesPrint }
{}
