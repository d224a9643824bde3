//! Bytes of a connection, frame by frame.

ghost use Rattle.std.specs.Prelude.{◌≡◌, List, [], ◌++◌, OnOk, IsOk, None, map, true, false};
ghost use Rattle.zk_turns.specs.Turns.{Comes};
ghost use Rattle.zk_turns.specs.Rule.{IsOpen, after_signals, says_signals};
ghost use Rattle.zk_client.specs.Views.{said};
ghost use Rattle.zk_client.specs.inner.Seen.{view_with, origin};
ghost use Rattle.zk_client.specs.inner.Sound.{CoreIsSound, IsReadingFor};

use crate::fault::Fault;
use crate::machine::Core;
use crate::output::Output;
use std::alloc::{AllocError, Allocator};
use zk_frames::FrameReader;

/// Bytes came. Each payload that is whole has its effect, up to the end of the connection.
pub(crate) fn receive_bytes<A: Allocator + Copy>(
    core: &mut Core<A>,
    reader: &mut FrameReader<A>,
    piece: Vec<u8, A>,
    outputs: &mut Vec<Output<A>, A>,
) -> Result<(), AllocError>
    requires sound { CoreIsSound core.old }
    requires reading { IsReadingFor core.old reader.old }
    requires goes_on { core.old.halted ≡ false }
    ensures sound { OnOk result (CoreIsSound core.new) }
    ensures reading { OnOk result (IsReadingFor core.new reader.new) }
    ensures next { OnOk result
        (view_with reader.new.bytes core.new ≡ after_signals (view_with reader.old.bytes core.old) (map Comes piece.items)) }
    ensures says { OnOk result
        (said outputs.new.items ≡ said outputs.old.items ++ says_signals (view_with reader.old.bytes core.old) (map Comes piece.items)) }
    ensures quiet { ¬ (IsOpen core.old.session.state) → IsOk result }
    ensures origin { origin core.new ≡ origin core.old }
{
    if !core.session.state().is_open() {
        return Ok(());
    }
    if piece.is_empty() {
        return Ok(());
    }
    core.session.heard();
    let Ok(()) = reader.adopt(piece) else {
        return Err(AllocError);
    };
    take_frames(core, reader, outputs)
}

/// [`receive_bytes`] of a piece that is lent: it is fed into the room of the reader.
pub(crate) fn receive_lent<A: Allocator + Copy>(
    core: &mut Core<A>,
    reader: &mut FrameReader<A>,
    piece: &[u8],
    outputs: &mut Vec<Output<A>, A>,
) -> Result<(), AllocError>
    requires sound { CoreIsSound core.old }
    requires reading { IsReadingFor core.old reader.old }
    requires goes_on { core.old.halted ≡ false }
    ensures sound { OnOk result (CoreIsSound core.new) }
    ensures reading { OnOk result (IsReadingFor core.new reader.new) }
    ensures next { OnOk result
        (view_with reader.new.bytes core.new ≡ after_signals (view_with reader.old.bytes core.old) (map Comes piece.now)) }
    ensures says { OnOk result
        (said outputs.new.items ≡ said outputs.old.items ++ says_signals (view_with reader.old.bytes core.old) (map Comes piece.now)) }
    ensures quiet { ¬ (IsOpen core.old.session.state) → IsOk result }
    ensures origin { origin core.new ≡ origin core.old }
{
    if !core.session.state().is_open() {
        return Ok(());
    }
    if piece.is_empty() {
        return Ok(());
    }
    core.session.heard();
    let Ok(()) = reader.feed(piece) else {
        return Err(AllocError);
    };
    take_frames(core, reader, outputs)
}

// Takes what is held, a whole frame at a time.
fn take_frames<A: Allocator + Copy>(
    core: &mut Core<A>,
    reader: &mut FrameReader<A>,
    outputs: &mut Vec<Output<A>, A>,
) -> Result<(), AllocError>
    requires sound { CoreIsSound core.old }
    requires clean { reader.old.fault ≡ None }
    requires goes_on { core.old.halted ≡ false }
    requires up { IsOpen core.old.session.state }
    requires heard { core.old.session.moments.heard ≡ core.old.session.moments.now }
    ensures sound { OnOk result (CoreIsSound core.new) }
    ensures reading { OnOk result (IsReadingFor core.new reader.new) }
    ensures next { OnOk result (view_with reader.new.bytes core.new ≡ after_signals (view_with [] core.old) (map Comes reader.old.bytes)) }
    ensures says { OnOk result
        (said outputs.new.items ≡ said outputs.old.items ++ says_signals (view_with [] core.old) (map Comes reader.old.bytes)) }
    ensures origin { origin core.new ≡ origin core.old }
{
    while core.session.state().is_open() {
        match reader.next_frame(core.longest()) {
            Ok(Some(payload)) => core.read_payload(payload, outputs)?,
            Ok(None) => return Ok(()),
            Err(fault) => {
                reader.reset();
                return core.give_up(Fault::Framed(fault), outputs);
            }
        }
    }
    reader.reset();
    Ok(())
}
