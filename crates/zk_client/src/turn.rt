//! One turn: an input and what it gives.

ghost use Rattle.std.specs.Prelude.{◌≡◌, List, [], ◌∷◌, ◌++◌, OnOk, IsOk, true, false};
ghost use Rattle.zk_conversation.specs.Views.{call_view};
ghost use Rattle.zk_turns.specs.Turns.{signals_of, IsAsked, Opens, Cuts, Ticks};
ghost use Rattle.zk_turns.specs.Past.{is_final};
ghost use Rattle.zk_turns.specs.Ranges.{IsTyped, AsksOf};
ghost use Rattle.zk_turns.specs.Taken.{NothingIsDue};
ghost use Rattle.zk_turns.specs.Rule.{IsOpen, after_signals, says_signals};
ghost use Rattle.zk_client.specs.Views.{said};
ghost use Rattle.zk_client.specs.inner.Given.{given_view};
ghost use Rattle.zk_client.specs.inner.Seen.{view_with, origin};
ghost use Rattle.zk_client.specs.inner.Sound.{CoreIsSound, IsReadingFor};
ghost use Rattle.zk_client.specs.Steps.{IsQuiet};

use crate::calls::known_of_call;
use crate::fault::Fault;
use crate::frames::{receive_bytes, receive_lent};
use crate::input::{Given, Input};
use crate::machine::Core;
use crate::output::Output;
use std::alloc::{AllocError, Allocator};
use zk_frames::FrameReader;
use zk_session::{Due, State};

/// Says of the call in what is given, if there is one, what its type makes sure of. It is called for its clauses; the number, the length of
/// the path, is of no use.
pub(crate) fn known_of_given<A: Allocator + Copy>(given: &Given<'_, A>) -> usize
    ensures asked { IsAsked (given_view given.now) }
    ensures typed { AsksOf IsTyped (given_view given.now) }
{
    match given {
        Given::Input(Input::Call(_, call)) => known_of_call(call),
        _ => 0,
    }
}

/// Takes what is given.
#[inline(always)]
pub(crate) fn turn<A: Allocator + Copy>(
    core: &mut Core<A>,
    reader: &mut FrameReader<A>,
    given: Given<'_, A>,
    outputs: &mut Vec<Output<A>, A>,
) -> Result<(), AllocError>
    requires sound { CoreIsSound core.old }
    requires reading { IsReadingFor core.old reader.old }
    requires goes_on { core.old.halted ≡ false }
    ensures sound { OnOk result (CoreIsSound core.new) }
    ensures reading { OnOk result (IsReadingFor core.new reader.new) }
    ensures next { OnOk result
        (view_with reader.new.bytes core.new ≡ after_signals (view_with reader.old.bytes core.old) (signals_of (given_view given.entry))) }
    ensures says { OnOk result (said outputs.new.items
        ≡ said outputs.old.items ++ says_signals (view_with reader.old.bytes core.old) (signals_of (given_view given.entry))) }
    ensures quiet { IsQuiet (view_with reader.old.bytes core.old) (given_view given.entry) → IsOk result }
    ensures origin { origin core.new ≡ origin core.old }
{
    match given {
        Given::Lent(piece) => receive_lent(core, reader, piece, outputs),
        Given::Input(input) => match input {
            Input::Opened => opened(core, reader, outputs),
            Input::Bytes(piece) => receive_bytes(core, reader, piece, outputs),
            Input::Cut => cut(core, reader, outputs),
            Input::Now(moment) => notice_moment(core, reader, moment, outputs),
            Input::Call(ticket, call) => core.ask(ticket, call, outputs),
        },
    }
}

// A connection begins. One that is open ends first.
fn opened<A: Allocator + Copy>(
    core: &mut Core<A>,
    reader: &mut FrameReader<A>,
    outputs: &mut Vec<Output<A>, A>,
) -> Result<(), AllocError>
    requires sound { CoreIsSound core.old }
    requires reading { IsReadingFor core.old reader.old }
    requires goes_on { core.old.halted ≡ false }
    ensures sound { OnOk result (CoreIsSound core.new) }
    ensures reading { OnOk result (IsReadingFor core.new reader.new) }
    ensures next { OnOk result (view_with reader.new.bytes core.new ≡ after_signals (view_with reader.old.bytes core.old) (Opens ∷ [])) }
    ensures says { OnOk result
        (said outputs.new.items ≡ said outputs.old.items ++ says_signals (view_with reader.old.bytes core.old) (Opens ∷ [])) }
    ensures quiet { is_final core.old.session.state ≡ true → IsOk result }
    ensures origin { origin core.new ≡ origin core.old }
{
    match core.session.state() {
        State::Expired | State::Closed => Ok(()),
        State::Idle => {
            reader.reset();
            core.begin(outputs)
        }
        State::Connecting | State::Connected => {
            reader.reset();
            core.lose(outputs)?;
            core.begin(outputs)
        }
    }
}

// The connection is over.
fn cut<A: Allocator + Copy>(
    core: &mut Core<A>,
    reader: &mut FrameReader<A>,
    outputs: &mut Vec<Output<A>, A>,
) -> Result<(), AllocError>
    requires sound { CoreIsSound core.old }
    requires reading { IsReadingFor core.old reader.old }
    requires goes_on { core.old.halted ≡ false }
    ensures sound { OnOk result (CoreIsSound core.new) }
    ensures reading { OnOk result (IsReadingFor core.new reader.new) }
    ensures next { OnOk result (view_with reader.new.bytes core.new ≡ after_signals (view_with reader.old.bytes core.old) (Cuts ∷ [])) }
    ensures says { OnOk result
        (said outputs.new.items ≡ said outputs.old.items ++ says_signals (view_with reader.old.bytes core.old) (Cuts ∷ [])) }
    ensures quiet { ¬ (IsOpen core.old.session.state) → IsOk result }
    ensures origin { origin core.new ≡ origin core.old }
{
    if !core.session.state().is_open() {
        return Ok(());
    }
    reader.reset();
    core.lose(outputs)
}

// The moment is told. Where nothing is due, no memory is taken.
fn notice_moment<A: Allocator + Copy>(
    core: &mut Core<A>,
    reader: &mut FrameReader<A>,
    moment: u64,
    outputs: &mut Vec<Output<A>, A>,
) -> Result<(), AllocError>
    requires sound { CoreIsSound core.old }
    requires reading { IsReadingFor core.old reader.old }
    requires goes_on { core.old.halted ≡ false }
    ensures sound { OnOk result (CoreIsSound core.new) }
    ensures reading { OnOk result (IsReadingFor core.new reader.new) }
    ensures next { OnOk result
        (view_with reader.new.bytes core.new ≡ after_signals (view_with reader.old.bytes core.old) (Ticks moment ∷ [])) }
    ensures says { OnOk result
        (said outputs.new.items ≡ said outputs.old.items ++ says_signals (view_with reader.old.bytes core.old) (Ticks moment ∷ [])) }
    ensures quiet { NothingIsDue (view_with reader.old.bytes core.old) moment → IsOk result }
    ensures origin { origin core.new ≡ origin core.old }
{
    match core.session.moment(moment) {
        Due::Nothing => Ok(()),
        Due::Ping => core.ping(outputs),
        Due::Silent => {
            reader.reset();
            core.give_up(Fault::Silent, outputs)
        }
    }
}
