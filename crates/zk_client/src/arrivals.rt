//! What payloads bring.

ghost use Rattle.std.specs.Prelude.{◌≡◌, ◌≢◌, ◌≤◌, ℕ, ℤ, List, [], ◌∷◌, ◌++◌, map, OnOk, OnErr, IfOk, length, true, false, if◌then◌else◌};
ghost use Rattle.std.specs.Prelude.{◌≤ℤ◌, ◌<ℤ◌, pos, ◌&&◌, bytes_eq, Bool, Some, None, option_map, string_bytes};
ghost use Rattle.zk_frames.specs.Frame.{frame};
ghost use Rattle.zk_limits.specs.declared.limits.TheConstants.{LONGEST_OUTGOING};
ghost use Rattle.zk_records.specs.Views.{lent_response_of};
ghost use Rattle.zk_conversation.specs.declared.phase.Phase.TheVariants.{Talking};
ghost use Rattle.zk_conversation.specs.Arriving.{Arrived, Connected as Welcomed, Watches_set as Part_set, Notice};
ghost use Rattle.zk_conversation.specs.Pending.{Pending, talk_watching};
ghost use Rattle.zk_conversation.specs.Views.{arrival_view, payload_of_part};
ghost use Rattle.zk_nodes.specs.Path.{Text};
ghost use Rattle.zk_nodes.specs.declared.side.Side.TheVariants.{Data, Child};
ghost use Rattle.zk_records.specs.Events.{concerns};
ghost use Rattle.zk_limits.specs.declared.limits.TheConstants.{LONGEST_PASSWORD};
ghost use Rattle.zk_cache.specs.Cache.{data_kept, names_kept, with_stale};
ghost use Rattle.zk_cache.specs.Kept.{stale};
ghost use Rattle.zk_session.specs.declared.states.State.TheVariants.{Connecting};
ghost use Rattle.zk_watches.specs.Parts.{parts};
ghost use Rattle.zk_turns.specs.Past.{Took, Accepted, Expiry, pending_for, parts_asked};
ghost use Rattle.zk_turns.specs.Taken.{taken_of, longest};
ghost use Rattle.zk_turns.specs.Turns.{Report, Enters, Send};
ghost use Rattle.zk_turns.specs.Rule.{IsOpen, next, says, part_frame};
ghost use Rattle.zk_turns.proofs.Fed.{arrival};
ghost use Rattle.zk_client.specs.Views.{said};
ghost use Rattle.zk_session.specs.SessionView.{SessionView};
ghost use Rattle.zk_session.specs.Table as sessions;
ghost use Rattle.zk_client.specs.inner.Seen.{view_with, while_pending, origin, saved_by};
ghost use Rattle.zk_client.specs.Sound.{HasRoom};
ghost use Rattle.zk_client.specs.inner.Sound.{CoreIsSound, CoreHasArrived, IsLeft};
ghost use Rattle.zk_client.specs.inner.Steps.{welcome_of, has_any};

use crate::fault::Fault;
use crate::machine::{Core, say};
use crate::output::Output;
use std::alloc::{AllocError, Allocator};
use zk_cache::Cache;
use zk_conversation::{Arrival, Conversation, TalkFault};
use zk_records::{ConnectResponseRef, Event, SetWatchesRef, Side};
use zk_session::{Response, Session, State};
use zk_watches::{Fired, Registry};

/// Whether the payload may be good, and memory was refused.
fn is_memory(fault: TalkFault) -> bool
    ensures { result ≡ false → fault ≢ TalkFault.Memory }
{
    matches!(fault, TalkFault::Memory)
}

impl<A: Allocator + Copy> Core<A> {
    /// A payload came.
    pub(crate) fn read_payload(
        &mut self,
        payload: &[u8],
        outputs: &mut Vec<Output<A>, A>,
    ) -> Result<(), AllocError>
        requires sound { CoreIsSound self.old }
        requires up { IsOpen self.old.session.state }
        requires admitted { length payload.now ≤ longest self.old.limits self.old.session.state }
        ensures sound { OnOk result (CoreIsSound self.new) }
        ensures next { OnOk result
            ((held : List ℕ) → view_with [] self.new ≡ next (view_with held self.old) (arrival (view_with held self.old) payload.now)) }
        ensures says { OnOk result ((held : List ℕ) → said outputs.new.items
            ≡ said outputs.old.items ++ says (view_with held self.old) (arrival (view_with held self.old) payload.now)) }
        ensures origin { origin self.new ≡ origin self.old }
    {
        match self.conversation.arrived(payload) {
            Ok(arrival) => self.arrive(arrival, outputs),
            Err(fault) => {
                if is_memory(fault) {
                    return Err(AllocError);
                }
                self.give_up(Fault::Talked(fault), outputs)
            }
        }
    }

    // What was read has its effect.
    fn arrive(
        &mut self,
        arrival: Arrival<'_, A>,
        outputs: &mut Vec<Output<A>, A>,
    ) -> Result<(), AllocError>
        requires { CoreHasArrived (arrival_view arrival) self.old }
        ensures sound { OnOk result (CoreIsSound self.new) }
        ensures next { OnOk result
            ((held : List ℕ) (pending : List Pending) → IsLeft (arrival_view arrival.entry) pending self.old.conversation.pending →
            view_with [] self.new ≡ next (while_pending pending (view_with held self.old))
            (taken_of self.old.session.saved.last (arrival_view arrival.entry))) }
        ensures says { OnOk result
            ((held : List ℕ) (pending : List Pending) → IsLeft (arrival_view arrival.entry) pending self.old.conversation.pending →
            said outputs.new.items ≡ said outputs.old.items ++ says (while_pending pending (view_with held self.old))
            (taken_of self.old.session.saved.last (arrival_view arrival.entry))) }
        ensures origin { origin self.new ≡ origin self.old }
    {
        match arrival {
            Arrival::Connected(response) => self.answered(&response, outputs),
            Arrival::Reply {
                ticket,
                question,
                zxid,
                result,
            } => {
                let taken = self.reply(ticket, question, zxid, &result, outputs);
                drop(result);
                taken
            }
            Arrival::WatchesSet { last, zxid, err } => self.part_set(last, zxid, err, outputs),
            Arrival::Notice { event, path } => self.notice(event, path, outputs),
            Arrival::Pong => Ok(()),
            Arrival::Skipped => Ok(()),
        }
    }

    // The server answers the ConnectRequest. A timeout of 0 or less says that the session has expired.
    fn answered(
        &mut self,
        response: &ConnectResponseRef<'_>,
        outputs: &mut Vec<Output<A>, A>,
    ) -> Result<(), AllocError>
        requires { CoreHasArrived (Welcomed (lent_response_of response.now)) self.old }
        ensures sound { OnOk result (CoreIsSound self.new) }
        ensures next { OnOk result ((held : List ℕ) (pending : List Pending) → pending ≡ self.old.conversation.pending →
            view_with [] self.new ≡ next (while_pending pending (view_with held self.old))
            (taken_of self.old.session.saved.last (Welcomed (lent_response_of response.now)))) }
        ensures says { OnOk result ((held : List ℕ) (pending : List Pending) → pending ≡ self.old.conversation.pending →
            said outputs.new.items ≡ said outputs.old.items ++ says (while_pending pending (view_with held self.old))
            (taken_of self.old.session.saved.last (Welcomed (lent_response_of response.now)))) }
        ensures origin { origin self.new ≡ origin self.old }
    {
        let taken = Response {
            time_out: response.time_out,
            session_id: response.session_id,
            password: response.passwd.or_empty(),
        };
        if taken.time_out <= 0 {
            return self.expire(&taken, outputs);
        }
        self.welcome(&taken, outputs)
    }

    // The session has expired. Nothing is kept any more.
    fn expire(
        &mut self,
        response: &Response<'_>,
        outputs: &mut Vec<Output<A>, A>,
    ) -> Result<(), AllocError>
        requires talking { self.old.conversation.phase ≡ Talking }
        requires state { self.old.session.state ≡ Connecting }
        requires quiet { length self.old.conversation.pending ≡ 0 }
        requires short { length self.old.session.saved.session.password ≤ LONGEST_PASSWORD }
        requires over { response.now.time_out ≤ℤ pos 0 }
        ensures sound { OnOk result (CoreIsSound self.new) }
        ensures next { OnOk result ((held : List ℕ) (pending : List Pending)
            → view_with [] self.new ≡ next (while_pending pending (view_with held self.old)) (Took Expiry)) }
        ensures says { OnOk result (said outputs.new.items ≡ said outputs.old.items ++ Enters State.Expired ∷ []) }
        ensures origin { origin self.new ≡ origin self.old }
    {
        self.session.accepted(response)?;
        self.conversation.cut();
        self.registry.clear();
        self.cache.clear();
        say(outputs, Output::State(State::Expired))
    }

    // The session is accepted. What is watched is set again before any call.
    fn welcome(
        &mut self,
        response: &Response<'_>,
        outputs: &mut Vec<Output<A>, A>,
    ) -> Result<(), AllocError>
        requires talking { self.old.conversation.phase ≡ Talking }
        requires state { self.old.session.state ≡ Connecting }
        requires quiet { length self.old.conversation.pending ≡ 0 }
        requires room { HasRoom self.old.registry [] }
        requires short { length response.now.password.now ≤ LONGEST_PASSWORD }
        requires goes_on { pos 0 <ℤ response.now.time_out }
        ensures sound { OnOk result (CoreIsSound self.new) }
        ensures next { OnOk result ((held : List ℕ) (pending : List Pending)
            → view_with [] self.new ≡ next (while_pending pending (view_with held self.old)) (Took (Accepted (welcome_of response.now)))) }
        ensures says { OnOk result (said outputs.new.items
            ≡ said outputs.old.items ++ (Enters State.Connected ∷ map (part_frame self.old.session.saved.last) (parts self.old.registry))) }
        ensures origin { origin self.new ≡ origin self.old }
    {
        put_by(self.alloc, &self.session, &mut self.earlier)?;
        self.session.accepted(response)?;
        say(outputs, Output::State(State::Connected))?;
        let last = self.session.last_zxid();
        let any = send_parts(&self.registry, &mut self.conversation, last, outputs)?;
        sent_if(any, &mut self.session);
        Ok(())
    }

    // The reply to a part of setWatches. Only the last one's zxid counts.
    fn part_set(
        &mut self,
        last: bool,
        zxid: i64,
        err: i32,
        outputs: &mut Vec<Output<A>, A>,
    ) -> Result<(), AllocError>
        requires { CoreHasArrived (Part_set last zxid err) self.old }
        ensures sound { OnOk result (CoreIsSound self.new) }
        ensures next { OnOk result
            ((held : List ℕ) (pending : List Pending) → IsLeft (Part_set last zxid err) pending self.old.conversation.pending →
            view_with [] self.new
            ≡ next (while_pending pending (view_with held self.old)) (taken_of self.old.session.saved.last (Part_set last zxid err))) }
        ensures says { OnOk result
            ((held : List ℕ) (pending : List Pending) → IsLeft (Part_set last zxid err) pending self.old.conversation.pending →
            said outputs.new.items ≡ said outputs.old.items
            ++ says (while_pending pending (view_with held self.old)) (taken_of self.old.session.saved.last (Part_set last zxid err))) }
        ensures origin { origin self.new ≡ origin self.old }
    {
        if err != 0 {
            return self.give_up(Fault::WatchesRefused { code: err }, outputs);
        }
        if last {
            self.session.saw(zxid);
        }
        Ok(())
    }

    // A watch fired.
    fn notice(
        &mut self,
        event: Event,
        path: &str,
        outputs: &mut Vec<Output<A>, A>,
    ) -> Result<(), AllocError>
        requires { CoreHasArrived (Notice event path.now) self.old }
        ensures sound { OnOk result (CoreIsSound self.new) }
        ensures next { OnOk result ((held : List ℕ) (pending : List Pending) → pending ≡ self.old.conversation.pending →
            view_with [] self.new
            ≡ next (while_pending pending (view_with held self.old)) (taken_of self.old.session.saved.last (Notice event path.now))) }
        ensures says { OnOk result ((held : List ℕ) (pending : List Pending) → pending ≡ self.old.conversation.pending →
            said outputs.new.items ≡ said outputs.old.items
            ++ says (while_pending pending (view_with held self.old)) (taken_of self.old.session.saved.last (Notice event path.now))) }
        ensures origin { origin self.new ≡ origin self.old }
    {
        let Fired { on_data, on_child } = self.registry.fire(event, path);
        spoil(event, path, &mut self.cache);
        report(on_data, Side::Data, event, outputs)?;
        report(on_child, Side::Child, event, outputs)
    }
}

// Puts the session by, before a step has another one accepted. A step that halts takes it back.
fn put_by<A: Allocator + Copy>(
    alloc: A,
    session: &Session<A>,
    earlier: &mut Option<Session<A>>,
) -> Result<(), AllocError>
    ensures ok { OnOk result ((kept : SessionView) → saved_by earlier.new kept ≡ saved_by earlier.old session.now) }
    ensures err { OnErr result (earlier.new ≡ earlier.old) }
{
    if earlier.is_none() {
        *earlier = Some(session.copied(alloc)?);
    }
    Ok(())
}

// Something was sent.
fn sent_if<A: Allocator>(any: bool, session: &mut Session<A>)
    ensures { session.new ≡ (if any then sessions.next sessions.Sends session.old else session.old) }
{
    if any {
        session.sent();
    }
}

// What is kept of the path is stale on each side that the event is about.
fn spoil<A: Allocator + Copy>(event: Event, path: &str, cache: &mut Cache<A>)
    ensures nodes { (text : Text) → data_kept cache.new text
        ≡ (if concerns event Data && bytes_eq path.now text then stale (data_kept cache.old text) else data_kept cache.old text) }
    ensures children { (text : Text) → names_kept cache.new text
        ≡ (if concerns event Child && bytes_eq path.now text then stale (names_kept cache.old text) else names_kept cache.old text) }
{
    spoil_side(event.concerns(Side::Data), Side::Data, path, cache);
    spoil_side(event.concerns(Side::Child), Side::Child, path, cache);
}

fn spoil_side<A: Allocator + Copy>(about: bool, side: Side, path: &str, cache: &mut Cache<A>)
    ensures { cache.new ≡ (if about then with_stale cache.old side path.now else cache.old) }
{
    if about {
        cache.stale(side, path);
    }
}

// A side on which the event ended a watch gets a report, with the text of the path that was watched.
fn report<A: Allocator + Copy>(
    watched: Option<String<A>>,
    side: Side,
    event: Event,
    outputs: &mut Vec<Output<A>, A>,
) -> Result<(), AllocError>
    ensures { OnOk result ((fired : Bool) (path : Text) → option_map string_bytes watched ≡ (if fired then Some path else None) →
        said outputs.new.items ≡ said outputs.old.items ++ (if fired then Report path side event ∷ [] else [])) }
{
    match watched {
        Some(path) => say(outputs, Output::Report { path, side, event }),
        None => Ok(()),
    }
}

// Sends what is watched, in parts. It answers whether there is a part.
fn send_parts<A: Allocator + Copy>(
    registry: &Registry<A>,
    conversation: &mut Conversation<A>,
    last: i64,
    outputs: &mut Vec<Output<A>, A>,
) -> Result<bool, AllocError>
    requires { conversation.old.phase ≡ Talking }
    ensures phase { OnOk result (conversation.new.phase ≡ Talking) }
    ensures pending { OnOk result
        (conversation.new.pending ≡ conversation.old.pending ++ map pending_for (parts_asked (parts registry.now))) }
    ensures xid { OnOk result (conversation.new.xid ≡ conversation.old.xid) }
    ensures says { OnOk result (said outputs.new.items ≡ said outputs.old.items ++ map (part_frame last) (parts registry.now)) }
    ensures any { IfOk result (λ any. any ≡ has_any (parts registry.now)) }
{
    if registry.len(Side::Data) + registry.len(Side::Child) == 0 {
        return Ok(false);
    }
    let lists = registry.in_order()?;
    let parts = lists.parts(last)?;
    let count = parts.len();
    for at in 0..count {
        let Ok(()) = send_part(&parts[at], at + 1 == count, conversation, outputs) else {
            drop(parts);
            drop(lists);
            return Err(AllocError);
        };
    }
    drop(parts);
    drop(lists);
    Ok(count > 0)
}

// Sends a part of what is watched.
fn send_part<A: Allocator + Copy>(
    part: &SetWatchesRef<'_>,
    last: bool,
    conversation: &mut Conversation<A>,
    outputs: &mut Vec<Output<A>, A>,
) -> Result<(), AllocError>
    requires talking { conversation.old.phase ≡ Talking }
    requires small { length (payload_of_part part.now) ≤ LONGEST_OUTGOING }
    ensures asked { OnOk result (conversation.new ≡ talk_watching last conversation.old) }
    ensures says { OnOk result (said outputs.new.items ≡ said outputs.old.items ++ Send (frame (payload_of_part part.now)) ∷ []) }
{
    let frame = conversation.set_watches(part, last)?;
    say(outputs, Output::Send(frame))
}
