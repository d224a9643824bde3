//! An agent with the actions of its last step.

ghost use Rattle.std.specs.Prelude.{◌≡◌, ◌≢◌, ◌<◌, ◌<ℤ◌, ◌^◌, ℕ, [], pos, true, None, IfErr, IfOk, IfSome, OnOk, Ok, Err, unsigned_abs};
ghost use Rattle.zk_session.specs.declared.states.State.TheVariants.{Closed};
ghost use Rattle.zk_turns.specs.Turns.{new_start};
ghost use Rattle.zk_client.specs.Clients.{view_of};
ghost use Rattle.zk_client.specs.SavedSessions.{PutAway, bytes_read};
ghost use Rattle.zk_client.specs.declared.saved_fault.SavedFault.{SavedFault};
ghost use Rattle.zk_client.specs.declared.saved_fault.SavedFault.TheVariants as saved_faults;
ghost use Rattle.ffi_device.specs.declared.refusal.DeviceRefusal.TheVariants as refusals;
ghost use Rattle.zk_conclusions.specs.Revisions.{raised};
ghost use Rattle.ffi_device.specs.Codes.{code_of};
ghost use Rattle.ffi_device.specs.Refused.{RefusesMemory, RefusesNothing, RefusesTimeout};
ghost use Rattle.ffi_device.specs.Sessions.{put_start};
ghost use Rattle.ffi_device.specs.Happenings.{happening, Addressed, Bytes, Cut, Failed, Moment, Opened};
ghost use Rattle.zk_contend.specs.Collections.{sooner};
ghost use Rattle.ffi_device.specs.Contending.{until_in, NothingDue};
ghost use Rattle.ffi_device.specs.Steps.{Dials, Forgot, Begins, BeginsWith, Stepped, Steps, Stopped, within};

use crate::refusal::DeviceRefusal;
use crate::revisions::{is_bytes, revise};
use crate::sessions::resumed;
use std::alloc::Global;
use zk_agent::{Action, Agent, AgentInput, Settings};
use zk_client::{Client, FrameLimits};
use zk_conclusions::Revision;
use zk_contend::{Contenders, LockStatus};

/// An agent, its contenders, whether one has joined, what was said at its last step and how contenders stand, how much of both was read,
/// whether it goes on no further, since memory ran out within a step, and a number that rises where what its client shows may change. Its
/// methods stand by what they are about: calls in `calls`, what is followed in `subjects`, who contends in `contenders`, what was said in
/// `outputs`, and here what comes from a connection. What is kept is looked up by functions over the agent's client, as
/// [`peek_data`](crate::peek_data).
#[derive(Drop)]
pub struct Device {
    pub agent: Agent<Global>,
    pub contenders: Contenders<Global>,
    pub is_contending: bool,
    pub said: Vec<Action<Global>, Global>,
    pub news: Vec<(u64, LockStatus), Global>,
    pub read: usize,
    pub is_over: bool,
    pub revision: Revision,
}

// The sooner of two moments.
fn sooner(first: Option<u64>, other: Option<u64>) -> Option<u64>
    ensures { result ≡ sooner first other }
{
    match (first, other) {
        (Some(first), Some(other)) => Some(first.min(other)),
        (Some(first), None) => Some(first),
        (None, other) => other,
    }
}

impl Device {
    /// A session of no server yet, which asks for this timeout in milliseconds, has this many addresses, and payloads within these limits.
    /// The order of addresses and the pauses are random by the seed. A refusal is `BadTimeout`, else `Memory`.
    pub fn open(
        alloc: Global,
        timeout_ms: i32,
        addresses: usize,
        seed: u64,
        limits: FrameLimits,
    ) -> Result<Device, DeviceRefusal>
        ensures begins { Begins (RefusesTimeout timeout_ms) (within limits (new_start (unsigned_abs timeout_ms))) result }
        ensures accepted { OnOk result (pos 0 <ℤ timeout_ms) }
        ensures dials { IfOk result (λ device. Dials addresses seed device.agent.dialler) }
        ensures timeout { IfOk result (λ device. device.agent.timeout_ms ≡ timeout_ms) }
    {
        if timeout_ms <= 0 {
            return Err(DeviceRefusal::BadTimeout);
        }
        let settings = Settings {
            timeout_ms,
            addresses,
            seed,
        };
        let client = Client::new(alloc, timeout_ms).with_limits(limits);
        Device::of(alloc, client, settings)
    }

    /// The same, which takes up the session of these bytes first. A refusal is `BadTimeout`, else `NotSaved`, else `Memory`.
    pub fn resume(
        alloc: Global,
        timeout_ms: i32,
        addresses: usize,
        seed: u64,
        limits: FrameLimits,
        saved: &[u8],
    ) -> Result<Device, DeviceRefusal>
        ensures begins { (put : PutAway) → bytes_read saved.now ≡ Ok put
            → Begins (RefusesTimeout timeout_ms) (within limits (put_start timeout_ms put)) result }
        ensures accepted { OnOk result (pos 0 <ℤ timeout_ms) }
        ensures dials { IfOk result (λ device. Dials addresses seed device.agent.dialler) }
        ensures timeout { IfOk result (λ device. device.agent.timeout_ms ≡ timeout_ms) }
        ensures unread { (fault : SavedFault) → bytes_read saved.now ≡ Err fault → fault ≢ saved_faults.Memory → pos 0 <ℤ timeout_ms
            → result ≡ Err refusals.NotSaved }
    {
        let client = resumed(alloc, timeout_ms, saved)?;
        let settings = Settings {
            timeout_ms,
            addresses,
            seed,
        };
        Device::of(alloc, client.with_limits(limits), settings)
    }

    // An agent of this client, which has said nothing yet. The one refusal is `Memory`.
    fn of(
        alloc: Global,
        client: Client<Global>,
        settings: Settings,
    ) -> Result<Device, DeviceRefusal>
        requires { pos 0 <ℤ settings.timeout_ms }
        ensures begins { IfOk result (BeginsWith (view_of client)) }
        ensures dials { IfOk result (λ device. Dials settings.addresses settings.seed device.agent.dialler) }
        ensures timeout { IfOk result (λ device. device.agent.timeout_ms ≡ settings.timeout_ms) }
        ensures refused { IfErr result (λ refusal. refusal ≡ refusals.Memory) }
    {
        match Agent::new(alloc, client, settings) {
            Ok(agent) => Ok(Device {
                agent,
                contenders: Contenders::new(alloc),
                is_contending: false,
                said: Vec::new(alloc),
                news: Vec::new(alloc),
                read: 0,
                is_over: false,
                revision: Revision::new(),
            }),
            Err(_) => Err(DeviceRefusal::Memory),
        }
    }

    /// Memory ran out, within this step or an earlier one. Nothing is told.
    pub(crate) fn stop(&mut self) -> DeviceRefusal
        ensures halted { result ≡ refusals.Halted }
        ensures over { self.new.is_over ≡ true }
        ensures said { self.new.said.items ≡ [] }
        ensures news { self.new.news.items ≡ [] }
        ensures number { self.new.revision.number ≡ raised self.old.revision.number }
        ensures agent { self.new.agent ≡ self.old.agent }
    {
        self.said.clear();
        self.news.clear();
        self.is_over = true;
        self.revision.raise();
        DeviceRefusal::Halted
    }

    /// Takes an input that is noticed at this moment. What was said before is forgotten. The one refusal is `Halted`, which each later step
    /// answers too.
    pub(crate) fn step_at(
        &mut self,
        now: u64,
        input: AgentInput<Global>,
    ) -> Result<(), DeviceRefusal>
        ensures stepped { OnOk result (Stepped now (happening input) self.old self.new) }
        ensures stopped { IfErr result (λ refusal. (refusal ≡ refusals.Halted) × Stopped self.old self.new) }
    {
        self.read = 0;
        if self.is_over {
            return Err(self.stop());
        }
        let is_bytes = is_bytes(&input);
        let Ok(()) = self.agent.step_into(now, input, &mut self.said) else {
            return Err(self.stop());
        };
        let Ok(()) = self.go_on(now) else {
            return Err(self.stop());
        };
        revise(&mut self.revision, is_bytes, self.said.as_slice());
        Ok(())
    }

    /// The connection that was asked for is there.
    pub fn opened_at(&mut self, now: u64) -> Result<(), DeviceRefusal>
        ensures { Steps RefusesNothing now Opened self.old (code_of result) self.new }
    {
        self.step_at(now, AgentInput::Opened)
    }

    /// The connection that was asked for could not be made.
    pub fn failed_at(&mut self, now: u64) -> Result<(), DeviceRefusal>
        ensures { Steps RefusesNothing now Failed self.old (code_of result) self.new }
    {
        self.step_at(now, AgentInput::Failed)
    }

    /// Bytes came from the server.
    pub fn bytes_at(&mut self, alloc: Global, now: u64, bytes: &[u8]) -> Result<(), DeviceRefusal>
        ensures { Steps RefusesMemory now (Bytes bytes.now) self.old (code_of result) self.new }
    {
        let owned = Vec::from_slice(alloc, bytes)?;
        self.step_at(now, AgentInput::Bytes(owned))
    }

    /// The connection is over.
    pub fn cut_at(&mut self, now: u64) -> Result<(), DeviceRefusal>
        ensures { Steps RefusesNothing now Cut self.old (code_of result) self.new }
    {
        self.step_at(now, AgentInput::Cut)
    }

    /// The moment, and nothing else.
    pub fn tick(&mut self, now: u64) -> Result<(), DeviceRefusal>
        ensures { Steps RefusesNothing now Moment self.old (code_of result) self.new }
    {
        self.step_at(now, AgentInput::Moment)
    }

    /// Takes the stale answers out of what the client keeps. It is no step: what was said is there still.
    pub fn forget_stale(&mut self)
        ensures { Forgot self.old self.new }
    {
        self.agent.forget_stale();
    }

    // When the first pause of a contender is over, if one may ask then.
    fn pause(&self) -> Option<u64>
        ensures { result ≡ until_in self.now }
    {
        if !self.is_contending {
            return None;
        }
        self.contenders.deadline(self.agent.client())
    }

    /// The first moment at which something is due: at the latest then a step is to be made, if nothing else happens. It may be past, and
    /// there is none if nothing will be due, as after a close.
    pub fn deadline(&self) -> Option<u64>
        ensures before { IfSome result (λ first. (moment : ℕ) → moment < 2 ^ 64 → moment < first → NothingDue self.now moment) }
        ensures due { IfSome result (λ first. ¬ (NothingDue self.now first)) }
        ensures never { result ≡ None → (moment : ℕ) → moment < 2 ^ 64 → NothingDue self.now moment }
        ensures closed { (view_of self.now.agent.asker.follower.client).standing.state ≡ Closed → result ≡ None }
    {
        sooner(self.agent.deadline(), self.pause())
    }

    /// The list of addresses is another one: its first ones, as many as `kept`, were in the list before, and as many as `added`, after
    /// them, were not. `is_listed` says whether it has that of the connection or of the attempt, or else the one that was dialled last.
    pub fn addresses_at(
        &mut self,
        now: u64,
        kept: usize,
        added: usize,
        is_listed: bool,
    ) -> Result<(), DeviceRefusal>
        ensures { Steps RefusesNothing now (Addressed kept added is_listed) self.old (code_of result) self.new }
    {
        let input = AgentInput::Addresses {
            kept,
            added,
            is_listed,
        };
        self.step_at(now, input)
    }
}
