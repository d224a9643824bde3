//! What a caller asks, from bytes.

ghost use Rattle.std.specs.Prelude.{◌≡◌, ◌<◌, IfOk, IfErr, IfSome, None, OnOk};
ghost use Rattle.std.specs.Option.{option_map};
ghost use Rattle.zk_conversation.specs.Calls.{Exists, GetData, GetChildren, SetData, Create, Delete, Close, raw_numbered};
ghost use Rattle.zk_conversation.specs.Views.{call_view, mode_number};
ghost use Rattle.ffi_device.specs.Codes.{code_of, refusal_code};
ghost use Rattle.ffi_device.specs.Refused.{RefusesCreate, RefusesNothing, RefusesPath};
ghost use Rattle.ffi_device.specs.declared.refusal.DeviceRefusal.TheVariants as refusals;
ghost use Rattle.ffi_device.specs.Steps.{Calls, Stepped, Steps, StepsRaw, Stopped, limit_of};

use crate::device::Device;
use crate::paths::path_of;
use crate::refusal::DeviceRefusal;
use std::alloc::Global;
use zk_agent::AgentInput;
use zk_client::{Call, CreateMode, RawOperation};
use zk_nodes::copied_data;

// A call that sets the data of a node, null if there are none. A refusal is as of `path_of`.
fn set_data(
    alloc: Global,
    path: &[u8],
    bytes: Option<&[u8]>,
    version: i32,
) -> Result<Call<Global>, DeviceRefusal>
    ensures call { IfOk result (λ call. call_view call ≡ SetData path.now (option_map (λ s. s.now) bytes.entry) version) }
    ensures refused { IfErr result (λ refusal. RefusesPath path.now (refusal_code refusal)) }
{
    let path = path_of(alloc, path)?;
    let bytes = copied_data(alloc, bytes)?;
    Ok(Call::SetData {
        path,
        bytes,
        version,
    })
}

// The kind of node of this number.
fn mode_of(number: u32) -> Option<CreateMode>
    ensures some { IfSome result (λ mode. mode_number mode ≡ number) }
    ensures none { result ≡ None → 3 < number }
{
    match number {
        0 => Some(CreateMode::Persistent),
        1 => Some(CreateMode::Ephemeral),
        2 => Some(CreateMode::PersistentSequential),
        3 => Some(CreateMode::EphemeralSequential),
        _ => None,
    }
}

// A call that makes a node with these data, null if there are none. A refusal is `NoSuchMode`, else as of `path_of`.
#[tactic(auto, using(crate::proofs::Refusing::refuses_create))]
fn create(
    alloc: Global,
    path: &[u8],
    bytes: Option<&[u8]>,
    mode: u32,
) -> Result<Call<Global>, DeviceRefusal>
    ensures call { IfOk result (λ call. call_view call ≡ Create path.now (option_map (λ s. s.now) bytes.entry) mode) }
    ensures refused { IfErr result (λ refusal. RefusesCreate path.now mode (refusal_code refusal)) }
{
    let Some(mode) = mode_of(mode) else {
        return Err(DeviceRefusal::NoSuchMode);
    };
    let path = path_of(alloc, path)?;
    let bytes = copied_data(alloc, bytes)?;
    Ok(Call::Create { path, bytes, mode })
}

// The limit of a call at this moment. At the last one of all there is none.
fn limit_of(until: u64) -> Option<u64>
    ensures { result ≡ limit_of until }
{
    if until == u64::MAX { None } else { Some(until) }
}

impl Device {
    // A caller asks. The one refusal is `Halted`.
    fn ask_at(
        &mut self,
        now: u64,
        ticket: u64,
        until: u64,
        call: Call<Global>,
    ) -> Result<(), DeviceRefusal>
        ensures stepped { OnOk result (Stepped now (Calls ticket (call_view call) (limit_of until)) self.old self.new) }
        ensures stopped { IfErr result (λ refusal. (refusal ≡ refusals.Halted) × Stopped self.old self.new) }
    {
        let until = limit_of(until);
        self.step_at(
            now,
            AgentInput::Call {
                ticket,
                call,
                until,
            },
        )
    }

    /// Asks whether there is a node, and what is known of it. As each call it waits until this moment at most, and without a limit at the
    /// last one of all.
    #[tactic(auto, using(crate::proofs::Refusing::refuses))]
    pub fn exists_at(
        &mut self,
        alloc: Global,
        now: u64,
        ticket: u64,
        until: u64,
        path: &[u8],
        watch: bool,
    ) -> Result<(), DeviceRefusal>
        ensures { Steps (RefusesPath path.now) now (Calls ticket (Exists path.now watch) (limit_of until)) self.old
            (code_of result) self.new }
    {
        let path = path_of(alloc, path)?;
        self.ask_at(now, ticket, until, Call::Exists { path, watch })
    }

    /// Asks for the data of a node.
    #[tactic(auto, using(crate::proofs::Refusing::refuses))]
    pub fn get_data_at(
        &mut self,
        alloc: Global,
        now: u64,
        ticket: u64,
        until: u64,
        path: &[u8],
        watch: bool,
    ) -> Result<(), DeviceRefusal>
        ensures { Steps (RefusesPath path.now) now (Calls ticket (GetData path.now watch) (limit_of until)) self.old
            (code_of result) self.new }
    {
        let path = path_of(alloc, path)?;
        self.ask_at(now, ticket, until, Call::GetData { path, watch })
    }

    /// Asks for the names below a node.
    #[tactic(auto, using(crate::proofs::Refusing::refuses))]
    pub fn get_children_at(
        &mut self,
        alloc: Global,
        now: u64,
        ticket: u64,
        until: u64,
        path: &[u8],
        watch: bool,
    ) -> Result<(), DeviceRefusal>
        ensures { Steps (RefusesPath path.now) now (Calls ticket (GetChildren path.now watch) (limit_of until)) self.old
            (code_of result) self.new }
    {
        let path = path_of(alloc, path)?;
        self.ask_at(now, ticket, until, Call::GetChildren { path, watch })
    }

    /// Asks to set the data of a node, null if there are none. Version -1 is any.
    #[tactic(auto, using(crate::proofs::Refusing::refuses))]
    pub fn set_data_at(
        &mut self,
        alloc: Global,
        now: u64,
        ticket: u64,
        until: u64,
        path: &[u8],
        bytes: Option<&[u8]>,
        version: i32,
    ) -> Result<(), DeviceRefusal>
        ensures { Steps (RefusesPath path.now) now (Calls ticket (SetData path.now (option_map (λ s. s.now) bytes.entry) version)
            (limit_of until)) self.old (code_of result) self.new }
    {
        let call = set_data(alloc, path, bytes, version)?;
        self.ask_at(now, ticket, until, call)
    }

    /// Asks to make a node with these data, null if there are none. The mode is a sum: 1 if the node goes with the session, and 2
    /// where a number is added to its name.
    #[tactic(auto, using(crate::proofs::Refusing::refuses))]
    pub fn create_at(
        &mut self,
        alloc: Global,
        now: u64,
        ticket: u64,
        until: u64,
        path: &[u8],
        bytes: Option<&[u8]>,
        mode: u32,
    ) -> Result<(), DeviceRefusal>
        ensures { Steps (RefusesCreate path.now mode) now (Calls ticket (Create path.now (option_map (λ s. s.now) bytes.entry) mode)
            (limit_of until)) self.old (code_of result) self.new }
    {
        let call = create(alloc, path, bytes, mode)?;
        self.ask_at(now, ticket, until, call)
    }

    /// Asks to delete a node. Version -1 is any.
    #[tactic(auto, using(crate::proofs::Refusing::refuses))]
    pub fn delete_at(
        &mut self,
        alloc: Global,
        now: u64,
        ticket: u64,
        until: u64,
        path: &[u8],
        version: i32,
    ) -> Result<(), DeviceRefusal>
        ensures { Steps (RefusesPath path.now) now (Calls ticket (Delete path.now version) (limit_of until)) self.old
            (code_of result) self.new }
    {
        let path = path_of(alloc, path)?;
        self.ask_at(now, ticket, until, Call::Delete { path, version })
    }

    /// Asks for another operation, by its number, with the bytes that stand after the header of its request. If a caller may spell none
    /// of this number, nothing happens.
    pub fn raw_at(
        &mut self,
        alloc: Global,
        now: u64,
        ticket: u64,
        until: u64,
        operation: i32,
        body: &[u8],
    ) -> Result<(), DeviceRefusal>
        ensures { StepsRaw (raw_numbered operation) body.now now ticket (limit_of until) self.old (code_of result) self.new }
    {
        let Some(operation) = RawOperation::new(operation) else {
            return Err(DeviceRefusal::NoSuchOperation);
        };
        let body = Vec::from_slice(alloc, body)?;
        self.ask_at(now, ticket, until, Call::Raw { operation, body })
    }

    /// Asks to end the session.
    pub fn close_session_at(
        &mut self,
        now: u64,
        ticket: u64,
        until: u64,
    ) -> Result<(), DeviceRefusal>
        ensures { Steps RefusesNothing now (Calls ticket Close (limit_of until)) self.old (code_of result) self.new }
    {
        self.ask_at(now, ticket, until, Call::Close)
    }
}
