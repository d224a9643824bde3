//! Contenders of a session: what they hear of what its agent says, and the calls that they ask.

ghost use Rattle.std.specs.Prelude.{◌≡◌, [], true, OnErr, OnOk};
ghost use Rattle.std.specs.List.{list_any};
ghost use Rattle.zk_client.specs.Clients.{view_of};
ghost use Rattle.zk_agent.specs.Agents.{IsBroken};
ghost use Rattle.ffi_device.specs.inner.Chains.{IsHeardOf, TellsMore};
ghost use Rattle.ffi_device.specs.Contending.{is_own_answer, HearsAll, HearsAnswer, HearsWhere, Notes};
ghost use Rattle.ffi_device.specs.inner.Contending.{AsksAll, HasNobody, WentOn};

use crate::device::Device;
use std::alloc::{AllocError, Global};
use std::mem;
use zk_agent::{Action, Agent, AgentInput};
use zk_client::{Client, State};
use zk_contend::{Contenders, is_contenders};

// Whether this answers a call of a contender.
fn is_own_answer(action: &Action<Global>) -> bool
    ensures { result ≡ is_own_answer action.now }
{
    match action {
        Action::Answer { ticket, .. } => is_contenders(*ticket),
        _ => false,
    }
}

fn has_own_answer(actions: &[Action<Global>]) -> bool
    ensures { result ≡ list_any is_own_answer actions.now }
{
    actions.iter().any(|action| is_own_answer(action))
}

// They note what is told to the program.
fn note(contenders: &mut Contenders<Global>, action: &Action<Global>) -> Result<(), AllocError>
    ensures { OnOk result (Notes action.now contenders.old contenders.new) }
{
    match action {
        Action::Report { path, event, .. } => contenders.note(path.as_str(), *event),
        Action::State(State::Closed) => contenders.close(),
        Action::State(_) => contenders.wake(),
        Action::Renewed => contenders.renew(),
        _ => Ok(()),
    }
}

// The contender that asked hears the answer.
fn hear_answer(
    client: &Client<Global>,
    now: u64,
    action: Action<Global>,
    contenders: &mut Contenders<Global>,
) -> Result<(), AllocError>
    ensures { OnOk result (HearsAnswer (view_of client.now) now action contenders.old contenders.new) }
{
    match action {
        Action::Answer { ticket, outcome } => contenders.hear(client, now, ticket, outcome),
        other => {
            drop(other);
            Ok(())
        }
    }
}

// They hear an action of the agent. It is told, unless it answers a call of theirs.
fn hear(
    client: &Client<Global>,
    now: u64,
    action: Action<Global>,
    contenders: &mut Contenders<Global>,
    said: &mut Vec<Action<Global>>,
) -> Result<(), AllocError>
    ensures hears { OnOk result (HearsWhere (is_own_answer action) (view_of client.now) now action contenders.old contenders.new) }
    ensures told { OnOk result (IsHeardOf action said.old.items said.new.items) }
{
    if is_own_answer(&action) {
        return hear_answer(client, now, action, contenders);
    }
    note(contenders, &action)?;
    match said.push(action) {
        Ok(()) => Ok(()),
        Err(_) => Err(AllocError),
    }
}

// They hear all of these.
fn hear_all(
    client: &Client<Global>,
    now: u64,
    actions: Vec<Action<Global>>,
    contenders: &mut Contenders<Global>,
    said: &mut Vec<Action<Global>>,
) -> Result<(), AllocError>
    ensures hears { OnOk result (HearsAll (view_of client.now) now contenders.old actions.items contenders.new) }
    ensures told { OnOk result (TellsMore actions.items said.old.items said.new.items) }
{
    for action in actions {
        hear(client, now, action, contenders, said)?;
    }
    Ok(())
}

// The calls that are due of them are asked, one after the other, until none is.
fn ask_all(
    alloc: Global,
    now: u64,
    agent: &mut Agent<Global>,
    contenders: &mut Contenders<Global>,
    said: &mut Vec<Action<Global>>,
) -> Result<(), AllocError>
    ensures asks { OnOk result (AsksAll now (agent.old, contenders.old) agent.new contenders.new said.old.items said.new.items) }
    ensures broke { OnErr result (IsBroken agent.old agent.new) }
{
    for _ in 0..u64::MAX {
        let Some((ticket, call)) = contenders.next(agent.client(), now)? else {
            return Ok(());
        };
        let until = None;
        let input = AgentInput::Call {
            ticket,
            call,
            until,
        };
        let mut more = Vec::new(alloc);
        let Ok(()) = agent.step_into(now, input, &mut more) else {
            return Err(AllocError);
        };
        hear_all(agent.client(), now, more, contenders, said)?;
    }
    Err(AllocError)
}

impl Device {
    // The contenders hear what the agent said at its step, ask what is due of them, and tell how they stand.
    fn contend_on(&mut self, now: u64) -> Result<(), AllocError>
        requires { self.old.news.items ≡ [] }
        ensures went { OnOk result (WentOn true now self.old.contenders self.old.agent self.old.said.items self.new) }
        ensures broke { OnErr result (IsBroken self.old.agent self.new.agent) }
        ensures over { self.new.is_over ≡ self.old.is_over }
        ensures read { self.new.read ≡ self.old.read }
        ensures number { self.new.revision ≡ self.old.revision }
        ensures contends { self.new.is_contending ≡ self.old.is_contending }
    {
        let alloc = *self.said.allocator();
        let said = mem::replace(&mut self.said, Vec::new(alloc));
        hear_all(
            self.agent.client(),
            now,
            said,
            &mut self.contenders,
            &mut self.said,
        )?;
        ask_all(
            alloc,
            now,
            &mut self.agent,
            &mut self.contenders,
            &mut self.said,
        )?;
        self.contenders.tell(self.agent.client(), &mut self.news)
    }

    // Whether no contender is there, no call of one is to be heard of, and nothing of what was said answers one: then nothing is heard.
    fn has_nobody(&self) -> bool
        ensures { result ≡ true → HasNobody self.now.contenders self.now.said.items }
    {
        self.contenders.is_empty() && !has_own_answer(self.said.as_slice())
    }

    /// After a step of the agent: the contenders go on, if there is one. If nobody has contended yet, that costs one test.
    pub(crate) fn go_on(&mut self, now: u64) -> Result<(), AllocError>
        ensures went { OnOk result (WentOn self.old.is_contending now self.old.contenders self.old.agent self.old.said.items self.new) }
        ensures broke { OnErr result (IsBroken self.old.agent self.new.agent) }
        ensures over { self.new.is_over ≡ self.old.is_over }
        ensures read { self.new.read ≡ self.old.read }
        ensures number { self.new.revision ≡ self.old.revision }
        ensures contends { self.new.is_contending ≡ self.old.is_contending }
    {
        self.news.clear();
        if !self.is_contending {
            return Ok(());
        }
        if self.has_nobody() {
            return Ok(());
        }
        self.contend_on(now)
    }
}
