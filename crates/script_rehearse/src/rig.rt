//! A client, and the servers over a history.

ghost use Rattle.std.specs.Prelude.{◌<ℤ◌, pos};

use crate::bench_line::BenchLine;
use crate::called::add_path;
use crate::good::push_paths;
use crate::heard::hear_all;
use crate::server::Server;
use script_replay::call_line::AskedCall;
use script_replay::client_line::ClientLine;
use script_replay::driven::driven;
use script_replay::outputs::outputs_text;
use script_words::stop::LineStop;
use std::alloc::{AllocError, Allocator};
use std::collections::BTreeSet;
use std::mem;
use zk_bench::Bench;
use zk_client::{Client, Input};
use zk_history::History;

/// A client that asks for a timeout in milliseconds, the servers over a history, and the paths that calls named.
#[derive(Drop)]
pub struct Rig<A: Allocator + Copy> {
    timeout: i32,
    client: Client<A>,
    bench: Bench<A>,
    called: BTreeSet<String<A>, A>,
    ghost above: { pos 0 <ℤ timeout },
}

impl<A: Allocator + Copy> Rig<A> {
    ghost use Rattle.std.specs.Prelude.{◌≡◌, ◌≤◌, ◌<ℤ◌, pos, unsigned_abs, ℕ, List, IfOk, IfErr, take, string_bytes};
    ghost use Rattle.zk_client.specs.Views.{input_view};
    ghost use Rattle.zk_turns.specs.Turns.{Bytes, Call, new_start};
    ghost use Rattle.zk_turns.specs.Ranges.{IsResumable};
    ghost use Rattle.script_replay.specs.ClientLines.{ClientValue};
    ghost use Rattle.script_replay.specs.Lines.{client_value_of, asked_of};
    ghost use Rattle.script_replay.specs.Played.{HaltsAt, HaltsClient};
    ghost use Rattle.script_words.specs.Stops.{IfHalted, IsWant};
    ghost use Rattle.script_rehearse.specs.BenchLines.{TakeLine, ProcessLine};
    ghost use Rattle.script_rehearse.specs.inner.BenchLines.{bench_value_of};
    ghost use Rattle.script_rehearse.specs.Good.{TellsPaths};
    ghost use Rattle.script_rehearse.specs.inner.Scenes.{scene_of};
    ghost use Rattle.script_rehearse.specs.Scenes.{first_scene, Plays, Delivers, Processes, TakesNext, Calls, Rejoins, TellsGood};
    ghost use Rattle.script_rehearse.specs.Scenes.{DoesBench, DoesClientLine, HaltsBench};

    /// A new client, and servers over a history. None is connected.
    pub fn new(alloc: A, timeout: i32, history: History<A>) -> Rig<A>
        requires { pos 0 <ℤ timeout }
        ensures first { scene_of result ≡ first_scene timeout history }
        ensures resumable { IsResumable (new_start (unsigned_abs timeout)) }
    {
        Rig {
            timeout,
            client: Client::new(alloc, timeout),
            bench: Bench::new(alloc, history),
            called: BTreeSet::new(alloc),
        }
    }

    /// The client takes an input, and the servers hear what it says.
    fn play(&mut self, alloc: A, input: Input<A>) -> Result<String<A>, LineStop>
        ensures ok { IfOk result (λ text. Plays (input_view input) (scene_of self.old) (scene_of self.new) (string_bytes text)) }
        ensures err { IfErr result IsWant }
        ensures halt { IfErr result (IfHalted (HaltsAt (input_view input) (scene_of self.old).view (scene_of self.new).view)) }
    {
        let Ok(outputs) = self.client.step(input) else {
            return Err(LineStop::Halted);
        };
        hear_all(&mut self.bench, outputs.as_slice())?;
        let text = outputs_text(alloc, outputs.as_slice())?;
        Ok(text)
    }

    /// A server takes the next transaction.
    fn take_next(&mut self, alloc: A, server: Server) -> Result<String<A>, LineStop>
        ensures ok { IfOk result (λ text. DoesBench (TakeLine server.number) (scene_of self.old) (scene_of self.new) (string_bytes text)) }
        ensures err { IfErr result IsWant }
        ensures halt { IfErr result (IfHalted ⊥) }
    {
        self.bench.take(server.number)?;
        Ok(String::new(alloc))
    }

    /// The connected server processes the next request.
    fn process(&mut self, alloc: A) -> Result<String<A>, LineStop>
        ensures ok { IfOk result (λ text. DoesBench ProcessLine (scene_of self.old) (scene_of self.new) (string_bytes text)) }
        ensures err { IfErr result IsWant }
        ensures halt { IfErr result (IfHalted ⊥) }
    {
        // What is kept is a history.
        let _last = self.bench.history().last_zxid();
        self.bench.process()?;
        Ok(String::new(alloc))
    }

    /// Bytes of the connected server come, if there are any.
    fn deliver(&mut self, alloc: A, most: usize) -> Result<String<A>, LineStop>
        ensures ok { IfOk result (λ text. Delivers most (scene_of self.old) (scene_of self.new) (string_bytes text)) }
        ensures err { IfErr result IsWant }
        ensures halt { IfErr result (IfHalted
            (HaltsAt (Bytes (take most (scene_of self.old).bench.connection.output)) (scene_of self.old).view (scene_of self.new).view)) }
    {
        let bytes = self.bench.output(most)?;
        if bytes.is_empty() {
            return Ok(String::new(alloc));
        }
        self.play(alloc, Input::Bytes(bytes))
    }

    /// The client is asked. The path of the call is looked up by `good` from now on.
    fn call(&mut self, alloc: A, asked: AskedCall<A>) -> Result<String<A>, LineStop>
        ensures ok { IfOk result (λ text. Calls (asked_of asked) (scene_of self.old) (scene_of self.new) (string_bytes text)) }
        ensures err { IfErr result IsWant }
        ensures halt { IfErr result
            (IfHalted (HaltsAt (Call (asked_of asked).ticket (asked_of asked).call) (scene_of self.old).view (scene_of self.new).view)) }
    {
        add_path(alloc, &asked.call, &mut self.called)?;
        self.play(alloc, Input::Call(asked.ticket, asked.call))
    }

    /// Another client takes up the session. No server is connected.
    fn rejoin(&mut self, alloc: A) -> Result<String<A>, LineStop>
        ensures ok { IfOk result (λ text. Rejoins (scene_of self.old) (scene_of self.new) (string_bytes text)) }
        ensures err { IfErr result IsWant }
        ensures halt { IfErr result (IfHalted ⊥) }
    {
        self.bench.disconnect();
        let client = Client::resume(alloc, self.timeout, &self.client.saved())?;
        drop(mem::replace(&mut self.client, client));
        Ok(String::new(alloc))
    }

    /// The lines of the good answers.
    fn good(&self, alloc: A) -> Result<String<A>, AllocError>
        ensures { IfOk result (λ text. TellsGood (scene_of self.now) (string_bytes text)) }
    {
        let mut text = String::new(alloc);
        let history = self.bench.history();
        // What is kept is a history.
        let _last = history.last_zxid();
        push_paths(&mut text, alloc, &self.client, history, &self.called)?;
        Ok(text)
    }

    /// Does with the client what a line says.
    fn drive(&mut self, alloc: A, line: ClientLine<A>) -> Result<String<A>, LineStop>
        ensures ok { IfOk result
            (λ text. DoesClientLine (client_value_of line) (scene_of self.old) (scene_of self.new) (string_bytes text)) }
        ensures err { IfErr result IsWant }
        ensures halt { IfErr result (IfHalted (HaltsClient (client_value_of line) (scene_of self.old).view (scene_of self.new).view)) }
    {
        match line {
            ClientLine::Cut => {
                self.bench.disconnect();
                self.play(alloc, Input::Cut)
            }
            ClientLine::Now(moment) => {
                self.bench.now(moment);
                self.play(alloc, Input::Now(moment))
            }
            ClientLine::Call(asked) => self.call(alloc, asked),
            line => driven(alloc, &mut self.client, line),
        }
    }

    /// Does what a line says, and gives what is to be printed. If that is answered by a halt, the line brings an input, and the
    /// client has halted at it.
    pub fn perform(&mut self, alloc: A, line: BenchLine<A>) -> Result<String<A>, LineStop>
        ensures ok { IfOk result (λ text. DoesBench (bench_value_of line) (scene_of self.old) (scene_of self.new) (string_bytes text)) }
        ensures err { IfErr result IsWant }
        ensures halt { IfErr result (IfHalted (HaltsBench (bench_value_of line) (scene_of self.old) (scene_of self.new))) }
    {
        match line {
            BenchLine::Open(server) => {
                self.bench.connect(server.number);
                self.play(alloc, Input::Opened)
            }
            BenchLine::Take(server) => self.take_next(alloc, server),
            BenchLine::Process => self.process(alloc),
            BenchLine::Deliver(most) => self.deliver(alloc, most),
            BenchLine::Expire => {
                self.bench.expire();
                Ok(String::new(alloc))
            }
            BenchLine::Good => Ok(self.good(alloc)?),
            BenchLine::Rejoin => self.rejoin(alloc),
            BenchLine::Client(line) => self.drive(alloc, line),
        }
    }
}
