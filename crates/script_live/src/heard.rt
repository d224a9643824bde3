//! What a client says to an input, as printed lines: all but what goes to the server.

ghost use Rattle.std.specs.Prelude.{◌≡◌, ◌++◌, ℕ, List, false, is_some, IfOk, IfErr, OnOk, string_bytes};
ghost use Rattle.zk_turns.specs.Turns.{Cut};
ghost use Rattle.zk_client.specs.Clients.{view_of};
ghost use Rattle.zk_client.specs.Views.{input_view, output_view, said};
ghost use Rattle.script_words.specs.Stops.{IfHalted, IsWant};
ghost use Rattle.script_live.specs.Flowing.{flow_of};
ghost use Rattle.script_live.specs.Heard.{tape, Halts, Hears, TellsEach, TellsHeard};
ghost use Rattle.script_live.specs.Printed.{Hands, Prints};

use crate::joint::Joint;
use script_replay::outputs::push_output;
use script_words::stop::LineStop;
use std::alloc::{AllocError, Allocator};
use zk_client::{Input, Output};
use zk_link::Stream;

/// Adds the line of an output, and nothing if it goes to the server.
fn push_heard<A: Allocator + Copy>(
    text: &mut String<A>,
    alloc: A,
    output: &Output<A>,
) -> Result<(), AllocError>
    ensures { OnOk result
        ((told : List ℕ) × TellsHeard (output_view output.now) told × (string_bytes text.new ≡ string_bytes text.old ++ told)) }
{
    match output {
        Output::Send(_) => Ok(()),
        output => push_output(text, alloc, output),
    }
}

/// The lines of outputs, in order.
fn heard_text<A: Allocator + Copy>(alloc: A, outputs: &[Output<A>]) -> Result<String<A>, AllocError>
    ensures { IfOk result (λ text. TellsEach (said outputs.now) (string_bytes text)) }
{
    let mut text = String::new(alloc);
    for output in outputs {
        push_heard(&mut text, alloc, output)?;
    }
    Ok(text)
}

/// Adds what is printed of outputs.
fn push_told<A: Allocator + Copy>(
    alloc: A,
    outputs: &[Output<A>],
    text: &mut String<A>,
) -> Result<(), AllocError>
    ensures { OnOk result ((told : List ℕ) × TellsEach (said outputs.now) told × (string_bytes text.new ≡ string_bytes text.old ++ told)) }
{
    let told = heard_text(alloc, outputs)?;
    text.push_str(told.as_str())
}

/// What a client says to an input, except what goes to the server, and whether the connection has not failed.
#[derive(Drop)]
pub struct Heard<A: Allocator> {
    pub outputs: Vec<Output<A>, A>,
    pub is_well: bool,
}

/// Hands a client an input, and adds what is printed of what it says. If that is answered by a halt, the client has halted.
pub fn printed_step<A: Allocator + Copy, S: Stream>(
    alloc: A,
    joint: &mut Joint<A, S>,
    input: Input<A>,
    text: &mut String<A>,
) -> Result<Heard<A>, LineStop>
    ensures ok { OnOk result (Hears (tape (view_of joint.old.client) (string_bytes text.old)) (input_view input)
        (tape (view_of joint.new.client) (string_bytes text.new))) }
    ensures flows { OnOk result (Hands (input_view input) (flow_of S.remaining S.contents joint.old)
        (flow_of S.remaining S.contents joint.new) (string_bytes text.old) (string_bytes text.new)) }
    ensures err { IfErr result IsWant }
    ensures halt { IfErr result (IfHalted (Halts (tape (view_of joint.old.client) (string_bytes text.old)) (input_view input)
        (tape (view_of joint.new.client) (string_bytes text.new)))) }
{
    let mut outputs = Vec::new(alloc);
    let is_well = match joint.step(input, &mut outputs) {
        Ok(is_well) => is_well,
        Err(stop) => return Err(stop),
    };
    push_told(alloc, outputs.as_slice(), text)?;
    Ok(Heard { outputs, is_well })
}

/// Ends the connection, and adds what is printed of what the client says to that. If that is answered by a halt, it has halted.
pub fn cut<A: Allocator + Copy, S: Stream>(
    alloc: A,
    joint: &mut Joint<A, S>,
    text: &mut String<A>,
) -> Result<(), LineStop>
    ensures ok { OnOk result
        (Hears (tape (view_of joint.old.client) (string_bytes text.old)) Cut (tape (view_of joint.new.client) (string_bytes text.new))) }
    ensures flows { OnOk result (Prints (flow_of S.remaining S.contents joint.old) (flow_of S.remaining S.contents joint.new)
        (string_bytes text.old) (string_bytes text.new)) }
    ensures shut { OnOk result (is_some joint.new.stream ≡ false) }
    ensures err { IfErr result IsWant }
    ensures halt { IfErr result (IfHalted
        (Halts (tape (view_of joint.old.client) (string_bytes text.old)) Cut (tape (view_of joint.new.client) (string_bytes text.new)))) }
{
    let mut outputs = Vec::new(alloc);
    if let Err(stop) = joint.cut(&mut outputs) {
        return Err(stop);
    }
    match push_told(alloc, outputs.as_slice(), text) {
        Ok(()) => Ok(()),
        Err(_) => Err(LineStop::Memory),
    }
}
