//! Copies of inputs.

ghost use Rattle.std.specs.Prelude.{◌≡◌, map, take, IfOk};
ghost use Rattle.zk_client.specs.Views.{input_view};

use crate::recording::Copies;
use std::alloc::{AllocError, Allocator};
use zk_client::Input;

fn copied_input<A: Allocator + Copy>(alloc: A, input: &Input<A>) -> Result<Input<A>, AllocError>
    ensures { IfOk result (λ copy. input_view copy ≡ input_view input.now) }
{
    match input {
        Input::Opened => Ok(Input::Opened),
        Input::Bytes(bytes) => Ok(Input::Bytes(Vec::from_slice(alloc, bytes)?)),
        Input::Cut => Ok(Input::Cut),
        Input::Now(moment) => Ok(Input::Now(*moment)),
        Input::Call(ticket, call) => Ok(Input::Call(*ticket, call.copied(alloc)?)),
    }
}

fn two_copies<A: Allocator + Copy>(alloc: A, input: &Input<A>) -> Result<Copies<A>, AllocError>
    ensures { IfOk result (λ copies. input_view copies.handed ≡ input_view input.now) }
{
    let handed = copied_input(alloc, input)?;
    let Ok(kept) = copied_input(alloc, input) else {
        drop(handed);
        return Err(AllocError);
    };
    Ok(Copies { handed, kept })
}

pub(crate) fn copied_inputs<A: Allocator + Copy>(
    alloc: A,
    inputs: &[Input<A>],
) -> Result<Vec<Copies<A>, A>, AllocError>
    ensures inputs { IfOk result (λ all. map (λ copies. input_view copies.handed) all.items ≡ map input_view inputs.now) }
{
    let mut all = Vec::new(alloc);
    for input in inputs {
        all.push(two_copies(alloc, input)?)?;
    }
    Ok(all)
}
