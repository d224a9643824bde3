//! A client, run to the end of its inputs.

ghost use Rattle.std.specs.Prelude.{◌≡◌, [], ◌∷◌, IfSome, OnOk, OnErr};
ghost use Rattle.zk_turns.specs.Turns.{Input, Halts};
ghost use Rattle.zk_client.specs.Clients.{view_of};
ghost use Rattle.zk_client.specs.Runs.{Ran};

use crate::client::Client;
use crate::fault::Halt;
use crate::outside::Outside;
use std::alloc::Allocator;
use zk_turns::one_halt;

/// Takes each input from the outside to the client, and what the client says back, until no input comes.
///
/// Each input that was handed out is one turn, and the outside is given its outputs. An error says that memory ran out: the input
/// that was handed out last is no turn, and its outputs are not given.
pub fn run<A: Allocator + Copy, O: Outside<A>>(
    client: &mut Client<A>,
    outside: &mut O,
) -> Result<(), Halt>
    // Each input is one of these turns, and none is left.
    ensures done { OnOk result (Ran (view_of client.old) (view_of client.new) (O.told outside.old) (O.told outside.new) [] []
        × IfSome (O.told outside.new) (λ told. told.coming ≡ [])) }
    // The input that was handed out last is no turn.
    ensures halt { OnErr result ((input : Input)
        × Ran (view_of client.old) (view_of client.new) (O.told outside.old) (O.told outside.new) (Halts ∷ []) (input ∷ [])) }
{
    one_halt();
    while let Some(input) = outside.next() {
        let mut outputs = client.step(input)?;
        outside.give(&mut outputs);
    }
    Ok(())
}
