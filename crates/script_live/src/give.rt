//! What is done with what a client says.

ghost use Rattle.std.specs.Prelude.{◌≡◌, ◌++◌, OnOk, OnErr};
ghost use Rattle.std.specs.List.{filter, list_any};
ghost use Rattle.zk_turns.specs.Turns.{ends_connection};
ghost use Rattle.zk_client.specs.Views.{output_view, said};
ghost use Rattle.script_live.specs.Trails.{is_given};

use std::alloc::{AllocError, Allocator};
use zk_client::Output;

/// Whether an output is for the caller: all but what goes to the server.
fn is_given<A: Allocator>(output: &Output<A>) -> bool
    ensures { result ≡ is_given (output_view output.now) }
{
    !matches!(output, Output::Send(_))
}

/// Whether the connection is over with one of the outputs, by what they say.
pub(crate) fn has_end<A: Allocator>(outputs: &[Output<A>]) -> bool
    ensures { result ≡ list_any ends_connection (said outputs.now) }
{
    outputs.iter().any(|output| output.ends_connection())
}

/// Gives those that are for the caller, in order.
pub(crate) fn give<A: Allocator>(
    mut made: Vec<Output<A>, A>,
    outputs: &mut Vec<Output<A>, A>,
) -> Result<(), AllocError>
    ensures ok { OnOk result (said outputs.new.items ≡ said outputs.old.items ++ filter is_given (said made.items)) }
    ensures err { OnErr result (outputs.new.items ≡ outputs.old.items) }
{
    made.retain(
        |output: &Output<A>| -> bool
            ensures { result ≡ is_given (output_view output.now) }
        { is_given(output) },
    );
    outputs.append(&mut made)
}
