//! What the servers hear of a client.

ghost use Rattle.std.specs.Prelude.{◌≡◌, OnOk};
ghost use Rattle.zk_client.specs.Views.{output_view, said};
ghost use Rattle.script_rehearse.specs.Heard.{heard, heard_all};

use std::alloc::{AllocError, Allocator};
use zk_bench::Bench;
use zk_client::Output;

/// The connected server gets what is sent. If the client gives the connection up, or its session is over, no server is
/// connected any more.
fn pass_on_output<A: Allocator + Copy>(
    bench: &mut Bench<A>,
    output: &Output<A>,
) -> Result<(), AllocError>
    ensures { OnOk result (bench.new ≡ heard (output_view output.now) bench.old) }
{
    if output.ends_connection() {
        bench.disconnect();
    }
    match output {
        Output::Send(bytes) => bench.receive(bytes.as_slice()),
        _ => Ok(()),
    }
}

/// The same of all outputs, in order.
pub fn hear_all<A: Allocator + Copy>(
    bench: &mut Bench<A>,
    outputs: &[Output<A>],
) -> Result<(), AllocError>
    ensures { OnOk result (bench.new ≡ heard_all (said outputs.now) bench.old) }
{
    for output in outputs {
        pass_on_output(bench, output)?;
    }
    Ok(())
}
