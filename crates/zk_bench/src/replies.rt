//! What a server sends.

ghost use Rattle.std.specs.Prelude.{◌≡◌, negsuc, pos, Some, OnOk, IsErrOf, take as first, length as bytes_of};
ghost use Rattle.zk_records.specs.Layouts.{watcher_event};
ghost use Rattle.zk_records.specs.Events.{event_number};
ghost use Rattle.zk_nodes.specs.PathFault.{IsPath};
ghost use Rattle.zk_bench.specs.inner.Serving.{Sends, SendsHeader, SendsResponse, CanBeSent, CanBeTold};
ghost use Rattle.zk_bench.specs.declared.stop.Stop.TheVariants as stops;
ghost use Rattle.zk_records.specs.Views.{response_of};

use crate::frames::push_frame;
use crate::stop::Stop;
use std::alloc::Allocator;
use zk_jute::{Record, TextRef};
use zk_records::{ConnectResponse, Event, Reply, ReplyHeader, WatcherEventRef};

// The state of a connection that a notice tells: SyncConnected.
const CONNECTED: i32 = 3;

/// Sends a reply that is a header alone.
pub(crate) fn send_header<A: Allocator + Copy>(
    alloc: A,
    header: ReplyHeader,
    out: &mut Vec<u8, A>,
) -> Result<(), Stop>
    ensures sends { OnOk result (SendsHeader (header.xid, (header.zxid, header.err)) out.old.items out.new.items) }
    ensures ended { IsErrOf result stops.End → out.new.items ≡ out.old.items }
    ensures stays { ¬ IsErrOf result stops.End }
    ensures begun { first (bytes_of out.old.items) out.new.items ≡ out.old.items }
{
    let mut payload = Vec::new(alloc);
    header.put(&mut payload)?;
    push_frame(&payload, out)
}

/// Sends a reply with err 0 and a result.
pub(crate) fn send_result<A: Allocator + Copy, R: Record<A> + Drop>(
    alloc: A,
    xid: i32,
    zxid: i64,
    answer: R,
    out: &mut Vec<u8, A>,
) -> Result<(), Stop>
    ensures sends { OnOk result (Sends (xid, (zxid, pos 0)) R.layout (R.view answer) out.old.items out.new.items) }
    ensures ended { IsErrOf result stops.End → out.new.items ≡ out.old.items }
    ensures stays { CanBeSent R.layout (R.view answer) → ¬ IsErrOf result stops.End }
    ensures begun { first (bytes_of out.old.items) out.new.items ≡ out.old.items }
{
    let reply = Reply {
        header: ReplyHeader { xid, zxid, err: 0 },
        result: Some(answer),
    };
    let mut payload = Vec::new(alloc);
    reply.put(&mut payload)?;
    push_frame(&payload, out)
}

/// Sends a notice of an event at a path: its header has xid -1, zxid -1 and err 0.
pub(crate) fn send_notice<A: Allocator + Copy>(
    alloc: A,
    event: Event,
    path: &str,
    out: &mut Vec<u8, A>,
) -> Result<(), Stop>
    ensures sends { OnOk result
        (Sends (negsuc 0, (negsuc 0, pos 0)) watcher_event (event_number event, (pos 3, Some path.now)) out.old.items out.new.items) }
    ensures ended { IsErrOf result stops.End → out.new.items ≡ out.old.items }
    ensures stays { IsPath path.now → ¬ IsErrOf result stops.End }
    ensures begun { first (bytes_of out.old.items) out.new.items ≡ out.old.items }
{
    let notice = WatcherEventRef {
        kind: event.number(),
        state: CONNECTED,
        path: TextRef { text: Some(path) },
    };
    send_result(alloc, -1, -1, notice, out)
}

/// Sends the answer to a ConnectRequest, which has no header.
pub(crate) fn send_response<A: Allocator + Copy>(
    alloc: A,
    response: ConnectResponse<A>,
    out: &mut Vec<u8, A>,
) -> Result<(), Stop>
    ensures sends { OnOk result (SendsResponse (response_of response) out.old.items out.new.items) }
    ensures ended { IsErrOf result stops.End → out.new.items ≡ out.old.items }
    ensures stays { CanBeTold (response_of response) → ¬ IsErrOf result stops.End }
{
    let mut payload = Vec::new(alloc);
    let put = response.put(&mut payload);
    drop(response);
    put?;
    push_frame(&payload, out)
}
