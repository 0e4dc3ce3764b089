//! The master's end of a connection. `subscribing.rt` has the scheduler's end.
ghost use Rattle.mesosev_serve.specs.Serving.{ServesOne};

use crate::connection::{Served, report_served};
use crate::request::ask;
use crate::respond::reply_to;
use crate::response_writer::write_reply;
use mes_double_master::Master;
use mes_frame::{Sink, Source, WriteFault};
use mes_msg::Event;
use mesosev_stream::ChunkSize;
use std::alloc::Global;

/// Serves one connection: reads a request, writes the response, and prints the connection's lines.
///
/// - Another path: 404. Another method: 405.
/// - A reader that fails or ends inside the body: no response.
/// - Any other invalid request, or a body that is not a call: 400.
/// - A call: the status that the test master returns. With status 200 the stream follows.
///
/// A stream is written in chunks of `most` bytes: SUBSCRIBED, then `events`. OFFERS, RESCIND and
/// UPDATE go through the master. Events that the master refuses and SUBSCRIBED are skipped. Each
/// event is sent at most once, in order, and no RESCIND is repeated (`serve_laws`). All events are
/// encoded before the first byte is written.
///
/// If an allocation fails before the first byte is written, there is no response. Errors: the lines
/// were not printed completely.
pub fn serve_one<R: Source, W: Sink, O: Sink>(
    alloc: Global,
    master: &mut Master,
    events: &[Event],
    most: ChunkSize,
    reader: &mut R,
    writer: &mut W,
    out: &mut O,
) -> Result<Served, WriteFault>
    // The bytes read, written and printed, the master's new state, and the result.
    ensures { ServesOne master.old events.now most (R.device reader.old)
        (R.device reader.new)
        (W.device writer.old) (W.device writer.new)
        (O.device out.old) (O.device out.new) master.new
        result }
{
    let asked = ask(alloc, reader);
    let reply = reply_to(alloc, master, events, &asked);
    let sent = write_reply(alloc, &reply, most, writer);
    report_served(out, &reply, &asked, &sent)
}
