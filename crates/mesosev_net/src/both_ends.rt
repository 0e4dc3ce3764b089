//! The subcommand `loopback`: both ends of a connection in one process.

ghost use Rattle.std.specs.Prelude.{◌≡◌, ◌⊎◌};
ghost use Rattle.mesosev_net.specs.Looped.{AnswersLoop, Loops, LoopsEvents, ShowsSome, is_whole};
ghost use Rattle.mesosev_stream.specs.Printing.{LacksMemory, Prints};
ghost use Rattle.mesosev_serve.specs.Lines.{write_failed_line};

use crate::framework::framework_info;
use crate::interleaved::{InterleavedReader, MAX_UNREAD};
use crate::pair::{Pair, connected_pair};
use crate::serving::test_master;
use mes_frame::{FromStd, Limit, MemorySink, Sink, Source, WriteFault};
use mes_msg::Event;
use mes_stream::read_plain;
use mesosev_serve::{Served, WRITE_FAILED, report_unsent, send_subscribe, serve_one, show_answer};
use mesosev_stream::{
    ChunkSize, ExitStatus, MAX_READS, RunOutcome, out_of_memory, print_fault, print_text,
};
use std::alloc::{AllocGlobal, Global};
use std::io::{self, BufReader};
use std::mem;
use std::net::{Net, TcpListener, TcpStream};
use uuid::Uuid;

/// The user of the subscribing framework.
const USER: &str = "root";

/// The name of the subscribing framework.
const NAME: &str = "loopback";

/// The host in the request of the subscribing framework.
const HOST: &str = "127.0.0.1";

/// The id of the stream as a number: 00000000-0000-4000-8000-000000000001.
pub const LOOPBACK_STREAM: u128 = 0x4000_8000_0000_0000_0001;

/// Reads events as plain RecordIO, sends them over a socket from a test master to a scheduler in
/// the same process, and prints the events that arrive. The stream has chunks of `most` bytes. The
/// scheduler has the user `root` and the name `loopback`, and prints like `subscribe_over`.
///
/// Prints one line with the status `Fault` for an error of the input, a failed connection or a
/// failed allocation. If the stream or SUBSCRIBE cannot be encoded or sent, the line is `net write
/// failed`. Buffers all events and their encoded stream. Does not free the events and the master,
/// because freeing them took a tenth of the run time.
pub fn loopback<R, I: Source, O: Sink>(
    rt: &R,
    most: ChunkSize,
    input: &mut I,
    out: &mut O,
) -> RunOutcome
where
    R: AllocGlobal + Net<Listener = TcpListener, Stream = TcpStream>,
    // The bytes read from `input`, the text printed, and the outcome.
    ensures { Loops most (I.device input.old) (I.device input.new)
        (O.device out.old) (O.device out.new) result }
{
    let alloc = rt.alloc();
    let mut events = Vec::new(alloc);
    match read_plain(alloc, input, Limit::USUAL, MAX_READS, &mut events) {
        Ok(_) => {
            let stream = Uuid::from_u128(LOOPBACK_STREAM);
            let ended = loop_events(rt, stream, most, events.as_slice(), out);
            mem::forget(events);
            ended
        }
        Err(stop) => ExitStatus::Fault.after(print_fault(out, &stop.fault, stop.used)),
    }
}

/// Sends the events from a test master to a scheduler, and prints the events that arrive.
fn loop_events<R, O: Sink>(
    rt: &R,
    stream: Uuid,
    most: ChunkSize,
    events: &[Event],
    out: &mut O,
) -> RunOutcome
where
    R: AllocGlobal + Net<Listener = TcpListener, Stream = TcpStream>,
    ensures { LoopsEvents stream most events.now (O.device out.old)
        (O.device out.new) result }
{
    let alloc = rt.alloc();
    let pair = match connected_pair(rt) {
        Ok(pair) => pair,
        Err(line) => return ExitStatus::Fault.after(print_text(out, line)),
    };
    let Ok(info) = framework_info(alloc, USER, NAME) else {
        return out_of_memory(out);
    };
    match send_subscribe(alloc, &info, HOST, &mut FromStd::new(&pair.client)) {
        Ok(()) => answer(alloc, stream, most, events, &pair, out),
        Err(fault) => report_unsent(out, &fault),
    }
}

/// Lets a test master respond to the SUBSCRIBE that was sent, and prints the response.
fn answer<O: Sink>(
    alloc: Global,
    stream: Uuid,
    most: ChunkSize,
    events: &[Event],
    pair: &Pair,
    out: &mut O,
) -> RunOutcome
    ensures { AnswersLoop stream most events.now (O.device out.old)
        (O.device out.new) result }
{
    let Ok(mut master) = test_master(alloc, stream, 1) else {
        return out_of_memory(out);
    };
    let mut reader = FromStd::new(&pair.server);
    let mut written = MemorySink::new(alloc, usize::MAX);
    let mut dropped = FromStd::new(io::sink());
    let served = serve_one(
        alloc,
        &mut master,
        events,
        most,
        &mut reader,
        &mut written,
        &mut dropped,
    );
    // The master is not freed, like the events.
    mem::forget(master);
    if is_whole(&served) {
        let asked = reader.counts();
        let was_asked = asked.failures == 0 && asked.idle == 0;
        show(alloc, pair, written.bytes(), was_asked, out)
    } else {
        report_unanswered(out, written.counts().failures)
    }
}

/// Returns whether the whole response was written.
fn is_whole(served: &Result<Served, WriteFault>) -> bool
    ensures { result ≡ is_whole served.now }
{
    match served {
        Ok(served) => served.answered,
        Err(_) => false,
    }
}

/// Prints the response, while the server writes the response. A complete request without a
/// response means that an allocation failed; this error is then printed.
fn show<O: Sink>(
    alloc: Global,
    pair: &Pair,
    bytes: &[u8],
    was_asked: bool,
    out: &mut O,
) -> RunOutcome
    ensures { ShowsSome (O.device out.old)
        (O.device out.new) result
        ⊎ LacksMemory (O.device out.old) (O.device out.new)
        result }
{
    if bytes.is_empty() && was_asked {
        return out_of_memory(out);
    }
    // Without this option the kernel delays small writes.
    let _ = pair.server.set_nodelay(true);
    let turns = InterleavedReader::new(&pair.client, &pair.server, bytes);
    // This capacity lets one call read everything written.
    match BufReader::with_capacity(alloc, MAX_UNREAD, turns) {
        Ok(reader) => show_from(alloc, &mut FromStd::new(reader), out),
        Err(_) => out_of_memory(out),
    }
}

/// Prints the response that `reader` returns.
fn show_from<S: Source, O: Sink>(alloc: Global, reader: &mut S, out: &mut O) -> RunOutcome
    ensures { ShowsSome (O.device out.old)
        (O.device out.new) result }
{
    show_answer(alloc, reader, MAX_READS, out)
}

/// Prints the reason for which there is no response: the response could not be encoded, or an
/// allocation failed.
fn report_unanswered<O: Sink>(out: &mut O, refusals: u64) -> RunOutcome
    ensures { Prints (O.device out.old) (O.device out.new)
        write_failed_line ExitStatus.Fault result
        ⊎ LacksMemory (O.device out.old) (O.device out.new)
        result }
{
    if refusals == 0 {
        ExitStatus::Fault.after(print_text(out, WRITE_FAILED))
    } else {
        out_of_memory(out)
    }
}
