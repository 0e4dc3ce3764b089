//! The subcommand `serve`: a test master that serves connections one after the other.

ghost use Rattle.std.specs.Prelude.{◌≡◌, IfOk};
ghost use Rattle.mesosev_serve.specs.Runs.{new_master};
ghost use Rattle.mesosev_net.specs.Given.{test_framework};
ghost use Rattle.mesosev_net.specs.ServedTurns.{Serves, ServesEvents, ServesNext, ServesTurns};
ghost use Rattle.mesosev_net.specs.StreamIds.{ids_from};

use crate::framework::framework_id;
use crate::ids::stream_ids;
use crate::lines::{ACCEPT_FAILED, BIND_FAILED};
use mes_double_master::Master;
use mes_frame::{FromStd, Limit, Sink, Source};
use mes_json::NoMemory;
use mes_msg::Event;
use mes_stream::read_plain;
use mesosev_serve::serve_one;
use mesosev_stream::{
    ChunkSize, ExitStatus, MAX_READS, RunOutcome, out_of_memory, print_fault, print_text,
};
use std::alloc::{AllocGlobal, Global};
use std::io::Read;
use std::net::{Net, SocketAddr, TcpListener, TcpStream};
use uuid::Uuid;

/// The size of the chunks of a stream, in bytes.
pub const STREAM_CHUNK: u32 = 4_096;

/// The largest number of unread bytes of a request that one read discards.
const UNREAD_READ: usize = 4_096;

/// The largest number of reads that discard unread bytes of a request: 16 MiB in all.
const UNREAD_READS: u32 = 4_096;

/// Reads events as plain RecordIO, then serves `count` connections on a port of 127.0.0.1, one
/// after the other, as a test master of the framework `F1`. The streams have consecutive ids from
/// `stream`, and the events in chunks of `STREAM_CHUNK` bytes. Prints the lines of each connection
/// like `serve_one`.
///
/// A connection is closed before the next is accepted; no client can stop the test master. Prints
/// an error of the input, or of the socket, with the status `Fault`. Buffers all events, and the
/// encoded stream of one connection.
pub fn serve<R, I: Source, O: Sink>(
    rt: &R,
    port: u16,
    count: u16,
    stream: Uuid,
    input: &mut I,
    out: &mut O,
) -> RunOutcome
where
    R: AllocGlobal + Net<Listener = TcpListener, Stream = TcpStream>,
    // The bytes read from `input`, the lines printed, and the outcome.
    ensures { Serves stream count (I.device input.old)
        (I.device input.new)
        (O.device out.old) (O.device out.new) result }
{
    let alloc = rt.alloc();
    let mut events = Vec::new(alloc);
    match read_plain(alloc, input, Limit::USUAL, MAX_READS, &mut events) {
        Ok(_) => serve_events(rt, port, count, stream, events.as_slice(), out),
        Err(stop) => ExitStatus::Fault.after(print_fault(out, &stop.fault, stop.used)),
    }
}

/// Serves a test master with the given events on the given port.
fn serve_events<R, O: Sink>(
    rt: &R,
    port: u16,
    count: u16,
    stream: Uuid,
    events: &[Event],
    out: &mut O,
) -> RunOutcome
where
    R: AllocGlobal + Net<Listener = TcpListener, Stream = TcpStream>,
    ensures { ServesEvents stream count events.now (O.device out.old)
        (O.device out.new) result }
{
    let alloc = rt.alloc();
    let Ok(mut master) = test_master(alloc, stream, count) else {
        return out_of_memory(out);
    };
    match TcpListener::bind(rt, SocketAddr::from(([127, 0, 0, 1], port))) {
        Ok(listener) => serve_turns(alloc, &listener, &mut master, events, count, out),
        Err(_) => ExitStatus::Fault.after(print_text(out, BIND_FAILED)),
    }
}

/// Returns a test master with `count` consecutive stream ids from `stream`.
pub(crate) fn test_master(alloc: Global, stream: Uuid, count: u16) -> Result<Master, NoMemory>
    ensures { IfOk result (λ master. master ≡ new_master test_framework (ids_from stream count)) }
{
    let ids = stream_ids(alloc, stream, count)?;
    let framework = framework_id(alloc)?;
    Ok(Master::new(alloc, framework, ids))
}

/// Serves `count` connections, one after the other.
fn serve_turns<O: Sink>(
    alloc: Global,
    listener: &TcpListener,
    master: &mut Master,
    events: &[Event],
    count: u16,
    out: &mut O,
) -> RunOutcome
    ensures { ServesTurns master.old events.now count (O.device out.old)
        (O.device out.new) result }
{
    let mut printed: u64 = 0;
    for _ in 0..count {
        match serve_next(alloc, listener, master, events, out) {
            Ok(bytes) => printed = printed.saturating_add(bytes),
            Err(ended) => return ended.following(printed),
        }
    }
    RunOutcome::Status(ExitStatus::Success)
}

/// Accepts the next connection, serves it, and closes it. Returns the number of bytes printed.
///
/// Errors: no connection could be accepted, and this error was printed; or the output failed.
fn serve_next<O: Sink>(
    alloc: Global,
    listener: &TcpListener,
    master: &mut Master,
    events: &[Event],
    out: &mut O,
) -> Result<u64, RunOutcome>
    ensures { ServesNext master.old events.now (O.device out.old)
        (O.device out.new) master.new result }
{
    let Ok((stream, _peer)) = listener.accept() else {
        return Err(ExitStatus::Fault.after(print_text(out, ACCEPT_FAILED)));
    };
    let mut reader = FromStd::new(&stream);
    let mut writer = FromStd::new(&stream);
    let served = serve_one(
        alloc,
        master,
        events,
        stream_chunk(),
        &mut reader,
        &mut writer,
        out,
    );
    pass_over_unread(&stream);
    match served {
        Ok(served) => Ok(served.printed),
        Err(fault) => Err(RunOutcome::OutputFailed(fault.sent)),
    }
}

/// Discards the unread bytes of a request that have arrived. Closing a socket with unread bytes
/// resets the connection, and the client may lose the response. Never blocks.
fn pass_over_unread(stream: &TcpStream) {
    if stream.set_nonblocking(true).is_err() {
        return;
    }
    let mut unread = stream;
    let mut buffer = [0u8; UNREAD_READ];
    for _ in 0..UNREAD_READS {
        match unread.read(&mut buffer) {
            Ok(count) if count > 0 => {}
            _ => return,
        }
    }
}

/// Returns the size of the chunks of a stream.
fn stream_chunk() -> ChunkSize
    ensures { result ≡ STREAM_CHUNK }
{
    match ChunkSize::new(STREAM_CHUNK) {
        Some(size) => size,
        None => unreachable!(),
    }
}
