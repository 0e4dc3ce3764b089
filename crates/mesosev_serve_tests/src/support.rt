//! Helpers of the tests: texts in tables of tests, and functions that run either end of a
//! connection.
//!
//! In a table of tests `|` represents CR LF and `~` LF. The result of a connection is the response
//! and the printed lines: `HTTP/1.1 404 Not Found|.. => 404 -~`.

use mes_double_master::Master;
use mes_frame::{MemorySink, MemorySource, Source};
use mes_json::Text;
use mes_model::{FrameworkInfo, Id, Part};
use mes_msg::{Call, Event};
use mesosev_serve::{serve_one, show_answer};
use mesosev_stream::{ChunkSize, ExitStatus, RunOutcome};
use std::alloc::{AllocGlobal, Global};
use std::process::Abort;
use std::test::Fail;
use uuid::Uuid;

/// A SUBSCRIBE call.
pub(crate) const SUBSCRIBE: &str =
    r#"{"type":"SUBSCRIBE","subscribe":{"framework_info":{"user":"root","name":"n"}}}"#;

/// A SUBSCRIBE as a request to the host `h`.
pub(crate) const SUBSCRIBE_REQUEST: &str =
    r#"POST /api/v1/scheduler HTTP/1.1|Host: h|Content-Type: application/json|Accept: application/json|Connection: close|Content-Length: 78||{"type":"SUBSCRIBE","subscribe":{"framework_info":{"user":"root","name":"n"}}}"#;

/// A stream of a SUBSCRIBED and a HEARTBEAT: a head of 134 bytes, then 138 bytes.
pub(crate) const STREAM: &str =
    r#"HTTP/1.1 200 OK|Content-Type: application/json|Transfer-Encoding: chunked|Mesos-Stream-Id: 00000000-0000-4000-8000-000000000001||7f|100~{"type":"SUBSCRIBED","subscribed":{"framework_id":{"value":"F1"},"heartbeat_interval_seconds":15.0}}20~{"type":"HEARTBEAT"}|0||"#;

/// The lines that `subscribe_over` prints for `STREAM`.
pub(crate) const SHOWN: &str = r#"1 SUBSCRIBED "F1" 15.0~2 HEARTBEAT~events 2 bytes 138~"#;

/// The result for a request whose head is rejected with status 400.
pub(crate) const BAD: &str =
    "HTTP/1.1 400 Bad Request|Content-Length: 0|Connection: close|| => 400 -~";

/// Splits a row of a table of tests at its first ` => `.
pub(crate) fn row_of(line: &str) -> Result<(&str, &str), Fail> {
    Ok(line.split_once(" => ").ok_or("a row has two sides")?)
}

/// Converts a text from a table of tests into bytes.
pub(crate) fn bytes_of(alloc: Global, text: &str) -> Result<Vec<u8>, Fail> {
    let mut bytes = Vec::new(alloc);
    for byte in text.as_bytes() {
        match *byte {
            b'|' => bytes.extend_from_slice(b"\r\n")?,
            b'~' => bytes.push(b'\n')?,
            other => bytes.push(other)?,
        }
    }
    Ok(bytes)
}

/// Appends bytes in the notation of a table of tests.
pub(crate) fn push_bytes(text: &mut String, bytes: &[u8]) -> Result<(), Fail> {
    for byte in bytes {
        match *byte {
            b'\r' => text.push('|')?,
            b'\n' => push_line_feed(text)?,
            other => text.push(other as char)?,
        }
    }
    Ok(())
}

// Appends `~`, unless the LF follows a CR: the `|` of the CR represents both.
fn push_line_feed(text: &mut String) -> Result<(), Fail> {
    if !text.ends_with('|') {
        text.push('~')?;
    }
    Ok(())
}

// `00000000-0000-4000-8000-00000000000N`, the id of stream N.
fn uuid_of(number: u8) -> Uuid {
    let mut bytes = [0; 16];
    bytes[6] = 0x40;
    bytes[8] = 0x80;
    bytes[15] = number;
    Uuid::from_bytes(bytes)
}

/// Creates a master of the framework F1 for streams 1 and 2.
pub(crate) fn new_master(alloc: Global) -> Result<Master, Fail> {
    let mut ids = Vec::new(alloc);
    ids.push(uuid_of(1))?;
    ids.push(uuid_of(2))?;
    let value = Text::of(alloc, "F1")?;
    Ok(Master::new(alloc, Id { value }, ids))
}

/// Reads an event from its text.
pub(crate) fn event_of(alloc: Global, text: &str) -> Result<Event, Fail> {
    match Event::read_record(alloc, text.as_bytes()) {
        Ok(event) => Ok(event),
        Err(_) => Err("an event")?,
    }
}

/// Reads the events of a text, one on each line.
pub(crate) fn events_of(alloc: Global, text: &str) -> Result<Vec<Event>, Fail> {
    let mut events = Vec::new(alloc);
    for line in text.lines() {
        events.push(event_of(alloc, line)?)?;
    }
    Ok(events)
}

fn call_of(alloc: Global, text: &str) -> Result<Call, Fail> {
    match Call::read_record(alloc, text.as_bytes()) {
        Ok(call) => Ok(call),
        Err(_) => Err("a call")?,
    }
}

// Returns the framework of a SUBSCRIBE; any other call is an error.
fn framework_of(alloc: Global, call: &Call) -> Result<FrameworkInfo, Fail> {
    match call {
        Call::Subscribe { body, .. } => Ok(body.framework_info.copy(alloc)?),
        _ => Err("a SUBSCRIBE")?,
    }
}

/// Returns the framework of `SUBSCRIBE`.
pub(crate) fn framework(alloc: Global) -> Result<FrameworkInfo, Fail> {
    let call = call_of(alloc, SUBSCRIBE)?;
    let framework = framework_of(alloc, &call);
    drop(call);
    framework
}

// Returns a request with the call. The request names no stream if `stream` is `-`.
fn request_of(alloc: Global, stream: &str, call: &str) -> Result<Vec<u8>, Fail> {
    let mut text = String::new(alloc);
    text.push_str("POST /api/v1/scheduler HTTP/1.1|Host: 127.0.0.1:5050|")?;
    text.push_str("Content-Type: application/json|Accept: application/json|")?;
    if stream != "-" {
        text.push_str(format!(in alloc; "Mesos-Stream-Id: {stream}|")?.as_str())?;
    }
    let size = call.len();
    text.push_str(format!(in alloc; "Connection: close|Content-Length: {size}||{call}")?.as_str())?;
    bytes_of(alloc, text.as_str())
}

// Serves one connection. Returns whether a response was sent, and the number of printed bytes; or
// the number of bytes after which the output stopped. `most` is the size of a chunk in bytes.
fn serve(
    alloc: Global,
    master: &mut Master,
    events: &[Event],
    most: u32,
    source: &mut MemorySource<'_>,
    writer: &mut MemorySink,
    out: &mut MemorySink,
) -> Result<(bool, u64), u64> {
    let Some(most) = ChunkSize::new(most) else {
        return Err(u64::MAX);
    };
    match serve_one(alloc, master, events, most, source, writer, out) {
        Ok(served) => Ok((served.answered, served.printed)),
        Err(fault) => Err(fault.sent),
    }
}

/// Serves one connection with a new master.
pub(crate) fn serve_anew(
    alloc: Global,
    events: &[Event],
    most: u32,
    source: &mut MemorySource<'_>,
    writer: &mut MemorySink,
    out: &mut MemorySink,
) -> Result<Result<(bool, u64), u64>, Fail> {
    let mut master = new_master(alloc)?;
    let reported = serve(alloc, &mut master, events, most, source, writer, out);
    drop(master);
    Ok(reported)
}

/// Serves one connection with a new master, and returns the result as a text.
pub(crate) fn served_anew(alloc: Global, source: &mut MemorySource<'_>) -> Result<String, Fail> {
    let mut master = new_master(alloc)?;
    let reported = served(alloc, &mut master, &[], source);
    drop(master);
    reported
}

fn served(
    alloc: Global,
    master: &mut Master,
    events: &[Event],
    source: &mut MemorySource<'_>,
) -> Result<String, Fail> {
    let mut writer = MemorySink::new(alloc, 64);
    let mut out = MemorySink::new(alloc, 5);
    let reported = serve(alloc, master, events, 4_096, source, &mut writer, &mut out);
    if reported
        != Ok((
            !out.bytes().ends_with(b"failed\n"),
            out.bytes().len() as u64,
        ))
    {
        return Err("all that was printed is counted")?;
    }
    let mut text = String::new(alloc);
    push_bytes(&mut text, writer.bytes())?;
    text.push_str(" => ")?;
    push_bytes(&mut text, out.bytes())?;
    Ok(text)
}

/// Returns whether the next read of at most 4,096 bytes returns `bytes`.
pub(crate) fn leaves(source: &mut MemorySource<'_>, bytes: &[u8]) -> Result<bool, Fail> {
    let mut buffer = [0; 4_096];
    let count = source.fetch(&mut buffer)?;
    Ok(buffer.get(..count) == Some(bytes))
}

// Returns the result for a request. The text `row` is `STREAM CALL`: the stream id that the request
// names, and the call. The request arrives in reads of 7 bytes.
fn called(alloc: Global, master: &mut Master, events: &[Event], row: &str) -> Result<String, Fail> {
    let (stream, call) = row.split_once(" ").ok_or("a call names a stream")?;
    let request = request_of(alloc, stream, call)?;
    let mut source = MemorySource::new(request.as_slice(), 7);
    served(alloc, master, events, &mut source)
}

fn expect_rows<R: Abort + AllocGlobal>(
    rt: &R,
    master: &mut Master,
    events: &[Event],
    table: &str,
) -> Result<(), Fail> {
    for row in table.lines() {
        let (call, expected) = row_of(row)?;
        let reported = called(rt.alloc(), master, events, call)?;
        assert_eq!(rt; reported.as_str(), expected, "{row}");
    }
    Ok(())
}

/// Sends the call of each row of a table of tests to one master, in order, and compares the
/// results.
pub(crate) fn expect_calls<R: Abort + AllocGlobal>(
    rt: &R,
    events: &[Event],
    table: &str,
) -> Result<(), Fail> {
    let mut master = new_master(rt.alloc())?;
    let answer = expect_rows(rt, &mut master, events, table);
    drop(master);
    answer
}

/// Returns the output for a response, and the exit status if it is not 0. At most `max_reads` reads
/// are made after the head.
pub(crate) fn shown(
    alloc: Global,
    source: &mut MemorySource<'_>,
    max_reads: u32,
) -> Result<String, Fail> {
    let mut out = MemorySink::new(alloc, 5);
    let ended = answered(alloc, source, max_reads, &mut out);
    printed_of(alloc, &out, ended)
}

fn answered(
    alloc: Global,
    source: &mut MemorySource<'_>,
    max_reads: u32,
    out: &mut MemorySink,
) -> RunOutcome {
    show_answer(alloc, source, max_reads as u64, out)
}

/// Returns the output, and the exit status if it is not 0.
pub(crate) fn printed_of(
    alloc: Global,
    out: &MemorySink,
    ended: RunOutcome,
) -> Result<String, Fail> {
    let mut text = String::new(alloc);
    push_bytes(&mut text, out.bytes())?;
    match ended {
        RunOutcome::Status(ExitStatus::Success) => {}
        RunOutcome::Status(ExitStatus::Fault) => text.push_str(" 1")?,
        RunOutcome::Status(ExitStatus::Usage) => text.push_str(" 2")?,
        RunOutcome::OutputFailed(_) => text.push_str(" failed")?,
    }
    Ok(text)
}
