//! Tests of heads and calls that are written to a writer that accepts all bytes, and to one that
//! stops.

use crate::support::{ACCEPTED_LINES, CALL, CALL_LINES, OK_LINES, bytes_of, gives};
use http::StatusCode;
use mes_double_http::{StreamId, write_call, write_ok, write_status};
use mes_frame::{MemorySink, MemorySource, MemoryStop, WriteFault, WriteFaultKind};
use mes_msg::{Call, EncodeFaultKind, SendFault};
use std::alloc::{AllocError, AllocGlobal, Global};
use std::process::Abort;
use std::test::Fail;

/// Returns the text of the bytes, so that a failed test prints a text.
fn as_text(bytes: &[u8]) -> Option<&str> {
    str::from_utf8(bytes).ok()
}

/// The head or the call that a test writes.
#[derive(Clone, Copy)]
enum Written<'a> {
    /// The head of the response to a SUBSCRIBE, with this stream id.
    Stream(&'a str),
    /// The head of a response with this status and no body.
    Status(u16),
    /// A call as a request to the host of the examples: the stream id, if any, and the text of the
    /// call.
    Call(Option<&'a str>, &'a [u8]),
}

fn write_stream(sink: &mut MemorySink, id: &str) -> Result<(), SendFault> {
    match StreamId::new(id) {
        Some(id) => Ok(write_ok(sink, &id)?),
        None => Err(SendFault::NoMemory),
    }
}

fn write_code(sink: &mut MemorySink, code: u16) -> Result<(), SendFault> {
    match StatusCode::from_u16(code) {
        Ok(status) => Ok(write_status(sink, status)?),
        Err(_) => Err(SendFault::NoMemory),
    }
}

fn write_text(
    alloc: Global,
    sink: &mut MemorySink,
    id: Option<&str>,
    text: &[u8],
) -> Result<(), SendFault> {
    let stream = id.and_then(StreamId::new);
    match Call::read_record(alloc, text) {
        Ok(call) => write_call(alloc, sink, "127.0.0.1:5050", stream.as_ref(), &call),
        Err(_) => Err(SendFault::NoMemory),
    }
}

fn write(alloc: Global, sink: &mut MemorySink, what: Written<'_>) -> Result<(), SendFault> {
    match what {
        Written::Stream(id) => write_stream(sink, id),
        Written::Status(code) => write_code(sink, code),
        Written::Call(id, text) => write_text(alloc, sink, id, text),
    }
}

/// Expects that a writer that accepts all bytes gets `expected`, and that a writer that stops after
/// any number of these bytes gets those bytes and causes a fault.
fn expect_written<R: Abort + AllocGlobal>(rt: &R, what: Written<'_>, expected: &[u8]) {
    let mut whole = MemorySink::new(rt.alloc(), 7);
    assert_eq!(rt; write(rt.alloc(), &mut whole, what), Ok(()));
    assert_eq!(rt; as_text(whole.bytes()), as_text(expected));
    expect_stops(
        rt,
        what,
        MemoryStop::Fails,
        WriteFaultKind::Device,
        expected,
    );
    expect_stops(
        rt,
        what,
        MemoryStop::TakesNone,
        WriteFaultKind::Zero,
        expected,
    );
}

/// Expects that a writer that stops as `stop` states, after any number of the bytes of `expected`,
/// gets these bytes, and that the fault is `why`.
fn expect_stops<R: Abort + AllocGlobal>(
    rt: &R,
    what: Written<'_>,
    stop: MemoryStop,
    why: WriteFaultKind,
    expected: &[u8],
) {
    for good in 0..expected.len() {
        let mut sink = MemorySink::stopping_after(rt.alloc(), 7, good, stop);
        let sent = good as u64;
        let stopped = SendFault::Write(WriteFault { sent, why });
        assert_eq!(rt; write(rt.alloc(), &mut sink, what), Err(stopped));
        assert_eq!(rt; as_text(sink.bytes()), as_text(&expected[..good]));
    }
}

#[test]
fn the_head_of_a_stream_is_written(rt: HostRuntime) -> Result<(), Fail> {
    let expected = bytes_of(rt.alloc(), OK_LINES, b"")?;
    expect_written(&rt, Written::Stream("s1"), &expected);
    Ok(())
}

/// Status codes, each with the lines of the head of its response.
const STATUSES: [(u16, &str); 6] = [
    (202, ACCEPTED_LINES),
    (
        400,
        "HTTP/1.1 400 Bad Request|Content-Length: 0|Connection: close||",
    ),
    (
        403,
        "HTTP/1.1 403 Forbidden|Content-Length: 0|Connection: close||",
    ),
    (
        404,
        "HTTP/1.1 404 Not Found|Content-Length: 0|Connection: close||",
    ),
    (
        405,
        "HTTP/1.1 405 Method Not Allowed|Content-Length: 0|Connection: close||",
    ),
    (599, "HTTP/1.1 599 |Content-Length: 0|Connection: close||"),
];

#[test]
fn the_head_of_a_status_is_written(rt: HostRuntime) -> Result<(), Fail> {
    for &(code, lines) in &STATUSES {
        let expected = bytes_of(rt.alloc(), lines, b"")?;
        expect_written(&rt, Written::Status(code), &expected);
    }
    Ok(())
}

/// The lines of a request without a stream id.
const NO_STREAM: &str =
    "POST /api/v1/scheduler HTTP/1.1|Host: 127.0.0.1:5050|Content-Type: application/json|Accept: application/json|Connection: close|Content-Length: 47||";

#[test]
fn a_call_is_written_as_a_request(rt: HostRuntime) -> Result<(), Fail> {
    for (stream, lines) in [(Some("s1"), CALL_LINES), (None, NO_STREAM)] {
        let expected = bytes_of(rt.alloc(), lines, CALL)?;
        expect_written(&rt, Written::Call(stream, CALL), &expected);
    }
    Ok(())
}

/// A written call is read back.
#[test]
fn a_written_request_is_read_to_the_same_call(rt: HostRuntime) {
    let mut sink = MemorySink::new(rt.alloc(), 7);
    assert_eq!(rt;
        write(rt.alloc(), &mut sink, Written::Call(None, CALL)),
        Ok(())
    );
    let mut source = MemorySource::new(sink.bytes(), 64);
    assert!(rt; gives(rt.alloc(), &mut source, CALL, "-"));
}

/// Returns the text of a call with `size` bytes.
fn long_text(alloc: Global, size: usize) -> Result<Vec<u8>, AllocError> {
    let mut text = Vec::from_slice(alloc, br#"{"type":"REVIVE","framework_id":{"value":""#)?;
    text.resize(size.saturating_sub(3), b'a')?;
    text.extend_from_slice(br#""}}"#)?;
    Ok(text)
}

#[test]
fn a_call_above_1_mib_is_not_written(rt: HostRuntime) -> Result<(), Fail> {
    let most = long_text(rt.alloc(), 1_048_576)?;
    let mut sink = MemorySink::new(rt.alloc(), 4096);
    assert_eq!(rt;
        write(rt.alloc(), &mut sink, Written::Call(None, &most)),
        Ok(())
    );
    let more = long_text(rt.alloc(), 1_048_577)?;
    let mut sink = MemorySink::new(rt.alloc(), 4096);
    let index = 0;
    let why = EncodeFaultKind::TooLarge;
    let fault = SendFault::Encode { index, why };
    assert_eq!(rt;
        write(rt.alloc(), &mut sink, Written::Call(None, &more)),
        Err(fault)
    );
    assert_eq!(rt; sink.bytes().len(), 0);
    Ok(())
}
