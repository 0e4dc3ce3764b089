//! Tests of requests that are read from bytes as they come, by the rules of `read_request`, and of
//! the responses to them.

use crate::requests::{BYTES, FAULTS, FRONT, SHAPES};
use crate::support::{
    ACCEPTED_LINES, CALL, CALL_LINES, OK_LINES, Reads, answered, bytes_of, row_of, stream_of,
};
use http::StatusCode;
use mes_double_http::{
    HeadFault, MAX_HEAD, NextRequest, Persistence, RequestReader, StreamId, push_ok, push_status,
};
use std::alloc::{AllocError, AllocGlobal, Global};
use std::process::Abort;
use std::test::Fail;

/// What the next search of the reader reports: `more`, what becomes of the connection after a whole
/// request, or the number and the name of a fault.
fn reported(reader: &mut RequestReader) -> &'static str {
    match reader.next() {
        NextRequest::More => "more",
        NextRequest::Whole(_, Persistence::Close) => "close",
        NextRequest::Whole(_, Persistence::Keep) => "keep",
        NextRequest::Whole(_, Persistence::KeepAlive) => "keep-alive",
        NextRequest::Fault(fault) => fault.title(),
    }
}

/// Returns whether the next request of the reader has this body and this stream id (`-` for none).
fn takes(reader: &mut RequestReader, body: &[u8], stream: &str) -> bool {
    match reader.next() {
        NextRequest::Whole(request, _) => {
            request.body.as_slice() == body && stream_of(&request) == stream
        }
        _ => false,
    }
}

/// Returns the fault at the end of the connection, or `none`.
fn at_end(reader: &RequestReader) -> &'static str {
    match reader.fault_at_end() {
        Some(fault) => fault.title(),
        None => "none",
    }
}

/// Returns a reader that was given these bytes in one piece.
fn reader_of(alloc: Global, bytes: &[u8]) -> Result<RequestReader, AllocError> {
    let mut reader = RequestReader::new(alloc);
    reader.feed(bytes)?;
    Ok(reader)
}

/// Returns the fault of the first request, `ok` if it is whole, or `none` if no bytes came. If more
/// bytes are needed, the connection ends.
fn received(alloc: Global, bytes: &[u8]) -> Result<&'static str, AllocError> {
    let mut reader = reader_of(alloc, bytes)?;
    Ok(match reported(&mut reader) {
        "more" => at_end(&reader),
        "close" | "keep" | "keep-alive" => "ok",
        fault => fault,
    })
}

/// Returns whether a request in two pieces is incomplete after the first and whole after both.
fn joins(alloc: Global, front: &[u8], rest: &[u8]) -> Result<bool, AllocError> {
    let mut reader = reader_of(alloc, front)?;
    let incomplete = reported(&mut reader) == "more";
    reader.feed(rest)?;
    Ok(incomplete && takes(&mut reader, CALL, "s1") && at_end(&reader) == "none")
}

#[test]
fn a_request_may_be_cut_at_each_byte(rt: HostRuntime) -> Result<(), Fail> {
    let bytes = bytes_of(rt.alloc(), CALL_LINES, CALL)?;
    for cut in 0..bytes.len() {
        assert!(rt; joins(rt.alloc(), &bytes[..cut], &bytes[cut..])?, "{cut}");
    }
    Ok(())
}

/// Returns the position of the byte with which the request is whole, if it comes byte by byte.
fn whole_at(alloc: Global, bytes: &[u8]) -> Result<Option<usize>, AllocError> {
    let mut reader = RequestReader::new(alloc);
    for (place, byte) in bytes.iter().enumerate() {
        reader.feed(&[*byte])?;
        if reported(&mut reader) != "more" {
            return Ok(Some(place));
        }
    }
    Ok(None)
}

#[test]
fn a_request_that_comes_byte_by_byte_is_whole_with_its_last_byte(
    rt: HostRuntime,
) -> Result<(), Fail> {
    let bytes = bytes_of(rt.alloc(), CALL_LINES, CALL)?;
    let place = whole_at(rt.alloc(), bytes.as_slice())?;
    assert_eq!(rt; place, bytes.len().checked_sub(1));
    Ok(())
}

/// Five requests with their bodies.
const FIVE: [(&str, &[u8]); 5] = [
    (
        "POST /api/v1/scheduler HTTP/1.1|Content-Type: application/json|Content-Length: 2||",
        b"{}",
    ),
    (
        "POST /api/v1/scheduler HTTP/1.1|Content-Type: application/json|Content-Length: 0||",
        b"",
    ),
    (
        "|POST /api/v1/scheduler HTTP/1.1|Content-Type: application/json|Content-Length: 3||",
        b"\r\n\n",
    ),
    (
        "POST /api/v1/scheduler HTTP/1.0|Content-Type: application/json|Content-Length: 4||",
        b"POST",
    ),
    (
        "POST /api/v1/scheduler HTTP/1.1|Content-Type: application/json|Content-Length: 1||",
        b"5",
    ),
];

/// Returns the bytes of the five requests, one after another.
fn five(alloc: Global) -> Result<Vec<u8>, AllocError> {
    let mut bytes = Vec::new(alloc);
    for &(lines, body) in &FIVE {
        bytes.extend_from_slice(bytes_of(alloc, lines, body)?.as_slice())?;
    }
    Ok(bytes)
}

#[test]
fn five_requests_in_one_buffer_are_taken_one_by_one(rt: HostRuntime) -> Result<(), Fail> {
    let bytes = five(rt.alloc())?;
    let mut reader = reader_of(rt.alloc(), bytes.as_slice())?;
    for &(lines, body) in &FIVE {
        assert!(rt; takes(&mut reader, body, "-"), "{lines}");
    }
    assert_eq!(rt; reported(&mut reader), "more");
    assert_eq!(rt; at_end(&reader), "none");
    Ok(())
}

#[test]
fn bytes_after_a_request_stay_for_the_next(rt: HostRuntime) -> Result<(), Fail> {
    let bytes = five(rt.alloc())?;
    let mut reader = reader_of(rt.alloc(), bytes.as_slice())?;
    assert!(rt; takes(&mut reader, b"{}", "-"));
    reader.feed(bytes_of(rt.alloc(), CALL_LINES, CALL)?.as_slice())?;
    for &(lines, body) in FIVE.iter().skip(1) {
        assert!(rt; takes(&mut reader, body, "-"), "{lines}");
    }
    assert!(rt; takes(&mut reader, CALL, "s1"));
    assert_eq!(rt; reported(&mut reader), "more");
    Ok(())
}

/// The version and the fields of a request, and what becomes of the connection (RFC 9112 section
/// 9.3): with `close` it ends; else HTTP/1.1 keeps it, and HTTP/1.0 only with `keep-alive`.
const CONNECTIONS: &str = "HTTP/1.1 => keep
HTTP/1.1|Connection: keep-alive => keep
HTTP/1.1|Connection: close => close
HTTP/1.1|connection: CLOSE => close
HTTP/1.1|Connection: keep-alive, close => close
HTTP/1.1|Connection: close, keep-alive => close
HTTP/1.1|Connection:, \tClose\t,x => close
HTTP/1.1|Connection: x|Connection: close => close
HTTP/1.1|Connection: => keep
HTTP/1.1|Connection: closed => keep
HTTP/1.1|Connection: clos => keep
HTTP/1.1|Connection: close x => keep
HTTP/1.1|X-Connection: close => keep
HTTP/1.0 => close
HTTP/1.0|Connection: close => close
HTTP/1.0|Connection: Keep-Alive => keep-alive
HTTP/1.0|Connection: x ,keep-alive => keep-alive
HTTP/1.0|Connection: x|connection: keep-alive => keep-alive
HTTP/1.0|Connection: keep-alive, close => close
HTTP/1.0|Connection: keep-alive|Connection: close => close
HTTP/1.0|Connection: keep alive => close";

/// Returns what becomes of the connection after a request with this version and these fields.
fn persistence_after(alloc: Global, fields: &str) -> Result<&'static str, AllocError> {
    let mut bytes = bytes_of(alloc, "POST /api/v1/scheduler ", b"")?;
    bytes.extend_from_slice(bytes_of(alloc, fields, b"\r\n")?.as_slice())?;
    bytes.extend_from_slice(b"Content-Type: application/json\r\nContent-Length: 0\r\n\r\n")?;
    Ok(reported(&mut reader_of(alloc, bytes.as_slice())?))
}

#[test]
fn a_connection_stays_open_by_version_and_option(rt: HostRuntime) -> Result<(), Fail> {
    for line in CONNECTIONS.lines() {
        let (fields, expected) = row_of(line)?;
        assert_eq!(rt;
            persistence_after(rt.alloc(), fields)?,
            expected,
            "{fields}"
        );
    }
    Ok(())
}

#[test]
fn the_first_fault_of_received_bytes_is_reported(rt: HostRuntime) -> Result<(), Fail> {
    for line in FAULTS.lines() {
        let (lines, expected) = row_of(line)?;
        let bytes = bytes_of(rt.alloc(), lines, CALL)?;
        assert_eq!(rt;
            received(rt.alloc(), bytes.as_slice())?,
            expected,
            "{lines}"
        );
    }
    Ok(())
}

/// Returns a request with these lines among its fields.
fn shaped(alloc: Global, lines: &str) -> Result<Vec<u8>, AllocError> {
    let mut bytes = bytes_of(alloc, FRONT, b"")?;
    bytes.extend_from_slice(bytes_of(alloc, lines, b"\r\n\r\n")?.as_slice())?;
    bytes.extend_from_slice(CALL)?;
    Ok(bytes)
}

#[test]
fn smuggled_shapes_are_refused_in_received_bytes(rt: HostRuntime) -> Result<(), Fail> {
    for line in SHAPES.lines() {
        let (lines, expected) = row_of(line)?;
        let bytes = shaped(rt.alloc(), lines)?;
        assert_eq!(rt;
            received(rt.alloc(), bytes.as_slice())?,
            expected,
            "{lines}"
        );
    }
    for &(lines, expected) in &BYTES {
        let bytes = shaped(rt.alloc(), lines)?;
        assert_eq!(rt;
            received(rt.alloc(), bytes.as_slice())?,
            expected,
            "{lines}"
        );
    }
    Ok(())
}

/// Returns the length of the shortest front of the bytes, of at least one byte, at which the
/// connection ends and the reader and `read_request` report differently; 0 if there is none.
fn first_difference(alloc: Global, bytes: &[u8]) -> Result<usize, AllocError> {
    for end in 1..bytes.len() {
        let front = &bytes[..end];
        if received(alloc, front)? != answered(alloc, Reads::Request, front) {
            return Ok(end);
        }
    }
    Ok(0)
}

#[test]
fn each_front_of_a_request_is_reported_as_by_read_request(rt: HostRuntime) -> Result<(), Fail> {
    for line in FAULTS.lines() {
        let (lines, _) = row_of(line)?;
        let bytes = bytes_of(rt.alloc(), lines, CALL)?;
        assert_eq!(rt;
            first_difference(rt.alloc(), bytes.as_slice())?,
            0,
            "{lines}"
        );
    }
    for line in SHAPES.lines() {
        let (lines, _) = row_of(line)?;
        let bytes = shaped(rt.alloc(), lines)?;
        assert_eq!(rt;
            first_difference(rt.alloc(), bytes.as_slice())?,
            0,
            "{lines}"
        );
    }
    Ok(())
}

/// Bytes with which no head begins are refused at once, without waiting for the end of a line. In a
/// target the reader waits, since a target is checked for UTF-8 only at its end.
const BEGINNINGS: [(&[u8], &str); 12] = [
    (b"", "more"),
    (b"\r\n\n", "more"),
    (b"POST", "more"),
    (b"POST ", "more"),
    (b"POST /\xc3", "more"),
    (b"\nPOST /\xff", "more"),
    (b"POST /\xff ", "H3 BadHead"),
    (b"@ /foo", "H3 BadHead"),
    (b" /foo", "H3 BadHead"),
    (b"\r /foo", "H3 BadHead"),
    (b"PO(ST /foo", "H3 BadHead"),
    (b"\x16\x03\x01\x02 /", "H3 BadHead"),
];

#[test]
fn bytes_that_begin_no_head_are_refused_at_once(rt: HostRuntime) -> Result<(), Fail> {
    for &(bytes, expected) in &BEGINNINGS {
        let mut reader = reader_of(rt.alloc(), bytes)?;
        assert_eq!(rt; reported(&mut reader), expected);
    }
    Ok(())
}

/// Returns a head with this first line, padded in a field to `size` bytes.
fn padded(alloc: Global, size: usize) -> Result<Vec<u8>, AllocError> {
    let mut bytes = bytes_of(alloc, "GET /x HTTP/1.1|A: ", b"")?;
    bytes.resize(size.saturating_sub(4), b'a')?;
    bytes.extend_from_slice(b"\r\n\r\n")?;
    Ok(bytes)
}

#[test]
fn a_received_head_has_at_most_16384_bytes(rt: HostRuntime) -> Result<(), Fail> {
    let most = padded(rt.alloc(), MAX_HEAD)?;
    assert_eq!(rt; received(rt.alloc(), most.as_slice())?, "H8 WrongPath");
    let more = padded(rt.alloc(), MAX_HEAD + 1)?;
    assert_eq!(rt; received(rt.alloc(), more.as_slice())?, "H2 HeadTooLong");
    Ok(())
}

/// Returns a head with `count` fields.
fn with_fields(alloc: Global, count: usize) -> Result<Vec<u8>, AllocError> {
    let mut bytes = bytes_of(alloc, "GET /x HTTP/1.1|", b"")?;
    for _ in 0..count {
        bytes.extend_from_slice(b"A: b\r\n")?;
    }
    bytes.extend_from_slice(b"\r\n")?;
    Ok(bytes)
}

#[test]
fn a_received_head_has_at_most_64_fields(rt: HostRuntime) -> Result<(), Fail> {
    let most = with_fields(rt.alloc(), 64)?;
    assert_eq!(rt; received(rt.alloc(), most.as_slice())?, "H8 WrongPath");
    let more = with_fields(rt.alloc(), 65)?;
    assert_eq!(rt; received(rt.alloc(), more.as_slice())?, "H3 BadHead");
    assert_eq!(rt; first_difference(rt.alloc(), more.as_slice())?, 0);
    Ok(())
}

/// Returns the head of a response with this status, appended to the bytes `x`.
fn status_after_x(alloc: Global, code: u16, kept: Persistence) -> Result<Vec<u8>, AllocError> {
    let mut bytes = Vec::from_slice(alloc, b"x")?;
    if let Ok(status) = StatusCode::from_u16(code) {
        push_status(&mut bytes, status, kept)?;
    }
    Ok(bytes)
}

/// A status, what becomes of the connection, and the lines of the response's head.
const STATUSES: [(u16, Persistence, &str); 5] = [
    (202, Persistence::Close, ACCEPTED_LINES),
    (
        202,
        Persistence::Keep,
        "HTTP/1.1 202 Accepted|Content-Length: 0||",
    ),
    (
        202,
        Persistence::KeepAlive,
        "HTTP/1.1 202 Accepted|Content-Length: 0|Connection: keep-alive||",
    ),
    (
        403,
        Persistence::Keep,
        "HTTP/1.1 403 Forbidden|Content-Length: 0||",
    ),
    (
        599,
        Persistence::KeepAlive,
        "HTTP/1.1 599 |Content-Length: 0|Connection: keep-alive||",
    ),
];

#[test]
fn the_head_of_a_status_says_whether_the_connection_is_kept(rt: HostRuntime) -> Result<(), Fail> {
    for &(code, kept, lines) in &STATUSES {
        let bytes = status_after_x(rt.alloc(), code, kept)?;
        let expected = bytes_of(rt.alloc(), lines, b"")?;
        assert!(rt;
            bytes.as_slice().strip_prefix(b"x") == Some(expected.as_slice()),
            "{lines}"
        );
    }
    Ok(())
}

/// Returns the head of the response to a SUBSCRIBE with this stream id, appended to the bytes `x`.
fn stream_after_x(alloc: Global, id: &str) -> Result<Vec<u8>, AllocError> {
    let mut bytes = Vec::from_slice(alloc, b"x")?;
    if let Some(id) = StreamId::new(id) {
        push_ok(&mut bytes, &id)?;
    }
    Ok(bytes)
}

#[test]
fn the_head_of_a_stream_is_appended(rt: HostRuntime) -> Result<(), Fail> {
    let bytes = stream_after_x(rt.alloc(), "s1")?;
    let expected = bytes_of(rt.alloc(), OK_LINES, b"")?;
    assert!(rt; bytes.as_slice().strip_prefix(b"x") == Some(expected.as_slice()));
    Ok(())
}

/// Returns the status of the response to a request that is refused so, or 0 for no response.
fn response_to(fault: HeadFault) -> u16 {
    match fault.response() {
        Some(status) => status.as_u16(),
        None => 0,
    }
}

/// Faults, each with the status of the response (RFC 9110 section 15.5), or 0 for no response.
const RESPONSES: [(HeadFault, u16); 11] = [
    (HeadFault::Read, 0),
    (HeadFault::HeadTooLong, 400),
    (HeadFault::BadHead, 400),
    (HeadFault::NotJson, 400),
    (HeadFault::NoStreamId, 400),
    (HeadFault::WrongPath, 404),
    (HeadFault::WrongMethod, 405),
    (HeadFault::NoLength, 400),
    (HeadFault::BodyTooLong, 400),
    (HeadFault::ShortBody, 0),
    (HeadFault::NoMemory, 0),
];

#[test]
fn each_fault_has_its_response(rt: HostRuntime) {
    for &(fault, status) in &RESPONSES {
        assert_eq!(rt; response_to(fault), status);
    }
}
