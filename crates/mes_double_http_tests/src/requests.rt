//! Tests of requests: heads, request smuggling, and bodies.

use crate::support::{
    CALL, CALL_LINES, Reads, answered, bytes_of, expect_breaks, expect_rows, gives, leaves, row_of,
};
use mes_frame::MemorySource;
use std::alloc::AllocGlobal;
use std::process::Abort;
use std::test::Fail;

/// Heads of requests, each with its first fault, in the order target, method, media type, length,
/// maximum length, stream id.
pub(crate) const FAULTS: &str =
    "POST /api/v1/scheduler HTTP/1.1|Content-Type: application/json|Content-Length: 47|| => ok
POST /api/v1/scheduler HTTP/1.0|cOnTeNt-TyPe: APPLICATION/json|CONTENT-LENGTH: 47|| => ok
||POST /api/v1/scheduler HTTP/1.1|content-type: application/json\t; charset=utf-8|content-length:47|| => ok
GET /x HTTP/1.1|| => H8 WrongPath
POST /api/v1/scheduler/ HTTP/1.1|Content-Type: application/json|Content-Length: 47|| => H8 WrongPath
POST /api/v1/Scheduler HTTP/1.1|Content-Type: application/json|Content-Length: 47|| => H8 WrongPath
POST /api/v1/scheduler?a HTTP/1.1|Content-Type: application/json|Content-Length: 47|| => H8 WrongPath
POST http://h/api/v1/scheduler HTTP/1.1|Content-Type: application/json|Content-Length: 47|| => H8 WrongPath
POST * HTTP/1.1|Content-Type: application/json|Content-Length: 47|| => H8 WrongPath
GET /api/v1/scheduler HTTP/1.1|| => H9 WrongMethod
post /api/v1/scheduler HTTP/1.1|Content-Type: application/json|Content-Length: 47|| => H9 WrongMethod
POST /api/v1/scheduler HTTP/1.1|| => H6 NotJson
POST /api/v1/scheduler HTTP/1.1|Content-Type: application/x-protobuf|Mesos-Stream-Id: a b|| => H6 NotJson
POST /api/v1/scheduler HTTP/1.1|Content-Type: application/json|Mesos-Stream-Id: a b|| => H10 NoLength
POST /api/v1/scheduler HTTP/1.1|Content-Type: application/json|Content-Length: 1048577|Mesos-Stream-Id: a b|| => H11 BodyTooLong
POST /api/v1/scheduler HTTP/1.1|Content-Type: application/json|Content-Length: 47|Mesos-Stream-Id: a b|| => H7 NoStreamId
POST /api/v1/scheduler HTTP/1.1|Content-Type: application/json|Content-Length: 47|Mesos-Stream-Id: s1|Mesos-Stream-Id: s1|| => H7 NoStreamId
POST /api/v1/scheduler HTTP/1.1|Content-Type: application/json|Content-Length: 48|Mesos-Stream-Id: a b|| => H7 NoStreamId
POST /api/v1/scheduler HTTP/2|Content-Type: application/json|Content-Length: 47|| => H3 BadHead
POST /api/v1/scheduler|| => H3 BadHead
POST  /api/v1/scheduler HTTP/1.1|Content-Type: application/json|Content-Length: 47|| => H3 BadHead
POST /api/v1/scheduler HTTP/1.1|Content-Type: application/json|Content-Length: 48|| => H12 ShortBody
POST /api/v1/scheduler HTTP/1.1|Content-Type: application/json|Content-Length: 1048576|| => H12 ShortBody
POST /api/v1/scheduler HTTP/1.1|Content-Type: application/json|Content-Length: 46|| => ok";

/// Heads with which one request is smuggled in another. Two readers that parse such a head
/// differently would split the stream of requests differently.
pub(crate) const SHAPES: &str = "Content-Length: 47|Content-Length: 47 => H10 NoLength
Content-Length: 47|content-length: 46 => H10 NoLength
Content-Length: 47, 47 => H10 NoLength
Transfer-Encoding: chunked => H10 NoLength
Transfer-Encoding: chunked|Content-Length: 47 => H10 NoLength
Content-Length: 47|TRANSFER-ENCODING: identity => H10 NoLength
Content-Length: 47|Transfer-Encoding: => H10 NoLength
Content-Length: +47 => H10 NoLength
Content-Length: -47 => H10 NoLength
Content-Length: 1, 1 => H10 NoLength
Content-Length: 0x2f => H10 NoLength
Content-Length: 4 7 => H10 NoLength
Content-Length: 47.0 => H10 NoLength
Content-Length: => H10 NoLength
Content-Length: 000000000000000000047 => H10 NoLength
Content-Length: 999999999999999999999 => H10 NoLength
Content-Length: 99999999999999999999 => H11 BodyTooLong
Content-Length: 18446744073709551663 => H11 BodyTooLong
Content-Length: 4294967343 => H11 BodyTooLong
Content-Length: 00000000000000000047 => ok
Content-Length:\t47\t => ok
Content-Length: 0 => ok
Content-Length : 47 => H3 BadHead
 Content-Length: 47 => H3 BadHead
Content-Length: 47| A: b => H3 BadHead
Content-Length: 4|\t7 => H3 BadHead
Content-Length 47 => H3 BadHead
: 47 => H3 BadHead
Content-Length: 47|A\u{e9}: b => H3 BadHead";

/// More heads for request smuggling, with bytes that a row of a table cannot contain. A bare LF may
/// end a line (RFC 9112 section 2.2); a bare CR and a NUL are refused.
pub(crate) const BYTES: [(&str, &str); 7] = [
    ("Content-Length: 47\nA: b", "ok"),
    ("Content-Length: 46\nContent-Length: 47", "H10 NoLength"),
    ("A: b\rContent-Length: 47", "H3 BadHead"),
    ("Content-Length: 47\r", "H3 BadHead"),
    ("A: a\tb|Content-Length: 47", "ok"),
    ("A: \0|Content-Length: 47", "H3 BadHead"),
    ("Content-Length: 47\u{b}", "H3 BadHead"),
];

#[test]
fn the_first_fault_of_a_request_is_reported(rt: HostRuntime) -> Result<(), Fail> {
    expect_rows(&rt, Reads::Request, FAULTS, CALL)
}

/// The first lines of a request whose fields follow.
pub(crate) const FRONT: &str =
    "POST /api/v1/scheduler HTTP/1.1|Host: h|Content-Type: application/json|";

#[test]
fn smuggled_requests_are_refused(rt: HostRuntime) -> Result<(), Fail> {
    for line in SHAPES.lines() {
        let (lines, expected) = row_of(line)?;
        expect_shape(&rt, lines, expected)?;
    }
    for &(lines, expected) in &BYTES {
        expect_shape(&rt, lines, expected)?;
    }
    Ok(())
}

fn expect_shape<R: Abort + AllocGlobal>(rt: &R, lines: &str, expected: &str) -> Result<(), Fail> {
    let mut bytes = bytes_of(rt.alloc(), FRONT, b"")?;
    bytes.extend_from_slice(bytes_of(rt.alloc(), lines, b"\r\n\r\n")?.as_slice())?;
    bytes.extend_from_slice(CALL)?;
    assert_eq!(rt;
        answered(rt.alloc(), Reads::Request, bytes.as_slice()),
        expected,
        "{lines}"
    );
    Ok(())
}

#[test]
fn a_body_is_read_exactly(rt: HostRuntime) -> Result<(), Fail> {
    let mut bytes = bytes_of(rt.alloc(), CALL_LINES, CALL)?;
    bytes.extend_from_slice(b"XY")?;
    for most in [1, 7, 4096] {
        let mut source = MemorySource::new(bytes.as_slice(), most);
        assert!(rt; gives(rt.alloc(), &mut source, CALL, "s1"), "{most}");
        assert!(rt;
            leaves(&mut source, if most == 1 { b"X" } else { b"XY" })?,
            "{most}"
        );
    }
    Ok(())
}

/// The lines of requests, and the numbers of bytes of their bodies.
const BODIES: [(&str, usize); 2] = [
    (
        "POST /api/v1/scheduler HTTP/1.1|Content-Type: application/json|Content-Length: 00||",
        0,
    ),
    (
        "POST /api/v1/scheduler HTTP/1.1|Content-Type: application/json|Content-Length: 1048576||",
        1_048_576,
    ),
];

#[test]
fn a_body_has_0_bytes_to_1_mib(rt: HostRuntime) -> Result<(), Fail> {
    for &(lines, size) in &BODIES {
        let mut body = Vec::new(rt.alloc());
        body.resize(size, b'a')?;
        let mut bytes = bytes_of(rt.alloc(), lines, body.as_slice())?;
        bytes.push(b'X')?;
        let mut source = MemorySource::new(bytes.as_slice(), 100_000);
        assert!(rt;
            gives(rt.alloc(), &mut source, body.as_slice(), "-"),
            "{size}"
        );
    }
    Ok(())
}

#[test]
fn a_request_that_breaks_off_is_refused(rt: HostRuntime) -> Result<(), Fail> {
    let bytes = bytes_of(rt.alloc(), CALL_LINES, CALL)?;
    let head = bytes.len().saturating_sub(CALL.len());
    expect_breaks(&rt, Reads::Request, bytes.as_slice(), head);
    Ok(())
}
