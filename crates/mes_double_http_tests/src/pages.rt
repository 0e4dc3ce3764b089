//! Tests of the requests for a page, and of the head of the response with a page.

use crate::support::{CALL, CALL_LINES, bytes_of, row_of};
use mes_double_http::{
    NextPage, NextRequest, PageMedia, PageRequest, Persistence, RequestReader, push_page_head,
};
use std::alloc::{AllocError, AllocGlobal, Global};
use std::process::Abort;
use std::test::Fail;

/// Returns the name of the page for which a request is.
fn name_of(request: &PageRequest) -> &'static str {
    match request {
        PageRequest::Page => "page",
        PageRequest::State => "state",
        PageRequest::Fault(_) => "fault",
    }
}

/// What the next search for a page reports: its variant, the page, or the status of the refusal.
fn reported(reader: &mut RequestReader) -> &'static str {
    match reader.next_page() {
        NextPage::Nothing => "nothing",
        NextPage::More => "more",
        NextPage::Whole(request, _) => name_of(&request),
        NextPage::Refused(status) => match status.as_u16() {
            400 => "400",
            403 => "403",
            405 => "405",
            _ => "another status",
        },
        NextPage::NoMemory => "no memory",
    }
}

/// Returns a reader that was given these bytes in one piece.
fn reader_of(alloc: Global, bytes: &[u8]) -> Result<RequestReader, AllocError> {
    let mut reader = RequestReader::new(alloc);
    reader.feed(bytes)?;
    Ok(reader)
}

/// Heads of requests, each followed by 47 bytes, and what is reported.
const REQUESTS: &str = "GET / HTTP/1.1|Host: localhost|| => page
GET /state HTTP/1.1|host: 127.0.0.1:5050|| => state
||GET / HTTP/1.0|HOST:\t[::1]:80 |content-length: 00|| => page
GET /state HTTP/1.1|Host: LocalHost:5050|Origin: HTTP://localhost:5050|| => state
POST /fault HTTP/1.1|Host: localhost:5050|Content-Type: application/json|Content-Length: 47|| => fault
POST /fault HTTP/1.1|Host: [::1]|Origin: http://[::1]|Content-Type: application/json; charset=utf-8|Content-Length: 0|| => fault
POST /fault HTTP/1.1|Host: localhost|Content-Type: application/json|Content-Length: 48|| => more
GET /x HTTP/1.1|Host: a.example|| => nothing
GET /state/ HTTP/1.1|| => nothing
GET /? HTTP/1.1|| => nothing
GET http://localhost/ HTTP/1.1|| => nothing
GET / HTTP/2|Host: localhost|| => nothing
GET / HTTP/1.1|Host: localhost| => nothing
POST / HTTP/1.1|Host: a.example|| => 405
HEAD /state HTTP/1.1|| => 405
get / HTTP/1.1|Host: localhost|| => 405
GET /fault HTTP/1.1|Host: localhost|| => 405
GET / HTTP/1.1|| => 403
GET / HTTP/1.1|Host:|| => 403
GET / HTTP/1.1|Host: localhost|Host: localhost|| => 403
GET / HTTP/1.1|Host: a.example|| => 403
GET / HTTP/1.1|Host: localhost.a.example|| => 403
GET / HTTP/1.1|Host: a.localhost|| => 403
GET / HTTP/1.1|Host: localhost:|| => 403
GET / HTTP/1.1|Host: localhost:123456|| => 403
GET / HTTP/1.1|Host: localhost:80a|| => 403
GET / HTTP/1.1|Host: 127.0.0.1.a.example|| => 403
GET / HTTP/1.1|Host: 127.0.0.11|| => 403
GET / HTTP/1.1|Host: [::1|| => 403
POST /fault HTTP/1.1|Host: a.example:5050|Origin: http://a.example:5050|Content-Type: application/json|Content-Length: 47|| => 403
GET / HTTP/1.1|Host: localhost:5050|Origin: http://a.example|| => 403
GET / HTTP/1.1|Host: localhost:5050|Origin: http://localhost|| => 403
GET / HTTP/1.1|Host: localhost:5050|Origin: http://localhost:50501|| => 403
GET / HTTP/1.1|Host: localhost:5050|Origin: https://localhost:5050|| => 403
GET / HTTP/1.1|Host: localhost:5050|Origin: null|| => 403
GET / HTTP/1.1|Host: localhost:5050|Origin:|| => 403
GET / HTTP/1.1|Host: localhost|Origin: http://localhost|Origin: http://localhost|| => 403
POST /fault HTTP/1.1|Host: localhost|Origin: http://a.example|Content-Length: 47|| => 403
GET / HTTP/1.1|Host: localhost|Content-Length: 47|| => 400
GET / HTTP/1.1|Host: localhost|Content-Length: 0|Content-Length: 0|| => 400
GET / HTTP/1.1|Host: localhost|Transfer-Encoding: chunked|| => 400
GET / HTTP/1.1|Host: localhost|Content-Length: 0|Transfer-Encoding: chunked|| => 400
POST /fault HTTP/1.1|Host: localhost|Content-Length: 47|| => 400
POST /fault HTTP/1.1|Host: localhost|Content-Type: text/plain|Content-Length: 47|| => 400
POST /fault HTTP/1.1|Host: localhost|Content-Type: application/json|| => 400
POST /fault HTTP/1.1|Host: localhost|Content-Type: application/json|Transfer-Encoding: chunked|| => 400
POST /fault HTTP/1.1|Host: localhost|Content-Type: application/json|Content-Length: 1048577|| => 400";

#[test]
fn the_first_broken_rule_of_a_request_for_a_page_is_reported(rt: HostRuntime) -> Result<(), Fail> {
    for line in REQUESTS.lines() {
        let (lines, expected) = row_of(line)?;
        let bytes = bytes_of(rt.alloc(), lines, CALL)?;
        let mut reader = reader_of(rt.alloc(), bytes.as_slice())?;
        assert_eq!(rt; reported(&mut reader), expected, "{lines}");
    }
    Ok(())
}

/// The lines of the head of a POST to /fault, with a body of 47 bytes.
const FAULT_LINES: &str =
    "POST /fault HTTP/1.1|Host: localhost|Content-Type: application/json|Content-Length: 47||";

/// Returns whether the request is a POST to /fault with this body.
fn is_fault(request: &PageRequest, body: &[u8]) -> bool {
    match request {
        PageRequest::Fault(taken) => taken.as_slice() == body,
        _ => false,
    }
}

/// Returns whether the next request for a page of the reader is a POST to /fault with this body,
/// after which the connection is kept.
fn takes_fault(reader: &mut RequestReader, body: &[u8]) -> bool {
    match reader.next_page() {
        NextPage::Whole(request, kept) => kept == Persistence::Keep && is_fault(&request, body),
        _ => false,
    }
}

#[test]
fn a_fault_that_comes_byte_by_byte_is_whole_with_its_last_byte(
    rt: HostRuntime,
) -> Result<(), Fail> {
    let head = bytes_of(rt.alloc(), FAULT_LINES, b"")?;
    let bytes = bytes_of(rt.alloc(), FAULT_LINES, CALL)?;
    let mut reader = RequestReader::new(rt.alloc());
    for (place, byte) in bytes.iter().enumerate() {
        let expected = if place < head.len() {
            "nothing"
        } else {
            "more"
        };
        assert_eq!(rt; reported(&mut reader), expected, "{place}");
        reader.feed(&[*byte])?;
    }
    assert!(rt; takes_fault(&mut reader, CALL));
    assert_eq!(rt; reported(&mut reader), "nothing");
    Ok(())
}

/// Returns whether the next request of the reader is a whole call with this body.
fn takes_call(reader: &mut RequestReader, body: &[u8]) -> bool {
    match reader.next() {
        NextRequest::Whole(request, _) => request.body.as_slice() == body,
        _ => false,
    }
}

#[test]
fn requests_for_pages_and_calls_may_follow_each_other(rt: HostRuntime) -> Result<(), Fail> {
    let mut bytes = bytes_of(rt.alloc(), "GET /state HTTP/1.1|Host: localhost||", b"")?;
    bytes.extend_from_slice(bytes_of(rt.alloc(), CALL_LINES, CALL)?.as_slice())?;
    bytes.extend_from_slice(bytes_of(rt.alloc(), FAULT_LINES, CALL)?.as_slice())?;
    bytes.extend_from_slice(b"GET / HTTP/1.1\r\nHost: localhost\r\n\r\n")?;
    let mut reader = reader_of(rt.alloc(), bytes.as_slice())?;
    assert_eq!(rt; reported(&mut reader), "state");
    assert_eq!(rt; reported(&mut reader), "nothing");
    assert!(rt; takes_call(&mut reader, CALL));
    assert!(rt; takes_fault(&mut reader, CALL));
    assert_eq!(rt; reported(&mut reader), "page");
    assert_eq!(rt; reported(&mut reader), "nothing");
    assert!(rt; reader.fault_at_end().is_none());
    Ok(())
}

/// A media type, the length of the body, what becomes of the connection, and the lines of the head.
const HEADS: [(PageMedia, usize, Persistence, &str); 3] = [
    (
        PageMedia::Html,
        1234,
        Persistence::Keep,
        "HTTP/1.1 200 OK|Content-Type: text/html; charset=utf-8|Content-Length: 1234|Cache-Control: no-store|Content-Security-Policy: frame-ancestors 'none'|X-Content-Type-Options: nosniff||",
    ),
    (
        PageMedia::Json,
        0,
        Persistence::Close,
        "HTTP/1.1 200 OK|Content-Type: application/json|Content-Length: 0|Cache-Control: no-store|Content-Security-Policy: frame-ancestors 'none'|X-Content-Type-Options: nosniff|Connection: close||",
    ),
    (
        PageMedia::Json,
        18_446_744_073_709_551_615,
        Persistence::KeepAlive,
        "HTTP/1.1 200 OK|Content-Type: application/json|Content-Length: 18446744073709551615|Cache-Control: no-store|Content-Security-Policy: frame-ancestors 'none'|X-Content-Type-Options: nosniff|Connection: keep-alive||",
    ),
];

/// Returns the head of the response with a page, appended to the bytes `x`.
fn head_after_x(
    alloc: Global,
    media: PageMedia,
    size: usize,
    kept: Persistence,
) -> Result<Vec<u8>, AllocError> {
    let mut bytes = Vec::from_slice(alloc, b"x")?;
    push_page_head(&mut bytes, media, size, kept)?;
    Ok(bytes)
}

#[test]
fn the_head_of_a_page_is_appended(rt: HostRuntime) -> Result<(), Fail> {
    for &(media, size, kept, lines) in &HEADS {
        let bytes = head_after_x(rt.alloc(), media, size, kept)?;
        let expected = bytes_of(rt.alloc(), lines, b"")?;
        assert!(rt;
            bytes.as_slice().strip_prefix(b"x") == Some(expected.as_slice()),
            "{lines}"
        );
    }
    Ok(())
}
