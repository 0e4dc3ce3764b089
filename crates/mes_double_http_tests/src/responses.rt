//! Tests of the heads of responses.

use crate::support::{
    ACCEPTED_LINES, OK_LINES, Reads, asked, bytes_of, expect_breaks, expect_rows, leaves,
};
use arrayvec::ArrayString;
use mes_double_http::{HeadFault, MAX_HEAD_FAULT, StreamId, read_head};
use mes_frame::MemorySource;
use std::alloc::AllocGlobal;
use std::process::Abort;
use std::test::Fail;

/// Heads of responses to a SUBSCRIBE, and the result of `read_head`.
const HEADS: &str =
    "HTTP/1.1 200 OK|Content-Type: application/json|Transfer-Encoding: chunked|Mesos-Stream-Id: s1|| => ok
HTTP/1.0 200|content-type:application/json|TRANSFER-ENCODING:\tChunked \t|mEsOs-StReAm-Id:  s1  || => ok
HTTP/1.1 200 OK|Date: Mon, 05 Oct 2026 10:00:00 GMT|Content-Type: application/json; charset=utf-8|Transfer-Encoding: chunked|Mesos-Stream-Id: 130ae4e3-6b13-4ef4-baa9-9f2e85c3e9af|Content-Length: 7|| => ok
HTTP/1.1 200 OK|Content-Type: Application/JSON ;a=b|Transfer-Encoding: chunked|Mesos-Stream-Id: s1|| => ok
HTTP/1.1 200 OK|Content-Type: application/json|Transfer-Encoding: chunked|| => H7 NoStreamId
HTTP/1.1 200 OK|Content-Type: application/json|Transfer-Encoding: chunked|Mesos-Stream-Id: s1|Mesos-Stream-Id: s1|| => H7 NoStreamId
HTTP/1.1 200 OK|Content-Type: application/json|Transfer-Encoding: chunked|Mesos-Stream-Id:|| => H7 NoStreamId
HTTP/1.1 200 OK|Content-Type: application/json|Transfer-Encoding: chunked|Mesos-Stream-Id: s 1|| => H7 NoStreamId
HTTP/1.1 200 OK|Content-Type: application/json|Transfer-Encoding: chunked|Mesos-Stream-Id: é|| => H7 NoStreamId
HTTP/1.1 200 OK|Content-Type: application/jsonx|Transfer-Encoding: chunked|Mesos-Stream-Id: s1|| => H6 NotJson
HTTP/1.1 200 OK|Content-Type: application/x-protobuf|Transfer-Encoding: chunked|| => H6 NotJson
HTTP/1.1 200 OK|Transfer-Encoding: chunked|Mesos-Stream-Id: s1|| => H6 NotJson
HTTP/1.1 200 OK|Content-Type: application/json|Content-Type: application/json|Transfer-Encoding: chunked|Mesos-Stream-Id: s1|| => H6 NotJson
HTTP/1.1 200 OK|Content-Type: application/json|Content-Length: 9|Mesos-Stream-Id: s1|| => H5 NotChunked
HTTP/1.1 200 OK|Content-Type: text/html|Transfer-Encoding: gzip, chunked|| => H5 NotChunked
HTTP/1.1 200 OK|Content-Type: application/json|Transfer-Encoding: chunked|Transfer-Encoding: chunked|Mesos-Stream-Id: s1|| => H5 NotChunked
HTTP/1.1 403 Forbidden|Content-Length: 0|| => H4 Status
HTTP/1.1 202 Accepted|| => H4 Status
HTTP/1.1 100 Continue|| => H4 Status
HTTP/1.1 999|| => H4 Status
HTTP/1.1 099 Low|Content-Type: application/json|Transfer-Encoding: chunked|Mesos-Stream-Id: s1|| => H3 BadHead
HTTP/1.1 000|| => H3 BadHead
HTTP/2 200 OK|| => H3 BadHead
HTTP/1.1 20 OK|| => H3 BadHead
HTTP/1.1 200 OK|A : b|| => H3 BadHead
HTTP/1.1 200 OK|A: b| c|| => H3 BadHead
HTTP/1.1 200 OK| => H3 BadHead
 => H3 BadHead";

/// Heads of responses to calls other than SUBSCRIBE, and the result of `read_answer`.
const ANSWERS: &str = "HTTP/1.1 202 Accepted|Content-Length: 0|Connection: close|| => ok
HTTP/1.1 202|| => ok
HTTP/1.1 202 Accepted|Transfer-Encoding: chunked|| => ok
HTTP/1.1 200 OK|| => H4 Status
HTTP/1.1 400 Bad Request|Content-Length: 5|| => H4 Status
HTTP/1.1 042 Low|| => H3 BadHead
HTTP/1.1 202 Accepted| => H3 BadHead";

#[test]
fn heads_of_responses_are_accepted(rt: HostRuntime) -> Result<(), Fail> {
    expect_rows(&rt, Reads::Head, HEADS, b"")?;
    expect_rows(&rt, Reads::Answer, ANSWERS, b"")
}

/// Returns whether the source has a head with this stream id.
fn opens(source: &mut MemorySource<'_>, stream: &str) -> bool {
    match read_head(source) {
        Ok(id) => id.as_str() == stream,
        Err(_) => false,
    }
}

/// The stream id is the value of the field `Mesos-Stream-Id`, and the body after the head is not
/// consumed.
#[test]
fn a_head_is_read_without_its_body(rt: HostRuntime) -> Result<(), Fail> {
    let bytes = bytes_of(rt.alloc(), OK_LINES, b"XY")?;
    let mut source = MemorySource::new(bytes.as_slice(), 64);
    assert!(rt; opens(&mut source, "s1"));
    assert!(rt; leaves(&mut source, b"XY")?);
    let bytes = bytes_of(rt.alloc(), ACCEPTED_LINES, b"XY")?;
    let mut source = MemorySource::new(bytes.as_slice(), 64);
    assert_eq!(rt; asked(rt.alloc(), Reads::Answer, &mut source), "ok");
    assert!(rt; leaves(&mut source, b"XY")?);
    Ok(())
}

#[test]
fn a_head_that_breaks_off_is_refused(rt: HostRuntime) -> Result<(), Fail> {
    for (reads, lines) in [(Reads::Head, OK_LINES), (Reads::Answer, ACCEPTED_LINES)] {
        let bytes = bytes_of(rt.alloc(), lines, b"")?;
        expect_breaks(&rt, reads, bytes.as_slice(), bytes.len());
    }
    Ok(())
}

/// Returns the text of the fault of these bytes, or an empty text if they are a head.
fn text_of(bytes: &[u8]) -> ArrayString<MAX_HEAD_FAULT> {
    let mut text = ArrayString::new();
    if let Err(fault) = &read_head(&mut MemorySource::new(bytes, 1)) {
        fault.text(&mut text);
    }
    text
}

fn expect_text<R: Abort>(rt: &R, fault: &HeadFault, expected: &str) {
    let mut text = ArrayString::new();
    fault.text(&mut text);
    assert_eq!(rt; text.as_str(), expected);
}

#[test]
fn a_head_fault_has_its_text(rt: HostRuntime) {
    assert_eq!(rt;
        text_of(b"HTTP/1.1 403 Forbidden\r\n\r\n").as_str(),
        "H4 Status 403"
    );
    expect_text(&rt, &HeadFault::NoStreamId, "H7 NoStreamId");
    expect_text(&rt, &HeadFault::ShortBody, "H12 ShortBody");
}

fn is_an_id(text: &str) -> bool {
    StreamId::new(text).is_some()
}

/// Texts, and whether each is a valid stream id; the last two texts have 128 and 129 bytes.
const IDS: [(&str, bool); 7] = [
    ("", false),
    ("a b", false),
    ("é", false),
    ("\u{7f}", false),
    ("!~", true),
    (
        "0123456789abcdef0123456789abcdef0123456789abcdef0123456789abcdef0123456789abcdef0123456789abcdef0123456789abcdef0123456789abcdef",
        true,
    ),
    (
        "0123456789abcdef0123456789abcdef0123456789abcdef0123456789abcdef0123456789abcdef0123456789abcdef0123456789abcdef0123456789abcdefX",
        false,
    ),
];

#[test]
fn a_stream_id_has_1_to_128_visible_characters(rt: HostRuntime) {
    for &(text, is_one) in &IDS {
        assert_eq!(rt; is_an_id(text), is_one, "{text}");
    }
}

#[test]
fn a_uuid_is_an_id(rt: HostRuntime) -> Result<(), Fail> {
    let uuid = uuid::Uuid::parse_str("00000000-0000-4000-8000-0000000000AB")
        .ok()
        .ok_or("a UUID")?;
    let id = StreamId::of_uuid(uuid);
    assert_eq!(rt; id.as_str(), "00000000-0000-4000-8000-0000000000ab");
    assert_eq!(rt; id.copy().as_str(), "00000000-0000-4000-8000-0000000000ab");
    Ok(())
}
