//! Responses to a SUBSCRIBE: heads in any case, bodies with chunk extensions and trailers, and
//! streams that end, fail or run out of reads at each byte.

use crate::support::{SHOWN, STREAM, bytes_of, row_of, shown};
use mes_frame::MemorySource;
use std::alloc::Global;
use std::test::Fail;

// The length of the head of `STREAM` in bytes.
const HEAD: usize = 134;

// The offsets in the body of `STREAM` at which the records of its two events end.
const ENDS: [usize; 2] = [108, 131];

// The length of the body of `STREAM` in bytes.
const BODY: u32 = 138;

// Each row: a response, the text printed for it, and the exit status if it is 1.
const ANSWERS: &str =
    r#"HTTP/1.1 200 OK|Content-Type: application/json|Transfer-Encoding: chunked|Mesos-Stream-Id: s1||7f|100~{"type":"SUBSCRIBED","subscribed":{"framework_id":{"value":"F1"},"heartbeat_interval_seconds":15.0}}20~{"type":"HEARTBEAT"}|0|| => 1 SUBSCRIBED "F1" 15.0~2 HEARTBEAT~events 2 bytes 138~
HTTP/1.1 200 OK|CONTENT-TYPE: Application/JSON; charset=utf-8|transfer-encoding: CHUNKED|mEsOs-StReAm-Id: s1|Content-Length: 3||7f|100~{"type":"SUBSCRIBED","subscribed":{"framework_id":{"value":"F1"},"heartbeat_interval_seconds":15.0}}20~{"type":"HEARTBEAT"}|0|| => 1 SUBSCRIBED "F1" 15.0~2 HEARTBEAT~events 2 bytes 138~
HTTP/1.0 200 Fine|Server: x|Content-Type: application/json|Transfer-Encoding: chunked|Mesos-Stream-Id: s1||7f|100~{"type":"SUBSCRIBED","subscribed":{"framework_id":{"value":"F1"},"heartbeat_interval_seconds":15.0}}20~{"type":"HEARTBEAT"}|0|| => 1 SUBSCRIBED "F1" 15.0~2 HEARTBEAT~events 2 bytes 138~
HTTP/1.1 200 OK|Content-Type: application/json|Transfer-Encoding: chunked|Mesos-Stream-Id: s1||7f;a=b|100~{"type":"SUBSCRIBED","subscribed":{"framework_id":{"value":"F1"},"heartbeat_interval_seconds":15.0}}20~{"type":"HEARTBEAT"}|0;c|X: y|Z: || => 1 SUBSCRIBED "F1" 15.0~2 HEARTBEAT~events 2 bytes 155~
HTTP/1.1 200 OK|Content-Type: application/json|Transfer-Encoding: chunked|Mesos-Stream-Id: s1||3|100|68|~{"type":"SUBSCRIBED","subscribed":{"framework_id":{"value":"F1"},"heartbeat_interval_seconds":15.0}}20~|14|{"type":"HEARTBEAT"}|000|| => 1 SUBSCRIBED "F1" 15.0~2 HEARTBEAT~events 2 bytes 151~
HTTP/1.1 200 OK|Content-Type: application/json|Transfer-Encoding: chunked|Mesos-Stream-Id: s1||0|| => events 0 bytes 5~
HTTP/1.1 200 OK|Content-Type: application/json|Transfer-Encoding: chunked|Mesos-Stream-Id: s1||0||0|| => events 0 bytes 5~
HTTP/1.1 200 OK|Content-Type: application/json|Transfer-Encoding: chunked|Mesos-Stream-Id: s1|| => fault F6 EndsInsideChunks after 0~ 1
HTTP/1.1 200 OK|Content-Type: application/json|Transfer-Encoding: chunked|Mesos-Stream-Id: s1||g => fault F1 BadChunkLine after 1~ 1
HTTP/1.1 200 OK|Content-Type: application/json|Transfer-Encoding: chunked|Mesos-Stream-Id: s1||69|100~{"type":"SUBSCRIBED","subscribed":{"framework_id":{"value":"F1"},"heartbeat_interval_seconds":15.0}}x|0|| => 1 SUBSCRIBED "F1" 15.0~fault F7 BadSizeLine after 109~ 1
HTTP/1.1 403 Forbidden|Content-Length: 0|Connection: close|| => refused H4 Status 403~ 1
HTTP/1.1 202 Accepted|Content-Length: 0|Connection: close|| => refused H4 Status 202~ 1
HTTP/1.1 400 Bad Request|Content-Length: 0|Connection: close|| => refused H4 Status 400~ 1
HTTP/1.1 200 OK|| => refused H5 NotChunked~ 1
HTTP/1.1 200 OK|Content-Type: application/json|Content-Length: 5|Mesos-Stream-Id: s1||0|| => refused H5 NotChunked~ 1
HTTP/1.1 200 OK|Transfer-Encoding: chunked|Mesos-Stream-Id: s1||0|| => refused H6 NotJson~ 1
HTTP/1.1 200 OK|Content-Type: application/x-protobuf|Transfer-Encoding: chunked|Mesos-Stream-Id: s1||0|| => refused H6 NotJson~ 1
HTTP/1.1 200 OK|Content-Type: application/json|Transfer-Encoding: chunked||0|| => refused H7 NoStreamId~ 1
HTTP/1.1 200 OK|Content-Type: application/json|Transfer-Encoding: chunked|Mesos-Stream-Id: s1|Mesos-Stream-Id: s1||0|| => refused H7 NoStreamId~ 1
HTTP/1.1 099 x|| => refused H3 BadHead~ 1
HTTP/1.1 200 OK| => refused H3 BadHead~ 1
 => refused H3 BadHead~ 1
x => refused H3 BadHead~ 1"#;

// Returns the text printed for a response; `most` is the largest read in bytes.
fn printed(alloc: Global, answer: &[u8], most: usize) -> Result<String, Fail> {
    shown(alloc, &mut MemorySource::new(answer, most), 1_000)
}

#[test]
fn responses_are_shown(rt: HostRuntime) -> Result<(), Fail> {
    for row in ANSWERS.lines() {
        let (answer, expected) = row_of(row)?;
        let bytes = bytes_of(rt.alloc(), answer)?;
        for most in [1, 7, 4_096] {
            let printed = printed(rt.alloc(), bytes.as_slice(), most)?;
            assert_eq!(rt; printed.as_str(), expected, "{row}");
        }
    }
    Ok(())
}

// Returns the lines of the events whose records end in the first `bytes` bytes of the body, then
// `last`.
fn lines_and(alloc: Global, bytes: usize, last: &str) -> Result<String, Fail> {
    let mut lines = String::new(alloc);
    if ENDS[0] <= bytes {
        lines.push_str(r#"1 SUBSCRIBED "F1" 15.0~"#)?;
    }
    if ENDS[1] <= bytes {
        lines.push_str("2 HEARTBEAT~")?;
    }
    lines.push_str(last)?;
    Ok(lines)
}

// Returns the expected output if the error `fault` occurs after `bytes` bytes of the body.
fn broken(alloc: Global, fault: &str, bytes: usize) -> Result<String, Fail> {
    let last = format!(in alloc; "fault {fault} after {bytes}~ 1")?;
    lines_and(alloc, bytes, last.as_str())
}

// Returns the expected output if the response ends after `bytes` bytes: the error is `head` in the
// head, and `stream` in the body.
fn early(alloc: Global, head: &str, stream: &str, bytes: usize) -> Result<String, Fail> {
    if bytes < HEAD {
        return Ok(format!(in alloc; "refused {head}~ 1")?);
    }
    broken(alloc, stream, bytes - HEAD)
}

// Each complete event is printed before the error.
#[test]
fn a_response_that_ends_early_shows_the_events_before(rt: HostRuntime) -> Result<(), Fail> {
    let bytes = bytes_of(rt.alloc(), STREAM)?;
    for cut in 0..bytes.len() {
        let expected = early(rt.alloc(), "H3 BadHead", "F6 EndsInsideChunks", cut)?;
        let printed = printed(rt.alloc(), &bytes[..cut], 7)?;
        assert_eq!(rt; printed.as_str(), expected.as_str(), "{cut}");
    }
    Ok(())
}

// Each read after the first `good` bytes of the response fails.
fn failing(alloc: Global, answer: &[u8], good: usize) -> Result<String, Fail> {
    shown(
        alloc,
        &mut MemorySource::failing_after(answer, 7, good),
        1_000,
    )
}

#[test]
fn a_response_whose_reader_fails_shows_the_events_before(rt: HostRuntime) -> Result<(), Fail> {
    let bytes = bytes_of(rt.alloc(), STREAM)?;
    for good in 0..bytes.len() {
        let expected = early(rt.alloc(), "H1 Read", "F14 Read", good)?;
        let printed = failing(rt.alloc(), bytes.as_slice(), good)?;
        assert_eq!(rt; printed.as_str(), expected.as_str(), "{good}");
    }
    Ok(())
}

// Reads one byte at a time, with at most `max_reads` reads after the head.
fn spent(alloc: Global, answer: &[u8], max_reads: u32) -> Result<String, Fail> {
    shown(alloc, &mut MemorySource::new(answer, 1), max_reads)
}

// The reads of the head are not counted.
#[test]
fn spent_reads_show_the_events_before(rt: HostRuntime) -> Result<(), Fail> {
    let bytes = bytes_of(rt.alloc(), STREAM)?;
    for reads in 0..BODY {
        let expected = broken(rt.alloc(), "F15 ReadsSpent", reads as usize)?;
        let printed = spent(rt.alloc(), bytes.as_slice(), reads)?;
        assert_eq!(rt; printed.as_str(), expected.as_str(), "{reads}");
    }
    let printed = spent(rt.alloc(), bytes.as_slice(), BODY)?;
    assert_eq!(rt; printed.as_str(), SHOWN);
    Ok(())
}
