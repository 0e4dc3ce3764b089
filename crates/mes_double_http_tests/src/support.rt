//! The format of the tables of tests, and the functions that run the rows.
//!
//! A table has a row on each line, `LINES => RESULT`. In LINES each `|` is the CR LF that ends a
//! line.
//!
//! Each public function under test is called in a small function that returns plain data. So the
//! proofs of the loops over rows do not depend on the contract of the function under test.

use mes_double_http::{HeadFault, Request, read_answer, read_head, read_request};
use mes_frame::{MemorySource, Source};
use std::alloc::{AllocError, AllocGlobal, Global};
use std::process::Abort;
use std::test::Fail;

/// The text of a call, with 47 bytes.
pub(crate) const CALL: &[u8] = br#"{"type":"REVIVE","framework_id":{"value":"F1"}}"#;

/// The lines of the head of a stream of events.
pub(crate) const OK_LINES: &str =
    "HTTP/1.1 200 OK|Content-Type: application/json|Transfer-Encoding: chunked|Mesos-Stream-Id: s1||";

/// The lines of the head of a response without a body.
pub(crate) const ACCEPTED_LINES: &str =
    "HTTP/1.1 202 Accepted|Content-Length: 0|Connection: close||";

/// The lines of the head of a request.
pub(crate) const CALL_LINES: &str =
    "POST /api/v1/scheduler HTTP/1.1|Host: 127.0.0.1:5050|Content-Type: application/json|Accept: application/json|Mesos-Stream-Id: s1|Connection: close|Content-Length: 47||";

/// Splits a row of a table into LINES and RESULT.
pub(crate) fn row_of(line: &str) -> Result<(&str, &str), Fail> {
    Ok(line.split_once(" => ").ok_or("a row has two sides")?)
}

/// Returns the bytes that LINES represents, followed by `following`.
pub(crate) fn bytes_of(
    alloc: Global,
    lines: &str,
    following: &[u8],
) -> Result<Vec<u8>, AllocError> {
    let mut bytes = Vec::new(alloc);
    for byte in lines.as_bytes() {
        if *byte == b'|' {
            bytes.extend_from_slice(b"\r\n")?;
        } else {
            bytes.push(*byte)?;
        }
    }
    bytes.extend_from_slice(following)?;
    Ok(bytes)
}

/// Returns the number and the name of the fault, or `ok` for a value.
fn answer_of<T>(answer: &Result<T, HeadFault>) -> &'static str {
    match answer {
        Ok(_) => "ok",
        Err(fault) => fault.title(),
    }
}

/// The function under test: `read_head`, `read_answer` or `read_request`.
#[derive(Clone, Copy)]
pub(crate) enum Reads {
    Head,
    Answer,
    Request,
}

/// Calls the function under test with this source, and returns its fault or `ok`.
pub(crate) fn asked(alloc: Global, reads: Reads, source: &mut MemorySource<'_>) -> &'static str {
    match reads {
        Reads::Head => answer_of(&read_head(source)),
        Reads::Answer => answer_of(&read_answer(source)),
        Reads::Request => answer_of(&read_request(alloc, source)),
    }
}

/// Calls the function under test with these bytes, and returns its fault or `ok`.
pub(crate) fn answered(alloc: Global, reads: Reads, bytes: &[u8]) -> &'static str {
    asked(alloc, reads, &mut MemorySource::new(bytes, 64))
}

/// Like [`answered`], but the reader fails after the first `good` bytes.
pub(crate) fn failing(alloc: Global, reads: Reads, bytes: &[u8], good: usize) -> &'static str {
    asked(
        alloc,
        reads,
        &mut MemorySource::failing_after(bytes, 64, good),
    )
}

/// Expects the result of each row, if the bytes `following` come after the lines of the row.
pub(crate) fn expect_rows<R: Abort + AllocGlobal>(
    rt: &R,
    reads: Reads,
    table: &str,
    following: &[u8],
) -> Result<(), Fail> {
    for line in table.lines() {
        let (lines, expected) = row_of(line)?;
        let bytes = bytes_of(rt.alloc(), lines, following)?;
        assert_eq!(rt;
            answered(rt.alloc(), reads, bytes.as_slice()),
            expected,
            "{lines}"
        );
    }
    Ok(())
}

/// Expects H1 if the reader fails before the last of the bytes. Expects H3 if the reader ends in
/// the head, which has `head` bytes, and H12 if the reader ends in the body.
pub(crate) fn expect_breaks<R: Abort + AllocGlobal>(
    rt: &R,
    reads: Reads,
    bytes: &[u8],
    head: usize,
) {
    for good in 0..bytes.len() {
        let ended = if good < head {
            "H3 BadHead"
        } else {
            "H12 ShortBody"
        };
        assert_eq!(rt;
            failing(rt.alloc(), reads, bytes, good),
            "H1 Read",
            "{good}"
        );
        assert_eq!(rt;
            answered(rt.alloc(), reads, &bytes[..good]),
            ended,
            "{good}"
        );
    }
}

/// Returns whether the next read of the source, of at most 8 bytes, returns `bytes`.
pub(crate) fn leaves(source: &mut MemorySource<'_>, bytes: &[u8]) -> Result<bool, Fail> {
    let mut buffer = [0; 8];
    let count = source.fetch(&mut buffer)?;
    Ok(buffer.get(..count) == Some(bytes))
}

/// Returns the stream id of a request, or `-`.
pub(crate) fn stream_of(request: &Request) -> &str {
    match &request.stream {
        Some(id) => id.as_str(),
        None => "-",
    }
}

/// Returns whether a request with this body and this stream id (`-` for none) is read from the
/// source.
pub(crate) fn gives(
    alloc: Global,
    source: &mut MemorySource<'_>,
    body: &[u8],
    stream: &str,
) -> bool {
    match read_request(alloc, source) {
        Ok(request) => request.body.as_slice() == body && stream_of(&request) == stream,
        Err(_) => false,
    }
}
