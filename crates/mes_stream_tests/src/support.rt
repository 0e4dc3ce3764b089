//! Helpers of the tests of streams.
//!
//! In a table of tests `|` represents CR LF and `~` LF.

use mes_frame::{Limit, MemorySource};
use mes_msg::Event;
use mes_stream::{Framing, Report, Stop, read_messages, read_plain, read_stream};
use std::alloc::Global;
use std::test::Fail;

/// A record of plain RecordIO: 23 bytes.
pub(crate) const HEARTBEAT: &[u8] = b"20\n{\"type\":\"HEARTBEAT\"}";

/// The record of `HEARTBEAT` in chunks of one byte each, then the last chunk: 143 bytes.
pub(crate) const HEARTBEAT_BY_BYTES: &[u8] =
    b"1\r\n2\r\n1\r\n0\r\n1\r\n\n\r\n1\r\n{\r\n1\r\n\"\r\n1\r\nt\r\n1\r\ny\r\n1\r\np\r\n1\r\ne\r\n1\r\n\"\r\n1\r\n:\r\n1\r\n\"\r\n1\r\nH\r\n1\r\nE\r\n1\r\nA\r\n1\r\nR\r\n1\r\nT\r\n1\r\nB\r\n1\r\nE\r\n1\r\nA\r\n1\r\nT\r\n1\r\n\"\r\n1\r\n}\r\n0\r\n\r\n";

/// The record of `HEARTBEAT` in one chunk, then the last chunk: 34 bytes.
pub(crate) const ONE_CHUNK: &[u8] = b"17\r\n20\n{\"type\":\"HEARTBEAT\"}\r\n0\r\n\r\n";

// The chunk of the record of `HEARTBEAT`: 29 bytes.
const CHUNK: &[u8] = b"17\r\n20\n{\"type\":\"HEARTBEAT\"}\r\n";

/// Returns `count` records of `HEARTBEAT`.
pub(crate) fn heartbeats(alloc: Global, count: usize) -> Result<Vec<u8>, Fail> {
    Ok(HEARTBEAT.repeat(alloc, count)?)
}

/// Returns `count` chunks of `HEARTBEAT`, followed by a text from a table of tests.
pub(crate) fn chunks_and(alloc: Global, count: usize, last: &str) -> Result<Vec<u8>, Fail> {
    let mut stream = CHUNK.repeat(alloc, count)?;
    push_text(&mut stream, last)?;
    Ok(stream)
}

/// Splits a row of a table of tests at ` => `.
pub(crate) fn row_of(line: &str) -> Result<(&str, &str), Fail> {
    Ok(line.split_once(" => ").ok_or("a row has two sides")?)
}

fn push_text(bytes: &mut Vec<u8>, text: &str) -> Result<(), Fail> {
    for byte in text.as_bytes() {
        match *byte {
            b'|' => bytes.extend_from_slice(b"\r\n")?,
            b'~' => bytes.push(b'\n')?,
            other => bytes.push(other)?,
        }
    }
    Ok(())
}

/// Converts a text from a table of tests into bytes.
pub(crate) fn bytes_of(alloc: Global, text: &str) -> Result<Vec<u8>, Fail> {
    let mut bytes = Vec::new(alloc);
    push_text(&mut bytes, text)?;
    Ok(bytes)
}

/// The outcome of a reading: `end` or the error, the number of events, and the number of bytes
/// used.
pub(crate) type Came = (&'static str, usize, u64);

/// Reads a stream in any framing.
pub(crate) fn read_into(
    alloc: Global,
    framing: Framing,
    source: &mut MemorySource<'_>,
    max_reads: u64,
    events: &mut Vec<Event>,
) -> Result<Report, Stop> {
    let limit = Limit::USUAL;
    match framing {
        Framing::Plain => read_plain(alloc, source, limit, max_reads, events),
        Framing::Chunked => read_stream(alloc, source, limit, max_reads, events),
        Framing::Lines => read_messages(alloc, source, framing, limit, max_reads, events),
    }
}

fn came_of(end: &Result<Report, Stop>, events: usize) -> Came {
    match end {
        Ok(report) => ("end", events, report.used),
        Err(stop) => (stop.fault.title(), events, stop.used),
    }
}

/// Reads a stream, and returns the outcome.
pub(crate) fn read(
    alloc: Global,
    framing: Framing,
    source: &mut MemorySource<'_>,
    max_reads: u64,
) -> Came {
    let mut events = Vec::new(alloc);
    let end = read_into(alloc, framing, source, max_reads, &mut events);
    let came = came_of(&end, events.len());
    drop(end);
    drop(events);
    came
}

/// Reads a stream with one byte for each read. Returns the end or the error, the number of bytes
/// used, and the number of reads.
pub(crate) fn read_by_bytes(
    alloc: Global,
    framing: Framing,
    bytes: &[u8],
    max_reads: u64,
) -> (&'static str, u64, u64) {
    let mut source = MemorySource::new(bytes, 1);
    let (end, _, used) = read(alloc, framing, &mut source, max_reads);
    (end, used, source.counts().calls)
}

/// Returns the bytes as text, so that a failed test prints the text.
pub(crate) fn as_text(bytes: &[u8]) -> Option<&str> {
    str::from_utf8(bytes).ok()
}
