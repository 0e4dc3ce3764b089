//! The number of reads, if the device fills each read.

use crate::support::{chunks_and, read, row_of};
use mes_frame::MemorySource;
use mes_stream::Framing;
use std::alloc::{AllocGlobal, Global};
use std::process::Abort;
use std::test::Fail;

// Each row: the number of chunks, the text after them, and the outcome: the end, the bytes used,
// the bytes of the stream, and the number of reads. One read is made for each 512 bytes begun, and
// none to detect the end, because the last chunk ends the stream.
const WHOLE: &str = "0:0|| => end after 5 of 5, asked 1
17:0;aaaaaaaaaaaaa|| => end after 512 of 512, asked 1
17:0;aaaaaaaaaaaaaa|| => end after 513 of 513, asked 2
35:0;aaa|| => end after 1024 of 1024, asked 2
35:0;aaaa|| => end after 1025 of 1025, asked 3";

// Streams that end early: one more read detects the end of the device.
const BROKEN: &str = "0: => F6 EndsInsideChunks after 0 of 0, asked 1
1: => F6 EndsInsideChunks after 29 of 29, asked 2
17: => F6 EndsInsideChunks after 493 of 493, asked 2
18: => F6 EndsInsideChunks after 522 of 522, asked 3
36: => F6 EndsInsideChunks after 1044 of 1044, asked 4";

fn stream_of(alloc: Global, text: &str) -> Result<Vec<u8>, Fail> {
    let (count, last) = text.split_once(":").ok_or("a stream has two parts")?;
    match count.parse::<usize>() {
        Ok(count) => chunks_and(alloc, count, last),
        Err(_) => Err("a number of chunks")?,
    }
}

fn reported(alloc: Global, stream: &[u8]) -> Result<String, Fail> {
    let mut source = MemorySource::new(stream, usize::MAX);
    let (end, _, used) = read(alloc, Framing::Chunked, &mut source, 1_000);
    let bytes = stream.len();
    let calls = source.counts().calls;
    Ok(format!(in alloc; "{end} after {used} of {bytes}, asked {calls}")?)
}

fn reported_row(alloc: Global, text: &str) -> Result<String, Fail> {
    let stream = stream_of(alloc, text)?;
    let reported = reported(alloc, stream.as_slice());
    drop(stream);
    reported
}

fn expect_rows<R: Abort + AllocGlobal>(rt: &R, rows: &str) -> Result<(), Fail> {
    for row in rows.lines() {
        let (stream, expected) = row_of(row)?;
        let reported = reported_row(rt.alloc(), stream)?;
        assert_eq!(rt; reported.as_str(), expected, "{row}");
    }
    Ok(())
}

#[test]
fn a_chunked_stream_takes_few_calls(rt: HostRuntime) -> Result<(), Fail> {
    expect_rows(&rt, WHOLE)
}

#[test]
fn a_stream_that_breaks_off_takes_one_call_more(rt: HostRuntime) -> Result<(), Fail> {
    expect_rows(&rt, BROKEN)
}
