//! Streams in either framing, read from a device.
use super::readers::{Fed, Reader, fed, finished, kept, reader};
use super::*;
use mes_msg::Event;
use mes_stream::{Body, StreamReader, read_messages, read_stream};

// More reads than any stream of these tests needs.
const MANY: u64 = 1_000_000;

// Reads a chunked stream; `most` is the largest read in bytes.
fn read_chunked(alloc: Global, bytes: &[u8], most: usize) -> Came {
    let mut source = MemorySource::new(bytes, most);
    read(alloc, Framing::Chunked, &mut source, MANY)
}

// Each row: a chunked stream, and the outcome of reading it.
const READINGS: &str = r#"0|| => end, events 0 bytes 5
 => F6 EndsInsideChunks, events 0 bytes 0
33|20~{"type":"HEARTBEAT"}20~{"type":"HEARTBEAT"}20~{" => F6 EndsInsideChunks, events 2 bytes 55
2|5~|0|| => F10 EndsInsideRecord, events 0 bytes 12
5|20~ => F6 EndsInsideChunks, events 0 bytes 6
0||XYZ => end, events 0 bytes 5
17;a|xyz => F7 BadSizeLine, events 0 bytes 7"#;

fn reported_chunked(alloc: Global, bytes: &[u8], most: usize) -> Result<String, Fail> {
    let (end, events, used) = read_chunked(alloc, bytes, most);
    Ok(format!(in alloc; "{end}, events {events} bytes {used}")?)
}

// The outcome must not depend on the size of the reads.
fn expect_came<R: Abort + AllocGlobal>(rt: &R, bytes: &[u8], came: &str) -> Result<(), Fail> {
    for most in [1, 2, 7, 512] {
        let reported = reported_chunked(rt.alloc(), bytes, most)?;
        assert_eq!(rt; reported.as_str(), came, "{most}");
    }
    Ok(())
}

fn expect_came_row<R: Abort + AllocGlobal>(rt: &R, row: &str) -> Result<(), Fail> {
    let (text, came) = row_of(row)?;
    let stream = bytes_of(rt.alloc(), text)?;
    let reported = expect_came(rt, stream.as_slice(), came);
    drop(stream);
    reported
}

#[test]
fn streams_end_and_break_at_their_byte(rt: HostRuntime) -> Result<(), Fail> {
    for row in READINGS.lines() {
        expect_came_row(&rt, row)?;
    }
    expect_came(&rt, HEARTBEAT_BY_BYTES, "end, events 1 bytes 143")
}

// Reading must succeed after five bytes; `rest` are the bytes that were read after the end of the
// stream.
fn expect_report<R: Abort>(rt: &R, end: &Result<Report, Stop>, rest: &[u8]) -> Result<(), Fail> {
    match end {
        Ok(report) => assert_eq!(rt;
            (report.used, as_text(report.rest.as_slice())),
            (5, as_text(rest))
        ),
        Err(_) => Err("the stream is whole")?,
    }
    Ok(())
}

fn expect_rest<R: Abort>(rt: &R, end: Result<Report, Stop>, rest: &[u8]) -> Result<(), Fail> {
    let reported = expect_report(rt, &end, rest);
    drop(end);
    reported
}

// Reads through the function for either framing.
fn end_of_events(alloc: Global, source: &mut MemorySource<'_>) -> Result<Report, Stop> {
    let mut events = Vec::<Event>::new(alloc);
    let limit = Limit::USUAL;
    read_messages(alloc, source, Framing::Chunked, limit, 9, &mut events)
}

// Reads through the function for chunked streams.
fn end_of_stream(alloc: Global, source: &mut MemorySource<'_>) -> Result<Report, Stop> {
    let mut events = Vec::new(alloc);
    read_stream(alloc, source, Limit::USUAL, 9, &mut events)
}

// A stream of five bytes, followed by three more.
const MORE: &[u8] = b"0\r\n\r\nXYZ";

#[test]
fn bytes_taken_after_the_end_are_returned(rt: HostRuntime) -> Result<(), Fail> {
    let mut source = MemorySource::new(MORE, 512);
    expect_rest(&rt, end_of_events(rt.alloc(), &mut source), b"XYZ")?;
    assert_eq!(rt; source.counts().calls, 1);
    // With two bytes for each read, the third read has the last byte of the stream and one more.
    let mut source = MemorySource::new(MORE, 2);
    expect_rest(&rt, end_of_stream(rt.alloc(), &mut source), b"X")?;
    assert_eq!(rt; (source.counts().calls, source.counts().idle), (3, 0));
    Ok(())
}

// Returns the outcome and the number of reads.
fn read_one_chunk(alloc: Global, max_reads: u64) -> (Came, u64) {
    let mut source = MemorySource::new(ONE_CHUNK, 512);
    let came = read(alloc, Framing::Chunked, &mut source, max_reads);
    (came, source.counts().calls)
}

#[test]
fn reads_of_a_chunked_stream_are_counted(rt: HostRuntime) {
    assert_eq!(rt;
        read_one_chunk(rt.alloc(), 0),
        (("F15 ReadsSpent", 0, 0), 0)
    );
    assert_eq!(rt; read_one_chunk(rt.alloc(), 1), (("end", 1, 34), 1));
    for max_reads in 0..34 {
        let spent = read_by_bytes(rt.alloc(), Framing::Chunked, ONE_CHUNK, max_reads);
        assert_eq!(rt; spent, ("F15 ReadsSpent", max_reads, max_reads));
    }
}

// Reads a device that fails after `good` bytes of `HEARTBEAT_BY_BYTES`. Returns the outcome and the
// number of failed reads.
fn read_failing(alloc: Global, good: usize) -> (Came, u64) {
    let mut source = MemorySource::failing_after(HEARTBEAT_BY_BYTES, 1, good);
    let came = read(alloc, Framing::Chunked, &mut source, MANY);
    (came, source.counts().failures)
}

// The bytes before the failure are used, and the events that end in those bytes are returned.
#[test]
fn a_read_may_fail_after_each_byte(rt: HostRuntime) {
    for good in 0..143 {
        let events = if good >= 136 { 1 } else { 0 };
        let failed = (("F14 Read", events, good as u64), 1);
        assert_eq!(rt; read_failing(rt.alloc(), good), failed, "{good}");
    }
    assert_eq!(rt; read_failing(rt.alloc(), 143), (("end", 1, 143), 0));
}

// Each proper prefix of a chunked stream with one record ends too early.
fn expect_fronts_of_chunks<R: Abort + AllocGlobal>(rt: &R, stream: &[u8]) {
    for len in 0..stream.len() {
        let events = if len >= 136 { 1 } else { 0 };
        let (front, _) = stream.split_at(len);
        assert_eq!(rt;
            read_chunked(rt.alloc(), front, 512),
            ("F6 EndsInsideChunks", events, len as u64),
            "{len}"
        );
    }
}

fn read_plainly(alloc: Global, bytes: &[u8]) -> Came {
    let mut source = MemorySource::new(bytes, 512);
    read(alloc, Framing::Plain, &mut source, MANY)
}

#[test]
fn each_front_ends_too_early(rt: HostRuntime) {
    assert_eq!(rt; HEARTBEAT_BY_BYTES.len(), 143);
    expect_fronts_of_chunks(&rt, HEARTBEAT_BY_BYTES);
    for len in 0..24 {
        let whole = len == 0 || len == 23;
        let end = if whole { "end" } else { "F10 EndsInsideRecord" };
        let came = read_plainly(rt.alloc(), &HEARTBEAT[..len]);
        assert_eq!(rt; came, (end, len / 23, len as u64), "{len}");
    }
}

#[test]
fn size_lines_do_not_wrap(rt: HostRuntime) {
    assert_eq!(rt;
        read_plainly(rt.alloc(), b"18446744073709551636\n"),
        ("F9 RecordTooLarge", 0, 21)
    );
    assert_eq!(rt;
        read_chunked(rt.alloc(), b"ffffffffffffffff\r\n", 512),
        ("F6 EndsInsideChunks", 0, 18)
    );
    assert_eq!(rt;
        read_chunked(rt.alloc(), b"fffffffffffffffff", 512),
        ("F3 ChunkTooLarge", 0, 17)
    );
}

// Returns the results of two pieces, each with the outcome if the input ended after that piece.
fn feed_two(
    reader: &mut Reader,
    front: &[u8],
    rest: &[u8],
    events: &mut Vec<Event>,
) -> [(Fed, &'static str); 2] {
    let first = (fed(reader, front, events), finished(reader));
    let second = (fed(reader, rest, events), finished(reader));
    [first, second]
}

// Like `feed_two`, but returns the number of events too.
fn fed_two(
    alloc: Global,
    framing: Framing,
    front: &[u8],
    rest: &[u8],
) -> ([(Fed, &'static str); 2], usize) {
    let mut events = Vec::new(alloc);
    let mut reader = reader(alloc, framing);
    let answers = feed_two(&mut reader, front, rest, &mut events);
    drop(reader);
    (answers, events.len())
}

// A chunked stream with one record, cut at each byte.
fn expect_cuts_of_chunks<R: Abort + AllocGlobal>(rt: &R, stream: &[u8]) {
    for cut in 0..stream.len() {
        let (front, rest) = stream.split_at(cut);
        let ([first, second], events) = fed_two(rt.alloc(), Framing::Chunked, front, rest);
        assert_eq!(rt; first, (Ok(None), "F6 EndsInsideChunks"), "{cut}");
        assert_eq!(rt; (second.0, events), (Ok(Some(rest.len())), 1), "{cut}");
    }
}

// A record of plain RecordIO, cut at each byte.
fn expect_cuts_of_records<R: Abort + AllocGlobal>(rt: &R, stream: &[u8]) {
    for cut in 0..stream.len() {
        let (front, rest) = stream.split_at(cut);
        let (answers, events) = fed_two(rt.alloc(), Framing::Plain, front, rest);
        let between = if cut == 0 {
            "end"
        } else {
            "F10 EndsInsideRecord"
        };
        let expected = [(Ok(None), between), (Ok(None), "end")];
        assert_eq!(rt; (answers, events), (expected, 1), "{cut}");
    }
}

#[test]
fn a_stream_in_two_pieces_is_read_alike(rt: HostRuntime) {
    expect_cuts_of_chunks(&rt, HEARTBEAT_BY_BYTES);
    expect_cuts_of_records(&rt, HEARTBEAT);
}

fn expect_spaces<R: Abort>(rt: &R, plain: &mut Reader, events: &mut Vec<Event>) {
    assert_eq!(rt; fed(plain, b"4020\n", events), Ok(None));
    for _ in 0..4000 {
        let answer = fed(plain, b" ", events);
        assert_eq!(rt; (answer, kept(plain)), (Ok(None), 0));
    }
    assert_eq!(rt; fed(plain, &HEARTBEAT[3..], events), Ok(None));
    assert_eq!(rt; (events.len(), finished(plain)), (1, "end"));
}

// The 4,000 spaces before the text of a record are not buffered.
#[test]
fn spaces_are_not_buffered(rt: HostRuntime) {
    let mut events = Vec::new(rt.alloc());
    let body = Body::new(EventReader::new(rt.alloc()), Limit::USUAL);
    let mut plain = StreamReader::Plain(body);
    expect_spaces(&rt, &mut plain, &mut events);
}
