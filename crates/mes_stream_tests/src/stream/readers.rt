//! Readers of streams that decode pieces: one result for each record, the numbers of records, the
//! buffered bytes, and the number of reads.
use super::*;
use mes_stream::{Body, EndedRecord, MAX_READ, Reading, ReadingStop, ReadsEnd, Step, StreamReader};

/// A reader of a stream of events.
pub(super) type Reader = StreamReader<EventReader>;

/// The result of feeding a reader: `None` if the stream continues, the number of bytes up to its
/// end, or an error.
pub(super) type Fed = Result<Option<usize>, ()>;

pub(super) fn reader(alloc: Global, framing: Framing) -> Reader {
    StreamReader::new(framing, EventReader::new(alloc), Limit::USUAL)
}

/// Feeds a piece to a reader.
pub(super) fn fed(reader: &mut Reader, piece: &[u8], events: &mut Vec<Event>) -> Fed {
    let step = reader.feed(piece, events);
    match step.out {
        Decoded::More => Ok(None),
        Decoded::End => Ok(Some(step.used)),
        Decoded::Fault(_) => Err(()),
    }
}

/// Returns the name of the outcome at the end of the input.
pub(super) fn finished(reader: &Reader) -> &'static str {
    name_of_end(&reader.finish())
}

/// Returns the number of buffered bytes of an incomplete record.
pub(super) fn kept(reader: &Reader) -> u64 {
    reader.held()
}

// Returns the number of bytes used, and the name of the result.
fn answered(reader: &mut Reader, piece: &[u8]) -> (usize, &'static str) {
    let step = reader.next(piece).unpacked();
    (step.used, name_of(&step.out))
}

const TWO_RECORDS: &[u8] = b"20\n{\"type\":\"HEARTBEAT\"}20\n{\"type\":\"HEARTBEAT\"}";

fn expect_two_answers<R: Abort>(rt: &R, plain: &mut Reader) {
    assert_eq!(rt; answered(plain, TWO_RECORDS), (23, "HEARTBEAT"));
    assert_eq!(rt; answered(plain, &TWO_RECORDS[23..]), (23, "HEARTBEAT"));
    assert_eq!(rt; answered(plain, b""), (0, "more"));
}

// A reader returns a result after the first of two records in a piece; the rest of the piece is
// passed again.
#[test]
fn a_reader_stops_after_each_record(rt: HostRuntime) {
    let mut plain = reader(rt.alloc(), Framing::Plain);
    expect_two_answers(&rt, &mut plain);
}

// Returns the number of bytes used, and the number of the record that is not JSON, if any.
fn used_and_record(step: &Step<Event>) -> (usize, Option<u64>) {
    match &step.out {
        Decoded::Fault(Fault::Text { at_record, .. }) => (step.used, Some(*at_record)),
        _ => (step.used, None),
    }
}

// `done` records precede the record that is not JSON.
fn text_fault_after(alloc: Global, done: u64) -> (usize, Option<u64>) {
    let body = Body::following(EventReader::new(alloc), Limit::USUAL, done);
    let mut reader = StreamReader::Plain(body);
    let step = reader.next(b"1\n[").unpacked();
    drop(reader);
    used_and_record(&step)
}

// Another reader decoded the first records; the numbers of records continue after those.
#[test]
fn records_before_are_counted(rt: HostRuntime) {
    for done in [0, 1, 7, u64::MAX] {
        let numbered = Some(done.saturating_add(1));
        assert_eq!(rt; text_fault_after(rt.alloc(), done), (3, numbered), "{done}");
    }
}

// Feeds `rest`, then the byte `x` up to 5,000 times until the stream ends. Returns whether the
// stream ends with an error.
fn fails_after(reader: &mut Reader, rest: &[u8], events: &mut Vec<Event>) -> bool {
    let mut ended = fed(reader, rest, events);
    for _ in 0..5000 {
        if ended == Ok(None) {
            ended = fed(reader, b"x", events);
        }
    }
    ended.is_err()
}

// An incomplete event is buffered, and freed at the error.
fn expect_let_go<R: Abort>(rt: &R, chunked: &mut Reader, rest: &str, events: &mut Vec<Event>) {
    let open = fed(chunked, b"1a\r\n40\n{\"type\":\"ERROR\",\"messag", events);
    assert_eq!(rt; (open, kept(chunked) > 0), (Ok(None), true));
    let fails = fails_after(chunked, rest.as_bytes(), events);
    assert_eq!(rt; (fails, kept(chunked)), (true, 0), "{rest}");
}

fn expect_fault<R: Abort + AllocGlobal>(rt: &R, rest: &str) {
    let mut events = Vec::new(rt.alloc());
    let mut chunked = reader(rt.alloc(), Framing::Chunked);
    expect_let_go(rt, &mut chunked, rest, &mut events);
}

// Feeds one chunk and the end. Returns the number of buffered bytes too.
fn fed_whole(alloc: Global) -> (Fed, u64) {
    let mut events = Vec::new(alloc);
    let mut chunked = reader(alloc, Framing::Chunked);
    let ended = fed(&mut chunked, ONE_CHUNK, &mut events);
    (ended, kept(&chunked))
}

// Nothing is buffered after an error inside an event (F1 to F5, and F10), and after the end of the
// stream.
#[test]
fn nothing_is_buffered_after_the_end_or_a_fault(rt: HostRuntime) {
    expect_fault(&rt, "\r\n;");
    expect_fault(&rt, "\r\n1;");
    expect_fault(&rt, "\r\nfffffffffffffffff");
    expect_fault(&rt, "X");
    expect_fault(&rt, "\r\n0\r\nX:");
    expect_fault(&rt, "\r\n0\r\n\r\n");
    assert_eq!(rt; fed_whole(rt.alloc()), (Ok(Some(34)), 0));
}

// Returns the end or the error, the number of reads of a device that fills each read, and the
// number of reads that reported the end of the device.
fn asked(alloc: Global, framing: Framing, bytes: &[u8]) -> (&'static str, u64, u64) {
    let mut source = MemorySource::new(bytes, usize::MAX);
    let (end, _, _) = read(alloc, framing, &mut source, 1_000);
    let counts = source.counts();
    (end, counts.calls, counts.idle)
}

// One read is made for each 512 bytes, and one more for the end of plain RecordIO.
#[test]
fn each_read_asks_for_as_much_as_it_may(rt: HostRuntime) -> Result<(), Fail> {
    for records in 0..100 {
        let bytes = heartbeats(rt.alloc(), records)?;
        let calls = bytes.len().div_ceil(MAX_READ) as u64 + 1;
        let asked = asked(rt.alloc(), Framing::Plain, bytes.as_slice());
        assert_eq!(rt; asked, ("end", calls, 1), "{records}");
    }
    Ok(())
}

// The last chunk ends a chunked stream, so that no read is made to detect its end.
#[test]
fn each_read_of_chunks_asks_for_as_much_as_it_may(rt: HostRuntime) -> Result<(), Fail> {
    for records in 0..100 {
        let stream = chunks_and(rt.alloc(), records, "0||")?;
        let calls = stream.len().div_ceil(MAX_READ) as u64;
        let asked = asked(rt.alloc(), Framing::Chunked, stream.as_slice());
        assert_eq!(rt; asked, ("end", calls, 0), "{records}");
    }
    Ok(())
}

// Feeds the bytes of one read to a reading.
fn feed_reading(
    reading: &mut Reading<EventReader>,
    piece: &[u8],
    events: &mut Vec<Event>,
) -> Result<ReadsEnd<ReadingStop>, Fail> {
    if piece.len() > MAX_READ {
        return Err("a read gives so much")?;
    }
    match reading.feed(piece, events) {
        Ok(()) => Ok(ReadsEnd::AtEnd),
        Err(stop) => Ok(ReadsEnd::Stopped(stop)),
    }
}

// The number of bytes used when reading stopped, and the number of the record that is not JSON, if
// that record is the reason.
type StoppedAt = (u64, Option<u64>);

fn stop_of(outcome: &Result<Report, Stop>) -> Option<StoppedAt> {
    match outcome {
        Ok(_) => None,
        Err(
            Stop {
                fault: Fault::Text { at_record, .. },
                used,
            },
        ) => Some((*used, Some(*at_record))),
        Err(stop) => Some((stop.used, None)),
    }
}

// After a piece the reading must have stopped and buffer nothing, and its number of bytes used must
// be as given.
fn expect_stop<R: Abort>(
    rt: &R,
    reading: &mut Reading<EventReader>,
    piece: &[u8],
    stop: StoppedAt,
    events: &mut Vec<Event>,
) -> Result<(), Fail> {
    let end = feed_reading(reading, piece, events)?;
    let used = reading.used();
    let stopped = stop_of(&reading.outcome(end));
    assert_eq!(rt; (used, stopped), (stop.0, Some(stop)));
    assert_eq!(rt; reading.held(), 0, "{used}");
    Ok(())
}

fn expect_first_stop<R: Abort + AllocGlobal>(
    rt: &R,
    piece: &[u8],
    stop: StoppedAt,
) -> Result<(), Fail> {
    let mut events = Vec::new(rt.alloc());
    let records = EventReader::new(rt.alloc());
    let mut reading = Reading::new(Framing::Plain, records, Limit::USUAL);
    let reported = expect_stop(rt, &mut reading, piece, stop, &mut events);
    drop(reading);
    drop(events);
    reported
}

#[test]
fn a_reading_that_stops_reports_its_bytes(rt: HostRuntime) -> Result<(), Fail> {
    expect_first_stop(&rt, b"20\n{\"type\":\"ERROR\",\"xy", (22, None))?;
    expect_first_stop(&rt, b"x", (1, None))?;
    expect_first_stop(&rt, b"2\n{]3", (4, Some(1)))
}

// Two records, and a third that is not JSON.
const TWO_AND_NO_TEXT: &[u8] = b"20\n{\"type\":\"HEARTBEAT\"}20\n{\"type\":\"HEARTBEAT\"}1\n[";

fn ended_at(answer: &Result<Option<EndedRecord<Event>>, ReadingStop>) -> Option<usize> {
    match answer {
        Ok(Some(ended)) => Some(ended.used),
        _ => None,
    }
}

// Returns the number of bytes up to the end of the first record, as the result has it, and as the
// reading returns it.
fn first_record(alloc: Global, piece: &[u8]) -> Option<(usize, u64)> {
    if piece.len() > MAX_READ {
        return None;
    }
    let mut first = Reading::new(Framing::Plain, EventReader::new(alloc), Limit::USUAL);
    let ended = ended_at(&first.next(piece));
    let used = first.used();
    drop(first);
    Some((ended?, used))
}

// The reading continues after the first record, decodes one more, and stops in the third. Returns
// the number of events added.
fn expect_second_stop<R: Abort + AllocGlobal>(
    rt: &R,
    used: u64,
    rest: &[u8],
) -> Result<usize, Fail> {
    let mut events = Vec::new(rt.alloc());
    let records = EventReader::new(rt.alloc());
    let mut second = Reading::following(Framing::Plain, records, Limit::USUAL, 1, used);
    let reported = expect_stop(rt, &mut second, rest, (49, Some(3)), &mut events);
    drop(second);
    let count = events.len();
    drop(events);
    reported?;
    Ok(count)
}

// The result reports the byte of the piece that ends the first record, so that another reader can
// continue after that byte.
#[test]
fn a_second_reading_continues_after_the_first_record(rt: HostRuntime) -> Result<(), Fail> {
    assert_eq!(rt; first_record(rt.alloc(), TWO_AND_NO_TEXT), Some((23, 23)));
    assert_eq!(rt; expect_second_stop(&rt, 23, &TWO_AND_NO_TEXT[23..])?, 1);
    Ok(())
}
