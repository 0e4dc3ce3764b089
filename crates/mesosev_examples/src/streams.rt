//! Example rows that read plain RecordIO or a chunked body from a device.

use crate::bytes::bytes_of;
use crate::messages::say_event;
use crate::outcome::Reported;
use crate::words::Words;
use arrayvec::ArrayString;
use mes_frame::{DEFAULT_RECORD_LIMIT, MAX_CHUNK_LINE, MAX_TRAILERS, MemorySource};
use mes_msg::{Event, Limit};
use mes_stream::{
    Framing, MAX_COUNT_LINE, MAX_READ, Report, Stop, count_line, read_messages, read_plain,
    read_stream,
};
use std::alloc::Global;

// How a stream is read: the framing, the record limit in bytes, and the maximum number of reads.
#[derive(Clone, Copy)]
struct Reading {
    framing: Framing,
    limit: u32,
    max_reads: u64,
}

// The defaults for plain RecordIO.
const PLAIN: Reading = Reading {
    framing: Framing::Plain,
    limit: DEFAULT_RECORD_LIMIT,
    max_reads: 1_000,
};

// The defaults for a chunked body.
const CHUNKED: Reading = Reading {
    framing: Framing::Chunked,
    limit: DEFAULT_RECORD_LIMIT,
    max_reads: 1_000,
};

/// Reads the bytes in an example row, in the way that the row's first word names.
pub(crate) fn answer(alloc: Global, row: &str, words: &mut Words) -> Result<(), Reported> {
    let (how, text) = row.split_once(' ').unwrap_or((row, ""));
    let bytes = bytes_of(text)?;
    match how {
        "plain" => read(alloc, PLAIN, bytes.as_slice(), words),
        "chunked" => read(alloc, CHUNKED, bytes.as_slice(), words),
        "limit-20" => read(alloc, limited(20), bytes.as_slice(), words),
        "limit-19" => read(alloc, limited(19), bytes.as_slice(), words),
        "reads-0" => read(alloc, by_reads(0), bytes.as_slice(), words),
        "reads-1" => read(alloc, by_reads(1), bytes.as_slice(), words),
        "long-line" => read_long_line(alloc, words),
        _ => read_long_trailers(alloc, words),
    }
}

fn limited(limit: u32) -> Reading {
    Reading { limit, ..PLAIN }
}

fn by_reads(max_reads: u64) -> Reading {
    Reading {
        max_reads,
        ..CHUNKED
    }
}

// Prints the events, the summary line, and the bytes that were read after the end. After an error
// the events that precede it are printed.
fn read(alloc: Global, reading: Reading, bytes: &[u8], words: &mut Words) -> Result<(), Reported> {
    let mut events = Vec::new(alloc);
    let report = read_once(alloc, reading, bytes, &mut events);
    report_read(alloc, events.as_slice(), report, words)
}

// The outcome is printed even if the text of an event could not be allocated.
fn report_read(
    alloc: Global,
    events: &[Event],
    report: Result<Report, Stop>,
    words: &mut Words,
) -> Result<(), Reported> {
    let reported = report_events(alloc, events, words);
    let was_refused = words.say_answer(reported);
    let next = report_end(events.len() as u64, report, words);
    words.continue_after(was_refused, next)
}

fn report_end(count: u64, report: Result<Report, Stop>, words: &mut Words) -> Result<(), Reported> {
    report_report(count, &report?, words);
    Ok(())
}

fn read_once(
    alloc: Global,
    reading: Reading,
    bytes: &[u8],
    events: &mut Vec<Event>,
) -> Result<Report, Stop> {
    let mut source = MemorySource::new(bytes, MAX_READ);
    let limit = Limit::new(reading.limit).unwrap_or(Limit::USUAL);
    match reading.framing {
        Framing::Plain => read_plain(alloc, &mut source, limit, reading.max_reads, events),
        Framing::Chunked => read_stream(alloc, &mut source, limit, reading.max_reads, events),
        Framing::Lines => {
            read_messages(
                alloc,
                &mut source,
                reading.framing,
                limit,
                reading.max_reads,
                events,
            )
        }
    }
}

/// Prints the canonical texts of events.
pub(crate) fn report_events(
    alloc: Global,
    events: &[Event],
    words: &mut Words,
) -> Result<(), Reported> {
    for event in events {
        say_event(alloc, event, words)?;
    }
    Ok(())
}

fn report_report(count: u64, report: &Report, words: &mut Words) {
    let mut line = ArrayString::<MAX_COUNT_LINE>::new();
    count_line(count, report.used, &mut line);
    words.say(line.as_str());
    if !report.rest.is_empty() {
        words.say("after it ");
        words.add_bytes(report.rest.as_slice());
    }
}

// Reads a chunk line that is one byte longer than the maximum.
fn read_long_line(alloc: Global, words: &mut Words) -> Result<(), Reported> {
    let mut line = [b'a'; MAX_CHUNK_LINE as usize + 1];
    line[..2].copy_from_slice(b"1;");
    read(alloc, CHUNKED, &line, words)
}

// Reads trailers, after the last chunk, that are one byte longer than the maximum.
fn read_long_trailers(alloc: Global, words: &mut Words) -> Result<(), Reported> {
    let mut body = [b'a'; MAX_TRAILERS as usize + 4];
    body[..3].copy_from_slice(b"0\r\n");
    read(alloc, CHUNKED, &body, words)
}
