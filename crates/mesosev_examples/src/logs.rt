//! Example rows that read a session log, and then replay it or write it again.

use crate::bytes::{Bytes, bytes_of};
use crate::messages::{call_text, event_text};
use crate::outcome::{Reported, refusal_after};
use crate::parsing::look_at;
use crate::words::Words;
use crate::writing::report_sent;
use mes_frame::{FromStd, MemorySource};
use mes_msg::{Entry, Limit};
use mes_session::{Session, read_log, replay, write_log};
use mes_stream::{MAX_READ, Report, Stop};
use std::alloc::Global;

// The maximum number of reads of a session log.
const READS: u64 = 1_000;

/// Reads the session log in an example row, and prints the log's entries and length. Then replays
/// the log and prints the final session, or writes the log and prints the bytes.
pub(crate) fn answer(alloc: Global, row: &str, words: &mut Words) -> Result<(), Reported> {
    let (what, text) = row.split_once(' ').unwrap_or((row, ""));
    let mut entries = Vec::new(alloc);
    read(alloc, text, &mut entries, words)?;
    report_log(alloc, what, entries.as_slice(), words)
}

// Reads and prints the entries of a log. After an error prints the entries that precede it, and the
// error.
fn read(
    alloc: Global,
    text: &str,
    entries: &mut Vec<Entry>,
    words: &mut Words,
) -> Result<(), Reported> {
    let bytes = bytes_of(text)?;
    let report = read_once(alloc, bytes.as_slice(), entries);
    let reported = report_entries(alloc, entries.as_slice(), words);
    let was_refused = words.say_answer(reported);
    let next = report_end(entries.len() as u64, report, words);
    words.continue_after(was_refused, next)
}

fn read_once(alloc: Global, bytes: &[u8], entries: &mut Vec<Entry>) -> Result<Report, Stop> {
    let mut source = MemorySource::new(bytes, MAX_READ);
    read_log(alloc, &mut source, Limit::USUAL, READS, entries)
}

// Prints the letter of each entry and the entry's canonical text.
fn report_entries(alloc: Global, entries: &[Entry], words: &mut Words) -> Result<(), Reported> {
    for entry in entries {
        report_entry(alloc, entry, words)?;
    }
    Ok(())
}

fn report_entry(alloc: Global, entry: &Entry, words: &mut Words) -> Result<(), Reported> {
    match entry {
        Entry::Heard(event) => say_entry("E", event_text(alloc, event)?.as_slice(), words),
        Entry::Said(call) => say_entry("C", call_text(alloc, call)?.as_slice(), words),
        Entry::Broken => words.say("B"),
    }
    Ok(())
}

fn say_entry(letter: &str, text: &[u8], words: &mut Words) {
    words.say(letter);
    words.add_bytes(text);
}

fn report_end(count: u64, report: Result<Report, Stop>, words: &mut Words) -> Result<(), Reported> {
    say_report(count, &report?, words);
    Ok(())
}

// Prints the number of entries, the length of the log in bytes, and the bytes that were read after
// its end.
fn say_report(count: u64, report: &Report, words: &mut Words) {
    words.say_number("entries", count);
    words.add(" bytes ");
    words.add_number(report.used);
    if !report.rest.is_empty() {
        words.say("after it ");
        words.add_bytes(report.rest.as_slice());
    }
}

fn report_log(
    alloc: Global,
    what: &str,
    entries: &[Entry],
    words: &mut Words,
) -> Result<(), Reported> {
    match what {
        "replay" => report_session(alloc, entries, words),
        _ => report_written(alloc, entries, words),
    }
}

fn report_session(alloc: Global, entries: &[Entry], words: &mut Words) -> Result<(), Reported> {
    look_at(session_of(alloc, entries)?, |session| {
        say_session(session, entries.len() as u64, words)
    })
}

fn say_session(session: &Session, count: u64, words: &mut Words) -> Result<(), Reported> {
    let report = session.report(count)?;
    words.say_bytes(report.as_slice());
    Ok(())
}

fn session_of(alloc: Global, entries: &[Entry]) -> Result<Session, Reported> {
    match replay(alloc, entries) {
        Ok(session) => Ok(session),
        Err((before, refusal)) => Err(refusal_after(&refusal, before as u64)),
    }
}

// Writes the log and prints the bytes. If an allocation fails, no byte may have been written.
fn report_written(alloc: Global, entries: &[Entry], words: &mut Words) -> Result<(), Reported> {
    let mut written = Bytes::new();
    let mut sink = FromStd::new(&mut written);
    let answer = write_log(alloc, &mut sink, entries, Limit::USUAL);
    report_sent(answer, &written, words)
}
