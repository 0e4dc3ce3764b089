//! Tests of `check`, `show` and `convert` over devices in memory.

use mes_frame::{Limit, MemorySink, MemorySource, MemoryStop};
use mes_msg::Event;
use mes_stream::Framing;
use mesosev_stream::{
    Detail, ExitStatus, MAX_READS, OutputFormat, RunOutcome, convert, finish, follow,
};
use std::alloc::{AllocGlobal, Global};
use std::process::Abort;
use std::test::Fail;

// A record with 20 bytes of data: 23 bytes with the size line.
const HEARTBEAT: &str = "20\n{\"type\":\"HEARTBEAT\"}";

/// Returns `count` times the record.
fn heartbeats(alloc: Global, count: usize) -> Result<Vec<u8>, Fail> {
    Ok(HEARTBEAT.as_bytes().repeat(alloc, count)?)
}

/// Returns the bytes as text, so that a failed test prints the text.
fn as_text(bytes: &[u8]) -> Option<&str> {
    str::from_utf8(bytes).ok()
}

/// The output of `show` for one record.
const LINES: &str = "1 HEARTBEAT\nevents 1 bytes 23\n";

// The output of `check` for one record.
const COUNTS: &str = "events 1 bytes 23\n";

// The largest write in bytes.
const WRITE_SIZE: usize = 5;

// Reads plain RecordIO under the default limit.
fn followed(
    alloc: Global,
    detail: Detail,
    source: &mut MemorySource<'_>,
    out: &mut MemorySink,
) -> RunOutcome {
    follow::<Event, _, _>(
        alloc,
        detail,
        Framing::Plain,
        Limit::USUAL,
        MAX_READS,
        source,
        out,
    )
}

fn expect_printed<R: Abort + AllocGlobal>(
    rt: &R,
    detail: Detail,
    source: &mut MemorySource<'_>,
    out: &mut MemorySink,
    lines: &[u8],
    ended: RunOutcome,
) {
    let reported = followed(rt.alloc(), detail, source, out);
    assert_eq!(rt; (as_text(out.bytes()), reported), (as_text(lines), ended));
}

// Like `expect_printed`, with a writer that does not fail.
fn expect_status<R: Abort + AllocGlobal>(
    rt: &R,
    detail: Detail,
    source: &mut MemorySource<'_>,
    lines: &str,
    status: ExitStatus,
) {
    let mut out = MemorySink::new(rt.alloc(), WRITE_SIZE);
    let ended = RunOutcome::Status(status);
    expect_printed(rt, detail, source, &mut out, lines.as_bytes(), ended);
}

// Expects `lines` for one record; `size` is the largest read in bytes.
fn expect_lines<R: Abort + AllocGlobal>(rt: &R, detail: Detail, lines: &str, size: usize) {
    let mut source = MemorySource::new(HEARTBEAT.as_bytes(), size);
    expect_status(rt, detail, &mut source, lines, ExitStatus::Success);
}

#[test]
fn records_are_read_by_pieces(rt: HostRuntime) {
    for size in [1, 7, 4096] {
        expect_lines(&rt, Detail::Lines, LINES, size);
        expect_lines(&rt, Detail::Counts, COUNTS, size);
    }
}

// Expects `lines` if the reader fails after `taken` bytes of the record.
fn expect_failed_read<R: Abort + AllocGlobal>(rt: &R, detail: Detail, taken: usize, lines: &str) {
    let mut source = MemorySource::failing_after(HEARTBEAT.as_bytes(), 1, taken);
    expect_status(rt, detail, &mut source, lines, ExitStatus::Fault);
}

// The reader fails after each prefix of the record, and after the whole record.
#[test]
fn a_reader_that_fails_is_reported(rt: HostRuntime) -> Result<(), Fail> {
    for taken in 0..=HEARTBEAT.len() {
        let line = format!(in rt.alloc(); "fault F14 Read after {taken}\n")?;
        expect_failed_read(&rt, Detail::Counts, taken, line.as_str());
    }
    let lines = "1 HEARTBEAT\nfault F14 Read after 23\n";
    expect_failed_read(&rt, Detail::Lines, 23, lines);
    Ok(())
}

// The writer stops after `front`, and must have received exactly `front`.
fn expect_cut<R: Abort + AllocGlobal>(rt: &R, detail: Detail, front: &[u8], stop: MemoryStop) {
    let good = front.len();
    let mut source = MemorySource::new(HEARTBEAT.as_bytes(), 7);
    let mut out = MemorySink::stopping_after(rt.alloc(), WRITE_SIZE, good, stop);
    let ended = RunOutcome::OutputFailed(good as u64);
    expect_printed(rt, detail, &mut source, &mut out, front, ended);
}

// The writer fails, or accepts no more, after each prefix of the lines.
fn expect_cuts<R: Abort + AllocGlobal>(rt: &R, detail: Detail, lines: &[u8]) {
    for good in 0..lines.len() {
        let (front, _) = lines.split_at(good);
        expect_cut(rt, detail, front, MemoryStop::Fails);
        expect_cut(rt, detail, front, MemoryStop::TakesNone);
    }
}

#[test]
fn lines_are_cut_where_the_writer_stops(rt: HostRuntime) {
    expect_cuts(&rt, Detail::Lines, LINES.as_bytes());
    expect_cuts(&rt, Detail::Counts, COUNTS.as_bytes());
}

fn followed_by(
    alloc: Global,
    max_reads: u32,
    source: &mut MemorySource<'_>,
    out: &mut MemorySink,
) -> RunOutcome {
    follow::<Event, _, _>(
        alloc,
        Detail::Lines,
        Framing::Plain,
        Limit::USUAL,
        max_reads as u64,
        source,
        out,
    )
}

// Expects `lines` after exactly `max_reads` reads.
fn expect_spent_by<R: Abort + AllocGlobal>(
    rt: &R,
    max_reads: u32,
    out: &mut MemorySink,
    lines: &str,
) {
    let mut source = MemorySource::new(HEARTBEAT.as_bytes(), 1);
    let ended = followed_by(rt.alloc(), max_reads, &mut source, out);
    assert_eq!(rt;
        (as_text(out.bytes()), ended),
        (Some(lines), RunOutcome::Status(ExitStatus::Fault))
    );
    assert_eq!(rt; source.counts().calls, max_reads as u64);
}

fn expect_spent<R: Abort + AllocGlobal>(rt: &R, max_reads: u32, lines: &str) {
    let mut out = MemorySink::new(rt.alloc(), WRITE_SIZE);
    expect_spent_by(rt, max_reads, &mut out, lines);
}

// All allowed reads were made, and one more was needed; the events of those reads are printed.
#[test]
fn spent_reads_are_reported(rt: HostRuntime) -> Result<(), Fail> {
    for max_reads in 0..24 {
        let shown = if max_reads == 23 { "1 HEARTBEAT\n" } else { "" };
        let lines = format!(in rt.alloc(); "{shown}fault F15 ReadsSpent after {max_reads}\n")?;
        expect_spent(&rt, max_reads, lines.as_str());
    }
    Ok(())
}

// The outcome of a run, the number of reads, and the number of writes.
type Calls = (RunOutcome, u64, u64);

// The reader fills each read.
fn calls_of(alloc: Global, detail: Detail, bytes: &[u8], mut out: MemorySink) -> Calls {
    let mut source = MemorySource::new(bytes, usize::MAX);
    let ended = followed(alloc, detail, &mut source, &mut out);
    (ended, source.counts().calls, out.counts().calls)
}

fn reads_of_check(alloc: Global, bytes: &[u8]) -> (RunOutcome, u64) {
    let out = MemorySink::new(alloc, usize::MAX);
    let (ended, reads, _) = calls_of(alloc, Detail::Counts, bytes, out);
    (ended, reads)
}

// One read is made for each 512 bytes, and one more for the end.
#[test]
fn a_stream_is_followed_by_few_reads(rt: HostRuntime) -> Result<(), Fail> {
    for records in 0..100 {
        let bytes = heartbeats(rt.alloc(), records)?;
        let reads = bytes.len().div_ceil(512) as u64 + 1;
        let reported = reads_of_check(rt.alloc(), bytes.as_slice());
        assert_eq!(rt; reported, (RunOutcome::Status(ExitStatus::Success), reads));
    }
    Ok(())
}

// The writer fails after three bytes. Returns the outcome and the number of reads.
fn reads_before_failure(alloc: Global, bytes: &[u8]) -> (RunOutcome, u64) {
    let out = MemorySink::stopping_after(alloc, WRITE_SIZE, 3, MemoryStop::Fails);
    let (ended, reads, _) = calls_of(alloc, Detail::Lines, bytes, out);
    (ended, reads)
}

// If the lines of a read cannot be written, no further read is made.
#[test]
fn nothing_is_read_after_a_failed_output(rt: HostRuntime) -> Result<(), Fail> {
    let bytes = heartbeats(rt.alloc(), 100)?;
    let reported = reads_before_failure(rt.alloc(), bytes.as_slice());
    drop(bytes);
    assert_eq!(rt; reported, (RunOutcome::OutputFailed(3), 1));
    Ok(())
}

// Returns the number of writes of a writer that accepts whole buffers.
fn writes_of_show(alloc: Global, records: usize) -> Result<u64, Fail> {
    let bytes = heartbeats(alloc, records)?;
    let out = MemorySink::new(alloc, usize::MAX);
    let (_, _, writes) = calls_of(alloc, Detail::Lines, bytes.as_slice(), out);
    Ok(writes)
}

// The lines of one read are written by one call: 22 records end in the first 512 bytes. The last
// line is written by a call of its own.
#[test]
fn lines_are_written_by_few_calls(rt: HostRuntime) -> Result<(), Fail> {
    for &(records, writes) in &[(0, 1), (1, 2), (22, 2), (23, 3), (45, 4)] {
        assert_eq!(rt; writes_of_show(rt.alloc(), records)?, writes);
    }
    Ok(())
}

// The output failed after 7 bytes; `line` must be on standard error.
fn expect_reported_by<R: Abort>(rt: &R, closed: bool, err: &mut MemorySink, line: &str) {
    let status = finish(RunOutcome::OutputFailed(7), closed, err);
    assert_eq!(rt;
        (as_text(err.bytes()), status),
        (Some(line), ExitStatus::Fault)
    );
}

fn expect_reported<R: Abort + AllocGlobal>(rt: &R, closed: bool, line: &str) {
    let mut err = MemorySink::new(rt.alloc(), WRITE_SIZE);
    expect_reported_by(rt, closed, &mut err, line);
}

#[test]
fn an_output_that_failed_is_reported(rt: HostRuntime) {
    expect_reported(&rt, false, "write failed after 7\n");
    expect_reported(&rt, true, "");
}

// Converts into plain RecordIO, and returns the status.
fn converted(alloc: Global, out: &mut MemorySink, err: &mut MemorySink) -> ExitStatus {
    let mut source = MemorySource::new(HEARTBEAT.as_bytes(), 7);
    convert::<Event, _, _, _>(
        alloc,
        Framing::Plain,
        Limit::USUAL,
        OutputFormat::Plain,
        &mut source,
        out,
        err,
    )
}

fn expect_stopped_by<R: Abort + AllocGlobal>(
    rt: &R,
    out: &mut MemorySink,
    err: &mut MemorySink,
    front: &[u8],
    line: &str,
) {
    let status = converted(rt.alloc(), out, err);
    assert_eq!(rt;
        (as_text(out.bytes()), status),
        (as_text(front), ExitStatus::Fault)
    );
    assert_eq!(rt; as_text(err.bytes()), Some(line));
}

// Expects `line` on standard error if the writer stops after `front`.
fn expect_stopped<R: Abort + AllocGlobal>(rt: &R, front: &[u8], stop: MemoryStop, line: &str) {
    let mut out = MemorySink::stopping_after(rt.alloc(), WRITE_SIZE, front.len(), stop);
    let mut err = MemorySink::new(rt.alloc(), WRITE_SIZE);
    expect_stopped_by(rt, &mut out, &mut err, front, line);
}

// The writer fails, or accepts no more, after each prefix of the record.
fn expect_stops<R: Abort + AllocGlobal>(rt: &R, record: &[u8]) -> Result<(), Fail> {
    for good in 0..record.len() {
        let (front, _) = record.split_at(good);
        let line = format!(in rt.alloc(); "write failed after {good}\n")?;
        expect_stopped(rt, front, MemoryStop::Fails, line.as_str());
        expect_stopped(rt, front, MemoryStop::TakesNone, line.as_str());
    }
    Ok(())
}

#[test]
fn a_writer_that_stops_is_reported(rt: HostRuntime) -> Result<(), Fail> {
    expect_stops(&rt, HEARTBEAT.as_bytes())
}
