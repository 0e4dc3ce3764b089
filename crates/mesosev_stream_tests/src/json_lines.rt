//! Tests of `show --json` and `convert --json` over devices in memory.

use mes_frame::{Limit, MemorySink, MemorySource, MemoryStop};
use mes_msg::Event;
use mes_stream::Framing;
use mesosev_stream::{ExitStatus, MAX_READS, OutputFormat, RunOutcome, convert, export};
use std::alloc::{AllocGlobal, Global};
use std::process::Abort;
use std::test::Fail;

// Two events, the first with a member that is dropped: 61 bytes.
const STREAM: &str = "26\n{\"type\":\"HEARTBEAT\",\"x\":1}29\n{\"type\":\"OFFERS\",\"offers\":[]}";

const LINES: &str = "{\"type\":\"HEARTBEAT\"}\n{\"type\":\"OFFERS\",\"offers\":{}}\n";

// An event whose canonical text has 100 bytes: 15.0 for 15.
const SUBSCRIBED: &str =
    "98\n{\"type\":\"SUBSCRIBED\",\"subscribed\":{\"framework_id\":{\"value\":\"F1\"},\"heartbeat_interval_seconds\":15}}";

// The largest write in bytes.
const WRITE_SIZE: usize = 5;

/// Returns the bytes as text, so that a failed test prints the text.
fn as_text(bytes: &[u8]) -> Option<&str> {
    str::from_utf8(bytes).ok()
}

// Exports plain RecordIO.
fn exported(
    alloc: Global,
    text: &str,
    limit: Limit,
    size: usize,
    out: &mut MemorySink,
    err: &mut MemorySink,
) -> RunOutcome {
    let mut source = MemorySource::new(text.as_bytes(), size);
    export::<Event, _, _, _>(
        alloc,
        Framing::Plain,
        limit,
        MAX_READS,
        &mut source,
        out,
        err,
    )
}

// Expects these lines on the outputs, whichever bytes one read returns.
fn expect_lines<R: Abort + AllocGlobal>(
    rt: &R,
    text: &str,
    limit: Limit,
    lines: &str,
    line: &str,
    status: ExitStatus,
) {
    for size in [1, 7, 4096] {
        let mut out = MemorySink::new(rt.alloc(), WRITE_SIZE);
        let mut err = MemorySink::new(rt.alloc(), WRITE_SIZE);
        let ended = exported(rt.alloc(), text, limit, size, &mut out, &mut err);
        assert_eq!(rt;
            (as_text(out.bytes()), ended),
            (Some(lines), RunOutcome::Status(status))
        );
        assert_eq!(rt; as_text(err.bytes()), Some(line));
    }
}

#[test]
fn events_are_lines(rt: HostRuntime) {
    let line = "events 2 bytes 61\n";
    expect_lines(&rt, STREAM, Limit::USUAL, LINES, line, ExitStatus::Success);
    expect_lines(
        &rt,
        "",
        Limit::USUAL,
        "",
        "events 0 bytes 0\n",
        ExitStatus::Success,
    );
}

#[test]
fn an_event_without_a_line_ends_the_export(rt: HostRuntime) -> Result<(), Fail> {
    let text = format!(in rt.alloc(); "{STREAM}{SUBSCRIBED}{STREAM}")?;
    let limit = Limit::new(98).ok_or("no limit")?;
    let line = "encode failed event 3 TooLarge\n";
    expect_lines(&rt, text.as_str(), limit, LINES, line, ExitStatus::Fault);
    Ok(())
}

#[test]
fn the_events_before_a_fault_are_lines(rt: HostRuntime) -> Result<(), Fail> {
    let text = format!(in rt.alloc(); "{STREAM}x")?;
    let line = "fault F7 BadSizeLine after 62\n";
    expect_lines(
        &rt,
        text.as_str(),
        Limit::USUAL,
        LINES,
        line,
        ExitStatus::Fault,
    );
    Ok(())
}

// The writer fails, or accepts no more, after each prefix of the lines.
#[test]
fn an_output_that_fails_ends_the_export(rt: HostRuntime) {
    for good in 0..LINES.len() {
        for stop in [MemoryStop::Fails, MemoryStop::TakesNone] {
            let mut out = MemorySink::stopping_after(rt.alloc(), WRITE_SIZE, good, stop);
            let mut err = MemorySink::new(rt.alloc(), WRITE_SIZE);
            let ended = exported(rt.alloc(), STREAM, Limit::USUAL, 7, &mut out, &mut err);
            let (front, _) = LINES.as_bytes().split_at(good);
            assert_eq!(rt;
                (out.bytes(), ended),
                (front, RunOutcome::OutputFailed(good as u64))
            );
            assert_eq!(rt; as_text(err.bytes()), Some(""));
        }
    }
}

// The last line is ignored if it cannot be printed.
#[test]
fn an_error_output_that_fails_is_ignored(rt: HostRuntime) {
    let mut out = MemorySink::new(rt.alloc(), WRITE_SIZE);
    let mut err = MemorySink::stopping_after(rt.alloc(), WRITE_SIZE, 3, MemoryStop::Fails);
    let ended = exported(rt.alloc(), STREAM, Limit::USUAL, 7, &mut out, &mut err);
    assert_eq!(rt;
        (as_text(out.bytes()), ended),
        (Some(LINES), RunOutcome::Status(ExitStatus::Success))
    );
    assert_eq!(rt; as_text(err.bytes()), Some("eve"));
}

// Converts into JSON Lines, and returns the status.
fn converted(alloc: Global, text: &str, out: &mut MemorySink, err: &mut MemorySink) -> ExitStatus {
    let mut source = MemorySource::new(text.as_bytes(), 7);
    convert::<Event, _, _, _>(
        alloc,
        Framing::Plain,
        Limit::USUAL,
        OutputFormat::JsonLines,
        &mut source,
        out,
        err,
    )
}

#[test]
fn events_are_converted_into_lines(rt: HostRuntime) {
    let mut out = MemorySink::new(rt.alloc(), WRITE_SIZE);
    let mut err = MemorySink::new(rt.alloc(), WRITE_SIZE);
    let status = converted(rt.alloc(), STREAM, &mut out, &mut err);
    assert_eq!(rt;
        (as_text(out.bytes()), status),
        (Some(LINES), ExitStatus::Success)
    );
    assert_eq!(rt; as_text(err.bytes()), Some(""));
}

// The events before the fault are not written.
#[test]
fn a_stream_with_a_fault_is_not_converted(rt: HostRuntime) {
    let mut out = MemorySink::new(rt.alloc(), WRITE_SIZE);
    let mut err = MemorySink::new(rt.alloc(), WRITE_SIZE);
    let status = converted(
        rt.alloc(),
        "20\n{\"type\":\"HEARTBEAT\"}x",
        &mut out,
        &mut err,
    );
    assert_eq!(rt;
        (as_text(out.bytes()), status),
        (Some(""), ExitStatus::Fault)
    );
    assert_eq!(rt;
        as_text(err.bytes()),
        Some("fault F7 BadSizeLine after 24\n")
    );
}
