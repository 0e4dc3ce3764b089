//! Logs that are read: the result of each, and the place of its fault.

use crate::support::{BROKEN, CALLED, SUBSCRIBED, reported_text};
use std::alloc::Global;
use std::process::Abort;
use std::test::Fail;

/// A log and its printed result.
type Row = (&'static [u8], &'static str);

fn expect<A: Abort>(rt: &A, alloc: Global, rows: &[Row]) -> Result<(), Fail> {
    for (log, words) in rows {
        let reported = reported_text(alloc, log)?;
        assert_eq!(rt; reported.as_str(), *words);
    }
    Ok(())
}

/// Whole logs of both versions.
const WHOLE: &[Row] = &[
    (b"", " ok 0"),
    (SUBSCRIBED, "E ok 70"),
    (CALLED, "EC ok 121"),
    (BROKEN, "EBC ok 127"),
    (
        b"48\nC{\"type\":\"REVIVE\",\"framework_id\":{\"value\":\"F1\"}}",
        "C ok 51",
    ),
    (b"1\n2", " ok 3"),
    (b"0001\n2", " ok 6"),
    (b"1\n21\nB", "B ok 6"),
    (b"1\n2001\nB1\nB", "BB ok 11"),
];

/// Records that are not entries, in either version.
const BAD_ENTRIES: &[Row] = &[
    (b"1\nX", " fault F16 BadEntry record 1 after 3"),
    (b"0\n", " fault F16 BadEntry record 1 after 2"),
    (b"2\n2x", " fault F16 BadEntry record 1 after 4"),
    (b"1\nB", " fault F16 BadEntry record 1 after 3"),
    (b"1\ne", " fault F16 BadEntry record 1 after 3"),
    (b"1\n21\n2", " fault F16 BadEntry record 2 after 6"),
    (b"1\n20\n", " fault F16 BadEntry record 2 after 5"),
    (b"1\n22\nBx", " fault F16 BadEntry record 2 after 7"),
    (b"1\n23\nB{}", " fault F16 BadEntry record 2 after 8"),
    (b"1\n21\nX", " fault F16 BadEntry record 2 after 6"),
    (b"1\n21\nB1\n2", "B fault F16 BadEntry record 3 after 9"),
];

/// Faulty texts: the place of the fault is counted from the byte after the letter.
const BAD_TEXTS: &[Row] = &[
    (b"1\nE", " fault F11 Text record 1 byte 0 End after 3"),
    (b"1\nC", " fault F11 Text record 1 byte 0 End after 3"),
    (b"2\nE{", " fault F11 Text record 1 byte 1 End after 4"),
    (b"4\nC{]}", " fault F11 Text record 1 byte 1 Byte after 6"),
    (b"1\n22\nE{", " fault F11 Text record 2 byte 1 End after 7"),
    (b"3\nC{}", " fault F12 Field record 1 type Missing after 5"),
    (b"3\nE[]", " fault F12 Field record 1 . WrongKind after 5"),
    (
        b"1\n23\nE{}",
        " fault F12 Field record 2 type Missing after 8",
    ),
    (
        b"21\nC{\"type\":\"HEARTBEAT\"}",
        " fault F12 Field record 1 type LeftOut after 24",
    ),
];

/// Faulty framing, and logs that end inside a record.
const BAD_RECORDS: &[Row] = &[
    (b"x", " fault F7 BadSizeLine after 1"),
    (b"1\n2x", " fault F7 BadSizeLine after 4"),
    (b"4194305\n", " fault F9 RecordTooLarge after 8"),
    (b"1\n24194305\n", " fault F9 RecordTooLarge after 11"),
    (b"1", " fault F10 EndsInsideRecord after 1"),
    (b"1\n", " fault F10 EndsInsideRecord after 2"),
    (b"1\n21", " fault F10 EndsInsideRecord after 4"),
    (b"1\n21\nB2\nE", "B fault F10 EndsInsideRecord after 9"),
];

#[test]
fn whole_logs_are_read(rt: HostRuntime) -> Result<(), Fail> {
    expect(&rt, rt.alloc(), WHOLE)
}

#[test]
fn a_bad_entry_is_a_fault(rt: HostRuntime) -> Result<(), Fail> {
    expect(&rt, rt.alloc(), BAD_ENTRIES)
}

#[test]
fn a_bad_text_is_a_fault_at_its_byte(rt: HostRuntime) -> Result<(), Fail> {
    expect(&rt, rt.alloc(), BAD_TEXTS)
}

#[test]
fn bad_framing_is_a_fault_at_its_byte(rt: HostRuntime) -> Result<(), Fail> {
    expect(&rt, rt.alloc(), BAD_RECORDS)
}

/// A log of version 1 has no disconnects, and no header after an entry.
#[test]
fn a_log_of_version_1_has_no_break_and_no_later_header(rt: HostRuntime) -> Result<(), Fail> {
    for (more, words) in [
        (b"1\nB", "E fault F16 BadEntry record 2 after 73"),
        (b"1\n2", "E fault F16 BadEntry record 2 after 73"),
    ] {
        let mut log = Vec::new(rt.alloc());
        log.extend_from_slice(SUBSCRIBED)?;
        log.extend_from_slice(more)?;
        let reported = reported_text(rt.alloc(), log.as_slice())?;
        assert_eq!(rt; reported.as_str(), words);
    }
    Ok(())
}
