//! Logs that are written.

use crate::support::{BROKEN, READS, SUBSCRIBED};
use mes_frame::{Limit, MemorySink, MemorySource, MemoryStop, WriteFault, WriteFaultKind};
use mes_msg::{EncodeFaultKind, Entry, SendFault};
use mes_session_log::{encode_entry, encode_log, read_log, write_log};
use std::alloc::Global;
use std::process::Abort;
use std::test::Fail;

/// Returns the bytes as text, so that a failed comparison prints text.
fn as_text(bytes: &[u8]) -> Option<&str> {
    str::from_utf8(bytes).ok()
}

/// Reads the entries of a valid log.
fn entries_of(alloc: Global, log: &[u8]) -> Result<Vec<Entry>, Fail> {
    let mut entries = Vec::new(alloc);
    match read_log(
        alloc,
        &mut MemorySource::new(log, 512),
        Limit::USUAL,
        READS,
        &mut entries,
    ) {
        Ok(_) => Ok(entries),
        Err(_) => Err("a good log")?,
    }
}

/// Returns a limit of `bytes` bytes.
fn limit_of(bytes: u32) -> Result<Limit, Fail> {
    match Limit::new(bytes) {
        Some(limit) => Ok(limit),
        None => Err("a limit")?,
    }
}

/// Writes the entries of a log under a limit, and expects the given bytes.
fn expect_written<A: Abort>(
    rt: &A,
    alloc: Global,
    log: &[u8],
    limit: u32,
    written: &[u8],
) -> Result<(), Fail> {
    let entries = entries_of(alloc, log)?;
    let mut sink = MemorySink::new(alloc, 512);
    assert_eq!(rt;
        write_log(alloc, &mut sink, entries.as_slice(), limit_of(limit)?),
        Ok(())
    );
    assert_eq!(rt; as_text(sink.bytes()), as_text(written));
    let records = records_of(alloc, entries.as_slice(), limit_of(limit)?)?;
    assert_eq!(rt; as_text(records.as_slice()), as_text(written));
    Ok(())
}

/// Returns the header of a log and the records of the entries, encoded one by one.
fn records_of(alloc: Global, entries: &[Entry], limit: Limit) -> Result<Vec<u8>, Fail> {
    let Ok(mut records) = encode_log(alloc, &[], limit) else {
        return Err("a header")?;
    };
    for entry in entries {
        match encode_entry(alloc, entry, limit) {
            Ok(record) => records.extend_from_slice(record.as_slice())?,
            Err(_) => return Err("a record")?,
        }
    }
    Ok(records)
}

/// Writes the entries of a log under a limit, and expects that the entry at the given index is too
/// large.
fn expect_too_large<A: Abort>(
    rt: &A,
    alloc: Global,
    log: &[u8],
    limit: u32,
    index: usize,
) -> Result<(), Fail> {
    let entries = entries_of(alloc, log)?;
    let mut sink = MemorySink::new(alloc, 512);
    let answer = write_log(alloc, &mut sink, entries.as_slice(), limit_of(limit)?);
    let why = EncodeFaultKind::TooLarge;
    assert_eq!(rt; answer, Err(SendFault::Encode { index, why }));
    assert!(rt; sink.bytes().is_empty());
    Ok(())
}

/// A disconnect and the call REVIVE, whose letter and text have 48 bytes.
const BREAK_AND_REVIVE: &[u8] =
    b"1\n21\nB48\nC{\"type\":\"REVIVE\",\"framework_id\":{\"value\":\"F1\"}}";

/// HEARTBEAT, whose letter and text have 21 bytes.
const HEARTBEAT: &[u8] = b"1\n221\nE{\"type\":\"HEARTBEAT\"}";

/// A log, a limit, and the log that is written for its entries under that limit.
const WRITTEN: &[(&[u8], u32, &[u8])] = &[
    // Without entries only the header is written.
    (b"", 1, b"1\n2"),
    (b"1\n2", 1, b"1\n2"),
    // Header and disconnects fit the least limit.
    (b"1\n21\nB1\nB", 1, b"1\n21\nB1\nB"),
    // Letter and text exactly at the limit.
    (HEARTBEAT, 21, HEARTBEAT),
    (BREAK_AND_REVIVE, 48, BREAK_AND_REVIVE),
    (BROKEN, 67, BROKEN),
];

/// A log, a limit, and the index of the first entry that is too large for the limit.
const TOO_LARGE: &[(&[u8], u32, usize)] = &[
    (HEARTBEAT, 1, 0),
    (HEARTBEAT, 20, 0),
    (BROKEN, 66, 0),
    (BREAK_AND_REVIVE, 1, 1),
    (BREAK_AND_REVIVE, 47, 1),
];

#[test]
fn entries_that_fit_are_written(rt: HostRuntime) -> Result<(), Fail> {
    for (log, limit, written) in WRITTEN {
        expect_written(&rt, rt.alloc(), log, *limit, written)?;
    }
    Ok(())
}

#[test]
fn an_entry_above_the_limit_is_refused(rt: HostRuntime) -> Result<(), Fail> {
    for (log, limit, index) in TOO_LARGE {
        expect_too_large(&rt, rt.alloc(), log, *limit, *index)?;
    }
    Ok(())
}

#[test]
fn a_log_is_written_in_version_2(rt: HostRuntime) -> Result<(), Fail> {
    let mut expected = Vec::new(rt.alloc());
    expected.extend_from_slice(b"1\n2")?;
    expected.extend_from_slice(SUBSCRIBED)?;
    expect_written(&rt, rt.alloc(), SUBSCRIBED, 67, expected.as_slice())
}

/// Expects the fault of a writer that stops after the given bytes of the log.
fn expect_stop<A: Abort>(
    rt: &A,
    alloc: Global,
    written: &[u8],
    stop: MemoryStop,
    why: WriteFaultKind,
) -> Result<(), Fail> {
    let entries = entries_of(alloc, BROKEN)?;
    let mut sink = MemorySink::stopping_after(alloc, 7, written.len(), stop);
    let answer = write_log(alloc, &mut sink, entries.as_slice(), Limit::USUAL);
    let sent = written.len() as u64;
    assert_eq!(rt; answer, Err(SendFault::Write(WriteFault { sent, why })));
    assert_eq!(rt; as_text(sink.bytes()), as_text(written));
    Ok(())
}

#[test]
fn a_writer_that_stops_has_the_bytes_before(rt: HostRuntime) -> Result<(), Fail> {
    for count in 0..BROKEN.len() {
        let front = &BROKEN[..count];
        expect_stop(
            &rt,
            rt.alloc(),
            front,
            MemoryStop::Fails,
            WriteFaultKind::Device,
        )?;
        expect_stop(
            &rt,
            rt.alloc(),
            front,
            MemoryStop::TakesNone,
            WriteFaultKind::Zero,
        )?;
    }
    Ok(())
}

/// The number of bytes that a writer accepts per call, and the number of calls that the log of 127
/// bytes needs.
const CALLS: &[(usize, u64)] = &[(512, 1), (127, 1), (126, 2), (64, 2), (1, 127)];

/// Each call passes all remaining bytes to the writer. No contract states this; a contract only
/// bounds the number of calls by the number of bytes of the log.
#[test]
fn writes_are_as_few_as_the_writer_allows(rt: HostRuntime) -> Result<(), Fail> {
    let entries = entries_of(rt.alloc(), BROKEN)?;
    for (most, calls) in CALLS {
        let mut sink = MemorySink::new(rt.alloc(), *most);
        assert_eq!(rt;
            write_log(rt.alloc(), &mut sink, entries.as_slice(), Limit::USUAL),
            Ok(())
        );
        assert_eq!(rt; as_text(sink.bytes()), as_text(BROKEN));
        assert_eq!(rt; sink.counts().calls, *calls);
    }
    Ok(())
}
