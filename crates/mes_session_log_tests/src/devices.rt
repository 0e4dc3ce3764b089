//! Logs that are read in pieces, end early or fail.

use crate::support::{
    BREAK, BROKEN, HEADER_TWICE, Log, READS, VERSION_1, VERSION_2, in_words, reported,
};
use mes_frame::{FromStd, Limit, MemorySource};
use mes_session_log::read_log;
use std::alloc::Global;
use std::io::Read;
use std::process::Abort;
use std::test::Fail;

/// Expects the result of each prefix of a log.
fn expect_fronts<A: Abort>(rt: &A, alloc: Global, log: &Log) -> Result<(), Fail> {
    for count in 0..log.bytes.len() + 1 {
        let text = reported(
            alloc,
            &mut MemorySource::new(&log.bytes[..count], 512),
            READS,
        )?;
        assert_eq!(rt; text.as_str(), log.front_in_words(alloc, count)?.as_str());
    }
    Ok(())
}

#[test]
fn each_front_of_a_log_breaks_off(rt: HostRuntime) -> Result<(), Fail> {
    for log in &[VERSION_1, VERSION_2, BREAK, HEADER_TWICE] {
        expect_fronts(&rt, rt.alloc(), log)?;
    }
    Ok(())
}

/// Expects the fault of a read that fails after `count` bytes, for each `count` up to the length.
fn expect_failing_reads<A: Abort>(rt: &A, alloc: Global, log: &Log) -> Result<(), Fail> {
    for count in 0..log.bytes.len() + 1 {
        let mut source = MemorySource::failing_after(log.bytes, 1, count);
        let text = reported(alloc, &mut source, READS)?;
        let entries = log.entries_in(count);
        let expected = format!(in alloc; "{entries} fault F14 Read after {count}")?;
        assert_eq!(rt; text.as_str(), expected.as_str());
    }
    Ok(())
}

#[test]
fn a_read_may_fail_after_each_byte(rt: HostRuntime) -> Result<(), Fail> {
    for log in &[VERSION_1, VERSION_2] {
        expect_failing_reads(&rt, rt.alloc(), log)?;
    }
    Ok(())
}

#[test]
fn reads_are_counted(rt: HostRuntime) -> Result<(), Fail> {
    for max_reads in 0..128 {
        let mut source = MemorySource::new(BROKEN, 1);
        let text = reported(rt.alloc(), &mut source, max_reads)?;
        let entries = VERSION_2.entries_in(max_reads as usize);
        let expected = format!(in rt.alloc(); "{entries} fault F15 ReadsSpent after {max_reads}")?;
        assert_eq!(rt; text.as_str(), expected.as_str());
    }
    let text = reported(rt.alloc(), &mut MemorySource::new(BROKEN, 1), 128)?;
    assert_eq!(rt; text.as_str(), "EBC ok 127");
    Ok(())
}

/// Expects the result of a log in two reads, wherever it is cut.
fn expect_cuts<A: Abort>(rt: &A, alloc: Global, log: &Log, words: &str) -> Result<(), Fail> {
    for cut in 0..log.bytes.len() + 1 {
        let mut source = FromStd::new((&log.bytes[..cut]).chain(&log.bytes[cut..]));
        let text = reported(alloc, &mut source, READS)?;
        assert_eq!(rt; text.as_str(), words);
    }
    Ok(())
}

#[test]
fn each_cut_into_two_reads_is_read_alike(rt: HostRuntime) -> Result<(), Fail> {
    expect_cuts(&rt, rt.alloc(), &VERSION_1, "EC ok 121")?;
    expect_cuts(&rt, rt.alloc(), &VERSION_2, "EBC ok 127")
}

/// Returns a log of version 2 with 512 bytes, the most that one read returns: the header and 169
/// disconnects. The size line of the last has two leading zeros.
fn log_of_one_read(alloc: Global) -> Result<Vec<u8>, Fail> {
    let mut log = Vec::new(alloc);
    log.extend_from_slice(b"1\n2")?;
    for _ in 0..168 {
        log.extend_from_slice(b"1\nB")?;
    }
    log.extend_from_slice(b"001\nB")?;
    Ok(log)
}

/// Reads the log of [`log_of_one_read`] from a source that returns up to 512 bytes per read, and
/// expects the result after `max_reads` reads.
fn expect_whole_reads<A: Abort>(
    rt: &A,
    alloc: Global,
    max_reads: u64,
    words: &str,
) -> Result<(), Fail> {
    let log = log_of_one_read(alloc)?;
    let mut source = MemorySource::new(log.as_slice(), 512);
    let mut entries = Vec::new(alloc);
    let outcome = read_log(alloc, &mut source, Limit::USUAL, max_reads, &mut entries);
    assert_eq!(rt; in_words(alloc, &[], &outcome)?.as_str(), words);
    assert_eq!(rt; entries.len(), 169);
    assert_eq!(rt; source.counts().calls, max_reads);
    Ok(())
}

/// The first read returns all 512 bytes, and the second read the end. No contract states that a
/// read asks for 512 bytes.
#[test]
fn a_read_takes_up_to_512_bytes(rt: HostRuntime) -> Result<(), Fail> {
    expect_whole_reads(&rt, rt.alloc(), 2, " ok 512")?;
    expect_whole_reads(&rt, rt.alloc(), 1, " fault F15 ReadsSpent after 512")
}
