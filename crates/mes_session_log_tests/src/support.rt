//! Sample logs, and the printed results of reading them.

use mes_frame::{Limit, MemorySource, Source};
use mes_msg::Entry;
use mes_session_log::read_log;
use mes_stream::{MAX_FAULT_LINE, Report, Stop, fault_line};
use std::alloc::Global;
use std::test::Fail;

/// A log and the results of reading its prefixes.
#[derive(Drop)]
pub(crate) struct Log {
    pub(crate) bytes: &'static [u8],
    /// The lengths of the prefixes without an incomplete record, in ascending order, each with the
    /// letters of the entries in that prefix.
    pub(crate) ends: &'static [(usize, &'static str)],
    /// The printed result of the whole log, if a fault is detected at its last byte.
    pub(crate) fault: Option<&'static str>,
}

/// A log of version 1 with one event, SUBSCRIBED for the framework `F1`: 70 bytes.
pub(crate) const SUBSCRIBED: &[u8] =
    b"67\nE{\"type\":\"SUBSCRIBED\",\"subscribed\":{\"framework_id\":{\"value\":\"F1\"}}}";

/// A log of version 1 with the event of [`SUBSCRIBED`] and the call REVIVE: 70 + 51 bytes.
pub(crate) const CALLED: &[u8] =
    b"67\nE{\"type\":\"SUBSCRIBED\",\"subscribed\":{\"framework_id\":{\"value\":\"F1\"}}}48\nC{\"type\":\"REVIVE\",\"framework_id\":{\"value\":\"F1\"}}";

/// A log of version 2 with the event of [`SUBSCRIBED`], a disconnect, and the call REVIVE: 3 + 70 +
/// 3 + 51 bytes.
pub(crate) const BROKEN: &[u8] =
    b"1\n267\nE{\"type\":\"SUBSCRIBED\",\"subscribed\":{\"framework_id\":{\"value\":\"F1\"}}}1\nB48\nC{\"type\":\"REVIVE\",\"framework_id\":{\"value\":\"F1\"}}";

/// The prefixes of [`CALLED`], a log of version 1.
pub(crate) const VERSION_1: Log = Log {
    bytes: CALLED,
    ends: &[(0, ""), (70, "E"), (121, "EC")],
    fault: None,
};

/// The prefixes of [`BROKEN`], a log of version 2.
pub(crate) const VERSION_2: Log = Log {
    bytes: BROKEN,
    ends: &[(0, ""), (3, ""), (73, "E"), (76, "EB"), (127, "EBC")],
    fault: None,
};

/// A log of version 1 with a disconnect after the event of [`SUBSCRIBED`], which is a fault.
pub(crate) const BREAK: Log = Log {
    bytes: b"67\nE{\"type\":\"SUBSCRIBED\",\"subscribed\":{\"framework_id\":{\"value\":\"F1\"}}}1\nB",
    ends: &[(0, ""), (70, "E")],
    fault: Some("E fault F16 BadEntry record 2 after 73"),
};

/// A log with a second header after the first, which is a fault.
pub(crate) const HEADER_TWICE: Log = Log {
    bytes: b"1\n21\n2",
    ends: &[(0, ""), (3, "")],
    fault: Some(" fault F16 BadEntry record 2 after 6"),
};

/// More reads than a test needs.
pub(crate) const READS: u64 = 1_000_000;

impl Log {
    /// Returns the letters of the entries that are complete after `bytes` bytes.
    pub(crate) fn entries_in(&self, bytes: usize) -> &'static str {
        let mut ended = "";
        for (end, letters) in self.ends {
            if *end <= bytes {
                ended = *letters;
            }
        }
        ended
    }

    /// Returns whether the first `bytes` bytes have no incomplete record.
    fn is_whole(&self, bytes: usize) -> bool {
        for (end, _) in self.ends {
            if *end == bytes {
                return true;
            }
        }
        false
    }

    /// Returns the printed result of reading the first `bytes` bytes.
    pub(crate) fn front_in_words(&self, alloc: Global, bytes: usize) -> Result<String, Fail> {
        let entries = self.entries_in(bytes);
        if self.is_whole(bytes) {
            return Ok(format!(in alloc; "{entries} ok {bytes}")?);
        }
        match self.fault {
            Some(fault) if bytes == self.bytes.len() => Ok(format!(in alloc; "{fault}")?),
            _ => Ok(format!(in alloc; "{entries} fault F10 EndsInsideRecord after {bytes}")?),
        }
    }
}

fn letter(entry: &Entry) -> &'static str {
    match entry {
        Entry::Heard(_) => "E",
        Entry::Said(_) => "C",
        Entry::Broken => "B",
    }
}

/// Prints a result: the letters of the entries, then `ok` with the number of bytes, or the line of
/// the fault.
pub(crate) fn in_words(
    alloc: Global,
    entries: &[Entry],
    outcome: &Result<Report, Stop>,
) -> Result<String, Fail> {
    let mut text = String::new(alloc);
    for entry in entries {
        text.push_str(letter(entry))?;
    }
    match outcome {
        Ok(report) => text.push_str(format!(in alloc; " ok {}", report.used)?.as_str())?,
        Err(stop) => {
            let mut line = arrayvec::ArrayString::<MAX_FAULT_LINE>::new();
            fault_line(&stop.fault, stop.used, &mut line);
            text.push_str(" ")?;
            text.push_str(line.as_str())?;
        }
    }
    Ok(text)
}

/// Reads a log from a source and prints the result.
pub(crate) fn reported<S: Source>(
    alloc: Global,
    source: &mut S,
    max_reads: u64,
) -> Result<String, Fail> {
    let mut entries = Vec::new(alloc);
    let outcome = read_log(alloc, source, Limit::USUAL, max_reads, &mut entries);
    in_words(alloc, entries.as_slice(), &outcome)
}

/// Reads a log from bytes and prints the result.
pub(crate) fn reported_text(alloc: Global, log: &[u8]) -> Result<String, Fail> {
    reported(alloc, &mut MemorySource::new(log, 512), READS)
}
