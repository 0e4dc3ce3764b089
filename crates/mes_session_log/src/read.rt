//! Reading of a session log from a device. `write.rt` writes one.

ghost use Rattle.std.specs.Prelude.{◌≡◌, ℕ, List, ◌++◌};
ghost use Rattle.std.specs.Io.KnownBytes.{Consumes};
ghost use Rattle.mes_msg.specs.declared.entry.Entry.{Entry as EntryValue};
ghost use Rattle.mes_session_log.specs.Logs.{EndsLog};

use crate::log_reading::LogReading;
use mes_frame::{Limit, Source};
use mes_msg::Entry;
use mes_stream::{Report, Stop, read_device};
use std::alloc::Global;

/// Reads a session log of either version to the end of `reader` and appends its entries to
/// `entries`. On error the entries before the fault stay appended. Makes at most `max_reads` reads
/// of at most `MAX_READ` bytes.
///
/// A log has version 1 if its first record is not the header, or if it has no records. The fault
/// F16 (`BadEntry`) is returned for:
/// - an empty record or an unknown letter;
/// - bytes after the letter of a disconnect, or a disconnect in version 1;
/// - a header that is not the first record.
///
/// The place of a fault in a text is counted from the byte after the letter. The header counts as a
/// record.
pub fn read_log<S: Source>(
    alloc: Global,
    reader: &mut S,
    limit: Limit,
    max_reads: u64,
    entries: &mut Vec<Entry>,
) -> Result<Report, Stop>
    // The bytes `w` were consumed and the entries `more` appended; `EndsLog` states the result for
    // `w` and `more`.
    ensures { (w : List ℕ) × (more : List EntryValue)
        × Consumes (S.device reader.old).bytes (S.device reader.new).bytes w
        × (entries.new.items ≡ entries.old.items ++ more)
        × EndsLog limit max_reads (S.device reader.old).counts (S.device reader.new).counts (S.device reader.new).bytes w
        more result }
{
    let mut reading = LogReading::new(alloc, limit);
    let end = read_device(reader, max_reads, &mut reading, entries);
    reading.outcome(end)
}
