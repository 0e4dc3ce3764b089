//! A theorem about the definitions that the contracts use, stated as the contract of an empty
//! function.

ghost use Rattle.std.specs.Prelude.{◌≡◌, ℕ, List, ◌↔◌};
ghost use Rattle.mes_msg.specs.declared.entry.Entry.{Entry as EntryValue};
ghost use Rattle.mes_stream.specs.PlainReading.{PlainReading};
ghost use Rattle.mes_session_log.specs.Logs.{IsLog, LogGoes, ReadsLog};

use mes_frame::record_reading_is_unique;
use mes_session_log_entry::{EntryReader, FirstReader, entry_reading_is_unique};
use mes_stream::plain_reading_is_unique;

/// Proves that any bytes either begin a log of certain entries, or have a first faulty byte after
/// certain entries. Exactly one of the two holds, for exactly one list of entries.
pub fn log_reading_is_unique()
    // Any bytes have a reading.
    ensures some { (limit : ℕ) (w : List ℕ)
        → (reading : PlainReading EntryValue) × ReadsLog limit w reading }
    // Any bytes have at most one reading.
    ensures one { (limit : ℕ) (w : List ℕ) (reading other : PlainReading EntryValue)
        → ReadsLog limit w reading → ReadsLog limit w other → reading ≡ other }
    // A whole log is read to its entries.
    ensures whole { (limit : ℕ) (w : List ℕ) (entries : List EntryValue) → IsLog limit w entries
        → LogGoes limit w entries }
{
    entry_reading_is_unique();
    record_reading_is_unique();
    plain_reading_is_unique::<FirstReader>();
    plain_reading_is_unique::<EntryReader<1>>();
    plain_reading_is_unique::<EntryReader<2>>();
}
