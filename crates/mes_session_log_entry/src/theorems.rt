//! Theorems about the definitions that the contracts use, stated as contracts of empty functions.

ghost use Rattle.std.specs.Prelude.{◌≡◌, ℕ};
ghost use Rattle.mes_stream.specs.PlainReading.{IsDecided, IsExact};
ghost use Rattle.mes_session_log_entry.specs.Entries.{EntryBreaks, FirstBreaks, SpellsEntry, SpellsFirst};

use crate::record_letters::{BROKEN, CALL, EVENT, HEADER};
use mes_msg::{Call, Event, message_reading_is_unique};

/// Proves the values of the letters: `E`, `C` and `B` of entries, and `2` of the header.
pub fn log_letters()
    ensures entries { (EVENT ≡ 69) × (CALL ≡ 67) × (BROKEN ≡ 66) }
    ensures header { HEADER ≡ 50 }
{}

/// Proves that any data of a record either are exactly one entry of a version or have exactly one
/// fault. The same holds for a first record.
pub fn entry_reading_is_unique()
    ensures one { (version : ℕ) → IsExact (SpellsEntry version) (EntryBreaks version) }
    ensures some { (version : ℕ) → IsDecided (SpellsEntry version) (EntryBreaks version) }
    ensures one_first { IsExact SpellsFirst FirstBreaks }
    ensures some_first { IsDecided SpellsFirst FirstBreaks }
{
    message_reading_is_unique::<Event>();
    message_reading_is_unique::<Call>();
}
