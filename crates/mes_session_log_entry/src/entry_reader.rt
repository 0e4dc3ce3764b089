//! Reading of a record's data as an entry of a session log.

ghost use Rattle.std.specs.Prelude.{◌≡◌, ◌≢◌, ℕ, ◌^◌, ◌<◌, ◌≤◌, List, [], ◌++◌, length, OnOk, IfOk, IfErr};
ghost use Rattle.mes_json.specs.Inner.{inner};
ghost use Rattle.mes_session_log_entry.specs.Entries.{EntryBreaks, IsWholeEntry, SpellsEntry};
ghost use Rattle.mes_session_log_entry.specs.Lettered.{HoldsLettered, kept_entry};

use crate::lettered_text::{Lettered, LetteredReader};
use crate::record_letters::BROKEN;
use mes_json::NoMemoryAt;
use mes_msg::Entry;
use mes_stream::{RecordError, RecordReader};
use std::alloc::Global;

/// The reader of the entries of a log of version 1 or 2. Only version 2 has disconnects.
#[derive(Drop)]
pub struct EntryReader<const VERSION: u8> {
    lettered: LetteredReader,
}

impl<const VERSION: u8> EntryReader<VERSION> {
    /// Returns a reader before the first record. Does not allocate.
    pub fn new(alloc: Global) -> EntryReader<VERSION>
        ensures { HoldsLettered result.lettered [] }
    {
        EntryReader {
            lettered: LetteredReader::new(alloc),
        }
    }
}

impl<const VERSION: u8> RecordReader for EntryReader<VERSION> {
    type Value = Entry;

    ghost holds = { λ reader r. HoldsLettered reader.lettered r };

    ghost spells = { SpellsEntry VERSION };

    ghost breaks = { EntryBreaks VERSION };

    ghost whole = { IsWholeEntry VERSION };

    ghost kept = { kept_entry };

    ghost max_held = { inner };

    fn push_run(&mut self, bytes: &[u8]) -> Result<(), NoMemoryAt> {
        self.lettered.push_run(bytes)
    }

    fn finish(&mut self) -> Result<Entry, RecordError> {
        match self.lettered.finish()? {
            Lettered::Event(event) => Ok(Entry::Heard(event)),
            Lettered::Call(call) => Ok(Entry::Said(call)),
            Lettered::Alone(letter) => {
                if VERSION == 2 && letter == BROKEN {
                    Ok(Entry::Broken)
                } else {
                    Err(RecordError::BadEntry)
                }
            }
        }
    }

    fn finish_into(&mut self, entries: &mut Vec<Entry>) -> Result<(), RecordError> {
        let value = self.finish()?;
        match entries.push(value) {
            Ok(()) => Ok(()),
            Err(_) => Err(RecordError::NoMemory),
        }
    }

    fn empty_record_error(&self) -> RecordError {
        RecordError::BadEntry
    }

    fn release(&mut self) {
        self.lettered.release();
    }

    fn held(&self) -> u64 {
        self.lettered.held()
    }
}
