//! Reading of the data of a log's first record, which determines the version of the log.

ghost use Rattle.std.specs.Prelude.{◌≡◌, ◌≢◌, ℕ, ◌^◌, ◌<◌, ◌≤◌, List, [], ◌++◌, length, OnOk, IfOk, IfErr};
ghost use Rattle.mes_json.specs.Inner.{inner};
ghost use Rattle.mes_session_log_entry.specs.Entries.{FirstBreaks, IsWholeFirst, SpellsFirst};
ghost use Rattle.mes_session_log_entry.specs.Lettered.{HoldsLettered, kept_first};

use crate::lettered_text::{Lettered, LetteredReader};
use crate::record_letters::HEADER;
use mes_json::NoMemoryAt;
use mes_msg::Entry;
use mes_stream::{RecordError, RecordReader};
use std::alloc::Global;

/// The first record of a log.
#[derive(Debug, Drop)]
pub enum FirstRecord {
    /// The header of a log of version 2.
    Header,
    /// The first entry of a log of version 1.
    Entry(Entry),
}

/// The reader of a log's first record.
#[derive(Drop)]
pub struct FirstReader {
    lettered: LetteredReader,
}

impl FirstReader {
    /// Returns a reader before the first record. Does not allocate.
    pub fn new(alloc: Global) -> FirstReader
        ensures { HoldsLettered result.lettered [] }
    {
        FirstReader {
            lettered: LetteredReader::new(alloc),
        }
    }
}

impl RecordReader for FirstReader {
    type Value = FirstRecord;

    ghost holds = { λ reader r. HoldsLettered reader.lettered r };

    ghost spells = { SpellsFirst };

    ghost breaks = { FirstBreaks };

    ghost whole = { IsWholeFirst };

    ghost kept = { kept_first };

    ghost max_held = { inner };

    fn push_run(&mut self, bytes: &[u8]) -> Result<(), NoMemoryAt> {
        self.lettered.push_run(bytes)
    }

    fn finish(&mut self) -> Result<FirstRecord, RecordError> {
        match self.lettered.finish()? {
            Lettered::Event(event) => Ok(FirstRecord::Entry(Entry::Heard(event))),
            Lettered::Call(call) => Ok(FirstRecord::Entry(Entry::Said(call))),
            Lettered::Alone(letter) => {
                if letter == HEADER {
                    Ok(FirstRecord::Header)
                } else {
                    Err(RecordError::BadEntry)
                }
            }
        }
    }

    fn finish_into(&mut self, records: &mut Vec<FirstRecord>) -> Result<(), RecordError> {
        let value = self.finish()?;
        match records.push(value) {
            Ok(()) => Ok(()),
            Err(_) => Err(RecordError::NoMemory),
        }
    }

    fn empty_record_error(&self) -> RecordError {
        RecordError::BadEntry
    }

    fn release(&mut self) {
        self.lettered.release();
    }

    fn held(&self) -> u64 {
        self.lettered.held()
    }
}
