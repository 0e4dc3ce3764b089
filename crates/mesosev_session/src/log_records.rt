//! The records of a session log of version 2, and the session to which a log leads.

ghost use Rattle.std.specs.Prelude.{IfErr, IfOk};
ghost use Rattle.mes_msg.specs.Calls.{call};
ghost use Rattle.mes_msg.specs.Events.{event};
ghost use Rattle.mes_msg.specs.declared.entry.Entry.TheVariants.{Heard, Said, Broken};
ghost use Rattle.mesosev_session.specs.Records.{HasNoHeader, HasNoRecord, HasNoRecordOfText, IsHeader, IsRecordOfEntry, IsRecordOfText};
ghost use Rattle.mesosev_session.specs.Replays.{Replays, ReplaysTo};

use crate::message_text::{read_call, read_event, within_room};
use crate::text_refusal::TextRefusal;
use crate::text_session::TextSession;
use crate::text_stop::TextStop;
use mes_frame::{Limit, MemorySource};
use mes_msg::{EncodeFault, Entry, SendFault};
use mes_session::{encode_entry, read_log, replay};
use mes_session_log::encode_log;
use mes_stream::Fault;
use std::alloc::Global;

/// Returns the header of a log of version 2, its first record. Errors: `NoRoom`, or F13.
pub fn header_record(alloc: Global, most: usize) -> Result<Vec<u8>, TextRefusal>
    ensures ok { IfOk result (λ header. IsHeader most header.items) }
    ensures err { IfErr result (HasNoHeader most) }
{
    match encode_log(alloc, &[], Limit::LARGEST) {
        Ok(header) => within_room(header, most),
        Err(_) => Err(TextRefusal::Fault(Fault::NoMemory)),
    }
}

/// Returns the record of an event that was received. Errors: `Fault`, then `Unfit`, then `NoRoom`.
pub fn event_record(alloc: Global, bytes: &[u8], most: usize) -> Result<Vec<u8>, TextRefusal>
    ensures ok { IfOk result (λ entry. IsRecordOfText event Heard bytes.now most entry.items) }
    ensures err { IfErr result (HasNoRecordOfText event Heard bytes.now most) }
{
    let event = read_event(alloc, bytes)?;
    record_of(alloc, &Entry::Heard(event), most)
}

/// Returns the record of a call that was sent. Errors: `Fault`, then `Unfit`, then `NoRoom`.
pub fn call_record(alloc: Global, bytes: &[u8], most: usize) -> Result<Vec<u8>, TextRefusal>
    ensures ok { IfOk result (λ entry. IsRecordOfText call Said bytes.now most entry.items) }
    ensures err { IfErr result (HasNoRecordOfText call Said bytes.now most) }
{
    let call = read_call(alloc, bytes)?;
    record_of(alloc, &Entry::Said(call), most)
}

/// Returns the record of a disconnect. Errors: `NoRoom`, or F13.
pub fn broken_record(alloc: Global, most: usize) -> Result<Vec<u8>, TextRefusal>
    ensures ok { IfOk result (λ entry. IsRecordOfEntry Broken most entry.items) }
    ensures err { IfErr result (HasNoRecord Broken most) }
{
    record_of(alloc, &Entry::Broken, most)
}

fn record_of(alloc: Global, entry: &Entry, most: usize) -> Result<Vec<u8>, TextRefusal>
    ensures ok { IfOk result (λ bytes. IsRecordOfEntry entry.now most bytes.items) }
    ensures err { IfErr result (HasNoRecord entry.now most) }
{
    match encode_entry(alloc, entry, Limit::LARGEST) {
        Ok(record) => within_room(record, most),
        Err(EncodeFault::TooDeep) => Err(TextRefusal::Unfit),
        Err(EncodeFault::TooLarge) => Err(TextRefusal::Unfit),
        Err(EncodeFault::NoMemory) => Err(TextRefusal::Fault(Fault::NoMemory)),
    }
}

/// Returns the session to which a log leads. A record has at most `limit` bytes.
pub fn replay_log(alloc: Global, bytes: &[u8], limit: Limit) -> Result<TextSession, TextStop>
    ensures { Replays limit bytes.now result }
{
    let mut source = MemorySource::new(bytes, usize::MAX);
    let mut entries = Vec::new(alloc);
    match read_log(alloc, &mut source, limit, u64::MAX, &mut entries) {
        Ok(_) => replayed(alloc, entries.as_slice()),
        Err(stop) => Err(TextStop::Fault(stop)),
    }
}

fn replayed(alloc: Global, entries: &[Entry]) -> Result<TextSession, TextStop>
    ensures { ReplaysTo entries.now result }
{
    match replay(alloc, entries) {
        Ok(session) => Ok(TextSession::after(alloc, session, entries.len() as u64)),
        Err((before, refusal)) => Err(TextStop::Refused {
            before: before as u64,
            refusal,
        }),
    }
}
