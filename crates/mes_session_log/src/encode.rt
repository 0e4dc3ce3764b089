//! Encoding of entries as the records of a session log. `write.rt` writes a whole log.

ghost use Rattle.std.specs.Prelude.{◌≡◌, ◌-◌, ◌^◌, ◌<◌, [], ◌∷◌, ◌++◌, length, OnOk, IfOk, IfErr};
ghost use Rattle.mes_frame.specs.Frames.{record_bytes};
ghost use Rattle.mes_msg.specs.Texts.{IsTextOf, canonical_of};
ghost use Rattle.mes_session_log.specs.Encoding.{AddsEntry, IsEntryFault, IsMessageUnfit};
ghost use Rattle.mes_session_log.specs.Writing.{IsFit, IsLogOf, IsUnwritten};
ghost use Rattle.mes_stream.specs.Sending.{fault_at};

use itoa::Buffer;
use mes_frame::Limit;
use mes_json::NoMemory;
use mes_model_schema::Part;
use mes_msg::{EncodeFault, EncodeFaultKind, Entry, SendFault};
use mes_msg_record::canonical_bytes;
use mes_session_log_entry::{BROKEN, CALL, EVENT, HEADER};
use std::alloc::Global;

/// Returns the log of the entries in version 2: the header, then a record with the letter and the
/// canonical text of each entry. Errors: the first entry that does not fit a record of `limit`
/// bytes, or out of memory.
pub fn encode_log(alloc: Global, entries: &[Entry], limit: Limit) -> Result<Vec<u8>, SendFault>
    ensures ok { IfOk result (λ log. IsLogOf limit entries.now log.items) }
    ensures err { IfErr result (IsUnwritten limit entries.now) }
{
    let mut log = Vec::new(alloc);
    if let Err(_) = put_record(HEADER, &[], &mut log) {
        return Err(SendFault::NoMemory);
    }
    for (index, entry) in entries.iter().enumerate() {
        if let Err(fault) = put_entry(alloc, entry, limit, &mut log) {
            return Err(refused_at(index, fault));
        }
    }
    Ok(log)
}

/// Returns the record of an entry in a log of version 2. Errors: the entry does not fit a record of
/// `limit` bytes, or out of memory.
pub fn encode_entry(alloc: Global, entry: &Entry, limit: Limit) -> Result<Vec<u8>, EncodeFault>
    ensures ok { IfOk result (λ bytes. AddsEntry limit entry.now [] bytes.items) }
    ensures err { IfErr result (IsEntryFault limit entry.now) }
{
    let mut record = Vec::new(alloc);
    put_entry(alloc, entry, limit, &mut record)?;
    Ok(record)
}

fn put_entry(
    alloc: Global,
    entry: &Entry,
    limit: Limit,
    log: &mut Vec<u8>,
) -> Result<(), EncodeFault>
    ensures ok { OnOk result (AddsEntry limit entry.now log.old.items log.new.items) }
    ensures err { IfErr result (IsEntryFault limit entry.now) }
{
    match entry {
        Entry::Heard(event) => put_message(alloc, EVENT, event, limit, log),
        Entry::Said(call) => put_message(alloc, CALL, call, limit, log),
        Entry::Broken => {
            put_record(BROKEN, &[], log)?;
            Ok(())
        }
    }
}

/// Appends the record with a letter and the canonical text of a message.
fn put_message<T: Part>(
    alloc: Global,
    letter: u8,
    message: &T,
    limit: Limit,
    log: &mut Vec<u8>,
) -> Result<(), EncodeFault>
    ensures ok { OnOk result (log.new.items
        ≡ log.old.items ++ record_bytes (letter ∷ canonical_of T.kind message.now)) }
    ensures fit { OnOk result (IsFit T.kind limit message.now) }
    ensures again { OnOk result (IsTextOf T.kind (canonical_of T.kind message.now) message.now) }
    ensures short { OnOk result (length (canonical_of T.kind message.now) < 2 ^ 64 - 1) }
    ensures err { IfErr result (IsMessageUnfit T.kind limit message.now) }
{
    let text = canonical_bytes(message, alloc, limit)?;
    // The record contains the letter too.
    if text.len() >= limit.get() as usize {
        return Err(EncodeFault::TooLarge);
    }
    put_record(letter, text.as_slice(), log)?;
    Ok(())
}

fn put_record(letter: u8, text: &[u8], log: &mut Vec<u8>) -> Result<(), NoMemory>
    requires { length text.now < 2 ^ 64 - 1 }
    ensures { OnOk result (log.new.items ≡ log.old.items ++ record_bytes (letter ∷ text.now)) }
{
    log.extend_from_slice(Buffer::new().format(text.len() as u64 + 1).as_bytes())?;
    log.extend_from_slice(b"\n")?;
    log.push(letter)?;
    log.extend_from_slice(text)?;
    Ok(())
}

fn refused_at(index: usize, fault: EncodeFault) -> SendFault
    ensures { result ≡ fault_at index fault }
{
    match fault {
        EncodeFault::TooDeep => SendFault::Encode {
            index,
            why: EncodeFaultKind::TooDeep,
        },
        EncodeFault::TooLarge => SendFault::Encode {
            index,
            why: EncodeFaultKind::TooLarge,
        },
        EncodeFault::NoMemory => SendFault::NoMemory,
    }
}
