//! The record of an event, and a chunk of a body, for programs that write a stream.

ghost use Rattle.std.specs.Prelude.{◌≡◌, ◌++◌, IfErr, IfOk, OnOk};
ghost use Rattle.mes_frame.specs.Frames.{piece_bytes};
ghost use Rattle.mesosev_session.specs.StreamRecords.{HasNoChunk, HasNoStreamRecord, IsChunkWithin, IsEventRecord, IsStreamRecord, IsUnsentEvent};

use crate::message_text::{read_event, within_room};
use crate::text_refusal::TextRefusal;
use mes_frame::Limit;
use mes_json::NoMemory;
use mes_msg::Event;
use mes_stream::{Fault, SendFault, encode_each};
use std::alloc::Global;
use std::fmt::Write;

/// Returns the record of an event in plain RecordIO. Errors: `Fault`, then `Unfit`, then `NoRoom`.
pub fn stream_record(alloc: Global, bytes: &[u8], most: usize) -> Result<Vec<u8>, TextRefusal>
    ensures ok { IfOk result (λ entry. IsStreamRecord bytes.now most entry.items) }
    ensures err { IfErr result (HasNoStreamRecord bytes.now most) }
{
    let event = read_event(alloc, bytes)?;
    record_of_event(alloc, &event, most)
}

fn record_of_event(alloc: Global, event: &Event, most: usize) -> Result<Vec<u8>, TextRefusal>
    ensures ok { IfOk result (λ record_bytes. IsEventRecord event.now most record_bytes.items) }
    ensures err { IfErr result (IsUnsentEvent event.now most) }
{
    match encode_each(alloc, &[event], Limit::LARGEST) {
        Ok(record) => within_room(record, most),
        Err(SendFault::Encode { .. }) => Err(TextRefusal::Unfit),
        Err(SendFault::Write(_)) => Err(TextRefusal::Unfit),
        Err(SendFault::NoMemory) => Err(TextRefusal::Fault(Fault::NoMemory)),
    }
}

/// Returns a chunk of a body with the bytes as its data (RFC 9112, section 7.1); for no bytes the last
/// chunk, which ends the body. Errors: `NoRoom`, or F13.
pub fn stream_chunk(alloc: Global, bytes: &[u8], most: usize) -> Result<Vec<u8>, TextRefusal>
    ensures ok { IfOk result (λ chunk. IsChunkWithin bytes.now most chunk.items) }
    ensures err { IfErr result (HasNoChunk bytes.now most) }
{
    match chunk_of(alloc, bytes) {
        Ok(chunk) => within_room(chunk, most),
        Err(_) => Err(TextRefusal::Fault(Fault::NoMemory)),
    }
}

fn chunk_of(alloc: Global, bytes: &[u8]) -> Result<Vec<u8>, NoMemory>
    ensures { IfOk result (λ chunk. chunk.items ≡ piece_bytes bytes.now) }
{
    let mut line = String::new(alloc);
    if write!(line, "{:x}\r\n", bytes.len()).is_err() {
        return Err(NoMemory);
    }
    let mut chunk = line.into_bytes();
    chunk.extend_from_slice(bytes)?;
    chunk.extend_from_slice(b"\r\n")?;
    Ok(chunk)
}
