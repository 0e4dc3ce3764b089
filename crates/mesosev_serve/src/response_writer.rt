//! Writes a response.

ghost use Rattle.std.specs.Prelude.{◌≤◌};
ghost use Rattle.mesosev_serve.specs.Writing.{Writes, WritesRecords};
ghost use Rattle.mesosev_serve.specs.declared.response.Reply.TheVariants as reply;

use crate::outgoing::Outgoing;
use crate::response::Reply;
use http::StatusCode;
use mes_double_http::{StreamId, write_ok, write_status};
use mes_frame::{Limit, MAX_CHUNK, MIN_CHUNK, Sink, WriteFault, write_chunked};
use mes_msg::SendFault;
use mes_stream::encode_each;
use mesosev_stream::ChunkSize;
use std::alloc::Global;

/// The reason for which a response was not written completely.
#[derive(Clone, Copy, Debug, PartialEq, Eq)]
pub(crate) enum SendError {
    /// An allocation failed, and nothing was written.
    NoMemory,
    /// An event of the stream could not be encoded, and nothing was written.
    Encode,
    /// The writer failed, or wrote 0 bytes.
    Write,
}

impl From<WriteFault> for SendError {
    ghost use Rattle.std.specs.Prelude.{◌≡◌};
    ghost use Rattle.mesosev_serve.specs.declared.response_writer.SendError.TheVariants.{Write};

    ghost from_gives = { λ _ unsent. unsent ≡ Write };

    fn from(_stopped: WriteFault) -> SendError {
        SendError::Write
    }
}

impl From<SendFault> for SendError {
    ghost use Rattle.std.specs.Prelude.{◌≡◌};
    ghost use Rattle.mesosev_serve.specs.Writing.{unsent_of};

    ghost from_gives = { λ fault unsent. unsent ≡ unsent_of fault };

    fn from(fault: SendFault) -> SendError {
        match fault {
            SendFault::NoMemory => SendError::NoMemory,
            SendFault::Encode { .. } => SendError::Encode,
            SendFault::Write(_) => SendError::Write,
        }
    }
}

/// Writes a response. A stream is written in chunks of `most` bytes, and all events of the stream
/// are encoded before the first byte is written.
pub(crate) fn write_reply<W: Sink>(
    alloc: Global,
    reply: &Reply<'_>,
    most: ChunkSize,
    writer: &mut W,
) -> Result<(), SendError>
    ensures { Writes most reply.now (W.device writer.old)
        (W.device writer.new) result }
{
    match reply {
        Reply::Nothing => Ok(()),
        Reply::Status(code) => write_head(*code, writer),
        Reply::Stream(id, events) => write_stream(alloc, id, events, most, writer),
    }
}

/// Writes a status without a body.
fn write_head<W: Sink>(code: StatusCode, writer: &mut W) -> Result<(), SendError>
    ensures { Writes 1 (reply.Status code) (W.device writer.old)
        (W.device writer.new) result }
{
    write_status(writer, code)?;
    Ok(())
}

/// Writes a stream.
fn write_stream<W: Sink>(
    alloc: Global,
    id: &StreamId,
    events: &Outgoing<'_>,
    most: ChunkSize,
    writer: &mut W,
) -> Result<(), SendError>
    ensures { Writes most (reply.Stream id.now events.now) (W.device writer.old)
        (W.device writer.new) result }
{
    let Ok(all) = events.all(alloc) else {
        return Err(SendError::NoMemory);
    };
    let records = encode_each(alloc, all.as_slice(), Limit::USUAL)?;
    write_records(id, records.as_slice(), most.get(), writer)
}

/// Writes the head of a stream, then the records in chunks.
fn write_records<W: Sink>(
    id: &StreamId,
    records: &[u8],
    most: u32,
    writer: &mut W,
) -> Result<(), SendError>
    requires least { MIN_CHUNK ≤ most }
    requires greatest { most ≤ MAX_CHUNK }
    ensures { WritesRecords most id.now records.now (W.device writer.old)
        (W.device writer.new) result }
{
    write_ok(writer, id)?;
    write_chunked(writer, records, most)?;
    Ok(())
}
