//! Writes events, or calls, as plain RecordIO or as a chunked stream. `encode.rt` encodes all of
//! them before the first byte is written.

ghost use Rattle.std.specs.Prelude.{ℕ, ◌≤◌, List, OnOk, IfErr};
ghost use Rattle.mes_stream.specs.Sending.{IsPlainOf, IsStreamOf, WroteAll, StopsSending};

use crate::encode::encode_all;
use mes_frame::{Limit, MAX_CHUNK, MIN_CHUNK, Sink, write_all, write_chunked};
use mes_model_schema::Part;
use mes_msg::SendFault;
use std::alloc::Global;

/// Writes events, or calls, as a chunked stream in chunks of `most` bytes; the last chunk may be
/// shorter. Each message is one record with at most `limit` bytes of canonical JSON.
pub fn write_stream<W: Sink, M: Part>(
    alloc: Global,
    writer: &mut W,
    messages: &[M],
    limit: Limit,
    most: u32,
) -> Result<(), SendFault>
    requires least { MIN_CHUNK ≤ most }
    requires greatest { most ≤ MAX_CHUNK }
    // On success: every message is valid, and the whole stream was written.
    ensures ok { OnOk result ((w : List ℕ) × IsStreamOf M.kind limit most messages.now w
        × WroteAll W.device writer.old writer.new w) }

    // On an error: a message is invalid or an allocation failed, and nothing was written; or
    // exactly the first `sent` bytes were written.
    ensures err { IfErr result (StopsSending M.kind W.device (IsStreamOf M.kind limit most
        messages.now) limit messages.now writer.old writer.new) }
{
    let body = encode_all(alloc, messages, limit)?;
    write_chunked(writer, body.as_slice(), most)?;
    Ok(())
}

/// Writes events, or calls, as plain RecordIO. Each message is one record with at most `limit`
/// bytes of canonical JSON.
pub fn write_plain<W: Sink, M: Part>(
    alloc: Global,
    writer: &mut W,
    messages: &[M],
    limit: Limit,
) -> Result<(), SendFault>
    // On success: every message is valid, and all records were written.
    ensures ok { OnOk result ((w : List ℕ) × IsPlainOf M.kind limit messages.now w
        × WroteAll W.device writer.old writer.new w) }

    // On an error: a message is invalid or an allocation failed, and nothing was written; or
    // exactly the first `sent` bytes were written.
    ensures err { IfErr result (StopsSending M.kind W.device (IsPlainOf M.kind limit messages.now)
        limit messages.now writer.old writer.new) }
{
    let records = encode_all(alloc, messages, limit)?;
    write_all(writer, records.as_slice())?;
    Ok(())
}
