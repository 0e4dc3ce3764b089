//! Writing of a session log. All entries are encoded before the first byte is written.

ghost use Rattle.std.specs.Prelude.{ℕ, List, OnOk, IfErr};
ghost use Rattle.mes_session_log.specs.Writing.{IsLogOf, StopsLog};
ghost use Rattle.mes_stream.specs.Sending.{WroteAll};

use crate::encode::encode_log;
use mes_frame::{Limit, Sink, write_all};
use mes_msg::{Entry, SendFault};
use std::alloc::Global;

/// Writes the entries as a log of version 2: the header, then a record with the letter and the
/// canonical text of each entry. A record has at most `limit` bytes.
pub fn write_log<W: Sink>(
    alloc: Global,
    writer: &mut W,
    entries: &[Entry],
    limit: Limit,
) -> Result<(), SendFault>
    // On success: each entry fits the limit, and the whole log is written.
    ensures ok { OnOk result ((w : List ℕ) × IsLogOf limit entries.now w
        × WroteAll W.device writer.old writer.new w) }

    // Each error: the first entry that does not fit, or out of memory, and the writer was not
    // called; or the writer stopped after the first `sent` bytes.
    ensures err { IfErr result (StopsLog W.device limit entries.now writer.old
        writer.new) }
{
    let log = encode_log(alloc, entries, limit)?;
    write_all(writer, log.as_slice())?;
    Ok(())
}
