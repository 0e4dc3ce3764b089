//! Writes that consist of parts, with one count of bytes for all parts. Each part is written by
//! `write`.
ghost use Rattle.std.specs.Prelude.{◌≡◌, length, IfOk, OnOk, IfErr};
ghost use Rattle.std.specs.Io.KnownBytes.{Appends};
ghost use Rattle.mes_frame.specs.Counts.{up};
ghost use Rattle.mes_frame.specs.Write.{NoneFails, CallsFor, StopsWrite};
ghost use Rattle.mes_frame.specs.Written.{WrotePart};

use crate::device::Sink;
use crate::write::{WriteFault, write_all};

// Writes all of `bytes`, after `sent` bytes of earlier parts. Returns the count of bytes of all
// parts so far.
pub(crate) fn write_part<W: Sink>(
    writer: &mut W,
    bytes: &[u8],
    sent: u64,
) -> Result<u64, WriteFault>
    ensures ok { OnOk result (Appends (W.device writer.old).bytes (W.device writer.new).bytes bytes.now) }
    ensures ok_counts { OnOk result (NoneFails (W.device writer.old).counts (W.device writer.new).counts) }
    ensures ok_sent { IfOk result (λ all. all ≡ up sent (length bytes.now)) }
    ensures err { IfErr result (λ f. WrotePart (W.device writer.old).bytes (W.device writer.new).bytes
        bytes.now sent f.sent) }
    ensures err_counts { IfErr result
        (λ f. StopsWrite f.why (W.device writer.old).counts (W.device writer.new).counts) }
    ensures calls { CallsFor (length bytes.now) (W.device writer.old).counts (W.device writer.new).counts }
{
    match write_all(writer, bytes) {
        Ok(()) => Ok(sent.saturating_add(bytes.len() as u64)),
        Err(fault) => Err(WriteFault {
            sent: sent.saturating_add(fault.sent),
            why: fault.why,
        }),
    }
}
