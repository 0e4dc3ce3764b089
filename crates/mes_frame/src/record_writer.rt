//! The encoder of RecordIO records. The decoder is in `record`.
ghost use Rattle.std.specs.Prelude.{◌≡◌, length, OnOk, IfErr};
ghost use Rattle.std.specs.Io.KnownBytes.{Appends};
ghost use Rattle.mes_frame.specs.Frames.{record_bytes};
ghost use Rattle.mes_frame.specs.Write.{NoneFails, CallsFor, StopsWrite};
ghost use Rattle.mes_frame.specs.Written.{WroteFront};

use crate::device::Sink;
use crate::part_writer::write_part;
use crate::size_line::{MAX_RECORD_LINE, record_line};
use crate::write::WriteFault;

/// Writes `payload` as a record: its length in decimal without leading zeros, LF, and the bytes.
/// Does not allocate.
pub fn write_record<W: Sink>(writer: &mut W, payload: &[u8]) -> Result<(), WriteFault>
    // On success: the whole record was written, and no call failed or wrote nothing.
    ensures ok { OnOk result (Appends (W.device writer.old).bytes (W.device writer.new).bytes
        (record_bytes payload.now)) }
    ensures ok_counts { OnOk result (NoneFails (W.device writer.old).counts (W.device writer.new).counts) }

    // On error: exactly the first `sent` bytes were written, and one call failed as `why` says.
    ensures err { IfErr result (λ f. WroteFront (W.device writer.old).bytes (W.device writer.new).bytes
        (record_bytes payload.now) f.sent) }
    ensures err_counts { IfErr result
        (λ f. StopsWrite f.why (W.device writer.old).counts (W.device writer.new).counts) }

    // At least one call was made, and at most one for each byte.
    ensures calls { CallsFor (length (record_bytes payload.now)) (W.device writer.old).counts
        (W.device writer.new).counts }
{
    let mut buffer = [0; MAX_RECORD_LINE];
    let line = record_line(payload.len() as u64, &mut buffer);
    let sent = write_part(writer, line, 0)?;
    write_part(writer, payload, sent)?;
    Ok(())
}
