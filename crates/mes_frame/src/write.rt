//! Writes that repeat calls until all bytes are written.
ghost use Rattle.std.specs.Prelude.{◌≡◌, ◌<◌, length, take, OnOk, IfErr};
ghost use Rattle.std.specs.Io.KnownBytes.{Appends};
ghost use Rattle.mes_frame.specs.Write.{NoneFails, CallsFor, StopsWrite};

use crate::device::Sink;

/// The reason why a write stopped.
#[derive(Clone, Copy, Debug, PartialEq, Eq)]
pub enum WriteFaultKind {
    /// A call failed. An interruption is a failure too.
    Device,
    /// A call with bytes to write wrote nothing.
    Zero,
}

/// A write that stopped: exactly the first `sent` bytes were written.
#[derive(Clone, Copy, Debug, PartialEq, Eq)]
pub struct WriteFault {
    pub sent: u64,
    pub why: WriteFaultKind,
}

/// Writes all of `bytes`, in as many calls as needed.
pub fn write_all<W: Sink>(writer: &mut W, bytes: &[u8]) -> Result<(), WriteFault>
    // On success: all bytes were written, and no call failed or wrote nothing.
    ensures ok { OnOk result (Appends (W.device writer.old).bytes (W.device writer.new).bytes bytes.now) }
    ensures ok_counts { OnOk result (NoneFails (W.device writer.old).counts (W.device writer.new).counts) }

    // On error: exactly the first `sent` bytes were written, and one call failed as `why` says.
    ensures err { IfErr result (λ f. (f.sent < length bytes.now)
        × Appends (W.device writer.old).bytes (W.device writer.new).bytes (take f.sent bytes.now)) }
    ensures err_counts { IfErr result
        (λ f. StopsWrite f.why (W.device writer.old).counts (W.device writer.new).counts) }

    // At most one call was made for each byte, and at least one unless `bytes` is empty.
    ensures calls { CallsFor (length bytes.now) (W.device writer.old).counts (W.device writer.new).counts }
{
    let mut sent = 0;
    while sent < bytes.len() {
        match writer.put(&bytes[sent..]) {
            Ok(0) => return Err(stopped(sent, WriteFaultKind::Zero)),
            Ok(count) => sent += count,
            Err(_) => return Err(stopped(sent, WriteFaultKind::Device)),
        }
    }
    Ok(())
}

fn stopped(sent: usize, why: WriteFaultKind) -> WriteFault
    ensures { result ≡ record { sent = sent; why = why } }
{
    WriteFault {
        sent: sent as u64,
        why,
    }
}
