//! A buffer for the lines of the events of one read, so that one call writes all these lines.

ghost use Rattle.std.specs.Prelude.{◌≡◌, ◌≤◌, [], ◌++◌, true, false, length, OnOk, IfOk, IfErr};
ghost use Rattle.std.specs.Io.KnownBytes.{Appends};
ghost use Rattle.mes_frame.specs.Counts.{up};
ghost use Rattle.mes_frame.specs.Write.{CallsFor, NoneFails, StopsWrite};
ghost use Rattle.mes_frame.specs.Written.{Passes, Stops, WentOut, WrotePart};

use crate::limits::MAX_LINE_BUFFER;
use mes_frame::{Sink, WriteFault, write_all};
use std::alloc::Global;

/// Buffers at most `MAX_LINE_BUFFER` bytes of lines, and counts the bytes already written. If an
/// allocation fails, lines are written directly.
#[derive(Drop)]
pub(crate) struct LineBuffer {
    held: Vec<u8>,
    sent: u64,
}

impl LineBuffer {
    /// Returns an empty buffer. Does not allocate.
    pub(crate) fn new(alloc: Global) -> Self
        ensures held { result.held.items ≡ [] }
        ensures sent { result.sent ≡ 0 }
    {
        LineBuffer {
            held: Vec::new(alloc),
            sent: 0,
        }
    }

    /// Returns the number of bytes written so far, or 2^64 - 1 if there were more.
    pub(crate) fn sent(&self) -> u64
        ensures { result ≡ self.now.sent }
    {
        self.sent
    }

    /// Appends lines. If the buffer has no room or an allocation fails, writes the buffered lines
    /// first. Lines larger than the buffer are written directly.
    pub(crate) fn hold<O: Sink>(&mut self, out: &mut O, lines: &[u8]) -> Result<(), WriteFault>
        ensures ok { OnOk result (Passes (O.device out.old).bytes (O.device out.new).bytes (O.device out.old).counts
            (O.device out.new).counts
            (self.old.held.items ++ lines.now) self.new.held.items self.old.sent self.new.sent) }
        ensures most { OnOk result (length self.new.held.items ≤ MAX_LINE_BUFFER) }
        ensures err { IfErr result (λ fault. Stops (O.device out.old).bytes (O.device out.new).bytes
            (O.device out.old).counts (O.device out.new).counts
            (self.old.held.items ++ lines.now) self.old.sent fault) }
    {
        if self.append(lines) {
            return Ok(());
        }
        self.flush(out)?;
        if !self.append(lines) {
            self.sent = write_after(out, lines, self.sent)?;
        }
        Ok(())
    }

    /// Appends lines, unless the buffer has no room or an allocation fails. Returns whether the
    /// lines were appended.
    fn append(&mut self, lines: &[u8]) -> bool
        ensures held { result ≡ true → self.new.held.items ≡ self.old.held.items ++ lines.now }
        ensures room { result ≡ true → length self.new.held.items ≤ MAX_LINE_BUFFER }
        ensures left { result ≡ false → self.new.held.items ≡ self.old.held.items }
        ensures sent { self.new.sent ≡ self.old.sent }
    {
        if MAX_LINE_BUFFER < self.held.len().saturating_add(lines.len()) {
            return false;
        }
        self.held.extend_from_slice(lines).is_ok()
    }

    /// Writes the buffered lines.
    pub(crate) fn flush<O: Sink>(&mut self, out: &mut O) -> Result<(), WriteFault>
        ensures ok { OnOk result (WentOut (O.device out.old).bytes (O.device out.new).bytes (O.device out.old).counts
            (O.device out.new).counts
            self.old.held.items self.old.sent self.new.sent) }
        ensures ok_held { OnOk result (self.new.held.items ≡ []) }
        ensures err { IfErr result (λ fault. Stops (O.device out.old).bytes (O.device out.new).bytes
            (O.device out.old).counts (O.device out.new).counts
            self.old.held.items self.old.sent fault) }
    {
        self.sent = write_after(out, self.held.as_slice(), self.sent)?;
        self.held.clear();
        Ok(())
    }
}

/// Writes all of `bytes`, and returns the number of bytes written, including `before` earlier
/// bytes. An error has that number too.
fn write_after<O: Sink>(out: &mut O, bytes: &[u8], before: u64) -> Result<u64, WriteFault>
    ensures ok { OnOk result (Appends (O.device out.old).bytes (O.device out.new).bytes bytes.now) }
    ensures ok_counts { OnOk result (NoneFails (O.device out.old).counts (O.device out.new).counts) }
    ensures ok_sent { IfOk result (λ all. all ≡ up before (length bytes.now)) }
    ensures err { IfErr result (λ fault. WrotePart (O.device out.old).bytes (O.device out.new).bytes bytes.now
        before fault.sent) }
    ensures err_counts { IfErr result
        (λ fault. StopsWrite fault.why (O.device out.old).counts (O.device out.new).counts) }
    ensures calls { CallsFor (length bytes.now) (O.device out.old).counts (O.device out.new).counts }
{
    match write_all(out, bytes) {
        Ok(()) => Ok(before.saturating_add(bytes.len() as u64)),
        Err(fault) => Err(WriteFault {
            sent: before.saturating_add(fault.sent),
            why: fault.why,
        }),
    }
}
