//! The buffer that gathers small chunks into few writes.
ghost use Rattle.std.specs.Prelude.{◌≡◌, [], ◌++◌, OnOk, IfErr};
ghost use Rattle.mes_frame.specs.Written.{WentOut, Passes, Stops};

use crate::device::Sink;
use crate::limits::CHUNK_BUFFER_SIZE;
use crate::part_writer::write_part;
use crate::write::WriteFault;
use arrayvec::ArrayVec;

/// Buffered bytes, and the number of bytes written before them.
#[derive(Drop)]
pub(crate) struct ChunkBuffer {
    held: ArrayVec<u8, { CHUNK_BUFFER_SIZE }>,
    sent: u64,
}

impl ChunkBuffer {
    pub(crate) fn new() -> Self
        ensures held { result.held.items ≡ [] }
        ensures sent { result.sent ≡ 0 }
    {
        ChunkBuffer {
            held: ArrayVec::new(),
            sent: 0,
        }
    }

    // Appends `bytes` to the buffer. If the buffer lacks room, writes the buffered bytes first, and
    // then also `bytes` if they exceed the empty buffer.
    pub(crate) fn hold<W: Sink>(&mut self, writer: &mut W, bytes: &[u8]) -> Result<(), WriteFault>
        ensures ok { OnOk result (Passes (W.device writer.old).bytes (W.device writer.new).bytes
            (W.device writer.old).counts (W.device writer.new).counts
            (self.old.held.items ++ bytes.now) self.new.held.items self.old.sent self.new.sent) }
        ensures err { IfErr result (λ f. Stops (W.device writer.old).bytes (W.device writer.new).bytes
            (W.device writer.old).counts (W.device writer.new).counts
            (self.old.held.items ++ bytes.now) self.old.sent f) }
    {
        if self.held.try_extend_from_slice(bytes).is_ok() {
            return Ok(());
        }
        self.flush(writer)?;
        if self.held.try_extend_from_slice(bytes).is_err() {
            self.sent = write_part(writer, bytes, self.sent)?;
        }
        Ok(())
    }

    pub(crate) fn flush<W: Sink>(&mut self, writer: &mut W) -> Result<(), WriteFault>
        ensures ok { OnOk result (WentOut (W.device writer.old).bytes (W.device writer.new).bytes
            (W.device writer.old).counts (W.device writer.new).counts
            self.old.held.items self.old.sent self.new.sent) }
        ensures ok_held { OnOk result (self.new.held.items ≡ []) }
        ensures err { IfErr result (λ f. Stops (W.device writer.old).bytes (W.device writer.new).bytes
            (W.device writer.old).counts (W.device writer.new).counts
            self.old.held.items self.old.sent f) }
    {
        self.sent = write_part(writer, self.held.as_slice(), self.sent)?;
        self.held.clear();
        Ok(())
    }
}
