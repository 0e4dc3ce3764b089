//! The encoder of chunked bodies (RFC 9112 section 7.1). The decoder is in `chunk`, the buffer in
//! `chunk_buffer`.
ghost use Rattle.std.specs.Prelude.{ℕ, ◌≤◌, ◌++◌, List, length, OnOk, IfErr};
ghost use Rattle.std.specs.Io.KnownBytes.{Appends};
ghost use Rattle.mes_frame.specs.Frames.{piece_bytes, IsFrames};
ghost use Rattle.mes_frame.specs.Write.{NoneFails, CallsFor, StopsWrite};
ghost use Rattle.mes_frame.specs.Written.{WroteFront, Passes, Stops};

use crate::chunk_buffer::ChunkBuffer;
use crate::device::Sink;
use crate::limits::{MAX_CHUNK, MIN_CHUNK};
use crate::size_line::{MAX_CHUNK_LINE_WRITTEN, chunk_line};
use crate::write::WriteFault;

/// Writes `body` as a chunked body (RFC 9112 section 7.1). Chunks have `most` bytes, and a shorter
/// one has the remainder; the last chunk is `0`, without trailers. Sizes are lower-case hexadecimal
/// without leading zeros.
/// Does not allocate: small chunks are gathered in a buffer of `CHUNK_BUFFER_SIZE` bytes, and data
/// that exceed the buffer are written directly. `most` is from `MIN_CHUNK` to `MAX_CHUNK`.
pub fn write_chunked<W: Sink>(writer: &mut W, body: &[u8], most: u32) -> Result<(), WriteFault>
    requires least { MIN_CHUNK ≤ most }
    requires greatest { most ≤ MAX_CHUNK }
    // On success: the whole body was written, and no call failed or wrote nothing.
    ensures ok { OnOk result ((w : List ℕ) × IsFrames body.now most w
        × Appends (W.device writer.old).bytes (W.device writer.new).bytes w) }
    ensures ok_counts { OnOk result (NoneFails (W.device writer.old).counts (W.device writer.new).counts) }

    // On error: exactly the first `sent` bytes were written (`sent` saturates at 2^64 - 1), and one
    // call failed as `why` says.
    ensures err { IfErr result (λ f. (w : List ℕ) × IsFrames body.now most w
        × WroteFront (W.device writer.old).bytes (W.device writer.new).bytes w f.sent) }
    ensures err_counts { IfErr result
        (λ f. StopsWrite f.why (W.device writer.old).counts (W.device writer.new).counts) }

    // At least one call was made, and at most one for each byte.
    ensures calls { (w : List ℕ) × IsFrames body.now most w
        × CallsFor (length w) (W.device writer.old).counts (W.device writer.new).counts }
{
    let mut buffer = ChunkBuffer::new();
    let mut rest = body;
    while !rest.is_empty() {
        let (piece, more) = rest.split_at((most as usize).min(rest.len()));
        write_piece(writer, piece, &mut buffer)?;
        rest = more;
    }
    buffer.hold(writer, b"0\r\n\r\n")?;
    buffer.flush(writer)
}

// Writes one chunk through the buffer.
fn write_piece<W: Sink>(
    writer: &mut W,
    piece: &[u8],
    buffer: &mut ChunkBuffer,
) -> Result<(), WriteFault>
    ensures ok { OnOk result (Passes (W.device writer.old).bytes (W.device writer.new).bytes
        (W.device writer.old).counts (W.device writer.new).counts
        (buffer.old.held.items ++ piece_bytes piece.now) buffer.new.held.items buffer.old.sent
        buffer.new.sent) }
    ensures err { IfErr result (λ f. Stops (W.device writer.old).bytes (W.device writer.new).bytes
        (W.device writer.old).counts (W.device writer.new).counts
        (buffer.old.held.items ++ piece_bytes piece.now) buffer.old.sent f) }
{
    let mut digits = [0; MAX_CHUNK_LINE_WRITTEN];
    let line = chunk_line(piece.len() as u64, &mut digits);
    buffer.hold(writer, line)?;
    buffer.hold(writer, piece)?;
    buffer.hold(writer, b"\r\n")
}
