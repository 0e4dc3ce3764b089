//! Facts about the definitions of `specs/`, stated as contracts of functions that do nothing.
ghost use Rattle.std.specs.Prelude.{◌≡◌, ℕ, ◌-◌, ◌^◌, ◌<◌, ◌≤◌, List, length, ◌++◌, None};
ghost use Rattle.mes_frame.specs.Chunk.{IsChunked};
ghost use Rattle.mes_frame.specs.ChunkFront.{IsOpen};
ghost use Rattle.mes_frame.specs.ChunkReading.{ChunkReading, ReadsChunks};
ghost use Rattle.mes_frame.specs.ChunkState.{ChunkRepresents, end_of};
ghost use Rattle.mes_frame.specs.Frames.{record_bytes, IsFrames};
ghost use Rattle.mes_frame.specs.Record.{Begun, IsRecord};
ghost use Rattle.mes_frame.specs.RecordReading.{RecordReading, ReadsRecord};
ghost use Rattle.mes_frame.specs.RecordState.{RecordStands, limit_of, fault_of};
ghost use Rattle.mes_frame.specs.declared.chunk.ChunkState.{ChunkState};
ghost use Rattle.mes_frame.specs.declared.record.RecordState.{RecordState};

use crate::limits::{
    CHUNK_BUFFER_SIZE, DEFAULT_RECORD_LIMIT, MAX_CHUNK, MAX_CHUNK_LINE, MAX_RECORD_LIMIT,
    MAX_SIZE_DIGITS, MAX_TRAILERS, MIN_CHUNK, MIN_RECORD_LIMIT,
};

/// Proves that bytes begin with at most one record, whatever the limit, and that the record has one
/// payload.
pub fn record_is_unique()
    // If two records begin the same bytes, the records, their data and the bytes after them are
    // equal.
    ensures { (f r s g q t : List ℕ) (l m : ℕ) → IsRecord f r l → IsRecord g q m
        → f ++ s ≡ g ++ t → (f ≡ g) × (r ≡ q) × (s ≡ t) }
{}

/// Proves that any bytes have exactly one decoded result as records: they are an unfinished record,
/// begin with a whole record, or have a first fault.
pub fn record_reading_is_unique()
    // There is a decoded result.
    ensures some { (limit : ℕ) (w : List ℕ)
        → (reading : RecordReading) × ReadsRecord limit w reading }
    // Any two decoded results are equal.
    ensures one { (limit : ℕ) (w : List ℕ) (reading other : RecordReading)
        → ReadsRecord limit w reading → ReadsRecord limit w other → reading ≡ other }
{}

/// Proves that the bytes read since the last record determine the state of a decoder of records,
/// for a given limit. Such bytes are an unfinished record, and no fault was returned for them.
pub fn record_state_is_unique()
    ensures begun { (s : RecordState) (x r : List ℕ) → RecordStands s x r → Begun x r (limit_of s) }
    ensures sound { (s : RecordState) (x r : List ℕ) → RecordStands s x r → fault_of s ≡ None }
    // Two states with the same limit and the same bytes are equal, and so is their data.
    ensures one { (s t : RecordState) (x r q : List ℕ) → RecordStands s x r → RecordStands t x q
        → limit_of s ≡ limit_of t → (s ≡ t) × (r ≡ q) }
{}

/// Proves that any bytes have exactly one decoded result as a chunked body: they are an open body,
/// begin with a whole body, or have a first fault.
pub fn chunk_reading_is_unique()
    // There is a decoded result.
    ensures some { (w : List ℕ) → (reading : ChunkReading) × ReadsChunks w reading }
    // Any two decoded results are equal.
    ensures one { (w : List ℕ) (reading other : ChunkReading)
        → ReadsChunks w reading → ReadsChunks w other → reading ≡ other }
{}

/// Proves that the bytes read determine the state of a decoder of chunked bodies. Such bytes are an
/// open body, and neither the end nor a fault was returned for them.
pub fn chunk_state_is_unique()
    ensures begun { (s : ChunkState) (w body : List ℕ) → ChunkRepresents s w body → IsOpen w body }
    ensures sound { (s : ChunkState) (w body : List ℕ) → ChunkRepresents s w body
        → end_of s ≡ None }
    // Two states with the same bytes are equal, and so is their data.
    ensures one { (s t : ChunkState) (w body other : List ℕ) → ChunkRepresents s w body
        → ChunkRepresents t w other
        → (s ≡ t) × (body ≡ other) }
{}

/// Proves the limits of records, of chunked bodies that are read, and of chunks that are written.
pub fn frame_limits()
    ensures records { (MIN_RECORD_LIMIT ≡ 1) × (DEFAULT_RECORD_LIMIT ≡ 4194304)
        × (MAX_RECORD_LIMIT ≡ 67108864) }
    ensures digits { MAX_SIZE_DIGITS ≡ 20 }
    ensures line { MAX_CHUNK_LINE ≡ 256 }
    ensures trailers { MAX_TRAILERS ≡ 4096 }
    ensures chunks { (MIN_CHUNK ≡ 1) × (MAX_CHUNK ≡ 16777216) }
    ensures buffer { CHUNK_BUFFER_SIZE ≡ 8192 }
{}

/// Proves that a body and a chunk size determine the written bytes.
pub fn framing_is_unique()
    ensures some { (body : List ℕ) (most : ℕ) → 1 ≤ most → (w : List ℕ) × IsFrames body most w }
    ensures one { (body w v : List ℕ) (most : ℕ) → IsFrames body most w → IsFrames body most v
        → w ≡ v }
{}

/// Proves that written bytes are read back: a written chunked body has the same data, and a written
/// record is a record under every limit that its data do not exceed.
pub fn written_is_read()
    ensures chunks { (body w : List ℕ) (most : ℕ) → most < 2 ^ 64 → IsFrames body most w
        → IsChunked w body }
    ensures records { (r : List ℕ) (limit : ℕ) → length r < 2 ^ 64 → length r ≤ limit
        → IsRecord (record_bytes r) r limit }
{}
