//! Decodes a chunked body. `record_body.rt` decodes the records in the body's data.

ghost use Rattle.std.specs.Prelude.{◌≡◌, ◌<◌, ◌≤◌, ℕ, List, [], ◌∷◌, ◌++◌, length, slice_index};
ghost use Rattle.mes_frame.specs.ChunkState.{ChunkRepresents, PassesFraming, remaining_of};
ghost use Rattle.mes_frame.specs.RecordState.{limit_of};
ghost use Rattle.mes_stream.specs.Taking.{BodyRepresents, Reports};
ghost use Rattle.mes_stream.specs.Decoding.{ChunkedRepresents, ChunkedStep, Gathers, StaysLive};
ghost use Rattle.mes_stream.specs.declared.stream_reader.Framing.TheVariants as framing;

use crate::limits::{MAX_GATHERED, MAX_SHORT_CHUNK};
use crate::packed_fault::PackedFault;
use crate::record_body::Body;
use crate::record_reader::RecordReader;
use crate::step::{Decoded, Step};
use arrayvec::ArrayVec;
use mes_frame::{ChunkOut, ChunkState};
use mes_json::NoMemoryAt;

/// Decodes a chunked stream up to its end or first error. No more pieces may be given after the
/// end or an error.
#[derive(Drop)]
pub struct ChunkedBody<R> {
    chunks: ChunkState,
    pub(crate) body: Body<R>,
}

impl<R: RecordReader> ChunkedBody<R> {
    /// Returns a reader before the first byte.
    pub(crate) fn new(body: Body<R>) -> ChunkedBody<R>
        ensures represents { (ahead : ℕ) → BodyRepresents R.holds R.spells ahead body [] []
            → ChunkedRepresents R.holds R.spells ahead result [] [] }
        ensures body { result.body ≡ body }
    {
        ChunkedBody {
            chunks: ChunkState::new(),
            body,
        }
    }

    /// Consumes bytes from the start of a piece: several short chunks, framing bytes, or data of
    /// one chunk.
    pub(crate) fn consume(&mut self, rest: &[u8]) -> Step<(), PackedFault>
        requires { 0 < length rest.now }
        ensures reports { ChunkedStep R.holds R.spells R.breaks self.old self.new rest.now
            result.used result.out }
        ensures before { StaysLive R.holds R.spells self.old self.new rest.now result.used }
        ensures used { (0 < result.used) × (result.used ≤ length rest.now) }
        ensures limit { limit_of self.new.body.records ≡ limit_of self.old.body.records }
    {
        let remaining = self.chunks.remaining();
        if remaining == 0 {
            return self.take_between(rest);
        }
        let count = if remaining < rest.len() as u64 {
            remaining as usize
        } else {
            rest.len()
        };
        let taken = self.body.consume(&rest[..count]);
        self.chunks.pass(taken.used as u64);
        taken
    }

    // Like `consume`, if the next byte is not data.
    fn take_between(&mut self, rest: &[u8]) -> Step<(), PackedFault>
        requires some { 0 < length rest.now }
        requires none { remaining_of self.old.chunks ≡ 0 }
        ensures reports { ChunkedStep R.holds R.spells R.breaks self.old self.new rest.now
            result.used result.out }
        ensures before { StaysLive R.holds R.spells self.old self.new rest.now result.used }
        ensures used { (0 < result.used) × (result.used ≤ length rest.now) }
        ensures limit { limit_of self.new.body.records ≡ limit_of self.old.body.records }
    {
        let taken = self.take_short(rest);
        if taken.used > 0 {
            return taken;
        }
        self.take_framing(rest)
    }

    // Consumes short chunks without extensions, while the record continues. Their data are decoded
    // together.
    fn take_short(&mut self, rest: &[u8]) -> Step<(), PackedFault>
        ensures reports { ChunkedStep R.holds R.spells R.breaks self.old self.new rest.now
            result.used result.out }
        ensures before { StaysLive R.holds R.spells self.old self.new rest.now result.used }
        ensures none { result.used ≡ 0 → self.new ≡ self.old }
        ensures used { result.used ≤ length rest.now }
        ensures limit { limit_of self.new.body.records ≡ limit_of self.old.body.records }
    {
        let most = self.body.remaining();
        let gathered = gather_short_chunks(&mut self.chunks, rest, most);
        if gathered.bytes.is_empty() {
            return Step::more(gathered.used);
        }
        match self.body.pass(gathered.bytes.as_slice()) {
            Ok(()) => Step::more(gathered.used),
            Err(refused) => Step::no_memory(NoMemoryAt {
                taken: gathered.places.as_slice()[refused.taken],
            }),
        }
    }

    // Consumes framing bytes from the start of a piece.
    fn take_framing(&mut self, rest: &[u8]) -> Step<(), PackedFault>
        requires some { 0 < length rest.now }
        requires none { remaining_of self.old.chunks ≡ 0 }
        ensures reports { ChunkedStep R.holds R.spells R.breaks self.old self.new rest.now
            result.used result.out }
        ensures before { StaysLive R.holds R.spells self.old self.new rest.now result.used }
        ensures used { (0 < result.used) × (result.used ≤ length rest.now) }
        ensures limit { limit_of self.new.body.records ≡ limit_of self.old.body.records }
    {
        let framed = frame_run(&mut self.chunks, rest);
        if framed > 0 {
            return Step::more(framed);
        }
        Step {
            used: 1,
            out: self.frame(rest[0]),
        }
    }

    // Consumes one byte of the framing.
    fn frame(&mut self, byte: u8) -> Decoded<(), PackedFault>
        ensures reports { (ahead : ℕ) (w : List ℕ) (values : List R.Value)
            → ChunkedRepresents R.holds R.spells ahead self.old w values
            → remaining_of self.old.chunks ≡ 0
            → Reports R.holds R.spells R.breaks ahead framing.Chunked
            (λ body. ChunkedRepresents R.holds R.spells ahead
            (record { chunks = self.new.chunks; body = body }))
            self.new.body (limit_of self.new.body.records) w values (byte ∷ []) 1 result }
        ensures body { self.new.body ≡ self.old.body }
    {
        match self.chunks.step(byte) {
            ChunkOut::Quiet => Decoded::More,
            ChunkOut::Byte => Decoded::More,
            ChunkOut::Closed => {
                if self.body.between() {
                    Decoded::End
                } else {
                    Decoded::Fault(PackedFault::ends_inside_record())
                }
            }
            ChunkOut::Fault(fault) => Decoded::Fault(PackedFault::frame(fault)),
        }
    }
}

// Short chunks from the start of a piece: the number of bytes used, their data, and the index in
// the piece of each byte of data.
#[derive(Drop)]
struct ShortChunks {
    used: usize,
    bytes: ArrayVec<u8, MAX_GATHERED>,
    places: ArrayVec<usize, MAX_GATHERED>,
}

// Collects the data of short chunks from the start of a piece: fewer than `most` bytes.
fn gather_short_chunks(chunks: &mut ChunkState, piece: &[u8], most: usize) -> ShortChunks
    ensures gathers { (w body : List ℕ) → ChunkRepresents chunks.old w body
        → Gathers chunks.new w body piece.now result.used result.bytes.items result.places.items }
    ensures few { 0 < length result.bytes.items → length result.bytes.items < most }
    ensures places { length result.places.items ≡ length result.bytes.items }
    ensures inside { (k : ℕ) → k < length result.places.items
        → slice_index result.places.items k < result.used }
    ensures none { result.used ≡ 0 → (chunks.new ≡ chunks.old) × (result.bytes.items ≡ []) }
    ensures within { result.used ≤ length piece.now }
{
    let mut next = *chunks;
    let mut used = 0;
    let mut bytes = ArrayVec::new();
    let mut places = ArrayVec::new();
    while bytes.len() < MAX_GATHERED {
        used += next.next_chunk(&piece[used..]);
        let remaining = next.remaining();
        if remaining == 0
            || remaining > MAX_SHORT_CHUNK
            || used == piece.len()
            || bytes.len() + 1 >= most
        {
            break;
        }
        bytes.push(piece[used]);
        places.push(used);
        next.pass(1);
        used += 1;
    }
    *chunks = next;
    ShortChunks {
        used,
        bytes,
        places,
    }
}

// Consumes framing bytes, and returns their number. Stops before a byte of data, and before a byte
// that ends the stream or is an error.
fn frame_run(chunks: &mut ChunkState, rest: &[u8]) -> usize
    ensures passes { (w body : List ℕ) → ChunkRepresents chunks.old w body
        → PassesFraming chunks.new w body rest.now result }
    ensures none { result ≡ 0 → chunks.new ≡ chunks.old }
    ensures within { result ≤ length rest.now }
{
    let mut count = 0;
    while count < rest.len() {
        let mut next = *chunks;
        match next.step(rest[count]) {
            ChunkOut::Quiet => {}
            ChunkOut::Byte | ChunkOut::Closed | ChunkOut::Fault(_) => return count,
        }
        *chunks = next;
        count += 1;
    }
    count
}
