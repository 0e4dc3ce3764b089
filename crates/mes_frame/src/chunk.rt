//! The decoder of chunked bodies (RFC 9112 section 7.1), as a state machine over bytes. The encoder
//! is in `chunk_writer`, the grammar in `specs/Chunk.antt`.
#![tactic(auto, unfolding(crate::specs::ChunkState::ChunkRepresents))]

ghost use Rattle.std.specs.Prelude.{◌≡◌, ℕ, ◌+◌, ◌<◌, ◌≤◌, List, [], ◌++◌, length, take, IfSome};
ghost use Rattle.std.specs.Char.{digit_value};
ghost use Rattle.mes_frame.specs.ChunkFront.{IsOpen};
ghost use Rattle.mes_frame.specs.ChunkState.{PhaseRepresents, PhaseSteps, ChunkRepresents, ChunkSteps, PassesFraming, OutWith, end_at, end_of, remaining_at, remaining_of, state_at};

use crate::fault::FrameFault;
use crate::limits::{MAX_CHUNK_LINE, MAX_PLAIN_LINE, MAX_TRAILERS};

/// The role of one byte in a chunked body.
#[derive(Clone, Copy, Debug, PartialEq, Eq)]
pub enum ChunkOut {
    /// A byte of the framing.
    Quiet,
    /// A byte of the body's data.
    Byte,
    /// The LF that ends the body.
    Closed,
    /// The byte at which a fault is detected, or any byte after it.
    Fault(FrameFault),
}

// The decoder's position in the framing.
#[derive(Clone, Copy, Debug)]
enum Phase {
    // The position is in a chunk's size, after `count` digits with the value `size`.
    Size { count: u16, size: u64 },
    // The position is in the rest of a chunk's line, after `count` bytes of the line.
    Extension { count: u16, size: u64 },
    // The position is after the CR of a chunk's line.
    LineEnd { size: u64 },
    // The position is in a chunk's data, with `left` bytes to come and then a CR.
    Data { left: u64 },
    // The position is after the CR that follows a chunk's data.
    DataEnd,
    // The position is in the trailer lines, after `used` bytes of them; `begun`: inside a line.
    Trailer { used: u16, begun: bool },
    // The position is after the CR of a trailer line.
    TrailerEnd { used: u16 },
    // The position is after the CR of the empty line that ends the body.
    End,
    Closed,
    Failed(FrameFault),
}

const START: Phase = Phase::Size { count: 0, size: 0 };

/// The state of a decoder of one chunked body (RFC 9112 section 7.1).
#[derive(Clone, Copy, Debug)]
pub struct ChunkState {
    phase: Phase,
}

impl ChunkState {
    /// Creates a decoder that has read no byte.
    pub fn new() -> ChunkState
        ensures { ChunkRepresents result [] [] }
    {
        ChunkState { phase: START }
    }

    /// Reads one byte and returns its role. A fault is returned at the first byte at which it is
    /// detected.
    pub fn step(&mut self, byte: u8) -> ChunkOut
        // Let w be the bytes so far, and `body` their data: what each result means, and when each
        // fault occurs.
        ensures steps { (w body : List ℕ) → ChunkRepresents self.old w body
            → ChunkSteps self.new w body byte result }

        // The byte is data if and only if `remaining` was not 0 before the step.
        ensures data { OutWith (remaining_of self.old) result }

        // After the end or a fault, every step returns the same result and changes nothing.
        ensures again { IfSome (end_of self.old) (λ out. (result ≡ out) × (self.new ≡ self.old)) }
    {
        let (phase, out) = self.phase.after(byte);
        self.phase = phase;
        out
    }

    /// Reads the usual framing before a chunk's data: the previous chunk's CRLF, if any, and a line
    /// with a short size and no extension. Returns the number of bytes read. If `piece` begins with
    /// anything else, returns 0 and changes nothing.
    #[inline(always)]
    pub fn next_chunk(&mut self, piece: &[u8]) -> usize
        // The bytes read are framing and no data; every prefix of them leaves an open body.
        ensures passes { (w body : List ℕ) → ChunkRepresents self.old w body
            → PassesFraming self.new w body piece.now result }
        // If any byte was read, the next one is data.
        ensures ahead { 0 < result → 0 < remaining_of self.new }
        ensures none { result ≡ 0 → self.new ≡ self.old }
        ensures within { result ≤ length piece.now }
    {
        let Some(start) = self.phase.line_start(piece) else {
            return 0;
        };
        let Some(line) = plain_line(piece, start) else {
            return 0;
        };
        self.phase = Phase::Data { left: line.size };
        line.end
    }

    /// Returns how many of the next bytes are data: 0 in the framing, at the end and after a fault.
    pub fn remaining(&self) -> u64
        ensures { result ≡ remaining_of self.now }
    {
        match self.phase {
            Phase::Data { left } => left,
            _ => 0,
        }
    }

    /// Skips the next `count` bytes, all of them data, with the effect of `count` steps. `count` is
    /// at most [`ChunkState::remaining`].
    pub fn pass(&mut self, count: u64)
        requires remaining { count ≤ remaining_of self.old }
        // The skipped bytes p are added to the bytes so far (w) and to their data.
        ensures passes { (w body p : List ℕ) → length p ≡ count → ChunkRepresents self.old w body
            → ChunkRepresents self.new (w ++ p) (body ++ p) }

        // Every prefix of the skipped bytes leaves an open body.
        ensures fronts { (w body p : List ℕ) (k : ℕ) → length p ≡ count → k ≤ count
            → ChunkRepresents self.old w body → IsOpen (w ++ take k p) (body ++ take k p) }
        ensures remaining { remaining_of self.new + count ≡ remaining_of self.old }

        // The state after the end of the body, or after a fault, is unchanged.
        ensures end { end_of self.new ≡ end_of self.old }
    {
        if let Phase::Data { left } = self.phase {
            self.phase = Phase::Data { left: left - count };
        }
    }
}

impl Default for ChunkState {
    ghost is_default = { λ s. ChunkRepresents s [] [] };

    fn default() -> ChunkState {
        ChunkState::new()
    }
}

impl Phase {
    // Returns the offset in `piece` at which a chunk's line begins: 0, or 2 after a CRLF.
    #[inline(always)]
    fn line_start(self, piece: &[u8]) -> Option<usize>
        ensures passes { IfSome result (λ start. (w body : List ℕ)
            → ChunkRepresents (state_at self) w body
            → PassesFraming (state_at (Phase.Size 0 0)) w body piece.now start) }
        ensures within { IfSome result (λ start. start ≤ length piece.now) }
    {
        match self {
            Phase::Size { count: 0, size: 0 } => Some(0),
            Phase::Data { left: 0 } => {
                if piece.len() >= 2 && piece[0] == b'\r' && piece[1] == b'\n' {
                    Some(2)
                } else {
                    None
                }
            }
            _ => None,
        }
    }

    // Returns the phase after one more byte, and the byte's role.
    fn after(self, byte: u8) -> (Phase, ChunkOut)
        ensures steps { (x d : List ℕ) → PhaseRepresents self x d
            → PhaseSteps result.0 x d byte result.1 }
        ensures data { OutWith (remaining_at self) result.1 }
        ensures again { IfSome (end_at self) (λ out. (result.0 ≡ self) × (result.1 ≡ out)) }
    {
        match self {
            Phase::Size { count, size } => after_size(count, size, byte),
            Phase::Extension { count, size } => after_extension(count, size, byte),
            Phase::LineEnd { size } => after_line(size, byte),
            Phase::Data { left } => after_data(left, byte),
            Phase::DataEnd => after_data_cr(byte),
            Phase::Trailer { used, begun } => after_trailer(used, begun, byte),
            Phase::TrailerEnd { used } => after_trailer_cr(used, byte),
            Phase::End => after_end_cr(byte),
            Phase::Closed => (Phase::Closed, ChunkOut::Closed),
            Phase::Failed(fault) => fail(fault),
        }
    }
}

// A chunk's line without an extension: the offset after its CRLF, and the size.
#[derive(Clone, Copy)]
struct PlainLine {
    end: usize,
    size: u64,
}

// Reads a chunk's line at `start` that has no extension and a size above 0, with all digits before
// offset `MAX_PLAIN_LINE`.
#[inline(always)]
fn plain_line(piece: &[u8], start: usize) -> Option<PlainLine>
    requires { start ≤ length piece.now }
    ensures passes { IfSome result (λ line. (w body : List ℕ)
        → PassesFraming (state_at (Phase.Size 0 0)) w body piece.now start
        → PassesFraming (state_at (Phase.Data line.size)) w body piece.now line.end) }
    ensures some { IfSome result (λ line. 0 < line.size) }
    ensures within { IfSome result (λ line. (0 < line.end) × (line.end ≤ length piece.now)) }
{
    let most = piece.len().min(MAX_PLAIN_LINE);
    let mut at = start;
    let mut size = 0;
    while at < most {
        let Some(digit) = digit_of(piece[at]) else {
            break;
        };
        size = size * 16 + u64::from(digit);
        at += 1;
    }
    if size > 0 && piece.len() - at >= 2 && piece[at] == b'\r' && piece[at + 1] == b'\n' {
        Some(PlainLine { end: at + 2, size })
    } else {
        None
    }
}

#[inline(always)]
fn digit_of(byte: u8) -> Option<u8>
    ensures { IfSome result (λ digit. (digit_value byte ≡ digit) × (digit < 16)) }
{
    match byte {
        b'0'..=b'9' => Some(byte - b'0'),
        b'a'..=b'f' => Some(byte - b'a' + 10),
        b'A'..=b'F' => Some(byte - b'A' + 10),
        _ => None,
    }
}

fn after_size(count: u16, size: u64, byte: u8) -> (Phase, ChunkOut)
    ensures steps { (x d : List ℕ) → PhaseRepresents (Phase.Size count size) x d
        → PhaseSteps result.0 x d byte result.1 }
    ensures data { OutWith 0 result.1 }
{
    if byte == b'\r' && count > 0 {
        return (Phase::LineEnd { size }, ChunkOut::Quiet);
    }
    if count >= MAX_CHUNK_LINE {
        return fail(FrameFault::ChunkLineTooLong);
    }
    match byte {
        b'0'..=b'9' => after_digit(count, size, byte, byte - b'0'),
        b'A'..=b'F' => after_digit(count, size, byte, byte - b'A' + 10),
        b'a'..=b'f' => after_digit(count, size, byte, byte - b'a' + 10),
        b';' | b' ' | b'\t' if count > 0 => (
            Phase::Extension {
                count: count + 1,
                size,
            },
            ChunkOut::Quiet,
        ),
        _ => fail(FrameFault::BadChunkLine),
    }
}

// Returns the phase after a digit of a chunk's size, in a line with room for one more byte.
fn after_digit(count: u16, size: u64, byte: u8, digit: u8) -> (Phase, ChunkOut)
    requires digit { (digit_value byte ≡ digit) × (digit < 16) }
    requires remaining { count < MAX_CHUNK_LINE }
    ensures steps { (x d : List ℕ) → PhaseRepresents (Phase.Size count size) x d
        → PhaseSteps result.0 x d byte result.1 }
    ensures data { OutWith 0 result.1 }
{
    if size > u64::MAX >> 4 {
        return fail(FrameFault::ChunkTooLarge);
    }
    let phase = Phase::Size {
        count: count + 1,
        size: size * 16 + u64::from(digit),
    };
    (phase, ChunkOut::Quiet)
}

fn after_extension(count: u16, size: u64, byte: u8) -> (Phase, ChunkOut)
    ensures steps { (x d : List ℕ) → PhaseRepresents (Phase.Extension count size) x d
        → PhaseSteps result.0 x d byte result.1 }
    ensures data { OutWith 0 result.1 }
{
    if byte == b'\r' {
        return (Phase::LineEnd { size }, ChunkOut::Quiet);
    }
    if count >= MAX_CHUNK_LINE {
        return fail(FrameFault::ChunkLineTooLong);
    }
    match byte {
        b'\t' | 0x20..=0x7E | 0x80..=0xFF => (
            Phase::Extension {
                count: count + 1,
                size,
            },
            ChunkOut::Quiet,
        ),
        _ => fail(FrameFault::BadChunkLine),
    }
}

fn after_line(size: u64, byte: u8) -> (Phase, ChunkOut)
    ensures steps { (x d : List ℕ) → PhaseRepresents (Phase.LineEnd size) x d
        → PhaseSteps result.0 x d byte result.1 }
    ensures data { OutWith 0 result.1 }
{
    if byte != b'\n' {
        return fail(FrameFault::BadChunkLine);
    }
    if size == 0 {
        return (
            Phase::Trailer {
                used: 0,
                begun: false,
            },
            ChunkOut::Quiet,
        );
    }
    (Phase::Data { left: size }, ChunkOut::Quiet)
}

fn after_data(left: u64, byte: u8) -> (Phase, ChunkOut)
    ensures steps { (x d : List ℕ) → PhaseRepresents (Phase.Data left) x d
        → PhaseSteps result.0 x d byte result.1 }
    ensures data { OutWith left result.1 }
{
    if left > 0 {
        return (Phase::Data { left: left - 1 }, ChunkOut::Byte);
    }
    if byte != b'\r' {
        return fail(FrameFault::BadChunkEnd);
    }
    (Phase::DataEnd, ChunkOut::Quiet)
}

fn after_data_cr(byte: u8) -> (Phase, ChunkOut)
    ensures steps { (x d : List ℕ) → PhaseRepresents Phase.DataEnd x d
        → PhaseSteps result.0 x d byte result.1 }
    ensures data { OutWith 0 result.1 }
{
    if byte != b'\n' {
        return fail(FrameFault::BadChunkEnd);
    }
    (START, ChunkOut::Quiet)
}

fn after_trailer(used: u16, begun: bool, byte: u8) -> (Phase, ChunkOut)
    ensures steps { (x d : List ℕ) → PhaseRepresents (Phase.Trailer used begun) x d
        → PhaseSteps result.0 x d byte result.1 }
    ensures data { OutWith 0 result.1 }
{
    match byte {
        b'\r' if !begun => (Phase::End, ChunkOut::Quiet),
        b'\n' if !begun => fail(FrameFault::BadChunkEnd),
        _ if used >= MAX_TRAILERS => fail(FrameFault::TrailersTooLong),
        b'\r' => (Phase::TrailerEnd { used: used + 1 }, ChunkOut::Quiet),
        b'\n' => fail(FrameFault::BadChunkEnd),
        _ => (
            Phase::Trailer {
                used: used + 1,
                begun: true,
            },
            ChunkOut::Quiet,
        ),
    }
}

fn after_trailer_cr(used: u16, byte: u8) -> (Phase, ChunkOut)
    ensures steps { (x d : List ℕ) → PhaseRepresents (Phase.TrailerEnd used) x d
        → PhaseSteps result.0 x d byte result.1 }
    ensures data { OutWith 0 result.1 }
{
    if used >= MAX_TRAILERS {
        return fail(FrameFault::TrailersTooLong);
    }
    if byte != b'\n' {
        return fail(FrameFault::BadChunkEnd);
    }
    (
        Phase::Trailer {
            used: used + 1,
            begun: false,
        },
        ChunkOut::Quiet,
    )
}

fn after_end_cr(byte: u8) -> (Phase, ChunkOut)
    ensures steps { (x d : List ℕ) → PhaseRepresents Phase.End x d
        → PhaseSteps result.0 x d byte result.1 }
    ensures data { OutWith 0 result.1 }
{
    if byte != b'\n' {
        return fail(FrameFault::BadChunkEnd);
    }
    (Phase::Closed, ChunkOut::Closed)
}

// Returns the phase and result at a byte with a fault, and at every byte after it.
fn fail(fault: FrameFault) -> (Phase, ChunkOut)
    ensures phase { result.0 ≡ Phase.Failed fault }
    ensures answer { result.1 ≡ ChunkOut.Fault fault }
{
    (Phase::Failed(fault), ChunkOut::Fault(fault))
}
