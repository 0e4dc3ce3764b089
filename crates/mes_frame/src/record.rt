//! The decoder of RecordIO records, as a state machine over bytes. The encoder is in
//! `record_writer`, the grammar in `specs/Record.antt`.
#![tactic(auto, unfolding(crate::specs::RecordState::RecordStands))]

ghost use Rattle.std.specs.Prelude.{◌≡◌, ℕ, ◌+◌, ◌<◌, ◌≤◌, ◌↔◌, List, [], ◌++◌, length, take, false, IsTrue, IsSome, IfSome};
ghost use Rattle.std.specs.Char.{digit_value};
ghost use Rattle.mes_frame.specs.Record.{Begun, DataBegun, SizeBegun};
ghost use Rattle.mes_frame.specs.RecordState.{SizeKept, PhaseRepresents, RecordStands, RecordSteps, RecordPasses, OutWith, state_at, limit_of, fault_at, fault_of, remaining_at, remaining_of};

use crate::fault::FrameFault;
use crate::limit::Limit;
use crate::limits::MAX_SIZE_DIGITS;

/// The role of one byte in a stream of records.
#[derive(Clone, Copy, Debug, PartialEq, Eq)]
pub enum RecordOut {
    /// A byte of a size line.
    Quiet,
    /// The LF of a size line with the value 0. The record is whole, without data.
    Empty,
    /// A byte of a record's data; `last`: the record ends with it.
    Byte { last: bool },
    /// The byte at which a fault is detected, or any byte after it.
    Fault(FrameFault),
}

// The decoder's position in a record. A size saturates at 2^32 - 1, which exceeds every limit.
#[derive(Clone, Copy, Debug)]
enum Phase {
    Size { digits: u8, value: u32 },
    Data { left: u32 },
    Failed(FrameFault),
}

const START: Phase = Phase::Size {
    digits: 0,
    value: 0,
};

/// The state of a decoder of consecutive records.
#[derive(Clone, Copy, Debug)]
pub struct RecordState {
    limit: Limit,
    phase: Phase,
}

impl RecordState {
    /// Creates a decoder that has read no byte.
    pub fn new(limit: Limit) -> RecordState
        ensures represents { RecordStands result [] [] }
        ensures limit { limit_of result ≡ limit }
    {
        RecordState {
            limit,
            phase: START,
        }
    }

    /// Reads one byte and returns its role. A fault is returned at the first byte at which it is
    /// detected.
    pub fn step(&mut self, byte: u8) -> RecordOut
        // Let x be the bytes of the current record so far, and r its data so far: what each result
        // means, and when each fault occurs.
        ensures steps { (x r : List ℕ) → RecordStands self.old x r
            → RecordSteps self.new x r byte result }

        // The byte is data if and only if `remaining` was not 0 before the step.
        ensures data { (x r : List ℕ) → RecordStands self.old x r
            → OutWith (remaining_of self.old) result }

        // After a fault, every step returns the same fault and changes nothing.
        ensures again { IfSome (fault_of self.old)
            (λ f. (result ≡ RecordOut.Fault f) × (self.new ≡ self.old)) }

        // The limit is unchanged.
        ensures limit { limit_of self.new ≡ limit_of self.old }
    {
        let (phase, out) = self.phase.after(byte, self.limit);
        self.phase = phase;
        out
    }

    /// Returns whether no byte of the next record has been read. False after a fault.
    pub fn between(&self) -> bool
        // True if and only if x, the bytes of the current record so far, is empty.
        ensures represents { (x r : List ℕ) → RecordStands self.now x r
            → (IsTrue result ↔ (x ≡ [])) }
        ensures failed { IsSome (fault_of self.now) → result ≡ false }
    {
        match self.phase {
            Phase::Size { digits, .. } => digits == 0,
            Phase::Data { .. } => false,
            Phase::Failed(_) => false,
        }
    }

    /// Returns how many of the next bytes are data of the record: 0 in a size line and after a
    /// fault.
    pub fn remaining(&self) -> usize
        ensures value { result ≡ remaining_of self.now }
        // If the result is not 0, the current record needs exactly that many more bytes of data.
        ensures some { (x r : List ℕ) → RecordStands self.now x r → 0 < result
            → DataBegun x r result (limit_of self.now) }
        // If the result is 0, at most a part of a size line has been read.
        ensures none { (x r : List ℕ) → RecordStands self.now x r → result ≡ 0
            → SizeBegun x × (r ≡ []) }
    {
        match self.phase {
            Phase::Data { left } => left as usize,
            Phase::Size { .. } => 0,
            Phase::Failed(_) => 0,
        }
    }

    /// Skips the next `count` bytes, all of them data, with the effect of `count` steps. Returns
    /// whether the record ended. `count` is at most [`RecordState::remaining`].
    pub fn pass(&mut self, count: usize) -> bool
        requires remaining { count ≤ remaining_of self.old }
        // The skipped bytes p are added to the record's bytes x and to its data r.
        ensures passes { (x r p : List ℕ) → length p ≡ count → RecordStands self.old x r
            → RecordPasses self.new x r p result }

        // Every shorter prefix of the skipped bytes leaves an unfinished record.
        ensures fronts { (x r p : List ℕ) (k : ℕ) → length p ≡ count → k < count
            → RecordStands self.old x r → Begun (x ++ take k p) (r
            ++ take k p) (limit_of self.old) }
        ensures remaining { remaining_of self.new + count ≡ remaining_of self.old }
        ensures none { count ≡ 0 → (result ≡ false) × (self.new ≡ self.old) }

        // The limit is unchanged.
        ensures limit { limit_of self.new ≡ limit_of self.old }
    {
        if count == 0 {
            return false;
        }
        let left = match self.phase {
            Phase::Data { left } => left,
            Phase::Size { .. } => unreachable!(),
            Phase::Failed(_) => unreachable!(),
        };
        if left as usize == count {
            self.phase = START;
            return true;
        }
        self.phase = Phase::Data {
            left: left - count as u32,
        };
        false
    }
}

impl Phase {
    // Returns the phase after one more byte, and the byte's role.
    fn after(self, byte: u8, limit: Limit) -> (Phase, RecordOut)
        ensures steps { (x r : List ℕ) → PhaseRepresents self limit x r
            → RecordSteps (state_at limit result.0) x r byte result.1 }
        ensures data { (x r : List ℕ) → PhaseRepresents self limit x r
            → OutWith (remaining_at self) result.1 }
        ensures again { IfSome (fault_at self) (λ f. (result.0 ≡ self)
            × (result.1 ≡ RecordOut.Fault f)) }
    {
        match self {
            Phase::Size { digits, value } => after_size(digits, value, byte, limit),
            Phase::Data { left } => after_data(left),
            Phase::Failed(fault) => fail(fault),
        }
    }
}

fn after_size(digits: u8, value: u32, byte: u8, limit: Limit) -> (Phase, RecordOut)
    ensures steps { (x r : List ℕ) → SizeKept digits value x r
        → RecordSteps (state_at limit result.0) x r byte result.1 }
    ensures data { OutWith 0 result.1 }
{
    match byte {
        b'0'..=b'9' => after_digit(digits, value, byte),
        b'\n' => after_size_line(digits, value, limit),
        _ => fail(FrameFault::BadSizeLine),
    }
}

fn after_digit(digits: u8, value: u32, byte: u8) -> (Phase, RecordOut)
    requires { digit_value byte < 10 }
    ensures steps { (x r : List ℕ) (limit : ℕ) → SizeKept digits value x r
        → RecordSteps (state_at limit result.0) x r byte result.1 }
    ensures data { OutWith 0 result.1 }
{
    if digits >= MAX_SIZE_DIGITS {
        return fail(FrameFault::SizeLineTooLong);
    }
    let digit = u32::from(byte - b'0');
    let phase = Phase::Size {
        digits: digits + 1,
        value: value.saturating_mul(10).saturating_add(digit),
    };
    (phase, RecordOut::Quiet)
}

fn after_size_line(digits: u8, value: u32, limit: Limit) -> (Phase, RecordOut)
    ensures steps { (x r : List ℕ) → SizeKept digits value x r
        → RecordSteps (state_at limit result.0) x r 10 result.1 }
    ensures data { OutWith 0 result.1 }
{
    if digits == 0 {
        return fail(FrameFault::BadSizeLine);
    }
    if limit.get() < value {
        return fail(FrameFault::RecordTooLarge);
    }
    if value == 0 {
        return (START, RecordOut::Empty);
    }
    (Phase::Data { left: value }, RecordOut::Quiet)
}

fn after_data(left: u32) -> (Phase, RecordOut)
    ensures steps { (x r : List ℕ) (limit byte : ℕ) → DataBegun x r left limit
        → RecordSteps (state_at limit result.0) x r byte result.1 }
    ensures data { 0 < left → OutWith left result.1 }
{
    if left <= 1 {
        return (START, RecordOut::Byte { last: true });
    }
    (
        Phase::Data { left: left - 1 },
        RecordOut::Byte { last: false },
    )
}

// Returns the phase and result at a byte with a fault, and at every byte after it.
fn fail(fault: FrameFault) -> (Phase, RecordOut)
    ensures phase { result.0 ≡ Phase.Failed fault }
    ensures answer { result.1 ≡ RecordOut.Fault fault }
{
    (Phase::Failed(fault), RecordOut::Fault(fault))
}
