//! Decodes consecutive records from runs of bytes of any size, and reports the end of each record.
//! Used for plain RecordIO, and for the data of a chunked body.

ghost use Rattle.std.specs.Prelude.{◌≡◌, true, false, ◌+◌, ◌^◌, ◌<◌, ◌≤◌, ℕ, List, [], ◌++◌, length, IfOk, IfErr, OnOk, take};
ghost use Rattle.mes_frame.specs.Record.{Begun};
ghost use Rattle.mes_frame.specs.RecordState.{RecordStands, limit_of, remaining_of};
ghost use Rattle.mes_stream.specs.Stream.{Records, EndsInside, saturated};
ghost use Rattle.mes_stream.specs.Decoders.{HoldsInBody};
ghost use Rattle.mes_stream.specs.Framings.{GoesBefore};
ghost use Rattle.mes_stream.specs.Held.{held_by_body};
ghost use Rattle.mes_stream.specs.Refusals.{fault_at_record};
ghost use Rattle.mes_stream.specs.Taking.{BodyRepresents, Fronts, IsWithin, Reports, Ends, EndsInto};
ghost use Rattle.mes_stream.specs.declared.stream_reader.Framing.TheVariants as framing;

use crate::packed_fault::PackedFault;
use crate::record_error::RecordError;
use crate::record_reader::RecordReader;
use crate::step::{Decoded, Step};
use mes_frame::{FrameFault, Limit, RecordOut, RecordState};
use mes_json::NoMemoryAt;

/// Decodes consecutive records; `R` decodes their data.
#[derive(Drop)]
pub struct Body<R> {
    records: RecordState,
    reader: R,
    // The number of complete records; it stays at 2^64 - 1.
    done: u64,
}

// The beginning of a run of bytes: bytes of a size line, data of a record, the end of a record
// without data, or a byte that is invalid in a size line there.
#[derive(Drop)]
enum Front {
    Size { count: usize },
    Data { count: usize, last: bool },
    Empty,
    Bad(FrameFault),
}

impl<R: RecordReader> Body<R> {
    /// Returns a body before its first byte.
    pub fn new(reader: R, limit: Limit) -> Body<R>
        requires { R.holds reader [] }
        ensures represents { BodyRepresents R.holds R.spells 0 result [] [] }
        ensures limit { limit_of result.records ≡ limit }
    {
        Body::following(reader, limit, 0)
    }

    /// Like [`new`](Self::new), but `done` records precede the body: the numbers of its records
    /// continue after those.
    pub fn following(reader: R, limit: Limit, done: u64) -> Body<R>
        requires { R.holds reader [] }
        // The state before the first byte, after `done` records.
        ensures represents { (ahead : ℕ) → done ≡ saturated ahead
            → BodyRepresents R.holds R.spells ahead result [] [] }
        ensures limit { limit_of result.records ≡ limit }
    {
        Body {
            records: RecordState::new(limit),
            reader,
            done,
        }
    }

    /// Returns whether no record is incomplete.
    pub fn between(&self) -> bool
        // If true: the bytes are complete records.
        ensures whole { (ahead : ℕ) (b : List ℕ) (values : List R.Value)
            → BodyRepresents R.holds R.spells ahead self.now b values → result ≡ true
            → Records R.spells (limit_of self.now.records) b values }
        // If false: the bytes end inside a record.
        ensures inside { (ahead : ℕ) (b : List ℕ) (values : List R.Value)
            → BodyRepresents R.holds R.spells ahead self.now b values → result ≡ false
            → EndsInside R.spells (limit_of self.now.records) b values }
    {
        self.records.between()
    }

    /// Consumes bytes of a size line, or data of a record, from the start of `run`.
    #[inline(always)]
    pub(crate) fn consume(&mut self, run: &[u8]) -> Step<(), PackedFault>
        requires { 0 < length run.now }
        ensures reports { (ahead : ℕ) (b : List ℕ) (values : List R.Value)
            → BodyRepresents R.holds R.spells ahead self.old b values
            → Reports R.holds R.spells R.breaks ahead framing.Plain
            (BodyRepresents R.holds R.spells ahead) self.new (limit_of self.new.records) b values
            run.now result.used result.out }
        // Before the last byte used: no record ends, and there is no error.
        ensures before { (ahead : ℕ) (b : List ℕ) (values : List R.Value)
            → BodyRepresents R.holds R.spells ahead self.old b values
            → GoesBefore framing.Plain R.spells (limit_of self.new.records) b values run.now
            result.used }
        ensures used { (0 < result.used) × (result.used ≤ length run.now) }
        ensures limit { limit_of self.new.records ≡ limit_of self.old.records }
    {
        match front_of(&mut self.records, run) {
            Front::Size { count } => Step::more(count),
            Front::Bad(fault) => Step {
                used: 1,
                out: Decoded::Fault(PackedFault::frame(fault)),
            },
            Front::Empty => {
                self.done = self.done.saturating_add(1);
                let why = self.reader.empty_record_error();
                Step {
                    used: 1,
                    out: Decoded::Fault(self.refused(why)),
                }
            }
            Front::Data { count, last } => match self.reader.push_run(&run[..count]) {
                Err(refused) => Step::no_memory(refused),
                Ok(()) => Step {
                    used: count,
                    out: if last {
                        Decoded::Event(())
                    } else {
                        Decoded::More
                    },
                },
            },
        }
    }

    /// Returns how many of the next bytes are data of the record: 0 in a size line and after an
    /// error.
    pub(crate) fn remaining(&self) -> usize
        ensures { result ≡ remaining_of self.now.records }
    {
        self.records.remaining()
    }

    /// Consumes the bytes `run` of a record's data, which do not end the record.
    pub(crate) fn pass(&mut self, run: &[u8]) -> Result<(), NoMemoryAt>
        requires { length run.now < remaining_of self.old.records }
        ensures ok { OnOk result ((ahead : ℕ) (b : List ℕ) (values : List R.Value)
            → BodyRepresents R.holds R.spells ahead self.old b values
            → BodyRepresents R.holds R.spells ahead self.new (b ++ run.now) values) }
        // On an error: an allocation failed at the byte after `taken` bytes of `run`.
        ensures err { IfErr result (λ refused. 0 < length run.now
            → refused.taken < length run.now) }
        ensures begins { (r : List ℕ) → R.holds self.old.reader r
            → IfErr result (λ refused. R.breaks (r
            ++ take (refused.taken + 1) run.now) RecordError.NoMemory) }
        ensures limit { limit_of self.new.records ≡ limit_of self.old.records }
    {
        let _ended = self.records.pass(run.len());
        self.reader.push_run(run)
    }

    /// Consumes the bytes `run` of a line.
    pub(crate) fn push(&mut self, run: &[u8]) -> Result<(), NoMemoryAt>
        ensures ok { OnOk result ((r : List ℕ) → R.holds self.old.reader r
            → R.holds self.new.reader (r ++ run.now)) }
        // On an error: an allocation failed at the byte after `taken` bytes of `run`.
        ensures err { IfErr result (λ refused. refused.taken < length run.now) }
        ensures begins { (r : List ℕ) → R.holds self.old.reader r
            → IfErr result (λ refused. R.breaks (r
            ++ take (refused.taken + 1) run.now) RecordError.NoMemory) }
        ensures same { (self.new.records ≡ self.old.records) × (self.new.done ≡ self.old.done) }
    {
        if run.is_empty() {
            return Ok(());
        }
        self.reader.push_run(run)
    }

    /// Returns the value of the record that ended, or the reason for which it has none.
    pub(crate) fn end_record(&mut self) -> Result<R::Value, RecordError>
        ensures ends { (r : List ℕ) → R.holds self.old.reader r → length r < 2 ^ 64
            → Ends R.holds R.spells R.breaks self.old self.new r result }
        ensures records { self.new.records ≡ self.old.records }
    {
        self.done = self.done.saturating_add(1);
        self.reader.finish()
    }

    /// Like [`end_record`](Self::end_record), but appends the value to a list.
    pub(crate) fn end_record_into(&mut self, values: &mut Vec<R::Value>) -> Result<(), RecordError>
        ensures ends { (r : List ℕ) → R.holds self.old.reader r → length r < 2 ^ 64
            → EndsInto R.holds R.spells R.breaks self.old self.new r values.old.items
            values.new.items result }
        ensures records { self.new.records ≡ self.old.records }
    {
        self.done = self.done.saturating_add(1);
        self.reader.finish_into(values)
    }

    /// Returns the number of buffered bytes of the incomplete record.
    pub fn held(&self) -> u64
        ensures count { result ≡ held_by_body R.kept self.now }
        // The bound: what `reader` may buffer of the incomplete record.
        ensures most { (ahead : ℕ) (b : List ℕ) (values : List R.Value)
            → BodyRepresents R.holds R.spells ahead self.now b values
            → HoldsInBody R.spells R.max_held (limit_of self.now.records) b values result }
    {
        self.reader.held()
    }

    /// Returns the number of buffered bytes of the incomplete line.
    pub(crate) fn held_of_line(&self) -> u64
        ensures count { result ≡ held_by_body R.kept self.now }
        // The bound: what `reader` may buffer of the incomplete line.
        ensures most { (r : List ℕ) → R.holds self.now.reader r → result ≤ R.max_held r }
    {
        self.reader.held()
    }

    /// Frees the buffers.
    pub(crate) fn release(&mut self)
        ensures { held_by_body R.kept self.new ≡ 0 }
    {
        self.reader.release();
    }

    /// Returns the error for the record that ended without a value.
    pub(crate) fn refused(&self, why: RecordError) -> PackedFault
        ensures { result ≡ fault_at_record self.now.done why }
    {
        PackedFault::of_record(self.done, why)
    }
}

// Determines what `run` begins with, and advances `records` past those bytes.
#[inline(always)]
fn front_of(records: &mut RecordState, run: &[u8]) -> Front
    requires { 0 < length run.now }
    ensures fronts { (x r : List ℕ) → RecordStands records.old x r
        → Fronts records.new x r run.now result }
    ensures limit { limit_of records.new ≡ limit_of records.old }
    ensures within { IsWithin (length run.now) result }
{
    let remaining = records.remaining().min(run.len());
    if remaining > 0 {
        let last = records.pass(remaining);
        return Front::Data {
            count: remaining,
            last,
        };
    }
    match records.step(run[0]) {
        RecordOut::Quiet => Front::Size {
            count: 1 + size_run(records, &run[1..]),
        },
        RecordOut::Byte { last } => Front::Data { count: 1, last },
        RecordOut::Empty => Front::Empty,
        RecordOut::Fault(fault) => Front::Bad(fault),
    }
}

// Consumes the bytes of a size line at the start of `run`, and returns their number.
fn size_run(records: &mut RecordState, run: &[u8]) -> usize
    ensures represents { (x r : List ℕ) → RecordStands records.old x r
        → RecordStands records.new (x ++ take result run.now) r }
    ensures begun { (x r : List ℕ) → RecordStands records.old x r
        → (n : ℕ) → n ≤ result → Begun (x ++ take n run.now) r (limit_of records.new) }
    ensures limit { limit_of records.new ≡ limit_of records.old }
    ensures within { result ≤ length run.now }
{
    let mut count = 0;
    while count < run.len() && records.remaining() == 0 {
        let mut next = *records;
        match next.step(run[count]) {
            RecordOut::Quiet => {}
            RecordOut::Byte { .. } | RecordOut::Empty | RecordOut::Fault(_) => return count,
        }
        *records = next;
        count += 1;
    }
    count
}
