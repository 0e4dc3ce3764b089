//! Decodes JSON Lines: each line is a record.

ghost use Rattle.std.specs.Prelude.{◌≡◌, ◌≢◌, ◌+◌, ◌-◌, ◌<◌, ◌≤◌, ℕ, List, [], ◌∷◌, ◌++◌, length, take, slice_index, OnOk, IfErr, true, false};
ghost use Rattle.mes_frame.specs.RecordState.{limit_of};
ghost use Rattle.mes_stream.specs.Framings.{GoesBefore};
ghost use Rattle.mes_stream.specs.JsonLines.{AreLines, EndsInsideLine, LinesStop};
ghost use Rattle.mes_stream.specs.LineBodies.{LineGoes, LineHolds, LineRepresents, LineStep};
ghost use Rattle.mes_stream.specs.LineRecord.{IsLine, IsRecordOf, LineBegun, LineTooLong, line_feeds_in};
ghost use Rattle.mes_stream.specs.Stream.{saturated};
ghost use Rattle.mes_stream.specs.Taking.{BodyRepresents};

use crate::packed_fault::PackedFault;
use crate::record_body::Body;
use crate::record_reader::RecordReader;
use crate::step::{Decoded, Step};
use memchr::memchr;
use mes_frame::{FrameFault, Limit};

/// The line separator (<https://jsonlines.org>).
const LF: u8 = b'\n';

/// Not part of a record directly before [`LF`].
const CR: u8 = b'\r';

/// Decodes JSON Lines; `R` decodes the records. No more pieces may be given after an error.
#[derive(Drop)]
pub struct LineBody<R> {
    limit: Limit,
    // The number of bytes of the line so far, without a CR at its end.
    count: usize,
    // Whether the line so far ends with a CR. The CR is data only if a byte other than LF follows.
    cr: bool,
    // The number of line feeds so far.
    line_feeds: u64,
    pub(crate) body: Body<R>,
}

impl<R: RecordReader> LineBody<R> {
    /// Returns a reader before the first byte.
    pub(crate) fn new(body: Body<R>, limit: Limit) -> LineBody<R>
        requires { limit_of body.records ≡ limit }
        ensures represents { (ahead : ℕ) → BodyRepresents R.holds R.spells ahead body [] []
            → LineRepresents R.holds R.spells ahead result [] [] }
        ensures limit { result.limit ≡ limit }
    {
        LineBody {
            limit,
            count: 0,
            cr: false,
            line_feeds: 0,
            body,
        }
    }

    /// Returns whether the bytes so far are whole lines.
    pub(crate) fn between(&self) -> bool
        // If true: the bytes are whole lines.
        ensures whole { (ahead : ℕ) (b : List ℕ) (values : List R.Value)
            → LineRepresents R.holds R.spells ahead self.now b values → result ≡ true
            → AreLines R.spells self.now.limit b values }
        // If false: the bytes end inside a line.
        ensures inside { (ahead : ℕ) (b : List ℕ) (values : List R.Value)
            → LineRepresents R.holds R.spells ahead self.now b values → result ≡ false
            → EndsInsideLine R.spells self.now.limit b values }
    {
        self.count == 0 && !self.cr
    }

    /// Returns the number of line feeds so far, or 2^64 - 1 if there are more.
    pub(crate) fn line_feeds(&self) -> u64
        ensures { (ahead : ℕ) (b : List ℕ) (values : List R.Value)
            → LineRepresents R.holds R.spells ahead self.now b values
            → result ≡ saturated (line_feeds_in b) }
    {
        self.line_feeds
    }

    /// Consumes a LF, or bytes of one line, from the start of `run`.
    pub(crate) fn consume(&mut self, run: &[u8]) -> Step<(), PackedFault>
        requires { 0 < length run.now }
        ensures reports { LineStep R.holds R.spells R.breaks
            (λ ahead. LineRepresents R.holds R.spells ahead self.old) self.new run.now result.used
            result.out }
        ensures before { LineGoes R.spells (λ ahead. LineRepresents R.holds R.spells ahead self.old)
            self.new.limit run.now result.used }
        ensures used { (0 < result.used) × (result.used ≤ length run.now) }
        ensures limit { self.new.limit ≡ self.old.limit }
    {
        if run[0] == LF {
            return self.end_line();
        }
        if let Err(fault) = self.keep_cr() {
            return Step {
                used: 1,
                out: Decoded::Fault(fault),
            };
        }
        self.take_part(run)
    }

    // Consumes a LF.
    fn end_line(&mut self) -> Step<(), PackedFault>
        ensures reports { (rest : List ℕ) → LineStep R.holds R.spells R.breaks
            (λ ahead. LineRepresents R.holds R.spells ahead self.old) self.new (10 ∷ rest)
            result.used result.out }
        ensures used { result.used ≡ 1 }
        ensures limit { self.new.limit ≡ self.old.limit }
    {
        let is_blank = self.count == 0;
        self.count = 0;
        self.cr = false;
        self.line_feeds = self.line_feeds.saturating_add(1);
        Step {
            used: 1,
            out: if is_blank {
                Decoded::More
            } else {
                Decoded::Event(())
            },
        }
    }

    // Consumes a CR at the end of the line so far as data, because a byte other than LF follows.
    fn keep_cr(&mut self) -> Result<(), PackedFault>
        ensures ok { OnOk result ((ahead : ℕ) (b : List ℕ) (values : List R.Value)
            → LineRepresents R.holds R.spells ahead self.old b values
            → LineHolds R.holds R.spells ahead self.new b values) }
        ensures err { IfErr result (λ fault. (ahead c : ℕ) (b : List ℕ) (values : List R.Value)
            → LineRepresents R.holds R.spells ahead self.old b values → c ≢ 10
            → LinesStop R.spells R.breaks ahead self.new.limit b values c fault) }
        ensures limit { self.new.limit ≡ self.old.limit }
    {
        if !self.cr {
            return Ok(());
        }
        if self.room() == 0 {
            return Err(PackedFault::frame(FrameFault::RecordTooLarge));
        }
        if let Err(_) = self.body.push(&[CR]) {
            return Err(PackedFault::no_memory());
        }
        self.count = self.count.saturating_add(1);
        Ok(())
    }

    // Consumes the bytes of a line up to its LF, or to the end of `run`. All bytes of the line so
    // far are data.
    fn take_part(&mut self, run: &[u8]) -> Step<(), PackedFault>
        requires some { 0 < length run.now }
        requires line { slice_index run.now 0 ≢ 10 }
        ensures reports { LineStep R.holds R.spells R.breaks
            (λ ahead. LineHolds R.holds R.spells ahead self.old) self.new run.now result.used
            result.out }
        ensures before { LineGoes R.spells (λ ahead. LineHolds R.holds R.spells ahead self.old)
            self.new.limit run.now result.used }
        ensures used { (0 < result.used) × (result.used ≤ length run.now) }
        ensures limit { self.new.limit ≡ self.old.limit }
    {
        let line = &run[..line_length(run)];
        let data = &line[..record_length(line)];
        let room = self.room();
        if room < data.len() {
            return Step {
                used: too_long_at(line, room) + 1,
                out: Decoded::Fault(PackedFault::frame(FrameFault::RecordTooLarge)),
            };
        }
        if let Err(refused) = self.body.push(data) {
            return Step::no_memory(refused);
        }
        self.count = self.count.saturating_add(data.len());
        self.cr = data.len() < line.len();
        Step::more(line.len())
    }

    // Returns how many more bytes the record may have.
    fn room(&self) -> usize
        ensures { result ≡ self.now.limit - self.now.count }
    {
        (self.limit.get() as usize).saturating_sub(self.count)
    }
}

// Returns the number of bytes before the first LF.
fn line_length(run: &[u8]) -> usize
    ensures within { result ≤ length run.now }
    ensures line { IsLine (take result run.now) }
    ensures some { 0 < length run.now → slice_index run.now 0 ≢ 10 → 0 < result }
{
    match memchr(LF, run) {
        Some(length) => length,
        None => run.len(),
    }
}

// Returns the number of bytes before a CR at the end.
fn record_length(line: &[u8]) -> usize
    ensures within { (result ≤ length line.now) × (length line.now ≤ result + 1) }
    ensures record { IsRecordOf line.now (take result line.now) }
{
    match line {
        [front @ .., CR] => front.len(),
        _ => line.len(),
    }
}

// Returns the index of the first byte that passes the limit, if the record so far has room for
// `room` more bytes. A CR in the place of that byte may end the line: then it is the next byte.
fn too_long_at(line: &[u8], room: usize) -> usize
    requires { (r : List ℕ) → IsRecordOf line.now r → room < length r }
    ensures within { result < length line.now }
    ensures passes { (x : List ℕ) (limit : ℕ) → length x + room ≡ limit → IsLine (x ++ line.now)
        → LineTooLong (x ++ take result line.now) (slice_index line.now result) limit }
    ensures before { (x : List ℕ) (limit : ℕ) → length x + room ≡ limit → IsLine (x ++ line.now)
        → (n : ℕ) → n ≤ result → LineBegun (x ++ take n line.now) limit }
{
    if line[room] == CR { room + 1 } else { room }
}
