//! Decodes a stream read by read, and counts the bytes used. `read_loop.rt` makes the reads.

ghost use Rattle.std.specs.Prelude.{◌≡◌, ◌+◌, ◌<◌, ◌≤◌, ℕ, List, [], ◌++◌, length, IfErr};
ghost use Rattle.mes_stream.specs.Decoders.{HoldsIn};
ghost use Rattle.mes_stream.specs.Held.{held_by_reading};
ghost use Rattle.mes_stream.specs.LineRecord.{line_feeds_in};
ghost use Rattle.mes_stream.specs.Reading.{Ahead, FinishMeans, InputMeans, ReadingRepresents, ReadingRepresentsAfter, ReadingTakesAfter, ReadingTakesRecord, EndsWithin, MeansAfter, Collects, GathersLast};
ghost use Rattle.mes_stream.specs.RecordValues.{IsRefused};
ghost use Rattle.mes_stream.specs.Stream.{saturated};
ghost use Rattle.mes_stream.specs.StreamReaders.{KeepsNoneAfterStop};
ghost use Rattle.mes_stream.specs.declared.stream_reader.Framing.{Framing as FramingValue};
ghost use Rattle.mes_stream.specs.declared.stream_reader.Framing.TheVariants.{Lines};

use crate::fault::{Fault, Report, Stop};
use crate::limits::{MAX_READ, MAX_REST};
use crate::packed_fault::PackedFault;
use crate::read_loop::{Consumer, ReadsEnd};
use crate::record_reader::RecordReader;
use crate::step::{Decoded, Step};
use crate::stream_reader::{Framing, StreamReader};
use arrayvec::ArrayVec;
use mes_frame::Limit;
use std::mem;

/// Decodes a stream of any framing, and counts the bytes used.
#[derive(Drop)]
pub struct Reading<R> {
    stream: StreamReader<R>,
    used: u64,
    // The bytes of the last piece after the end of the stream.
    rest: ArrayVec<u8, MAX_REST>,
}

/// The reason for which a [`Reading`] stopped. The type is small, because each call returns a
/// value of it; [`Reading::outcome`] returns the full report.
#[derive(Drop)]
pub enum ReadingStop {
    /// A byte of the piece ended the stream.
    Ended,
    /// An error was detected at a byte of the piece, or an allocation failed there.
    Fault(PackedFault),
}

/// A complete record.
#[derive(Drop)]
pub struct EndedRecord<V> {
    /// The value of the record.
    pub value: V,
    /// The number of bytes of the piece used, up to and including the record's last byte.
    pub used: usize,
}

impl<R: RecordReader> Reading<R> {
    /// Returns a reading before the first byte; `records` decodes the records.
    pub fn new(framing: Framing, records: R, limit: Limit) -> Reading<R>
        requires { R.holds records [] }
        ensures { ReadingRepresents R.holds R.spells result framing limit [] [] }
    {
        Reading::following(framing, records, limit, 0, 0)
    }

    /// Like [`new`](Self::new), but `done` records in `used` bytes precede the stream. Record
    /// numbers and byte counts continue after those.
    pub fn following(framing: Framing, records: R, limit: Limit, done: u64, used: u64) -> Reading<R>
        requires { R.holds records [] }
        // The state before the first byte, after `done` records in `used` bytes.
        ensures { (ahead : Ahead) → done ≡ saturated ahead.records → used ≡ saturated ahead.bytes
            → ReadingRepresentsAfter R.holds R.spells ahead result framing limit [] [] }
    {
        Reading {
            stream: StreamReader::following(framing, records, limit, done),
            used,
            rest: ArrayVec::new(),
        }
    }

    /// Returns the number of bytes used, including those before the stream. After the end or an
    /// error: up to the byte at which it was detected.
    pub fn used(&self) -> u64
        ensures count { result ≡ self.now.used }
        // The count: all bytes so far, or 2^64 - 1 if there are more.
        ensures taken { (ahead : Ahead) (framing : FramingValue) (limit : ℕ) (w : List ℕ)
            (values : List R.Value) → ReadingRepresentsAfter R.holds R.spells ahead self.now framing
            limit w values
            → result ≡ saturated (ahead.bytes + length w) }
    {
        self.used
    }

    /// Returns the number of buffered bytes of an incomplete record: 0 after the end or an error.
    pub fn held(&self) -> u64
        ensures count { result ≡ held_by_reading R.kept self.now }
        // The bound: what the reader of records may buffer of the incomplete record.
        ensures most { (ahead : Ahead) (framing : FramingValue) (limit : ℕ) (w : List ℕ)
            (values : List R.Value) → ReadingRepresentsAfter R.holds R.spells ahead self.now framing
            limit w values
            → HoldsIn framing R.spells R.max_held limit w values result }
    {
        self.stream.held()
    }

    /// Returns the number of line feeds of JSON Lines so far, or 2^64 - 1 if there are more. The
    /// result is unspecified for other framings, and after an error.
    pub fn line_feeds(&self) -> u64
        ensures { (ahead : Ahead) (limit : ℕ) (w : List ℕ) (values : List R.Value)
            → ReadingRepresentsAfter R.holds R.spells ahead self.now Lines limit w values
            → result ≡ saturated (line_feeds_in w) }
    {
        self.stream.line_feeds()
    }

    /// Decodes one read up to the end of a record. Returns `Ok(None)` if no record ends in it.
    /// Returns `Err` once the stream has ended or has an error; no bytes may be given after that.
    pub fn next(&mut self, piece: &[u8]) -> Result<Option<EndedRecord<R::Value>>, ReadingStop>
        requires { length piece.now ≤ MAX_READ }
        // On success: a record ended, or the whole piece was used. Then: when each error is
        // returned.
        ensures reads { (ahead : Ahead) (framing : FramingValue) (limit : ℕ) (w : List ℕ)
            (values : List R.Value) → ReadingRepresentsAfter R.holds R.spells ahead self.old framing
            limit w values
            → ReadingTakesRecord R.holds R.spells R.breaks ahead self.new framing limit w values
            piece.now result }
        ensures within { EndsWithin (length piece.now) result }
        // After the end or an error: nothing is buffered.
        ensures kept { KeepsNoneAfterStop (held_by_reading R.kept self.new) result }
    {
        let Step { used, out } = self.stream.next(piece);
        self.used = self.used.saturating_add(used as u64);
        match out {
            Decoded::More => Ok(None),
            Decoded::Event(value) => Ok(Some(EndedRecord { value, used })),
            Decoded::End => {
                self.keep_rest(&piece[used..]);
                Err(ReadingStop::Ended)
            }
            Decoded::Fault(fault) => Err(ReadingStop::Fault(fault)),
        }
    }

    /// Decodes one read, and appends the values of the records that end in it. Returns `Err` once
    /// the stream has ended or has an error; no bytes may be given after that.
    pub fn feed(&mut self, piece: &[u8], values: &mut Vec<R::Value>) -> Result<(), ReadingStop>
        requires { length piece.now ≤ MAX_READ }
        // On success: the whole piece was used. Then: when each error is returned; the values
        // before the error are appended.
        ensures takes { (ahead : Ahead) (framing : FramingValue) (limit : ℕ) (w : List ℕ)
            (before : List R.Value) → ReadingRepresentsAfter R.holds R.spells ahead self.old framing
            limit w before
            → ReadingTakesAfter R.holds R.spells (IsRefused R.spells R.breaks) ahead self.new
            framing limit w before piece.now values.old.items values.new.items result }
        // The byte that ended the stream, or the byte of the error, is in the piece.
        ensures within { (ahead : Ahead) (framing : FramingValue) (limit : ℕ) (w : List ℕ)
            (before : List R.Value) → ReadingRepresentsAfter R.holds R.spells ahead self.old framing
            limit w before
            → IfErr result (λ stop. saturated (ahead.bytes + length w + 1) ≤ self.new.used) }
        // After the end or an error: nothing is buffered.
        ensures kept { KeepsNoneAfterStop (held_by_reading R.kept self.new) result }
    {
        let Step { used, out } = self.stream.feed(piece, values);
        self.used = self.used.saturating_add(used as u64);
        match out {
            Decoded::More => Ok(()),
            Decoded::End => {
                self.keep_rest(&piece[used..]);
                Err(ReadingStop::Ended)
            }
            Decoded::Fault(fault) => Err(ReadingStop::Fault(fault)),
        }
    }

    /// Returns the report for `end`, the way in which the reads ended, and frees the buffers. No
    /// bytes may be given after that.
    pub fn outcome(&mut self, end: ReadsEnd<ReadingStop>) -> Result<Report, Stop>
        ensures means { (ahead : Ahead) → MeansAfter R.holds R.spells ahead self.old end result }
        ensures used { self.new.used ≡ self.old.used }
        ensures kept { held_by_reading R.kept self.new ≡ 0 }
    {
        let used = self.used;
        let finished = self.stream.finish();
        self.stream.release();
        match end {
            ReadsEnd::Stopped(ReadingStop::Ended) => Ok(Report {
                used,
                rest: mem::replace(&mut self.rest, ArrayVec::new()),
            }),
            ReadsEnd::Stopped(ReadingStop::Fault(fault)) => Err(stop_at(fault.into_fault(), used)),
            ReadsEnd::AtEnd => match finished {
                Ok(()) => Ok(Report {
                    used,
                    rest: ArrayVec::new(),
                }),
                Err(fault) => Err(stop_at(fault, used)),
            },
            ReadsEnd::Failed => Err(stop_at(Fault::Read, used)),
            ReadsEnd::Spent => Err(stop_at(Fault::ReadsSpent, used)),
        }
    }

    /// Like [`outcome`](Self::outcome), but if the input ended, the end of JSON Lines ends the last
    /// line, like a LF that is not counted. Appends the value of that line.
    pub fn finish(
        &mut self,
        end: ReadsEnd<ReadingStop>,
        values: &mut Vec<R::Value>,
    ) -> Result<Report, Stop>
        ensures means { FinishMeans R.holds R.spells (IsRefused R.spells R.breaks) self.old end
            values.old.items values.new.items result }
        ensures used { self.new.used ≡ self.old.used }
        ensures kept { held_by_reading R.kept self.new ≡ 0 }
    {
        match end {
            ReadsEnd::AtEnd => self.end_input(values),
            end => self.outcome(end),
        }
    }

    // Reports the end of the input, and frees the buffers. Appends the value of the last line.
    fn end_input(&mut self, values: &mut Vec<R::Value>) -> Result<Report, Stop>
        ensures means { (ahead : Ahead) (framing : FramingValue) (limit : ℕ) (w : List ℕ)
            (before : List R.Value) → ReadingRepresentsAfter R.holds R.spells ahead self.old framing
            limit w before
            → (more : List R.Value) × (values.new.items ≡ values.old.items ++ more)
            × InputMeans framing R.spells (IsRefused R.spells R.breaks) ahead limit w
            (before ++ more) result }
        ensures used { self.new.used ≡ self.old.used }
        ensures kept { held_by_reading R.kept self.new ≡ 0 }
    {
        let used = self.used;
        let ended = self.stream.end_input(values);
        self.stream.release();
        match ended {
            Ok(()) => Ok(Report {
                used,
                rest: ArrayVec::new(),
            }),
            Err(fault) => Err(stop_at(fault, used)),
        }
    }

    // Retains the bytes of the piece after the end of the stream.
    fn keep_rest(&mut self, rest: &[u8])
        requires { length rest.now ≤ MAX_REST }
        ensures rest { self.new.rest.items ≡ rest.now }
        ensures stream { self.new.stream ≡ self.old.stream }
        ensures used { self.new.used ≡ self.old.used }
    {
        let mut kept = ArrayVec::new();
        let _fits = kept.try_extend_from_slice(rest);
        self.rest = kept;
    }
}

/// Appends the decoded values to a list.
impl<R: RecordReader> Consumer<Vec<R::Value>> for Reading<R> {
    type Stop = ReadingStop;

    ghost goes = { λ first start now to w. Collects R.holds R.spells first start.items now to.items
        w };

    ghost stops = { λ first start now to w piece stop. GathersLast R.holds R.spells
        (IsRefused R.spells R.breaks) R.kept first start.items now to.items w piece stop };

    fn consume(&mut self, piece: &[u8], values: &mut Vec<R::Value>) -> Result<(), ReadingStop> {
        self.feed(piece, values)
    }
}

fn stop_at(fault: Fault, used: u64) -> Stop
    ensures { result ≡ record { fault = fault; used = used } }
{
    Stop { fault, used }
}
