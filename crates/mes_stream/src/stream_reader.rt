//! Decodes a stream of any framing in pieces of any size.

ghost use Rattle.std.specs.Prelude.{◌≡◌, ◌≢◌, ℕ, ◌^◌, ◌<◌, ◌≤◌, List, [], ◌++◌, length};
ghost use Rattle.mes_stream.specs.Decoders.{HoldsIn};
ghost use Rattle.mes_stream.specs.Framings.{EndsInput, InputEnds, SaysIn, GoesBefore};
ghost use Rattle.mes_stream.specs.Held.{held_by_stream};
ghost use Rattle.mes_stream.specs.LineRecord.{line_feeds_in};
ghost use Rattle.mes_stream.specs.RecordValues.{IsRefused};
ghost use Rattle.mes_stream.specs.Refusals.{fault_at_record};
ghost use Rattle.mes_stream.specs.Stream.{saturated};
ghost use Rattle.mes_stream.specs.StreamReaders.{StreamRepresents, StreamFeeds, KeepsNoneAfterAnswer, body_of, with_body};
ghost use Rattle.mes_stream.specs.Taking.{Ends, EndsInto, Reports};
ghost use Rattle.mes_stream.specs.declared.stream_reader.Framing.{Framing as FramingValue};
ghost use Rattle.mes_stream.specs.declared.stream_reader.Framing.TheVariants.{Lines};

use crate::chunked_body::ChunkedBody;
use crate::fault::Fault;
use crate::line_body::LineBody;
use crate::packed_fault::PackedFault;
use crate::record_body::Body;
use crate::record_error::RecordError;
use crate::record_reader::RecordReader;
use crate::step::{Decoded, Step};
use mes_frame::Limit;
use std::convert::Infallible;

/// The framing of the records of a stream.
#[derive(Clone, Copy, Debug, PartialEq, Eq)]
pub enum Framing {
    /// Consecutive records up to the end of the input: plain RecordIO.
    Plain,
    /// Records in a chunked body, whose last chunk ends the stream.
    Chunked,
    /// JSON Lines (<https://jsonlines.org>): each line is a record, without its LF, and without a
    /// CR directly before the LF. A line with an empty record is passed over.
    Lines,
}

/// Decodes a stream of any framing in pieces of any size. After the end or an error no more
/// pieces may be given.
#[derive(Drop)]
pub enum StreamReader<R> {
    /// Decodes plain RecordIO.
    Plain(Body<R>),
    /// Decodes a chunked stream.
    Chunked(ChunkedBody<R>),
    /// Decodes JSON Lines.
    Lines(LineBody<R>),
}

impl<R: RecordReader> StreamReader<R> {
    /// Returns a reader before the first byte; `reader` decodes the records.
    pub fn new(framing: Framing, reader: R, limit: Limit) -> StreamReader<R>
        requires { R.holds reader [] }
        ensures represents { StreamRepresents R.holds R.spells 0 result framing limit [] [] }
    {
        StreamReader::following(framing, reader, limit, 0)
    }

    /// Like [`new`](Self::new), but `done` records precede the stream: the numbers of its records
    /// continue after those.
    pub fn following(framing: Framing, reader: R, limit: Limit, done: u64) -> StreamReader<R>
        requires { R.holds reader [] }
        // The state before the first byte, after `done` records.
        ensures represents { (ahead : ℕ) → done ≡ saturated ahead
            → StreamRepresents R.holds R.spells ahead result framing limit [] [] }
    {
        let body = Body::following(reader, limit, done);
        match framing {
            Framing::Plain => StreamReader::Plain(body),
            Framing::Chunked => StreamReader::Chunked(ChunkedBody::new(body)),
            Framing::Lines => StreamReader::Lines(LineBody::new(body, limit)),
        }
    }

    /// Decodes a piece up to the end of a record or of the stream, the first error, or the end of
    /// the piece.
    pub fn next(&mut self, piece: &[u8]) -> Step<R::Value, PackedFault>
        // When each result is returned, if `w` are the bytes so far and `values` their values.
        ensures says { (ahead : ℕ) (framing : FramingValue) (limit : ℕ) (w : List ℕ)
            (values : List R.Value) → StreamRepresents R.holds R.spells ahead self.old framing limit
            w values
            → SaysIn framing (StreamRepresents R.holds R.spells ahead self.new framing limit)
            R.spells R.breaks ahead limit w values piece.now result.used result.out }
        // Before the last byte used: no record ends, and there is no error.
        ensures before { (ahead : ℕ) (framing : FramingValue) (limit : ℕ) (w : List ℕ)
            (values : List R.Value) → StreamRepresents R.holds R.spells ahead self.old framing limit
            w values
            → GoesBefore framing R.spells limit w values piece.now result.used }
        ensures more { result.out ≡ Decoded.More → result.used ≡ length piece.now }
        ensures some { result.out ≢ Decoded.More → 0 < result.used }
        ensures used { result.used ≤ length piece.now }
        // After the end or an error: nothing is buffered.
        ensures kept { KeepsNoneAfterAnswer (held_by_stream R.kept self.new) result.out }
    {
        let Step { used, out } = self.advance(piece);
        let out = match out {
            Decoded::More => Decoded::More,
            Decoded::Event(()) => match self.end_record() {
                Ok(value) => Decoded::Event(value),
                Err(why) => Decoded::Fault(self.refuse(why)),
            },
            Decoded::End => Decoded::End,
            Decoded::Fault(fault) => Decoded::Fault(fault),
        };
        Step { used, out }
    }

    /// Decodes a piece up to the end of the stream, the first error, or the end of the piece.
    /// Appends the values of the records that end in it.
    pub fn feed(
        &mut self,
        piece: &[u8],
        values: &mut Vec<R::Value>,
    ) -> Step<Infallible, PackedFault>
        // When each result is returned; the values of the records that ended before are appended.
        ensures feeds { (ahead : ℕ) (framing : FramingValue) (limit : ℕ) (w : List ℕ)
            (before : List R.Value) → StreamRepresents R.holds R.spells ahead self.old framing limit
            w before
            → StreamFeeds R.holds R.spells (IsRefused R.spells R.breaks) ahead self.new framing
            limit w before piece.now values.old.items values.new.items result.used result.out }
        ensures more { result.out ≡ Decoded.More → result.used ≡ length piece.now }
        ensures used { result.used ≤ length piece.now }
        ensures kept { KeepsNoneAfterAnswer (held_by_stream R.kept self.new) result.out }
    {
        let mut at = 0;
        while at < piece.len() {
            let taken = self.advance(&piece[at..]);
            at += taken.used;
            match taken.out {
                Decoded::More => {}
                Decoded::Event(()) => {
                    if let Err(why) = self.end_record_into(values) {
                        let out = Decoded::Fault(self.refuse(why));
                        return Step { used: at, out };
                    }
                }
                Decoded::End => {
                    return Step {
                        used: at,
                        out: Decoded::End,
                    };
                }
                Decoded::Fault(fault) => {
                    return Step {
                        used: at,
                        out: Decoded::Fault(fault),
                    };
                }
            }
        }
        Step {
            used: at,
            out: Decoded::More,
        }
    }

    /// Reports the end of the input. Plain RecordIO: `Ok` between records, F10 inside one. A
    /// chunked stream that has not ended: F6. JSON Lines: like plain RecordIO, so that a last line
    /// without LF is F10; [`end_input`](Self::end_input) decodes that line.
    pub fn finish(&self) -> Result<(), Fault>
        // The result of the end of the input, if `w` are the bytes so far.
        ensures { (ahead : ℕ) (framing : FramingValue) (limit : ℕ) (w : List ℕ)
            (values : List R.Value) → StreamRepresents R.holds R.spells ahead self.now framing limit
            w values
            → InputEnds framing R.spells limit w values result }
    {
        match self {
            StreamReader::Plain(body) => {
                if body.between() {
                    Ok(())
                } else {
                    Err(Fault::EndsInsideRecord)
                }
            }
            StreamReader::Chunked(_) => Err(Fault::EndsInsideChunks),
            StreamReader::Lines(lines) => {
                if lines.between() {
                    Ok(())
                } else {
                    Err(Fault::EndsInsideRecord)
                }
            }
        }
    }

    /// Like [`finish`](Self::finish), but the end of JSON Lines ends the last line, like a LF.
    /// Appends the value of that line. No more pieces may be given after that.
    pub fn end_input(&mut self, values: &mut Vec<R::Value>) -> Result<(), Fault>
        // The result of the end of the input, if `w` are the bytes so far.
        ensures { (ahead : ℕ) (framing : FramingValue) (limit : ℕ) (w : List ℕ)
            (before : List R.Value) → StreamRepresents R.holds R.spells ahead self.old framing limit
            w before
            → (more : List R.Value) × (values.new.items ≡ values.old.items ++ more)
            × EndsInput framing R.spells (IsRefused R.spells R.breaks) ahead limit w
            (before ++ more) result }
    {
        match self {
            StreamReader::Plain(_) | StreamReader::Chunked(_) => self.finish(),
            StreamReader::Lines(_) => match self.feed(b"\n", values).out {
                Decoded::More | Decoded::Event(_) | Decoded::End => Ok(()),
                Decoded::Fault(fault) => Err(fault.into_fault()),
            },
        }
    }

    /// Returns the number of buffered bytes of an incomplete record: 0 after the end or an error.
    pub fn held(&self) -> u64
        ensures count { result ≡ held_by_stream R.kept self.now }
        // The bound: what the reader of records may buffer of the incomplete record.
        ensures most { (ahead : ℕ) (framing : FramingValue) (limit : ℕ) (w : List ℕ)
            (values : List R.Value) → StreamRepresents R.holds R.spells ahead self.now framing limit
            w values
            → HoldsIn framing R.spells R.max_held limit w values result }
    {
        match self {
            StreamReader::Plain(body) => body.held(),
            StreamReader::Chunked(chunked) => chunked.body.held(),
            StreamReader::Lines(lines) => lines.body.held_of_line(),
        }
    }

    /// Returns the number of line feeds of JSON Lines so far, or 2^64 - 1 if there are more. The
    /// result is unspecified for other framings, and after an error.
    pub(crate) fn line_feeds(&self) -> u64
        ensures { (ahead limit : ℕ) (w : List ℕ) (values : List R.Value)
            → StreamRepresents R.holds R.spells ahead self.now Lines limit w values
            → result ≡ saturated (line_feeds_in w) }
    {
        match self {
            StreamReader::Plain(_) | StreamReader::Chunked(_) => 0,
            StreamReader::Lines(lines) => lines.line_feeds(),
        }
    }

    // Consumes bytes from the start of a piece.
    fn consume(&mut self, piece: &[u8]) -> Step<(), PackedFault>
        requires { 0 < length piece.now }
        ensures reports { (ahead : ℕ) (framing : FramingValue) (limit : ℕ) (w : List ℕ)
            (values : List R.Value) → StreamRepresents R.holds R.spells ahead self.old framing limit
            w values
            → Reports R.holds R.spells R.breaks ahead framing
            (λ body. StreamRepresents R.holds R.spells ahead (with_body self.new body) framing
            limit) (body_of self.new)
            limit w values piece.now result.used result.out }
        ensures before { (ahead : ℕ) (framing : FramingValue) (limit : ℕ) (w : List ℕ)
            (values : List R.Value) → StreamRepresents R.holds R.spells ahead self.old framing limit
            w values
            → GoesBefore framing R.spells limit w values piece.now result.used }
        ensures used { (0 < result.used) × (result.used ≤ length piece.now) }
    {
        match self {
            StreamReader::Plain(body) => body.consume(piece),
            StreamReader::Chunked(chunked) => chunked.consume(piece),
            StreamReader::Lines(lines) => lines.consume(piece),
        }
    }

    // Decodes a piece like `next`, but does not decode the value of a record that ended.
    fn advance(&mut self, piece: &[u8]) -> Step<(), PackedFault>
        ensures reports { (ahead : ℕ) (framing : FramingValue) (limit : ℕ) (w : List ℕ)
            (values : List R.Value) → StreamRepresents R.holds R.spells ahead self.old framing limit
            w values
            → Reports R.holds R.spells R.breaks ahead framing
            (λ body. StreamRepresents R.holds R.spells ahead (with_body self.new body) framing
            limit) (body_of self.new)
            limit w values piece.now result.used result.out }
        ensures before { (ahead : ℕ) (framing : FramingValue) (limit : ℕ) (w : List ℕ)
            (values : List R.Value) → StreamRepresents R.holds R.spells ahead self.old framing limit
            w values
            → GoesBefore framing R.spells limit w values piece.now result.used }
        ensures more { result.out ≡ Decoded.More → result.used ≡ length piece.now }
        ensures some { result.out ≢ Decoded.More → 0 < result.used }
        ensures used { result.used ≤ length piece.now }
        // After the end or an error: nothing is buffered.
        ensures kept { KeepsNoneAfterAnswer (held_by_stream R.kept self.new) result.out }
    {
        let mut at = 0;
        while at < piece.len() {
            let taken = self.consume(&piece[at..]);
            at += taken.used;
            match taken.out {
                Decoded::More => {}
                Decoded::Event(()) => {
                    return Step {
                        used: at,
                        out: Decoded::Event(()),
                    };
                }
                Decoded::End => return self.stop(at, Decoded::End),
                Decoded::Fault(fault) => return self.stop(at, Decoded::Fault(fault)),
            }
        }
        Step::more(at)
    }

    // Frees the buffers, and returns the end or the error.
    fn stop(&mut self, used: usize, out: Decoded<(), PackedFault>) -> Step<(), PackedFault>
        ensures told { result ≡ record { used = used; out = out } }
        ensures kept { held_by_stream R.kept self.new ≡ 0 }
    {
        self.release();
        Step { used, out }
    }

    // Returns the value of the record that ended, or the reason for which it has none.
    fn end_record(&mut self) -> Result<R::Value, RecordError>
        ensures ends { (r : List ℕ) → R.holds (body_of self.old).reader r → length r < 2 ^ 64
            → Ends R.holds R.spells R.breaks (body_of self.old) (body_of self.new) r result }
        ensures same { self.new ≡ with_body self.old (body_of self.new) }
        ensures records { (body_of self.new).records ≡ (body_of self.old).records }
    {
        match self {
            StreamReader::Plain(body) => body.end_record(),
            StreamReader::Chunked(chunked) => chunked.body.end_record(),
            StreamReader::Lines(lines) => lines.body.end_record(),
        }
    }

    // Like `end_record`, but appends the value to a list.
    fn end_record_into(&mut self, values: &mut Vec<R::Value>) -> Result<(), RecordError>
        ensures ends { (r : List ℕ) → R.holds (body_of self.old).reader r → length r < 2 ^ 64
            → EndsInto R.holds R.spells R.breaks (body_of self.old) (body_of self.new) r
            values.old.items values.new.items result }
        ensures same { self.new ≡ with_body self.old (body_of self.new) }
        ensures records { (body_of self.new).records ≡ (body_of self.old).records }
    {
        match self {
            StreamReader::Plain(body) => body.end_record_into(values),
            StreamReader::Chunked(chunked) => chunked.body.end_record_into(values),
            StreamReader::Lines(lines) => lines.body.end_record_into(values),
        }
    }

    // Returns the error for the record that ended without a value, and frees the buffers.
    fn refuse(&mut self, why: RecordError) -> PackedFault
        ensures fault { result ≡ fault_at_record (body_of self.old).done why }
        ensures kept { held_by_stream R.kept self.new ≡ 0 }
    {
        let fault = match self {
            StreamReader::Plain(body) => body.refused(why),
            StreamReader::Chunked(chunked) => chunked.body.refused(why),
            StreamReader::Lines(lines) => lines.body.refused(why),
        };
        self.release();
        fault
    }

    /// Frees the buffers.
    pub(crate) fn release(&mut self)
        ensures { held_by_stream R.kept self.new ≡ 0 }
    {
        match self {
            StreamReader::Plain(body) => body.release(),
            StreamReader::Chunked(chunked) => chunked.body.release(),
            StreamReader::Lines(lines) => lines.body.release(),
        }
    }
}
