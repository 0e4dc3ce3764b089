//! Decodes a chunked stream in pieces of any size, and remembers how the stream ended.
//! `stream_reader.rt` decodes either framing, but does not remember the end.

ghost use Rattle.std.specs.Prelude.{◌≡◌, ◌≢◌, ℕ, ◌+◌, ◌<◌, ◌≤◌, List, [], ◌++◌, length, None, Some, IfSome};
ghost use Rattle.mes_stream.specs.Chunked.{Live};
ghost use Rattle.mes_stream.specs.Decoding.{Says, LiveBefore};
ghost use Rattle.mes_stream.specs.Decoders.{DecoderRepresents, end_of, answer_of, finish_of, EndsBy, HoldsOf};
ghost use Rattle.mes_stream.specs.Held.{held_by_decoder};
ghost use Rattle.mes_stream.specs.MessageData.{HoldsData};
ghost use Rattle.mes_msg.specs.Events.{Spells};

use crate::fault::Fault;
use crate::message_reader::EventReader;
use crate::record_error::RecordError;
use crate::record_reader::RecordReader;
use crate::step::{Decoded, Step};
use crate::stream_reader::{Framing, StreamReader};
use mes_frame::Limit;
use std::alloc::Global;

/// The way in which a stream ended: normally, or with an error.
#[derive(Drop)]
pub(crate) enum StreamEnd {
    Closed,
    Failed(Fault),
}

impl StreamEnd {
    // Returns the result of every later call.
    fn answer<V>(&self) -> Decoded<V>
        ensures { result ≡ answer_of self.now }
    {
        match self {
            StreamEnd::Closed => Decoded::End,
            StreamEnd::Failed(fault) => Decoded::Fault(fault.copy()),
        }
    }

    // Returns how the stream ended, if the result is the end or an error.
    fn brought<V>(out: &Decoded<V>) -> Option<StreamEnd>
        ensures { EndsBy result out.now }
    {
        match out {
            Decoded::More => None,
            Decoded::Event(_) => None,
            Decoded::End => Some(StreamEnd::Closed),
            Decoded::Fault(fault) => Some(StreamEnd::Failed(fault.copy())),
        }
    }
}

// The state of a decoder. After the end or an error nothing of the stream is buffered.
#[derive(Drop)]
enum State<R> {
    Going(StreamReader<R>),
    Ended(StreamEnd),
}

/// Decodes a chunked stream incrementally; `R` decodes its records.
#[derive(Drop)]
pub struct RecordDecoder<R> {
    state: State<R>,
}

/// Decodes a chunked stream of events incrementally.
pub type Decoder = RecordDecoder<EventReader>;

impl RecordDecoder<EventReader> {
    /// Returns a decoder of events before the first byte. Does not allocate.
    pub fn new(alloc: Global, limit: Limit) -> Decoder
        ensures represents { DecoderRepresents HoldsData Spells result limit [] [] }
    {
        RecordDecoder::of(EventReader::new(alloc), limit)
    }
}

impl<R: RecordReader> RecordDecoder<R> {
    /// Returns a decoder before the first byte; `reader` decodes the records.
    pub fn of(reader: R, limit: Limit) -> RecordDecoder<R>
        requires { R.holds reader [] }
        ensures represents { DecoderRepresents R.holds R.spells result limit [] [] }
    {
        RecordDecoder {
            state: State::Going(StreamReader::new(Framing::Chunked, reader, limit)),
        }
    }

    /// Decodes a piece up to the end of a record or of the stream, the first error, or the end of
    /// the piece. After the end or an error, every later call returns the same and uses no byte.
    pub fn next(&mut self, piece: &[u8]) -> Step<R::Value>
        // When each result is returned, if `w` are the bytes so far and `values` their values.
        ensures says { (limit : ℕ) (w : List ℕ) (values : List R.Value)
            → DecoderRepresents R.holds R.spells self.old limit w values
            → Says (DecoderRepresents R.holds R.spells self.new limit) R.spells R.breaks limit w
            values piece.now result.used result.out }

        // Before the last byte used: no record ends, and there is no error.
        ensures before { (limit : ℕ) (w : List ℕ) (values : List R.Value)
            → DecoderRepresents R.holds R.spells self.old limit w values
            → LiveBefore R.spells limit w values piece.now result.used }

        // `More`: the whole piece was used, and the stream continues.
        ensures more { result.out ≡ Decoded.More → result.used ≡ length piece.now }
        ensures live { (limit : ℕ) (w : List ℕ) (values : List R.Value)
            → DecoderRepresents R.holds R.spells self.old limit w values
            → result.out ≡ Decoded.More → Live R.spells limit (w ++ piece.now) values }

        // An event: at least one byte was used.
        ensures event { (value : R.Value) → result.out ≡ Decoded.Event value → 0 < result.used }
        // The end or an error: at least one byte was used, if it is the first such result.
        ensures some { (limit : ℕ) (w : List ℕ) (values : List R.Value)
            → DecoderRepresents R.holds R.spells self.old limit w values
            → result.out ≢ Decoded.More → 0 < result.used }
        ensures used { result.used ≤ length piece.now }

        // F16 only if the reader of records returns `BadEntry`; a reader of events never does.
        ensures entries { (limit : ℕ) (w : List ℕ) (values : List R.Value)
            → DecoderRepresents R.holds R.spells self.old limit w values
            → ((r : List ℕ) → R.breaks r RecordError.BadEntry → ⊥) → (n : ℕ)
            → result.out ≢ Decoded.Fault (Fault.BadEntry n) }

        // The end or an error is remembered and returned again.
        ensures ends { EndsBy (end_of self.new) result.out }
        // After the end or an error: the same result, no byte used.
        ensures again { IfSome (end_of self.old)
            (λ e. (result ≡ record { used = 0; out = answer_of e }) × (self.new ≡ self.old)) }
    {
        let step = match &mut self.state {
            State::Going(stream) => stream.next(piece).unpacked(),
            State::Ended(end) => return Step {
                used: 0,
                out: end.answer(),
            },
        };
        if let Some(end) = StreamEnd::brought(&step.out) {
            self.state = State::Ended(end);
        }
        step
    }

    /// Reports the end of the input. Returns `Ok` after the end of the stream, the error after an
    /// error, and F6 otherwise.
    pub fn finish(&self) -> Result<(), Fault>
        ensures { result ≡ finish_of (end_of self.now) }
    {
        match &self.state {
            State::Going(_) => Err(Fault::EndsInsideChunks),
            State::Ended(StreamEnd::Closed) => Ok(()),
            State::Ended(StreamEnd::Failed(fault)) => Err(fault.copy()),
        }
    }

    /// Returns the number of buffered bytes of an incomplete record, without spare capacity. For
    /// events these are at most the bytes inside its strings and numbers.
    pub fn held(&self) -> u64
        // The bound: what the reader of records may buffer of the incomplete record.
        ensures held { (limit : ℕ) (w : List ℕ) (values : List R.Value)
            → DecoderRepresents R.holds R.spells self.now limit w values
            → HoldsOf R.spells R.max_held limit w values result }
        // The count: what the reader of records buffers, and 0 after the end or an error.
        ensures count { result ≡ held_by_decoder R.kept self.now }
    {
        match &self.state {
            State::Going(stream) => stream.held(),
            State::Ended(_) => 0,
        }
    }
}
