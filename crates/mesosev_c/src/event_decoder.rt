//! A decoder of the events of plain RecordIO or of a chunked body. It counts the bytes used, and
//! stores how the stream ended.

ghost use Rattle.std.specs.Prelude.{◌≡◌, []};
ghost use Rattle.mesosev_c.specs.Decoders.{Takes, EndsInput, Represents, EndsBy, answer_of, outcome_of, end_by};

use mes_frame::Limit;
use mes_msg::Event;
use mes_stream::{Decoded, EventReader, Fault, Framing, Step, StreamReader};
use std::alloc::Global;

/// How a stream ended.
#[derive(Debug, Drop)]
pub enum StreamEnd {
    /// The stream ended without an error.
    Closed,
    /// The stream ended with this error.
    Failed(Fault),
}

impl StreamEnd {
    // Returns the result of each later call of `next`.
    fn answer(&self) -> Decoded<Event>
        ensures { result ≡ answer_of self.now }
    {
        match self {
            StreamEnd::Closed => Decoded::End,
            StreamEnd::Failed(fault) => Decoded::Fault(fault.copy()),
        }
    }

    // Returns the result of each later call of `finish`.
    fn outcome(&self) -> Result<(), Fault>
        ensures { result ≡ outcome_of self.now }
    {
        match self {
            StreamEnd::Closed => Ok(()),
            StreamEnd::Failed(fault) => Err(fault.copy()),
        }
    }

    // Returns how the stream ended, if this result of `next` is the end or an error.
    fn brought(out: &Decoded<Event>) -> Option<StreamEnd>
        ensures { EndsBy result out.now }
    {
        match out {
            Decoded::More => None,
            Decoded::Event(_) => None,
            Decoded::End => Some(StreamEnd::Closed),
            Decoded::Fault(fault) => Some(StreamEnd::Failed(fault.copy())),
        }
    }

    // Returns how the stream ended, given the outcome at the end of the input.
    fn with_input(outcome: Result<(), Fault>) -> StreamEnd
        ensures { result ≡ end_by outcome }
    {
        match outcome {
            Ok(()) => StreamEnd::Closed,
            Err(fault) => StreamEnd::Failed(fault),
        }
    }
}

// A decoder frees its stream reader once the stream has ended.
#[derive(Drop)]
enum State {
    Going(StreamReader<EventReader>),
    Ended(StreamEnd),
}

/// Decodes the events of a stream, which is plain RecordIO or a chunked body.
#[derive(Drop)]
pub struct EventDecoder {
    state: State,
    used: u64,
}

impl EventDecoder {
    /// Creates a decoder before the first byte. Does not allocate.
    pub fn new(alloc: Global, framing: Framing, limit: Limit) -> EventDecoder
        ensures { Represents result framing limit [] [] }
    {
        EventDecoder {
            state: State::Going(StreamReader::new(framing, EventReader::new(alloc), limit)),
            used: 0,
        }
    }

    /// Returns the number of bytes used so far; it saturates at 2^64 - 1.
    pub fn used(&self) -> u64
        ensures { result ≡ self.now.used }
    {
        self.used
    }

    /// Decodes `piece` up to the first of these: the end of a record, of the stream or of the
    /// piece, or an error.
    ///
    /// After the end or an error, each later call returns it again and uses no byte.
    pub fn next(&mut self, piece: &[u8]) -> Step<Event>
        ensures { Takes self.old self.new piece.now result.used result.out }
    {
        let step = match &mut self.state {
            State::Going(stream) => stream.next(piece).unpacked(),
            State::Ended(end) => {
                return Step {
                    used: 0,
                    out: end.answer(),
                };
            }
        };
        self.used = self.used.saturating_add(step.used as u64);
        if let Some(end) = StreamEnd::brought(&step.out) {
            self.state = State::Ended(end);
        }
        step
    }

    /// Ends the input.
    ///
    /// Errors: F10 if plain RecordIO ends inside a record, F6 if a chunked body has not ended, or
    /// an earlier error. Each later call of `next` or `finish` has the same outcome.
    pub fn finish(&mut self) -> Result<(), Fault>
        ensures { EndsInput self.old self.new result }
    {
        let end = match &self.state {
            State::Going(stream) => StreamEnd::with_input(stream.finish()),
            State::Ended(end) => return end.outcome(),
        };
        let outcome = end.outcome();
        self.state = State::Ended(end);
        outcome
    }
}
