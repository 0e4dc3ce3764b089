//! Decoding of a whole input: the number of its events, or its first error.

ghost use Rattle.std.specs.Prelude.{◌≡◌, ◌≤◌, ℕ, List, [], length};
ghost use Rattle.mes_msg.specs.Event.{Event as EventValue};
ghost use Rattle.mes_msg.specs.Events.{Spells};
ghost use Rattle.mes_stream.specs.MessageData.{HoldsData};
ghost use Rattle.mes_stream.specs.Framings.{InputEnds};
ghost use Rattle.mes_stream.specs.Stream.{saturated};
ghost use Rattle.mes_stream.specs.StreamReaders.{StreamRepresents};
ghost use Rattle.mes_stream.specs.declared.stream_reader.Framing.{Framing as FramingValue};
ghost use Rattle.mesosev_c.specs.Inputs.{IsInput, EndsAll, line_of, status_of, used_of};

use crate::statuses::{SUCCESS, fault_number};
use arrayvec::ArrayString;
use mes_frame::Limit;
use mes_stream::{
    Decoded, EventReader, Framing, MAX_FAULT_LINE, Step, Stop, StreamReader, count_line, fault_line,
};
use std::alloc::Global;

/// The outcome of a whole input.
#[derive(Debug, Drop)]
pub struct Checked {
    /// The number of events; it saturates at 2^64 - 1.
    pub events: u64,
    /// The number of bytes used, or the first error and the number of bytes used up to it.
    pub outcome: Result<u64, Stop>,
}

/// Decodes a whole input, and buffers one event at a time.
pub fn check_whole(alloc: Global, framing: Framing, limit: Limit, bytes: &[u8]) -> Checked
    ensures { (events : List EventValue) × (result.events ≡ saturated (length events))
        × IsInput framing limit bytes.now events result.outcome }
{
    let mut stream = StreamReader::new(framing, EventReader::new(alloc), limit);
    read_all(&mut stream, bytes)
}

// Decodes the whole input; `stream` has not read a byte yet.
fn read_all(stream: &mut StreamReader<EventReader>, bytes: &[u8]) -> Checked
    ensures { (framing : FramingValue) (limit : ℕ)
        → StreamRepresents HoldsData Spells 0 stream.old framing limit [] []
        → (events : List EventValue) × (result.events ≡ saturated (length events))
        × IsInput framing limit bytes.now events result.outcome }
{
    let mut events: u64 = 0;
    let mut at: usize = 0;
    while at < bytes.len() {
        let Step { used, out } = stream.next(&bytes[at..]);
        at += used;
        match out {
            Decoded::More => {}
            Decoded::Event(event) => {
                drop(event);
                events = events.saturating_add(1);
            }
            Decoded::End => {
                return Checked {
                    events,
                    outcome: Ok(at as u64),
                };
            }
            Decoded::Fault(fault) => {
                let fault = fault.into_fault();
                let used = at as u64;
                return Checked {
                    events,
                    outcome: Err(Stop { fault, used }),
                };
            }
        }
    }
    let outcome = end_all(stream, bytes.len() as u64);
    Checked { events, outcome }
}

// Returns the outcome if the input ends and all its bytes, `used` in number, were used.
fn end_all(stream: &StreamReader<EventReader>, used: u64) -> Result<u64, Stop>
    ensures { (framing : FramingValue) (limit : ℕ) (w : List ℕ) (events : List EventValue)
        → StreamRepresents HoldsData Spells 0 stream.now framing limit w events
        → EndsAll framing limit w events used result }
{
    match stream.finish() {
        Ok(()) => Ok(used),
        Err(fault) => Err(Stop { fault, used }),
    }
}

impl Checked {
    /// Returns the status of the outcome: `SUCCESS`, or the number of the error.
    pub fn status(&self) -> u32
        ensures { result ≡ status_of self.now.outcome }
    {
        match &self.outcome {
            Ok(_) => SUCCESS,
            Err(stop) => fault_number(&stop.fault),
        }
    }

    /// Returns the number of bytes of the input that were used.
    pub fn used(&self) -> u64
        ensures { result ≡ used_of self.now.outcome }
    {
        match &self.outcome {
            Ok(used) => *used,
            Err(stop) => stop.used,
        }
    }

    /// Replaces the content of `line` with the line that `mesosev check` prints for the input,
    /// without the LF.
    pub fn line(&self, line: &mut ArrayString<MAX_FAULT_LINE>)
        ensures { line.new.bytes ≡ line_of self.now.events self.now.outcome }
    {
        match &self.outcome {
            Ok(used) => put_count(self.events, *used, line),
            Err(stop) => fault_line(&stop.fault, stop.used, line),
        }
    }
}

fn put_count(events: u64, used: u64, line: &mut ArrayString<MAX_FAULT_LINE>)
    ensures { line.new.bytes ≡ line_of events (Ok used) }
{
    let mut text = ArrayString::new();
    count_line(events, used, &mut text);
    line.clear();
    line.push_str(text.as_str());
}
