//! Example rows that decode a chunked body in pieces.

use crate::bytes::bytes_of;
use crate::messages::say_event;
use crate::outcome::{Reported, fault_after};
use crate::parsing::look_at;
use crate::words::Words;
use mes_msg::{Event, Limit};
use mes_stream::{Decoded, Decoder, Fault, Step};
use std::alloc::Global;

// The input of a decoder after a failed allocation. The decoder must use no byte of it.
const HEARTBEAT: &[u8] = b"20\n{\"type\":\"HEARTBEAT\"}";

// The outcome of one step of a decoder.
#[derive(Clone, Copy)]
enum Front {
    // The whole piece was used, and no record ended.
    More,
    // A record ended.
    Event,
    // The body ended.
    End,
    // An allocation failed at the last used byte.
    NoMemory,
    // Another error was detected at the last used byte.
    Fault,
}

// The steps of a decoder so far.
#[derive(Drop)]
struct Answered {
    // The number of bytes used.
    used: u64,
    // The number of consecutive steps that needed more input.
    more: u64,
}

/// Decodes the body in an example row, at once or in pieces of one byte. Prints each event, the
/// number of steps between events, and the end.
pub(crate) fn answer(alloc: Global, row: &str, words: &mut Words) -> Result<(), Reported> {
    let (how, text) = row.split_once(' ').unwrap_or((row, ""));
    let bytes = bytes_of(text)?;
    let most = if how == "single" {
        1
    } else {
        bytes.len().max(1)
    };
    decode(alloc, bytes.as_slice(), most, words)
}

// Decodes a body in pieces of at most `most` bytes.
fn decode(alloc: Global, body: &[u8], most: usize, words: &mut Words) -> Result<(), Reported> {
    let mut decoder = Decoder::new(alloc, Limit::USUAL);
    take_all(alloc, &mut decoder, body, most, words)
}

fn take_all(
    alloc: Global,
    decoder: &mut Decoder,
    body: &[u8],
    most: usize,
    words: &mut Words,
) -> Result<(), Reported> {
    let mut answered = Answered { used: 0, more: 0 };
    for piece in body.chunks(most.max(1)) {
        if !take(alloc, decoder, &mut answered, piece, words)? {
            return Ok(());
        }
    }
    answered.end(decoder, words)
}

// Decodes a piece. Returns whether the decoder needs more input.
fn take(
    alloc: Global,
    decoder: &mut Decoder,
    answered: &mut Answered,
    piece: &[u8],
    words: &mut Words,
) -> Result<bool, Reported> {
    let mut rest = piece;
    // Each event uses a byte at least, so a piece has no more events than bytes.
    for _ in 0..piece.len() {
        let (used, front) = next(alloc, decoder, answered, rest, words)?;
        rest = rest.get(used..).unwrap_or(&[]);
        match front {
            Front::More => break,
            Front::Event => {}
            Front::NoMemory => return Err(refusal_at(decoder, answered.used, used)),
            Front::End | Front::Fault => return Ok(false),
        }
    }
    Ok(true)
}

// Performs one step of the decoder and prints its result. Returns the number of bytes used and the
// outcome.
fn next(
    alloc: Global,
    decoder: &mut Decoder,
    answered: &mut Answered,
    piece: &[u8],
    words: &mut Words,
) -> Result<(usize, Front), Reported> {
    look_at(decoder.next(piece), |step| {
        answered.add(alloc, step, words)?;
        Ok((step.used, front_of(step)))
    })
}

fn front_of(step: &Step<Event>) -> Front {
    match &step.out {
        Decoded::More => Front::More,
        Decoded::Event(_) => Front::Event,
        Decoded::End => Front::End,
        Decoded::Fault(Fault::NoMemory) => Front::NoMemory,
        Decoded::Fault(_) => Front::Fault,
    }
}

// Returns the error of a failed allocation after `used` bytes. The last step must have used a byte,
// and the decoder must report the failure again.
fn refusal_at(decoder: &mut Decoder, used: u64, used_last: usize) -> Reported {
    Reported::NoMemoryAfter(used).or_changed(used_last > 0 && is_refused_again(decoder))
}

// Returns whether the decoder reports the failed allocation again, uses no byte and buffers no
// byte.
fn is_refused_again(decoder: &mut Decoder) -> bool {
    is_refusal(&decoder.next(HEARTBEAT))
        && matches!(decoder.finish(), Err(Fault::NoMemory))
        && decoder.held() == 0
}

fn is_refusal(step: &Step<Event>) -> bool {
    matches!(front_of(step), Front::NoMemory) && step.used == 0
}

impl Answered {
    // Adds the bytes that a step used, and prints the result of the step, unless the decoder needs
    // more input or an allocation failed.
    fn add(
        &mut self,
        alloc: Global,
        step: &Step<Event>,
        words: &mut Words,
    ) -> Result<(), Reported> {
        self.used = self.used.saturating_add(step.used as u64);
        match &step.out {
            Decoded::More => {
                self.more = self.more.saturating_add(1);
                Ok(())
            }
            Decoded::Event(event) => self.report_event(alloc, event, words),
            Decoded::End => {
                self.report_end(words);
                Ok(())
            }
            Decoded::Fault(Fault::NoMemory) => Ok(()),
            Decoded::Fault(fault) => Err(self.fault(fault, words)),
        }
    }

    fn report_more(&mut self, words: &mut Words) {
        if self.more > 0 {
            words.say_number("more", self.more);
        }
        self.more = 0;
    }

    // Prints the canonical text of an event, and the offset of the event's end.
    fn report_event(
        &mut self,
        alloc: Global,
        event: &Event,
        words: &mut Words,
    ) -> Result<(), Reported> {
        self.report_more(words);
        say_event(alloc, event, words)?;
        words.add(" at ");
        words.add_number(self.used);
        Ok(())
    }

    fn report_end(&mut self, words: &mut Words) {
        self.report_more(words);
        words.say_number("end at", self.used);
    }

    // Returns the error that ends the example row.
    fn fault(&mut self, fault: &Fault, words: &mut Words) -> Reported {
        self.report_more(words);
        fault_after(fault, self.used)
    }

    // Prints the error that the end of the input reveals.
    fn end(&mut self, decoder: &Decoder, words: &mut Words) -> Result<(), Reported> {
        match decoder.finish() {
            Ok(()) => Ok(()),
            Err(fault) => Err(self.fault(&fault, words)),
        }
    }
}
