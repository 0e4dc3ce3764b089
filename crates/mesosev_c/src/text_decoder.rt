//! A decoder that reports an event by the number of its type and its canonical text, and an error
//! by its number and its line.

ghost use Rattle.std.specs.Prelude.{◌≡◌, ◌<◌, [], length};
ghost use Rattle.std.specs.Vec.{vec_ptr};
ghost use Rattle.mesosev_c.specs.Adding.{AddsText, AddsEvent, HasStatus};
ghost use Rattle.mesosev_c.specs.Batches.{ReportsBatch};
ghost use Rattle.mesosev_c.specs.Decoders.{Represents};
ghost use Rattle.mesosev_c.specs.Reporting.{ReportsNext, ReportsFinish, ReportsOutput, ReportsEvent, ReportsFault, KeepsAll};

use crate::event_decoder::EventDecoder;
use crate::event_text::{Appended, append_text};
use crate::rows::{Row, forget_texts};
use crate::statuses::{END, EVENT, MORE, NO_TEXT, event_number, fault_number};
use arrayvec::ArrayString;
use mes_frame::Limit;
use mes_json::MAX_REUSED_CAPACITY;
use mes_msg::Event;
use mes_stream::{Decoded, Fault, Framing, MAX_FAULT_LINE, fault_line};
use std::alloc::Global;

/// The result of `next` or `finish`, in numbers.
#[derive(Clone, Copy, Debug, PartialEq, Eq)]
pub struct Reported {
    /// `MORE`, `EVENT`, `NO_TEXT`, `END`, or the number of an error.
    pub status: u32,
    /// The number of the event's type; 0 if no event was decoded.
    pub kind: u32,
}

/// The result of `many`.
#[derive(Clone, Copy, Debug, PartialEq, Eq)]
pub struct Batch {
    /// `EVENT` if the rows are full, else `MORE`, `END`, or the number of an error.
    pub status: u32,
    /// The number of events.
    pub count: usize,
    /// The number of bytes of the piece that were used.
    pub used: usize,
}

/// A decoder of plain RecordIO or of a chunked body that retains the text of its last result.
#[derive(Drop)]
pub struct TextDecoder {
    alloc: Global,
    decoder: EventDecoder,
    // True if the decoder produces the texts of events.
    texts: bool,
    // The concatenated canonical texts of the last events, or the line of the error.
    text: Vec<u8>,
}

impl TextDecoder {
    /// Creates a decoder before the first byte, with or without texts of events. Does not allocate.
    pub fn new(alloc: Global, framing: Framing, limit: Limit, texts: bool) -> TextDecoder
        ensures represents { Represents result.decoder framing limit [] [] }
        ensures texts { result.texts ≡ texts }
    {
        TextDecoder {
            alloc,
            decoder: EventDecoder::new(alloc, framing, limit),
            texts,
            text: Vec::new(alloc),
        }
    }

    /// Returns the text of the last result: the events' canonical texts, concatenated, or an
    /// error's line without its LF.
    pub fn text(&self) -> &[u8]
        ensures { result.now ≡ self.now.text.items }
    {
        self.text.as_slice()
    }

    /// Returns the address of the text that `text` returns.
    pub(crate) fn text_at(&self) -> *const u8
        ensures { result ≡ vec_ptr self.now.text }
    {
        self.text.as_ptr()
    }

    /// Decodes `piece` up to the first of these: the end of a record, of the stream or of the
    /// piece, or an error.
    ///
    /// Returns the result and the number of bytes used. After the end or an error, each later call
    /// returns it again.
    pub fn next(&mut self, piece: &[u8]) -> (Reported, usize)
        ensures { ReportsNext self.old self.new piece.now result.1 result.0 }
    {
        let step = self.decoder.next(piece);
        (self.tell(&step.out), step.used)
    }

    /// Decodes `piece` as repeated calls of `next` do, and describes each event in a row of `room`.
    ///
    /// Stops once all bytes are used, `room` is full, or the stream has ended. The texts of the
    /// events are concatenated.
    pub fn many(&mut self, piece: &[u8], room: &mut [Row]) -> Batch
        ensures { ReportsBatch self.old self.new piece.now room.old room.new result }
    {
        self.clear_text();
        let mut used: usize = 0;
        let mut count: usize = 0;
        while count < room.len() {
            let step = self.decoder.next(&piece[used..]);
            used += step.used;
            let status = status_of(&step.out);
            let Decoded::Event(event) = &step.out else {
                return Batch {
                    status,
                    count,
                    used,
                };
            };
            self.add(event, room, count);
            count += 1;
            drop(step);
        }
        Batch {
            status: EVENT,
            count,
            used,
        }
    }

    /// Ends the input: returns `END` or the number of an error, as does each later call.
    pub fn finish(&mut self) -> Reported
        ensures { ReportsFinish self.old self.new result }
    {
        let outcome = self.decoder.finish();
        self.clear_text();
        match outcome {
            Ok(()) => Reported {
                status: END,
                kind: 0,
            },
            Err(fault) => self.report_fault(&fault),
        }
    }

    // Clears the text. Frees the text's buffer if its capacity is larger than
    // `MAX_REUSED_CAPACITY`.
    fn clear_text(&mut self)
        ensures text { self.new.text.items ≡ [] }
        ensures keeps { KeepsAll self.old self.new }
    {
        if self.text.capacity() > MAX_REUSED_CAPACITY {
            self.text = Vec::new(self.alloc);
        } else {
            self.text.clear();
        }
    }

    fn tell(&mut self, out: &Decoded<Event>) -> Reported
        ensures reports { ReportsOutput self.old.texts self.old.decoder.used out.now
            self.new.text.items result }
        ensures keeps { KeepsAll self.old self.new }
    {
        self.clear_text();
        match out {
            Decoded::More => Reported {
                status: MORE,
                kind: 0,
            },
            Decoded::Event(event) => self.report_event(event),
            Decoded::End => Reported {
                status: END,
                kind: 0,
            },
            Decoded::Fault(fault) => self.report_fault(fault),
        }
    }

    fn report_event(&mut self, event: &Event) -> Reported
        requires { self.old.text.items ≡ [] }
        ensures reports { ReportsEvent self.old.texts event.now self.new.text.items result }
        ensures keeps { KeepsAll self.old self.new }
    {
        let kind = event_number(event);
        if !self.texts {
            return Reported {
                status: EVENT,
                kind,
            };
        }
        match append_text(self.alloc, event, &mut self.text) {
            Appended::Whole => Reported {
                status: EVENT,
                kind,
            },
            Appended::Unfit => Reported {
                status: NO_TEXT,
                kind,
            },
            Appended::Lost => Reported {
                status: NO_TEXT,
                kind,
            },
        }
    }

    // Writes row `count` of `room`, and appends the event's text to those of the rows before it.
    fn add(&mut self, event: &Event, room: &mut [Row], count: usize)
        requires { count < length room.old }
        ensures adds { AddsEvent self.old.texts event.now self.old.text.items self.new.text.items
            count room.old room.new }
        ensures keeps { KeepsAll self.old self.new }
    {
        let start = self.add_text(event, &mut room[..count]);
        room[count] = Row {
            kind: event_number(event),
            start: start as u64,
            size: (self.text.len() - start) as u64,
        };
    }

    // Appends the event's text, and returns its offset. If an allocation fails, the earlier texts
    // are lost too.
    fn add_text(&mut self, event: &Event, others: &mut [Row]) -> usize
        ensures adds { AddsText self.old.texts event.now self.old.text.items self.new.text.items
            others.old others.new result }
        ensures keeps { KeepsAll self.old self.new }
    {
        let start = self.text.len();
        if !self.texts {
            return start;
        }
        match append_text(self.alloc, event, &mut self.text) {
            Appended::Whole => start,
            Appended::Unfit => start,
            Appended::Lost => {
                forget_texts(others);
                0
            }
        }
    }

    fn report_fault(&mut self, fault: &Fault) -> Reported
        requires { self.old.text.items ≡ [] }
        ensures reports { ReportsFault self.old.decoder.used fault.now self.new.text.items result }
        ensures keeps { KeepsAll self.old self.new }
    {
        let mut line = ArrayString::<MAX_FAULT_LINE>::new();
        fault_line(fault, self.decoder.used(), &mut line);
        // The error is reported without a line if the line cannot be allocated.
        if let Err(_) = self.text.extend_from_slice(line.as_str().as_bytes()) {
            self.text.clear();
        }
        Reported {
            status: fault_number(fault),
            kind: 0,
        }
    }
}

fn status_of(out: &Decoded<Event>) -> u32
    ensures { HasStatus out.now result }
{
    match out {
        Decoded::More => MORE,
        Decoded::Event(_) => EVENT,
        Decoded::End => END,
        Decoded::Fault(fault) => fault_number(fault),
    }
}
