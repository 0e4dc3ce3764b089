//! The events of standard input.

ghost use Rattle.std.specs.Prelude.{OnOk, IfErr};
ghost use Rattle.mesosev_live.specs.Inputs.{Decodes, StopsIn};

use crate::limits::INPUT_READ;
use crate::transfer::{Came, came_with};
use mes_frame::{Limit, Source};
use mes_msg::Event;
use mes_stream::{Consumer, EventReader, Framing, MAX_READ, Reading, ReadingStop, ReadsEnd, Stop};
use mio::unix::SourceFd;
use mio::{Interest, Registry, Token};
use std::alloc::Global;
use std::os::fd::RawFd;

/// The file descriptor of standard input.
const STANDARD_INPUT: RawFd = 0;

/// Standard input, which is read only when it does not block.
#[derive(Drop)]
pub(crate) struct Input<'a, I> {
    source: &'a mut I,
    reading: Reading<EventReader>,
    /// True until the input ended.
    is_open: bool,
    /// True once a byte was read.
    has_bytes: bool,
}

impl<'a, I: Source> Input<'a, I> {
    /// Returns the input that `source` reads, before its first byte.
    pub fn new(alloc: Global, source: &'a mut I) -> Input<'a, I> {
        Input {
            source,
            reading: Reading::new(Framing::Plain, EventReader::new(alloc), Limit::USUAL),
            is_open: true,
            has_bytes: false,
        }
    }

    /// Has the system report when bytes come. Returns false if the system cannot: a file, which can
    /// be read at once, or no input at all.
    pub fn watch(&mut self, registry: &Registry, token: Token) -> bool {
        registry
            .register(&mut SourceFd(&STANDARD_INPUT), token, Interest::READABLE)
            .is_ok()
    }

    /// Has the system report again whether bytes are there.
    pub fn watch_again(&mut self, registry: &Registry, token: Token) {
        if self.is_open {
            let mut source = SourceFd(&STANDARD_INPUT);
            let _ = registry.reregister(&mut source, token, Interest::READABLE);
        }
    }

    /// Returns whether the input has not ended.
    pub fn is_open(&self) -> bool {
        self.is_open
    }

    /// Reads once, and appends the events that end in the bytes read. Errors: the first fault of
    /// the input. An input that cannot be read at all, because it is closed, has no events.
    pub fn read(&mut self, events: &mut Vec<Event>) -> Result<(), Stop> {
        if !self.is_open {
            return Ok(());
        }
        let mut buffer = [0; INPUT_READ];
        match self.source.fetch(&mut buffer) {
            Ok(0) => self.end(ReadsEnd::AtEnd),
            Ok(count) => {
                self.has_bytes = true;
                self.feed(&buffer[..count], events)
            }
            Err(error) => match came_with(error.kind()) {
                Came::Failure if self.has_bytes => self.end(ReadsEnd::Failed),
                Came::Failure => self.end(ReadsEnd::AtEnd),
                _ => Ok(()),
            },
        }
    }

    /// Decodes the bytes of a read.
    fn feed(&mut self, bytes: &[u8], events: &mut Vec<Event>) -> Result<(), Stop> {
        match decode(&mut self.reading, bytes, events) {
            Ok(()) => Ok(()),
            Err(stop) => self.end(ReadsEnd::Stopped(stop)),
        }
    }

    /// Ends the input.
    fn end(&mut self, end: ReadsEnd<ReadingStop>) -> Result<(), Stop> {
        self.is_open = false;
        match self.reading.outcome(end) {
            Ok(_) => Ok(()),
            Err(stop) => Err(stop),
        }
    }
}

/// Decodes the bytes of a read, and appends the events that end in them. After a fault, the events
/// before it are appended.
fn decode(
    reading: &mut Reading<EventReader>,
    bytes: &[u8],
    events: &mut Vec<Event>,
) -> Result<(), ReadingStop>
    ensures ok { OnOk result
        (Decodes reading.old events.old.items reading.new events.new.items bytes.now) }
    ensures stop { IfErr result
        (StopsIn reading.old events.old.items reading.new events.new.items bytes.now) }
{
    let mut rest = bytes;
    while !rest.is_empty() {
        let (piece, more) = rest.split_at(rest.len().min(MAX_READ));
        match reading.consume(piece, events) {
            Ok(()) => rest = more,
            Err(stop) => return Err(stop),
        }
    }
    Ok(())
}
