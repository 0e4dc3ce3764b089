//! The state of the live test master, and the loop over what is ready. `server/serving.rt` has
//! the responses, `server/sockets.rt` the reads, writes, accepts and closes.

mod serving;
mod sockets;

ghost use Rattle.std.specs.Prelude.{◌≡◌};
ghost use Rattle.mesosev_live.specs.Desks.{Keeps};

use crate::desk::Desk;
use crate::input::Input;
use crate::limits::{FINISH, MAX_CONNECTIONS, MAX_STREAM_UNREAD};
use crate::lines::{StreamEnd, ended_line, fault_happened_line, listening_line};
use crate::places::Places;
use crate::printing::Printer;
use crate::time::{earlier, is_past, millis};
use mes_double_live::LiveFault;
use mes_frame::{Sink, Source};
use mes_stream::Stop;
use mio::event::Event;
use mio::net::TcpListener;
use mio::{Events, Interest, Poll, Token};
use std::alloc::Global;
use std::time::{Clock, Duration, Instant};

/// The token of the listening socket. The tokens below are those of the connections.
const LISTENER: Token = Token(MAX_CONNECTIONS);

/// The token of standard input.
const INPUT: Token = Token(MAX_CONNECTIONS + 1);

/// The token of standard output.
pub(crate) const OUTPUT: Token = Token(MAX_CONNECTIONS + 2);

/// The largest number of events of one wait.
pub(crate) const MAX_EVENTS: usize = MAX_CONNECTIONS + 3;

/// The reason for which the run ends early.
#[derive(Drop)]
pub(crate) enum ServerStop {
    /// The test master cannot go on.
    Live(LiveFault),
    /// The input has a fault.
    Input(Stop),
    /// The system reports nothing more.
    Poll,
}

impl From<LiveFault> for ServerStop {
    ghost use Rattle.std.specs.Prelude.{◌≡◌};
    ghost use Rattle.mesosev_live.specs.declared.server.ServerStop.TheVariants.{Live};

    ghost from_gives = { λ fault stop. stop ≡ Live fault };

    fn from(fault: LiveFault) -> ServerStop {
        ServerStop::Live(fault)
    }
}

/// The live test master with its sockets. Times are in milliseconds since the start.
#[derive(Drop)]
pub(crate) struct Server<'a, D, I, O> {
    pub alloc: Global,
    /// What is sent and answered.
    pub desk: D,
    pub poll: Poll,
    pub listener: TcpListener,
    /// The connections.
    pub places: Places,
    /// The place of the connection with the current stream.
    pub streaming: Option<usize>,
    /// True if a connection may wait to be accepted.
    pub may_accept: bool,
    pub input: Input<'a, I>,
    pub printer: Printer<'a, O>,
    /// The time of the last wait's end.
    pub now: u64,
    /// True once a TEARDOWN was carried out.
    pub is_torn_down: bool,
}

impl<'a, D: Desk, I: Source, O: Sink> Server<'a, D, I, O> {
    /// Serves until the time `until`, or until the TEARDOWN if `once`.
    pub fn run<R: Clock>(
        &mut self,
        rt: &R,
        start: Instant,
        until: Option<u64>,
        once: bool,
        events: &mut Events,
    ) -> Result<(), ServerStop>
        ensures { Keeps D.follows self.old.desk self.new.desk }
    {
        for _ in 0..u64::MAX {
            self.desk.passed(self.now)?;
            self.handle_late()?;
            self.finish_round();
            if is_past(until, self.now) || once && self.is_torn_down {
                return Ok(());
            }
            self.wait(rt, start, until, events)?;
            self.handle_all(events)?;
        }
        Ok(())
    }

    /// Waits until something is ready or due.
    fn wait<R: Clock>(
        &mut self,
        rt: &R,
        start: Instant,
        until: Option<u64>,
        events: &mut Events,
    ) -> Result<(), ServerStop>
        ensures { self.new.desk ≡ self.old.desk }
    {
        let due = earlier(until, self.first_due());
        let timeout = due.map(|due| Duration::from_millis(due.saturating_sub(self.now)));
        if self.poll.poll(events, timeout).is_err() {
            return Err(ServerStop::Poll);
        }
        self.now = self.now.max(millis(start.elapsed(rt)));
        Ok(())
    }

    /// Returns the first time at which something is due.
    fn first_due(&self) -> Option<u64> {
        let of_places = earlier(self.places.first_close(), self.places.first_late());
        earlier(self.desk.first_due(), of_places)
    }

    /// Handles all that is ready.
    fn handle_all(&mut self, events: &Events) -> Result<(), ServerStop>
        ensures { Keeps D.follows self.old.desk self.new.desk }
    {
        for event in events.iter() {
            self.handle(event)?;
        }
        Ok(())
    }

    fn handle(&mut self, event: &Event) -> Result<(), ServerStop>
        ensures { Keeps D.follows self.old.desk self.new.desk }
    {
        match event.token() {
            LISTENER => {
                self.may_accept = true;
                Ok(())
            }
            INPUT => self.read_input(),
            OUTPUT => {
                self.printer.set_ready();
                Ok(())
            }
            Token(place) => {
                let has_failed = event.is_error() || event.is_write_closed();
                Ok(self.handle_ready(place, has_failed)?)
            }
        }
    }

    /// Reads standard input to its end if it is a file. Otherwise the system reports when it can be
    /// read.
    pub fn begin_input(&mut self) -> Result<(), ServerStop>
        ensures { Keeps D.follows self.old.desk self.new.desk }
    {
        if self.input.watch(self.poll.registry(), INPUT) {
            Ok(())
        } else {
            self.read_whole_input()
        }
    }

    /// Begins to listen, and prints the port.
    pub fn listen(&mut self) -> Result<(), ServerStop>
        ensures { self.new.desk ≡ self.old.desk }
    {
        let registry = self.poll.registry();
        if registry
            .register(&mut self.listener, LISTENER, Interest::READABLE)
            .is_err()
        {
            return Err(ServerStop::Poll);
        }
        let Ok(address) = self.listener.local_addr() else {
            return Err(ServerStop::Poll);
        };
        self.printer.push(listening_line(address.port()).as_str());
        Ok(())
    }

    /// Reads standard input once, and takes the events that were read.
    fn read_input(&mut self) -> Result<(), ServerStop>
        ensures { Keeps D.follows self.old.desk self.new.desk }
    {
        let mut given = Vec::new(self.alloc);
        let read = self.input.read(&mut given);
        for event in given {
            self.desk.told(event)?;
        }
        self.input.watch_again(self.poll.registry(), INPUT);
        match read {
            Ok(()) => Ok(()),
            Err(stop) => Err(ServerStop::Input(stop)),
        }
    }

    /// Reads standard input to its end.
    fn read_whole_input(&mut self) -> Result<(), ServerStop>
        ensures { Keeps D.follows self.old.desk self.new.desk }
    {
        for _ in 0..u64::MAX {
            if !self.input.is_open() {
                return Ok(());
            }
            self.read_input()?;
        }
        Ok(())
    }

    /// Ends a round: writes the stream, closes connections whose time has come, accepts new ones,
    /// and prints lines.
    fn finish_round(&mut self)
        ensures { Keeps D.follows self.old.desk self.new.desk }
    {
        self.print_happened();
        self.write_current();
        self.close_broken();
        self.close_unread();
        self.places.close_due(self.now);
        self.accept_waiting();
        self.printer.print(self.poll.registry(), OUTPUT);
    }

    /// Writes the connections whose late responses may be written now, and reads them: a connection
    /// with too many bytes to write was not read, and the system does not report it again.
    fn handle_late(&mut self) -> Result<(), LiveFault>
        ensures { Keeps D.follows self.old.desk self.new.desk }
    {
        for place in 0..MAX_CONNECTIONS {
            self.handle_if_due(place)?;
        }
        Ok(())
    }

    fn handle_if_due(&mut self, place: usize) -> Result<(), LiveFault>
        ensures { Keeps D.follows self.old.desk self.new.desk }
    {
        if self.places.end_delay(place, self.now) {
            self.handle_ready(place, false)
        } else {
            Ok(())
        }
    }

    /// Writes the current stream, if there is one.
    fn write_current(&mut self)
        ensures { Keeps D.follows self.old.desk self.new.desk }
    {
        if let Some(place) = self.streaming {
            self.write_unless_blocked(place);
        }
    }

    /// Ends the stream if it is to break, once all that was sent before is written.
    fn close_broken(&mut self)
        ensures { Keeps D.follows self.old.desk self.new.desk }
    {
        if !self.desk.is_broken_off() {
            return;
        }
        if let Some(place) = self.streaming
            && self.places.is_written(place)
        {
            self.close(place, StreamEnd::Broken);
        }
    }

    /// Ends a stream that its client does not read.
    fn close_unread(&mut self)
        ensures { Keeps D.follows self.old.desk self.new.desk }
    {
        if self.desk.pending().len() > MAX_STREAM_UNREAD {
            self.close_current(StreamEnd::Unread);
        }
    }

    /// Ends the current stream, if there is one, and closes its connection.
    fn close_current(&mut self, why: StreamEnd)
        ensures { Keeps D.follows self.old.desk self.new.desk }
    {
        if let Some(place) = self.streaming {
            self.close(place, why);
        }
    }

    /// Ends the current stream, and writes what waits for at most `FINISH` milliseconds.
    pub fn finish<R: Clock>(&mut self, rt: &R, start: Instant, events: &mut Events)
        ensures { Keeps D.follows self.old.desk self.new.desk }
    {
        self.stop_stream();
        self.finish_all();
        let until = self.now.saturating_add(FINISH);
        for _ in 0..u64::MAX {
            self.places.close_due(self.now);
            self.printer.print(self.poll.registry(), OUTPUT);
            if self.is_finished() || self.now >= until {
                return;
            }
            if self.wait(rt, start, Some(until), events).is_err() {
                return;
            }
            self.finish_ready(events);
        }
    }

    /// Ends the current stream by its last chunk, because the run ends; or without it, if it cannot
    /// be ended so.
    fn stop_stream(&mut self)
        ensures { Keeps D.follows self.old.desk self.new.desk }
    {
        if self.end_current().is_err() {
            self.close_current(StreamEnd::Stopped);
        }
    }

    /// Ends the current stream by its last chunk, if there is one.
    fn end_current(&mut self) -> Result<(), LiveFault>
        ensures { Keeps D.follows self.old.desk self.new.desk }
    {
        match self.desk.stop()? {
            Some(ended) => self.end_stream(&ended, StreamEnd::Stopped),
            None => Ok(()),
        }
    }

    /// Writes what waits, as far as it does not block. What the last wait reported may not have
    /// been handled, so that the system has to report it again.
    fn finish_all(&mut self)
        ensures { Keeps D.follows self.old.desk self.new.desk }
    {
        self.printer.watch_again(self.poll.registry(), OUTPUT);
        for place in 0..MAX_CONNECTIONS {
            self.finish_one(place);
        }
    }

    /// Handles what is ready at the end of the run: only what was not written counts.
    fn finish_ready(&mut self, events: &Events)
        ensures { Keeps D.follows self.old.desk self.new.desk }
    {
        for event in events.iter() {
            self.finish_event(event);
        }
    }

    fn finish_event(&mut self, event: &Event)
        ensures { Keeps D.follows self.old.desk self.new.desk }
    {
        match event.token() {
            OUTPUT => self.printer.set_ready(),
            LISTENER | INPUT => {}
            Token(place) => self.finish_one(place),
        }
    }

    /// Returns whether nothing waits to be written, and no connection waits to be closed.
    fn is_finished(&self) -> bool {
        self.printer.is_done() && self.places.are_at_rest()
    }

    /// Prints a line for each planned fault that happened since the last call.
    fn print_happened(&mut self)
        ensures { Keeps D.follows self.old.desk self.new.desk }
    {
        for fault in self.desk.take_happened() {
            self.printer.push(fault_happened_line(&fault).as_str());
        }
    }

    /// Prints that the current stream ended.
    fn print_ended(&mut self, why: StreamEnd)
        ensures { self.new.desk ≡ self.old.desk }
    {
        if let Some(id) = self.desk.stream() {
            let line = ended_line(id, why);
            self.printer.push(line.as_str());
        }
    }
}
