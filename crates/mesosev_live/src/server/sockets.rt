//! The reads and writes of the connections, and how they are accepted and closed.

ghost use Rattle.std.specs.Prelude.{◌≡◌};
ghost use Rattle.mesosev_live.specs.Desks.{Keeps};

use super::Server;
use crate::connection::{Connection, Phase};
use crate::desk::Desk;
use crate::limits::{MAX_CONNECTIONS, READS_AT_ONCE};
use crate::lines::StreamEnd;
use crate::transfer::{Came, Went};
use mes_double_live::LiveFault;
use mes_frame::{Sink, Source};
use mio::net::TcpStream;
use mio::{Interest, Token};
use std::io::ErrorKind;

impl<'a, D: Desk, I: Source, O: Sink> Server<'a, D, I, O> {
    /// Writes and reads a connection that is ready, or closes one that has failed.
    pub(super) fn handle_ready(&mut self, place: usize, has_failed: bool) -> Result<(), LiveFault>
        ensures { Keeps D.follows self.old.desk self.new.desk }
    {
        if has_failed {
            self.close(place, StreamEnd::Closed);
            return Ok(());
        }
        self.places.set_blocked(place, false);
        self.write(place);
        self.read(place)?;
        self.write_unless_blocked(place);
        Ok(())
    }

    /// Reads a connection until no more bytes are there, and responds to the requests. After
    /// `READS_AT_ONCE` reads the others have their turn.
    fn read(&mut self, place: usize) -> Result<(), LiveFault>
        ensures { Keeps D.follows self.old.desk self.new.desk }
    {
        for _ in 0..READS_AT_ONCE {
            match self.read_once(place)? {
                Came::Bytes => self.serve(place)?,
                Came::Nothing => return Ok(()),
                Came::End => return self.handle_end(place),
                Came::Failure => {
                    self.close(place, StreamEnd::Closed);
                    return Ok(());
                }
            }
        }
        self.register_again(place);
        Ok(())
    }

    /// Reads a connection once, unless its client does not read the responses: then the connection
    /// is read after some of them were written.
    fn read_once(&mut self, place: usize) -> Result<Came, LiveFault>
        ensures { Keeps D.follows self.old.desk self.new.desk }
    {
        self.write_full(place);
        if self.desk.resets_next() && self.places.has_call(place) {
            return self.reset(place);
        }
        match self.places.get(place) {
            Some(connection) => connection.take_if_readable(),
            None => Ok(Came::Nothing),
        }
    }

    /// Resets the connection on which a call comes: the system resets a connection that is closed
    /// while bytes are not read.
    fn reset(&mut self, place: usize) -> Result<Came, LiveFault>
        ensures { Keeps D.follows self.old.desk self.new.desk }
    {
        self.desk.reset()?;
        self.print_happened();
        self.close(place, StreamEnd::Closed);
        Ok(Came::Nothing)
    }

    /// Writes a connection on which too many bytes of responses wait.
    fn write_full(&mut self, place: usize)
        ensures { Keeps D.follows self.old.desk self.new.desk }
    {
        if self.places.is_full(place) {
            self.write_unless_blocked(place);
        }
    }

    /// Has the system report again what a connection is ready for.
    fn register_again(&mut self, place: usize)
        ensures { Keeps D.follows self.old.desk self.new.desk }
    {
        let registry = self.poll.registry();
        let Some(connection) = self.places.get(place) else {
            return;
        };
        let interests = Interest::READABLE | Interest::WRITABLE;
        let again = registry.reregister(connection.socket(), Token(place), interests);
        if again.is_err() {
            self.close(place, StreamEnd::Closed);
        }
    }

    /// Notes that the client sends no more. A client that has gone is found out by a HEARTBEAT on
    /// its stream; one that only ended its side still receives the stream.
    fn handle_end(&mut self, place: usize) -> Result<(), LiveFault>
        ensures { Keeps D.follows self.old.desk self.new.desk }
    {
        match self.places.note_end(place) {
            Some(Phase::Serving) => self.end_requests(place),
            Some(Phase::Streaming) => self.desk.beat(),
            Some(Phase::Draining(_)) => {
                self.close(place, StreamEnd::Closed);
                Ok(())
            }
            Some(Phase::Ending) | None => Ok(()),
        }
    }

    /// Writes a connection, unless its last write would have blocked and the system has not
    /// reported it since.
    pub(super) fn write_unless_blocked(&mut self, place: usize)
        ensures { Keeps D.follows self.old.desk self.new.desk }
    {
        if !self.places.is_blocked(place) {
            self.write(place);
        }
    }

    /// Writes a connection: what waits, and then the current stream if the connection has it. Ends
    /// a connection that is to end once all is written.
    fn write(&mut self, place: usize)
        ensures { Keeps D.follows self.old.desk self.new.desk }
    {
        if self.write_waiting(place) {
            self.write_if_current(place);
            self.end_written(place);
        }
    }

    /// Writes the current stream, if the connection at this place has it.
    fn write_if_current(&mut self, place: usize)
        ensures { Keeps D.follows self.old.desk self.new.desk }
    {
        if self.streaming == Some(place) {
            self.write_stream(place);
        }
    }

    /// Ends a connection that is to end once all is written.
    fn end_written(&mut self, place: usize)
        ensures { Keeps D.follows self.old.desk self.new.desk }
    {
        if self.places.end(place, self.now) {
            self.close(place, StreamEnd::Closed);
        }
    }

    /// Writes what waits. Returns whether all was written.
    fn write_waiting(&mut self, place: usize) -> bool
        ensures { Keeps D.follows self.old.desk self.new.desk }
    {
        for _ in 0..u64::MAX {
            let Some(connection) = self.places.get(place) else {
                return false;
            };
            if connection.is_late(self.now) {
                return false;
            }
            if connection.is_written() {
                return true;
            }
            let went = connection.put();
            if !self.goes_on(place, went) {
                return false;
            }
        }
        false
    }

    /// Writes the current stream, as far as the connection takes it.
    fn write_stream(&mut self, place: usize)
        ensures { Keeps D.follows self.old.desk self.new.desk }
    {
        for _ in 0..u64::MAX {
            let Some(went) = self.put_stream(place) else {
                return;
            };
            if !self.goes_on(place, went) {
                return;
            }
        }
    }

    /// Writes bytes of the current stream once. Returns `None` if none are pending, or other bytes
    /// have to be written before.
    fn put_stream(&mut self, place: usize) -> Option<Went>
        ensures { Keeps D.follows self.old.desk self.new.desk }
    {
        let connection = self.places.get(place)?;
        let pending = self.desk.pending();
        if pending.is_empty() || !connection.is_written() {
            return None;
        }
        let went = connection.put_stream(pending);
        if let Went::Bytes(count) = went {
            self.desk.wrote(count);
        }
        Some(went)
    }

    /// Returns whether the connection takes more bytes after a write. Closes one that has failed.
    fn goes_on(&mut self, place: usize, went: Went) -> bool
        ensures { Keeps D.follows self.old.desk self.new.desk }
    {
        match went {
            Went::Bytes(_) => true,
            Went::Nothing => {
                self.places.set_blocked(place, true);
                false
            }
            Went::Failure => {
                self.close(place, StreamEnd::Closed);
                false
            }
        }
    }

    /// Writes what waits at the end of the run, and discards what comes.
    pub(super) fn finish_one(&mut self, place: usize)
        ensures { Keeps D.follows self.old.desk self.new.desk }
    {
        self.places.set_blocked(place, false);
        self.places.discard(place);
        self.write(place);
    }

    /// Accepts the connections that wait, as far as there are places.
    pub(super) fn accept_waiting(&mut self)
        ensures { self.new.desk ≡ self.old.desk }
    {
        if !self.may_accept {
            return;
        }
        for _ in 0..MAX_CONNECTIONS {
            let Some(place) = self.places.free() else {
                return;
            };
            match self.listener.accept() {
                Ok((socket, _peer)) => self.admit(place, socket),
                Err(error) => {
                    self.may_accept = error.kind() != ErrorKind::WouldBlock;
                    return;
                }
            }
        }
    }

    /// Lets a connection have a place.
    fn admit(&mut self, place: usize, socket: TcpStream)
        ensures { self.new.desk ≡ self.old.desk }
    {
        // Without this option the kernel delays small writes.
        let _ = socket.set_nodelay(true);
        let mut connection = Connection::new(self.alloc, socket);
        let interests = Interest::READABLE | Interest::WRITABLE;
        let registered = self
            .poll
            .registry()
            .register(connection.socket(), Token(place), interests);
        if registered.is_ok() {
            self.places.put(place, connection);
        }
    }

    /// Closes a connection. If it has the current stream, the stream ends.
    pub(super) fn close(&mut self, place: usize, why: StreamEnd)
        ensures { Keeps D.follows self.old.desk self.new.desk }
    {
        self.places.close(place);
        if self.streaming == Some(place) {
            self.print_ended(why);
            self.streaming = None;
            self.desk.broken();
        }
    }
}
