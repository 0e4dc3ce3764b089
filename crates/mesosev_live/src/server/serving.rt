//! The responses to the requests that come.

ghost use Rattle.std.specs.Prelude.{◌≡◌, ◌≤◌, length};
ghost use Rattle.mesosev_live.specs.Desks.{Keeps};

use super::Server;
use crate::connection::Served;
use crate::desk::{Answered, Desk};
use crate::lines::{StreamEnd, answered_line, ended_line, opened_line};
use http::StatusCode;
use mes_double_faults::CallFault;
use mes_double_http::StreamId;
use mes_double_live::{EndedStream, LiveFault, Reply};
use mes_frame::{Sink, Source};

impl<'a, D: Desk, I: Source, O: Sink> Server<'a, D, I, O> {
    /// Responds to the requests that have come on a connection, in order.
    pub(super) fn serve(&mut self, place: usize) -> Result<(), LiveFault>
        ensures { Keeps D.follows self.old.desk self.new.desk }
    {
        let Some(connection) = self.places.get(place) else {
            return Ok(());
        };
        let mut served = Vec::new(self.alloc);
        let outcome = connection.serve(&mut self.desk, self.now, &mut served);
        self.note_all(place, served)?;
        outcome
    }

    /// Prints the lines of requests that were served, and does what the responses say of streams.
    fn note_all(&mut self, place: usize, served: Vec<Served>) -> Result<(), LiveFault>
        ensures { Keeps D.follows self.old.desk self.new.desk }
    {
        for turn in served {
            self.note_served(place, &turn)?;
        }
        Ok(())
    }

    fn note_served(&mut self, place: usize, turn: &Served) -> Result<(), LiveFault>
        ensures { Keeps D.follows self.old.desk self.new.desk }
    {
        match turn {
            Served::Answered(answered) => self.note_answered(place, answered),
            Served::Refused(status) => {
                self.print_answered(*status, "-");
                Ok(())
            }
            Served::Demanded(status) => {
                self.print_answered(Some(*status), "-");
                Ok(())
            }
            // A page that is open asks for the state again and again.
            Served::Shown => Ok(()),
        }
    }

    /// Refuses the request that the end of the connection cuts off, and ends the connection.
    pub(super) fn end_requests(&mut self, place: usize) -> Result<(), LiveFault>
        ensures { Keeps D.follows self.old.desk self.new.desk }
    {
        let Some(connection) = self.places.get(place) else {
            return Ok(());
        };
        match connection.end_requests()? {
            Some(turn) => self.note_served(place, &turn),
            None => Ok(()),
        }
    }

    /// Prints the line of a request that was answered, and does what the response says of streams.
    fn note_answered(&mut self, place: usize, answered: &Answered) -> Result<(), LiveFault>
        ensures { Keeps D.follows self.old.desk self.new.desk }
    {
        let reply = &answered.reply;
        self.print_happened();
        self.print_answered(Some(reply.status), answered.name);
        self.end_replaced(reply)?;
        if let Some(id) = &reply.opened {
            self.printer.push(opened_line(id).as_str());
            self.streaming = Some(place);
            self.close_unanswered(place, reply);
        }
        Ok(())
    }

    /// Closes the connection of a new stream whose SUBSCRIBE gets no response.
    fn close_unanswered(&mut self, place: usize, reply: &Reply)
        ensures { Keeps D.follows self.old.desk self.new.desk }
    {
        if reply.fault == Some(CallFault::Unanswered) {
            self.close(place, StreamEnd::Closed);
        }
    }

    /// Prints the line of a request.
    fn print_answered(&mut self, status: Option<StatusCode>, name: &str)
        requires { length name.now ≤ 11 }
        ensures { self.new.desk ≡ self.old.desk }
    {
        self.printer.push(answered_line(status, name).as_str());
    }

    /// Ends the connection of the stream that a call ended, if it ended one.
    fn end_replaced(&mut self, reply: &Reply) -> Result<(), LiveFault>
        ensures { Keeps D.follows self.old.desk self.new.desk }
    {
        match &reply.ended {
            Some(ended) => {
                if reply.opened.is_some() {
                    self.end_stream(ended, StreamEnd::Replaced)
                } else if reply.fault == Some(CallFault::Gone) {
                    self.end_stream(ended, StreamEnd::Removed)
                } else {
                    self.is_torn_down = true;
                    self.end_stream(ended, StreamEnd::Teardown)
                }
            }
            None => Ok(()),
        }
    }

    /// Ends the connection of a stream that ended, after the last bytes of the stream.
    pub(super) fn end_stream(
        &mut self,
        ended: &EndedStream,
        why: StreamEnd,
    ) -> Result<(), LiveFault>
        ensures { Keeps D.follows self.old.desk self.new.desk }
    {
        self.printer.push(ended_line(&ended.id, why).as_str());
        let Some(place) = self.streaming.take() else {
            return Ok(());
        };
        let Some(connection) = self.places.get(place) else {
            return Ok(());
        };
        connection.end_stream(ended.rest.as_slice())?;
        self.write_unless_blocked(place);
        Ok(())
    }
}
