//! One connection of the live test master. `paging.rt` has the requests for pages.

ghost use Rattle.std.specs.Prelude.{◌≡◌, ◌≤◌, ◌==◌, ℕ, List, [], ◌∷◌, ◌++◌, length, OnOk, IfOk};
ghost use Rattle.mes_double_http.specs.Pages.{BeginsNoPage};
ghost use Rattle.mes_double_http.specs.Texts.{response_text};
ghost use Rattle.mesosev_live.specs.Desks.{Keeps};
ghost use Rattle.mesosev_live.specs.Runs.{Steps, bytes_of};
ghost use Rattle.mesosev_live.specs.Runs.Step.{comes, writes, ends};
ghost use Rattle.mesosev_live.specs.Serving.{head_by, persistence_after, phase_after, phase_by, response_head, response_phase, refusal_head, EndsRequests, ServesNext, ServesAll};
ghost use Rattle.mesosev_live.specs.Transfers.{IsWithin, GoesFrom};
ghost use Rattle.mesosev_live.specs.declared.connection.Phase.TheVariants.{Serving, Ending};
ghost use Rattle.mesosev_live.specs.declared.connection.Served.TheVariants.{Refused};

mod paging;

use self::paging::{CALL_START, begins_page};
use crate::desk::{Answered, Desk};
use crate::limits::{LINGER, MAX_ENDING, MAX_UNSENT, MILLIS, READS_AT_ONCE};
use crate::outgoing::Outgoing;
use crate::transfer::{Came, Went, discard_ready, put_ready, take_ready};
use http::StatusCode;
use mes_double_faults::CallFault;
use mes_double_http::{NextPage, NextRequest, Persistence, RequestReader};
use mes_double_live::{LiveFault, Reply};
use mes_frame::FromStd;
use mio::net::TcpStream;
use std::alloc::Global;
use std::net::Shutdown;

/// What a connection is used for.
#[derive(Clone, Copy, Debug, PartialEq, Eq)]
pub(crate) enum Phase {
    /// Requests are read and answered.
    Serving,
    /// The current stream is written after the pending bytes, and what comes is discarded.
    Streaming,
    /// The pending bytes are written, and then the connection is closed.
    Ending,
    /// All was written. What comes is discarded until the client closes, or until this time in
    /// milliseconds.
    Draining(u64),
}

/// One connection.
#[derive(Drop)]
pub(crate) struct Connection {
    socket: TcpStream,
    /// The reader of requests.
    requests: RequestReader,
    /// The bytes to write, before those of a stream.
    out: Outgoing,
    /// What the connection is used for.
    phase: Phase,
    /// True once the client sends no more bytes.
    has_ended: bool,
    /// True after a write that would have blocked, until the system reports the socket.
    is_blocked: bool,
    /// The time at which a connection that is ending is closed, even if not all was written.
    closes_unwritten: Option<u64>,
    /// The time before which nothing is written, because a response is late.
    writes_from: Option<u64>,
}

/// A request that was served.
#[derive(Drop)]
pub(crate) enum Served {
    /// The request was answered.
    Answered(Answered),
    /// The request was refused with this status, or without a response.
    Refused(Option<StatusCode>),
    /// The page or the state was shown.
    Shown,
    /// The request to `/fault` was answered with this status.
    Demanded(StatusCode),
}

impl Connection {
    /// Returns a connection whose first request has not come.
    pub fn new(alloc: Global, socket: TcpStream) -> Connection
        ensures requests { result.requests ≡ [] }
        ensures out { result.out ≡ [] }
        ensures phase { result.phase ≡ Serving }
    {
        Connection {
            socket,
            requests: RequestReader::new(alloc),
            out: Outgoing::new(alloc),
            phase: Phase::Serving,
            has_ended: false,
            is_blocked: false,
            closes_unwritten: None,
            writes_from: None,
        }
    }

    /// Returns the socket, to register it.
    pub fn socket(&mut self) -> &mut TcpStream {
        &mut self.socket
    }

    /// Returns what the connection is used for.
    pub fn phase(&self) -> Phase
        ensures { result ≡ self.now.phase }
    {
        self.phase
    }

    /// Returns whether the last write would have blocked, and the system has not reported the
    /// socket since.
    pub fn is_blocked(&self) -> bool
        ensures { result ≡ self.now.is_blocked }
    {
        self.is_blocked
    }

    /// Notes whether the last write would have blocked.
    pub fn set_blocked(&mut self, is_blocked: bool)
        ensures { self.new ≡ record self.old { is_blocked = is_blocked } }
    {
        self.is_blocked = is_blocked;
    }

    /// Returns whether nothing may be written at the time `now`, because a response is late.
    pub fn is_late(&self, now: u64) -> bool {
        match self.writes_from {
            Some(from) => now < from,
            None => false,
        }
    }

    /// Returns the time from which a late response may be written.
    pub fn writes_from(&self) -> Option<u64> {
        self.writes_from
    }

    /// Ends that a response is late, if its time has come. Returns whether it has.
    pub fn end_delay(&mut self, now: u64) -> bool {
        if self.writes_from.is_none() || self.is_late(now) {
            return false;
        }
        self.writes_from = None;
        true
    }

    /// Has nothing be written for this number of seconds at least.
    fn delay(&mut self, now: u64, seconds: u32)
        ensures requests { self.new.requests ≡ self.old.requests }
        ensures out { self.new.out ≡ self.old.out }
        ensures phase { self.new.phase ≡ self.old.phase }
    {
        let from = now.saturating_add(u64::from(seconds).saturating_mul(MILLIS));
        self.writes_from = match self.writes_from {
            Some(later) => Some(later.max(from)),
            None => Some(from),
        };
    }

    /// Returns whether bytes of a call can be read. Those of a request for a page do not count.
    pub fn has_call(&self) -> bool {
        if self.phase != Phase::Serving || self.has_ended {
            return false;
        }
        let mut first = [0; CALL_START];
        match self.socket.peek(&mut first) {
            Ok(count) => count > 0 && !begins_page(&first[..count.min(CALL_START)]),
            Err(_) => false,
        }
    }

    /// Notes that the client sends no more bytes.
    pub fn set_ended(&mut self) {
        self.has_ended = true;
    }

    /// Returns whether more than `MAX_UNSENT` bytes of responses wait. No requests are read then.
    pub fn is_full(&self) -> bool {
        self.phase == Phase::Serving && self.out.pending().len() > MAX_UNSENT
    }

    /// Returns whether all pending bytes were written.
    pub fn is_written(&self) -> bool
        ensures { result ≡ (length self.now.out == 0) }
    {
        self.out.pending().is_empty()
    }

    /// Returns whether nothing waits to be written, and the connection does not wait to be closed.
    pub fn is_at_rest(&self) -> bool {
        self.phase == Phase::Serving && self.is_written()
    }

    /// Reads once, if the client sends more and reads the responses.
    pub fn take_if_readable(&mut self) -> Result<Came, LiveFault> {
        if self.has_ended || self.is_full() {
            return Ok(Came::Nothing);
        }
        self.take()
    }

    /// Reads once.
    fn take(&mut self) -> Result<Came, LiveFault>
        ensures comes { IfOk result (λ _. (piece : List ℕ)
            × Steps (comes piece) (bytes_of self.old) (bytes_of self.new)) }
        ensures phase { self.new.phase ≡ self.old.phase }
    {
        let mut source = FromStd::new(&self.socket);
        match self.phase {
            Phase::Serving => match take_ready(&mut source, &mut self.requests) {
                Ok(came) => Ok(came),
                Err(_) => Err(LiveFault::NoMemory),
            },
            _ => Ok(discard_ready(&mut source)),
        }
    }

    /// Responds to the requests that have come, in order, and appends them to `served`. The time is
    /// `now`.
    pub fn serve<D: Desk>(
        &mut self,
        desk: &mut D,
        now: u64,
        served: &mut Vec<Served>,
    ) -> Result<(), LiveFault>
        requires { served.old.items ≡ [] }
        ensures kept { Keeps D.follows desk.old desk.new }
        // All requests that came are served, in order, each once and with its own response.
        ensures all { OnOk result (ServesAll D.answers D.shows D.takes self.old desk.old
            served.new.items self.new desk.new) }
    {
        for _ in 0..u64::MAX {
            let Some(turn) = self.serve_next(desk, now)? else {
                return Ok(());
            };
            keep(served, turn)?;
        }
        Ok(())
    }

    /// Takes the next request, if the connection serves requests and a whole one is there, and
    /// appends the response.
    fn serve_next<D: Desk>(&mut self, desk: &mut D, now: u64) -> Result<Option<Served>, LiveFault>
        ensures kept { Keeps D.follows desk.old desk.new }
        ensures next { IfOk result (ServesNext D.answers D.shows D.takes self.old desk.old
            self.new desk.new) }
    {
        if self.phase != Phase::Serving {
            return Ok(None);
        }
        self.serve_request(desk, now)
    }

    /// Takes the next request, if a whole one is there, and appends the response.
    fn serve_request<D: Desk>(
        &mut self,
        desk: &mut D,
        now: u64,
    ) -> Result<Option<Served>, LiveFault>
        requires { self.old.phase ≡ Serving }
        ensures kept { Keeps D.follows desk.old desk.new }
        ensures next { IfOk result (ServesNext D.answers D.shows D.takes self.old desk.old self.new
            desk.new) }
    {
        match self.requests.next_page() {
            NextPage::Nothing => self.serve_call(desk, now),
            NextPage::More => Ok(None),
            NextPage::Whole(request, persistence) => {
                Ok(Some(self.show(desk, &request, persistence)?))
            }
            NextPage::Refused(status) => Ok(Some(self.refuse(Some(status))?)),
            NextPage::NoMemory => Ok(Some(self.refuse(None)?)),
        }
    }

    /// Takes the next request as a call, if a whole one is there, and appends the response.
    fn serve_call<D: Desk>(&mut self, desk: &mut D, now: u64) -> Result<Option<Served>, LiveFault>
        requires serving { self.old.phase ≡ Serving }
        requires call { BeginsNoPage self.old.requests }
        ensures kept { Keeps D.follows desk.old desk.new }
        ensures next { IfOk result (ServesNext D.answers D.shows D.takes self.old desk.old self.new
            desk.new) }
    {
        match self.requests.next() {
            NextRequest::More => Ok(None),
            NextRequest::Whole(request, persistence) => {
                let answered = desk.answer(&request)?;
                self.respond(&answered.reply, persistence, now)?;
                Ok(Some(Served::Answered(answered)))
            }
            NextRequest::Fault(fault) => Ok(Some(self.refuse(fault.response())?)),
        }
    }

    /// Appends the head of the response to a call, by the fault of the call: late, or none.
    fn respond(
        &mut self,
        reply: &Reply,
        persistence: Persistence,
        now: u64,
    ) -> Result<(), LiveFault>
        ensures requests { self.new.requests ≡ self.old.requests }
        ensures out { OnOk result
            (self.new.out ≡ self.old.out ++ response_head reply.now persistence) }
        ensures phase { OnOk result
            (self.new.phase ≡ response_phase reply.now persistence self.old.phase) }
    {
        match reply.fault {
            Some(CallFault::Unanswered | CallFault::Reset) => {
                self.phase = Phase::Ending;
                Ok(())
            }
            Some(CallFault::Slow(seconds)) => {
                self.delay(now, seconds);
                self.push_response(reply, persistence)
            }
            _ => self.push_response(reply, persistence),
        }
    }

    /// Appends the head of the response to a call.
    fn push_response(&mut self, reply: &Reply, persistence: Persistence) -> Result<(), LiveFault>
        ensures requests { self.new.requests ≡ self.old.requests }
        ensures out { OnOk result
            (self.new.out ≡ self.old.out ++ head_by reply.now.opened reply.now.status persistence) }
        ensures phase { OnOk result (self.new.phase
            ≡ phase_by reply.now.opened reply.now.status persistence self.old.phase) }
    {
        match &reply.opened {
            Some(id) => {
                if self.out.push_ok(id).is_err() {
                    return Err(LiveFault::NoMemory);
                }
                self.phase = Phase::Streaming;
                Ok(())
            }
            None => self.push_status(reply.status, persistence_after(reply.status, persistence)),
        }
    }

    /// Appends the head of a response without a body. The connection ends if it is to be closed.
    fn push_status(&mut self, status: StatusCode, persistence: Persistence) -> Result<(), LiveFault>
        ensures requests { self.new.requests ≡ self.old.requests }
        ensures out { OnOk result
            (self.new.out ≡ self.old.out ++ response_text persistence status) }
        ensures phase { OnOk result (self.new.phase ≡ phase_after persistence self.old.phase) }
    {
        if self.out.push_status(status, persistence).is_err() {
            return Err(LiveFault::NoMemory);
        }
        if persistence == Persistence::Close {
            self.phase = Phase::Ending;
        }
        Ok(())
    }

    /// Appends the response to a request that is refused, with this status if there is one, and ends
    /// the connection.
    fn refuse(&mut self, status: Option<StatusCode>) -> Result<Served, LiveFault>
        ensures served { IfOk result (λ turn. turn ≡ Refused status) }
        ensures requests { self.new.requests ≡ self.old.requests }
        ensures out { OnOk result (self.new.out ≡ self.old.out ++ refusal_head status) }
        ensures phase { OnOk result (self.new.phase ≡ Ending) }
    {
        self.phase = Phase::Ending;
        if let Some(status) = status {
            self.push_status(status, Persistence::Close)?;
        }
        Ok(Served::Refused(status))
    }

    /// Refuses the request that the end of the connection cuts off, and ends the connection.
    pub fn end_requests(&mut self) -> Result<Option<Served>, LiveFault>
        ensures { IfOk result (EndsRequests self.old self.new) }
    {
        match self.requests.fault_at_end() {
            Some(fault) => Ok(Some(self.refuse(fault.response())?)),
            None => {
                self.phase = Phase::Ending;
                Ok(None)
            }
        }
    }

    /// Appends the last bytes of the stream, and ends the connection.
    pub fn end_stream(&mut self, rest: &[u8]) -> Result<(), LiveFault>
        ensures ends { OnOk result (Steps (ends rest.now) (bytes_of self.old) (bytes_of self.new)) }
        ensures phase { OnOk result (self.new.phase ≡ Ending) }
    {
        if self.out.push(rest).is_err() {
            return Err(LiveFault::NoMemory);
        }
        self.phase = Phase::Ending;
        Ok(())
    }

    /// Writes pending bytes once.
    pub fn put(&mut self) -> Went
        ensures writes { (piece : List ℕ)
            × Steps (writes piece) (bytes_of self.old) (bytes_of self.new) }
        ensures out { GoesFrom self.old.out self.new.out result }
        ensures phase { self.new.phase ≡ self.old.phase }
    {
        let mut sink = FromStd::new(&self.socket);
        let went = put_ready(&mut sink, self.out.pending());
        if let Went::Bytes(count) = went {
            self.out.wrote(count);
        }
        went
    }

    /// Writes bytes of the current stream once. All pending bytes must be written: the stream follows
    /// the head of its response.
    pub fn put_stream(&mut self, bytes: &[u8]) -> Went
        requires { length self.old.out ≡ 0 }
        ensures { IsWithin (length bytes.now) result }
    {
        put_ready(&mut FromStd::new(&self.socket), bytes)
    }

    /// Begins to close the connection, if all was written. Returns whether the connection is to be
    /// closed at once.
    pub fn end(&mut self, now: u64) -> bool {
        if self.phase != Phase::Ending || !self.is_written() {
            return false;
        }
        if self.has_ended || self.socket.shutdown(Shutdown::Write).is_err() {
            return true;
        }
        self.phase = Phase::Draining(now.saturating_add(LINGER));
        false
    }

    /// Discards what came, up to `READS_AT_ONCE` reads.
    pub fn discard(&mut self) {
        let mut source = FromStd::new(&self.socket);
        for _ in 0..READS_AT_ONCE {
            match discard_ready(&mut source) {
                Came::Bytes => {}
                Came::Nothing | Came::Failure => return,
                Came::End => {
                    self.has_ended = true;
                    return;
                }
            }
        }
    }

    /// Returns whether the connection is to be closed at the time `now`, even if the client does
    /// not close it, or after the client did.
    pub fn is_due(&mut self, now: u64) -> bool {
        match self.phase {
            Phase::Draining(until) => self.has_ended || until <= now,
            Phase::Ending => !self.is_late(now) && self.is_ending_for_too_long(now),
            _ => false,
        }
    }

    /// Returns whether the client had `MAX_ENDING` milliseconds to read the last bytes. The time
    /// begins with the first call.
    fn is_ending_for_too_long(&mut self, now: u64) -> bool {
        match self.closes_unwritten {
            Some(until) => until <= now,
            None => {
                self.closes_unwritten = Some(now.saturating_add(MAX_ENDING));
                false
            }
        }
    }

    /// Returns the time at which the connection is closed even if the client does not.
    pub fn closes_at(&self) -> Option<u64> {
        match self.phase {
            Phase::Draining(until) => Some(until),
            Phase::Ending => self.closes_unwritten,
            _ => None,
        }
    }
}

/// Appends a request that was served.
fn keep(served: &mut Vec<Served>, turn: Served) -> Result<(), LiveFault>
    ensures { OnOk result (served.new.items ≡ served.old.items ++ turn ∷ []) }
{
    match served.push(turn) {
        Ok(()) => Ok(()),
        Err(_) => Err(LiveFault::NoMemory),
    }
}

/// Returns what becomes of a connection after the response to a call with this status: after a 400
/// it is closed.
fn persistence_after(status: StatusCode, persistence: Persistence) -> Persistence
    ensures { result ≡ persistence_after status persistence }
{
    if status == StatusCode::BAD_REQUEST {
        Persistence::Close
    } else {
        persistence
    }
}
