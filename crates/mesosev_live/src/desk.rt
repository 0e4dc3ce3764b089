//! What the loop over the sockets needs of a test master.

ghost use Rattle.std.specs.Prelude.{◌≡◌, ℕ, ◌≤◌, List, length, IfOk};
ghost use Rattle.mes_double_http.specs.declared.request.Request.{Request as RequestValue};
ghost use Rattle.mes_double_live.specs.declared.reply.Reply.{Reply as ReplyValue};
ghost use Rattle.mesosev_live.specs.Desks.{Keeps};

use http::StatusCode;
use mes_double_faults::Fault;
use mes_double_http::{Request, StreamId};
use mes_double_live::{EndedStream, LiveFault, Reply};
use mes_msg::Event;

/// The response to a request, and the type of its call.
#[derive(Drop)]
pub struct Answered {
    /// The response.
    pub reply: Reply,
    /// The name of the call's type, or `-` if the body is not a call.
    pub name: &'static str,
    ghost short: { length name.now ≤ 11 },
}

/// A test master without connections. Times are in milliseconds.
pub trait Desk {
    /// What holds between an earlier state and a later one, if only inputs lie between them.
    ghost follows: { Self → Self → Type 0 };

    /// Relates a state and a request to the next state and the response.
    ghost answers: { Self → RequestValue → Self → ReplyValue → Type 0 };

    /// The bytes of the current stream that are not written.
    ghost pending: { Self → List ℕ };

    /// The text of a state.
    ghost shows: { Self → List ℕ };

    /// Relates a state and the body of a request to `/fault` to the next state and the status of the
    /// response.
    ghost takes: { Self → List ℕ → Self → ℕ → Type 0 };

    /// Handles a request.
    fn answer(&mut self, request: &Request) -> Result<Answered, LiveFault>
        ensures kept { Keeps follows self.old self.new }
        ensures by { IfOk result (λ a. answers self.old request.now self.new a.reply) };

    /// Returns whether the connection of the next call is to be reset.
    fn resets_next(&self) -> bool;

    /// Counts a call whose connection is reset before the call is read.
    fn reset(&mut self) -> Result<(), LiveFault>
        ensures { Keeps follows self.old self.new };

    /// Returns the planned faults that happened since the last call of this method, in order.
    fn take_happened(&mut self) -> Vec<Fault>
        ensures { Keeps follows self.old self.new };

    /// Takes an event of standard input.
    fn told(&mut self, event: Event) -> Result<(), LiveFault>
        ensures { Keeps follows self.old self.new };

    /// Takes an event of the body of a request. Returns the status of the response.
    fn demand(&mut self, body: &[u8]) -> Result<StatusCode, LiveFault>
        ensures kept { Keeps follows self.old self.new }
        ensures by { IfOk result (λ status. takes self.old body.now self.new status) };

    /// Returns the state as a JSON text.
    fn state(&self) -> Result<Vec<u8>, LiveFault>
        ensures { IfOk result (λ text. text.items ≡ shows self.now) };

    /// Notes the time.
    fn passed(&mut self, now: u64) -> Result<(), LiveFault>
        ensures { Keeps follows self.old self.new };

    /// Sends a HEARTBEAT, if there is a stream.
    fn beat(&mut self) -> Result<(), LiveFault>
        ensures { Keeps follows self.old self.new };

    /// Notes that the current stream was disconnected.
    fn broken(&mut self)
        ensures { Keeps follows self.old self.new };

    /// Ends the current stream, if there is one.
    fn stop(&mut self) -> Result<Option<EndedStream>, LiveFault>
        ensures { Keeps follows self.old self.new };

    /// Notes that the first `count` pending bytes were written.
    fn wrote(&mut self, count: usize)
        requires { count ≤ length (pending self.old) }
        ensures { Keeps follows self.old self.new };

    /// Returns whether the connection of the current stream is to be closed now.
    fn is_broken_off(&self) -> bool;

    /// Returns the bytes of the current stream that are not written.
    fn pending(&self) -> &[u8]
        ensures { result.now ≡ pending self.now };

    /// Returns the id of the current stream.
    fn stream(&self) -> Option<&StreamId>;

    /// Returns the first time at which something is due.
    fn first_due(&self) -> Option<u64>;
}
