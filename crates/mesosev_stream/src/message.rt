//! The messages that the subcommands read: events, or calls.

ghost use Rattle.std.specs.Prelude.{◌≡◌, ◌≤◌, ◌++◌, ℕ, List, IfOk, codes, length};
ghost use Rattle.mes_msg.specs.ShowLines.{event_lines};
ghost use Rattle.mesosev_stream.specs.CallLines.{call_line};

use crate::call_line::push_call_line;
use mes_model_schema::json::NoMemory;
use mes_msg::{Call, Event};
use mes_stream::StreamMessage;

/// A message of a stream, and the texts that are printed for it.
pub trait ShownMessage: StreamMessage {
    /// The printed name of a message.
    ghost word: { List ℕ };

    /// The printed lines of the message with the given number.
    ghost lines: { ℕ → Self → List ℕ };

    /// Returns the printed name of a message: `event` or `call`.
    fn word() -> &'static str
        ensures text { result.now ≡ word }
        ensures bound { length result.now ≤ 5 };

    /// Appends the printed lines of the message with this number, each with its LF.
    ///
    /// Errors: `NoMemory` if an allocation fails; part of the lines may then have been appended.
    fn push_lines(&self, number: u64, text: &mut Vec<u8>) -> Result<(), NoMemory>
        ensures { IfOk result (λ _. text.new.items ≡ text.old.items ++ lines number self.now) };
}

impl ShownMessage for Event {
    ghost word = { codes "event" };

    ghost lines = { event_lines };

    fn word() -> &'static str {
        "event"
    }

    fn push_lines(&self, number: u64, text: &mut Vec<u8>) -> Result<(), NoMemory> {
        Event::push_lines(self, number, text)
    }
}

impl ShownMessage for Call {
    ghost word = { codes "call" };

    ghost lines = { call_line };

    fn word() -> &'static str {
        "call"
    }

    fn push_lines(&self, number: u64, text: &mut Vec<u8>) -> Result<(), NoMemory> {
        push_call_line(self, number, text)
    }
}
