//! The response to a request.

ghost use Rattle.std.specs.Prelude.{◌≡◌, ◌≤◌, length};
ghost use Rattle.mesosev_serve.specs.Lines.{reply_name};

use crate::outgoing::Outgoing;
use http::StatusCode;
use itoa::Buffer;
use mes_double_http::StreamId;

/// The response to a request.
#[derive(Drop)]
pub(crate) enum Reply<'a> {
    /// No response: the connection is closed.
    Nothing,
    /// A status without a body.
    Status(StatusCode),
    /// Status 200, and the stream with this id and these events.
    Stream(StreamId, Outgoing<'a>),
}

impl<'a> Reply<'a> {
    /// Returns the status, formatted in the buffer; `-` if there is no response.
    pub(crate) fn name<'b>(&self, digits: &'b mut Buffer) -> &'b str
        ensures name { result.now ≡ reply_name self.now }
        ensures bound { length result.now ≤ 5 }
    {
        match self {
            Reply::Nothing => "-",
            Reply::Status(code) => digits.format(code.as_u16()),
            Reply::Stream(..) => "200",
        }
    }
}
