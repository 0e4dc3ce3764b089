//! The printed lines of a connection.

ghost use Rattle.std.specs.Prelude.{◌≡◌, ◌≤◌, ◌++◌, length, codes};
ghost use Rattle.mesosev_serve.specs.Lines.{served_line, served_lines};

use crate::request::ParsedRequest;
use crate::response::Reply;
use crate::response_writer::SendError;
use arrayvec::ArrayString;
use itoa::Buffer;

/// The capacity for the lines of a connection, in bytes.
pub(crate) const MAX_LINE_BUFFER: usize = 64;

/// The printed line, with LF, if a request or response could not be encoded or written.
pub const WRITE_FAILED: &str = "net write failed\n";

/// Returns the lines of a connection: the status of the response, or `-`, and the type of the call,
/// or `-`. A second line is added if the response could not be encoded or written.
pub(crate) fn served_lines(
    reply: &Reply<'_>,
    asked: &ParsedRequest,
    sent: &Result<(), SendError>,
) -> ArrayString<MAX_LINE_BUFFER>
    ensures { result.bytes ≡ served_lines reply.now asked.now sent.now }
{
    let mut digits = Buffer::new();
    let status = reply.name(&mut digits);
    match sent {
        Ok(()) => served_line(status, asked.name(), ""),
        Err(SendError::NoMemory) => served_line("-", asked.name(), ""),
        Err(SendError::Encode | SendError::Write) => {
            served_line(status, asked.name(), WRITE_FAILED)
        }
    }
}

/// Returns the first line of a connection, followed by the text `more`.
fn served_line(status: &str, name: &str, more: &str) -> ArrayString<MAX_LINE_BUFFER>
    requires status { length status.now ≤ 5 }
    requires name { length name.now ≤ 11 }
    requires more { length more.now ≤ 17 }
    ensures { result.bytes ≡ served_line status.now name.now ++ more.now }
{
    let mut lines = ArrayString::new();
    lines.push_str(status);
    lines.push_str(" ");
    lines.push_str(name);
    lines.push_str("\n");
    lines.push_str(more);
    lines
}
