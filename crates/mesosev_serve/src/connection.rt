//! The result of a served connection, and its printed lines.

ghost use Rattle.std.specs.Prelude.{◌≡◌};
ghost use Rattle.mesosev_serve.specs.Lines.{Reports, is_answered, served_lines};

use crate::lines::served_lines;
use crate::request::ParsedRequest;
use crate::response::Reply;
use crate::response_writer::SendError;
use mes_frame::{Sink, WriteFault, write_all};

/// A connection that was served, and whose lines were printed.
#[derive(Clone, Copy, Debug, PartialEq, Eq)]
pub struct Served {
    /// True if the whole response was written, or if there was no response, for example because an
    /// allocation failed. False if `net write failed` was printed: an event could not be encoded
    /// and nothing was written, or the writer failed or wrote 0 bytes.
    pub answered: bool,
    /// The number of bytes of the printed lines.
    pub printed: u64,
}

/// Prints the lines of a connection, and returns its result.
pub(crate) fn report_served<O: Sink>(
    out: &mut O,
    reply: &Reply<'_>,
    asked: &ParsedRequest,
    sent: &Result<(), SendError>,
) -> Result<Served, WriteFault>
    ensures { Reports (served_lines reply.now asked.now sent.now) (is_answered sent.now)
        (O.device out.old) (O.device out.new) result }
{
    let lines = served_lines(reply, asked, sent);
    write_all(out, lines.as_str().as_bytes())?;
    Ok(Served {
        answered: is_answered(sent),
        printed: lines.len() as u64,
    })
}

/// Returns whether the whole response was written; true if there was none.
fn is_answered(sent: &Result<(), SendError>) -> bool
    ensures { result ≡ is_answered sent.now }
{
    match sent {
        Ok(()) | Err(SendError::NoMemory) => true,
        Err(SendError::Encode | SendError::Write) => false,
    }
}
