//! Conversion of a caller's numbers into a record limit and a framing.

ghost use Rattle.std.specs.Prelude.{◌≡◌};
ghost use Rattle.mesosev_c.specs.Asking.{IsAsked, refused_status};

use crate::statuses::{BAD_FRAMING, BAD_LIMIT};
use mes_frame::Limit;
use mes_stream::Framing;

/// The options with which a caller creates a decoder.
#[derive(Clone, Copy, Debug, PartialEq, Eq)]
pub struct DecoderOptions {
    /// The record limit.
    pub limit: Limit,
    /// The framing.
    pub framing: Framing,
}

/// The reason for which a caller's numbers are rejected.
#[derive(Clone, Copy, Debug, PartialEq, Eq)]
pub enum BadOption {
    /// The record limit is out of its range.
    Limit,
    /// No framing has the number; the record limit is valid.
    Framing,
}

/// Converts a limit in bytes and the number of a framing: 0 for plain RecordIO, 1 for a chunked
/// body.
///
/// Errors: `Limit` if the limit is out of its range, else `Framing` if the number is above 1.
pub fn parse_options(limit: u32, framing: u32) -> Result<DecoderOptions, BadOption>
    ensures { IsAsked limit framing result }
{
    let Some(limit) = Limit::new(limit) else {
        return Err(BadOption::Limit);
    };
    match framing {
        0 => Ok(DecoderOptions {
            limit,
            framing: Framing::Plain,
        }),
        1 => Ok(DecoderOptions {
            limit,
            framing: Framing::Chunked,
        }),
        _ => Err(BadOption::Framing),
    }
}

impl BadOption {
    /// Returns the status that reports the error: `BAD_LIMIT` or `BAD_FRAMING`.
    pub fn status(self) -> u32
        ensures { result ≡ refused_status self }
    {
        match self {
            BadOption::Limit => BAD_LIMIT,
            BadOption::Framing => BAD_FRAMING,
        }
    }
}
