//! Reading of a head from a reader, byte by byte, so that nothing after the head is consumed.

ghost use Rattle.std.specs.Prelude.{◌≡◌, [], ◌∷◌, length, IfOk, IfErr};
ghost use Rattle.std.specs.Io.KnownBytes.{Consumes};
ghost use Rattle.mes_double_http.specs.Endings.{AllGive, GaveEach};
ghost use Rattle.mes_double_http.specs.Stops.{stop_fault, StopsByte, IsRequestTaken, IsResponseTaken, StopsRequest, StopsResponse};

use crate::fault::HeadFault;
use crate::limits::{MAX_FIELDS, MAX_HEAD};
use crate::lines::field_lines;
use crate::target::ends_in_target;
use arrayvec::ArrayVec;
use httparse::spans::{HeaderSpan, RequestSpans, ResponseSpans, parse_request, parse_response};
use httparse::{Error, Status};
use mes_frame::Source;

/// The reason for which no head was read.
#[derive(Clone, Copy, Debug, PartialEq, Eq)]
pub(crate) enum HeadStop {
    /// The reader failed.
    Read,
    /// `MAX_HEAD` bytes were read, and they may be the beginning of a longer head.
    TooLong,
    /// The bytes are not a head, or have more than `MAX_FIELDS` fields.
    Refused,
    /// The reader ended.
    Ended,
}

impl HeadStop {
    pub(crate) fn fault(self) -> HeadFault
        ensures { result ≡ stop_fault self }
    {
        match self {
            HeadStop::Read => HeadFault::Read,
            HeadStop::TooLong => HeadFault::HeadTooLong,
            HeadStop::Refused | HeadStop::Ended => HeadFault::BadHead,
        }
    }
}

/// Reads the head of a response into `taken`, and returns the spans of its parts in `taken`.
pub(crate) fn take_response<S: Source>(
    reader: &mut S,
    taken: &mut ArrayVec<u8, MAX_HEAD>,
    headers: &mut [HeaderSpan; MAX_FIELDS],
) -> Result<ResponseSpans, HeadStop>
    ensures took { Consumes (S.device reader.old).bytes (S.device reader.new).bytes taken.new.items }
    ensures ok { IfOk result (IsResponseTaken taken.new.items headers.new) }
    ensures ok_counts { IfOk result
        (λ _. GaveEach (length taken.new.items) (S.device reader.old).counts (S.device reader.new).counts) }
    ensures err { IfErr result (λ stop. StopsResponse stop taken.new.items (S.device reader.old).counts
        (S.device reader.new).counts) }
{
    taken.clear();
    while taken.len() < MAX_HEAD {
        let byte = take_byte(reader)?;
        taken.push(byte);
        match parse_response(taken.as_slice(), headers) {
            Ok(Status::Complete(head)) => return Ok(head),
            Ok(Status::Partial) => {
                if byte == b'\n' && field_lines(taken.as_slice()) > MAX_FIELDS {
                    return Err(HeadStop::Refused);
                }
            }
            Err(Error::TooManyHeaders) => return Err(HeadStop::Refused),
            Err(_) => return Err(HeadStop::Refused),
        }
    }
    Err(HeadStop::TooLong)
}

/// Reads the head of a request into `taken`, and returns the spans of its parts in `taken`.
pub(crate) fn take_request<S: Source>(
    reader: &mut S,
    taken: &mut ArrayVec<u8, MAX_HEAD>,
    headers: &mut [HeaderSpan; MAX_FIELDS],
) -> Result<RequestSpans, HeadStop>
    ensures took { Consumes (S.device reader.old).bytes (S.device reader.new).bytes taken.new.items }
    ensures ok { IfOk result (IsRequestTaken taken.new.items headers.new) }
    ensures ok_counts { IfOk result (λ _. AllGive (S.device reader.old).counts (S.device reader.new).counts) }
    ensures err { IfErr result (λ stop. StopsRequest stop taken.new.items (S.device reader.old).counts
        (S.device reader.new).counts) }
{
    taken.clear();
    while taken.len() < MAX_HEAD {
        let byte = take_byte(reader)?;
        taken.push(byte);
        match parse_request(taken.as_slice(), headers) {
            Ok(Status::Complete(head)) => return Ok(head),
            Ok(Status::Partial) => {
                if byte == b'\n' && field_lines(taken.as_slice()) > MAX_FIELDS {
                    return Err(HeadStop::Refused);
                }
            }
            Err(Error::TooManyHeaders) => return Err(HeadStop::Refused),
            Err(_) => {
                if !ends_in_target(taken.as_slice()) {
                    return Err(HeadStop::Refused);
                }
            }
        }
    }
    Err(HeadStop::TooLong)
}

fn take_byte<S: Source>(reader: &mut S) -> Result<u8, HeadStop>
    ensures ok { IfOk result (λ byte. Consumes (S.device reader.old).bytes (S.device reader.new).bytes (byte
        ∷ [])) }
    ensures ok_counts { IfOk result (λ _. GaveEach 1 (S.device reader.old).counts (S.device reader.new).counts) }
    ensures err { IfErr result (λ stop. Consumes (S.device reader.old).bytes (S.device reader.new).bytes []
        × StopsByte stop (S.device reader.old).counts (S.device reader.new).counts) }
{
    let mut buffer = [0];
    match reader.fetch(&mut buffer) {
        Ok(0) => Err(HeadStop::Ended),
        Ok(_) => Ok(buffer[0]),
        Err(_) => Err(HeadStop::Read),
    }
}
