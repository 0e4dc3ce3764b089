//! Checks of a head's status and fields: transfer coding, media type, stream id.

ghost use Rattle.std.specs.Prelude.{◌≡◌, ◌<◌, ◌≤◌, ℕ, List, Option, length, map, All, MatchOption, MatchResult};
ghost use Rattle.httparse.specs.Spans.{IsHeaderWithin, header_bytes};
ghost use Rattle.mes_double_http.specs.Fields.{MayNameStream, NamesStream, is_chunked, is_json};
ghost use Rattle.mes_double_http.specs.Responses.{BreaksStatus};
ghost use Rattle.mes_double_http.specs.declared.fault.HeadFault.TheVariants.{NoStreamId};

use crate::fault::HeadFault;
use crate::fields::{Named, find_field, same_text};
use crate::media_type::is_json_type;
use crate::stream_id::StreamId;
use http::StatusCode;
use httparse::spans::HeaderSpan;

/// Returns whether the body is chunked, without another transfer coding.
pub(crate) fn is_chunked(bytes: &[u8], headers: &[HeaderSpan]) -> bool
    requires { All (IsHeaderWithin (length bytes.now)) headers.now }
    ensures { result ≡ is_chunked (map (header_bytes bytes.now) headers.now) }
{
    match find_field(bytes, headers, b"transfer-encoding") {
        Named::One(value) => same_text(value, b"chunked"),
        Named::Nothing | Named::More => false,
    }
}

/// Returns whether the head has exactly one Content-Type, of the media type `application/json`.
pub(crate) fn is_json(bytes: &[u8], headers: &[HeaderSpan]) -> bool
    requires { All (IsHeaderWithin (length bytes.now)) headers.now }
    ensures { result ≡ is_json (map (header_bytes bytes.now) headers.now) }
{
    match find_field(bytes, headers, b"content-type") {
        Named::One(value) => is_json_type(value),
        Named::Nothing | Named::More => false,
    }
}

/// Returns the stream id, if the head has one. Errors: the stream id is repeated or invalid.
pub(crate) fn stream_named(
    bytes: &[u8],
    headers: &[HeaderSpan],
) -> Result<Option<StreamId>, HeadFault>
    requires { All (IsHeaderWithin (length bytes.now)) headers.now }
    ensures { MatchResult result (MayNameStream (map (header_bytes bytes.now) headers.now))
        (λ f. (f ≡ NoStreamId) × ((id : Option (List ℕ))
        → MayNameStream (map (header_bytes bytes.now) headers.now) id → ⊥)) }
{
    match find_field(bytes, headers, b"mesos-stream-id") {
        Named::Nothing => Ok(None),
        Named::One(value) => match StreamId::of_bytes(value) {
            Some(id) => Ok(Some(id)),
            None => Err(HeadFault::NoStreamId),
        },
        Named::More => Err(HeadFault::NoStreamId),
    }
}

/// Returns the stream id, if the head has exactly one and it is valid.
pub(crate) fn stream_required(bytes: &[u8], headers: &[HeaderSpan]) -> Option<StreamId>
    requires { All (IsHeaderWithin (length bytes.now)) headers.now }
    ensures { MatchOption result ((id : List ℕ)
        → NamesStream (map (header_bytes bytes.now) headers.now) id → ⊥)
        (NamesStream (map (header_bytes bytes.now) headers.now)) }
{
    match stream_named(bytes, headers) {
        Ok(stream) => stream,
        Err(_) => None,
    }
}

/// Refuses a status other than the expected one.
pub(crate) fn expect_status(status: u16, expected: u16) -> Result<(), HeadFault>
    requires status { status < 1000 }
    requires expected { 100 ≤ expected }
    ensures { MatchResult result (λ _. status ≡ expected) (λ f. BreaksStatus expected f status) }
{
    match StatusCode::from_u16(status) {
        Ok(code) => {
            if status == expected {
                Ok(())
            } else {
                Err(HeadFault::Status(code))
            }
        }
        Err(_) => Err(HeadFault::BadHead),
    }
}
