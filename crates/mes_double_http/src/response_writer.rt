//! Writing of response heads. `response.rt` reads them.

ghost use Rattle.std.specs.Prelude.{◌≡◌, ◌++◌, ◌<◌, ◌≤◌, length, take, OnOk, OnErr, IfErr};
ghost use Rattle.std.specs.Io.KnownBytes.{Appends};
ghost use Rattle.mes_frame.specs.Write.{NoneFails, StopsWrite, CallsFor};
ghost use Rattle.mes_double_http.specs.Texts.{ok_text, status_text, kept_text, response_text, phrase_text};

use crate::limits::{MAX_RESPONSE_HEAD, MAX_STREAM_ID};
use crate::persistence::Persistence;
use crate::stream_id::StreamId;
use arrayvec::ArrayString;
use http::StatusCode;
use itoa::Buffer;
use mes_frame::{Sink, WriteFault, write_all};
use std::alloc::AllocError;

/// Writes the head of the response to a SUBSCRIBE: status 200, for a chunked body, with this stream
/// id. Does not allocate.
pub fn write_ok<W: Sink>(writer: &mut W, id: &StreamId) -> Result<(), WriteFault>
    // On success: the head is written, and no call of the writer failed or accepted 0 bytes.
    ensures ok { OnOk result (Appends (W.device writer.old).bytes (W.device writer.new).bytes
        (ok_text id.now)) }
    ensures ok_counts { OnOk result (NoneFails (W.device writer.old).counts (W.device writer.new).counts) }

    // Each error: the first `sent` bytes are written, and one call of the writer failed as `why`
    // states.
    ensures err { IfErr result (λ f. (f.sent < length (ok_text id.now))
        × Appends (W.device writer.old).bytes (W.device writer.new).bytes (take f.sent (ok_text id.now))) }
    // Exactly one call failed, or accepted 0 bytes.
    ensures err_counts { IfErr result
        (λ f. StopsWrite f.why (W.device writer.old).counts (W.device writer.new).counts) }
    ensures calls { CallsFor (length (ok_text id.now)) (W.device writer.old).counts (W.device writer.new).counts }
{
    let head = ok_head(id.as_str());
    write_all(writer, head.as_str().as_bytes())
}

/// Writes the head of a response with this status and no body. Does not allocate.
pub fn write_status<W: Sink>(writer: &mut W, status: StatusCode) -> Result<(), WriteFault>
    // On success: the head is written, and no call of the writer failed or accepted 0 bytes.
    ensures ok { OnOk result (Appends (W.device writer.old).bytes (W.device writer.new).bytes
        (status_text status)) }
    ensures ok_counts { OnOk result (NoneFails (W.device writer.old).counts (W.device writer.new).counts) }

    // Each error: the first `sent` bytes are written, and one call of the writer failed as `why`
    // states.
    ensures err { IfErr result (λ f. (f.sent < length (status_text status))
        × Appends (W.device writer.old).bytes (W.device writer.new).bytes
        (take f.sent (status_text status))) }
    // Exactly one call failed, or accepted 0 bytes.
    ensures err_counts { IfErr result
        (λ f. StopsWrite f.why (W.device writer.old).counts (W.device writer.new).counts) }
    // The number of calls is bounded by the length of the head.
    ensures calls { CallsFor (length (status_text status)) (W.device writer.old).counts
        (W.device writer.new).counts }
{
    let head = status_head(status);
    write_all(writer, head.as_str().as_bytes())
}

/// Appends the head of the response to a SUBSCRIBE, as [`write_ok`] writes it. Errors: an allocation
/// failed; `out` is unchanged.
pub fn push_ok(out: &mut Vec<u8>, id: &StreamId) -> Result<(), AllocError>
    ensures ok { OnOk result (out.new.items ≡ out.old.items ++ ok_text id.now) }
    ensures err { OnErr result (out.new.items ≡ out.old.items) }
{
    let head = ok_head(id.as_str());
    out.extend_from_slice(head.as_str().as_bytes())
}

/// Appends the head of a response with this status and no body. For a connection that is closed it
/// is the head that [`write_status`] writes. Errors: an allocation failed; `out` is unchanged.
pub fn push_status(
    out: &mut Vec<u8>,
    status: StatusCode,
    persistence: Persistence,
) -> Result<(), AllocError>
    ensures ok { OnOk result (out.new.items ≡ out.old.items ++ response_text persistence status) }
    ensures err { OnErr result (out.new.items ≡ out.old.items) }
{
    let head = response_head(status, persistence);
    out.extend_from_slice(head.as_str().as_bytes())
}

fn response_head(status: StatusCode, persistence: Persistence) -> ArrayString<MAX_RESPONSE_HEAD>
    ensures { result.bytes ≡ response_text persistence status }
{
    match persistence {
        Persistence::Close => status_head(status),
        Persistence::Keep => kept_head(status, ""),
        Persistence::KeepAlive => kept_head(status, "Connection: keep-alive\r\n"),
    }
}

fn ok_head(id: &str) -> ArrayString<MAX_RESPONSE_HEAD>
    requires { length id.now ≤ MAX_STREAM_ID }
    ensures { result.bytes ≡ ok_text id.now }
{
    let mut head = ArrayString::new();
    head.push_str("HTTP/1.1 200 OK\r\nContent-Type: application/json\r\n");
    head.push_str("Transfer-Encoding: chunked\r\nMesos-Stream-Id: ");
    head.push_str(id);
    head.push_str("\r\n\r\n");
    head
}

#[tactic(auto, using(crate::proofs::Phrases::phrase_short))]
fn status_head(status: StatusCode) -> ArrayString<MAX_RESPONSE_HEAD>
    ensures { result.bytes ≡ status_text status }
{
    let mut head = ArrayString::new();
    head.push_str("HTTP/1.1 ");
    head.push_str(Buffer::new().format(status.as_u16()));
    head.push_str(" ");
    head.push_str(phrase_of(status));
    head.push_str("\r\nContent-Length: 0\r\nConnection: close\r\n\r\n");
    head
}

/// Returns the head of a response after which the connection stays open. `option` is the line of
/// the field `Connection`, or empty.
#[tactic(auto, using(crate::proofs::Phrases::phrase_short))]
fn kept_head(status: StatusCode, option: &str) -> ArrayString<MAX_RESPONSE_HEAD>
    requires { length option.now ≤ 40 }
    ensures { result.bytes ≡ kept_text option.now status }
{
    let mut head = ArrayString::new();
    head.push_str("HTTP/1.1 ");
    head.push_str(Buffer::new().format(status.as_u16()));
    head.push_str(" ");
    head.push_str(phrase_of(status));
    head.push_str("\r\nContent-Length: 0\r\n");
    head.push_str(option);
    head.push_str("\r\n");
    head
}

/// Returns the usual reason phrase of the status, or an empty text.
#[tactic(auto, unfolding(crate::specs::Texts::phrase_text))]
fn phrase_of(status: StatusCode) -> &'static str
    ensures { result.now ≡ phrase_text status }
{
    status.canonical_reason().unwrap_or("")
}
