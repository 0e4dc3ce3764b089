//! Writing of a call as a request: the head, and the canonical text of the call. `request.rt` reads
//! such a request.

ghost use Rattle.std.specs.Prelude.{◌≡◌, ◌++◌, ◌≤◌, length, All, Some, option_map, IfOk, IfErr, OnOk};
ghost use Rattle.mes_double_http.specs.Calls.{IsGoodCall, IsUnmade, StopsCall, WroteCall, call_bytes, unmade};
ghost use Rattle.mes_double_http.specs.StreamIds.{IsVisible};
ghost use Rattle.mes_double_http.specs.Texts.{call_front, call_head, call_rest, stream_line};

use crate::limits::{MAX_BODY, MAX_HOST};
use crate::stream_id::StreamId;
use itoa::Buffer;
use mes_frame::{Sink, write_all};
use mes_msg::{Call, EncodeFault, EncodeFaultKind, Limit, SendFault};
use std::alloc::{AllocError, Global};

/// Writes a call as a request to this host, with the stream id if given. A call whose canonical
/// text has more than `MAX_BODY` bytes is refused.
pub fn write_call<W: Sink>(
    alloc: Global,
    writer: &mut W,
    host: &str,
    stream: Option<&StreamId>,
    call: &Call,
) -> Result<(), SendFault>
    requires least { 1 ≤ length host.now }
    requires greatest { length host.now ≤ MAX_HOST }
    requires visible { All IsVisible host.now }
    // On success: the canonical text of the call has at most `MAX_BODY` bytes, and the whole
    // request is written.
    ensures ok { OnOk result (WroteCall W.device host.now
        (option_map (λ id. id.now) stream.entry) call.now writer.old writer.new) }

    // On error: the canonical text of the call is too deep or too large for a body, or memory ran
    // out, and the writer was not called; or the writer stopped after the first `sent` bytes.
    ensures err { IfErr result (StopsCall W.device host.now
        (option_map (λ id. id.now) stream.entry) call.now writer.old writer.new) }
{
    let request = request_of(alloc, host, stream, call)?;
    write_all(writer, request.as_slice())?;
    Ok(())
}

fn request_of(
    alloc: Global,
    host: &str,
    stream: Option<&StreamId>,
    call: &Call,
) -> Result<Vec<u8>, SendFault>
    ensures ok { IfOk result (λ bytes. bytes.items
        ≡ call_bytes host.now (option_map (λ id. id.now) stream.entry) call.now) }
    ensures good { IfOk result (λ _. IsGoodCall call.now) }
    ensures err { IfErr result (IsUnmade call.now) }
{
    let limit = Limit::new(MAX_BODY).unwrap();
    let body = match call.canon(alloc, limit) {
        Ok(body) => body,
        Err(fault) => return Err(unmade(fault)),
    };
    match request_bytes(alloc, host, stream, body.as_slice()) {
        Ok(bytes) => Ok(bytes),
        Err(_) => Err(SendFault::NoMemory),
    }
}

fn unmade(fault: EncodeFault) -> SendFault
    ensures { result ≡ unmade fault }
{
    match fault {
        EncodeFault::TooDeep => SendFault::Encode {
            index: 0,
            why: EncodeFaultKind::TooDeep,
        },
        EncodeFault::TooLarge => SendFault::Encode {
            index: 0,
            why: EncodeFaultKind::TooLarge,
        },
        EncodeFault::NoMemory => SendFault::NoMemory,
    }
}

/// Returns a whole request: its head, followed by this body.
fn request_bytes(
    alloc: Global,
    host: &str,
    stream: Option<&StreamId>,
    body: &[u8],
) -> Result<Vec<u8>, AllocError>
    ensures { IfOk result (λ bytes. bytes.items
        ≡ call_head host.now (option_map (λ id. id.now) stream.entry) (length body.now)
        ++ body.now) }
{
    let mut bytes = Vec::new(alloc);
    push_front(&mut bytes, host)?;
    push_stream(&mut bytes, stream)?;
    push_rest(&mut bytes, body.len())?;
    bytes.extend_from_slice(body)?;
    Ok(bytes)
}

/// Appends the part of the head that precedes the line with the stream id.
fn push_front(bytes: &mut Vec<u8>, host: &str) -> Result<(), AllocError>
    ensures { OnOk result (bytes.new.items ≡ bytes.old.items ++ call_front host.now) }
{
    bytes.extend_from_slice(b"POST /api/v1/scheduler HTTP/1.1\r\nHost: ")?;
    bytes.extend_from_slice(host.as_bytes())?;
    bytes.extend_from_slice(b"\r\nContent-Type: application/json\r\nAccept: application/json\r\n")?;
    Ok(())
}

/// Appends the line with the stream id, if given.
fn push_stream(bytes: &mut Vec<u8>, stream: Option<&StreamId>) -> Result<(), AllocError>
    ensures { OnOk result (bytes.new.items
        ≡ bytes.old.items ++ stream_line (option_map (λ id. id.now) stream.entry)) }
{
    match stream {
        Some(id) => push_stream_line(bytes, id.as_str()),
        None => Ok(()),
    }
}

fn push_stream_line(bytes: &mut Vec<u8>, id: &str) -> Result<(), AllocError>
    ensures { OnOk result (bytes.new.items ≡ bytes.old.items ++ stream_line (Some id.now)) }
{
    bytes.extend_from_slice(b"Mesos-Stream-Id: ")?;
    bytes.extend_from_slice(id.as_bytes())?;
    bytes.extend_from_slice(b"\r\n")?;
    Ok(())
}

/// Appends the part of the head that follows the line with the stream id, for a body of `size`
/// bytes.
fn push_rest(bytes: &mut Vec<u8>, size: usize) -> Result<(), AllocError>
    ensures { OnOk result (bytes.new.items ≡ bytes.old.items ++ call_rest size) }
{
    bytes.extend_from_slice(b"Connection: close\r\nContent-Length: ")?;
    bytes.extend_from_slice(Buffer::new().format(size).as_bytes())?;
    bytes.extend_from_slice(b"\r\n\r\n")?;
    Ok(())
}
