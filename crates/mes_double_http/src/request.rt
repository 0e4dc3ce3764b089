//! Reading of a request: the head, and the body that it announces. `call_writer.rt` writes one.

ghost use Rattle.std.specs.Prelude.{ℕ, List, MatchResult};
ghost use Rattle.std.specs.Io.KnownBytes.{Consumes};
ghost use Rattle.httparse.specs.Grammar.{RequestHead};
ghost use Rattle.mes_double_http.specs.Endings.{AllGive};
ghost use Rattle.mes_double_http.specs.Heads.{IsRequest};
ghost use Rattle.mes_double_http.specs.Requests.{BreaksCall, IsCall, IsWholeCall, RefusesCall};
ghost use Rattle.mes_double_http.specs.Stops.{IsRequestTaken};

use crate::body::take_body;
use crate::content_length::body_length;
use crate::fault::HeadFault;
use crate::head::take_request;
use crate::limits::{MAX_BODY, MAX_FIELDS};
use crate::rules::{is_json, stream_named};
use crate::stream_id::StreamId;
use arrayvec::ArrayVec;
use httparse::spans::{EMPTY_HEADER_SPAN, HeaderSpan, RequestSpans};
use mes_frame::Source;
use std::alloc::Global;

/// A request to the scheduler API.
#[derive(Debug, Drop)]
pub struct Request {
    /// The stream id, if the head has one.
    pub stream: Option<StreamId>,
    /// The body. If the client follows the API, it is a call in JSON.
    pub body: Vec<u8>,
}

/// The stream id and the body's length, from the head of a request.
#[derive(Debug, Drop)]
pub(crate) struct Announced {
    pub stream: Option<StreamId>,
    pub length: usize,
}

/// Reads a request, and nothing after its body. If the head is refused, nothing after the head is
/// read.
pub fn read_request<S: Source>(alloc: Global, reader: &mut S) -> Result<Request, HeadFault>
    // On success: exactly a valid head and its body were read. Each error: the first fault of the
    // request.
    ensures { (taken : List ℕ) × Consumes (S.device reader.old).bytes (S.device reader.new).bytes taken
        × MatchResult result
        (λ request. IsWholeCall taken request.stream request.body.items
        × AllGive (S.device reader.old).counts (S.device reader.new).counts)
        (λ f. RefusesCall f taken (S.device reader.old).counts (S.device reader.new).counts) }
{
    let announced = take_announced(reader)?;
    match take_body(alloc, reader, announced.length) {
        Ok(body) => Ok(Request {
            stream: announced.stream,
            body,
        }),
        Err(fault) => Err(fault),
    }
}

fn take_announced<S: Source>(reader: &mut S) -> Result<Announced, HeadFault>
    ensures { (taken : List ℕ) × Consumes (S.device reader.old).bytes (S.device reader.new).bytes taken
        × MatchResult result
        (λ a. (h : RequestHead) × IsRequest taken h × IsCall h a.length a.stream
        × AllGive (S.device reader.old).counts (S.device reader.new).counts)
        (λ f. RefusesCall f taken (S.device reader.old).counts (S.device reader.new).counts) }
{
    let mut taken = ArrayVec::new();
    let mut headers = [EMPTY_HEADER_SPAN; MAX_FIELDS];
    match take_request(reader, &mut taken, &mut headers) {
        Ok(head) => announced_by(taken.as_slice(), &headers, &head),
        Err(stop) => Err(stop.fault()),
    }
}

/// Returns the stream id and the body's length, or the first fault of the head.
pub(crate) fn announced_by(
    taken: &[u8],
    headers: &[HeaderSpan],
    head: &RequestSpans,
) -> Result<Announced, HeadFault>
    requires { IsRequestTaken taken.now headers.now head.now }
    ensures { (h : RequestHead) × IsRequest taken.now h
        × MatchResult result (λ a. IsCall h a.length a.stream) (λ f. BreaksCall f h) }
{
    if head.path.of(taken) != b"/api/v1/scheduler".as_slice() {
        return Err(HeadFault::WrongPath);
    }
    if head.method.of(taken) != b"POST".as_slice() {
        return Err(HeadFault::WrongMethod);
    }
    let fields = &headers[..head.headers];
    if !is_json(taken, fields) {
        return Err(HeadFault::NotJson);
    }
    let length = match body_length(taken, fields) {
        Some(length) => length,
        None => return Err(HeadFault::NoLength),
    };
    if length > MAX_BODY {
        return Err(HeadFault::BodyTooLong);
    }
    match stream_named(taken, fields) {
        Ok(stream) => Ok(Announced {
            stream,
            length: length as usize,
        }),
        Err(_) => Err(HeadFault::NoStreamId),
    }
}
