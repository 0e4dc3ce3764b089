//! Reading of response heads. `response_writer.rt` writes them.

ghost use Rattle.std.specs.Prelude.{ℕ, List, length, MatchResult};
ghost use Rattle.std.specs.Io.KnownBytes.{Consumes};
ghost use Rattle.httparse.specs.Grammar.{ResponseHead, status_code};
ghost use Rattle.mes_double_http.specs.Endings.{AllGive, GaveEach};
ghost use Rattle.mes_double_http.specs.Heads.{IsResponse};
ghost use Rattle.mes_double_http.specs.Responses.{IsOkStream, BreaksStream, BreaksAnswer, OpensStream, Accepts, Refuses};
ghost use Rattle.mes_double_http.specs.Stops.{IsResponseTaken};

use crate::fault::HeadFault;
use crate::head::take_response;
use crate::limits::MAX_FIELDS;
use crate::rules::{expect_status, is_chunked, is_json, stream_required};
use crate::stream_id::StreamId;
use arrayvec::ArrayVec;
use httparse::spans::{EMPTY_HEADER_SPAN, HeaderSpan, ResponseSpans};
use mes_frame::Source;

/// The status of a response with a stream of events (RFC 9110 section 15.3.1).
const OK: u16 = 200;

/// The status of the response to a call other than SUBSCRIBE (RFC 9110 section 15.3.3).
const ACCEPTED: u16 = 202;

/// Reads the head of the response to a SUBSCRIBE, and nothing after it, and returns the stream id.
/// Does not allocate.
pub fn read_head<S: Source>(reader: &mut S) -> Result<StreamId, HeadFault>
    // On success: exactly a valid head was read, a byte per call. Each error: the first fault of
    // the head.
    ensures { (taken : List ℕ) × Consumes (S.device reader.old).bytes (S.device reader.new).bytes taken
        × MatchResult result
        (λ id. OpensStream taken id × GaveEach (length taken) (S.device reader.old).counts
        (S.device reader.new).counts)
        (λ f. Refuses BreaksStream f taken (S.device reader.old).counts (S.device reader.new).counts) }
{
    let mut taken = ArrayVec::new();
    let mut headers = [EMPTY_HEADER_SPAN; MAX_FIELDS];
    match take_response(reader, &mut taken, &mut headers) {
        Ok(head) => stream_opened(taken.as_slice(), &headers, &head),
        Err(stop) => Err(stop.fault()),
    }
}

/// Reads the head of the response to a call other than SUBSCRIBE, and nothing after it. Does not
/// allocate.
pub fn read_answer<S: Source>(reader: &mut S) -> Result<(), HeadFault>
    // On success: exactly a head with status 202 was read. Each error: the first fault of the head.
    ensures { (taken : List ℕ) × Consumes (S.device reader.old).bytes (S.device reader.new).bytes taken
        × MatchResult result
        (λ _. Accepts taken × AllGive (S.device reader.old).counts (S.device reader.new).counts)
        (λ f. Refuses BreaksAnswer f taken (S.device reader.old).counts (S.device reader.new).counts) }
{
    let mut taken = ArrayVec::new();
    let mut headers = [EMPTY_HEADER_SPAN; MAX_FIELDS];
    match take_response(reader, &mut taken, &mut headers) {
        Ok(head) => expect_status(head.code, ACCEPTED),
        Err(stop) => Err(stop.fault()),
    }
}

/// Returns the stream id in the head of a response, or the first fault of the head.
fn stream_opened(
    taken: &[u8],
    headers: &[HeaderSpan],
    head: &ResponseSpans,
) -> Result<StreamId, HeadFault>
    requires { IsResponseTaken taken.now headers.now head.now }
    ensures { (h : ResponseHead) × IsResponse taken.now h
        × MatchResult result (IsOkStream h) (λ f. BreaksStream f h) }
{
    let fields = &headers[..head.headers];
    expect_status(head.code, OK)?;
    if !is_chunked(taken, fields) {
        return Err(HeadFault::NotChunked);
    }
    if !is_json(taken, fields) {
        return Err(HeadFault::NotJson);
    }
    match stream_required(taken, fields) {
        Some(id) => Ok(id),
        None => Err(HeadFault::NoStreamId),
    }
}
