//! The call that a client sends.

ghost use Rattle.std.specs.Prelude.{◌≡◌, ◌≤◌, ℕ, List, length};
ghost use Rattle.std.specs.Io.KnownBytes.{Consumes};
ghost use Rattle.mesosev_serve.specs.Asking.{IsAsked, IsAskedBy};
ghost use Rattle.mesosev_serve.specs.Lines.{asked_name};

use mes_double_http::{HeadFault, Request, StreamId, read_request};
use mes_double_master::call_name;
use mes_frame::Source;
use mes_msg::{Call, RecordFault};
use std::alloc::Global;

/// The content of a client's request.
#[derive(Drop)]
pub(crate) enum ParsedRequest {
    /// No request was received, or it is invalid.
    NoRequest(HeadFault),
    /// The body of the request is not a call.
    NoCall(RecordFault),
    /// A call, and the stream id of the request, if it has one.
    Calls(Option<StreamId>, Call),
}

impl ParsedRequest {
    /// Returns the name of the call's type, or `-` without a call.
    pub(crate) fn name(&self) -> &'static str
        ensures name { result.now ≡ asked_name self.now }
        ensures bound { length result.now ≤ 11 }
    {
        match self {
            ParsedRequest::Calls(_, call) => call_name(call),
            ParsedRequest::NoRequest(_) | ParsedRequest::NoCall(_) => "-",
        }
    }
}

/// Reads a request and decodes its call.
pub(crate) fn ask<R: Source>(alloc: Global, reader: &mut R) -> ParsedRequest
    ensures { (taken : List ℕ) × Consumes (R.device reader.old).bytes (R.device reader.new).bytes taken
        × IsAsked taken (R.device reader.old).counts (R.device reader.new).counts result }
{
    match read_request(alloc, reader) {
        Ok(request) => parse_request(alloc, request),
        Err(fault) => ParsedRequest::NoRequest(fault),
    }
}

/// Decodes the call of a request.
fn parse_request(alloc: Global, request: Request) -> ParsedRequest
    ensures { IsAskedBy request.stream request.body.items result }
{
    match Call::read_record(alloc, request.body.as_slice()) {
        Ok(call) => ParsedRequest::Calls(request.stream, call),
        Err(fault) => ParsedRequest::NoCall(fault),
    }
}
