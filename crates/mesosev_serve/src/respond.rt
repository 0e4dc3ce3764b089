//! The response to a request, and its effect on the test master.

ghost use Rattle.std.specs.Prelude.{◌≡◌, ◌++◌, List as list, option_copied, IfOk, OnErr};
ghost use Rattle.mes_msg.specs.Event.{Event as EventValue};
ghost use Rattle.mes_double_master.specs.Masters.{handled};
ghost use Rattle.mes_double_master.specs.Memory.{MayWantMemory};
ghost use Rattle.mesosev_serve.specs.Opening.{so_far, and_all_given};
ghost use Rattle.mesosev_serve.specs.Replying.{Replies, IsService, Lacks, reply_to_fault, reply_to_text, service, streamed};

use crate::opening_events::send_all;
use crate::outgoing::Outgoing;
use crate::request::ParsedRequest;
use crate::response::Reply;
use http::StatusCode;
use mes_double_http::{HeadFault, StreamId};
use mes_double_master::Master;
use mes_json::NoMemory;
use mes_msg::{Call, Event, RecordFault};
use std::alloc::Global;

/// Returns the response to a request, without a response if an allocation fails. `given` are the
/// events to send on a stream that the request opens.
pub(crate) fn reply_to<'a>(
    alloc: Global,
    master: &mut Master,
    given: &'a [Event],
    asked: &ParsedRequest,
) -> Reply<'a>
    ensures { Replies master.old given.now asked.now result master.new }
{
    match asked {
        ParsedRequest::NoRequest(fault) => reply_to_fault(*fault),
        ParsedRequest::NoCall(fault) => reply_to_text(fault),
        ParsedRequest::Calls(stream, call) => {
            match reply_to_call(alloc, master, given, stream.as_ref(), call) {
                Ok(reply) => reply,
                Err(_) => Reply::Nothing,
            }
        }
    }
}

/// Returns the response to an invalid request, or if no request was received.
fn reply_to_fault<'a>(fault: HeadFault) -> Reply<'a>
    ensures { result ≡ reply_to_fault fault }
{
    match fault {
        HeadFault::WrongPath => Reply::Status(StatusCode::NOT_FOUND),
        HeadFault::WrongMethod => Reply::Status(StatusCode::METHOD_NOT_ALLOWED),
        HeadFault::Read | HeadFault::ShortBody | HeadFault::NoMemory => Reply::Nothing,
        _ => Reply::Status(StatusCode::BAD_REQUEST),
    }
}

/// Returns the response to a body that is not a call.
fn reply_to_text<'a>(fault: &RecordFault) -> Reply<'a>
    ensures { result ≡ reply_to_text fault.now }
{
    match fault {
        RecordFault::NoMemory => Reply::Nothing,
        RecordFault::Text(_) | RecordFault::Field(_) => Reply::Status(StatusCode::BAD_REQUEST),
    }
}

/// Returns the response to a call. `stream` is the stream id of the request, if it has one.
fn reply_to_call<'a>(
    alloc: Global,
    master: &mut Master,
    given: &'a [Event],
    stream: Option<&StreamId>,
    call: &Call,
) -> Result<Reply<'a>, NoMemory>
    ensures ok { IfOk result (λ reply. IsService
        (service (handled master.old call.now (option_copied stream.entry)) given.now) reply
        master.new) }
    ensures memory { OnErr result (MayWantMemory master.old call.now (option_copied stream.entry)) }
    ensures err { OnErr result (Lacks master.old
        (handled master.old call.now (option_copied stream.entry)) given.now master.new) }
{
    let answer = master.handle(call, stream)?;
    if answer.status != StatusCode::OK {
        return Ok(Reply::Status(answer.status));
    }
    open_stream(alloc, master, given, answer.events)
}

/// Returns the stream that a master opens, with its first events.
fn open_stream<'a>(
    alloc: Global,
    master: &mut Master,
    given: &'a [Event],
    first: Vec<Event>,
) -> Result<Reply<'a>, NoMemory>
    ensures ok { IfOk result (λ reply. IsService
        (streamed master.old.stream (and_all_given (so_far first.items master.old) given.now)) reply
        master.new) }
    ensures err { OnErr result ((front : list EventValue) × (rest : list EventValue)
        × (given.now ≡ front ++ rest)
        × (master.new ≡ (and_all_given (so_far first.items master.old) front).master)) }
{
    let id = master.stream().map(StreamId::copy);
    let mut events = Outgoing::new(alloc, first);
    send_all(master, given, &mut events)?;
    match id {
        Some(id) => Ok(Reply::Stream(id, events)),
        None => Ok(Reply::Nothing),
    }
}
