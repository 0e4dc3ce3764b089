//! The scheduler's end of a connection: subscribes, and prints the events of the stream.

ghost use Rattle.std.specs.Prelude.{◌≡◌, ◌≤◌, length, All, IfOk};
ghost use Rattle.mes_double_http.specs.StreamIds.{IsVisible};
ghost use Rattle.mesosev_stream.specs.Printing.{Prints};
ghost use Rattle.mesosev_stream.specs.Messages.{events};
ghost use Rattle.mesosev_stream.specs.Showing.{Shows};
ghost use Rattle.mesosev_serve.specs.Subscribing.{SendsSubscribe, ShowsAnswer, SubscribesOver, ReportsUnsent, first_subscribe, refused_line};

use crate::lines::WRITE_FAILED;
use arrayvec::ArrayString;
use mes_double_http::{HeadFault, MAX_HOST, read_head, write_call};
use mes_frame::{DEFAULT_RECORD_LIMIT, Limit, Sink, Source};
use mes_json::NoMemory;
use mes_model::FrameworkInfo;
use mes_msg::{Call, Event, SendFault};
use mes_session::Session;
use mes_stream::Framing;
use mesosev_stream::{
    Detail, ExitStatus, MAX_READS, RunOutcome, follow, out_of_memory, print_text,
};
use std::alloc::Global;

/// The capacity for the line of a refused head, in bytes.
const MAX_REFUSED_LINE: usize = 40;

/// Sends SUBSCRIBE to a master, and prints the events of the stream as they arrive. `host` has 1 to
/// `MAX_HOST` visible ASCII characters.
///
/// Reads the head of the response, then the body in at most `max_reads` reads (`MAX_READS` or
/// fewer). The last line has the numbers of events and bytes of the body, or the first error.
/// Buffers the events of one read.
///
/// If the head opens no stream, prints the reason, for example `refused H4 Status 403`, and reads
/// nothing after the head. If the SUBSCRIBE cannot be encoded or written, prints `net write failed`
/// and reads nothing.
pub fn subscribe_over<R: Source, W: Sink, O: Sink>(
    alloc: Global,
    info: &FrameworkInfo,
    host: &str,
    reader: &mut R,
    writer: &mut W,
    max_reads: u64,
    out: &mut O,
) -> RunOutcome
    requires least { 1 ≤ length host.now }
    requires greatest { length host.now ≤ MAX_HOST }
    requires visible { All IsVisible host.now }
    requires reads { max_reads ≤ MAX_READS }
    // The bytes written, read and printed, and the outcome.
    ensures { SubscribesOver info.now host.now max_reads (R.device reader.old)
        (R.device reader.new)
        (W.device writer.old) (W.device writer.new)
        (O.device out.old) (O.device out.new) result }
{
    match send_subscribe(alloc, info, host, writer) {
        Ok(()) => show_answer(alloc, reader, max_reads, out),
        Err(fault) => report_unsent(out, &fault),
    }
}

/// Writes the SUBSCRIBE of a new session as a request to `host`, which has 1 to `MAX_HOST` visible
/// ASCII characters.
pub fn send_subscribe<W: Sink>(
    alloc: Global,
    info: &FrameworkInfo,
    host: &str,
    writer: &mut W,
) -> Result<(), SendFault>
    requires least { 1 ≤ length host.now }
    requires greatest { length host.now ≤ MAX_HOST }
    requires visible { All IsVisible host.now }
    // On success: the whole request was written. Then: when each error is returned.
    ensures { SendsSubscribe info.now host.now (W.device writer.old)
        (W.device writer.new) result }
{
    match first_subscribe(alloc, info) {
        Ok(call) => write_call(alloc, writer, host, None, &call),
        Err(NoMemory) => Err(SendFault::NoMemory),
    }
}

/// Reads the response to a SUBSCRIBE, and prints the events of its stream as they arrive. The head
/// is read one byte at a time, the body in at most `max_reads` reads (`MAX_READS` or fewer). If the
/// head opens no stream, prints the reason.
pub fn show_answer<R: Source, O: Sink>(
    alloc: Global,
    reader: &mut R,
    max_reads: u64,
    out: &mut O,
) -> RunOutcome
    requires { max_reads ≤ MAX_READS }
    // The bytes read and printed, and the outcome.
    ensures { ShowsAnswer max_reads (R.device reader.old)
        (R.device reader.new)
        (O.device out.old) (O.device out.new) result }
{
    match read_head(reader) {
        Ok(_) => show_stream(alloc, reader, max_reads, out),
        Err(fault) => report_refused(out, &fault),
    }
}

/// Prints the events of a stream after its head, in at most `max_reads` reads.
fn show_stream<R: Source, O: Sink>(
    alloc: Global,
    reader: &mut R,
    max_reads: u64,
    out: &mut O,
) -> RunOutcome
    requires { max_reads ≤ MAX_READS }
    ensures { Shows events Framing.Chunked DEFAULT_RECORD_LIMIT max_reads
        (R.device reader.old) (R.device reader.new)
        (O.device out.old) (O.device out.new) result }
{
    follow::<Event, _, _>(
        alloc,
        Detail::Lines,
        Framing::Chunked,
        Limit::USUAL,
        max_reads,
        reader,
        out,
    )
}

/// Prints that a SUBSCRIBE was not sent: `net write failed`, or F13 after 0 bytes if an allocation
/// failed. The status is `Fault`.
pub fn report_unsent<O: Sink>(out: &mut O, fault: &SendFault) -> RunOutcome
    // The line printed, and the outcome.
    ensures { ReportsUnsent fault.now (O.device out.old)
        (O.device out.new) result }
{
    match fault {
        SendFault::NoMemory => out_of_memory(out),
        SendFault::Encode { .. } | SendFault::Write(_) => {
            ExitStatus::Fault.after(print_text(out, WRITE_FAILED))
        }
    }
}

/// Prints the reason for which a head opens no stream. The status is `Fault`.
pub(crate) fn report_refused<O: Sink>(out: &mut O, fault: &HeadFault) -> RunOutcome
    ensures { Prints (O.device out.old) (O.device out.new)
        (refused_line fault.now) ExitStatus.Fault result }
{
    let mut why = ArrayString::new();
    fault.text(&mut why);
    let mut line = ArrayString::<MAX_REFUSED_LINE>::new();
    line.push_str("refused ");
    line.push_str(why.as_str());
    line.push_str("\n");
    ExitStatus::Fault.after(print_text(out, line.as_str()))
}

/// Returns the SUBSCRIBE of a new session.
fn first_subscribe(alloc: Global, info: &FrameworkInfo) -> Result<Call, NoMemory>
    ensures { IfOk result (λ call. call ≡ first_subscribe info.now) }
{
    match Session::new(alloc).subscribe(info) {
        Ok(call) => Ok(call),
        Err(_) => Err(NoMemory),
    }
}
