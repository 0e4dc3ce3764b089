//! The scheduler's end of a connection, with JSON Lines: subscribes, and writes the events of the
//! stream as JSON Lines.

ghost use Rattle.std.specs.Prelude.{◌≡◌, ◌≤◌, length, All};
ghost use Rattle.mes_double_http.specs.StreamIds.{IsVisible};
ghost use Rattle.mesosev_stream.specs.Printing.{Tells};
ghost use Rattle.mesosev_serve.specs.Exporting.{ExportsAnswer, ExportsOver, unsent_line};
ghost use Rattle.mesosev_serve.specs.Subscribing.{refused_line};

use crate::subscribing::{report_refused, report_unsent, send_subscribe};
use mes_double_http::{HeadFault, MAX_HOST, read_head};
use mes_frame::{Limit, Sink, Source};
use mes_model::FrameworkInfo;
use mes_msg::{Event, SendFault};
use mes_stream::Framing;
use mesosev_stream::{ExitStatus, MAX_READS, RunOutcome, export};
use std::alloc::Global;

/// Like [`subscribe_over`](crate::subscribe_over), but writes the events to `out` as JSON Lines, and
/// all other lines to `err`. Errors in writing to `err` are ignored.
pub fn export_over<R: Source, W: Sink, O: Sink, E: Sink>(
    alloc: Global,
    info: &FrameworkInfo,
    host: &str,
    reader: &mut R,
    writer: &mut W,
    max_reads: u64,
    out: &mut O,
    err: &mut E,
) -> RunOutcome
    requires least { 1 ≤ length host.now }
    requires greatest { length host.now ≤ MAX_HOST }
    requires visible { All IsVisible host.now }
    requires reads { max_reads ≤ MAX_READS }
    // The bytes written, read and printed, and the outcome.
    ensures { ExportsOver info.now host.now max_reads (R.device reader.old)
        (R.device reader.new)
        (W.device writer.old) (W.device writer.new)
        (O.device out.old) (O.device out.new)
        (E.device err.old) (E.device err.new) result }
{
    match send_subscribe(alloc, info, host, writer) {
        Ok(()) => export_answer(alloc, reader, max_reads, out, err),
        Err(fault) => tell_unsent(err, &fault),
    }
}

/// Reads the response to a SUBSCRIBE, and writes the events of its stream as JSON Lines. If the head
/// opens no stream, prints the reason to `err`.
fn export_answer<R: Source, O: Sink, E: Sink>(
    alloc: Global,
    reader: &mut R,
    max_reads: u64,
    out: &mut O,
    err: &mut E,
) -> RunOutcome
    requires { max_reads ≤ MAX_READS }
    ensures { ExportsAnswer max_reads (R.device reader.old)
        (R.device reader.new)
        (O.device out.old) (O.device out.new)
        (E.device err.old) (E.device err.new) result }
{
    match read_head(reader) {
        Ok(_) => export::<Event, _, _, _>(
            alloc,
            Framing::Chunked,
            Limit::USUAL,
            max_reads,
            reader,
            out,
            err,
        ),
        Err(fault) => tell_refused(err, &fault),
    }
}

/// Prints that a SUBSCRIBE was not sent. The status is `Fault`. Errors in writing are ignored.
fn tell_unsent<E: Sink>(err: &mut E, fault: &SendFault) -> RunOutcome
    ensures told { Tells (E.device err.old) (E.device err.new) (unsent_line fault.now) }
    ensures status { result ≡ RunOutcome.Status ExitStatus.Fault }
{
    let _ = report_unsent(err, fault);
    RunOutcome::Status(ExitStatus::Fault)
}

/// Prints the reason for which a head opens no stream. The status is `Fault`. Errors in writing are
/// ignored.
fn tell_refused<E: Sink>(err: &mut E, fault: &HeadFault) -> RunOutcome
    ensures told { Tells (E.device err.old) (E.device err.new) (refused_line fault.now) }
    ensures status { result ≡ RunOutcome.Status ExitStatus.Fault }
{
    let _ = report_refused(err, fault);
    RunOutcome::Status(ExitStatus::Fault)
}
