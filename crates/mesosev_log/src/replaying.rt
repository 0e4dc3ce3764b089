//! The subcommand `replay`.

ghost use Rattle.std.specs.Prelude.{◌⊎◌, [], ◌∷◌, ◌++◌};
ghost use Rattle.mesosev_stream.specs.Printing.{LacksMemory, Prints};
ghost use Rattle.mes_session.specs.Printed.{refusal_text, report_text};
ghost use Rattle.mesosev_log.specs.Replaying.{Replays, ReplaysEntries};

use arrayvec::ArrayString;
use mes_frame::{Limit, Sink, Source};
use mes_msg::Entry;
use mes_session::{Refusal, Session, read_log, refusal_line};
use mesosev_stream::{
    ExitStatus, MAX_READS, RunOutcome, out_of_memory, print_bytes, print_fault, print_line,
};
use std::alloc::Global;

/// Reads a session log of either version to its end, and prints the report of its session. Buffers
/// all entries. If the log has an error, a call in it is refused, or an allocation fails, prints
/// one line with that error; the status is `Fault`.
pub fn replay<I: Source, O: Sink>(
    alloc: Global,
    limit: Limit,
    input: &mut I,
    out: &mut O,
) -> RunOutcome
    // The bytes read, the text printed, and the outcome.
    ensures { Replays limit (I.device input.old)
        (I.device input.new)
        (O.device out.old) (O.device out.new) result }
{
    let mut entries = Vec::new(alloc);
    match read_log(alloc, input, limit, MAX_READS, &mut entries) {
        Ok(_report) => report_replay(alloc, entries.as_slice(), out),
        Err(stop) => ExitStatus::Fault.after(print_fault(out, &stop.fault, stop.used)),
    }
}

/// Prints the report of the session, or the refused call.
fn report_replay<O: Sink>(alloc: Global, entries: &[Entry], out: &mut O) -> RunOutcome
    ensures { ReplaysEntries entries.now (O.device out.old)
        (O.device out.new) result }
{
    match mes_session::replay(alloc, entries) {
        Ok(session) => report_session(&session, entries.len() as u64, out),
        Err((before, refusal)) => report_refusal(&refusal, before as u64, out),
    }
}

/// Prints the report of a session after this number of entries. The status is `Success`, or `Fault`
/// if an allocation failed.
fn report_session<O: Sink>(session: &Session, entries: u64, out: &mut O) -> RunOutcome
    ensures { Prints (O.device out.old) (O.device out.new)
        (report_text entries session.now) ExitStatus.Success result
        ⊎ LacksMemory (O.device out.old) (O.device out.new)
        result }
{
    match session.report(entries) {
        Ok(lines) => ExitStatus::Success.after(print_bytes(out, lines.as_slice())),
        Err(_) => out_of_memory(out),
    }
}

/// Prints the line of a refused call after `before` entries. The status is `Fault`.
fn report_refusal<O: Sink>(refusal: &Refusal, before: u64, out: &mut O) -> RunOutcome
    ensures { Prints (O.device out.old) (O.device out.new)
        (refusal_text refusal.now before ++ 10 ∷ []) ExitStatus.Fault result }
{
    let mut line = ArrayString::new();
    refusal_line(refusal, before, &mut line);
    ExitStatus::Fault.after(print_line(out, line.as_str()))
}
