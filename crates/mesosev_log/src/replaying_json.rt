//! The subcommand `replay --json`.

ghost use Rattle.std.specs.Prelude.{◌≡◌, ◌⊎◌, [], ◌∷◌, ◌++◌};
ghost use Rattle.mes_stream.specs.Lines.{fault_text};
ghost use Rattle.mes_stream.specs.declared.fault.Fault.{Fault as StreamFault};
ghost use Rattle.mesosev_stream.specs.Printing.{Prints, TellsFault, Tells};
ghost use Rattle.mes_session.specs.Printed.{refusal_text};
ghost use Rattle.mesosev_log.specs.Replaying.{ReplaysEntriesJson, ReplaysJson};
ghost use Rattle.mesosev_log.specs.SessionJson.{session_line};

use crate::session_json::session_line;
use arrayvec::ArrayString;
use mes_frame::{Limit, Sink, Source};
use mes_msg::Entry;
use mes_session::{Refusal, Session, read_log, refusal_line};
use mesosev_stream::{
    ExitStatus, MAX_READS, RunOutcome, out_of_memory, print_bytes, print_fault, print_line,
};
use std::alloc::Global;

/// Like [`replay`](crate::replay), but prints the session to `out` as one JSON object and LF, and
/// errors to `err`. Errors in writing to `err` are ignored.
pub fn replay_json<I: Source, O: Sink, E: Sink>(
    alloc: Global,
    limit: Limit,
    input: &mut I,
    out: &mut O,
    err: &mut E,
) -> RunOutcome
    // The bytes read, the texts printed, and the outcome.
    ensures { ReplaysJson limit (I.device input.old) (I.device input.new)
        (O.device out.old) (O.device out.new)
        (E.device err.old) (E.device err.new) result }
{
    let mut entries = Vec::new(alloc);
    match read_log(alloc, input, limit, MAX_READS, &mut entries) {
        Ok(_report) => report_replay(alloc, entries.as_slice(), out, err),
        Err(stop) => {
            let _ = print_fault(err, &stop.fault, stop.used);
            RunOutcome::Status(ExitStatus::Fault)
        }
    }
}

/// Prints the session, or the refused call.
fn report_replay<O: Sink, E: Sink>(
    alloc: Global,
    entries: &[Entry],
    out: &mut O,
    err: &mut E,
) -> RunOutcome
    ensures { ReplaysEntriesJson entries.now (O.device out.old) (O.device out.new)
        (E.device err.old) (E.device err.new) result }
{
    match mes_session::replay(alloc, entries) {
        Ok(session) => report_session(alloc, &session, entries.len() as u64, out, err),
        Err((before, refusal)) => tell_refusal(&refusal, before as u64, err),
    }
}

/// Prints the session after this number of entries. The status is `Success`, or `Fault` if an
/// allocation failed.
fn report_session<O: Sink, E: Sink>(
    alloc: Global,
    session: &Session,
    entries: u64,
    out: &mut O,
    err: &mut E,
) -> RunOutcome
    ensures { (Prints (O.device out.old) (O.device out.new)
        (session_line entries session.now) ExitStatus.Success result × (E.device err.new ≡ E.device err.old))
        ⊎ TellsFault (fault_text StreamFault.NoMemory 0 ++ 10 ∷ []) (O.device out.old) (O.device out.new)
        (E.device err.old) (E.device err.new) result }
{
    match session_line(alloc, session, entries) {
        Ok(line) => ExitStatus::Success.after(print_bytes(out, line.as_slice())),
        Err(_) => {
            let _ = out_of_memory(err);
            RunOutcome::Status(ExitStatus::Fault)
        }
    }
}

/// Prints the line of a refused call after `before` entries. The status is `Fault`. Errors in
/// writing are ignored.
fn tell_refusal<E: Sink>(refusal: &Refusal, before: u64, err: &mut E) -> RunOutcome
    ensures told { Tells (E.device err.old) (E.device err.new)
        (refusal_text refusal.now before ++ 10 ∷ []) }
    ensures status { result ≡ RunOutcome.Status ExitStatus.Fault }
{
    let mut line = ArrayString::new();
    refusal_line(refusal, before, &mut line);
    let _ = print_line(err, line.as_str());
    RunOutcome::Status(ExitStatus::Fault)
}
