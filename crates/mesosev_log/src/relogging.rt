//! The subcommand `relog`.
ghost use Rattle.mesosev_log.specs.Relogging.{Relogs, WritesLog};

use mes_frame::{Limit, Sink, Source};
use mes_msg::Entry;
use mes_session::{read_log, write_log};
use mesosev_stream::{ExitStatus, MAX_READS, print_fault, print_send_fault};
use std::alloc::Global;

/// Reads a session log of either version to its end, and writes its entries as a log of version 2
/// under the same limit. Buffers all entries.
///
/// On an error in the log nothing is written to `out`; the error is printed to `err`, and the
/// status is `Fault`. Errors in writing to `err` are ignored.
pub fn relog<I: Source, O: Sink, E: Sink>(
    alloc: Global,
    limit: Limit,
    input: &mut I,
    out: &mut O,
    err: &mut E,
) -> ExitStatus
    // The bytes read, the log written, the error printed, and the status.
    ensures { Relogs limit
        (I.device input.old) (I.device input.new)
        (O.device out.old) (O.device out.new)
        (E.device err.old) (E.device err.new)
        result }
{
    let mut entries = Vec::new(alloc);
    match read_log(alloc, input, limit, MAX_READS, &mut entries) {
        Ok(_report) => send(alloc, entries.as_slice(), limit, out, err),
        Err(stop) => {
            let _ = print_fault(err, &stop.fault, stop.used);
            ExitStatus::Fault
        }
    }
}

/// Writes the log of the entries, or prints the error. Returns the status.
fn send<O: Sink, E: Sink>(
    alloc: Global,
    entries: &[Entry],
    limit: Limit,
    out: &mut O,
    err: &mut E,
) -> ExitStatus
    ensures { WritesLog limit entries.now
        (O.device out.old) (O.device out.new)
        (E.device err.old) (E.device err.new)
        result }
{
    match write_log(alloc, out, entries, limit) {
        Ok(()) => ExitStatus::Success,
        Err(fault) => {
            let _ = print_send_fault(err, &fault);
            ExitStatus::Fault
        }
    }
}
