//! The outcome of a run of a subcommand: an exit status, or a failed output.

ghost use Rattle.std.specs.Prelude.{◌≡◌, ◌∷◌, ◌++◌, []};
ghost use Rattle.mesosev_stream.specs.Printing.{Finishes, Tells, ended_after, failed_text};

use crate::exit_status::ExitStatus;
use crate::print::print_send_fault;
use mes_frame::{Sink, WriteFault, WriteFaultKind};
use mes_stream::SendFault;

/// The outcome of a run of a subcommand that prints to an output.
#[derive(Clone, Copy, Debug, PartialEq, Eq)]
pub enum RunOutcome {
    /// Everything was written, and this is the exit status.
    Status(ExitStatus),
    /// The output failed, or wrote 0 bytes, after this number of bytes (2^64 - 1 if there were
    /// more).
    OutputFailed(u64),
}

impl RunOutcome {
    /// Returns the outcome if `before` bytes were written before the run.
    pub fn following(self, before: u64) -> RunOutcome
        ensures { result ≡ ended_after before self }
    {
        match self {
            RunOutcome::Status(status) => RunOutcome::Status(status),
            RunOutcome::OutputFailed(sent) => RunOutcome::OutputFailed(before.saturating_add(sent)),
        }
    }
}

/// Returns the exit status of a run. If the output failed, prints `write failed after N` to `err`
/// and returns `Fault`. Prints nothing if the output is closed: a pipe without a reader.
pub fn finish<E: Sink>(ended: RunOutcome, closed: bool, err: &mut E) -> ExitStatus
    // The line printed to `err`, if any, and the status.
    ensures { Finishes closed (E.device err.old)
        (E.device err.new) ended result }
{
    match ended {
        RunOutcome::Status(status) => status,
        RunOutcome::OutputFailed(sent) => {
            if !closed {
                tell_failure(err, sent);
            }
            ExitStatus::Fault
        }
    }
}

/// Prints that an output failed after `sent` bytes. Errors in writing to `err` are ignored.
fn tell_failure<E: Sink>(err: &mut E, sent: u64)
    ensures { Tells (E.device err.old) (E.device err.new)
        (failed_text sent ++ 10 ∷ []) }
{
    let why = WriteFaultKind::Device;
    let _ = print_send_fault(err, &SendFault::Write(WriteFault { sent, why }));
}
