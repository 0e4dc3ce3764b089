//! The exit status of the program.

ghost use Rattle.std.specs.Prelude.{◌≡◌};
ghost use Rattle.mesosev_stream.specs.Printing.{outcome_after};

use crate::outcome::RunOutcome;
use mes_frame::WriteFault;

/// The exit status of the program. `exit_status.rt` of the crate `mesosev` has the numbers.
#[derive(Clone, Copy, Debug, PartialEq, Eq)]
pub enum ExitStatus {
    /// No error occurred.
    Success,
    /// An error was printed, or an output failed.
    Fault,
    /// The arguments are invalid.
    Usage,
}

impl ExitStatus {
    /// Returns the outcome of a run after its last text was printed: this status, or that the
    /// output failed.
    pub fn after(self, printed: Result<(), WriteFault>) -> RunOutcome
        ensures { result ≡ outcome_after self printed }
    {
        match printed {
            Ok(()) => RunOutcome::Status(self),
            Err(fault) => RunOutcome::OutputFailed(fault.sent),
        }
    }
}
