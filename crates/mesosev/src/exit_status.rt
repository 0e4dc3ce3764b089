//! The number of each exit status. `run.rt` returns the `ExitStatus`: `Usage` if the arguments are
//! invalid, otherwise the status of the subcommand (`mesosev_stream::finish`).

ghost use Rattle.std.specs.Prelude.{◌≡◌};
ghost use Rattle.std.specs.Process.{exit_status};
ghost use Rattle.mesosev.specs.Running.{status_number};

use mesosev_stream::ExitStatus;
use std::process::ExitCode;

/// Returns the exit status as a number: 0 without an error, 1 for an error, 2 for a usage error.
pub(crate) fn exit_code(status: ExitStatus) -> ExitCode
    ensures { exit_status result ≡ status_number status }
{
    ExitCode::from(match status {
        ExitStatus::Success => 0,
        ExitStatus::Fault => 1,
        ExitStatus::Usage => 2,
    })
}
