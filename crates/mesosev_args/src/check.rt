//! Subcommand `check`: checks that each record is an event.
ghost use Rattle.std.specs.Prelude.{IfOk, codes};
ghost use Rattle.clap.specs.Words.{found_of, rows_of};
ghost use Rattle.mesosev_args.specs.CommandLine.{IsCommand, check_app};
ghost use Rattle.mesosev_args.specs.NamedOptions.{Reads};

use crate::args::{Options, WordsFault};
use crate::command::reading_command;
use crate::values::{flag_of, framing_of, limit_of};
use clap::{ArgMatches, Command};
use std::alloc::{AllocError, Global};

/// Returns `check [--chunked] [--lines] [--calls] [--limit N]` as clap's command.
pub fn command<'a>(alloc: Global) -> Result<Command<'a>, AllocError>
    ensures { IfOk result (IsCommand check_app) }
{
    reading_command(
        alloc,
        "check",
        "Check that each record of standard input is an event, and count the events",
        "Example: mesosev check --chunked < FILE",
    )
}

/// Reads the option values from clap's matches.
///
/// Errors: `BadValue` if a value is out of its range; `Conflict` if both `--chunked` and `--lines` are
/// given.
pub fn read(found: &ArgMatches<'_>) -> Result<Options, WordsFault>
    ensures { Reads (codes "check", rows_of (found_of found.now)) result }
{
    let limit = limit_of(found)?;
    let framing = framing_of(found)?;
    let calls = flag_of(found, "calls");
    Ok(Options::Check {
        framing,
        limit,
        calls,
    })
}
