//! Subcommand `show`: prints each event as soon as it is decoded.
ghost use Rattle.std.specs.Prelude.{IfOk, codes};
ghost use Rattle.clap.specs.Words.{found_of, rows_of};
ghost use Rattle.mesosev_args.specs.CommandLine.{IsCommand, show_app};
ghost use Rattle.mesosev_args.specs.NamedOptions.{Reads};

use crate::args::{Options, WordsFault};
use crate::command::{JSON_LINES_HELP, json_option, reading_command};
use crate::values::{flag_of, framing_of, limit_of};
use clap::{ArgMatches, Command};
use std::alloc::{AllocError, Global};

/// Returns `show [--chunked] [--lines] [--calls] [--limit N] [--json]` as clap's command.
pub fn command<'a>(alloc: Global) -> Result<Command<'a>, AllocError>
    ensures { IfOk result (IsCommand show_app) }
{
    reading_command(
        alloc,
        "show",
        "Print each event of standard input as it arrives",
        "Example: mesosev show < FILE",
    )?
    .arg(json_option(alloc, JSON_LINES_HELP))
}

/// Reads the option values from clap's matches.
///
/// Errors: `BadValue` if a value is out of its range; `Conflict` if both `--chunked` and `--lines` are
/// given.
pub fn read(found: &ArgMatches<'_>) -> Result<Options, WordsFault>
    ensures { Reads (codes "show", rows_of (found_of found.now)) result }
{
    let limit = limit_of(found)?;
    let framing = framing_of(found)?;
    let json = flag_of(found, "json");
    let calls = flag_of(found, "calls");
    Ok(Options::Show {
        framing,
        limit,
        json,
        calls,
    })
}
