//! Subcommand `replay`: replays a session log.
ghost use Rattle.std.specs.Prelude.{IfOk, codes};
ghost use Rattle.clap.specs.Words.{found_of, rows_of};
ghost use Rattle.mesosev_args.specs.CommandLine.{IsCommand, replay_app};
ghost use Rattle.mesosev_args.specs.NamedOptions.{Reads};

use crate::args::{Options, WordsFault};
use crate::command::{json_option, limit_option};
use crate::values::{flag_of, limit_of};
use clap::{ArgMatches, Command};
use std::alloc::{AllocError, Global};

/// Returns `replay [--limit N] [--json]` as clap's command.
pub fn command<'a>(alloc: Global) -> Result<Command<'a>, AllocError>
    ensures { IfOk result (IsCommand replay_app) }
{
    Command::new(alloc, "replay")
        .about("Replay the session log of standard input, and print the state of the session")
        .after_help("Example: mesosev replay < FILE")
        .arg(limit_option(alloc))?
        .arg(json_option(alloc, "Print the session as one JSON object"))
}

/// Reads the option values from clap's matches.
///
/// Errors: `BadValue` if a value is out of its range.
pub fn read(found: &ArgMatches<'_>) -> Result<Options, WordsFault>
    ensures { Reads (codes "replay", rows_of (found_of found.now)) result }
{
    let limit = limit_of(found)?;
    let json = flag_of(found, "json");
    Ok(Options::Replay { limit, json })
}
