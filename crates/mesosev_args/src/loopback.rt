//! Subcommand `loopback`: runs a test master and a scheduler over a socket.
ghost use Rattle.std.specs.Prelude.{◌≡◌, false, IfOk, IfErr, Some, codes};
ghost use Rattle.clap.specs.Words.{found_of, rows_of, rule_of};
ghost use Rattle.mesosev_args.specs.CommandLine.{IsCommand, loopback_app, most_rule, usually};
ghost use Rattle.mesosev_args.specs.NamedOptions.{IsBad, Reads};
ghost use Rattle.mesosev_args.specs.OptionValues.{HasNumber, IsMost};
ghost use Rattle.mesosev_args.specs.NamedOptions.{the_size};

use crate::args::{DEFAULT_LOOPBACK_CHUNK, Options, WordsFault};
use crate::command::most_option;
use crate::values::number_in;
use clap::{Arg, ArgMatches, Command};
use mes_frame::{MAX_CHUNK, MIN_CHUNK, max_chunk};
use mesosev_stream::ChunkSize;
use std::alloc::{AllocError, Global};

/// Returns `loopback [--most M]` as clap's command.
pub fn command<'a>(alloc: Global) -> Result<Command<'a>, AllocError>
    ensures { IfOk result (IsCommand loopback_app) }
{
    Command::new(alloc, "loopback")
        .about(
            "Send the events of standard input from a test master to a scheduler over a socket, and print them",
        )
        .after_help("Input is plain RecordIO\nExample: mesosev loopback < FILE")
        .arg(usual_most_option(alloc))
}

// Returns the option `--most M`, which has a default, unlike that of `convert`.
fn usual_most_option<'a>(alloc: Global) -> Arg<'a>
    ensures rule { rule_of result ≡ usually DEFAULT_LOOPBACK_CHUNK.now most_rule }
    ensures local { result.global ≡ false }
{
    most_option(alloc, max_chunk!(concat "Bytes of each chunk, 1 to ")).default_value(
        DEFAULT_LOOPBACK_CHUNK,
    )
}

/// Reads the option values from clap's matches.
///
/// Errors: `BadValue` if a value is out of its range.
pub fn read(found: &ArgMatches<'_>) -> Result<Options, WordsFault>
    ensures { Reads (codes "loopback", rows_of (found_of found.now)) result }
{
    let most = size_of(found)?;
    Ok(Options::Loopback { most })
}

fn size_of(found: &ArgMatches<'_>) -> Result<ChunkSize, WordsFault>
    ensures ok { IfOk result (HasNumber (codes "most") (rows_of (found_of found.now))) }
    ensures ranged { IfOk result (λ most. IsMost (Some most)) }
    ensures err { IfErr result (IsBad the_size (rows_of (found_of found.now))) }
{
    let most = number_in(found, "most", MIN_CHUNK, MAX_CHUNK)?;
    match ChunkSize::new(most) {
        Some(size) => Ok(size),
        None => Err(WordsFault::BadValue("most")),
    }
}
