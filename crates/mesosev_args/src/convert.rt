//! Subcommand `convert`: re-encodes the events.
ghost use Rattle.std.specs.Prelude.{◌≡◌, IfErr, IfOk, codes};
ghost use Rattle.clap.specs.Words.{found_of, rows_of};
ghost use Rattle.mesosev_args.specs.CommandLine.{IsCommand, convert_app};
ghost use Rattle.mesosev_args.specs.NamedOptions.{ExcludeEach, Reads, json_in, most_in};

use crate::args::{Options, WordsFault};
use crate::command::{json_option, most_option, reading_command};
use crate::values::{flag_of, framing_of, limit_of, most_of};
use clap::{ArgMatches, Command};
use mes_frame::max_chunk;
use mesosev_stream::{ChunkSize, OutputFormat};
use std::alloc::{AllocError, Global};

/// Returns `convert [--chunked] [--lines] [--calls] [--limit N] [--most M] [--json]` as clap's
/// command.
pub fn command<'a>(alloc: Global) -> Result<Command<'a>, AllocError>
    ensures { IfOk result (IsCommand convert_app) }
{
    reading_command(
        alloc,
        "convert",
        "Read all events of standard input, and write them again in canonical form",
        "Example: mesosev convert --most 4096 < FILE > stream.chunked",
    )?
    .arg(most_option(
        alloc,
        max_chunk!(concat "Write a chunked body, not plain RecordIO, in chunks of M bytes, 1 to "),
    ))?
    .arg(json_option(
        alloc,
        "Print JSON Lines: each event as canonical JSON and LF; not with --most",
    ))
}

/// Reads the option values from clap's matches.
///
/// Errors: `BadValue` if a value is out of its range; `Conflict` if both `--most` and `--json` are
/// given, or both `--chunked` and `--lines`.
pub fn read(found: &ArgMatches<'_>) -> Result<Options, WordsFault>
    ensures { Reads (codes "convert", rows_of (found_of found.now)) result }
{
    let limit = limit_of(found)?;
    let most = most_of(found)?;
    let format = format_of(most, flag_of(found, "json"))?;
    let framing = framing_of(found)?;
    let calls = flag_of(found, "calls");
    Ok(Options::Convert {
        framing,
        limit,
        format,
        calls,
    })
}

/// Returns the format for the values of `--most` and `--json`.
///
/// Errors: `Conflict` if both options are given.
fn format_of(most: Option<ChunkSize>, json: bool) -> Result<OutputFormat, WordsFault>
    ensures ok { IfOk result (λ format. (most ≡ most_in format) × (json ≡ json_in format)) }
    ensures err { IfErr result (ExcludeEach most json) }
{
    match (most, json) {
        (None, false) => Ok(OutputFormat::Plain),
        (Some(most), false) => Ok(OutputFormat::Chunked(most)),
        (None, true) => Ok(OutputFormat::JsonLines),
        (Some(_), true) => Err(WordsFault::Conflict {
            option: "json",
            other: "most",
        }),
    }
}
