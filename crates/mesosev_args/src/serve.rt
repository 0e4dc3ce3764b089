//! Subcommand `serve`: runs a test master.
ghost use Rattle.std.specs.Prelude.{◌≡◌, false, IfOk, IfErr, codes};
ghost use Rattle.clap.specs.Words.{found_of, rows_of, rule_of};
ghost use Rattle.mesosev_args.specs.CommandLine.{IsCommand, count_rule, port_rule, serve_app, stream_rule};
ghost use Rattle.mesosev_args.specs.NamedOptions.{IsBad, Reads};
ghost use Rattle.mesosev_args.specs.OptionValues.{HasNumber, HasStream, IsCount, IsPort};
ghost use Rattle.mesosev_args.specs.NamedOptions.{the_count, the_port, the_stream};

use crate::args::{
    DEFAULT_STREAM, MAX_CONNECTIONS, MAX_PORT, MIN_CONNECTIONS, MIN_PORT, Options, WordsFault,
};
use crate::command::{number_option, text_option};
use crate::values::{number_in, text_of};
use clap::{Arg, ArgMatches, Command};
use std::alloc::{AllocError, Global};
use uuid::Uuid;

/// Returns `serve --port P --count C [--stream UUID]` as clap's command.
pub fn command<'a>(alloc: Global) -> Result<Command<'a>, AllocError>
    ensures { IfOk result (IsCommand serve_app) }
{
    Command::new(alloc, "serve")
        .about(
            "Serve a test master on 127.0.0.1 that sends the events of standard input to each scheduler",
        )
        .after_help(
            "Input is plain RecordIO, read to its end before the first connection\n\
            Example: mesosev serve --port 5050 --count 10 < FILE",
        )
        .arg(port_option(alloc))?
        .arg(count_option(alloc))?
        .arg(stream_option(alloc))
}

fn port_option<'a>(alloc: Global) -> Arg<'a>
    ensures rule { rule_of result ≡ port_rule }
    ensures local { result.global ≡ false }
{
    number_option(
        alloc,
        "port",
        "P",
        MIN_PORT,
        MAX_PORT,
        "Port to listen on, 1 to 65535",
    )
    .required(true)
}

fn count_option<'a>(alloc: Global) -> Arg<'a>
    ensures rule { rule_of result ≡ count_rule }
    ensures local { result.global ≡ false }
{
    number_option(
        alloc,
        "count",
        "C",
        MIN_CONNECTIONS,
        MAX_CONNECTIONS,
        "Number of connections to accept, one at a time, 1 to 1000",
    )
    .required(true)
}

fn stream_option<'a>(alloc: Global) -> Arg<'a>
    ensures rule { rule_of result ≡ stream_rule }
    ensures local { result.global ≡ false }
{
    text_option(
        alloc,
        "stream",
        "UUID",
        "Id of the first stream; the ids of later ones count up by one",
    )
    .default_value(DEFAULT_STREAM)
}

/// Reads the option values from clap's matches.
///
/// Errors: `BadValue` if a value is out of its range, or is not a UUID.
pub fn read(found: &ArgMatches<'_>) -> Result<Options, WordsFault>
    ensures { Reads (codes "serve", rows_of (found_of found.now)) result }
{
    let port = port_of(found)?;
    let count = count_of(found)?;
    let stream = stream_of(found)?;
    Ok(Options::Serve {
        port,
        count,
        stream,
    })
}

fn port_of(found: &ArgMatches<'_>) -> Result<u16, WordsFault>
    ensures ok { IfOk result (HasNumber (codes "port") (rows_of (found_of found.now))) }
    ensures ranged { IfOk result IsPort }
    ensures err { IfErr result (IsBad the_port (rows_of (found_of found.now))) }
{
    let port = number_in(found, "port", MIN_PORT, MAX_PORT)?;
    Ok(port as u16)
}

fn count_of(found: &ArgMatches<'_>) -> Result<u16, WordsFault>
    ensures ok { IfOk result (HasNumber (codes "count") (rows_of (found_of found.now))) }
    ensures ranged { IfOk result IsCount }
    ensures err { IfErr result (IsBad the_count (rows_of (found_of found.now))) }
{
    let count = number_in(found, "count", MIN_CONNECTIONS, MAX_CONNECTIONS)?;
    Ok(count as u16)
}

// Accepts each text form that `Uuid::parse_str` accepts.
fn stream_of(found: &ArgMatches<'_>) -> Result<Uuid, WordsFault>
    ensures ok { IfOk result (HasStream (rows_of (found_of found.now))) }
    ensures err { IfErr result (IsBad the_stream (rows_of (found_of found.now))) }
{
    let text = text_of(found, "stream")?;
    match Uuid::parse_str(text) {
        Ok(stream) => Ok(stream),
        Err(_) => Err(WordsFault::BadValue("stream")),
    }
}
