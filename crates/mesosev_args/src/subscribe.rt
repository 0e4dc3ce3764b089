//! Subcommand `subscribe`: prints the events of a master.
ghost use Rattle.std.specs.Prelude.{◌≡◌, false, IfOk, IfErr, codes};
ghost use Rattle.clap.specs.Words.{found_of, new_app, rows_of, rule_of};
ghost use Rattle.mes_double_http.specs.Hosts.{IsHost};
ghost use Rattle.mesosev_args.specs.CommandLine.{IsCommand, name_rule, reads_rule, subscribe_app, to_rule, user_rule};
ghost use Rattle.mesosev_args.specs.NamedOptions.{IsBad, IsBadOrLacks, Reads};
ghost use Rattle.mesosev_args.specs.OptionValues.{HasNumber, HasText, IsReads};
ghost use Rattle.mesosev_args.specs.NamedOptions.{the_name, the_reads, the_to, the_user};

use crate::args::{
    DEFAULT_SUBSCRIBE_READS, MAX_SUBSCRIBE_READS, MIN_SUBSCRIBE_READS, Options, WordsFault,
};
use crate::command::{JSON_LINES_HELP, json_option, number_option, text_option};
use crate::values::{flag_of, number_in, text_of};
use clap::{Arg, ArgMatches, Command};
use mes_double_http::Host;
use mes_json::Text;
use std::alloc::{AllocError, Global};

/// Returns `subscribe --to ADDR --user U --name N [--reads R] [--json]` as clap's command.
pub fn command<'a>(alloc: Global) -> Result<Command<'a>, AllocError>
    ensures { IfOk result (IsCommand subscribe_app) }
{
    bare_command(alloc)
        .arg(to_option(alloc))?
        .arg(user_option(alloc))?
        .arg(name_option(alloc))?
        .arg(reads_option(alloc))?
        .arg(json_option(alloc, JSON_LINES_HELP))
}

// The command without its options.
fn bare_command<'a>(alloc: Global) -> Command<'a>
    ensures { IsCommand (new_app (codes "subscribe")) result }
{
    Command::new(alloc, "subscribe")
        .about("Subscribe to a master, and print its events as they arrive")
        .after_help("Example: mesosev subscribe --to 127.0.0.1:5050 --user root --name n")
}

fn to_option<'a>(alloc: Global) -> Arg<'a>
    ensures rule { rule_of result ≡ to_rule }
    ensures local { result.global ≡ false }
{
    text_option(alloc, "to", "ADDR", "Address of the master, HOST:PORT").required(true)
}

fn user_option<'a>(alloc: Global) -> Arg<'a>
    ensures rule { rule_of result ≡ user_rule }
    ensures local { result.global ≡ false }
{
    text_option(alloc, "user", "U", "User of the framework").required(true)
}

fn name_option<'a>(alloc: Global) -> Arg<'a>
    ensures rule { rule_of result ≡ name_rule }
    ensures local { result.global ≡ false }
{
    text_option(alloc, "name", "N", "Name of the framework").required(true)
}

fn reads_option<'a>(alloc: Global) -> Arg<'a>
    ensures rule { rule_of result ≡ reads_rule }
    ensures local { result.global ≡ false }
{
    number_option(
        alloc,
        "reads",
        "R",
        MIN_SUBSCRIBE_READS,
        MAX_SUBSCRIBE_READS,
        "Largest number of reads of the stream, 0 to 4294967295",
    )
    .default_value(DEFAULT_SUBSCRIBE_READS)
}

/// Reads the option values from clap's matches.
///
/// Errors: `BadValue` if a value is out of its range; `NoMemory`.
pub fn read(alloc: Global, found: &ArgMatches<'_>) -> Result<Options, WordsFault>
    ensures { Reads (codes "subscribe", rows_of (found_of found.now)) result }
{
    let reads = reads_of(found)?;
    let to = to_of(found)?;
    let user = user_of(alloc, found)?;
    let name = name_of(alloc, found)?;
    let json = flag_of(found, "json");
    Ok(Options::Subscribe {
        to,
        user,
        name,
        reads,
        json,
    })
}

fn to_of(found: &ArgMatches<'_>) -> Result<Host, WordsFault>
    ensures ok { IfOk result (HasText (codes "to") (rows_of (found_of found.now))) }
    ensures ranged { IfOk result IsHost }
    ensures err { IfErr result (IsBad the_to (rows_of (found_of found.now))) }
{
    let text = text_of(found, "to")?;
    match Host::new(text) {
        Some(host) => Ok(host),
        None => Err(WordsFault::BadValue("to")),
    }
}

fn user_of(alloc: Global, found: &ArgMatches<'_>) -> Result<Text, WordsFault>
    ensures ok { IfOk result (HasText (codes "user") (rows_of (found_of found.now))) }
    ensures err { IfErr result (IsBadOrLacks the_user (rows_of (found_of found.now))) }
{
    let text = text_of(found, "user")?;
    match Text::of(alloc, text) {
        Ok(user) => Ok(user),
        Err(_) => Err(WordsFault::NoMemory),
    }
}

fn name_of(alloc: Global, found: &ArgMatches<'_>) -> Result<Text, WordsFault>
    ensures ok { IfOk result (HasText (codes "name") (rows_of (found_of found.now))) }
    ensures err { IfErr result (IsBadOrLacks the_name (rows_of (found_of found.now))) }
{
    let text = text_of(found, "name")?;
    match Text::of(alloc, text) {
        Ok(name) => Ok(name),
        Err(_) => Err(WordsFault::NoMemory),
    }
}

fn reads_of(found: &ArgMatches<'_>) -> Result<u32, WordsFault>
    ensures ok { IfOk result (HasNumber (codes "reads") (rows_of (found_of found.now))) }
    ensures ranged { IfOk result IsReads }
    ensures err { IfErr result (IsBad the_reads (rows_of (found_of found.now))) }
{
    number_in(found, "reads", MIN_SUBSCRIBE_READS, MAX_SUBSCRIBE_READS)
}
