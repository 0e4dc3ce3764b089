//! Command line of `mesosev`, as clap's command.
ghost use Rattle.std.specs.Prelude.{◌≡◌, false, true, map, IfOk, MatchResult, IfErr, []};
ghost use Rattle.clap.specs.Words.{App, HasKind, app_of, fault_of, rule_of, subcommand_of};
ghost use Rattle.clap.specs.Words.{subcommand_rows_of, with_subcommand};
ghost use Rattle.mesosev_args.specs.CommandLine.{bare_app, calls_rule, chunked_rule, json_rule, limit_rule, lines_rule, most_rule, number_rule, text_rule};
ghost use Rattle.mesosev_args.specs.CommandLine.{IsCommand, command_app, reading_app};

use crate::args::{DEFAULT_LIMIT, VERSION};
use crate::{check, convert, loopback, master, relog, replay, serve, show, subscribe};
use clap::{Arg, ArgAction, ArgMatches, Command, Error};
use mes_frame::{
    MAX_CHUNK, MAX_RECORD_LIMIT, MIN_CHUNK, MIN_RECORD_LIMIT, max_chunk, max_record_limit,
};
use std::alloc::{AllocError, Global};
use std::convert::AsStr;

/// The help text of the flag `--json`, if events are printed as they arrive.
pub const JSON_LINES_HELP: &str =
    "Print JSON Lines: each event as canonical JSON and LF; all else goes to standard error";

/// Matches the arguments against the command; the first one is the program's name.
///
/// Errors: clap's, for a usage error, for a request for help, and if an allocation fails.
pub fn matches_of<'a, S: AsStr>(alloc: Global, words: &'a [S]) -> Result<ArgMatches<'a>, Error>
    // On success: clap accepts the arguments, and the matches are those of the subcommand that the
    // arguments name.
    ensures ok { IfOk result (λ _. fault_of command_app (map S.text words.entry.now) ≡ []) }
    ensures named { IfOk result (λ m.
        subcommand_rows_of m ≡ subcommand_of command_app (map S.text words.entry.now)) }
    // On error: the kind of the error is that of a usage error in the arguments, or memory ran out.
    ensures err { IfErr result (HasKind (fault_of command_app (map S.text words.entry.now))) }
{
    let command = command(alloc)?;
    command.try_get_matches_from(words)
}

// `command_app` in `specs/CommandLine.antt` is the same command in clap's model.
fn command<'a>(alloc: Global) -> Result<Command<'a>, AllocError>
    ensures { IfOk result (λ c. app_of c ≡ command_app) }
{
    let command = bare_command(alloc);
    let command = with(command, check::command(alloc))?;
    let command = with(command, show::command(alloc))?;
    let command = with(command, convert::command(alloc))?;
    let command = with(command, replay::command(alloc))?;
    let command = with(command, relog::command(alloc))?;
    let command = with(command, serve::command(alloc))?;
    let command = with(command, master::command(alloc))?;
    let command = with(command, subscribe::command(alloc))?;
    with(command, loopback::command(alloc))
}

// Adds a subcommand after those already added.
fn with<'a>(
    command: Command<'a>,
    subcommand: Result<Command<'a>, AllocError>,
) -> Result<Command<'a>, AllocError>
    ensures { (app : App) → IfOk subcommand.entry (IsCommand app)
        → IfOk result (λ c. app_of c ≡ with_subcommand (app_of command.entry) app.top) }
{
    command.subcommand(subcommand?)
}

// The command without its subcommands; one is required, and each has `--version` too.
fn bare_command<'a>(alloc: Global) -> Command<'a>
    ensures { app_of result ≡ bare_app }
{
    Command::new(alloc, "mesosev")
        .version(VERSION)
        .propagate_version(true)
        .about("Read and write the event stream of a Mesos scheduler (v1, JSON, RecordIO)")
        .after_help(
            "Input is read from standard input: mesosev check < FILE\n\
            Exit status: 0 success, 1 a fault or a failed output, 2 a usage error",
        )
        .subcommand_required(true)
}

/// Returns a subcommand that reads a stream: `NAME [--chunked] [--lines] [--calls] [--limit N]`.
/// Its help text ends with `example`.
pub fn reading_command<'a>(
    alloc: Global,
    name: &'a str,
    about: &'a str,
    example: &'a str,
) -> Result<Command<'a>, AllocError>
    ensures { IfOk result (IsCommand (reading_app name.entry.now)) }
{
    Command::new(alloc, name)
        .about(about)
        .after_help(example)
        .arg(chunked_option(alloc))?
        .arg(lines_option(alloc))?
        .arg(calls_option(alloc))?
        .arg(limit_option(alloc))
}

fn chunked_option<'a>(alloc: Global) -> Arg<'a>
    ensures rule { rule_of result ≡ chunked_rule }
    ensures local { result.global ≡ false }
{
    Arg::new(alloc, "chunked")
        .long("chunked")
        .action(ArgAction::SetTrue)
        .help("Input is a chunked HTTP/1.1 body, not plain RecordIO")
}

fn lines_option<'a>(alloc: Global) -> Arg<'a>
    ensures rule { rule_of result ≡ lines_rule }
    ensures local { result.global ≡ false }
{
    Arg::new(alloc, "lines")
        .long("lines")
        .action(ArgAction::SetTrue)
        .help("Input is JSON Lines, not plain RecordIO; not with --chunked")
}

fn calls_option<'a>(alloc: Global) -> Arg<'a>
    ensures rule { rule_of result ≡ calls_rule }
    ensures local { result.global ≡ false }
{
    Arg::new(alloc, "calls")
        .long("calls")
        .action(ArgAction::SetTrue)
        .help("Records are calls of a scheduler, not events")
}

/// Returns the flag `--json`.
pub fn json_option<'a>(alloc: Global, help: &'a str) -> Arg<'a>
    ensures rule { rule_of result ≡ json_rule }
    ensures local { result.global ≡ false }
{
    Arg::new(alloc, "json")
        .long("json")
        .action(ArgAction::SetTrue)
        .help(help)
}

/// Returns the option `--limit N`. Clap checks its range too.
pub fn limit_option<'a>(alloc: Global) -> Arg<'a>
    ensures rule { rule_of result ≡ limit_rule }
    ensures local { result.global ≡ false }
{
    let help = max_record_limit!(concat "Largest record in bytes, 1 to ");
    number_option(
        alloc,
        "limit",
        "N",
        MIN_RECORD_LIMIT,
        MAX_RECORD_LIMIT,
        help,
    )
    .default_value(DEFAULT_LIMIT)
}

/// Returns the option `--most M`. Clap checks its range too.
pub fn most_option<'a>(alloc: Global, help: &'a str) -> Arg<'a>
    ensures rule { rule_of result ≡ most_rule }
    ensures local { result.global ≡ false }
{
    number_option(alloc, "most", "M", MIN_CHUNK, MAX_CHUNK, help)
}

/// Returns the option `--NAME N` for a number from `least` to `greatest`. Clap checks the range
/// too.
pub fn number_option<'a>(
    alloc: Global,
    name: &'a str,
    value_name: &'a str,
    least: u32,
    greatest: u32,
    help: &'a str,
) -> Arg<'a>
    ensures rule { rule_of result ≡ number_rule name.entry.now least greatest }
    ensures local { result.global ≡ false }
{
    let range = i64::from(least)..=i64::from(greatest);
    Arg::new(alloc, name)
        .long(name)
        .value_name(value_name)
        .value_parser(clap::value_parser!(u32).range(range))
        .help(help)
}

/// Returns the option `--NAME TEXT`.
pub fn text_option<'a>(alloc: Global, name: &'a str, value_name: &'a str, help: &'a str) -> Arg<'a>
    ensures rule { rule_of result ≡ text_rule name.entry.now }
    ensures local { result.global ≡ false }
{
    Arg::new(alloc, name)
        .long(name)
        .value_name(value_name)
        .help(help)
}
