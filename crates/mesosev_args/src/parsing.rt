//! Parsing of the arguments.
ghost use Rattle.std.specs.Prelude.{◌≡◌, [], map};
ghost use Rattle.std.specs.Prelude.{IfOk, IfErr, MatchResult};
ghost use Rattle.clap.specs.Words.{fault_of, found_of, rows_of};
ghost use Rattle.mesosev_args.specs.CommandLine.{command_app};
ghost use Rattle.mesosev_args.specs.NamedOptions.{IsInRange, NameOptions, Reads, RefusesArgs};
ghost use Rattle.mesosev_args.specs.NamedOptions.{SayPlainly};
ghost use Rattle.mesosev_args.specs.declared.args.Options.{Options};

use crate::args::{Options, WordsFault};
use crate::command::matches_of;
use crate::{check, convert, loopback, master, relog, replay, serve, show, subscribe};
use clap::ArgMatches;
use std::alloc::Global;
use std::convert::AsStr;

/// Parses the arguments; the first one is the program's name.
///
/// Errors: `Clap` for a usage error or a request for help, `BadValue` if a value is out of its
/// range, `Conflict` if two options are given that exclude each other, `NoMemory`.
pub fn options<S: AsStr>(alloc: Global, words: &[S]) -> Result<Options, WordsFault>
    // On success: clap accepts the arguments. The arguments name the returned subcommand with the
    // returned values, each in its range.
    ensures ok { IfOk result (λ _. fault_of command_app (map S.text words.now) ≡ []) }
    ensures named { IfOk result (NameOptions (map S.text words.now)) }
    ensures ranged { IfOk result IsInRange }
    // On error: clap rejects the arguments with an error of the returned kind, or the arguments
    // name no options in range, or memory ran out.
    ensures err { IfErr result (RefusesArgs (map S.text words.now)) }
    // Arguments in the usual order and spelling (`SayPlainly`) with values in range give exactly
    // the options that they name, unless memory runs out.
    ensures plain { (said : Options) → SayPlainly (map S.text words.now) said → IsInRange said
        → MatchResult result (λ o. o ≡ said) (λ fault. fault ≡ WordsFault.NoMemory) }
{
    let matches = matches_of(alloc, words)?;
    match matches.subcommand() {
        Some((name, found)) => read(alloc, name, found),
        None => Err(WordsFault::BadValue("COMMAND")),
    }
}

/// Reads the options of the subcommand `name` from clap's matches.
fn read(alloc: Global, name: &str, found: &ArgMatches<'_>) -> Result<Options, WordsFault>
    ensures { Reads (name.now, rows_of (found_of found.now)) result }
{
    match name {
        "check" => check::read(found),
        "show" => show::read(found),
        "convert" => convert::read(found),
        "replay" => replay::read(found),
        "relog" => relog::read(found),
        "serve" => serve::read(found),
        "master" => master::read(alloc, found),
        "subscribe" => subscribe::read(alloc, found),
        "loopback" => loopback::read(found),
        _ => Err(WordsFault::BadValue("COMMAND")),
    }
}
