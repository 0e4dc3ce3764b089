//! Values of command-line options, read from clap's matches of a subcommand.
ghost use Rattle.std.specs.Prelude.{◌≤◌, IfOk, IfErr};
ghost use Rattle.clap.specs.Words.{found_of, rows_of};
ghost use Rattle.mesosev_args.specs.NamedOptions.{IsBad, IsConflict, LacksNumber, LacksOptional};
ghost use Rattle.mesosev_args.specs.NamedOptions.{LacksText, lines_or_chunked, the_limit, the_most};
ghost use Rattle.mesosev_args.specs.OptionValues.{HasFlag, HasFraming, HasLimit, HasMost, HasNumber, HasOptional, HasText};
ghost use Rattle.mesosev_args.specs.OptionValues.{IsLimit, IsMost, IsWithin};

use crate::args::WordsFault;
use clap::ArgMatches;
use mes_frame::{Limit, MAX_RECORD_LIMIT, MIN_RECORD_LIMIT};
use mes_stream::Framing;
use mesosev_stream::ChunkSize;

/// Returns the framing: `Chunked` if the flag `--chunked` is set, `Lines` if the flag `--lines` is
/// set, else `Plain`.
///
/// Errors: `Conflict` if both flags are set.
pub fn framing_of(matches: &ArgMatches<'_>) -> Result<Framing, WordsFault>
    ensures ok { IfOk result (HasFraming (rows_of (found_of matches.now))) }
    ensures err { IfErr result (IsConflict lines_or_chunked (rows_of (found_of matches.now))) }
{
    match (flag_of(matches, "chunked"), flag_of(matches, "lines")) {
        (false, false) => Ok(Framing::Plain),
        (true, false) => Ok(Framing::Chunked),
        (false, true) => Ok(Framing::Lines),
        (true, true) => Err(WordsFault::Conflict {
            option: "lines",
            other: "chunked",
        }),
    }
}

/// Returns the value of the option `name`, from `least` to `greatest`.
///
/// Errors: `BadValue` if the option has no value in this range.
pub fn number_in(
    matches: &ArgMatches<'_>,
    name: &'static str,
    least: u32,
    greatest: u32,
) -> Result<u32, WordsFault>
    ensures ok { IfOk result (HasNumber name.now (rows_of (found_of matches.now))) }
    ensures ranged { IfOk result (λ n. (least ≤ n) × (n ≤ greatest)) }
    ensures err { IfErr result (LacksNumber name.now least greatest
        (rows_of (found_of matches.now))) }
{
    match matches.get_one::<u32>(name) {
        Some(number) if least <= number && number <= greatest => Ok(number),
        _ => Err(WordsFault::BadValue(name)),
    }
}

/// Returns the value of the option `name`, from `least` to `greatest`, if the option is given.
///
/// Errors: `BadValue` if the value is out of this range.
pub fn optional_number_in(
    matches: &ArgMatches<'_>,
    name: &'static str,
    least: u32,
    greatest: u32,
) -> Result<Option<u32>, WordsFault>
    ensures ok { IfOk result (HasOptional name.now (rows_of (found_of matches.now))) }
    ensures ranged { IfOk result (IsWithin least greatest) }
    ensures err { IfErr result (LacksOptional name.now least greatest
        (rows_of (found_of matches.now))) }
{
    match matches.try_get_one::<u32>(name) {
        Ok(None) => Ok(None),
        Ok(Some(number)) if least <= number && number <= greatest => Ok(Some(number)),
        _ => Err(WordsFault::BadValue(name)),
    }
}

/// Returns whether the flag `name` is set.
pub fn flag_of(matches: &ArgMatches<'_>, name: &'static str) -> bool
    ensures { HasFlag name.now (rows_of (found_of matches.now)) result }
{
    match matches.get_one::<bool>(name) {
        Some(is_set) => is_set,
        None => false,
    }
}

/// Returns the text of the option `name`.
///
/// Errors: `BadValue` if the option has no text.
pub fn text_of<'a>(matches: &ArgMatches<'a>, name: &'static str) -> Result<&'a str, WordsFault>
    ensures ok { IfOk result (λ text. HasText name.now (rows_of (found_of matches.now)) text.now) }
    ensures err { IfErr result (LacksText name.now (rows_of (found_of matches.now))) }
{
    match matches.get_str(name) {
        Some(text) => Ok(text),
        None => Err(WordsFault::BadValue(name)),
    }
}

/// Returns the value of `--limit`.
///
/// Errors: `BadValue` if the option has no value in its range.
pub fn limit_of(matches: &ArgMatches<'_>) -> Result<Limit, WordsFault>
    ensures ok { IfOk result (HasLimit (rows_of (found_of matches.now))) }
    ensures ranged { IfOk result IsLimit }
    ensures err { IfErr result (IsBad the_limit (rows_of (found_of matches.now))) }
{
    let limit = number_in(matches, "limit", MIN_RECORD_LIMIT, MAX_RECORD_LIMIT)?;
    match Limit::new(limit) {
        Some(limit) => Ok(limit),
        None => Err(WordsFault::BadValue("limit")),
    }
}

/// Returns the value of `--most`, if the option is given.
///
/// Errors: `BadValue` if the value is out of its range.
pub fn most_of(matches: &ArgMatches<'_>) -> Result<Option<ChunkSize>, WordsFault>
    ensures ok { IfOk result (HasMost (rows_of (found_of matches.now))) }
    ensures ranged { IfOk result IsMost }
    ensures err { IfErr result (IsBad the_most (rows_of (found_of matches.now))) }
{
    match matches.try_get_one::<u32>("most") {
        Ok(None) => Ok(None),
        Ok(Some(most)) => match ChunkSize::new(most) {
            Some(size) => Ok(Some(size)),
            None => Err(WordsFault::BadValue("most")),
        },
        Err(_) => Err(WordsFault::BadValue("most")),
    }
}
