//! Options for the faults of `master`.
ghost use Rattle.std.specs.Prelude.{◌≡◌, ◌⊎◌, false, IfOk, IfErr};
ghost use Rattle.clap.specs.Words.{found_of, rows_of, rule_of};
ghost use Rattle.mesosev_args.specs.CommandLine.{fault_rule, faults_rule, seed_rule};
ghost use Rattle.mesosev_args.specs.NamedOptions.{IsBad, IsBadOrLacks, the_fault, the_rate, the_seed};
ghost use Rattle.mesosev_args.specs.OptionValues.{HasFaults, HasRandom, IsRandom};

use crate::args::{DEFAULT_SEED, MAX_RATE, MAX_SEED, MIN_RATE, MIN_SEED, WordsFault};
use crate::command::{number_option, text_option};
use crate::values::{number_in, optional_number_in};
use clap::{Arg, ArgAction, ArgMatches};
use mes_double_faults::{Fault, RandomFaults};
use std::alloc::Global;

/// Returns the option `--fault F`, which may be given any number of times.
pub fn fault_option<'a>(alloc: Global) -> Arg<'a>
    ensures rule { rule_of result ≡ fault_rule }
    ensures local { result.global ≡ false }
{
    text_option(
        alloc,
        "fault",
        "F",
        "Fault at an event or call, such as lose:3; repeatable",
    )
    .action(ArgAction::Append)
}

/// Returns the option `--faults R`. Clap checks its range too.
pub fn faults_option<'a>(alloc: Global) -> Arg<'a>
    ensures rule { rule_of result ≡ faults_rule }
    ensures local { result.global ≡ false }
{
    number_option(
        alloc,
        "faults",
        "R",
        MIN_RATE,
        MAX_RATE,
        "Faults at random, at R in 1000 events and calls, 1 to 1000",
    )
}

/// Returns the option `--seed N`. Clap checks its range too.
pub fn seed_option<'a>(alloc: Global) -> Arg<'a>
    ensures rule { rule_of result ≡ seed_rule }
    ensures local { result.global ≡ false }
{
    number_option(
        alloc,
        "seed",
        "N",
        MIN_SEED,
        MAX_SEED,
        "Which of them, 0 to 4294967295",
    )
    .default_value(DEFAULT_SEED)
}

/// Returns the faults of `--fault`, in the order in which they are given.
///
/// Errors: `BadValue` if a text is that of no fault; `NoMemory`.
pub fn faults_of(alloc: Global, found: &ArgMatches<'_>) -> Result<Vec<Fault>, WordsFault>
    ensures ok { IfOk result (λ faults. HasFaults (rows_of (found_of found.now)) faults.items) }
    ensures err { IfErr result (IsBadOrLacks the_fault (rows_of (found_of found.now))) }
{
    let texts = found.get_strs("fault").unwrap_or(&[]);
    let mut faults = Vec::new(alloc);
    for text in texts {
        let Some(fault) = Fault::parse(text) else {
            return Err(WordsFault::BadValue("fault"));
        };
        if faults.push(fault).is_err() {
            return Err(WordsFault::NoMemory);
        }
    }
    Ok(faults)
}

/// Returns the values of `--faults` and `--seed`, if `--faults` is given.
///
/// Errors: `BadValue` if one of them is out of its range.
pub fn random_of(found: &ArgMatches<'_>) -> Result<Option<RandomFaults>, WordsFault>
    ensures ok { IfOk result (HasRandom (rows_of (found_of found.now))) }
    ensures ranged { IfOk result IsRandom }
    ensures err { IfErr result (λ fault. IsBad the_rate (rows_of (found_of found.now)) fault
        ⊎ IsBad the_seed (rows_of (found_of found.now)) fault) }
{
    match optional_number_in(found, "faults", MIN_RATE, MAX_RATE)? {
        Some(rate) => {
            let seed = number_in(found, "seed", MIN_SEED, MAX_SEED)?;
            Ok(Some(RandomFaults { seed, rate }))
        }
        None => Ok(None),
    }
}
