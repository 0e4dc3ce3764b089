//! Subcommand `master`: runs a live test master.
ghost use Rattle.std.specs.Prelude.{◌≡◌, false, IfOk, IfErr, Some, codes};
ghost use Rattle.clap.specs.Words.{found_of, new_app, rows_of, rule_of};
ghost use Rattle.mesosev_args.specs.CommandLine.{IsCommand, chunk_rule, finish_after_rule, heartbeat_rule, master_app};
ghost use Rattle.mesosev_args.specs.CommandLine.{master_port_rule, once_rule, resend_rule, seconds_rule};
ghost use Rattle.mesosev_args.specs.NamedOptions.{IsBad, Reads, the_finish_after, the_heartbeat};
ghost use Rattle.mesosev_args.specs.NamedOptions.{the_master_port, the_resend, the_seconds, the_size};
ghost use Rattle.mesosev_args.specs.OptionValues.{HasNumber, HasOptional, IsFinishAfter, IsHeartbeat, IsMasterPort};
ghost use Rattle.mesosev_args.specs.OptionValues.{IsMost, IsResend, IsSeconds};

use crate::args::{
    DEFAULT_HEARTBEAT, DEFAULT_MASTER_CHUNK, DEFAULT_RESEND, MAX_PORT, MAX_SECONDS,
    MIN_FINISH_AFTER, MIN_HEARTBEAT, MIN_MASTER_PORT, MIN_RESEND, MIN_SECONDS, Options, WordsFault,
};
use crate::command::{most_option, number_option};
use crate::faults::{fault_option, faults_of, faults_option, random_of, seed_option};
use crate::values::{flag_of, number_in, optional_number_in};
use clap::{Arg, ArgAction, ArgMatches, Command};
use mes_double_faults::FaultPlan;
use mes_frame::{MAX_CHUNK, MIN_CHUNK, max_chunk};
use mesosev_stream::ChunkSize;
use std::alloc::{AllocError, Global};

/// Returns `master --port P [--heartbeat S] [--resend S] [--finish-after S] [--seconds S] [--most M]
/// [--fault F].. [--faults R] [--seed N] [--once]` as clap's command.
pub fn command<'a>(alloc: Global) -> Result<Command<'a>, AllocError>
    ensures { IfOk result (IsCommand master_app) }
{
    bare_command(alloc)
        .arg(port_option(alloc))?
        .arg(heartbeat_option(alloc))?
        .arg(resend_option(alloc))?
        .arg(finish_after_option(alloc))?
        .arg(seconds_option(alloc))?
        .arg(chunk_option(alloc))?
        .arg(fault_option(alloc))?
        .arg(faults_option(alloc))?
        .arg(seed_option(alloc))?
        .arg(once_option(alloc))
}

// The command without its options.
fn bare_command<'a>(alloc: Global) -> Command<'a>
    ensures { IsCommand (new_app (codes "master")) result }
{
    Command::new(alloc, "master")
        .about("Serve a live test master on 127.0.0.1, with offers and events from standard input")
        .after_help(
            "Input is plain RecordIO, from a file, or from a pipe while the master runs\n\
            Faults: lose:K twice:K cut:K:B late:K:S mute:K busy:K unanswered:K slow:K:S gone:K reset:K chunk:M\n\
            K is the number of the event or call, from 1; B and M are bytes, S is seconds\n\
            Example: mesosev master --port 5050 < FILE",
        )
}

fn port_option<'a>(alloc: Global) -> Arg<'a>
    ensures rule { rule_of result ≡ master_port_rule }
    ensures local { result.global ≡ false }
{
    number_option(
        alloc,
        "port",
        "P",
        MIN_MASTER_PORT,
        MAX_PORT,
        "Port to listen on, 0 to 65535; 0 picks a free one",
    )
    .required(true)
}

fn heartbeat_option<'a>(alloc: Global) -> Arg<'a>
    ensures rule { rule_of result ≡ heartbeat_rule }
    ensures local { result.global ≡ false }
{
    number_option(
        alloc,
        "heartbeat",
        "S",
        MIN_HEARTBEAT,
        MAX_SECONDS,
        "Seconds between two HEARTBEATs, 1 to 1000000000",
    )
    .default_value(DEFAULT_HEARTBEAT)
}

fn resend_option<'a>(alloc: Global) -> Arg<'a>
    ensures rule { rule_of result ≡ resend_rule }
    ensures local { result.global ≡ false }
{
    number_option(
        alloc,
        "resend",
        "S",
        MIN_RESEND,
        MAX_SECONDS,
        "Seconds after which an unacknowledged update is sent again, 0 to 1000000000; 0: only on a new stream",
    )
    .default_value(DEFAULT_RESEND)
}

fn finish_after_option<'a>(alloc: Global) -> Arg<'a>
    ensures rule { rule_of result ≡ finish_after_rule }
    ensures local { result.global ≡ false }
{
    number_option(
        alloc,
        "finish-after",
        "S",
        MIN_FINISH_AFTER,
        MAX_SECONDS,
        "Seconds after which a running task finishes, 0 to 1000000000; never if not given",
    )
}

fn seconds_option<'a>(alloc: Global) -> Arg<'a>
    ensures rule { rule_of result ≡ seconds_rule }
    ensures local { result.global ≡ false }
{
    number_option(
        alloc,
        "seconds",
        "S",
        MIN_SECONDS,
        MAX_SECONDS,
        "Seconds after which the master ends, 1 to 1000000000; never if not given",
    )
}

fn chunk_option<'a>(alloc: Global) -> Arg<'a>
    ensures rule { rule_of result ≡ chunk_rule }
    ensures local { result.global ≡ false }
{
    most_option(alloc, max_chunk!(concat "Bytes of each chunk, 1 to ")).default_value(
        DEFAULT_MASTER_CHUNK,
    )
}

fn once_option<'a>(alloc: Global) -> Arg<'a>
    ensures rule { rule_of result ≡ once_rule }
    ensures local { result.global ≡ false }
{
    Arg::new(alloc, "once")
        .long("once")
        .action(ArgAction::SetTrue)
        .help("End after the first TEARDOWN")
}

/// Reads the option values from clap's matches.
///
/// Errors: `BadValue` if a value is out of its range, or a text of `--fault` is that of no fault;
/// `NoMemory`.
pub fn read(alloc: Global, found: &ArgMatches<'_>) -> Result<Options, WordsFault>
    ensures { Reads (codes "master", rows_of (found_of found.now)) result }
{
    let port = port_of(found)?;
    let heartbeat = heartbeat_of(found)?;
    let resend = resend_of(found)?;
    let finish_after = finish_after_of(found)?;
    let seconds = seconds_of(found)?;
    let most = size_of(found)?;
    let random = random_of(found)?;
    let faults = faults_of(alloc, found)?;
    let once = flag_of(found, "once");
    Ok(Options::Master {
        port,
        heartbeat,
        resend,
        finish_after,
        seconds,
        most,
        once,
        plan: FaultPlan::new(faults, random),
    })
}

fn port_of(found: &ArgMatches<'_>) -> Result<u16, WordsFault>
    ensures ok { IfOk result (HasNumber (codes "port") (rows_of (found_of found.now))) }
    ensures ranged { IfOk result IsMasterPort }
    ensures err { IfErr result (IsBad the_master_port (rows_of (found_of found.now))) }
{
    let port = number_in(found, "port", MIN_MASTER_PORT, MAX_PORT)?;
    Ok(port as u16)
}

fn heartbeat_of(found: &ArgMatches<'_>) -> Result<u32, WordsFault>
    ensures ok { IfOk result (HasNumber (codes "heartbeat") (rows_of (found_of found.now))) }
    ensures ranged { IfOk result IsHeartbeat }
    ensures err { IfErr result (IsBad the_heartbeat (rows_of (found_of found.now))) }
{
    number_in(found, "heartbeat", MIN_HEARTBEAT, MAX_SECONDS)
}

fn resend_of(found: &ArgMatches<'_>) -> Result<u32, WordsFault>
    ensures ok { IfOk result (HasNumber (codes "resend") (rows_of (found_of found.now))) }
    ensures ranged { IfOk result IsResend }
    ensures err { IfErr result (IsBad the_resend (rows_of (found_of found.now))) }
{
    number_in(found, "resend", MIN_RESEND, MAX_SECONDS)
}

fn finish_after_of(found: &ArgMatches<'_>) -> Result<Option<u32>, WordsFault>
    ensures ok { IfOk result (HasOptional (codes "finish-after")
        (rows_of (found_of found.now))) }
    ensures ranged { IfOk result IsFinishAfter }
    ensures err { IfErr result (IsBad the_finish_after (rows_of (found_of found.now))) }
{
    optional_number_in(found, "finish-after", MIN_FINISH_AFTER, MAX_SECONDS)
}

fn seconds_of(found: &ArgMatches<'_>) -> Result<Option<u32>, WordsFault>
    ensures ok { IfOk result (HasOptional (codes "seconds") (rows_of (found_of found.now))) }
    ensures ranged { IfOk result IsSeconds }
    ensures err { IfErr result (IsBad the_seconds (rows_of (found_of found.now))) }
{
    optional_number_in(found, "seconds", MIN_SECONDS, MAX_SECONDS)
}

fn size_of(found: &ArgMatches<'_>) -> Result<ChunkSize, WordsFault>
    ensures ok { IfOk result (HasNumber (codes "most") (rows_of (found_of found.now))) }
    ensures ranged { IfOk result (λ most. IsMost (Some most)) }
    ensures err { IfErr result (IsBad the_size (rows_of (found_of found.now))) }
{
    let most = number_in(found, "most", MIN_CHUNK, MAX_CHUNK)?;
    match ChunkSize::new(most) {
        Some(size) => Ok(size),
        None => Err(WordsFault::BadValue("most")),
    }
}
