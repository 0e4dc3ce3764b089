//! The command over any devices: parses the arguments, and performs the subcommand.
ghost use Rattle.std.specs.Prelude.{◌≡◌, codes, ◌⊎◌, false, map};
ghost use Rattle.mes_frame.specs.Devices.{Device};
ghost use Rattle.mesosev_stream.specs.Outputs.{output_of};
ghost use Rattle.mesosev_stream.specs.Printing.{LacksMemory, Prints};
ghost use Rattle.mesosev_args.specs.NamedOptions.{SayPlainly, IsInRange};
ghost use Rattle.mesosev.specs.Running.{ConvertsRecords, Ends, ExportsRecords, FollowsRecords, LeavesError, Performs, PerformsSaid, Runs};
ghost use Rattle.mesosev.specs.Reporting.{Reports, ReportsError, conflict_line, not_text_line};
ghost use Rattle.mesosev_args.specs.declared.args.Options.{Options as OptionsValue};

use mes_double_http::Host;
use mes_frame::{Limit, Sink, Source};
use mes_json::Text;
use mes_msg::{Call, Event};
use mes_stream::Framing;
use mesosev_args::{
    DEFAULT_HEARTBEAT, DEFAULT_LIMIT, DEFAULT_LOOPBACK_CHUNK, DEFAULT_MASTER_CHUNK, DEFAULT_RESEND,
    DEFAULT_STREAM, DEFAULT_SUBSCRIBE_READS, MAX_CONNECTIONS, MAX_PORT, MAX_SECONDS,
    MAX_SUBSCRIBE_READS, MIN_CONNECTIONS, MIN_FINISH_AFTER, MIN_HEARTBEAT, MIN_MASTER_PORT,
    MIN_PORT, MIN_RESEND, MIN_SECONDS, MIN_SUBSCRIBE_READS, Options, WordsFault, options,
};
use mesosev_live::{MasterOptions, master};
use mesosev_log::{relog, replay, replay_json};
use mesosev_net::{loopback, serve, subscribe, subscribe_json};
use mesosev_stream::{
    Detail, ExitStatus, MAX_READS, Output, OutputFormat, RunOutcome, convert, export, finish,
    follow, out_of_memory, print_text,
};
use std::alloc::{AllocGlobal, Global};
use std::convert::AsStr;
use std::fs::Files;
use std::net::{Net, TcpListener, TcpStream};
use std::time::Clock;

/// The message for an argument that is not UTF-8.
const NOT_TEXT: &str = "error: a word is not UTF-8\n";

/// Runs the command, and returns its exit status. The first argument is the program's name.
///
/// - `Success`: no error.
/// - `Fault`: an error was printed, or an output failed.
/// - `Usage`: the arguments are invalid.
///
/// If an output fails, prints a line to `err`, unless the output is closed.
pub fn run<R, W: AsStr, I: Source, O: Sink, E: Sink>(
    rt: &R,
    words: &[W],
    input: &mut I,
    out: &mut Output<O>,
    err: &mut E,
) -> ExitStatus
where
    R: AllocGlobal + Net<Listener = TcpListener, Stream = TcpStream> + Clock + Files,
    // The effect of the subcommand, the line of a failed output, and the status.
    ensures runs { Ends (Runs (map W.text words.now)
        (I.device input.old) (I.device input.new)
        (output_of O.device out.old) (output_of O.device out.new)
        (E.device err.old))
        out.new.closed (E.device err.new) result }

    // If the arguments have their options in order, each at most once: the subcommand is
    // performed, unless an allocation fails.
    ensures plain { (said : OptionsValue) → SayPlainly (map W.text words.now) said → IsInRange said
        → Ends (PerformsSaid said
        (I.device input.old) (I.device input.new)
        (output_of O.device out.old) (output_of O.device out.new)
        (E.device err.old))
        out.new.closed (E.device err.new) result }

    // The defaults and ranges of the command-line options. The crates that define other limits
    // state them.
    ensures limit { DEFAULT_LIMIT.now ≡ codes "4194304" }
    ensures port { (MIN_PORT ≡ 1) × (MAX_PORT ≡ 65535) }
    ensures count { (MIN_CONNECTIONS ≡ 1) × (MAX_CONNECTIONS ≡ 1000) }
    ensures stream { DEFAULT_STREAM.now ≡ codes "00000000-0000-4000-8000-000000000001" }
    ensures master_port { (MIN_MASTER_PORT ≡ 0) × (MAX_PORT ≡ 65535) }
    ensures heartbeat { (MIN_HEARTBEAT ≡ 1) × (MAX_SECONDS ≡ 1000000000)
        × (DEFAULT_HEARTBEAT.now ≡ codes "15") }
    ensures resend { (MIN_RESEND ≡ 0) × (DEFAULT_RESEND.now ≡ codes "10") }
    ensures times { (MIN_FINISH_AFTER ≡ 0) × (MIN_SECONDS ≡ 1) }
    ensures chunk { DEFAULT_MASTER_CHUNK.now ≡ codes "16777216" }
    ensures reads { (MIN_SUBSCRIBE_READS ≡ 0) × (MAX_SUBSCRIBE_READS ≡ 4294967295)
        × (DEFAULT_SUBSCRIBE_READS.now ≡ codes "1000000") }
    ensures most { DEFAULT_LOOPBACK_CHUNK.now ≡ codes "4096" }
{
    let ended = run_args(rt, words, input, out, err);
    finish(ended, out.is_closed(), err)
}

// Performs the subcommand, or prints the usage error.
fn run_args<R, W: AsStr, I: Source, O: Sink, E: Sink>(
    rt: &R,
    words: &[W],
    input: &mut I,
    out: &mut O,
    err: &mut E,
) -> RunOutcome
where
    R: AllocGlobal + Net<Listener = TcpListener, Stream = TcpStream> + Clock + Files,
    ensures runs { Runs (map W.text words.now)
        (I.device input.old) (I.device input.new)
        (O.device out.old) (O.device out.new)
        (E.device err.old) (E.device err.new)
        result }

    // If the arguments have their options in order, each at most once: the subcommand is
    // performed, unless an allocation fails.
    ensures plain { (said : OptionsValue) → SayPlainly (map W.text words.now) said → IsInRange said
        → PerformsSaid said
        (I.device input.old) (I.device input.new)
        (O.device out.old) (O.device out.new)
        (E.device err.old) (E.device err.new)
        result }
{
    let alloc = rt.alloc();
    match options(alloc, words) {
        Ok(options) => perform(rt, &options, input, out, err),
        Err(fault) => tell(alloc, &fault, out, err),
    }
}

// Performs the subcommand.
fn perform<R, I: Source, O: Sink, E: Sink>(
    rt: &R,
    options: &Options,
    input: &mut I,
    out: &mut O,
    err: &mut E,
) -> RunOutcome
where
    R: AllocGlobal + Net<Listener = TcpListener, Stream = TcpStream> + Clock + Files,
    ensures { Performs options.now
        (I.device input.old) (I.device input.new)
        (O.device out.old) (O.device out.new)
        (E.device err.old) (E.device err.new)
        result }
{
    let alloc = rt.alloc();
    match options {
        Options::Check {
            framing,
            limit,
            calls,
        } => follow_all(alloc, Detail::Counts, *framing, *limit, *calls, input, out),
        Options::Show {
            framing,
            limit,
            json,
            calls,
        } => show(alloc, *framing, *limit, *json, *calls, input, out, err),
        Options::Convert {
            framing,
            limit,
            format,
            calls,
        } => RunOutcome::Status(convert_all(
            alloc, *framing, *limit, *format, *calls, input, out, err,
        )),
        Options::Replay { limit, json } => replay_log(alloc, *limit, *json, input, out, err),
        Options::Relog { limit } => RunOutcome::Status(relog(alloc, *limit, input, out, err)),
        Options::Serve {
            port,
            count,
            stream,
        } => serve(rt, *port, *count, *stream, input, out),
        Options::Master {
            port,
            heartbeat,
            resend,
            finish_after,
            seconds,
            most,
            once,
            plan,
        } => {
            let options = MasterOptions {
                port: *port,
                heartbeat: *heartbeat,
                resend: *resend,
                finish_after: *finish_after,
                seconds: *seconds,
                most: *most,
                once: *once,
            };
            master(rt, &options, plan, input, out)
        }
        Options::Subscribe {
            to,
            user,
            name,
            reads,
            json,
        } => subscribe_to(rt, to, user, name, *reads, *json, out, err),
        Options::Loopback { most } => loopback(rt, *most, input, out),
    }
}

// Performs `show`: prints the lines of the messages, or with `json` writes them as JSON Lines.
fn show<I: Source, O: Sink, E: Sink>(
    alloc: Global,
    framing: Framing,
    limit: Limit,
    json: bool,
    calls: bool,
    input: &mut I,
    out: &mut O,
    err: &mut E,
) -> RunOutcome
    ensures { Performs (Options.Show framing limit json calls)
        (I.device input.old) (I.device input.new)
        (O.device out.old) (O.device out.new)
        (E.device err.old) (E.device err.new)
        result }
{
    if json {
        export_all(alloc, framing, limit, calls, input, out, err)
    } else {
        follow_all(alloc, Detail::Lines, framing, limit, calls, input, out)
    }
}

// Performs `show --json` with at most `MAX_READS` reads of the input.
fn export_all<I: Source, O: Sink, E: Sink>(
    alloc: Global,
    framing: Framing,
    limit: Limit,
    calls: bool,
    input: &mut I,
    out: &mut O,
    err: &mut E,
) -> RunOutcome
    ensures { ExportsRecords calls framing limit (I.device input.old) (I.device input.new)
        (O.device out.old) (O.device out.new) (E.device err.old) (E.device err.new) result }
{
    if calls {
        export::<Call, _, _, _>(alloc, framing, limit, MAX_READS, input, out, err)
    } else {
        export::<Event, _, _, _>(alloc, framing, limit, MAX_READS, input, out, err)
    }
}

// Performs `convert`.
fn convert_all<I: Source, O: Sink, E: Sink>(
    alloc: Global,
    framing: Framing,
    limit: Limit,
    format: OutputFormat,
    calls: bool,
    input: &mut I,
    out: &mut O,
    err: &mut E,
) -> ExitStatus
    ensures { ConvertsRecords calls framing limit format (I.device input.old) (I.device input.new)
        (O.device out.old) (O.device out.new) (E.device err.old) (E.device err.new) result }
{
    if calls {
        convert::<Call, _, _, _>(alloc, framing, limit, format, input, out, err)
    } else {
        convert::<Event, _, _, _>(alloc, framing, limit, format, input, out, err)
    }
}

// Performs `replay`: prints the report of the session, or with `json` one JSON object.
fn replay_log<I: Source, O: Sink, E: Sink>(
    alloc: Global,
    limit: Limit,
    json: bool,
    input: &mut I,
    out: &mut O,
    err: &mut E,
) -> RunOutcome
    ensures { Performs (Options.Replay limit json)
        (I.device input.old) (I.device input.new)
        (O.device out.old) (O.device out.new)
        (E.device err.old) (E.device err.new)
        result }
{
    if json {
        replay_json(alloc, limit, input, out, err)
    } else {
        replay(alloc, limit, input, out)
    }
}

// Performs `subscribe`: prints the lines of the events, or with `json` writes them as JSON Lines.
fn subscribe_to<R, O: Sink, E: Sink>(
    rt: &R,
    to: &Host,
    user: &Text,
    name: &Text,
    reads: u32,
    json: bool,
    out: &mut O,
    err: &mut E,
) -> RunOutcome
where
    R: AllocGlobal + Net<Listener = TcpListener, Stream = TcpStream>,
    ensures { (input : Device) → Performs (Options.Subscribe to.now user.now name.now reads json)
        input input
        (O.device out.old) (O.device out.new)
        (E.device err.old) (E.device err.new)
        result }
{
    if json {
        subscribe_json(rt, to, user, name, reads, out, err)
    } else {
        subscribe(rt, to, user, name, reads, out)
    }
}

// Performs `check` or `show` with at most `MAX_READS` reads of the input.
fn follow_all<I: Source, O: Sink>(
    alloc: Global,
    detail: Detail,
    framing: Framing,
    limit: Limit,
    calls: bool,
    input: &mut I,
    out: &mut O,
) -> RunOutcome
    ensures { FollowsRecords calls detail framing limit (I.device input.old) (I.device input.new)
        (O.device out.old) (O.device out.new) result }
{
    if calls {
        follow::<Call, _, _>(alloc, detail, framing, limit, MAX_READS, input, out)
    } else {
        follow::<Event, _, _>(alloc, detail, framing, limit, MAX_READS, input, out)
    }
}

/// Prints that an allocation failed before the arguments were parsed, and returns the exit status.
pub(crate) fn end_without_memory<O: Sink, E: Sink>(out: &mut Output<O>, err: &mut E) -> ExitStatus
    ensures { Ends (LeavesError (LacksMemory (output_of O.device out.old)
        (output_of O.device out.new)) (E.device err.old))
        out.new.closed (E.device err.new) result }
{
    let ended = out_of_memory(out);
    finish(ended, out.is_closed(), err)
}

/// Prints to `err` that an argument is not UTF-8, and returns the exit status.
pub(crate) fn end_without_text<E: Sink>(err: &mut E) -> ExitStatus
    ensures { Ends (λ reported ended. Prints (E.device err.old) reported
        not_text_line ExitStatus.Usage ended)
        false (E.device err.new) result }
{
    let ended = ExitStatus::Usage.after(print_text(err, NOT_TEXT));
    finish(ended, false, err)
}

/// Prints the reason for which the arguments have no options: clap's result, a value that is out of
/// range, two options that exclude each other, or a failed allocation.
fn tell<O: Sink, E: Sink>(alloc: Global, fault: &WordsFault, out: &mut O, err: &mut E) -> RunOutcome
    ensures { Reports fault.now
        (O.device out.old) (O.device out.new)
        (E.device err.old) (E.device err.new)
        result }
{
    match fault {
        WordsFault::Clap(error) => report_error(alloc, error, out, err),
        WordsFault::BadValue(name) => match format!(in alloc; "bad value --{name}\n") {
            Ok(text) => ExitStatus::Usage.after(print_text(err, text.as_str())),
            Err(_) => out_of_memory(out),
        },
        WordsFault::Conflict { option, other } => tell_conflict(alloc, option, other, out, err),
        WordsFault::NoMemory => out_of_memory(out),
    }
}

/// Prints clap's line for two options that exclude each other.
fn tell_conflict<O: Sink, E: Sink>(
    alloc: Global,
    option: &str,
    other: &str,
    out: &mut O,
    err: &mut E,
) -> RunOutcome
    ensures { Prints (E.device err.old) (E.device err.new)
        (conflict_line option.now other.now) ExitStatus.Usage result
        × (O.device out.new ≡ O.device out.old)
        ⊎ (LacksMemory (O.device out.old) (O.device out.new)
        result
        × (E.device err.new ≡ E.device err.old)) }
{
    match format!(in alloc; "error: the argument '--{option}' cannot be used with '--{other}'\n") {
        Ok(text) => ExitStatus::Usage.after(print_text(err, text.as_str())),
        Err(_) => out_of_memory(out),
    }
}

/// Prints clap's result: help or the version to `out`, a usage error to `err`.
fn report_error<O: Sink, E: Sink>(
    alloc: Global,
    error: &clap::Error,
    out: &mut O,
    err: &mut E,
) -> RunOutcome
    ensures { ReportsError error.now
        (O.device out.old) (O.device out.new)
        (E.device err.old) (E.device err.new)
        result
        ⊎ (LacksMemory (O.device out.old) (O.device out.new)
        result
        × (err.new ≡ err.old)) }
{
    let Ok(text) = format!(in alloc; "{error}") else {
        return out_of_memory(out);
    };
    if error.use_stderr() {
        ExitStatus::Usage.after(print_text(err, text.as_str()))
    } else {
        ExitStatus::Success.after(print_text(out, text.as_str()))
    }
}
