//! The subcommand `master`: a live test master.

ghost use Rattle.std.specs.Prelude.{◌≡◌, ◌*◌, Some, IfOk};
ghost use Rattle.mesosev_live.specs.Desks.{Keeps};
ghost use Rattle.mes_double_faults.specs.Plans.{chunk_size};
ghost use Rattle.mesosev_live.specs.LiveDesks.{KeepsPromises, finish_time, size_by, started};
ghost use Rattle.mesosev_live.specs.Stops.{EndsRun, stop_text};

use crate::desk::Desk;
use crate::input::Input;
use crate::limits::{MAX_STREAMS, MILLIS};
use crate::places::Places;
use crate::printing::{Printer, is_terminal};
use crate::server::{MAX_EVENTS, OUTPUT, Server, ServerStop};
use arrayvec::ArrayString;
use mes_double_faults::FaultPlan;
use mes_double_live::{Live, LiveFault, Settings};
use mes_double_master::Master;
use mes_frame::{Sink, Source};
use mes_json::NoMemory;
use mes_model_schema::fixed::Micros;
use mes_stream::{Fault, MAX_FAULT_LINE, SendFault, fault_line, send_line};
use mesosev_net::{BIND_FAILED, framework_id, stream_ids};
use mesosev_stream::{ChunkSize, ExitStatus, RunOutcome, out_of_memory, print_text};
use mio::net::TcpListener;
use mio::{Events, Poll};
use std::alloc::{AllocGlobal, Global};
use std::fs::Files;
use std::io;
use std::net::{Net, SocketAddr};
use std::time::{Clock, Instant};
use uuid::Uuid;

/// The number of microseconds in a second.
const MICROS: u64 = 1_000_000;

/// The id of the first stream as a number: 00000000-0000-4000-8000-000000000001.
pub(crate) const FIRST_STREAM: u128 = 0x4000_8000_0000_0000_0001;

/// The capacity for the line of the reason for which the run ended early, and its LF, in bytes.
const MAX_STOP_LINE: usize = MAX_FAULT_LINE + 1;

/// The options of the subcommand `master`. Times are in seconds.
#[derive(Clone, Copy, Debug, PartialEq, Eq)]
pub struct MasterOptions {
    /// The TCP port; 0 lets the system choose one.
    pub port: u16,
    /// The time between two HEARTBEATs.
    pub heartbeat: u32,
    /// The time after which an unacknowledged update is sent again; 0: only on a new stream.
    pub resend: u32,
    /// The time for which a task runs; `None`: without an end.
    pub finish_after: Option<u32>,
    /// The time for which the master runs; `None`: without an end.
    pub seconds: Option<u32>,
    /// The largest chunk of a stream, if no fault sets another size.
    pub most: ChunkSize,
    /// Ends the run after a TEARDOWN.
    pub once: bool,
}

/// A run that ended.
#[derive(Drop)]
pub struct EndedRun<D> {
    /// The outcome.
    pub outcome: RunOutcome,
    /// The test master as the run left it.
    pub desk: D,
}

/// Runs a live test master of the framework `F1` on 127.0.0.1. `input` and `out` must be standard
/// input and standard output of the process: the system is asked by their descriptors when they can
/// be read and written without blocking. `plan` has the faults of events and calls.
///
/// Prints the port first, then a line for each request, for each stream opened or ended, and for each
/// fault of the plan that happens. A line
/// that cannot be written without blocking is dropped; later a line has the number of the lines
/// dropped. A fault of the input ends the run with its line and the status `Fault`.
pub fn master<R, I: Source, O: Sink>(
    rt: &R,
    options: &MasterOptions,
    plan: &FaultPlan,
    input: &mut I,
    out: &mut O,
) -> RunOutcome
where
    R: AllocGlobal + Net + Clock + Files,
    // The status is that of a success or a fault, or the output failed.
    ensures { EndsRun result }
{
    match run_live(rt, options, plan, input, out) {
        Ok(run) => run.outcome,
        Err(_) => out_of_memory(out),
    }
}

/// Runs a live test master like [`master`], and returns it as the run left it. Errors: an allocation
/// failed before the run.
pub fn run_live<R, I: Source, O: Sink>(
    rt: &R,
    options: &MasterOptions,
    plan: &FaultPlan,
    input: &mut I,
    out: &mut O,
) -> Result<EndedRun<Live>, NoMemory>
where
    R: AllocGlobal + Net + Clock + Files,
    // Whatever clients, sockets, the input and time do: no task is launched twice, no offer is taken
    // twice, and what a call launches fits the offers that it takes.
    ensures promises { IfOk result (λ run. KeepsPromises options.now.heartbeat run.desk) }
    ensures ends { IfOk result (λ run. EndsRun run.outcome) }
{
    let live = new_live(rt.alloc(), options, plan)?;
    Ok(serve_desk(rt, options, live, input, out))
}

/// Runs any test master like [`master`], and returns it as the run left it. The other options than
/// the port, the time and `once` are the test master's own.
pub fn serve_desk<R, D: Desk, I: Source, O: Sink>(
    rt: &R,
    options: &MasterOptions,
    desk: D,
    input: &mut I,
    out: &mut O,
) -> EndedRun<D>
where
    R: AllocGlobal + Net + Clock + Files,
    // Whatever the sockets, the input and the clock do, the test master changes only by its inputs:
    // what each of them keeps is kept.
    ensures kept { Keeps D.follows desk result.desk }
    ensures ends { EndsRun result.outcome }
{
    let address = SocketAddr::from(([127, 0, 0, 1], options.port));
    let (Ok(listener), Ok(poll)) = (TcpListener::bind(rt, address), Poll::new(rt)) else {
        let outcome = ExitStatus::Fault.after(print_text(out, BIND_FAILED));
        return EndedRun { outcome, desk };
    };
    serve(rt, options, desk, listener, poll, input, out)
}

/// Returns a live test master with these options and faults.
fn new_live(alloc: Global, options: &MasterOptions, plan: &FaultPlan) -> Result<Live, NoMemory>
    // The framework `F1`, the ids of the streams, the interval that SUBSCRIBED announces, the time
    // for which a task runs, the size of the chunks, and the faults. The other settings decide only
    // when something is sent.
    ensures { IfOk result (λ live. live
        ≡ started options.now.heartbeat options.now.finish_after
        (size_by (chunk_size plan.now) options.now.most) plan.now) }
{
    let most = chunk_of(options.most, plan);
    let plan = plan.copy(alloc)?;
    let ids = stream_ids(alloc, Uuid::from_u128(FIRST_STREAM), MAX_STREAMS)?;
    let framework = framework_id(alloc)?;
    let master = Master::with_interval(alloc, framework, ids, interval_of(options.heartbeat));
    let settings = Settings {
        heartbeat: millis_of(options.heartbeat),
        resend: resend_millis(options.resend),
        finish_after: finish_time(options.finish_after),
        most: most.get(),
    };
    Ok(Live::new(alloc, master, &settings, plan))
}

/// Returns the chunk size that a fault sets, if it is one; or else `most`.
fn chunk_of(most: ChunkSize, plan: &FaultPlan) -> ChunkSize
    ensures { result ≡ size_by (chunk_size plan.now) most }
{
    let Some(size) = plan.chunk() else {
        return most;
    };
    match ChunkSize::new(size) {
        Some(size) => size,
        None => most,
    }
}

/// Returns the interval between two HEARTBEATs as SUBSCRIBED announces it.
fn interval_of(seconds: u32) -> Option<Micros>
    ensures { result ≡ Some (seconds * 1000000) }
{
    Micros::of_units(u64::from(seconds).saturating_mul(MICROS))
}

/// Returns the time after which an update is sent again; `None` for 0 seconds.
fn resend_millis(seconds: u32) -> Option<u64> {
    if seconds == 0 {
        None
    } else {
        Some(millis_of(seconds))
    }
}

/// Returns the time for which a task runs in milliseconds; `None`: without an end.
fn finish_time(seconds: Option<u32>) -> Option<u64>
    ensures { result ≡ finish_time seconds }
{
    match seconds {
        Some(seconds) => Some(millis_of(seconds)),
        None => None,
    }
}

fn millis_of(seconds: u32) -> u64
    ensures { result ≡ seconds * 1000 }
{
    u64::from(seconds) * MILLIS
}

/// Serves on a socket.
fn serve<R, D: Desk, I: Source, O: Sink>(
    rt: &R,
    options: &MasterOptions,
    desk: D,
    listener: TcpListener,
    poll: Poll,
    input: &mut I,
    out: &mut O,
) -> EndedRun<D>
where
    R: AllocGlobal + Clock + Files,
    ensures kept { Keeps D.follows desk result.desk }
    ensures ends { EndsRun result.outcome }
{
    let alloc = rt.alloc();
    let (Ok(places), Ok(mut events), Ok(start)) = (
        Places::new(alloc),
        Events::with_capacity(alloc, MAX_EVENTS),
        Instant::now(rt),
    ) else {
        let outcome = out_of_memory(out);
        return EndedRun { outcome, desk };
    };
    let printer = Printer::new(alloc, out, is_terminal(rt), poll.registry(), OUTPUT);
    let mut server = Server {
        alloc,
        desk,
        poll,
        listener,
        places,
        streaming: None,
        may_accept: false,
        input: Input::new(alloc, input),
        printer,
        now: 0,
        is_torn_down: false,
    };
    let outcome = run_to_end(rt, options, start, &mut server, &mut events);
    let desk = server.desk;
    EndedRun { outcome, desk }
}

/// Runs the server, and prints why it ended if it ended early.
fn run_to_end<R, D: Desk, I: Source, O: Sink>(
    rt: &R,
    options: &MasterOptions,
    start: Instant,
    server: &mut Server<'_, D, I, O>,
    events: &mut Events,
) -> RunOutcome
where
    R: Clock,
    ensures kept { Keeps D.follows server.old.desk server.new.desk }
    ensures ends { EndsRun result }
{
    let status = match run(rt, options, start, server, events) {
        Ok(()) => ExitStatus::Success,
        Err(stop) => {
            print_stop(&mut server.printer, &stop);
            ExitStatus::Fault
        }
    };
    server.finish(rt, start, events);
    match server.printer.failure() {
        Some(written) => RunOutcome::OutputFailed(written),
        None => RunOutcome::Status(status),
    }
}

/// Reads an input that is a file, begins to listen, and serves.
fn run<R, D: Desk, I: Source, O: Sink>(
    rt: &R,
    options: &MasterOptions,
    start: Instant,
    server: &mut Server<'_, D, I, O>,
    events: &mut Events,
) -> Result<(), ServerStop>
where
    R: Clock,
    ensures { Keeps D.follows server.old.desk server.new.desk }
{
    server.begin_input()?;
    server.listen()?;
    let until = options.seconds.map(millis_of);
    server.run(rt, start, until, options.once, events)
}

/// Prints the reason for which the run ended early.
fn print_stop<O: Sink>(printer: &mut Printer<'_, O>, stop: &ServerStop) {
    let mut line = ArrayString::new();
    stop_line(stop, &mut line);
    let mut text = ArrayString::<MAX_STOP_LINE>::new();
    text.push_str(line.as_str());
    text.push_str("\n");
    printer.push(text.as_str());
}

/// Replaces `line` with the line of the reason for which the run ended early.
fn stop_line(stop: &ServerStop, line: &mut ArrayString<MAX_FAULT_LINE>)
    ensures { line.new.bytes ≡ stop_text stop.now }
{
    match stop {
        ServerStop::Live(LiveFault::NoMemory) => fault_line(&Fault::NoMemory, 0, line),
        ServerStop::Live(LiveFault::Encode(why)) => {
            send_line(
                &SendFault::Encode {
                    index: 0,
                    why: *why,
                },
                line,
            );
        }
        ServerStop::Input(stop) => fault_line(&stop.fault, stop.used, line),
        ServerStop::Poll => {
            line.clear();
            line.push_str("net accept failed");
        }
    }
}
