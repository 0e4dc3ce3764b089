//! The program `mesosev`: decodes, prints and encodes event streams of the Apache Mesos v1
//! scheduler API. `run.rt` runs the command over any devices, `exit_status.rt` has the numbers of
//! the exit status, and the crates `mesosev_*` have the subcommands.
#![tactic(auto)]

mod exit_status;
mod run;

use exit_status::exit_code;
use mes_frame::FromStd;
use mesosev_stream::{ExitStatus, Output};
use run::{end_without_memory, end_without_text, run};
use std::env;
use std::fs::File;
use std::io::{BufReader, ErrorKind};
use std::process::ExitCode;

/// The size of the input buffer, in bytes.
const READ_AHEAD: usize = 16_384;

fn main(rt: HostRuntime) -> ExitCode {
    exit_code(run_process(&rt))
}

/// Runs the command with the arguments and the standard streams of the process.
fn run_process(rt: &HostRuntime) -> ExitStatus {
    let _places = [take_place(rt), take_place(rt), take_place(rt)];
    let mut out = Output::new(FromStd::new(rt.stdout()));
    let mut err = FromStd::new(rt.stderr());
    let words = match env::args(rt) {
        Ok(args) => args.collect::<Vec<String>>(rt.alloc()),
        Err(error) => {
            return if error.kind() == ErrorKind::OutOfMemory {
                end_without_memory(&mut out, &mut err)
            } else {
                end_without_text(&mut err)
            };
        }
    };
    let Ok(words) = words else {
        return end_without_memory(&mut out, &mut err);
    };
    let Ok(input) = BufReader::with_capacity(rt.alloc(), READ_AHEAD, rt.stdin()) else {
        return end_without_memory(&mut out, &mut err);
    };
    let mut input = FromStd::new(input);
    run(rt, words.as_slice(), &mut input, &mut out, &mut err)
}

/// Opens `/`: if a standard stream is closed, the directory gets the number of the stream's file
/// descriptor. Otherwise a socket could get that number, and output would go to the socket's peer.
/// A directory can be neither read nor written, so that the standard stream still fails.
fn take_place(rt: &HostRuntime) -> Option<File> {
    File::open(rt, "/").ok()
}
