//! How a program uses the libraries: the examples of docs/library/rattle.md, run in turn, each after a
//! line that names it.
#![tactic(auto)]

mod keep;
mod log;
mod master;
mod pieces;

use keep::{TEXTS, keep_session};
use log::replay_log;
use master::{CALLS, drive_master};
use pieces::{BODY, read_pieces};
use std::io;

fn main(rt: HostRuntime) -> io::Result<()> {
    println!(rt; "A body as its pieces come")?;
    read_pieces(&rt, BODY)?;
    println!(rt; "A session")?;
    keep_session(&rt, &TEXTS)?;
    println!(rt; "A session log")?;
    replay_log(&rt)?;
    println!(rt; "A test master")?;
    drive_master(&rt, &CALLS)
}
