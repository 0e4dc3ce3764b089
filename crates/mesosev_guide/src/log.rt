//! A session log, read and replayed.

use mes_frame::{FromStd, Limit};
use mes_session::{Session, read_log, replay};
use std::io;

/// The most reads of a log.
const READS: u64 = 1_000_000;

/// Reads and replays a session log, and prints the outcome.
pub(crate) fn replay_log(rt: &HostRuntime) -> io::Result<()> {
    let mut input = FromStd::new(rt.stdin());
    let mut entries = Vec::new(rt.alloc());
    match read_log(rt.alloc(), &mut input, Limit::USUAL, READS, &mut entries) {
        Ok(_report) => match replay(rt.alloc(), entries.as_slice()) {
            Ok(session) => report_end(rt, entries.len(), &session),
            Err((before, refusal)) => println!(rt; "refused after {before}: {refusal:?}"),
        },
        Err(stop) => println!(rt; "fault {} after {}", stop.fault.title(), stop.used),
    }
}

/// Prints the number of entries, and the state of the session after them.
fn report_end(rt: &HostRuntime, entries: usize, session: &Session) -> io::Result<()> {
    let (offers, updates) = (session.hand_len(), session.owed_len());
    println!(rt; "{entries} entries")?;
    println!(rt; "{offers} offers outstanding, {updates} updates unacknowledged")
}
