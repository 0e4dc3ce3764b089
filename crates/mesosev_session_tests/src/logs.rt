//! The records of a log, and the session to which a log leads.

use crate::support::{
    ACCEPT, ACKNOWLEDGE, OFFERS, ROOM, SUBSCRIBED, UPDATE, expect_error, expect_text,
};
use mes_frame::Limit;
use mesosev_session::{
    TextStop, broken_record, call_record, event_record, header_record, replay_log, stream_record,
};
use std::alloc::Global;
use std::process::Abort;
use std::test::Fail;

/// Appends a record.
fn put(
    rt: &impl Abort,
    log: &mut Vec<u8>,
    record: Result<Vec<u8>, mesosev_session::TextRefusal>,
) -> Result<(), Fail> {
    match record {
        Ok(record) => {
            assert!(rt; log.extend_from_slice(record.as_slice()).is_ok());
            Ok(())
        }
        Err(_) => {
            assert!(rt; false);
            Ok(())
        }
    }
}

#[test]
fn records_have_letters(rt: HostRuntime) -> Result<(), Fail> {
    let alloc = rt.alloc();
    expect_text(&rt, broken_record(alloc, ROOM), b"1\nB")?;
    expect_text(
        &rt,
        event_record(alloc, b" {\"type\" : \"HEARTBEAT\"}", ROOM),
        b"21\nE{\"type\":\"HEARTBEAT\"}",
    )?;
    expect_text(
        &rt,
        stream_record(alloc, b" {\"type\" : \"HEARTBEAT\"}", ROOM),
        b"20\n{\"type\":\"HEARTBEAT\"}",
    )?;
    expect_error(
        &rt,
        event_record(alloc, b"{\"type\":\"HEARTBEAT\"}", 5),
        "room",
    )?;
    expect_error(&rt, event_record(alloc, b"{", ROOM), "fault")?;
    Ok(())
}

#[test]
fn a_log_leads_to_its_session(rt: HostRuntime) -> Result<(), Fail> {
    let alloc = rt.alloc();
    let mut log = Vec::new(alloc);
    record_and_replay(&rt, alloc, &mut log)
}

fn record_and_replay(rt: &impl Abort, alloc: Global, log: &mut Vec<u8>) -> Result<(), Fail> {
    put(rt, log, header_record(alloc, ROOM))?;
    put(rt, log, event_record(alloc, SUBSCRIBED, ROOM))?;
    put(rt, log, event_record(alloc, OFFERS, ROOM))?;
    put(rt, log, call_record(alloc, ACCEPT, ROOM))?;
    put(rt, log, event_record(alloc, UPDATE, ROOM))?;
    put(rt, log, broken_record(alloc, ROOM))?;
    expect_session(rt, alloc, log.as_slice());
    put(rt, log, call_record(alloc, ACKNOWLEDGE, ROOM))?;
    expect_refusal(rt, alloc, log.as_slice());
    Ok(())
}

/// Fails unless the log leads to a session with one unacknowledged update and no offer.
fn expect_session(rt: &impl Abort, alloc: Global, log: &[u8]) {
    match replay_log(alloc, log, Limit::USUAL) {
        Ok(session) => {
            assert_eq!(rt; session.entries(), 5);
            assert_eq!(rt; session.owed_count(), 1);
            assert_eq!(rt; session.offer_count(), 0);
        }
        Err(_) => assert!(rt; false),
    }
}

/// Fails unless the call after five entries is refused.
fn expect_refusal(rt: &impl Abort, alloc: Global, log: &[u8]) {
    match replay_log(alloc, log, Limit::USUAL) {
        Err(TextStop::Refused { before, .. }) => assert_eq!(rt; before, 5),
        _ => assert!(rt; false),
    }
}
