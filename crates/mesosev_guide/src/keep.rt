//! A session, maintained by the events that are received and the calls that are made.

use mes_frame::Limit;
use mes_model::Part;
use mes_msg::{Call, Event, RecordFault};
use mes_session::{Refusal, Session};
use std::alloc::Global;
use std::io;

/// What a master sends: a SUBSCRIBED, the OFFERS of two agents, an UPDATE that requires an
/// acknowledgement, and a text that is cut off.
pub(crate) const TEXTS: [&str; 4] = [
    r#"{"type":"SUBSCRIBED","subscribed":{"framework_id":{"value":"F1"},"heartbeat_interval_seconds":15.0}}"#,
    r#"{"type":"OFFERS","offers":{"offers":[{"id":{"value":"O1"},"framework_id":{"value":"F1"},"agent_id":{"value":"A1"},"hostname":"h"},{"id":{"value":"O2"},"framework_id":{"value":"F1"},"agent_id":{"value":"A2"},"hostname":"g"}]}}"#,
    r#"{"type":"UPDATE","update":{"status":{"task_id":{"value":"T1"},"state":"TASK_RUNNING","agent_id":{"value":"A1"},"uuid":"AAECAwQFBgcICQoLDA0ODw=="}}}"#,
    r#"{"type":"HEARTBEAT""#,
];

/// Applies what a master sent to a new session, and accepts an offer.
pub(crate) fn keep_session(rt: &HostRuntime, texts: &[&str]) -> io::Result<()> {
    let mut session = Session::new(rt.alloc());
    for text in texts {
        report_received(rt, &mut session, text)?;
    }
    report_accepted(rt, &mut session)?;
    report_session(rt, &session)
}

/// Applies a text to the session, and prints the state of the session.
fn report_received(rt: &HostRuntime, session: &mut Session, text: &str) -> io::Result<()> {
    match receive(rt.alloc(), session, text.as_bytes()) {
        Ok(true) => report_session(rt, session),
        Ok(false) => println!(rt; "no event: {text}"),
        Err(refusal) => println!(rt; "an event is lost: {refusal:?}"),
    }
}

/// Accepts an offer, and prints the call.
fn report_accepted(rt: &HostRuntime, session: &mut Session) -> io::Result<()> {
    match accept_first(rt.alloc(), session) {
        Ok(Some(call)) => report_call(rt, &call),
        Ok(None) => println!(rt; "no offer is outstanding"),
        Err(refusal) => println!(rt; "no offer is accepted: {refusal:?}"),
    }
}

/// Applies an event to the session. Returns whether the text is an event; no event is lost
/// silently.
fn receive(alloc: Global, session: &mut Session, text: &[u8]) -> Result<bool, Refusal> {
    match Event::read_record(alloc, text) {
        Ok(event) => {
            session.heard(&event)?;
            Ok(true)
        }
        Err(RecordFault::NoMemory) => Err(Refusal::NoMemory),
        Err(_fault) => Ok(false),
    }
}

/// Accepts the first outstanding offer without a task. Returns `None` if there is none.
fn accept_first(alloc: Global, session: &mut Session) -> Result<Option<Call>, Refusal> {
    let Some(offer) = session.hand_at(0) else {
        return Ok(None);
    };
    let id = offer.id.copy(alloc)?;
    Ok(Some(session.accept(&[id], &[], None)?))
}

/// Prints the number of outstanding offers and of unacknowledged updates.
fn report_session(rt: &HostRuntime, session: &Session) -> io::Result<()> {
    let (offers, updates) = (session.hand_len(), session.owed_len());
    println!(rt; "{offers} offers outstanding, {updates} updates unacknowledged")
}

/// Prints the canonical text of a call, which is what is sent to the master.
fn report_call(rt: &HostRuntime, call: &Call) -> io::Result<()> {
    match call.canon(rt.alloc(), Limit::USUAL) {
        Ok(bytes) => println!(rt; "{}", str::from_utf8(bytes.as_slice()).unwrap_or("?")),
        Err(fault) => println!(rt; "the call has no text: {fault:?}"),
    }
}
