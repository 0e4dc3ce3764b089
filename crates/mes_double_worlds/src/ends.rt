//! The printed state of a world.

use mes_double::{Master, World};
use mes_json::NoMemory;
use mes_msg::Event;
use mes_session::Session;
use std::alloc::Global;

/// Returns the state of a world in one line: the master, the session, and the messages between
/// them.
pub(crate) fn end_of(alloc: Global, world: &World) -> Result<String, NoMemory> {
    let mut line = String::new(alloc);
    report_master(&mut line, world.master())?;
    report_session(&mut line, world.session())?;
    report_waiting(&mut line, world.waiting())?;
    let rest = format!(in alloc;
        " | sent {} | skipped {}",
        world.sent().len(),
        world.skipped()
    )?;
    line.push_str(rest.as_str())?;
    Ok(line)
}

fn report_master(line: &mut String, master: &Master) -> Result<(), NoMemory> {
    line.push_str("stream ")?;
    line.push_str(last_of(master))?;
    report_outstanding(line, master)?;
    report_launched(line, master)?;
    report_acked(line, master)
}

/// Returns the last character of the current stream's id, or `-`.
fn last_of(master: &Master) -> &str {
    match master.stream() {
        Some(id) => id.as_str().get(35..36).unwrap_or("?"),
        None => "-",
    }
}

fn report_name(line: &mut String, name: &str) -> Result<(), NoMemory> {
    line.push_str(" ")?;
    line.push_str(name)?;
    Ok(())
}

fn report_outstanding(line: &mut String, master: &Master) -> Result<(), NoMemory> {
    line.push_str(" | outstanding")?;
    for index in 0..master.outstanding_len() {
        if let Some(offer) = master.outstanding_at(index) {
            report_name(line, offer.id.value.as_str())?;
        }
    }
    Ok(())
}

fn report_launched(line: &mut String, master: &Master) -> Result<(), NoMemory> {
    line.push_str(" | launched")?;
    for index in 0..master.launched_len() {
        if let Some(id) = master.launched_at(index) {
            report_name(line, id.value.as_str())?;
        }
    }
    Ok(())
}

/// Appends the tasks of the updates that the master has recorded as acknowledged.
fn report_acked(line: &mut String, master: &Master) -> Result<(), NoMemory> {
    line.push_str(" | acked")?;
    for index in 0..master.acked_len() {
        if let Some(key) = master.acked_at(index) {
            report_name(line, key.task.value.as_str())?;
        }
    }
    Ok(())
}

/// Appends the session's framework or `-`, whether it is connected, the outstanding offers, and the
/// tasks of the unacknowledged updates.
fn report_session(line: &mut String, session: &Session) -> Result<(), NoMemory> {
    line.push_str(" | framework ")?;
    line.push_str(match session.framework() {
        Some(id) => id.value.as_str(),
        None => "-",
    })?;
    line.push_str(if session.connected() { " on" } else { " off" })?;
    report_hand(line, session)?;
    report_owed(line, session)
}

fn report_hand(line: &mut String, session: &Session) -> Result<(), NoMemory> {
    line.push_str(" | hand")?;
    for index in 0..session.hand_len() {
        if let Some(offer) = session.hand_at(index) {
            report_name(line, offer.id.value.as_str())?;
        }
    }
    Ok(())
}

/// Appends the tasks of the updates that the session has not acknowledged.
fn report_owed(line: &mut String, session: &Session) -> Result<(), NoMemory> {
    line.push_str(" | owed")?;
    for index in 0..session.owed_len() {
        if let Some(key) = session.owed_at(index) {
            report_name(line, key.task.value.as_str())?;
        }
    }
    Ok(())
}

/// Appends the types of the queued events.
fn report_waiting(line: &mut String, waiting: &[Event]) -> Result<(), NoMemory> {
    line.push_str(" | waiting")?;
    for event in waiting {
        report_name(line, name_of(event))?;
    }
    Ok(())
}

fn name_of(event: &Event) -> &'static str {
    match event {
        Event::Subscribed(_) => "SUBSCRIBED",
        Event::Offers(_) => "OFFERS",
        Event::Rescind(_) => "RESCIND",
        Event::Update(_) => "UPDATE",
        _ => "?",
    }
}
