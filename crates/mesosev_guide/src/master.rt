//! A test master, driven by calls.

use mes_double_master::Master;
use mes_json::{NoMemory, Text};
use mes_model::Id;
use mes_msg::Call;
use std::alloc::Global;
use std::io;
use uuid::Uuid;

/// Two calls: a SUBSCRIBE, which opens a stream, and a REVIVE, which needs one.
pub(crate) const CALLS: [&str; 2] = [
    r#"{"type":"SUBSCRIBE","subscribe":{"framework_info":{"user":"root","name":"n"}}}"#,
    r#"{"type":"REVIVE","framework_id":{"value":"F1"}}"#,
];

/// Tries each call on a new master.
pub(crate) fn drive_master(rt: &HostRuntime, calls: &[&str]) -> io::Result<()> {
    for text in calls {
        report_call(rt, text)?;
    }
    Ok(())
}

/// Prints whether the call of a text opens a stream.
fn report_call(rt: &HostRuntime, text: &str) -> io::Result<()> {
    match Call::read_record(rt.alloc(), text.as_bytes()) {
        Ok(call) => report_stream(rt, &call),
        Err(fault) => println!(rt; "no call: {fault:?}"),
    }
}

/// Prints whether a new test master opens a stream for a call, as it does for a SUBSCRIBE.
fn report_stream(rt: &HostRuntime, call: &Call) -> io::Result<()> {
    match new_master(rt.alloc()) {
        Ok(mut master) => report_opened(rt, opens_a_stream(&mut master, call)),
        Err(NoMemory) => println!(rt; "no memory"),
    }
}

/// Prints whether a stream is open.
fn report_opened(rt: &HostRuntime, opened: Result<bool, NoMemory>) -> io::Result<()> {
    match opened {
        Ok(true) => println!(rt; "a stream is open"),
        Ok(false) => println!(rt; "no stream is open"),
        Err(NoMemory) => println!(rt; "no memory"),
    }
}

/// Returns a test master of the framework `F1`, with an id for one stream.
fn new_master(alloc: Global) -> Result<Master, NoMemory> {
    let mut ids = Vec::new(alloc);
    ids.push(Uuid::from_u128(1))?;
    let value = Text::of(alloc, "F1")?;
    Ok(Master::new(alloc, Id { value }, ids))
}

/// Returns whether a master opens a stream for this call.
fn opens_a_stream(master: &mut Master, call: &Call) -> Result<bool, NoMemory> {
    let answer = master.handle(call, None)?;
    Ok(answer.status.as_u16() == 200 && answer.events.len() == 1 && master.stream().is_some())
}
