//! A live test master of the framework F1, and inputs for it.

use mes_double_faults::FaultPlan;
use mes_double_live::{Live, Settings};
use mes_double_master::Master;
use mes_double_state::state_text;
use mes_json::Text;
use mes_model::Id;
use mes_msg::{Call, Event};
use std::alloc::Global;
use std::process::Abort;
use std::test::Fail;
use uuid::Uuid;

/// The settings: a HEARTBEAT each 15 seconds, and tasks without an end.
const SETTINGS: Settings = Settings {
    heartbeat: 15_000,
    resend: None,
    finish_after: None,
    most: 4096,
};

/// Returns a live test master with one stream id, the UUID 1, and without faults.
pub(crate) fn new_live(alloc: Global) -> Result<Live, Fail> {
    let mut ids = Vec::new(alloc);
    ids.push(Uuid::from_u128(1))?;
    let framework = Id {
        value: Text::of(alloc, "F1")?,
    };
    let master = Master::new(alloc, framework, ids);
    Ok(Live::new(alloc, master, &SETTINGS, FaultPlan::none(alloc)))
}

/// Gives the live test master an event from outside.
pub(crate) fn tell(alloc: Global, live: &mut Live, text: &str) -> Result<(), Fail> {
    match Event::read_record(alloc, text.as_bytes()) {
        Ok(event) => told(live, event),
        Err(_) => Err("an event")?,
    }
}

fn told(live: &mut Live, event: Event) -> Result<(), Fail> {
    match live.told(event) {
        Ok(()) => Ok(()),
        Err(_) => Err("the event is taken")?,
    }
}

/// Gives the live test master a call that names the current stream.
pub(crate) fn call(alloc: Global, live: &mut Live, text: &str) -> Result<(), Fail> {
    match Call::read_record(alloc, text.as_bytes()) {
        Ok(call) => called(live, &call),
        Err(_) => Err("a call")?,
    }
}

fn called(live: &mut Live, call: &Call) -> Result<(), Fail> {
    let stream = match live.stream() {
        Some(id) => Some(id.copy()),
        None => None,
    };
    match live.call(stream.as_ref(), call) {
        Ok(_) => Ok(()),
        Err(_) => Err("the call is handled")?,
    }
}

/// Gives the live test master the time.
pub(crate) fn pass(live: &mut Live, now: u64) -> Result<(), Fail> {
    match live.passed(now) {
        Ok(()) => Ok(()),
        Err(_) => Err("the time is noted")?,
    }
}

/// Asserts that the text of the state is this one.
pub(crate) fn expect_state(
    rt: &impl Abort,
    alloc: Global,
    live: &Live,
    expected: &str,
) -> Result<(), Fail> {
    let text = state_text(alloc, live)?;
    let text = str::from_utf8(text.as_slice())?;
    assert_eq!(rt; text, expected);
    Ok(())
}
