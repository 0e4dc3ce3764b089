//! The names of the types of calls and events.
ghost use Rattle.std.specs.Prelude.{◌≡◌, ◌≤◌, length};
ghost use Rattle.mes_double_master.specs.Names.{call_name, event_name};

use mes_msg::{Call, Event};

/// Returns the name of the call's type (scheduler.proto, `Call.Type`).
pub fn call_name(call: &Call) -> &'static str
    ensures name { result.now ≡ call_name call.now }
    ensures bound { length result.now ≤ 11 }
{
    match call {
        Call::Subscribe { .. } => "SUBSCRIBE",
        Call::Accept { .. } => "ACCEPT",
        Call::Decline { .. } => "DECLINE",
        Call::Revive { .. } => "REVIVE",
        Call::Kill { .. } => "KILL",
        Call::Acknowledge { .. } => "ACKNOWLEDGE",
        Call::Reconcile { .. } => "RECONCILE",
        Call::Teardown { .. } => "TEARDOWN",
        Call::Suppress { .. } => "SUPPRESS",
        Call::Shutdown { .. } => "SHUTDOWN",
        Call::Message { .. } => "MESSAGE",
    }
}

/// Returns the name of the event's type (scheduler.proto, `Event.Type`).
pub fn event_name(event: &Event) -> &str
    ensures { result.now ≡ event_name event.now }
{
    match event {
        Event::Subscribed(_) => "SUBSCRIBED",
        Event::Offers(_) => "OFFERS",
        Event::Rescind(_) => "RESCIND",
        Event::Update(_) => "UPDATE",
        Event::Message(_) => "MESSAGE",
        Event::Failure(_) => "FAILURE",
        Event::Error(_) => "ERROR",
        Event::Heartbeat => "HEARTBEAT",
        Event::Other(name) => name.as_str(),
    }
}
