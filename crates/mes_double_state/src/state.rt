//! The state of a live test master as one JSON object.
ghost use Rattle.std.specs.Prelude.{◌≡◌, IfOk};
ghost use Rattle.std.specs.Option.{option_copied};
ghost use Rattle.mes_json.specs.View.{view};
ghost use Rattle.mes_model_schema.specs.Written.{pairs_view};
ghost use Rattle.mes_double_state.specs.States.{run_members, state_text, state_tree, text_or_null};

use crate::json::{array_json, push_member, text_json};
use crate::tasks::launched_json;
use mes_double_http::StreamId;
use mes_double_live::Live;
use mes_json::{Json, NoMemory, Text, write_text};
use mes_model_schema::{put, whole_object};
use std::alloc::Global;

/// Returns the state of a live test master: one JSON object in canonical form. Its members:
///
/// - `framework`, and `stream`: the id of the current stream, or `null`;
/// - `time` in milliseconds since the start of the run, and the numbers of `calls`, of `events` that
///   were sent (the test master's own HEARTBEATs not counted) and of planned `faults` that happened;
/// - `suppressed`: whether no offer is made;
/// - `offers`: the stock, each offer with its state, the time `from` which it is free, and the number
///   of `tasks` that use it;
/// - `tasks`: the tasks that are not over; `launched`: the identifiers of all tasks;
/// - `unacknowledged`: the updates that wait for an acknowledgement, with the time when they were
///   `sent` last;
/// - `log`: the last events that were sent and the last calls that were answered, oldest first.
///
/// Errors: `NoMemory` if an allocation fails.
pub fn state_text(alloc: Global, live: &Live) -> Result<Vec<u8>, NoMemory>
    ensures { IfOk result (λ text. text.items ≡ state_text live.now) }
{
    let object = state_json(alloc, live)?;
    let mut text = Vec::new(alloc);
    write_text(&object, &mut text)?;
    Ok(text)
}

/// Returns the JSON object of the state.
fn state_json(alloc: Global, live: &Live) -> Result<Json, NoMemory>
    ensures { IfOk result (λ json. view json ≡ state_tree live.now) }
{
    let offers = array_json(alloc, live.cluster().stocked_offers())?;
    let tasks = array_json(alloc, live.cluster().tasks())?;
    let launched = launched_json(alloc, live.master())?;
    let updates = array_json(alloc, live.sent().as_slice())?;
    let log = array_json(alloc, live.log())?;
    let mut members = run_members(alloc, live)?;
    push_member(&mut members, alloc, "offers", offers)?;
    push_member(&mut members, alloc, "tasks", tasks)?;
    push_member(&mut members, alloc, "launched", launched)?;
    push_member(&mut members, alloc, "unacknowledged", updates)?;
    push_member(&mut members, alloc, "log", log)?;
    Ok(whole_object(members))
}

/// Returns the members from `framework` to `suppressed`.
#[tactic(auto, unfolding(mes_model_schema::specs::Leaves::texts, mes_model_schema::specs::Leaves::booleans, mes_model_schema::specs::Numbers::whole))]
fn run_members(alloc: Global, live: &Live) -> Result<Vec<(Text, Json)>, NoMemory>
    ensures { IfOk result (λ members. pairs_view members.items ≡ run_members live.now) }
{
    let stream = stream_json(alloc, live.stream())?;
    let mut members = Vec::new(alloc);
    put(
        &mut members,
        alloc,
        "framework",
        &live.master().framework().value,
    )?;
    push_member(&mut members, alloc, "stream", stream)?;
    put(&mut members, alloc, "time", &live.time())?;
    put(&mut members, alloc, "calls", &u64::from(live.calls()))?;
    put(&mut members, alloc, "events", &u64::from(live.events()))?;
    put(&mut members, alloc, "faults", &live.faults())?;
    put(
        &mut members,
        alloc,
        "suppressed",
        &live.cluster().is_suppressed(),
    )?;
    Ok(members)
}

/// Returns the JSON string of the id of a stream, or `null`.
#[tactic(auto, using(mes_json::specs::declared::value::Json::the_lemmas))]
fn stream_json(alloc: Global, stream: Option<&StreamId>) -> Result<Json, NoMemory>
    ensures { IfOk result (λ json. view json ≡ text_or_null (option_copied stream.entry)) }
{
    match stream {
        Some(id) => text_json(alloc, id.as_str()),
        None => Ok(Json::Null),
    }
}
