//! Functions that make the events that a master sends.
ghost use Rattle.std.specs.Prelude.{◌≡◌, ◌++◌, [], ◌∷◌, map, filter_map, option_copied, IfOk, OnOk};
ghost use Rattle.std.specs.Map.{values_of, lookup};
ghost use Rattle.mes_model.specs.TaskRef.{TaskRef as Named};
ghost use Rattle.mes_double_master_state.specs.Ids.{same_id};
ghost use Rattle.mes_double_master_state.specs.Events.{usual_interval, subscribed_event, update_event, reconciled_event, last_of, asked_for};

use indexmap::IndexMap;
use mes_model::{Id, Offer, TaskRef, TaskStatus};
use mes_model_schema::fixed::Micros;
use mes_model_schema::json::{NoMemory, Text};
use mes_model_schema::{Boxed, List, Part};
use mes_msg::{Event, Subscribed, Update};
use std::alloc::Global;

/// The usual heartbeat interval that a master announces, in microseconds: 15 seconds.
const INTERVAL: u64 = 15_000_000;

/// Returns the event SUBSCRIBED for a framework, with the usual heartbeat interval.
pub fn subscribed(alloc: Global, framework: &Id) -> Result<Event, NoMemory>
    ensures { IfOk result (λ event. event ≡ subscribed_event framework.now usual_interval) }
{
    subscribed_every(alloc, framework, usual_interval())
}

/// Returns the heartbeat interval that a master announces if it is given none: 15 seconds.
pub fn usual_interval() -> Option<Micros>
    ensures { result ≡ usual_interval }
{
    Micros::of_units(INTERVAL)
}

/// Returns the event SUBSCRIBED for a framework, with this heartbeat interval. `None` announces
/// none.
pub fn subscribed_every(
    alloc: Global,
    framework: &Id,
    interval: Option<Micros>,
) -> Result<Event, NoMemory>
    ensures { IfOk result (λ event. event ≡ subscribed_event framework.now interval) }
{
    Ok(Event::Subscribed(Subscribed {
        framework_id: framework.copy(alloc)?,
        heartbeat_interval_seconds: interval,
    }))
}

/// Returns the event OFFERS with these offers.
pub fn offers(alloc: Global, offers: &[Offer]) -> Result<Event, NoMemory>
    ensures { IfOk result (λ event. event ≡ Event.Offers offers.now) }
{
    let mut copies = Vec::new(alloc);
    for offer in offers {
        copies.push(offer.copy(alloc)?)?;
    }
    Ok(Event::Offers(List::new(copies)))
}

/// Returns the event UPDATE with this status.
pub fn update(alloc: Global, status: &TaskStatus) -> Result<Event, NoMemory>
    ensures { IfOk result (λ event. event ≡ update_event status.now) }
{
    let status = Boxed::new(alloc, status.copy(alloc)?)?;
    Ok(Event::Update(Update { status }))
}

/// Returns the UPDATE of a status that a master sends for a RECONCILE: without a UUID.
fn reconciled(alloc: Global, status: &TaskStatus) -> Result<Event, NoMemory>
    ensures { IfOk result (λ event. event ≡ reconciled_event status.now) }
{
    let mut status = status.copy(alloc)?;
    status.reason = Some(Text::of(alloc, "REASON_RECONCILIATION")?);
    status.uuid = None;
    let status = Boxed::new(alloc, status)?;
    Ok(Event::Update(Update { status }))
}

/// Returns the UPDATEs for a RECONCILE that names no task: one of the last status of each task.
fn reconciled_all(alloc: Global, latest: &IndexMap<Id, TaskStatus>) -> Result<Vec<Event>, NoMemory>
    ensures { IfOk result (λ events. events.items
        ≡ map reconciled_event (values_of latest.now.entries)) }
{
    let mut events = Vec::new(alloc);
    for index in 0..latest.len() {
        let Some((_, status)) = latest.get_index(index) else {
            continue;
        };
        events.push(reconciled(alloc, status)?)?;
    }
    Ok(events)
}

/// Appends the UPDATE for a RECONCILE of the last status of a task, if the task has a status.
fn push_reconciled(
    alloc: Global,
    events: &mut Vec<Event>,
    latest: &IndexMap<Id, TaskStatus>,
    task: &TaskRef,
) -> Result<(), NoMemory>
    ensures { OnOk result (events.new.items
        ≡ events.old.items ++ map reconciled_event
        (filter_map (last_of latest.now.entries) (task.now ∷ []))) }
{
    let Some(status) = latest.get(&task.task_id) else {
        return Ok(());
    };
    events.push(reconciled(alloc, status)?)?;
    Ok(())
}

/// Returns the UPDATEs for a RECONCILE that names tasks: one of the last status of each of these
/// tasks that has a status.
fn reconciled_of(
    alloc: Global,
    latest: &IndexMap<Id, TaskStatus>,
    tasks: &[TaskRef],
) -> Result<Vec<Event>, NoMemory>
    ensures { IfOk result (λ events. events.items
        ≡ map reconciled_event (filter_map (last_of latest.now.entries) tasks.now)) }
{
    let mut events = Vec::new(alloc);
    for task in tasks {
        push_reconciled(alloc, &mut events, latest, task)?;
    }
    Ok(events)
}

/// Returns the UPDATEs for a RECONCILE of these tasks, or of all tasks if none is named.
pub fn reconcile(
    alloc: Global,
    latest: &IndexMap<Id, TaskStatus>,
    tasks: &[TaskRef],
) -> Result<Vec<Event>, NoMemory>
    // On success: an UPDATE without a UUID for the last status of each task that the RECONCILE asks
    // for.
    ensures { IfOk result (λ events. events.items
        ≡ map reconciled_event (asked_for latest.now.entries tasks.now)) }
{
    if tasks.is_empty() {
        reconciled_all(alloc, latest)
    } else {
        reconciled_of(alloc, latest, tasks)
    }
}
