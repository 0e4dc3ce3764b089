//! The updates that a master has sent: the last status of each task, and the acknowledgements.
ghost use Rattle.std.specs.Prelude.{◌≡◌, ◌<◌, ◌++◌, [], ◌∷◌, false, None, not, filter, slice_get, option_map, option_copied, IfOk, OnOk, OnErr};
ghost use Rattle.std.specs.Map.{lookup};
ghost use Rattle.indexmap.specs.IndexMap.{spare, insert_entry};
ghost use Rattle.mes_session_state.specs.Held.{same_key};
ghost use Rattle.mes_double_master_state.specs.Ids.{same_id};
ghost use Rattle.mes_double_master_state.specs.Updates.{has_update, key_in, waiting};

use indexmap::IndexMap;
use mes_model::{Id, OwedKey, TaskStatus};
use mes_model_schema::Part;
use mes_model_schema::json::NoMemory;
use mes_msg::Acknowledge;
use mes_session_state::UpdateKeys;
use std::alloc::Global;

/// Returns the key of the update that an ACKNOWLEDGE names: agent, task and UUID.
pub fn key_in(alloc: Global, body: &Acknowledge) -> Result<OwedKey, NoMemory>
    ensures { IfOk result (λ key. key ≡ key_in body.now) }
{
    Ok(OwedKey {
        agent: body.agent_id.copy(alloc)?,
        task: body.task_id.copy(alloc)?,
        uuid: body.uuid.copy(alloc)?,
    })
}

/// Returns whether an update with the key was sent, acknowledged or not.
pub fn has_update(owing: &IndexMap<OwedKey, TaskStatus>, key: &OwedKey) -> bool
    ensures { result ≡ has_update owing.now.entries key.now }
{
    owing.contains_key(key)
}

/// Records the status as the last status of its task. Errors: `NoMemory` if an allocation fails;
/// nothing is then changed.
pub fn note(
    alloc: Global,
    latest: &mut IndexMap<Id, TaskStatus>,
    status: &TaskStatus,
) -> Result<(), NoMemory>
    // On success: the status replaces the last status of its task, or is appended if the task has
    // none.
    ensures ok { OnOk result (latest.new.entries
        ≡ insert_entry same_id latest.old.entries status.now.task_id status.now) }
    ensures err { OnErr result (latest.new.entries ≡ latest.old.entries) }
{
    let task = status.task_id.copy(alloc)?;
    let copied = status.copy(alloc)?;
    latest.reserve(1)?;
    put_last(latest, task, copied);
    Ok(())
}

/// Replaces the last status of a task, or appends the task and its status within the spare
/// capacity.
fn put_last(latest: &mut IndexMap<Id, TaskStatus>, task: Id, status: TaskStatus)
    requires { 0 < spare latest.old }
    ensures { latest.new.entries ≡ insert_entry same_id latest.old.entries task status }
{
    latest.insert(task, status).unwrap();
}

fn reserve_one(owing: &mut IndexMap<OwedKey, TaskStatus>) -> Result<(), NoMemory>
    ensures same { owing.new.entries ≡ owing.old.entries }
    ensures room { OnOk result (0 < spare owing.new) }
{
    owing.reserve(1)?;
    Ok(())
}

fn put_entry(owing: &mut IndexMap<OwedKey, TaskStatus>, key: OwedKey, status: TaskStatus)
    requires { 0 < spare owing.old }
    ensures { owing.new.entries ≡ insert_entry same_key owing.old.entries key status }
{
    owing.insert(key, status).unwrap();
}

/// Appends an update with a new key within the spare capacity.
fn push_update(owing: &mut IndexMap<OwedKey, TaskStatus>, key: OwedKey, status: TaskStatus)
    requires room { 0 < spare owing.old }
    requires other { has_update owing.old.entries key ≡ false }
    ensures { owing.new.entries ≡ owing.old.entries ++ (key, status) ∷ [] }
{
    put_entry(owing, key, status);
}

/// Records the status as the last status of its task, and as an update that requires an
/// acknowledgement. The key of the update must be new. Errors: `NoMemory` if an allocation fails;
/// nothing is then changed.
pub fn record_update(
    alloc: Global,
    latest: &mut IndexMap<Id, TaskStatus>,
    owing: &mut IndexMap<OwedKey, TaskStatus>,
    key: OwedKey,
    status: &TaskStatus,
) -> Result<(), NoMemory>
    requires { has_update owing.old.entries key ≡ false }
    // On success: the status replaces the last status of its task, or is appended if the task has
    // none.
    ensures latest { OnOk result (latest.new.entries
        ≡ insert_entry same_id latest.old.entries status.now.task_id status.now) }
    ensures owing { OnOk result (owing.new.entries ≡ owing.old.entries ++ (key, status.now) ∷ []) }
    // Each error: nothing is changed.
    ensures err { OnErr result ((latest.new.entries ≡ latest.old.entries)
        × (owing.new.entries ≡ owing.old.entries)) }
{
    let copied = status.copy(alloc)?;
    reserve_one(owing)?;
    note(alloc, latest, status)?;
    push_update(owing, key, copied);
    Ok(())
}

/// Returns the update at an index in the list of unacknowledged updates.
pub fn pending_at<'a>(
    owing: &'a IndexMap<OwedKey, TaskStatus>,
    acked: &UpdateKeys,
    index: usize,
) -> Option<&'a TaskStatus>
    // The result is the update at the index in the list of the updates whose keys are not in
    // `acked`.
    ensures { option_copied result ≡ option_map (λ e. e.1)
        (slice_get (waiting owing.now.entries acked.now) index) }
{
    let mut before = index;
    for at in 0..owing.len() {
        let Some((key, status)) = owing.get_index(at) else {
            return None;
        };
        if acked.contains(key) {
            continue;
        }
        if before == 0 {
            return Some(status);
        }
        before -= 1;
    }
    None
}
