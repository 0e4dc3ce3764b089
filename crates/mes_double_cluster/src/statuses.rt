//! The statuses of tasks that are reported, and the time of a refusal.
ghost use Rattle.std.specs.Prelude.{◌≡◌, IfOk, option_copied};
ghost use Rattle.mes_double_cluster.specs.Statuses.{milliseconds, refusal_time, refusal_end, update_uuid, bare_status, task_update, master_status, task_error, task_lost, task_unknown};

use mes_json::{NoMemory, Text};
use mes_model::{Bytes, Filters, Id, TaskInfo, TaskState, TaskStatus};
use mes_model_schema::Part;
use mes_model_schema::fixed::Micros;
use std::alloc::Global;
use uuid::Uuid;

/// The time for which a declined offer is not made again if the call names none, in milliseconds
/// (mesos.proto, `Filters`).
pub const REFUSE_DEFAULT: u64 = 5_000;

/// The number of microseconds in a millisecond.
const MICROS: u64 = 1_000;

/// The UUID of the update with the number 0, as a number: 00000000-0000-4000-a000-000000000000.
const FIRST_UPDATE: u128 = 0x4000_a000_0000_0000_0000;

/// Returns the UUID of the update with this number. Different numbers have different UUIDs.
pub fn update_uuid(update: u64) -> Uuid
    ensures { result ≡ update_uuid update }
{
    Uuid::from_u128(FIRST_UPDATE + u128::from(update))
}

/// Returns the time from which a declined offer may be made again: after `refuse_seconds`, rounded
/// up to milliseconds, or `REFUSE_DEFAULT`. The time saturates.
pub fn refusal_end(now: u64, filters: Option<&Filters>) -> u64
    ensures { result ≡ refusal_end now (option_copied filters.entry) }
{
    now.saturating_add(refusal_time(filters))
}

/// Returns the time for which a declined offer is not made again, in milliseconds.
fn refusal_time(filters: Option<&Filters>) -> u64
    ensures { result ≡ refusal_time (option_copied filters.entry) }
{
    match filters {
        Some(filters) => milliseconds(&filters.refuse_seconds),
        None => REFUSE_DEFAULT,
    }
}

fn milliseconds(time: &Option<Micros>) -> u64
    ensures { result ≡ milliseconds time.now }
{
    match time {
        Some(time) => time.units().div_ceil(MICROS),
        None => REFUSE_DEFAULT,
    }
}

/// Returns the status of a task in the update with the number `update`, which has a uuid.
pub(crate) fn task_update(
    alloc: Global,
    task: &Id,
    agent: &Id,
    state: TaskState,
    update: u64,
) -> Result<TaskStatus, NoMemory>
    ensures { IfOk result (λ status. status ≡ task_update task.now agent.now state update) }
{
    let mut status = bare_status(alloc, task, state)?;
    status.source = Some(Text::of(alloc, "SOURCE_EXECUTOR")?);
    status.agent_id = Some(agent.copy(alloc)?);
    status.uuid = Some(uuid_bytes(alloc, update)?);
    Ok(status)
}

fn uuid_bytes(alloc: Global, update: u64) -> Result<Bytes, NoMemory>
    ensures { IfOk result (λ bytes. bytes ≡ update_uuid update) }
{
    let mut bytes = Vec::new(alloc);
    bytes.extend_from_slice(update_uuid(update).as_bytes())?;
    Ok(Bytes::new(bytes))
}

/// Returns the status TASK_ERROR of a task that is not launched, without a uuid. The message says
/// why.
pub fn task_error(alloc: Global, task: &TaskInfo, message: Text) -> Result<TaskStatus, NoMemory>
    ensures { IfOk result (λ status. status ≡ task_error task.now message) }
{
    let mut status = master_status(
        alloc,
        &task.task_id,
        TaskState::Error,
        "REASON_TASK_INVALID",
    )?;
    status.agent_id = Some(task.agent_id.copy(alloc)?);
    status.message = Some(message);
    Ok(status)
}

/// Returns the status TASK_LOST of a task whose offers cannot be accepted, without a uuid. The
/// message says why.
pub fn task_lost(alloc: Global, task: &TaskInfo, message: &str) -> Result<TaskStatus, NoMemory>
    ensures { IfOk result (λ status. status ≡ task_lost task.now message.now) }
{
    let mut status = master_status(
        alloc,
        &task.task_id,
        TaskState::Lost,
        "REASON_INVALID_OFFERS",
    )?;
    status.agent_id = Some(task.agent_id.copy(alloc)?);
    status.message = Some(Text::of(alloc, message)?);
    Ok(status)
}

/// Returns the status TASK_LOST of a task that the master does not know, without a uuid.
pub fn task_unknown(alloc: Global, task: &Id, agent: Option<&Id>) -> Result<TaskStatus, NoMemory>
    ensures { IfOk result (λ status. status ≡ task_unknown task.now (option_copied agent.entry)) }
{
    let mut status = master_status(alloc, task, TaskState::Lost, "REASON_RECONCILIATION")?;
    if let Some(agent) = agent {
        status.agent_id = Some(agent.copy(alloc)?);
    }
    status.message = Some(Text::of(alloc, "The task is unknown")?);
    Ok(status)
}

/// Returns a status that the master itself reports.
fn master_status(
    alloc: Global,
    task: &Id,
    state: TaskState,
    reason: &str,
) -> Result<TaskStatus, NoMemory>
    ensures { IfOk result (λ status. status ≡ master_status task.now state reason.now) }
{
    let mut status = bare_status(alloc, task, state)?;
    status.source = Some(Text::of(alloc, "SOURCE_MASTER")?);
    status.reason = Some(Text::of(alloc, reason)?);
    Ok(status)
}

/// Returns a status with only these members.
fn bare_status(alloc: Global, task: &Id, state: TaskState) -> Result<TaskStatus, NoMemory>
    ensures { IfOk result (λ status. status ≡ bare_status task.now state) }
{
    Ok(TaskStatus {
        task_id: task.copy(alloc)?,
        state,
        message: None,
        source: None,
        reason: None,
        payload: None,
        agent_id: None,
        executor_id: None,
        timestamp: None,
        uuid: None,
        healthy: None,
        labels: None,
        unreachable_time: None,
    })
}
