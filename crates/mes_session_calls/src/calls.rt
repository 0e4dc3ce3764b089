//! Functions that build the calls of scheduler.proto from copies of the arguments. Their only error
//! is `NoMemory`, if an allocation fails.
ghost use Rattle.std.specs.Prelude.{◌≡◌, option_copied, IfOk};
ghost use Rattle.std.specs.Option.{option_or};
ghost use Rattle.mes_session_state.specs.Calls.{operations_of, accept_call, decline_call, acknowledge_call};
ghost use Rattle.mes_session_calls.specs.Made.{subscribe_call, kill_call, reconcile_call, shutdown_call, message_call};

use crate::copies::{copies_of, maybe};
use mes_model::{Filters, FrameworkInfo, Id, OwedKey, TaskInfo, TaskRef};
use mes_model_schema::json::NoMemory;
use mes_model_schema::{Bytes, List, Part};
use mes_msg::{
    Accept, Acknowledge, Call, Decline, Kill, Message, Operation, Reconcile, Shutdown, Subscribe,
};
use std::alloc::Global;

/// Returns one LAUNCH of the tasks, or no operation if there are no tasks.
fn operations(alloc: Global, tasks: &[TaskInfo]) -> Result<List<Operation>, NoMemory>
    ensures { IfOk result (λ operations. operations ≡ operations_of tasks.now) }
{
    let mut operations = Vec::new(alloc);
    if !tasks.is_empty() {
        let task_infos = copies_of(alloc, tasks)?;
        operations.push(Operation::Launch { task_infos })?;
    }
    Ok(List::new(operations))
}

/// Returns the framework that a SUBSCRIBE names: the known one, or else the id in `info`.
fn named(alloc: Global, known: Option<&Id>, info: &FrameworkInfo) -> Result<Option<Id>, NoMemory>
    ensures { IfOk result (λ named. named ≡ option_or (option_copied known.entry) info.now.id) }
{
    match known {
        Some(known) => Ok(Some(known.copy(alloc)?)),
        None => maybe(alloc, info.id.as_ref()),
    }
}

/// Returns the SUBSCRIBE of a framework. The call and its `FrameworkInfo` name the known framework;
/// if none is known, they name the id in `info`.
pub fn make_subscribe(
    alloc: Global,
    known: Option<&Id>,
    info: &FrameworkInfo,
) -> Result<Call, NoMemory>
    ensures { IfOk result (λ call. call ≡ subscribe_call (option_copied known.entry) info.now) }
{
    let mut framework_info = info.copy(alloc)?;
    framework_info.id = named(alloc, known, info)?;
    let framework_id = named(alloc, known, info)?;
    Ok(Call::Subscribe {
        framework_id,
        body: Subscribe { framework_info },
    })
}

/// Returns an ACCEPT with one LAUNCH of `tasks`, or with no operation if `tasks` is empty.
pub fn make_accept(
    alloc: Global,
    framework: &Id,
    ids: &[Id],
    tasks: &[TaskInfo],
    filters: Option<&Filters>,
) -> Result<Call, NoMemory>
    // On success the result is the ACCEPT of these arguments.
    ensures { IfOk result (λ call. call
        ≡ accept_call framework.now ids.now tasks.now (option_copied filters.entry)) }
{
    let framework_id = framework.copy(alloc)?;
    let offer_ids = copies_of(alloc, ids)?;
    let operations = operations(alloc, tasks)?;
    let filters = maybe(alloc, filters)?;
    Ok(Call::Accept {
        framework_id,
        body: Accept {
            offer_ids,
            operations,
            filters,
        },
    })
}

/// Returns the DECLINE of the offers `ids`.
pub fn make_decline(
    alloc: Global,
    framework: &Id,
    ids: &[Id],
    filters: Option<&Filters>,
) -> Result<Call, NoMemory>
    // On success the result is the DECLINE of these arguments.
    ensures { IfOk result (λ call. call
        ≡ decline_call framework.now ids.now (option_copied filters.entry)) }
{
    let framework_id = framework.copy(alloc)?;
    let offer_ids = copies_of(alloc, ids)?;
    let filters = maybe(alloc, filters)?;
    Ok(Call::Decline {
        framework_id,
        body: Decline { offer_ids, filters },
    })
}

/// Returns the REVIVE of a framework.
pub fn make_revive(alloc: Global, framework: &Id) -> Result<Call, NoMemory>
    ensures { IfOk result (λ call. call ≡ Call.Revive framework.now) }
{
    let framework_id = framework.copy(alloc)?;
    Ok(Call::Revive { framework_id })
}

/// Returns the KILL of a task, with its agent if given.
pub fn make_kill(
    alloc: Global,
    framework: &Id,
    task: &Id,
    agent: Option<&Id>,
) -> Result<Call, NoMemory>
    // On success the result is the KILL of these arguments.
    ensures { IfOk result (λ call. call
        ≡ kill_call framework.now task.now (option_copied agent.entry)) }
{
    let framework_id = framework.copy(alloc)?;
    let task_id = task.copy(alloc)?;
    let agent_id = maybe(alloc, agent)?;
    Ok(Call::Kill {
        framework_id,
        body: Kill { task_id, agent_id },
    })
}

/// Returns the ACKNOWLEDGE of an update with this key.
pub fn make_acknowledge(alloc: Global, framework: &Id, key: &OwedKey) -> Result<Call, NoMemory>
    ensures { IfOk result (λ call. call ≡ acknowledge_call framework.now key.now) }
{
    let framework_id = framework.copy(alloc)?;
    let agent_id = key.agent.copy(alloc)?;
    let task_id = key.task.copy(alloc)?;
    let uuid = key.uuid.copy(alloc)?;
    Ok(Call::Acknowledge {
        framework_id,
        body: Acknowledge {
            agent_id,
            task_id,
            uuid,
        },
    })
}

/// Returns the RECONCILE of `tasks`, or of all tasks if `tasks` is empty.
pub fn make_reconcile(alloc: Global, framework: &Id, tasks: &[TaskRef]) -> Result<Call, NoMemory>
    ensures { IfOk result (λ call. call ≡ reconcile_call framework.now tasks.now) }
{
    let framework_id = framework.copy(alloc)?;
    let tasks = copies_of(alloc, tasks)?;
    Ok(Call::Reconcile {
        framework_id,
        body: Reconcile { tasks },
    })
}

/// Returns the TEARDOWN of a framework.
pub fn make_teardown(alloc: Global, framework: &Id) -> Result<Call, NoMemory>
    ensures { IfOk result (λ call. call ≡ Call.Teardown framework.now) }
{
    let framework_id = framework.copy(alloc)?;
    Ok(Call::Teardown { framework_id })
}

/// Returns the SUPPRESS of a framework.
pub fn make_suppress(alloc: Global, framework: &Id) -> Result<Call, NoMemory>
    ensures { IfOk result (λ call. call ≡ Call.Suppress framework.now) }
{
    let framework_id = framework.copy(alloc)?;
    Ok(Call::Suppress { framework_id })
}

/// Returns the SHUTDOWN of an executor on an agent.
pub fn make_shutdown(
    alloc: Global,
    framework: &Id,
    executor: &Id,
    agent: &Id,
) -> Result<Call, NoMemory>
    ensures { IfOk result (λ call. call ≡ shutdown_call framework.now executor.now agent.now) }
{
    let framework_id = framework.copy(alloc)?;
    let executor_id = executor.copy(alloc)?;
    let agent_id = agent.copy(alloc)?;
    Ok(Call::Shutdown {
        framework_id,
        body: Shutdown {
            executor_id,
            agent_id,
        },
    })
}

/// Returns the MESSAGE with the bytes `data` to an executor on an agent.
pub fn make_message(
    alloc: Global,
    framework: &Id,
    agent: &Id,
    executor: &Id,
    data: &[u8],
) -> Result<Call, NoMemory>
    // On success the result is the MESSAGE of these arguments.
    ensures { IfOk result (λ call. call
        ≡ message_call framework.now agent.now executor.now «data».now) }
{
    let framework_id = framework.copy(alloc)?;
    let agent_id = agent.copy(alloc)?;
    let executor_id = executor.copy(alloc)?;
    let payload = Bytes::new(data.to_vec(alloc)?);
    Ok(Call::Message {
        framework_id,
        body: Message {
            agent_id,
            executor_id,
            payload,
        },
    })
}
