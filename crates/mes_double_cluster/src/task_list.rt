//! Changes and searches over all tasks of the cluster.
ghost use Rattle.std.specs.Prelude.{◌≡◌, ◌++◌, not, map, filter, OnOk};
ghost use Rattle.std.specs.List.{list_any};
ghost use Rattle.mes_double_cluster.specs.declared.task.Task.{Task as TaskValue};
ghost use Rattle.mes_double_cluster.specs.Stock.{same_id};
ghost use Rattle.mes_double_cluster.specs.TaskProgress.{is_over};
ghost use Rattle.mes_double_cluster.specs.Tasks.{launched, acknowledged, killed, launch_at, reported_at, times_of};
ghost use Rattle.mes_double_cluster.specs.Times.{earliest};
ghost use Rattle.mes_double_cluster.specs.Clusters.{running_launch};

use crate::task::Task;
use mes_json::NoMemory;
use mes_model::{Id, TaskInfo, TaskState};
use mes_msg::Acknowledge;
use std::alloc::Global;

/// Appends tasks that were just launched, in the launch with this number.
pub(crate) fn add_all(
    alloc: Global,
    tasks: &mut Vec<Task>,
    infos: &[TaskInfo],
    launch: u64,
) -> Result<(), NoMemory>
    ensures { OnOk result (tasks.new.items ≡ tasks.old.items ++ map (launched launch) infos.now) }
{
    for info in infos {
        tasks.push(Task::new(alloc, info, launch)?)?;
    }
    Ok(())
}

/// Notes an acknowledgement of the update that awaits it.
pub(crate) fn acknowledged(tasks: &mut [Task], body: &Acknowledge)
    ensures { tasks.new ≡ map (acknowledged body.now) tasks.old }
{
    for task in tasks.iter_mut() {
        task.acknowledged(body);
    }
}

/// Removes the tasks whose last state was reported and acknowledged.
pub(crate) fn forget_over(tasks: &mut Vec<Task>)
    ensures { tasks.new.items
        ≡ filter (λ (t : TaskValue). not (is_over t.progress)) tasks.old.items }
{
    tasks.retain(|task| !task.progress.is_over());
}

/// Removes the task with this identifier, if it is there.
pub(crate) fn forget(tasks: &mut Vec<Task>, id: &Id)
    ensures { tasks.new.items
        ≡ filter (λ (t : TaskValue). not (same_id t.id id.now)) tasks.old.items }
{
    tasks.retain(|task| !task.has_id(id));
}

/// Returns the launch of the task at an index.
pub(crate) fn launch_at(tasks: &[Task], index: usize) -> Option<u64>
    ensures { result ≡ launch_at index tasks.now }
{
    let task = tasks.get(index)?;
    Some(task.launch())
}

/// Notes that the task at an index was reported in this state.
pub(crate) fn reported_at(
    tasks: &mut Vec<Task>,
    index: usize,
    state: TaskState,
    update: u64,
    finishes: Option<u64>,
)
    ensures { tasks.new.items ≡ reported_at index state update finishes tasks.old.items }
{
    if let Some(task) = tasks.get_mut(index) {
        task.progress = task.progress.reported(state, update, finishes);
    }
}

/// Returns whether there is a task with this identifier.
pub(crate) fn has_task(tasks: &[Task], id: &Id) -> bool
    ensures { result ≡ list_any (λ (t : TaskValue). same_id t.id id.now) tasks.now }
{
    tasks.iter().any(|task| task.has_id(id))
}

/// Notes that the task with this identifier was killed.
pub(crate) fn killed(tasks: &mut [Task], id: &Id)
    ensures { tasks.new ≡ map (killed id.now) tasks.old }
{
    for task in tasks.iter_mut() {
        task.killed(id);
    }
}

/// Returns the launch of the task with this identifier, unless the task has ended.
pub(crate) fn running_launch(tasks: &[Task], id: &Id) -> Option<u64>
    ensures { result ≡ running_launch id.now tasks.now }
{
    let task = tasks.iter().find(|task| task.is_running(id))?;
    Some(task.launch())
}

/// Returns the first time at which the next status of a task is reported.
pub(crate) fn first_due(tasks: &[Task]) -> Option<u64>
    ensures { result ≡ earliest (times_of tasks.now) }
{
    tasks
        .iter()
        .filter_map(|task| task.progress.next_time())
        .min()
}
