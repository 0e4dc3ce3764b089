//! Searches in the tasks before and after the task of a resource.
ghost use Rattle.std.specs.Prelude.{◌≡◌, ◌+◌, ◌<◌, ◌++◌, drop, take, IsTrue};
ghost use Rattle.std.specs.List.{list_any};
ghost use Rattle.mes_session_fit.specs.Keys.{key_of, is_of};
ghost use Rattle.mes_session_fit.specs.Fits.{piece_in, has_piece, asked};
ghost use Rattle.mes_session_fit.specs.Fits.Piece.{point};
ghost use Rattle.mes_session_fit.specs.Launched.{launched, place, IsInRange};
ghost use Rattle.mes_session_fit.specs.Batches.{FreeFrom, IsBatch};
ghost use Rattle.mes_session_fit.specs.Looking.{Meets};

use crate::batch::Batch;
use crate::key::same_key;
use crate::shared_pieces::{groups_meet, tasks_meet};
use crate::task_group::TaskGroup;
use mes_model::{Resource, ResourceValue, TaskInfo};

/// Returns whether one of the resources has the key.
pub(crate) fn resources_have_key(resources: &[Resource], key: &Resource) -> bool
    ensures { result ≡ list_any (is_of (key_of key.now)) resources.now }
{
    resources.iter().any(|resource| same_key(key, resource))
}

fn tasks_have_key(tasks: &[TaskInfo], key: &Resource) -> bool
    ensures { result ≡ list_any (is_of (key_of key.now)) (asked tasks.now) }
{
    for task in tasks {
        if resources_have_key(task.resources.as_slice(), key) {
            return true;
        }
    }
    false
}

fn groups_have_key<L: TaskGroup>(launches: &[L], key: &Resource) -> bool
    ensures { result ≡ list_any (is_of (key_of key.now)) (asked (launched L.tasks launches.now)) }
{
    for group in launches {
        if tasks_have_key(group.tasks(), key) {
            return true;
        }
    }
    false
}

/// Returns whether a resource of an earlier task has the key.
pub(crate) fn has_key_before<L: TaskGroup>(
    launches: &[L],
    at: usize,
    task: usize,
    key: &Resource,
) -> bool
    requires { IsInRange L.tasks launches.now at task }
    ensures { result ≡ list_any (is_of (key_of key.now))
        (asked (take (place L.tasks launches.now at task) (launched L.tasks launches.now))) }
{
    let tasks = launches[at].tasks();
    groups_have_key(&launches[..at], key) || tasks_have_key(&tasks[..task], key)
}

/// Returns whether a later task takes a piece (a point or an item) that `resource` has, under the
/// same key.
fn overlaps_later<L: TaskGroup>(launches: &[L], at: usize, task: usize, resource: &Resource) -> bool
    requires { IsInRange L.tasks launches.now at task }
    ensures { Meets (λ p. piece_in p resource.now.value)
        (λ p. has_piece (key_of resource.now) p
        (asked (drop (place L.tasks launches.now at task + 1) (launched L.tasks launches.now))))
        result }
{
    if let ResourceValue::Scalar(_) = &resource.value {
        return false;
    }
    let tasks = launches[at].tasks();
    tasks_meet(resource, &tasks[task + 1..]) || groups_meet(resource, &launches[at + 1..])
}

/// Like [`overlaps_later`], but for a task of a batch. If no task after the batch has a point of
/// the batch, points are searched for only in the batch.
pub(crate) fn meets_another<L: TaskGroup>(
    launches: &[L],
    at: usize,
    task: usize,
    resource: &Resource,
    batch: Batch,
) -> bool
    requires is_index { IsInRange L.tasks launches.now at task }
    requires inside { task < batch.end }
    requires is { IsBatch L.tasks launches.now at batch }
    requires free { IsTrue batch.apart
        → FreeFrom L.tasks launches.now at batch.end (λ x. piece_in (point x) resource.now.value) }
    ensures { Meets (λ p. piece_in p resource.now.value)
        (λ p. has_piece (key_of resource.now) p
        (asked (drop (place L.tasks launches.now at task + 1) (launched L.tasks launches.now))))
        result }
{
    match &resource.value {
        ResourceValue::Ranges(_) if batch.apart => {
            let tasks = launches[at].tasks();
            tasks_meet(resource, &tasks[task + 1..batch.end])
        }
        _ => overlaps_later(launches, at, task, resource),
    }
}
