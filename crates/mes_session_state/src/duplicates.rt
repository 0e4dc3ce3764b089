//! Search for duplicate identifiers.
ghost use Rattle.std.specs.Prelude.{◌≡◌, ◌++◌, false, bytes_eq};
ghost use Rattle.std.specs.List.{list_any};
ghost use Rattle.mes_session_fit.specs.Launched.{launched};
ghost use Rattle.mes_session_state.specs.Refusals.{is_duplicated, ids_of, is_among};
ghost use Rattle.mes_session_state.specs.Looking.{is_task};

use mes_model::{Id, TaskInfo};
use mes_session_fit::TaskGroup;

/// Returns whether two identifiers are equal. Lengths and last bytes are compared first, because
/// ids made from counters differ there and the search is pairwise.
fn is_same(id: &Id, other: &Id) -> bool
    ensures { result ≡ bytes_eq id.now.value other.now.value }
{
    let id = id.value.as_str().as_bytes();
    let other = other.value.as_str().as_bytes();
    id.len() == other.len() && id.last() == other.last() && id == other
}

fn is_among(ids: &[Id], id: &Id) -> bool
    ensures { result ≡ is_among id.now ids.now }
{
    ids.iter().any(|other| is_same(id, other))
}

pub(crate) fn is_duplicated(ids: &[Id]) -> bool
    ensures { result ≡ is_duplicated ids.now }
{
    for index in 0..ids.len() {
        if is_among(&ids[..index], &ids[index]) {
            return true;
        }
    }
    false
}

fn tasks_have(tasks: &[TaskInfo], id: &Id) -> bool
    ensures { result ≡ list_any (is_task id.now) tasks.now }
{
    tasks.iter().any(|task| is_same(id, &task.task_id))
}

fn groups_have<L: TaskGroup>(launches: &[L], id: &Id) -> bool
    ensures { result ≡ list_any (is_task id.now) (launched L.tasks launches.now) }
{
    for group in launches {
        if tasks_have(group.tasks(), id) {
            return true;
        }
    }
    false
}

/// Returns whether adding `tasks` to groups without duplicates makes a duplicate identifier.
fn is_repeated<L: TaskGroup>(launches: &[L], tasks: &[TaskInfo]) -> bool
    requires { is_duplicated (ids_of (launched L.tasks launches.now)) ≡ false }
    ensures { result ≡ is_duplicated (ids_of (launched L.tasks launches.now ++ tasks.now)) }
{
    for index in 0..tasks.len() {
        let id = &tasks[index].task_id;
        if groups_have(launches, id) || tasks_have(&tasks[..index], id) {
            return true;
        }
    }
    false
}

/// Returns whether two tasks of the groups have one identifier.
pub(crate) fn task_is_duplicated<L: TaskGroup>(launches: &[L]) -> bool
    ensures { result ≡ is_duplicated (ids_of (launched L.tasks launches.now)) }
{
    for at in 0..launches.len() {
        if is_repeated(&launches[..at], launches[at].tasks()) {
            return true;
        }
    }
    false
}
