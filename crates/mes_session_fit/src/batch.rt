//! Batches of tasks whose points (numbers in ranges) are compared with those of all later tasks in
//! one pass. Without batches each task would need its own pass.
ghost use Rattle.std.specs.Prelude.{◌≡◌, ◌≤◌, ◌<◌, ℕ, true, take, length, IsTrue};
ghost use Rattle.mes_session_fit.specs.Fits.{in_range, in_ranges, piece_in, asked};
ghost use Rattle.mes_session_fit.specs.Fits.Piece.{point};
ghost use Rattle.mes_session_fit.specs.Launched.{launched, IsInRange};
ghost use Rattle.mes_session_fit.specs.Batches.{in_ends, has_point, Apart, IsBatch};

use crate::task_group::TaskGroup;
use arrayvec::ArrayVec;
use mes_model::{Range, Resource, ResourceValue, TaskInfo};

/// The maximum number of ranges in a batch.
const RANGES_AT_ONCE: usize = 128;

#[derive(Clone, Copy, Default)]
struct Ends {
    first: u64,
    last: u64,
}

/// The ranges in the resources of a batch's tasks, whatever the keys of the resources.
type Taken = ArrayVec<Ends, RANGES_AT_ONCE>;

/// Consecutive tasks of a group.
#[derive(Clone, Copy)]
pub(crate) struct Batch {
    /// The index of the first task.
    pub first: usize,
    /// The index after the last task.
    pub end: usize,
    /// Whether no later task has a point of the batch; `false` if unknown.
    pub apart: bool,
}

/// Adds ranges to `taken`; returns `false` if its capacity is too small.
fn add_ranges(taken: &mut Taken, ranges: &[Range]) -> bool
    ensures kept { (x : ℕ) → in_ends x taken.old.items ≡ true → in_ends x taken.new.items ≡ true }
    ensures added { IsTrue result → (x : ℕ) → in_ranges x ranges.now ≡ true
        → in_ends x taken.new.items ≡ true }
{
    for range in ranges {
        let ends = Ends {
            first: range.first,
            last: range.last,
        };
        if taken.try_push(ends).is_err() {
            return false;
        }
    }
    true
}

fn add_value(taken: &mut Taken, value: &ResourceValue) -> bool
    ensures kept { (x : ℕ) → in_ends x taken.old.items ≡ true → in_ends x taken.new.items ≡ true }
    ensures added { IsTrue result → (x : ℕ) → piece_in (point x) value.now ≡ true
        → in_ends x taken.new.items ≡ true }
{
    match value {
        ResourceValue::Ranges(ranges) => add_ranges(taken, ranges.range.as_slice()),
        _ => true,
    }
}

fn add_resources(taken: &mut Taken, resources: &[Resource]) -> bool
    ensures kept { (x : ℕ) → in_ends x taken.old.items ≡ true → in_ends x taken.new.items ≡ true }
    ensures added { IsTrue result → (x : ℕ) → has_point x resources.now ≡ true
        → in_ends x taken.new.items ≡ true }
{
    for resource in resources {
        if !add_value(taken, &resource.value) {
            return false;
        }
    }
    true
}

/// Adds the ranges of consecutive tasks until `taken` is full. Returns the number of tasks of which
/// all ranges are added.
fn add_tasks(taken: &mut Taken, tasks: &[TaskInfo]) -> usize
    ensures within { result ≤ length tasks.now }
    ensures added { (x : ℕ) → has_point x (asked (take result tasks.now)) ≡ true
        → in_ends x taken.new.items ≡ true }
{
    for index in 0..tasks.len() {
        if !add_resources(taken, tasks[index].resources.as_slice()) {
            return index;
        }
    }
    tasks.len()
}

/// Returns whether a range contains none of the points of `taken`.
fn range_is_apart(taken: &[Ends], range: &Range) -> bool
    ensures { IsTrue result → Apart (λ x. in_ends x taken.now) (λ x. in_range x range.now) }
{
    for ends in taken {
        if ends.first <= range.last && range.first <= ends.last {
            return false;
        }
    }
    true
}

fn ranges_are_apart(taken: &[Ends], ranges: &[Range]) -> bool
    ensures { IsTrue result → Apart (λ x. in_ends x taken.now) (λ x. in_ranges x ranges.now) }
{
    for range in ranges {
        if !range_is_apart(taken, range) {
            return false;
        }
    }
    true
}

fn value_is_apart(taken: &[Ends], value: &ResourceValue) -> bool
    ensures { IsTrue result → Apart (λ x. in_ends x taken.now) (λ x. piece_in (point x) value.now) }
{
    match value {
        ResourceValue::Ranges(ranges) => ranges_are_apart(taken, ranges.range.as_slice()),
        _ => true,
    }
}

fn resources_are_apart(taken: &[Ends], resources: &[Resource]) -> bool
    ensures { IsTrue result → Apart (λ x. in_ends x taken.now) (λ x. has_point x resources.now) }
{
    for resource in resources {
        if !value_is_apart(taken, &resource.value) {
            return false;
        }
    }
    true
}

fn tasks_are_apart(taken: &[Ends], tasks: &[TaskInfo]) -> bool
    ensures { IsTrue result → Apart (λ x. in_ends x taken.now)
        (λ x. has_point x (asked tasks.now)) }
{
    for task in tasks {
        if !resources_are_apart(taken, task.resources.as_slice()) {
            return false;
        }
    }
    true
}

fn groups_are_apart<L: TaskGroup>(taken: &[Ends], launches: &[L]) -> bool
    ensures { IsTrue result → Apart (λ x. in_ends x taken.now)
        (λ x. has_point x (asked (launched L.tasks launches.now))) }
{
    for group in launches {
        if !tasks_are_apart(taken, group.tasks()) {
            return false;
        }
    }
    true
}

/// Returns the longest batch of at most `RANGES_AT_ONCE` ranges that begins at task `first` of
/// group `at`. A task with more ranges is a batch of its own and is not compared with later tasks.
fn batch_from<L: TaskGroup>(launches: &[L], at: usize, first: usize) -> Batch
    requires { IsInRange L.tasks launches.now at first }
    ensures first { result.first ≡ first }
    ensures some { first < result.end }
    ensures is { IsBatch L.tasks launches.now at result }
{
    let tasks = launches[at].tasks();
    let mut taken = ArrayVec::new();
    let count = add_tasks(&mut taken, &tasks[first..]);
    if count == 0 {
        return Batch {
            first,
            end: first + 1,
            apart: false,
        };
    }
    let end = first + count;
    let taken = taken.as_slice();
    let apart = tasks_are_apart(taken, &tasks[end..])
        && groups_are_apart(taken, &launches[at + 1..]);
    Batch { first, end, apart }
}

/// Returns the batch that contains a task: `batch` if the task is in it, or else the batch that
/// begins at the task.
pub(crate) fn batch_of<L: TaskGroup>(launches: &[L], at: usize, task: usize, batch: Batch) -> Batch
    requires is_index { IsInRange L.tasks launches.now at task }
    requires begun { batch.first ≤ task }
    requires is { IsBatch L.tasks launches.now at batch }
    ensures begun { result.first ≤ task }
    ensures inside { task < result.end }
    ensures is { IsBatch L.tasks launches.now at result }
{
    if task < batch.end {
        return batch;
    }
    batch_from(launches, at, task)
}
