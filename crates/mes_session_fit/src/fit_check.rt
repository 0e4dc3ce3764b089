//! Search for the first resource that does not fit the offers. The checks of one resource are in
//! `supply.rt`, `unoffered_pieces.rt` and `other_tasks.rt`.
ghost use Rattle.std.specs.Prelude.{◌≡◌, ◌+◌, ◌<◌, ◌≤◌, ◌⊎◌, ◌↔◌, ◌++◌, ℕ, take, length, slice_get, get_or, Some, true, IsTrue, IsFalse, IfSome, IfNone};
ghost use Rattle.std.specs.List.{list_any};
ghost use Rattle.mes_session_fit.specs.Keys.{key_of, is_of};
ghost use Rattle.mes_session_fit.specs.Fits.{amount, offered, asked, Fits, BreaksAt, NoneAhead, NoneBefore, IsFirstBreach};
ghost use Rattle.mes_session_fit.specs.Launched.{launched, place, as_index, IsInRange};
ghost use Rattle.mes_session_fit.specs.Batches.{has_point, FreeFrom, IsBatch};

use crate::batch::{Batch, batch_of};
use crate::offer_list::OfferList;
use crate::other_tasks::{has_key_before, meets_another, resources_have_key};
use crate::supply::exceeds;
use crate::task_group::TaskGroup;
use crate::unoffered_pieces::is_unoffered;
use mes_model::{Resource, ResourceValue, TaskInfo};

/// The first resource that does not fit the offers.
#[derive(Clone, Copy, Debug, PartialEq, Eq)]
pub struct Breach {
    /// The index of the task among all launched tasks, from 0.
    pub task: usize,
    /// The index of the resource in the task, from 0.
    pub resource: usize,
}

/// Returns whether a scalar resource is the first of its key and the tasks take more of that key
/// than the offers have. Later resources of the key need no check.
fn exceeds_first_time<O: OfferList, L: TaskGroup>(
    offers: &O,
    launches: &[L],
    at: usize,
    index: usize,
    own: &[Resource],
    resource: &Resource,
) -> bool
    requires { IsInRange L.tasks launches.now at index }
    ensures yes { IsTrue result → amount (key_of resource.now) (offered (O.offers offers.now))
        < amount (key_of resource.now) (asked (launched L.tasks launches.now)) }
    ensures no { IsFalse result → (list_any (is_of (key_of resource.now))
        (asked (take (place L.tasks launches.now at index) (launched L.tasks launches.now))
        ++ own.now) ≡ true) ⊎ (amount (key_of resource.now) (asked (launched L.tasks launches.now))
        ≤ amount (key_of resource.now) (offered (O.offers offers.now))) }
{
    match &resource.value {
        ResourceValue::Scalar(_) => {
            !has_key_before(launches, at, index, resource)
                && !resources_have_key(own, resource)
                && exceeds(offers, resource, launches, at, index)
        }
        ResourceValue::Ranges(_) => false,
        ResourceValue::Set(_) => false,
    }
}

/// Returns whether a resource of a task does not fit, given that all earlier resources fit.
fn breaks<O: OfferList, L: TaskGroup>(
    offers: &O,
    near: &mut usize,
    launches: &[L],
    at: usize,
    index: usize,
    batch: Batch,
    task: &TaskInfo,
    resource: usize,
) -> bool
    requires is_index { IsInRange L.tasks launches.now at index }
    requires inside { index < batch.end }
    requires batch { IsBatch L.tasks launches.now at batch }
    requires free { IsTrue batch.apart
        → FreeFrom L.tasks launches.now at batch.end (λ x. has_point x task.now.resources) }
    requires is { slice_get (launched L.tasks launches.now) (place L.tasks launches.now at index)
        ≡ Some task.now }
    requires within { resource < length task.now.resources }
    requires first { NoneAhead (O.offers offers.now) (launched L.tasks launches.now)
        (place L.tasks launches.now at index) resource }
    ensures { IsTrue result ↔ BreaksAt (O.offers offers.now) (launched L.tasks launches.now)
        (place L.tasks launches.now at index) resource }
{
    let resources = task.resources.as_slice();
    let own = &resources[..resource];
    let resource = &resources[resource];
    if exceeds_first_time(offers, launches, at, index, own, resource) {
        return true;
    }
    if is_unoffered(offers, near, own, resource) {
        return true;
    }
    meets_another(launches, at, index, resource, batch)
}

/// Returns the index of the first resource of a task that does not fit, given that all earlier
/// tasks fit.
fn breach_of_task<O: OfferList, L: TaskGroup>(
    offers: &O,
    near: &mut usize,
    launches: &[L],
    at: usize,
    index: usize,
    batch: Batch,
    task: &TaskInfo,
) -> Option<usize>
    requires is_index { IsInRange L.tasks launches.now at index }
    requires inside { index < batch.end }
    requires batch { IsBatch L.tasks launches.now at batch }
    requires free { IsTrue batch.apart
        → FreeFrom L.tasks launches.now at batch.end (λ x. has_point x task.now.resources) }
    requires is { slice_get (launched L.tasks launches.now) (place L.tasks launches.now at index)
        ≡ Some task.now }
    requires first { NoneBefore (O.offers offers.now) (launched L.tasks launches.now)
        (place L.tasks launches.now at index) }
    ensures some { IfSome result (λ j. IsFirstBreach (O.offers offers.now)
        (launched L.tasks launches.now) (place L.tasks launches.now at index) j) }
    ensures none { IfNone result (NoneBefore (O.offers offers.now) (launched L.tasks launches.now)
        (place L.tasks launches.now at index + 1)) }
{
    for resource in 0..task.resources.len() {
        if breaks(offers, near, launches, at, index, batch, task, resource) {
            return Some(resource);
        }
    }
    None
}

/// Returns the index of the first task of a group that has a resource that does not fit, and the
/// index of that resource, given that all earlier groups fit.
fn breach_of_group<O: OfferList, L: TaskGroup>(
    offers: &O,
    near: &mut usize,
    launches: &[L],
    at: usize,
) -> Option<(usize, usize)>
    requires within { at < length launches.now }
    requires first { NoneBefore (O.offers offers.now) (launched L.tasks launches.now)
        (place L.tasks launches.now at 0) }
    ensures some { IfSome result (λ p. IsFirstBreach (O.offers offers.now)
        (launched L.tasks launches.now) (place L.tasks launches.now at p.0) p.1) }
    ensures none { IfNone result (NoneBefore (O.offers offers.now) (launched L.tasks launches.now)
        (place L.tasks launches.now (at + 1) 0)) }
{
    let tasks = launches[at].tasks();
    let mut batch = Batch {
        first: 0,
        end: 0,
        apart: false,
    };
    for index in 0..tasks.len() {
        batch = batch_of(launches, at, index, batch);
        if let Some(resource) = breach_of_task(
            offers,
            near,
            launches,
            at,
            index,
            batch,
            &tasks[index],
        ) {
            return Some((index, resource));
        }
    }
    None
}

/// Returns the first resource of the launched tasks that does not fit the offers, or `None` if all
/// fit. `launches` are operations or slices of tasks; for one slice pass `&[tasks]`. For offers in
/// a slice pass `&offers.as_slice()`.
///
/// The task's index saturates at 2^64 - 1. Does not allocate, and does not add amounts, so nothing
/// overflows. The time is O((A + O)²), where A and O count the resources, ranges and set items of
/// the tasks and of the offers.
pub fn first_breach<O: OfferList, L: TaskGroup>(offers: &O, launches: &[L]) -> Option<Breach>
    // On `Some`: the first resource that does not fit.
    ensures some { IfSome result (λ b. (i : ℕ) × (b.task ≡ as_index i)
        × IsFirstBreach (O.offers offers.now) (launched L.tasks launches.now) i b.resource) }
    ensures none { IfNone result (Fits (O.offers offers.now) (launched L.tasks launches.now)) }
{
    let mut before: usize = 0;
    let mut near = 0;
    for at in 0..launches.len() {
        if let Some((task, resource)) = breach_of_group(offers, &mut near, launches, at) {
            let task = before.saturating_add(task);
            return Some(Breach { task, resource });
        }
        before = before.saturating_add(launches[at].tasks().len());
    }
    None
}
