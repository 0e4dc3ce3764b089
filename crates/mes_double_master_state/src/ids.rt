//! The sets of identifiers that a master retains: of offers made and of tasks launched.
ghost use Rattle.std.specs.Prelude.{◌≡◌, ◌||◌, ◌++◌, ◌+◌, ◌<◌, ◌≤◌, false, length, option_map, IfOk, OnOk, OnErr};
ghost use Rattle.std.specs.List.{list_any};
ghost use Rattle.indexmap.specs.IndexSet.{spare, insert_key, insert_all};
ghost use Rattle.mes_model.specs.Offer.{Offer as OfferValue};
ghost use Rattle.mes_session_fit.specs.Launched.{launched, launched_by};
ghost use Rattle.mes_session_state.specs.Refusals.{is_among, ids_of};
ghost use Rattle.mes_double_master_state.specs.Ids.{same_id, new_tasks, offer_ids, is_duplicate};

use indexmap::IndexSet;
use mes_model::{Id, Offer, TaskInfo};
use mes_model_schema::Part;
use mes_model_schema::json::NoMemory;
use mes_msg::Operation;
use std::alloc::Global;

fn has_id(offers: &[Offer], id: &Id) -> bool
    ensures { result ≡ list_any (λ (o : OfferValue). same_id id.now o.id) offers.now }
{
    offers.iter().any(|offer| id == &offer.id)
}

/// Returns whether an offer's identifier is in `offered`, or is that of an offer in `following`.
fn is_repeated(offered: &IndexSet<Id>, offer: &Offer, following: &[Offer]) -> bool
    ensures { result ≡ (is_among offer.now.id offered.now.keys || is_among offer.now.id
        (offer_ids following.now)) }
{
    offered.contains(&offer.id) || has_id(following, &offer.id)
}

/// Returns whether the identifier of one of the offers is in `offered`, or is that of two of the
/// offers.
pub fn is_duplicate(offered: &IndexSet<Id>, offers: &[Offer]) -> bool
    ensures { result ≡ is_duplicate offered.now.keys (offer_ids offers.now) }
{
    let mut rest = offers;
    while let Some((offer, following)) = rest.split_first() {
        if is_repeated(offered, offer, following) {
            return true;
        }
        rest = following;
    }
    false
}

/// Copies the identifiers of the offers.
pub fn ids_of_offers(alloc: Global, offers: &[Offer]) -> Result<Vec<Id>, NoMemory>
    ensures { IfOk result (λ ids. ids.items ≡ offer_ids offers.now) }
{
    let mut ids = Vec::new(alloc);
    for offer in offers {
        ids.push(offer.id.copy(alloc)?)?;
    }
    Ok(ids)
}

fn push_task_ids(alloc: Global, ids: &mut Vec<Id>, tasks: &[TaskInfo]) -> Result<(), NoMemory>
    ensures { OnOk result (ids.new.items ≡ ids.old.items ++ ids_of tasks.now) }
{
    for task in tasks {
        ids.push(task.task_id.copy(alloc)?)?;
    }
    Ok(())
}

/// Copies the identifiers of the tasks that the operations launch.
fn task_ids(alloc: Global, operations: &[Operation]) -> Result<Vec<Id>, NoMemory>
    ensures { IfOk result (λ ids. ids.items ≡ ids_of (launched launched_by operations.now)) }
{
    let mut ids = Vec::new(alloc);
    for operation in operations {
        let Operation::Launch { task_infos } = operation;
        push_task_ids(alloc, &mut ids, task_infos.as_slice())?;
    }
    Ok(ids)
}

/// Reserves capacity for `more` identifiers. Errors: `NoMemory` if the allocation fails; the set is
/// unchanged in any case.
pub fn reserve(ids: &mut IndexSet<Id>, more: usize) -> Result<(), NoMemory>
    ensures same { ids.new.keys ≡ ids.old.keys }
    ensures room { OnOk result (more ≤ spare ids.new) }
{
    ids.reserve(more)?;
    Ok(())
}

/// Adds an identifier within the spare capacity. An identifier that is already in the set keeps its
/// place.
fn put_id(ids: &mut IndexSet<Id>, id: Id)
    requires { 0 < spare ids.old }
    ensures keys { ids.new.keys ≡ insert_key same_id ids.old.keys id }
    ensures room { spare ids.old ≤ spare ids.new + 1 }
{
    ids.insert(id).unwrap();
}

/// Adds identifiers in order within the spare capacity. An identifier that is already in the set
/// keeps its place.
fn put_ids(ids: &mut IndexSet<Id>, more: Vec<Id>)
    requires { length more.items ≤ spare ids.old }
    ensures { ids.new.keys ≡ insert_all same_id ids.old.keys more.items }
{
    for id in more {
        put_id(ids, id);
    }
}

/// Adds new, distinct identifiers within the spare capacity.
pub fn put_new(ids: &mut IndexSet<Id>, more: Vec<Id>)
    requires room { length more.items ≤ spare ids.old }
    requires new { is_duplicate ids.old.keys more.items ≡ false }
    ensures { ids.new.keys ≡ ids.old.keys ++ more.items }
{
    put_ids(ids, more);
}

/// Adds the identifiers of the tasks that the operations launch, except those already in the set.
/// Errors: `NoMemory` if an allocation fails; nothing is then changed.
pub fn launch(
    alloc: Global,
    known: &mut IndexSet<Id>,
    operations: &[Operation],
) -> Result<(), NoMemory>
    // On success: the identifiers of the new tasks are appended.
    ensures ok { OnOk result (known.new.keys
        ≡ known.old.keys ++ ids_of (new_tasks known.old.keys
        (launched launched_by operations.now))) }
    ensures err { OnErr result (known.new.keys ≡ known.old.keys) }
{
    let ids = task_ids(alloc, operations)?;
    reserve(known, ids.len())?;
    put_ids(known, ids);
    Ok(())
}
