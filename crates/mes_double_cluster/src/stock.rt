//! Changes of all offers in stock.
ghost use Rattle.std.specs.Prelude.{◌≡◌, ◌++◌, map, IfOk, OnOk};
ghost use Rattle.mes_double_cluster.specs.Times.{earliest};
ghost use Rattle.mes_double_cluster.specs.Stock.{stocked, is_due_at, renamed_at, returned, revived, declined, rescinded, accepted, after_task, times_of};

use crate::stocked_offer::StockedOffer;
use mes_json::NoMemory;
use mes_model::{Id, Offer};
use mes_model_schema::Part;
use std::alloc::Global;

/// Appends offers that may be made at once.
pub(crate) fn add_all(
    alloc: Global,
    stock: &mut Vec<StockedOffer>,
    offers: Vec<Offer>,
) -> Result<(), NoMemory>
    ensures { OnOk result (stock.new.items ≡ stock.old.items ++ map stocked offers.items) }
{
    for offer in offers {
        stock.push(StockedOffer::new(alloc, offer)?)?;
    }
    Ok(())
}

/// Returns whether the offer at an index may be made at the time `now`.
pub(crate) fn is_due_at(stock: &[StockedOffer], index: usize, now: u64) -> bool
    ensures { result ≡ is_due_at index now stock.now }
{
    match stock.get(index) {
        Some(stocked) => stocked.state.is_due(now),
        None => false,
    }
}

/// Gives the offer at an index the identifier of its next round, and returns a copy of the offer.
pub(crate) fn renamed_at(
    alloc: Global,
    stock: &mut Vec<StockedOffer>,
    index: usize,
) -> Result<Option<Offer>, NoMemory>
    ensures { IfOk result (λ offer. (offer, stock.new.items) ≡ renamed_at index stock.old.items) }
{
    let Some(stocked) = stock.get_mut(index) else {
        return Ok(None);
    };
    stocked.rename(alloc)?;
    Ok(Some(stocked.offer().copy(alloc)?))
}

/// Notes that the stream ended: the outstanding offers are free at once.
pub(crate) fn disconnected(stock: &mut [StockedOffer], now: u64)
    ensures { stock.new ≡ map (returned now) stock.old }
{
    for stocked in stock.iter_mut() {
        stocked.disconnected(now);
    }
}

/// Notes a REVIVE: no free offer waits.
pub(crate) fn revive(stock: &mut [StockedOffer])
    ensures { stock.new ≡ map revived stock.old }
{
    for stocked in stock.iter_mut() {
        stocked.revive();
    }
}

/// Notes that the named offers were declined: they are free from the time `from` on.
pub(crate) fn declined(stock: &mut [StockedOffer], ids: &[Id], from: u64)
    ensures { stock.new ≡ map (declined ids.now from) stock.old }
{
    for stocked in stock.iter_mut() {
        stocked.declined(ids, from);
    }
}

/// Notes that the offer with this identifier was rescinded: it is never made again.
pub(crate) fn rescinded(stock: &mut [StockedOffer], id: &Id)
    ensures { stock.new ≡ map (rescinded id.now) stock.old }
{
    for stocked in stock.iter_mut() {
        stocked.rescinded(id);
    }
}

/// Notes that `tasks` tasks were launched on the named offers. Without tasks the offers are free
/// from the time `from` on.
pub(crate) fn accepted(stock: &mut [StockedOffer], ids: &[Id], launch: u64, tasks: u64, from: u64)
    ensures { stock.new ≡ map (accepted ids.now launch tasks from) stock.old }
{
    for stocked in stock.iter_mut() {
        stocked.accepted(ids, launch, tasks, from);
    }
}

/// Notes that a task of this launch ended.
pub(crate) fn task_ended(stock: &mut [StockedOffer], launch: u64, now: u64)
    ensures { stock.new ≡ map (after_task launch now) stock.old }
{
    for stocked in stock.iter_mut() {
        stocked.task_ended(launch, now);
    }
}

/// Returns the first time at which a free offer may be made.
pub(crate) fn first_due(stock: &[StockedOffer]) -> Option<u64>
    ensures { result ≡ earliest (times_of stock.now) }
{
    stock
        .iter()
        .filter_map(|stocked| stocked.state.due_from())
        .min()
}
