//! The entries of the map of outstanding offers: each offer under its identifier, with a mark for
//! removal.
ghost use Rattle.std.specs.Prelude.{◌≡◌, ◌+◌, ◌<◌, ◌≤◌, not, [], ◌∷◌, map, filter, length, IfOk, OnErr, bytes_eq};
ghost use Rattle.indexmap.specs.IndexMap.{spare};
ghost use Rattle.mes_session_state.specs.Keeping.{put};
ghost use Rattle.mes_session_state.specs.Held.{name_of, with_offers};
ghost use Rattle.mes_session_state.specs.Slots.{offers_in, AreSettled, marked_at, marked, stays};

use indexmap::IndexMap;
use mes_json::NoMemory;
use mes_model::{Id, Offer};
use mes_model_schema::Part;
use std::alloc::Global;

/// An outstanding offer and its mark for removal.
#[derive(Drop)]
pub(crate) struct Slot {
    pub(crate) offer: Offer,
    /// Set only during a removal, if the offer is to be removed.
    pub(crate) leaves: bool,
}

/// The outstanding offers in order, under their identifiers.
pub(crate) type Slots = IndexMap<String, Slot>;

pub(crate) fn copies(alloc: Global, offers: &[Offer]) -> Result<Vec<(String, Slot)>, NoMemory>
    ensures settled { IfOk result (λ copied. AreSettled copied.items) }
    ensures same { IfOk result (λ copied. offers_in copied.items ≡ offers.now) }
    ensures needs { OnErr result (0 < length offers.now) }
{
    let mut copied = Vec::new(alloc);
    for offer in offers {
        copied.push(copy_of(alloc, offer)?)?;
    }
    Ok(copied)
}

fn copy_of(alloc: Global, offer: &Offer) -> Result<(String, Slot), NoMemory>
    ensures settled { IfOk result (λ copied. AreSettled (copied ∷ [])) }
    ensures same { IfOk result (λ copied. copied.1.offer ≡ offer.now) }
{
    let name = String::from_str(alloc, offer.id.value.as_str())?;
    let offer = offer.copy(alloc)?;
    Ok((
        name,
        Slot {
            offer,
            leaves: false,
        },
    ))
}

fn mark_one(slots: &mut Slots, name: &str)
    ensures { slots.new.entries ≡ map (marked_at name.now) slots.old.entries }
{
    if let Some(slot) = slots.get_mut(name) {
        slot.leaves = true;
    }
}

pub(crate) fn mark(slots: &mut Slots, ids: &[Id])
    ensures { slots.new.entries ≡ marked ids.now slots.old.entries }
{
    for id in ids {
        mark_one(slots, id.value.as_str());
    }
}

pub(crate) fn drop_marked(slots: &mut Slots)
    ensures { slots.new.entries ≡ filter stays slots.old.entries }
{
    slots.retain(
        |_name: &String, slot: &mut Slot| -> bool
            ensures { (result ≡ not slot.old.leaves) × (slot.new ≡ slot.old) }
        { !slot.leaves },
    );
}

/// Adds an offer within the spare capacity.
fn put_one(slots: &mut Slots, name: String, slot: Slot)
    requires room { 0 < spare slots.old }
    requires settled { AreSettled slots.old.entries }
    requires own { AreSettled ((name, slot) ∷ []) }
    ensures settled { AreSettled slots.new.entries }
    ensures put { offers_in slots.new.entries
        ≡ put bytes_eq name_of (offers_in slots.old.entries) slot.offer }
    ensures room { spare slots.old ≤ spare slots.new + 1 }
{
    slots.insert(name, slot).unwrap();
}

/// Adds offers in order within the spare capacity.
pub(crate) fn put_all(slots: &mut Slots, copied: Vec<(String, Slot)>)
    requires room { length copied.items ≤ spare slots.old }
    requires settled { AreSettled slots.old.entries }
    requires own { AreSettled copied.items }
    ensures settled { AreSettled slots.new.entries }
    ensures put { offers_in slots.new.entries
        ≡ with_offers (offers_in slots.old.entries) (offers_in copied.items) }
{
    for (name, slot) in copied {
        put_one(slots, name, slot);
    }
}
