//! The map of the outstanding offers. The entries of the map are in `slot.rt`.
ghost use Rattle.std.specs.Prelude.{◌≡◌, ◌<◌, ◌↔◌, [], length, slice_get, option_copied, IsTrue, OnOk, OnErr};
ghost use Rattle.mes_session_state.specs.Held.{offer_in, with_offers, without_offer, without_offers};
ghost use Rattle.mes_session_state.specs.Slots.{offers_in, AreSettled};

use crate::slot::{Slots, copies, drop_marked, mark, put_all};
use indexmap::IndexMap;
use mes_json::NoMemory;
use mes_model::{Id, Offer};
use std::alloc::Global;
use std::marker::Model;

/// The outstanding offers in order, with unique identifiers. In contracts the value is the list of
/// the offers.
#[derive(Drop)]
pub struct OutstandingOffers {
    slots: Slots,
}

impl Model for OutstandingOffers {
    ghost use Rattle.std.specs.Prelude.{List};
    ghost use Rattle.std.specs.Coded.{codes};
    ghost use Rattle.mes_model_schema.specs.MembersCode.{members_code};
    ghost use Rattle.mes_model.specs.Offer.{Offer as OfferValue};
    ghost use Rattle.mes_session_state.specs.Slots.{offers_in, AreSettled};

    ghost Value = { List OfferValue };

    ghost coded = { Prim.hlevel (codes, members_code) };

    ghost view = { λ hand. offers_in hand.slots.entries };

    ghost invariant = { λ hand. AreSettled hand.slots.entries };
}

impl OutstandingOffers {
    /// Returns an empty collection. Does not allocate.
    pub fn new(alloc: Global) -> OutstandingOffers
        ensures { result ≡ [] }
    {
        OutstandingOffers {
            slots: IndexMap::new(alloc),
        }
    }

    /// Returns the number of offers.
    pub fn len(&self) -> usize
        ensures { result ≡ length self.now }
    {
        self.slots.len()
    }

    /// Returns whether there are no offers.
    pub fn is_empty(&self) -> bool
        ensures { IsTrue result ↔ self.now ≡ [] }
    {
        self.slots.is_empty()
    }

    /// Returns the offer at an index.
    pub fn get_index(&self, index: usize) -> Option<&Offer>
        ensures { option_copied result ≡ slice_get self.now index }
    {
        let (_, slot) = self.slots.get_index(index)?;
        Some(&slot.offer)
    }

    /// Returns the offer with the identifier `id`, in a time independent of the number of offers.
    pub fn get(&self, id: &str) -> Option<&Offer>
        ensures { option_copied result ≡ offer_in self.now id.now }
    {
        let slot = self.slots.get(id)?;
        Some(&slot.offer)
    }

    /// Adds copies of offers in order. An offer with the identifier of an earlier offer replaces
    /// that offer in its place. Errors: `NoMemory` if an allocation fails; nothing is then changed.
    /// An empty slice does not allocate.
    pub fn add(&mut self, alloc: Global, offers: &[Offer]) -> Result<(), NoMemory>
        ensures ok { OnOk result (self.new ≡ with_offers self.old offers.now) }
        ensures err { OnErr result (self.new ≡ self.old) }
        ensures needs { OnErr result (0 < length offers.now) }
    {
        let copied = copies(alloc, offers)?;
        self.slots.reserve(copied.len())?;
        put_all(&mut self.slots, copied);
        Ok(())
    }

    /// Removes the offer with the identifier `id`, if present, and retains the order. Does not
    /// allocate.
    pub fn remove(&mut self, id: &str)
        ensures { self.new ≡ without_offer id.now self.old }
    {
        // The contract of `len` states that names are unique, so removing one entry removes all.
        let _len = self.slots.len();
        self.slots.shift_remove(id);
    }

    /// Removes the offers with the identifiers `ids`, if present, and retains the order. Does not
    /// allocate. The time is linear in the number of offers plus the number of identifiers.
    pub fn remove_all(&mut self, ids: &[Id])
        ensures { self.new ≡ without_offers ids.now self.old }
    {
        mark(&mut self.slots, ids);
        drop_marked(&mut self.slots);
    }

    /// Removes all offers. Does not allocate.
    pub fn clear(&mut self)
        ensures { self.new ≡ [] }
    {
        self.slots.clear();
    }
}
