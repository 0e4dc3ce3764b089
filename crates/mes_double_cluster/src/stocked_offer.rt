//! An offer of the stock, which is made again under a new identifier each time.
ghost use Rattle.std.specs.Prelude.{◌≡◌, IfOk, OnOk, OnErr};
ghost use Rattle.mes_double_cluster.specs.Stock.{stocked, round_id, renamed, is_outstanding, is_named, returned, revived, declined, rescinded, accepted, after_task};

use crate::offer_state::OfferState;
use itoa::Buffer;
use mes_json::{NoMemory, Text};
use mes_model::{Id, Offer};
use std::alloc::Global;

/// An offer of the stock.
#[derive(Drop)]
pub struct StockedOffer {
    /// The identifier as it was given: that of the first round.
    name: Text,
    /// How often the offer got an identifier.
    rounds: u64,
    /// The offer, with the identifier of the last round.
    offer: Offer,
    /// Whether the offer may be made.
    pub state: OfferState,
}

impl StockedOffer {
    /// Returns an offer that may be made at once.
    pub fn new(alloc: Global, offer: Offer) -> Result<StockedOffer, NoMemory>
        ensures { IfOk result (λ new. new ≡ stocked offer) }
    {
        Ok(StockedOffer {
            name: offer.id.value.copy(alloc)?,
            rounds: 0,
            offer,
            state: OfferState::Free { from: 0 },
        })
    }

    /// Returns the offer, with the identifier of the last round.
    pub fn offer(&self) -> &Offer
        ensures { result.now ≡ self.now.offer }
    {
        &self.offer
    }

    /// Gives the offer the identifier of the next round: `O1` in the first, then `O1-2`, `O1-3`.
    /// Errors: an allocation failed; nothing is then changed.
    pub fn rename(&mut self, alloc: Global) -> Result<(), NoMemory>
        ensures ok { OnOk result (self.new ≡ renamed self.old) }
        ensures err { OnErr result (self.new ≡ self.old) }
    {
        let round = self.rounds.saturating_add(1);
        self.offer.id = round_id(alloc, self.name.as_str(), round)?;
        self.rounds = round;
        Ok(())
    }

    /// Returns whether the offer is outstanding under this identifier.
    pub fn is_outstanding(&self, id: &Id) -> bool
        ensures { result ≡ is_outstanding id.now self.now }
    {
        self.state.is_outstanding() && &self.offer.id == id
    }

    /// Returns whether the offer is outstanding under one of these identifiers.
    pub fn is_named(&self, ids: &[Id]) -> bool
        ensures { result ≡ is_named ids.now self.now }
    {
        ids.iter().any(|id| self.is_outstanding(id))
    }

    /// Notes that the stream ended: an outstanding offer is free at once.
    pub(crate) fn disconnected(&mut self, now: u64)
        ensures { self.new ≡ returned now self.old }
    {
        self.state = self.state.returned(now);
    }

    /// Notes a REVIVE: a free offer waits no longer.
    pub(crate) fn revive(&mut self)
        ensures { self.new ≡ revived self.old }
    {
        self.state = self.state.revived();
    }

    /// Notes that the named offers were declined: they are free from the time `from` on.
    pub(crate) fn declined(&mut self, ids: &[Id], from: u64)
        ensures { self.new ≡ declined ids.now from self.old }
    {
        if self.is_named(ids) {
            self.state = OfferState::Free { from };
        }
    }

    /// Notes that the offer with this identifier was rescinded: it is never made again.
    pub(crate) fn rescinded(&mut self, id: &Id)
        ensures { self.new ≡ rescinded id.now self.old }
    {
        if self.is_outstanding(id) {
            self.state = OfferState::Withdrawn;
        }
    }

    /// Notes that `tasks` tasks were launched on the named offers. Without tasks the offers are
    /// free from the time `from` on.
    pub(crate) fn accepted(&mut self, ids: &[Id], launch: u64, tasks: u64, from: u64)
        ensures { self.new ≡ accepted ids.now launch tasks from self.old }
    {
        if self.is_named(ids) {
            self.state = OfferState::accepted(launch, tasks, from);
        }
    }

    /// Notes that a task of this launch ended.
    pub(crate) fn task_ended(&mut self, launch: u64, now: u64)
        ensures { self.new ≡ after_task launch now self.old }
    {
        self.state = self.state.after_task(launch, now);
    }
}

/// Returns the identifier of a round: the name, and from the second round on its number.
fn round_id(alloc: Global, name: &str, round: u64) -> Result<Id, NoMemory>
    ensures { IfOk result (λ id. id ≡ round_id name.now round) }
{
    let mut text = String::new(alloc);
    text.push_str(name)?;
    if round >= 2 {
        text.push_str("-")?;
        text.push_str(Buffer::new().format(round))?;
    }
    Ok(Id {
        value: Text::new(text),
    })
}
