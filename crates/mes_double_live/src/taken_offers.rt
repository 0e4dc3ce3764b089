//! The outstanding offers that a call names.
ghost use Rattle.std.specs.Prelude.{◌≡◌, ◌<◌, true, false, length, slice_get, Some, IfOk};
ghost use Rattle.std.specs.List.{list_all};
ghost use Rattle.std.specs.Str.{bytes_eq};
ghost use Rattle.mes_model.specs.Offer.{Offer as OfferValue};
ghost use Rattle.mes_session_state.specs.Refusals.{has_two_agents};
ghost use Rattle.mes_double_master.specs.Agents.{are_of};
ghost use Rattle.mes_double_master.specs.Masters.{all_there, is_there, named};

use mes_json::NoMemory;
use mes_model::{Id, Offer};
use mes_session_fit::OfferList;
use mes_session_state::OutstandingOffers;
use std::alloc::Global;
use std::marker::Model;

/// The outstanding offers that a call names, each once, in the order in which they were made. In
/// contracts the value is the list of the offers.
#[derive(Drop)]
pub(crate) struct TakenOffers<'a> {
    offers: Vec<&'a Offer>,
}

impl<'a> Model for TakenOffers<'a> {
    ghost use Rattle.std.specs.Prelude.{List, map};
    ghost use Rattle.std.specs.Coded.{codes};
    ghost use Rattle.mes_model_schema.specs.MembersCode.{members_code};
    ghost use Rattle.mes_model.specs.Offer.{Offer as OfferValue};

    ghost Value = { List OfferValue };

    ghost coded = { Prim.hlevel (codes, members_code) };

    ghost view = { λ t. map (λ offer. offer.now) t.offers.items };
}

impl<'a> TakenOffers<'a> {
    /// Returns the outstanding offers with these identifiers.
    pub fn of(
        alloc: Global,
        outstanding: &'a OutstandingOffers,
        ids: &[Id],
    ) -> Result<TakenOffers<'a>, NoMemory>
        ensures { IfOk result (λ taken. taken ≡ named ids.now outstanding.now) }
    {
        let mut offers = Vec::new(alloc);
        for index in 0..outstanding.len() {
            let Some(offer) = outstanding.get_index(index) else {
                continue;
            };
            if ids.contains(&offer.id) {
                offers.push(offer)?;
            }
        }
        Ok(TakenOffers { offers })
    }

    /// Returns whether all of the offers are of this agent.
    pub fn are_of(&self, agent: &Id) -> bool
        ensures { result ≡ false → are_of agent.now self.now ≡ false }
    {
        for index in 0..self.offers.len() {
            if !self.is_of(index, agent) {
                return false;
            }
        }
        true
    }

    /// Returns whether the offer at an index is of this agent.
    fn is_of(&self, index: usize, agent: &Id) -> bool
        requires { index < length self.now }
        ensures { (o : OfferValue) × (slice_get self.now index ≡ Some o)
            × (result ≡ bytes_eq o.agent_id.value agent.now.value) }
    {
        &self.offers[index].agent_id == agent
    }

    /// Returns whether all of the offers are of one agent.
    pub fn are_of_one_agent(&self) -> bool
        ensures { result ≡ false → has_two_agents self.now ≡ true }
    {
        if self.offers.is_empty() {
            return true;
        }
        self.are_of(self.first_agent())
    }

    /// Returns the agent of the first offer.
    fn first_agent(&self) -> &Id
        requires { 0 < length self.now }
        ensures { (o : OfferValue) × (slice_get self.now 0 ≡ Some o) × (result.now ≡ o.agent_id) }
    {
        &self.offers[0].agent_id
    }
}

impl<'a> OfferList for TakenOffers<'a> {
    ghost offers = { λ taken. taken };

    fn count(&self) -> usize {
        self.offers.len()
    }

    fn get_index(&self, index: usize) -> &Offer {
        self.offers[index]
    }
}

/// Returns whether at least one offer is named, and all named offers are outstanding.
pub(crate) fn all_there(outstanding: &OutstandingOffers, ids: &[Id]) -> bool
    ensures { result ≡ all_there outstanding.now ids.now }
{
    if ids.is_empty() {
        return false;
    }
    are_there(outstanding, ids)
}

fn are_there(outstanding: &OutstandingOffers, ids: &[Id]) -> bool
    ensures { result ≡ list_all (is_there outstanding.now) ids.now }
{
    ids.iter().all(|id| is_there(outstanding, id))
}

fn is_there(outstanding: &OutstandingOffers, id: &Id) -> bool
    ensures { result ≡ is_there outstanding.now id.now }
{
    outstanding.get(id.value.as_str()).is_some()
}
