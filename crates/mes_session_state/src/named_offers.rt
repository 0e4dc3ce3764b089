//! The offers that a call names, looked up among the outstanding offers.
ghost use Rattle.std.specs.Prelude.{◌≡◌, ℕ, ◌<◌, false, Some, length, slice_get, IfSome, IfNone};
ghost use Rattle.std.specs.List.{list_any};
ghost use Rattle.mes_session_fit.specs.Launched.{launched, as_index};
ghost use Rattle.mes_session_state.specs.Refusals.{offers_named, agent_of, is_agent, has_two_agents, is_elsewhere};
ghost use Rattle.mes_session_state.specs.Looking.{IsFirstAt, is_missing, AreOutstanding};

use crate::outstanding_offers::OutstandingOffers;
use mes_model::{Id, Offer, TaskInfo};
use mes_session_fit::{OfferList, TaskGroup};
use std::marker::Model;

fn is_missing(hand: &OutstandingOffers, id: &Id) -> bool
    ensures { result ≡ is_missing hand.now id.now }
{
    hand.get(id.value.as_str()).is_none()
}

/// Returns the index of the first identifier that no outstanding offer has.
pub(crate) fn missing(hand: &OutstandingOffers, ids: &[Id]) -> Option<usize>
    ensures some { IfSome result (IsFirstAt (is_missing hand.now) ids.now) }
    ensures none { IfNone result (AreOutstanding hand.now ids.now) }
{
    for index in 0..ids.len() {
        if is_missing(hand, &ids[index]) {
            return Some(index);
        }
    }
    None
}

/// Returns the outstanding offer with the identifier at `index`. All identifiers must be those of
/// outstanding offers.
fn offer_at<'a>(hand: &'a OutstandingOffers, ids: &[Id], index: usize) -> &'a Offer
    requires within { index < length ids.now }
    requires there { AreOutstanding hand.now ids.now }
    ensures { slice_get (offers_named hand.now ids.now) index ≡ Some result.now }
{
    hand.get(ids[index].value.as_str()).unwrap()
}

/// The outstanding offers with the given identifiers. Each identifier has such an offer. In
/// contracts the value is the list of the offers.
#[derive(Drop)]
pub(crate) struct NamedOffers<'a> {
    hand: &'a OutstandingOffers,
    ids: &'a [Id],
}

impl<'a> Model for NamedOffers<'a> {
    ghost use Rattle.std.specs.Prelude.{List};
    ghost use Rattle.std.specs.Coded.{codes};
    ghost use Rattle.mes_model_schema.specs.MembersCode.{members_code};
    ghost use Rattle.mes_model.specs.Offer.{Offer as OfferValue};
    ghost use Rattle.mes_session_state.specs.Refusals.{offers_named};
    ghost use Rattle.mes_session_state.specs.Looking.{AreOutstanding};

    ghost Value = { List OfferValue };

    ghost coded = { Prim.hlevel (codes, members_code) };

    ghost view = { λ n. offers_named n.hand.now n.ids.now };

    ghost invariant = { λ n. AreOutstanding n.hand.now n.ids.now };
}

impl<'a> NamedOffers<'a> {
    pub(crate) fn new(hand: &'a OutstandingOffers, ids: &'a [Id]) -> NamedOffers<'a>
        requires { AreOutstanding hand.now ids.now }
        ensures { result ≡ offers_named hand.now ids.now }
    {
        NamedOffers { hand, ids }
    }
}

impl<'a> OfferList for NamedOffers<'a> {
    ghost offers = { λ named. named };

    fn count(&self) -> usize {
        self.ids.len()
    }

    fn get_index(&self, index: usize) -> &Offer {
        offer_at(self.hand, self.ids, index)
    }
}

/// Returns whether there are offers and the first is on the agent `agent`.
fn are_on(offers: &NamedOffers<'_>, agent: &Id) -> bool
    ensures { result ≡ is_agent (agent_of offers.now) agent.now }
{
    if offers.count() == 0 {
        return false;
    }
    &offers.get_index(0).agent_id == agent
}

/// Returns whether one of the offers is on another agent than the first.
pub(crate) fn two_agents(offers: &NamedOffers<'_>) -> bool
    ensures { result ≡ has_two_agents offers.now }
{
    for index in 0..offers.count() {
        if !are_on(offers, &offers.get_index(index).agent_id) {
            return true;
        }
    }
    false
}

/// Returns the index of the first task that is not on the agent of the first offer.
fn task_on_other_agent(offers: &NamedOffers<'_>, tasks: &[TaskInfo]) -> Option<usize>
    ensures some { IfSome result (IsFirstAt (is_elsewhere offers.now) tasks.now) }
    ensures none { IfNone result (list_any (is_elsewhere offers.now) tasks.now ≡ false) }
{
    for index in 0..tasks.len() {
        if !are_on(offers, &tasks[index].agent_id) {
            return Some(index);
        }
    }
    None
}

/// Returns the index, over all groups, of the first task that is not on the agent of the first
/// offer.
pub(crate) fn on_other_agent<L: TaskGroup>(
    offers: &NamedOffers<'_>,
    launches: &[L],
) -> Option<usize>
    ensures some { IfSome result (λ n. (i : ℕ) × (n ≡ as_index i)
        × IsFirstAt (is_elsewhere offers.now) (launched L.tasks launches.now) i) }
    ensures none { IfNone result (list_any (is_elsewhere offers.now) (launched L.tasks launches.now)
        ≡ false) }
{
    let mut before: usize = 0;
    for at in 0..launches.len() {
        let tasks = launches[at].tasks();
        if let Some(task) = task_on_other_agent(offers, tasks) {
            return Some(before.saturating_add(task));
        }
        before = before.saturating_add(tasks.len());
    }
    None
}
