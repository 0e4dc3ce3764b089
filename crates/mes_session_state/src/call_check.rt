//! Checks of calls against the state of a session. The reasons for a refusal are in `refusal.rt`.
ghost use Rattle.std.specs.Prelude.{◌≡◌, ◌↔◌, [], Option as option, option_copied, IsTrue, IsFalse, IfNone, IsSome};
ghost use Rattle.mes_model.specs.Id.{Id as IdValue};
ghost use Rattle.mes_model.specs.declared.filters.Filters.{Filters};
ghost use Rattle.mes_msg.specs.Call.{Call as CallValue};
ghost use Rattle.mes_session_fit.specs.Launched.{launched};
ghost use Rattle.mes_session_state.specs.Calls.{framework_of, accept_call, decline_call, acknowledge_call};
ghost use Rattle.mes_session_state.specs.Refusals.{IsOtherFramework, IsOtherSubscription, IsForeign, IsFaultyIn, ReportsFirst, Answers, IsOwn, IsPlain};

use crate::duplicates::{is_duplicated, task_is_duplicated};
use crate::named_offers::{NamedOffers, missing, on_other_agent, two_agents};
use crate::outstanding_offers::OutstandingOffers;
use crate::refusal::Refusal;
use crate::update_keys::UpdateKeys;
use mes_model::{Id, OwedKey, TaskInfo};
use mes_msg::Call;
use mes_session_fit::{TaskGroup, first_breach};
use std::marker::Model;

/// The borrowed state of a session, to check calls against. In contracts its value is `Held`.
#[derive(Drop)]
pub struct CallCheck<'a> {
    framework: Option<&'a Id>,
    connected: bool,
    hand: &'a OutstandingOffers,
    owed: &'a UpdateKeys,
}

impl<'a> Model for CallCheck<'a> {
    ghost use Rattle.std.specs.Prelude.{option_copied};
    ghost use Rattle.std.specs.Coded.{codes};
    ghost use Rattle.mes_model_schema.specs.MembersCode.{members_code};
    ghost use Rattle.mes_session_state.specs.Held.{Held};

    ghost Value = { Held };

    ghost coded = { Prim.hlevel (codes, members_code) };

    ghost view = { λ s. record {
      framework = option_copied s.framework;
      connected = s.connected;
      hand = s.hand.now;
      owed = s.owed.now;
    } };
}

impl<'a> CallCheck<'a> {
    /// Borrows the parts of a session's state: the framework, if known; whether the stream is
    /// connected; the outstanding offers; the unacknowledged updates.
    pub fn new(
        framework: Option<&'a Id>,
        connected: bool,
        hand: &'a OutstandingOffers,
        owed: &'a UpdateKeys,
    ) -> CallCheck<'a>
        // The value is the state with these parts.
        ensures { result ≡ record {
          framework = option_copied framework.entry;
          connected = connected;
          hand = hand.now;
          owed = owed.now;
        } }
    {
        CallCheck {
            framework,
            connected,
            hand,
            owed,
        }
    }

    /// Returns the first of the reasons S1 to S7 of [`Refusal`] that applies to the call, or
    /// `None`. Does not allocate: S2 compares the identifiers of the offers pairwise, and those of
    /// the tasks. Looking up each offer takes a time independent of the number of outstanding
    /// offers.
    pub fn refusal(&self, call: &Call) -> Option<Refusal>
        ensures { Answers self.now call.now result }
    {
        if self.is_foreign(call) {
            return Some(Refusal::NotSubscribed);
        }
        match call {
            Call::Accept { body, .. } => {
                self.fault_of_accept(body.offer_ids.as_slice(), body.operations.as_slice())
            }
            Call::Decline { body, .. } => self.fault_of_decline(body.offer_ids.as_slice()),
            Call::Acknowledge { body, .. } => {
                let owed = self.owed.has(&body.agent_id, &body.task_id, &body.uuid);
                if owed { None } else { Some(Refusal::NotOwed) }
            }
            _ => None,
        }
    }

    /// Like [`CallCheck::refusal`], but for an ACCEPT of the offers `ids` by the known framework.
    /// The ACCEPT has one LAUNCH of `tasks`, or no operation if `tasks` is empty.
    pub fn refusal_of_accept(&self, ids: &[Id], tasks: &[TaskInfo]) -> Option<Refusal>
        // The first reason against this ACCEPT, whatever its `filters` member is.
        ensures answers { (framework : IdValue) (filters : option Filters)
            → IsOwn self.now framework → Answers self.now
            (accept_call framework ids.now tasks.now filters) result }
        ensures known { IfNone result (IsSome self.now.framework) }
    {
        if self.is_disconnected() {
            return Some(Refusal::NotSubscribed);
        }
        self.fault_of_accept(ids, &[tasks])
    }

    /// Like [`CallCheck::refusal`], but for a DECLINE of the offers `ids` by the known framework.
    pub fn refusal_of_decline(&self, ids: &[Id]) -> Option<Refusal>
        // The first reason against this DECLINE, whatever its `filters` member is.
        ensures answers { (framework : IdValue) (filters : option Filters)
            → IsOwn self.now framework → Answers self.now (decline_call framework ids.now filters)
            result }
        ensures known { IfNone result (IsSome self.now.framework) }
    {
        if self.is_disconnected() {
            return Some(Refusal::NotSubscribed);
        }
        self.fault_of_decline(ids)
    }

    /// Like [`CallCheck::refusal`], but for the ACKNOWLEDGE of the update `key` by the known
    /// framework.
    pub fn refusal_of_acknowledge(&self, key: &OwedKey) -> Option<Refusal>
        // The first reason against this ACKNOWLEDGE.
        ensures answers { (framework : IdValue) → IsOwn self.now framework
            → Answers self.now (acknowledge_call framework key.now) result }
        ensures known { IfNone result (IsSome self.now.framework) }
    {
        if self.is_disconnected() {
            return Some(Refusal::NotSubscribed);
        }
        if self.owed.contains(key) {
            None
        } else {
            Some(Refusal::NotOwed)
        }
    }

    /// Like [`CallCheck::refusal`], but for a REVIVE, KILL, RECONCILE, TEARDOWN, SUPPRESS, SHUTDOWN
    /// or MESSAGE of the known framework. The only possible reason is S1.
    pub fn refusal_of_plain(&self) -> Option<Refusal>
        // The first reason against any of these calls.
        ensures answers { (framework : IdValue) (call : CallValue) → IsOwn self.now framework
            → framework_of call ≡ Some framework → IsPlain call → Answers self.now call result }
        ensures known { IfNone result (IsSome self.now.framework) }
    {
        if self.is_disconnected() {
            return Some(Refusal::NotSubscribed);
        }
        None
    }

    /// Returns whether no framework is known, or no SUBSCRIBED was received since the stream was
    /// last disconnected.
    fn is_disconnected(&self) -> bool
        ensures strange { (framework : IdValue) → IsOwn self.now framework
            → IsTrue result ↔ IsOtherFramework self.now framework }
        ensures known { IsFalse result → IsSome self.now.framework }
    {
        !self.connected || self.framework.is_none()
    }

    /// Returns whether a call from `framework` is refused for S1: the stream is disconnected, or
    /// this is not the known framework.
    fn is_other_framework(&self, framework: &Id) -> bool
        ensures { IsTrue result ↔ IsOtherFramework self.now framework.now }
    {
        match self.framework {
            Some(known) => !self.connected || known != framework,
            None => true,
        }
    }

    /// Returns whether a SUBSCRIBE that names `named` is refused for S1: another framework is
    /// known.
    fn is_other_subscription(&self, named: &Option<Id>) -> bool
        ensures { IsTrue result ↔ IsOtherSubscription self.now named.now }
    {
        match (self.framework, named) {
            (Some(known), Some(named)) => named != known,
            _ => false,
        }
    }

    fn is_foreign(&self, call: &Call) -> bool
        ensures { IsTrue result ↔ IsForeign self.now call.now }
    {
        match call {
            Call::Subscribe { framework_id, .. } => self.is_other_subscription(framework_id),
            Call::Accept { framework_id, .. } => self.is_other_framework(framework_id),
            Call::Decline { framework_id, .. } => self.is_other_framework(framework_id),
            Call::Revive { framework_id } => self.is_other_framework(framework_id),
            Call::Kill { framework_id, .. } => self.is_other_framework(framework_id),
            Call::Acknowledge { framework_id, .. } => self.is_other_framework(framework_id),
            Call::Reconcile { framework_id, .. } => self.is_other_framework(framework_id),
            Call::Teardown { framework_id } => self.is_other_framework(framework_id),
            Call::Suppress { framework_id } => self.is_other_framework(framework_id),
            Call::Shutdown { framework_id, .. } => self.is_other_framework(framework_id),
            Call::Message { framework_id, .. } => self.is_other_framework(framework_id),
        }
    }

    /// Returns the first of the reasons S2 to S6 that applies to an ACCEPT of the offers `ids` with
    /// the tasks of `launches`.
    fn fault_of_accept<L: TaskGroup>(&self, ids: &[Id], launches: &[L]) -> Option<Refusal>
        ensures { ReportsFirst (IsFaultyIn self.now
            (record {
              named = ids.now;
              accepted = ids.now;
              tasks = launched L.tasks launches.now;
              acknowledged = None;
            })) result }
    {
        if is_duplicated(ids) || task_is_duplicated(launches) {
            return Some(Refusal::NamedTwice);
        }
        if let Some(index) = missing(self.hand, ids) {
            return Some(Refusal::NoSuchOffer { index });
        }
        let offers = NamedOffers::new(self.hand, ids);
        if two_agents(&offers) {
            return Some(Refusal::TwoAgents);
        }
        if let Some(task) = on_other_agent(&offers, launches) {
            return Some(Refusal::WrongAgent { task });
        }
        let breach = first_breach(&offers, launches)?;
        Some(Refusal::Exceeds {
            task: breach.task,
            resource: breach.resource,
        })
    }

    /// Returns the first of the reasons S2 and S3 that applies to a DECLINE of the offers `ids`.
    fn fault_of_decline(&self, ids: &[Id]) -> Option<Refusal>
        ensures { ReportsFirst (IsFaultyIn self.now
            (record { named = ids.now; accepted = []; tasks = []; acknowledged = None })) result }
    {
        if is_duplicated(ids) {
            return Some(Refusal::NamedTwice);
        }
        let index = missing(self.hand, ids)?;
        Some(Refusal::NoSuchOffer { index })
    }
}
