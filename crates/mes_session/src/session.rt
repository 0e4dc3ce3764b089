//! The state of a session. The methods that make calls are in `calls.rt`.
ghost use Rattle.std.specs.Prelude.{◌≡◌, ◌<◌, None, Some, [], length, slice_get, option_copied, OnOk, OnErr, IfErr};
ghost use Rattle.mes_msg.specs.declared.entry.Entry.TheVariants.{Heard, Said, Broken};
ghost use Rattle.mes_session_state.specs.Held.{offer_in};
ghost use Rattle.mes_session_state.specs.Refusals.{Answers};
ghost use Rattle.mes_model.specs.Owed.{Owes};
ghost use Rattle.mes_session.specs.History.{Represents, StandsNext, at_first, after, NeedsMemory};
ghost use Rattle.mes_session.specs.Making.{Applied, Passes, IsTurnedAway};

use mes_json::NoMemory;
use mes_model::{Id, Offer, OwedKey};
use mes_model_schema::{List, Part};
use mes_msg::{Call, Entry, Event, Rescind, Subscribed, Update};
use mes_session_state::{CallCheck, OutstandingOffers, Refusal, UpdateKeys};
use std::alloc::Global;
use std::marker::Model;

/// The session of a framework with its master. In contracts the value is a `Held`: the framework,
/// whether the stream is connected, the outstanding offers and the keys of the unacknowledged
/// updates. A session does not retain the history.
#[derive(Drop)]
pub struct Session {
    pub(crate) alloc: Global,
    pub(crate) framework: Option<Id>,
    connected: bool,
    hand: OutstandingOffers,
    owed: UpdateKeys,
}

impl Model for Session {
    ghost use Rattle.std.specs.Coded.{codes};
    ghost use Rattle.mes_model_schema.specs.MembersCode.{members_code};
    ghost use Rattle.mes_session_state.specs.Held.{Held};

    ghost Value = { Held };

    ghost coded = { Prim.hlevel (codes, members_code) };

    ghost view = { λ s. record {
      framework = s.framework;
      connected = s.connected;
      hand = s.hand;
      owed = s.owed;
    } };
}

impl Session {
    /// Returns a session without a history. Does not allocate; later calls allocate from `alloc`.
    pub fn new(alloc: Global) -> Session
        ensures is { result ≡ at_first }
        ensures represents { Represents [] result }
    {
        Session {
            alloc,
            framework: None,
            connected: false,
            hand: OutstandingOffers::new(alloc),
            owed: UpdateKeys::new(alloc),
        }
    }

    /// Returns the framework of the last SUBSCRIBED. Like all getters of a session, does not
    /// allocate.
    pub fn framework(&self) -> Option<&Id>
        ensures { option_copied result ≡ self.now.framework }
    {
        self.framework.as_ref()
    }

    /// Returns whether a SUBSCRIBED was received since the stream was last disconnected.
    pub fn connected(&self) -> bool
        ensures { result ≡ self.now.connected }
    {
        self.connected
    }

    /// Returns the number of outstanding offers.
    pub fn hand_len(&self) -> usize
        ensures { result ≡ length self.now.hand }
    {
        self.hand.len()
    }

    /// Returns the outstanding offer at an index, in the order of arrival.
    pub fn hand_at(&self, index: usize) -> Option<&Offer>
        ensures { option_copied result ≡ slice_get self.now.hand index }
    {
        self.hand.get_index(index)
    }

    /// Returns the outstanding offer with the identifier `id`, in a time independent of the number
    /// of offers.
    pub fn offer(&self, id: &str) -> Option<&Offer>
        ensures { option_copied result ≡ offer_in self.now.hand id.now }
    {
        self.hand.get(id)
    }

    /// Returns the number of unacknowledged updates.
    pub fn owed_len(&self) -> usize
        ensures { result ≡ length self.now.owed }
    {
        self.owed.len()
    }

    /// Returns the key of the unacknowledged update at an index, in the order of arrival.
    pub fn owed_at(&self, index: usize) -> Option<&OwedKey>
        ensures { option_copied result ≡ slice_get self.now.owed index }
    {
        self.owed.get_index(index)
    }

    /// Applies an event received from the master:
    /// - SUBSCRIBED sets the framework and clears the outstanding offers;
    /// - OFFERS adds its offers; if one identifier occurs twice, the later offer wins;
    /// - RESCIND removes the offer that it names, if that offer is outstanding;
    /// - UPDATE records the key of its status, if the status requires an acknowledgement.
    ///
    /// Errors: S8 (out of memory); the session is then unchanged. Only SUBSCRIBED, an OFFERS that
    /// is not empty, and an UPDATE that requires an acknowledgement allocate.
    pub fn heard(&mut self, event: &Event) -> Result<(), Refusal>
        // On success the session has the state after the event.
        ensures next { OnOk result (self.new ≡ after self.old (Heard event.now)) }
        ensures represents { OnOk result (StandsNext (Heard event.now) self.old self.new) }

        // Each error is S8 (out of memory), for an event that allocates.
        ensures err { IfErr result (λ refusal. refusal ≡ Refusal.NoMemory) }
        ensures needs { OnErr result (NeedsMemory event.now) }
        ensures same { OnErr result (self.new ≡ self.old) }
    {
        self.apply_event(event)?;
        Ok(())
    }

    /// Checks a call as [`said`](Self::said) does, but does not apply it. Does not allocate. Errors:
    /// the first of the reasons S1 to S7 that applies, never S8.
    pub fn check(&self, call: &Call) -> Result<(), Refusal>
        // On success: the call is allowed.
        ensures ok { OnOk result (Answers self.now call.now None) }

        // Each error is the first reason against the call.
        ensures err { IfErr result (λ refusal. Answers self.now call.now (Some refusal)) }
    {
        match self.standing().refusal(call) {
            Some(refusal) => Err(refusal),
            None => Ok(()),
        }
    }

    /// Applies a call that is sent to the master. ACCEPT and DECLINE remove the offers that they
    /// name; ACKNOWLEDGE removes the key that it names. Does not allocate. Errors: the first of the
    /// reasons S1 to S7 that applies, never S8; the session is then unchanged.
    pub fn said(&mut self, call: &Call) -> Result<(), Refusal>
        // On success: the call is allowed and applied.
        ensures ok { OnOk result (Applied self.old call.now self.new) }

        // Each error is the first reason against the call.
        ensures err { IfErr result (λ refusal. Answers self.old call.now (Some refusal)) }
        ensures same { OnErr result (self.new ≡ self.old) }
    {
        self.check(call)?;
        self.apply(call);
        Ok(())
    }

    /// Records that the stream is disconnected: no offer is outstanding, and only SUBSCRIBE is
    /// allowed until the next SUBSCRIBED. The framework and the unacknowledged updates stay. Does
    /// not allocate.
    pub fn broken(&mut self)
        ensures next { self.new ≡ after self.old Broken }
        ensures represents { StandsNext Broken self.old self.new }
    {
        self.connected = false;
        self.hand.clear();
    }

    /// Borrows the session's state to check calls against it.
    pub(crate) fn standing(&self) -> CallCheck<'_>
        ensures { result ≡ self.now }
    {
        CallCheck::new(
            self.framework.as_ref(),
            self.connected,
            &self.hand,
            &self.owed,
        )
    }

    fn apply_event(&mut self, event: &Event) -> Result<(), NoMemory>
        ensures next { OnOk result (self.new ≡ after self.old (Heard event.now)) }
        ensures needs { OnErr result (NeedsMemory event.now) }
        ensures same { OnErr result (self.new ≡ self.old) }
    {
        match event {
            Event::Subscribed(body) => self.subscribed(body),
            Event::Offers(offers) => self.offered(offers),
            Event::Rescind(body) => {
                self.rescinded(body);
                Ok(())
            }
            Event::Update(body) => self.updated(body),
            Event::Message(_) => Ok(()),
            Event::Failure(_) => Ok(()),
            Event::Error(_) => Ok(()),
            Event::Heartbeat => Ok(()),
            Event::Other(_) => Ok(()),
        }
    }

    fn subscribed(&mut self, body: &Subscribed) -> Result<(), NoMemory>
        ensures next { OnOk result (self.new ≡ after self.old (Heard (Event.Subscribed body.now))) }
        ensures same { OnErr result (self.new ≡ self.old) }
    {
        let framework = body.framework_id.copy(self.alloc)?;
        self.framework = Some(framework);
        self.connected = true;
        self.hand.clear();
        Ok(())
    }

    fn offered(&mut self, offers: &List<Offer>) -> Result<(), NoMemory>
        ensures next { OnOk result (self.new ≡ after self.old (Heard (Event.Offers offers.now))) }
        ensures needs { OnErr result (0 < length offers.now) }
        ensures same { OnErr result (self.new ≡ self.old) }
    {
        self.hand.add(self.alloc, offers.as_slice())
    }

    fn rescinded(&mut self, body: &Rescind)
        ensures { self.new ≡ after self.old (Heard (Event.Rescind body.now)) }
    {
        self.hand.remove(body.offer_id.value.as_str());
    }

    fn updated(&mut self, body: &Update) -> Result<(), NoMemory>
        ensures next { OnOk result (self.new ≡ after self.old (Heard (Event.Update body.now))) }
        ensures needs { OnErr result (Owes body.now.status) }
        ensures same { OnErr result (self.new ≡ self.old) }
    {
        let status = body.status.get();
        if !status.owes() {
            return Ok(());
        }
        match status.owed_key(self.alloc)? {
            Some(key) => self.owed.add(key),
            None => Ok(()),
        }
    }

    /// Removes the offers or the key that a call names.
    pub(crate) fn apply(&mut self, call: &Call)
        ensures { self.new ≡ after self.old (Said call.now) }
    {
        match call {
            Call::Accept { body, .. } => self.hand.remove_all(body.offer_ids.as_slice()),
            Call::Decline { body, .. } => self.hand.remove_all(body.offer_ids.as_slice()),
            Call::Acknowledge { body, .. } => {
                self.owed
                    .remove_key(&body.agent_id, &body.task_id, &body.uuid)
            }
            _ => {}
        }
    }

    /// Applies an entry of a history to the session.
    pub(crate) fn apply_entry(&mut self, entry: &Entry) -> Result<(), Refusal>
        ensures next { OnOk result (self.new ≡ after self.old entry.now) }
        ensures err { IfErr result (λ refusal. IsTurnedAway self.old entry.now refusal) }
        ensures passes { OnOk result (Passes self.old entry.now) }
    {
        match entry {
            Entry::Heard(event) => self.heard(event),
            Entry::Said(call) => self.said(call),
            Entry::Broken => {
                self.broken();
                Ok(())
            }
        }
    }
}
