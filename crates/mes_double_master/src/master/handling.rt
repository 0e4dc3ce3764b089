//! How a test master handles calls.
ghost use Rattle.std.specs.Prelude.{◌≡◌, ◌++◌, true, length, option_copied, IfOk, OnOk, OnErr};
ghost use Rattle.std.specs.List.{list_all};
ghost use Rattle.mes_session_fit.specs.Launched.{launched, launched_by};
ghost use Rattle.mes_session_state.specs.Calls.{framework_of};
ghost use Rattle.mes_session_state.specs.Refusals.{ids_of};
ghost use Rattle.mes_double_master.specs.Masters.{IsAnswer, Counts, is_there, all_there, subscribed, launchable, accepted, declined, acknowledged, key_in, reconciled, stream_broke, torn_down, plain, agrees, carried_out, is_named, in_stream, is_subscribe, handled};
ghost use Rattle.mes_double_master.specs.Memory.{notes, MayWantMemory};

use super::Master;
use crate::answer::Answer;
use http::StatusCode;
use mes_double_http::StreamId;
use mes_double_master_state::events;
use mes_double_master_state::ids::launch;
use mes_double_master_state::updates::{has_update, key_in};
use mes_json::NoMemory;
use mes_model::{Id, TaskRef};
use mes_msg::{Acknowledge, Call, Operation};
use mes_session_state::OutstandingOffers;

impl Master {
    /// Handles a call that names `stream`, or no stream, and returns the status and the events of
    /// the response.
    ///
    /// A SUBSCRIBE gets 403 after a TEARDOWN, from another framework, or if no stream id is left.
    /// Otherwise it gets 200: the next id becomes the current stream, and no offer is outstanding.
    ///
    /// Any other call gets 403 after a TEARDOWN, without a current stream, or from another
    /// framework. It gets 400 if it names another stream or none, and otherwise 202.
    ///
    /// Errors: `NoMemory` if an allocation fails; nothing is then changed. Without the error the
    /// status would have been 200, or 202 for an ACKNOWLEDGE, a RECONCILE, or an ACCEPT whose
    /// offers are all outstanding.
    pub fn handle(&mut self, call: &Call, stream: Option<&StreamId>) -> Result<Answer, NoMemory>
        // On success: the response and the new state are those that the definition `handled`
        // states.
        ensures ok { IfOk result (λ a. IsAnswer
            (handled self.old call.now (option_copied stream.entry)) a.status a.events.items
            self.new) }
        // On success: the number of offers that the call took, and of tasks that it launched.
        ensures counts { IfOk result (λ a. Counts
            (handled self.old call.now (option_copied stream.entry)) a.taken a.launched) }
        ensures err { OnErr result (self.new ≡ self.old) }
        // An allocation fails only for a call that would make events or be recorded.
        ensures memory { OnErr result (MayWantMemory self.old call.now
            (option_copied stream.entry)) }
    {
        if self.down || !agrees(&self.framework, framework_of(call)) {
            return Ok(Answer::plain(self.alloc, StatusCode::FORBIDDEN));
        }
        if is_subscribe(call) {
            self.subscribe()
        } else {
            self.in_stream(call, stream)
        }
    }

    fn subscribe(&mut self) -> Result<Answer, NoMemory>
        ensures ok { IfOk result (λ a. IsAnswer (subscribed self.old self.old.ids) a.status
            a.events.items self.new) }
        ensures counts { IfOk result (λ a. Counts (subscribed self.old self.old.ids) a.taken
            a.launched) }
        ensures err { OnErr result (self.new ≡ self.old) }
        ensures memory { OnErr result ((subscribed self.old self.old.ids).status ≡ 200) }
    {
        if self.ids.is_empty() {
            return Ok(Answer::plain(self.alloc, StatusCode::FORBIDDEN));
        }
        let mut events = Vec::new(self.alloc);
        events.push(events::subscribed_every(self.alloc, &self.framework, self.interval)?)?;
        let id = self.ids.remove(0);
        self.stream = Some(StreamId::of_uuid(id));
        self.outstanding.clear();
        Ok(Answer {
            status: StatusCode::OK,
            events,
            taken: 0,
            launched: 0,
        })
    }

    fn in_stream(&mut self, call: &Call, given: Option<&StreamId>) -> Result<Answer, NoMemory>
        ensures ok { IfOk result (λ a. IsAnswer
            (in_stream self.old call.now self.old.stream (option_copied given.entry)) a.status
            a.events.items self.new) }
        ensures counts { IfOk result (λ a. Counts
            (in_stream self.old call.now self.old.stream (option_copied given.entry)) a.taken
            a.launched) }
        ensures err { OnErr result (self.new ≡ self.old) }
        ensures memory { OnErr result (((in_stream self.old call.now self.old.stream
            (option_copied given.entry)).status ≡ 202) × (notes self.old call.now ≡ true)) }
    {
        let Some(current) = &self.stream else {
            return Ok(Answer::plain(self.alloc, StatusCode::FORBIDDEN));
        };
        if !is_named(current, given) {
            return Ok(Answer::plain(self.alloc, StatusCode::BAD_REQUEST));
        }
        self.carry_out(call)
    }

    /// Handles a call that names the current stream.
    fn carry_out(&mut self, call: &Call) -> Result<Answer, NoMemory>
        ensures ok { IfOk result (λ a. IsAnswer (carried_out self.old call.now) a.status
            a.events.items self.new) }
        ensures counts { IfOk result (λ a. Counts (carried_out self.old call.now) a.taken
            a.launched) }
        ensures err { OnErr result (self.new ≡ self.old) }
        ensures memory { OnErr result (((carried_out self.old call.now).status ≡ 202)
            × (notes self.old call.now ≡ true)) }
    {
        match call {
            Call::Accept { body, .. } => {
                self.accept(body.offer_ids.as_slice(), body.operations.as_slice())
            }
            Call::Decline { body, .. } => Ok(self.take(body.offer_ids.as_slice())),
            Call::Acknowledge { body, .. } => self.acknowledge(body),
            Call::Reconcile { body, .. } => self.reconcile(body.tasks.as_slice()),
            Call::Teardown { .. } => Ok(self.tear_down()),
            _ => Ok(Answer::plain(self.alloc, StatusCode::ACCEPTED)),
        }
    }

    /// Handles an ACCEPT: removes its offers, and launches its tasks if all of the offers are
    /// outstanding.
    fn accept(&mut self, ids: &[Id], operations: &[Operation]) -> Result<Answer, NoMemory>
        ensures ok { IfOk result (λ a. IsAnswer
            (accepted self.old ids.now (launched launched_by operations.now)) a.status
            a.events.items self.new) }
        ensures counts { IfOk result (λ a. Counts
            (accepted self.old ids.now (launched launched_by operations.now)) a.taken
            a.launched) }
        ensures err { OnErr result (self.new ≡ self.old) }
        ensures memory { OnErr result (all_there self.old.outstanding ids.now ≡ true) }
    {
        let count = self.launch_tasks(ids, operations)?;
        let mut answer = self.take(ids);
        answer.launched = count;
        Ok(answer)
    }

    /// Launches the tasks of an ACCEPT if all of its offers are outstanding, and returns their
    /// number.
    fn launch_tasks(&mut self, ids: &[Id], operations: &[Operation]) -> Result<usize, NoMemory>
        ensures ok { OnOk result (self.new
            ≡ record self.old {
              launched = self.old.launched
                  ++ ids_of (launchable self.old ids.now (launched launched_by operations.now));
            }) }
        ensures count { IfOk result (λ count. count
            ≡ length (launchable self.old ids.now (launched launched_by operations.now))) }
        ensures err { OnErr result (self.new ≡ self.old) }
        ensures memory { OnErr result (all_there self.old.outstanding ids.now ≡ true) }
    {
        let before = self.launched.len();
        if all_there(&self.outstanding, ids) {
            launch(self.alloc, &mut self.launched, operations)?;
        }
        Ok(self.launched.len().saturating_sub(before))
    }

    /// Removes the offers that an ACCEPT or a DECLINE names.
    #[tactic(auto, using(crate::proofs::CountLemmas::counted_taken))]
    fn take(&mut self, ids: &[Id]) -> Answer
        ensures answer { IsAnswer (declined self.old ids.now) result.status result.events.items
            self.new }
        ensures counts { Counts (declined self.old ids.now) result.taken result.launched }
    {
        let before = self.outstanding.len();
        self.outstanding.remove_all(ids);
        let mut answer = Answer::plain(self.alloc, StatusCode::ACCEPTED);
        answer.taken = before.saturating_sub(self.outstanding.len());
        answer
    }

    /// Handles an ACKNOWLEDGE: records the key, if an update with this key was sent.
    fn acknowledge(&mut self, body: &Acknowledge) -> Result<Answer, NoMemory>
        ensures ok { IfOk result (λ a. IsAnswer
            (plain 202 (acknowledged self.old (key_in body.now))) a.status a.events.items
            self.new) }
        ensures counts { IfOk result (λ a. Counts
            (plain 202 (acknowledged self.old (key_in body.now))) a.taken a.launched) }
        ensures err { OnErr result (self.new ≡ self.old) }
    {
        let key = key_in(self.alloc, body)?;
        if has_update(&self.owing, &key) {
            self.acked.add(key)?;
        }
        Ok(Answer::plain(self.alloc, StatusCode::ACCEPTED))
    }

    /// Handles a RECONCILE: returns an UPDATE of the last status of each task that it asks for.
    fn reconcile(&self, tasks: &[TaskRef]) -> Result<Answer, NoMemory>
        ensures ok { IfOk result (λ a. IsAnswer (reconciled self.now tasks.now) a.status
            a.events.items self.now) }
        ensures counts { IfOk result (λ a. Counts (reconciled self.now tasks.now) a.taken
            a.launched) }
    {
        let events = events::reconcile(self.alloc, &self.latest, tasks)?;
        Ok(Answer {
            status: StatusCode::ACCEPTED,
            events,
            taken: 0,
            launched: 0,
        })
    }

    /// Notes that the current stream was disconnected: there is no current stream, and no offer is
    /// outstanding, until the next SUBSCRIBE. Does nothing without a stream. Does not allocate.
    pub fn broken(&mut self)
        ensures { self.new ≡ stream_broke self.old }
    {
        if self.stream.take().is_some() {
            self.outstanding.clear();
        }
    }

    /// Handles a TEARDOWN: ends the stream and removes all offers.
    fn tear_down(&mut self) -> Answer
        ensures answer { IsAnswer (plain 202 (torn_down self.old)) result.status
            result.events.items self.new }
        ensures counts { Counts (plain 202 (torn_down self.old)) result.taken result.launched }
    {
        self.stream = None;
        self.down = true;
        self.outstanding.clear();
        Answer::plain(self.alloc, StatusCode::ACCEPTED)
    }
}

fn is_there(offers: &OutstandingOffers, id: &Id) -> bool
    ensures { result ≡ is_there offers.now id.now }
{
    offers.get(id.value.as_str()).is_some()
}

/// Returns whether at least one offer is named and all named offers are outstanding.
fn all_there(offers: &OutstandingOffers, ids: &[Id]) -> bool
    ensures { result ≡ all_there offers.now ids.now }
{
    if ids.is_empty() {
        return false;
    }
    are_there(offers, ids)
}

fn are_there(offers: &OutstandingOffers, ids: &[Id]) -> bool
    ensures { result ≡ list_all (is_there offers.now) ids.now }
{
    ids.iter().all(|id| is_there(offers, id))
}

/// Returns whether `other` is absent or the same framework as `framework`.
fn agrees(framework: &Id, other: Option<&Id>) -> bool
    ensures { result ≡ agrees framework.now (option_copied other.entry) }
{
    match other {
        Some(other) => framework == other,
        None => true,
    }
}

/// Returns the framework that a call names.
fn framework_of(call: &Call) -> Option<&Id>
    ensures { option_copied result ≡ framework_of call.now }
{
    match call {
        Call::Subscribe { framework_id, .. } => framework_id.as_ref(),
        Call::Accept { framework_id, .. }
        | Call::Decline { framework_id, .. }
        | Call::Revive { framework_id }
        | Call::Kill { framework_id, .. }
        | Call::Acknowledge { framework_id, .. }
        | Call::Reconcile { framework_id, .. }
        | Call::Teardown { framework_id }
        | Call::Suppress { framework_id }
        | Call::Shutdown { framework_id, .. }
        | Call::Message { framework_id, .. } => Some(framework_id),
    }
}

fn is_subscribe(call: &Call) -> bool
    ensures { result ≡ is_subscribe call.now }
{
    matches!(call, Call::Subscribe { .. })
}

/// Returns whether `given`, the stream that a call names, is the current stream.
fn is_named(current: &StreamId, given: Option<&StreamId>) -> bool
    ensures { result ≡ is_named current.now (option_copied given.entry) }
{
    match given {
        Some(given) => current.as_str() == given.as_str(),
        None => false,
    }
}
