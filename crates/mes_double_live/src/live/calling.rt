//! How a live test master handles calls.
ghost use Rattle.std.specs.Prelude.{◌≡◌, [], ◌∷◌, ◌++◌, true, false, is_some, None as none, option_copied, IfOk, OnOk};
ghost use Rattle.std.specs.List.{AllByRecursion};
ghost use Rattle.mes_session_state.specs.Calls.{tasks_of};
ghost use Rattle.mes_double_master.specs.Masters.{handled, is_subscribe, IsAnswer};
ghost use Rattle.mes_double_live.specs.Calling.{carrying, demanded_by, opened_by, removing, responding, sender};
ghost use Rattle.mes_double_live.specs.Lives.{call_counted, call_status, planned_fault, reply_fault, resets, status_by};
ghost use Rattle.mes_double_live.specs.Logs.{call_answered, IsLogged};
ghost use Rattle.mes_double_live.specs.Moving.{Moves};
ghost use Rattle.mes_double_live.specs.Opening.{ChangesBy, beginning, replacing, sending, unacknowledged};
ghost use Rattle.mes_double_live.specs.Steps.{BeginsWith, Handles, StepsTo, IsDelivering, IsNoOffers, IsNoting, IsOfCall};
ghost use Rattle.mes_double_live.specs.Steps.Step.{clears};

use super::{Live, MAX_AHEAD};
use crate::fault::LiveFault;
use crate::reply::{EndedStream, Reply};
use http::StatusCode;
use mes_double_faults::{CallFault, Fault};
use mes_double_http::StreamId;
use mes_double_master::Answer;
use mes_json::{NoMemory, Text};
use mes_model::Id;
use mes_model_schema::Part;
use mes_msg::{Call, ErrorBody, Event};

/// The message of the ERROR that ends a stream when the framework subscribes again.
const FAILED_OVER: &str = "Framework failed over";

impl Live {
    /// Handles a call that names `stream`, or no stream. The statuses are those of
    /// [`Master::handle`](mes_double_master::Master::handle); or 503, for as many calls as BUSY came,
    /// which are not carried out. A planned fault decides the status of its call too: 503, and the call
    /// is not carried out (`busy`, `reset`); or 403, and a call on the current stream is carried out as
    /// a TEARDOWN (`gone`).
    ///
    /// A SUBSCRIBE with status 200 ends the current stream with an ERROR, and opens a new one. On
    /// it are SUBSCRIBED, a HEARTBEAT, the unacknowledged updates, the offers that are free, and
    /// the events from outside that waited, as far as [`Live::passed`] sends none later.
    pub fn call(&mut self, stream: Option<&StreamId>, call: &Call) -> Result<Reply, LiveFault>
        // The test master changes only by its own deeds, and what these launch fits.
        ensures moves { Moves self.old.master self.new.master }
        // Once the call was counted, the steps are first those that it and its fault demand. On a new
        // stream, these send SUBSCRIBED, a HEARTBEAT, and then the unacknowledged updates.
        ensures steps { OnOk result (BeginsWith (IsOfCall call.now)
            (responding (reply_fault self.old) (call_counted self.old) call.now
            (option_copied stream.entry)) (call_counted self.old) self.new) }
        ensures status { IfOk result (λ reply. reply.status
            ≡ call_status self.old call.now (option_copied stream.entry)) }
        // What happens to the connection of the call.
        ensures fault { IfOk result (λ reply. reply.fault ≡ reply_fault self.old) }
        // A response with status 200 opens the stream of the test master, and no other opens one.
        ensures opened { IfOk result (λ reply. reply.opened ≡ opened_by reply.status
            (handled self.old.master call.now (option_copied stream.entry)).master) }
        // The response is the last entry of the log.
        ensures logged { IfOk result (λ reply.
            IsLogged (call_answered call.now reply.status) self.new.log) }
    {
        let reply = self.call_with_fault(stream, call)?;
        self.log_call(call, reply.status)?;
        Ok(reply)
    }

    /// Counts a call, and handles it as its fault demands.
    fn call_with_fault(
        &mut self,
        stream: Option<&StreamId>,
        call: &Call,
    ) -> Result<Reply, LiveFault>
        ensures moves { Moves self.old.master self.new.master }
        ensures steps { OnOk result (BeginsWith (IsOfCall call.now)
            (responding (reply_fault self.old) (call_counted self.old) call.now
            (option_copied stream.entry)) (call_counted self.old) self.new) }
        ensures status { IfOk result (λ reply. reply.status
            ≡ call_status self.old call.now (option_copied stream.entry)) }
        ensures fault { IfOk result (λ reply. reply.fault ≡ reply_fault self.old) }
        ensures opened { IfOk result (λ reply. reply.opened ≡ opened_by reply.status
            (handled self.old.master call.now (option_copied stream.entry)).master) }
    {
        let fault = self.next_fault()?;
        let reply = self.respond_by(fault, stream, call)?;
        Ok(reply.with(fault))
    }

    /// Handles a call as its fault demands.
    fn respond_by(
        &mut self,
        fault: Option<CallFault>,
        stream: Option<&StreamId>,
        call: &Call,
    ) -> Result<Reply, LiveFault>
        ensures moves { Moves self.old.master self.new.master }
        ensures steps { OnOk result (BeginsWith (IsOfCall call.now)
            (responding fault self.old call.now (option_copied stream.entry)) self.old self.new) }
        ensures status { IfOk result (λ reply. reply.status ≡ status_by fault
            (handled self.old.master call.now (option_copied stream.entry)).status) }
        ensures opened { IfOk result (λ reply. reply.opened ≡ opened_by reply.status
            (handled self.old.master call.now (option_copied stream.entry)).master) }
    {
        match fault {
            Some(CallFault::Busy | CallFault::Reset) => {
                Ok(Reply::plain(StatusCode::SERVICE_UNAVAILABLE))
            }
            Some(CallFault::Gone) => self.remove(stream, call),
            _ => self.respond(stream, call),
        }
    }

    /// Counts a call. Returns its fault: the 503 that standard input demands, or the planned one.
    fn next_fault(&mut self) -> Result<Option<CallFault>, NoMemory>
        ensures fault { IfOk result (λ fault. fault ≡ reply_fault self.old) }
        ensures same { self.new.master ≡ self.old.master }
        ensures counted { OnOk result (self.new ≡ call_counted self.old) }
    {
        let planned = self.planned_next();
        self.calls = self.calls.saturating_add(1);
        if self.busy > 0 {
            self.busy -= 1;
            return Ok(Some(CallFault::Busy));
        }
        if let Some(fault) = planned {
            self.out.note(Fault::Call(self.calls, fault))?;
        }
        Ok(planned)
    }

    /// Returns whether the connection of the next call is to be reset.
    pub fn resets_next(&self) -> bool
        ensures { result ≡ resets (reply_fault self.now) }
    {
        self.busy == 0 && self.planned_next() == Some(CallFault::Reset)
    }

    /// Returns the planned fault of the next call.
    fn planned_next(&self) -> Option<CallFault>
        ensures { result ≡ planned_fault self.now }
    {
        let number = self.calls.saturating_add(1);
        self.out.plan().of_call(u64::from(number))
    }

    /// Counts a call whose connection is reset before the call is read.
    pub fn reset(&mut self) -> Result<(), LiveFault>
        ensures same { self.new.master ≡ self.old.master }
        ensures counted { OnOk result (self.new ≡ call_counted self.old) }
        ensures steps { OnOk result (StepsTo IsNoting self.old self.new) }
    {
        self.next_fault()?;
        Ok(())
    }

    /// Carries out a call as a TEARDOWN of its framework, if it names the current stream. The status is
    /// 403.
    fn remove(&mut self, stream: Option<&StreamId>, call: &Call) -> Result<Reply, LiveFault>
        ensures moves { Moves self.old.master self.new.master }
        ensures steps { OnOk result (BeginsWith (IsOfCall call.now)
            (removing self.old call.now (option_copied stream.entry)) self.old self.new) }
        ensures status { IfOk result (λ reply. reply.status ≡ 403) }
        ensures opened { IfOk result (λ reply. reply.opened ≡ none) }
    {
        let ended = self.tear_down(stream, call)?;
        Ok(Reply {
            status: StatusCode::FORBIDDEN,
            opened: None,
            ended,
            fault: None,
        })
    }

    /// Carries out a TEARDOWN of the framework that sends this call, and returns the stream that it
    /// ended.
    fn tear_down(
        &mut self,
        stream: Option<&StreamId>,
        call: &Call,
    ) -> Result<Option<EndedStream>, LiveFault>
        ensures moves { Moves self.old.master self.new.master }
        ensures steps { OnOk result (BeginsWith (IsOfCall call.now)
            (removing self.old call.now (option_copied stream.entry)) self.old self.new) }
    {
        let Some(framework) = sender(call) else {
            return Ok(None);
        };
        let framework_id = framework.copy(self.alloc)?;
        let teardown = Call::Teardown { framework_id };
        let reply = self.carry_out(stream, &teardown)?;
        Ok(reply.ended)
    }

    /// Handles a call, and sends what is due after it.
    fn respond(&mut self, stream: Option<&StreamId>, call: &Call) -> Result<Reply, LiveFault>
        ensures moves { Moves self.old.master self.new.master }
        ensures steps { OnOk result (BeginsWith (IsOfCall call.now)
            (carrying self.old call.now (option_copied stream.entry)) self.old self.new) }
        ensures status { IfOk result (λ reply. reply.status
            ≡ (handled self.old.master call.now (option_copied stream.entry)).status) }
        ensures opened { IfOk result (λ reply. reply.opened ≡ opened_by reply.status
            (handled self.old.master call.now (option_copied stream.entry)).master) }
    {
        let reply = self.reply_to(stream, call)?;
        self.send_due()?;
        Ok(reply)
    }

    fn reply_to(&mut self, stream: Option<&StreamId>, call: &Call) -> Result<Reply, LiveFault>
        ensures moves { Moves self.old.master self.new.master }
        ensures steps { OnOk result (BeginsWith (IsOfCall call.now)
            (carrying self.old call.now (option_copied stream.entry)) self.old self.new) }
        ensures status { IfOk result (λ reply. reply.status
            ≡ (handled self.old.master call.now (option_copied stream.entry)).status) }
        ensures opened { IfOk result (λ reply. reply.opened ≡ opened_by reply.status
            (handled self.old.master call.now (option_copied stream.entry)).master) }
    {
        match call {
            Call::Subscribe { .. } => self.subscribe(stream, call),
            Call::Accept { framework_id, body } => self.accept(stream, framework_id, body),
            _ => self.carry_out(stream, call),
        }
    }

    /// Gives the master a call that launches nothing, and returns its response.
    fn handle(&mut self, stream: Option<&StreamId>, call: &Call) -> Result<Answer, LiveFault>
        requires { tasks_of call.now ≡ [] }
        ensures moves { Moves self.old.master self.new.master }
        ensures rest { self.new ≡ record self.old { master = self.new.master } }
        ensures handles { OnOk result (Handles call.now (option_copied stream.entry)
            self.old.master self.new.master) }
        ensures status { IfOk result (λ answer. answer.status
            ≡ (handled self.old.master call.now (option_copied stream.entry)).status) }
        ensures answered { IfOk result (λ answer. IsAnswer
            (handled self.old.master call.now (option_copied stream.entry)) answer.status
            answer.events.items self.new.master) }
    {
        Ok(self.master.handle(call, stream)?)
    }

    fn subscribe(&mut self, stream: Option<&StreamId>, call: &Call) -> Result<Reply, LiveFault>
        requires none { tasks_of call.now ≡ [] }
        requires subscribe { is_subscribe call.now ≡ true }
        ensures moves { Moves self.old.master self.new.master }
        ensures steps { OnOk result (BeginsWith (IsOfCall call.now)
            (carrying self.old call.now (option_copied stream.entry)) self.old self.new) }
        ensures status { IfOk result (λ reply. reply.status
            ≡ (handled self.old.master call.now (option_copied stream.entry)).status) }
        ensures opened { IfOk result (λ reply. reply.opened ≡ opened_by reply.status
            (handled self.old.master call.now (option_copied stream.entry)).master) }
    {
        let old = self.current();
        let answer = self.handle(stream, call)?;
        if answer.status != StatusCode::OK {
            return Ok(Reply::plain(answer.status));
        }
        let opened = self.current();
        let ended = self.open_stream(old, answer.events.as_slice())?;
        Ok(Reply {
            status: answer.status,
            opened,
            ended,
            fault: None,
        })
    }

    /// Begins a stream with these events, and ends the one that it replaces.
    fn open_stream(
        &mut self,
        old: Option<StreamId>,
        events: &[Event],
    ) -> Result<Option<EndedStream>, LiveFault>
        requires stream { is_some self.old.master.stream ≡ true }
        requires events { AllByRecursion IsNoOffers events.now }
        ensures moves { Moves self.old.master self.new.master }
        ensures begins { OnOk result (BeginsWith IsDelivering (replacing self.old.time old
            ++ beginning self.old.time events.now (unacknowledged self.old.master)) self.old
            self.new) }
    {
        let ended = self.fail_over(old)?;
        self.send_all(events)?;
        self.beat()?;
        self.resend_all()?;
        self.send_due()?;
        self.deliver_waiting(MAX_AHEAD)?;
        Ok(ended)
    }

    /// Ends the stream that a new one replaces, if there was one.
    fn fail_over(&mut self, old: Option<StreamId>) -> Result<Option<EndedStream>, LiveFault>
        ensures same { self.new.master ≡ self.old.master }
        ensures ends { OnOk result (ChangesBy (replacing self.old.time old) self.old self.new) }
    {
        let Some(id) = old else {
            self.clear();
            return Ok(None);
        };
        let message = Text::of(self.alloc, FAILED_OVER)?;
        self.push(&Event::Error(ErrorBody { message }))?;
        Ok(Some(self.end_stream(id)?))
    }

    /// Drops all bytes that are not written.
    pub(super) fn clear(&mut self)
        ensures same { self.new.master ≡ self.old.master }
        ensures ends { ChangesBy (clears ∷ []) self.old self.new }
    {
        self.out.clear();
    }

    /// Sends events of the master.
    fn send_all(&mut self, sent: &[Event]) -> Result<(), LiveFault>
        requires { AllByRecursion IsNoOffers sent.now }
        ensures same { self.new.master ≡ self.old.master }
        ensures sends { OnOk result (ChangesBy (sending self.old.time sent.now) self.old self.new) }
    {
        for event in sent {
            self.push(event)?;
        }
        Ok(())
    }

    /// Handles a call other than SUBSCRIBE and ACCEPT.
    fn carry_out(&mut self, stream: Option<&StreamId>, call: &Call) -> Result<Reply, LiveFault>
        requires none { tasks_of call.now ≡ [] }
        requires other { is_subscribe call.now ≡ false }
        ensures moves { Moves self.old.master self.new.master }
        ensures steps { OnOk result (BeginsWith (IsOfCall call.now)
            (carrying self.old call.now (option_copied stream.entry)) self.old self.new) }
        ensures status { IfOk result (λ reply. reply.status
            ≡ (handled self.old.master call.now (option_copied stream.entry)).status) }
        ensures opened { IfOk result (λ reply. reply.opened ≡ opened_by reply.status
            (handled self.old.master call.now (option_copied stream.entry)).master) }
    {
        let old = self.current();
        let answer = self.handle(stream, call)?;
        if answer.status != StatusCode::ACCEPTED {
            return Ok(Reply::plain(answer.status));
        }
        let ended = self.conclude(call, old, answer.events.as_slice())?;
        Ok(Reply {
            status: answer.status,
            opened: None,
            ended,
            fault: None,
        })
    }

    /// Sends the events of a call that the master carried out, and what follows them. Returns the
    /// stream that the call ended.
    fn conclude(
        &mut self,
        call: &Call,
        old: Option<StreamId>,
        events: &[Event],
    ) -> Result<Option<EndedStream>, LiveFault>
        requires { AllByRecursion IsNoOffers events.now }
        ensures same { self.new.master ≡ self.old.master }
        ensures steps { OnOk result (BeginsWith (IsOfCall call.now)
            (sending self.old.time events.now ++ demanded_by call.now) self.old self.new) }
    {
        self.send_all(events)?;
        match (call, old) {
            (Call::Teardown { .. }, Some(id)) => Ok(Some(self.end_stream(id)?)),
            _ => {
                self.follow(call)?;
                Ok(None)
            }
        }
    }
}

/// Returns the framework that sends a call other than SUBSCRIBE.
fn sender(call: &Call) -> Option<&Id>
    ensures { option_copied result ≡ sender call.now }
{
    match call {
        Call::Subscribe { .. } => None,
        Call::Accept { framework_id, .. }
        | Call::Decline { framework_id, .. }
        | Call::Revive { framework_id }
        | Call::Kill { framework_id, .. }
        | Call::Acknowledge { framework_id, .. }
        | Call::Reconcile { framework_id, .. }
        | Call::Teardown { framework_id }
        | Call::Suppress { framework_id }
        | Call::Shutdown { framework_id, .. }
        | Call::Message { framework_id, .. } => Some(framework_id),
    }
}
