//! The effect of each move on a world.
ghost use Rattle.std.specs.Prelude.{◌≡◌, ◌++◌, [], ◌∷◌, slice_get, option_copied, None, Some, IsOk, IsSome, IfSome, IfNone, IfOk, OnOk, OnErr, IsErr, true};
ghost use Rattle.mes_msg.specs.declared.entry.Entry.TheVariants.{Heard};
ghost use Rattle.mes_session_state.specs.Refusals.{Answers};
ghost use Rattle.mes_session.specs.History.{after, NeedsMemory};
ghost use Rattle.mes_double_master.specs.Masters.{handled};
ghost use Rattle.mes_double_master.specs.declared.refusal.MasterRefusal.TheVariants.{NoMemory as no_memory};
ghost use Rattle.mes_double_master.specs.Sending.{offers_sent, rescind_sent, update_sent, resend_sent};
ghost use Rattle.mes_double.specs.declared.moves.Move.TheVariants as moves;
ghost use Rattle.mes_double.specs.Worlds.{HasRoom, skip, sending, hearing, is_done, taking, world_info, reopening, resubscribing, subscribe_answer, Happens};
ghost use Rattle.mes_double.specs.Memory.{HearingWants, WishingWants, ArrivingWants, MayWant};

use super::World;
use crate::moves::Move;
use crate::sent::Sent;
use http::StatusCode;
use mes_double_http::StreamId;
use mes_double_master::{Answer, Master, MasterRefusal};
use mes_json::{NoMemory, Text};
use mes_model::{FrameworkInfo, List, Offer, Part, TaskStatus};
use mes_msg::{Call, Event};
use std::alloc::Global;

impl World {
    /// Makes a move, or counts it as skipped if it is impossible or refused.
    pub(crate) fn make(&mut self, next: &Move) -> Result<(), NoMemory>
        requires { HasRoom self.old }
        ensures ok { OnOk result (Happens self.old next.now self.new) }
        ensures memory { OnErr result (MayWant self.old next.now) }
    {
        match next {
            Move::Offer(offers) => self.offer(offers.as_slice()),
            Move::Rescind(id) => self.rescind(id.as_str()),
            Move::Update(status) => self.update(status),
            Move::Resend(index) => self.resend(*index),
            Move::Hear => self.hear(),
            Move::Wish(call) => self.wish(call),
            Move::Arrive(index) => self.arrive(*index),
            Move::Resubscribe => self.resubscribe(),
        }
    }

    fn skip(&mut self)
        requires { HasRoom self.old }
        ensures { self.new ≡ skip self.old }
    {
        self.skipped += 1;
    }

    // ---- moves in which the master sends an event

    fn push(&mut self, event: Event) -> Result<(), NoMemory>
        ensures { OnOk result (self.new
            ≡ record self.old { waiting = self.old.waiting ++ event ∷ [] }) }
    {
        self.waiting.push(event)?;
        Ok(())
    }

    /// Counts a move that the master refuses (M1 to M5) as skipped; returns `NoMemory` for M6.
    fn skip_for(&mut self, why: MasterRefusal) -> Result<(), NoMemory>
        requires { HasRoom self.old }
        ensures ok { OnOk result (self.new ≡ skip self.old) }
        ensures err { why ≡ no_memory → IsErr result }
        ensures memory { OnErr result (why ≡ no_memory) }
    {
        match why {
            MasterRefusal::NoMemory => Err(NoMemory),
            _ => {
                self.skip();
                Ok(())
            }
        }
    }

    fn offer(&mut self, offers: &[Offer]) -> Result<(), NoMemory>
        requires { HasRoom self.old }
        ensures ok { OnOk result (self.new
            ≡ sending self.old (offers_sent self.old.master offers.now)) }
        ensures memory { OnErr result (IsOk (offers_sent self.old.master offers.now)) }
    {
        match self.master.offer(offers) {
            Ok(event) => self.push(event),
            Err(why) => self.skip_for(why),
        }
    }

    fn rescind(&mut self, id: &str) -> Result<(), NoMemory>
        requires { HasRoom self.old }
        ensures ok { OnOk result (self.new
            ≡ sending self.old (rescind_sent self.old.master id.now)) }
        ensures memory { OnErr result (IsOk (rescind_sent self.old.master id.now)) }
    {
        match self.master.rescind(id) {
            Ok(event) => self.push(event),
            Err(why) => self.skip_for(why),
        }
    }

    fn update(&mut self, status: &TaskStatus) -> Result<(), NoMemory>
        requires { HasRoom self.old }
        ensures ok { OnOk result (self.new
            ≡ sending self.old (update_sent self.old.master status.now)) }
        ensures memory { OnErr result (IsSome self.old.master.stream) }
    {
        match self.master.update(status) {
            Ok(event) => self.push(event),
            Err(why) => self.skip_for(why),
        }
    }

    fn resend(&mut self, index: usize) -> Result<(), NoMemory>
        requires { HasRoom self.old }
        ensures ok { OnOk result (self.new ≡ sending self.old (resend_sent self.old.master index)) }
        ensures memory { OnErr result (IsOk (resend_sent self.old.master index)) }
    {
        match self.master.resend(index) {
            Ok(event) => self.push(event),
            Err(why) => self.skip_for(why),
        }
    }

    // ---- moves in which the session receives an event or sends a call

    fn hear(&mut self) -> Result<(), NoMemory>
        requires { HasRoom self.old }
        ensures ok { OnOk result (self.new ≡ hearing self.old self.old.waiting) }
        ensures memory { OnErr result (HearingWants self.old.waiting) }
    {
        match take_first(&mut self.waiting) {
            Some(event) => self.hear_event(&event),
            None => {
                self.skip();
                Ok(())
            }
        }
    }

    fn hear_event(&mut self, event: &Event) -> Result<(), NoMemory>
        ensures ok { OnOk result (self.new
            ≡ record self.old { session = after self.old.session (Heard event.now) }) }
        ensures memory { OnErr result (NeedsMemory event.now) }
    {
        match self.session.heard(event) {
            Ok(()) => Ok(()),
            Err(_) => Err(NoMemory),
        }
    }

    /// The session makes a call, which is sent with the id of the current stream.
    fn wish(&mut self, call: &Call) -> Result<(), NoMemory>
        requires { HasRoom self.old }
        ensures ok { OnOk result (Happens self.old (moves.Wish call.now) self.new) }
        ensures memory { OnErr result (WishingWants self.old call.now self.old.master.stream) }
    {
        match current(&self.master) {
            Some(stream) => self.say(call, stream),
            None => {
                self.skip();
                Ok(())
            }
        }
    }

    /// The session makes a call, which is sent with the id of this stream.
    fn say(&mut self, call: &Call, stream: StreamId) -> Result<(), NoMemory>
        requires room { HasRoom self.old }
        requires current { self.old.master.stream ≡ Some stream }
        ensures ok { OnOk result (Happens self.old (moves.Wish call.now) self.new) }
        ensures memory { OnErr result (Answers self.old.session call.now None) }
    {
        match self.session.said(call) {
            Ok(()) => self.send(call, stream),
            Err(_) => {
                self.skip();
                Ok(())
            }
        }
    }

    fn send(&mut self, call: &Call, stream: StreamId) -> Result<(), NoMemory>
        ensures { OnOk result (self.new
            ≡ record self.old {
              sent = self.old.sent ++ record { call = call.now; stream = stream }
                  ∷ [];
            }) }
    {
        let call = call.copy(self.alloc)?;
        self.sent.push(Sent { call, stream })?;
        Ok(())
    }

    // ---- moves in which the master receives a call

    /// The master receives the call that was sent at an index.
    fn arrive(&mut self, index: usize) -> Result<(), NoMemory>
        requires { HasRoom self.old }
        ensures ok { OnOk result (Happens self.old (moves.Arrive index) self.new) }
        ensures memory { OnErr result (ArrivingWants self.old (slice_get self.old.sent index)) }
    {
        match sent_at(self.sent.as_slice(), index) {
            Some(sent) => {
                let answer = self.master.handle(&sent.call, Some(&sent.stream))?;
                self.answered(answer)
            }
            None => {
                self.skip();
                Ok(())
            }
        }
    }

    /// Queues the events of a response with status 200 or 202; counts the move as skipped for any
    /// other status.
    fn answered(&mut self, answer: Answer) -> Result<(), NoMemory>
        requires { HasRoom self.old }
        ensures ok { OnOk result (self.new ≡ taking self.old answer.status answer.events.items) }
        ensures memory { OnErr result (is_done answer.status ≡ true) }
    {
        if is_done(answer.status) {
            push_all(&mut self.waiting, answer.events)
        } else {
            self.skip();
            Ok(())
        }
    }

    fn resubscribe(&mut self) -> Result<(), NoMemory>
        requires { HasRoom self.old }
        ensures { OnOk result (self.new ≡ resubscribing self.old (subscribe_answer self.old)) }
    {
        let info = world_info(self.alloc)?;
        match self.session.subscribe(&info) {
            Ok(call) => self.open_stream(&call),
            Err(_) => Err(NoMemory),
        }
    }

    fn open_stream(&mut self, call: &Call) -> Result<(), NoMemory>
        requires { HasRoom self.old }
        ensures { OnOk result (self.new
            ≡ resubscribing self.old (handled self.old.master call.now None)) }
    {
        let answer = self.master.handle(call, None)?;
        self.reopen(answer);
        Ok(())
    }

    /// If the response to a SUBSCRIBE has status 200 or 202, disconnects the session's stream and
    /// replaces the queue by the events of the response; otherwise counts the move as skipped.
    fn reopen(&mut self, answer: Answer)
        requires { HasRoom self.old }
        ensures { self.new ≡ reopening self.old answer.status answer.events.items }
    {
        if is_done(answer.status) {
            self.session.broken();
            self.waiting = answer.events;
        } else {
            self.skip();
        }
    }
}

/// Removes and returns the first event, if there is one.
fn take_first(waiting: &mut Vec<Event>) -> Option<Event>
    ensures some { IfSome result (λ event. waiting.old.items ≡ event ∷ waiting.new.items) }
    ensures none { IfNone result ((waiting.old.items ≡ []) × (waiting.new.items ≡ [])) }
{
    if waiting.is_empty() {
        None
    } else {
        Some(waiting.remove(0))
    }
}

fn sent_at(sent: &[Sent], index: usize) -> Option<&Sent>
    ensures { option_copied result ≡ slice_get sent.now index }
{
    sent.get(index)
}

fn current(master: &Master) -> Option<StreamId>
    ensures { result ≡ master.now.stream }
{
    match master.stream() {
        Some(stream) => Some(stream.copy()),
        None => None,
    }
}

fn push_all(waiting: &mut Vec<Event>, events: Vec<Event>) -> Result<(), NoMemory>
    ensures { OnOk result (waiting.new.items ≡ waiting.old.items ++ events.items) }
{
    for event in events {
        waiting.push(event)?;
    }
    Ok(())
}

/// Returns whether the status, 200 or 202, is that of a call that was carried out.
fn is_done(status: StatusCode) -> bool
    ensures { result ≡ is_done status }
{
    status == StatusCode::OK || status == StatusCode::ACCEPTED
}

/// Returns the description of a world's framework: the user `root` and the name `world`.
fn world_info(alloc: Global) -> Result<FrameworkInfo, NoMemory>
    ensures { IfOk result (λ info. info ≡ world_info) }
{
    Ok(FrameworkInfo {
        user: Text::of(alloc, "root")?,
        name: Text::of(alloc, "world")?,
        id: None,
        failover_timeout: None,
        checkpoint: None,
        roles: List::new(Vec::new(alloc)),
        hostname: None,
        principal: None,
        capabilities: List::new(Vec::new(alloc)),
    })
}
