//! A session whose events and calls are JSON texts.

ghost use Rattle.std.specs.Prelude.{◌≡◌, IfErr, IfOk, OnErr, OnOk, length, option_map, slice_get};
ghost use Rattle.mes_model_offer.specs.Offers.{offer};
ghost use Rattle.mes_msg.specs.declared.entry.Entry.TheVariants.{Broken};
ghost use Rattle.mes_msg_call_body.specs.CallBodies.{acknowledge};
ghost use Rattle.mes_session.specs.History.{at_first};
ghost use Rattle.mes_session_state.specs.Held.{offer_in};
ghost use Rattle.mes_stream.specs.Stream.{saturated};
ghost use Rattle.mesosev_session.specs.Sessions.{Advances, IsAcknowledgeAt, IsAcknowledged, IsChecked, IsHeard, IsSaid, IsSubscribed, NoAcknowledgeAt, NotAcknowledged, NotHeard, NotSaid, NotSubscribed, acknowledge_of, owed_body};
ghost use Rattle.mesosev_session.specs.Texts.{IsTextOfSome};

use crate::message_text::{read_call_text, read_event, roomy_text};
use crate::text_refusal::{TextRefusal, fault_of_text};
use mes_json::NoMemory;
use mes_model::{FrameworkInfo, OwedKey};
use mes_msg::{Acknowledge, Call};
use mes_msg_record::read_bytes;
use mes_session::{Refusal, Session};
use mes_session_calls::make_acknowledge;
use mes_stream::Fault;
use std::alloc::Global;

/// A session whose events and calls are JSON texts. It counts the entries of its history.
#[derive(Drop)]
pub struct TextSession {
    alloc: Global,
    session: Session,
    // The number of entries; it saturates at 2^64 - 1.
    entries: u64,
}

impl TextSession {
    /// Returns a session without a history. Does not allocate.
    pub fn new(alloc: Global) -> TextSession
        ensures session { result.session ≡ at_first }
        ensures entries { result.entries ≡ 0 }
    {
        TextSession::after(alloc, Session::new(alloc), 0)
    }

    /// Returns a session after this number of entries.
    pub(crate) fn after(alloc: Global, session: Session, entries: u64) -> TextSession
        ensures session { result.session ≡ session }
        ensures entries { result.entries ≡ entries }
    {
        TextSession {
            alloc,
            session,
            entries,
        }
    }

    /// Applies an event received from the master. Errors: `Fault`, or `Refused` with S8; the session
    /// is then unchanged.
    pub fn heard(&mut self, bytes: &[u8]) -> Result<(), TextRefusal>
        ensures ok { OnOk result (IsHeard self.old bytes.now self.new) }
        ensures err { IfErr result (NotHeard bytes.now) }
        ensures same { OnErr result (self.new ≡ self.old) }
    {
        let event = read_event(self.alloc, bytes)?;
        if let Err(refusal) = self.session.heard(&event) {
            return Err(TextRefusal::Refused(refusal));
        }
        self.entries = self.entries.saturating_add(1);
        Ok(())
    }

    /// Applies a call that is sent to the master, and returns its canonical text, of at most `most`
    /// bytes. Errors: `Fault`; then `Unfit`; then `NoRoom`; then `Refused` with S1 to S7. The session
    /// is then unchanged.
    pub fn said(&mut self, bytes: &[u8], most: usize) -> Result<Vec<u8>, TextRefusal>
        ensures ok { IfOk result (λ text. IsSaid self.old bytes.now most text.items self.new) }
        ensures err { IfErr result (NotSaid self.old.session bytes.now most) }
        ensures same { OnErr result (self.new ≡ self.old) }
    {
        let read = read_call_text(self.alloc, bytes, most)?;
        if let Err(refusal) = self.session.said(&read.call) {
            return Err(TextRefusal::Refused(refusal));
        }
        self.entries = self.entries.saturating_add(1);
        Ok(read.text)
    }

    /// Like [`said`](Self::said), but does not apply the call.
    pub fn check(&self, bytes: &[u8], most: usize) -> Result<Vec<u8>, TextRefusal>
        ensures ok { IfOk result (λ text. IsChecked self.now.session bytes.now most text.items) }
        ensures err { IfErr result (NotSaid self.now.session bytes.now most) }
    {
        let read = read_call_text(self.alloc, bytes, most)?;
        match self.session.check(&read.call) {
            Ok(()) => Ok(read.text),
            Err(refusal) => Err(TextRefusal::Refused(refusal)),
        }
    }

    /// Returns the canonical text, of at most `most` bytes, of the SUBSCRIBE of a framework, whose
    /// `FrameworkInfo` is given as a JSON text. Errors: `Fault`, `Unfit`, `NoRoom`, or `Refused` with
    /// S8.
    pub fn subscribe(&mut self, bytes: &[u8], most: usize) -> Result<Vec<u8>, TextRefusal>
        ensures ok { IfOk result (λ text. IsSubscribed self.old bytes.now most text.items self.new) }
        ensures err { IfErr result (NotSubscribed self.old.session bytes.now most) }
        ensures same { OnErr result (self.new ≡ self.old) }
    {
        let info = match read_bytes::<FrameworkInfo>(self.alloc, bytes) {
            Ok(info) => info,
            Err(fault) => return Err(TextRefusal::Fault(fault_of_text(fault, 1))),
        };
        // A SUBSCRIBE changes nothing of the session, so it may still be refused for its text.
        let call = match self.session.subscribe(&info) {
            Ok(call) => call,
            Err(refusal) => return Err(TextRefusal::Refused(refusal)),
        };
        let text = roomy_text(self.alloc, &call, most)?;
        self.entries = self.entries.saturating_add(1);
        Ok(text)
    }

    /// Makes and applies the ACKNOWLEDGE of the unacknowledged update at an index, in the order of
    /// arrival. Returns its canonical text, of at most `most` bytes. Errors: `Absent`; then S1; then
    /// `Unfit`, `NoRoom`, or F13. The session is then unchanged.
    pub fn acknowledge(&mut self, index: usize, most: usize) -> Result<Vec<u8>, TextRefusal>
        ensures ok { IfOk result (λ text. IsAcknowledged self.old index most text.items self.new) }
        ensures err { IfErr result (NotAcknowledged self.old.session index most) }
        ensures same { OnErr result (self.new ≡ self.old) }
    {
        let call = self.acknowledge_call(index)?;
        let text = roomy_text(self.alloc, &call, most)?;
        if let Err(refusal) = self.session.said(&call) {
            return Err(TextRefusal::Refused(refusal));
        }
        self.entries = self.entries.saturating_add(1);
        Ok(text)
    }

    // Returns the ACKNOWLEDGE of the update at an index.
    fn acknowledge_call(&self, index: usize) -> Result<Call, TextRefusal>
        ensures ok { IfOk result (IsAcknowledgeAt self.now.session index) }
        ensures err { IfErr result (NoAcknowledgeAt self.now.session index) }
    {
        let Some(key) = self.session.owed_at(index) else {
            return Err(TextRefusal::Absent);
        };
        let Some(framework) = self.session.framework() else {
            return Err(TextRefusal::Refused(Refusal::NotSubscribed));
        };
        match make_acknowledge(self.alloc, framework, key) {
            Ok(call) => Ok(call),
            Err(_) => Err(TextRefusal::Fault(Fault::NoMemory)),
        }
    }

    /// Records that the stream is disconnected.
    pub fn broken(&mut self)
        ensures { Advances self.old Broken self.new }
    {
        self.session.broken();
        self.entries = self.entries.saturating_add(1);
    }

    /// Returns the number of entries; it saturates at 2^64 - 1.
    pub fn entries(&self) -> u64
        ensures { result ≡ self.now.entries }
    {
        self.entries
    }

    /// Returns whether a SUBSCRIBED was received since the stream was last disconnected.
    pub fn connected(&self) -> bool
        ensures { result ≡ self.now.session.connected }
    {
        self.session.connected()
    }

    /// Returns the identifier of the framework of the last SUBSCRIBED.
    pub fn framework(&self) -> Option<&str>
        ensures { option_map (λ id. id.now) result
            ≡ option_map (λ id. id.value) self.now.session.framework }
    {
        match self.session.framework() {
            Some(id) => Some(id.value.as_str()),
            None => None,
        }
    }

    /// Returns the number of outstanding offers.
    pub fn offer_count(&self) -> usize
        ensures { result ≡ length self.now.session.hand }
    {
        self.session.hand_len()
    }

    /// Returns the canonical text, of at most `most` bytes, of the outstanding offer at an index, in
    /// the order of arrival. Errors: `Absent`, `Unfit`, `NoRoom`, or F13.
    pub fn offer_at(&self, index: usize, most: usize) -> Result<Vec<u8>, TextRefusal>
        ensures { IsTextOfSome offer (slice_get self.now.session.hand index) most result }
    {
        match self.session.hand_at(index) {
            Some(offer) => roomy_text(self.alloc, offer, most),
            None => Err(TextRefusal::Absent),
        }
    }

    /// Like [`offer_at`](Self::offer_at), for the outstanding offer with the identifier `id`.
    pub fn offer(&self, id: &str, most: usize) -> Result<Vec<u8>, TextRefusal>
        ensures { IsTextOfSome offer (offer_in self.now.session.hand id.now) most result }
    {
        match self.session.offer(id) {
            Some(offer) => roomy_text(self.alloc, offer, most),
            None => Err(TextRefusal::Absent),
        }
    }

    /// Returns the number of unacknowledged updates.
    pub fn owed_count(&self) -> usize
        ensures { result ≡ length self.now.session.owed }
    {
        self.session.owed_len()
    }

    /// Returns the canonical text, of at most `most` bytes, of the body of the ACKNOWLEDGE of the
    /// unacknowledged update at an index, in the order of arrival: its agent, its task and its uuid.
    /// Errors: `Absent`, `Unfit`, `NoRoom`, or F13.
    pub fn owed_at(&self, index: usize, most: usize) -> Result<Vec<u8>, TextRefusal>
        ensures { IsTextOfSome acknowledge (owed_body self.now.session index) most result }
    {
        let Some(key) = self.session.owed_at(index) else {
            return Err(TextRefusal::Absent);
        };
        let Ok(body) = body_of(self.alloc, key) else {
            return Err(TextRefusal::Fault(Fault::NoMemory));
        };
        roomy_text(self.alloc, &body, most)
    }
}

// Returns the body of the ACKNOWLEDGE of an update.
fn body_of(alloc: Global, key: &OwedKey) -> Result<Acknowledge, NoMemory>
    ensures { IfOk result (λ body. body ≡ acknowledge_of key.now) }
{
    let key = key.copy(alloc)?;
    Ok(Acknowledge {
        agent_id: key.agent,
        task_id: key.task,
        uuid: key.uuid,
    })
}
