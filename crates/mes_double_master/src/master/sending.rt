//! The events that a test master sends without a call.
ghost use Rattle.std.specs.Prelude.{◌≡◌, ◌≢◌, ◌⊎◌, ◌++◌, [], ◌∷◌, false, Ok, Err, IsOk, IsSome, IfSome, IfNone, IfOk, IfErr, OnOk, OnErr};
ghost use Rattle.mes_double_master.specs.declared.refusal.MasterRefusal.TheVariants.{NoMemory as no_memory};
ghost use Rattle.mes_double_master.specs.Masters.{has_update, update_event};
ghost use Rattle.mes_double_master.specs.Sending.{offer_ids, is_duplicate, made, offers_sent, rescind_sent, reported, reported_unacknowledged, update_sent, resend_sent};

use super::Master;
use crate::refusal::MasterRefusal;
use mes_double_master_state::events;
use mes_double_master_state::ids::{ids_of_offers, is_duplicate, put_new, reserve};
use mes_double_master_state::updates::{has_update, note, pending_at, record_update};
use mes_json::{NoMemory, Text};
use mes_model::{Id, Offer, TaskStatus};
use mes_model_schema::Part;
use mes_msg::{Event, Rescind};

impl Master {
    /// Makes offers and returns their OFFERS; the offers are then outstanding. Errors: no stream
    /// (M1), a repeated identifier (M2), out of memory (M6); nothing is then changed. M6 occurs
    /// only if the offers could be made.
    pub fn offer(&mut self, offers: &[Offer]) -> Result<Event, MasterRefusal>
        ensures ok { IfOk result (λ event. offers_sent self.old offers.now ≡ Ok (event, self.new)) }
        // Each error: out of memory, or the refusal in the definition `offers_sent`; nothing is
        // changed.
        ensures err { IfErr result (λ why. (self.new ≡ self.old)
            × ((why ≡ no_memory) ⊎ (offers_sent self.old offers.now ≡ Err why))) }
        // Out of memory only if the offers could be made.
        ensures memory { IfErr result (λ why. why ≡ no_memory
            → IsOk (offers_sent self.old offers.now)) }
    {
        if let Some(why) = self.refusal_of(offers) {
            return Err(why);
        }
        let event = events::offers(self.alloc, offers)?;
        self.make(offers)?;
        Ok(event)
    }

    /// Like [`Master::offer`], but for a caller that already has the OFFERS: returns no event.
    pub fn note_offers(&mut self, offers: &[Offer]) -> Result<(), MasterRefusal>
        // On success: the offers are made.
        ensures ok { OnOk result (offers_sent self.old offers.now
            ≡ Ok (Event.Offers offers.now, self.new)) }
        // Each error: out of memory, or the refusal in the definition `offers_sent`; nothing is
        // changed.
        ensures err { IfErr result (λ why. (self.new ≡ self.old)
            × ((why ≡ no_memory) ⊎ (offers_sent self.old offers.now ≡ Err why))) }
        // Out of memory only if the offers could be made.
        ensures memory { IfErr result (λ why. why ≡ no_memory
            → IsOk (offers_sent self.old offers.now)) }
    {
        match self.refusal_of(offers) {
            None => Ok(self.make(offers)?),
            Some(why) => Err(why),
        }
    }

    /// Returns M1 or M2 if these offers cannot be made, else `None`. Does not allocate.
    fn refusal_of(&self, offers: &[Offer]) -> Option<MasterRefusal>
        ensures none { IfNone result (IsSome self.now.stream
            × (is_duplicate self.now.offered (offer_ids offers.now) ≡ false)) }
        ensures some { IfSome result (λ why. (why ≢ no_memory)
            × (offers_sent self.now offers.now ≡ Err why)) }
    {
        if self.stream.is_none() {
            return Some(MasterRefusal::NoStream);
        }
        if is_duplicate(&self.offered, offers) {
            return Some(MasterRefusal::OfferTwice);
        }
        None
    }

    /// Makes offers whose identifiers are new and distinct.
    fn make(&mut self, offers: &[Offer]) -> Result<(), NoMemory>
        requires { is_duplicate self.old.offered (offer_ids offers.now) ≡ false }
        ensures ok { OnOk result (made self.old offers.now ≡ (Event.Offers offers.now, self.new)) }
        ensures err { OnErr result (self.new ≡ self.old) }
    {
        let ids = ids_of_offers(self.alloc, offers)?;
        reserve(&mut self.offered, ids.len())?;
        self.outstanding.add(self.alloc, offers)?;
        put_new(&mut self.offered, ids);
        Ok(())
    }

    /// Withdraws the outstanding offer with this identifier and returns its RESCIND. Errors: no
    /// stream (M1), no such offer (M3), out of memory (M6); nothing is then changed. M6 occurs only
    /// if the offer could be withdrawn.
    pub fn rescind(&mut self, id: &str) -> Result<Event, MasterRefusal>
        ensures ok { IfOk result (λ event. rescind_sent self.old id.now ≡ Ok (event, self.new)) }
        // Each error: out of memory, or the refusal in the definition `rescind_sent`; nothing is
        // changed.
        ensures err { IfErr result (λ why. (self.new ≡ self.old)
            × ((why ≡ no_memory) ⊎ (rescind_sent self.old id.now ≡ Err why))) }
        // Out of memory only if the offer could be withdrawn.
        ensures memory { IfErr result (λ why. why ≡ no_memory
            → IsOk (rescind_sent self.old id.now)) }
    {
        if self.stream.is_none() {
            return Err(MasterRefusal::NoStream);
        }
        if self.outstanding.get(id).is_none() {
            return Err(MasterRefusal::NoSuchOffer);
        }
        let value = Text::of(self.alloc, id)?;
        self.outstanding.remove(id);
        let offer_id = Id { value };
        Ok(Event::Rescind(Rescind { offer_id }))
    }

    /// Returns the UPDATE of a status, which becomes the last status of its task. Errors: no stream
    /// (M1), a repeated update (M4), out of memory (M6); nothing is then changed. M6 may occur
    /// instead of M4.
    pub fn update(&mut self, status: &TaskStatus) -> Result<Event, MasterRefusal>
        ensures ok { IfOk result (λ event. update_sent self.old status.now ≡ Ok (event, self.new)) }
        // Each error: out of memory, or the refusal in the definition `update_sent`; nothing is
        // changed.
        ensures err { IfErr result (λ why. (self.new ≡ self.old)
            × ((why ≡ no_memory) ⊎ (update_sent self.old status.now ≡ Err why))) }
        ensures memory { IfErr result (λ why. why ≡ no_memory → IsSome self.old.stream) }
    {
        if self.stream.is_none() {
            return Err(MasterRefusal::NoStream);
        }
        let event = events::update(self.alloc, status)?;
        self.note_update(status)?;
        Ok(event)
    }

    /// Like [`Master::update`], but for a caller that already has the UPDATE: returns no event.
    pub fn note_update(&mut self, status: &TaskStatus) -> Result<(), MasterRefusal>
        // On success: the status is recorded.
        ensures ok { OnOk result (update_sent self.old status.now
            ≡ Ok (update_event status.now, self.new)) }
        // Each error: out of memory, or the refusal in the definition `update_sent`; nothing is
        // changed.
        ensures err { IfErr result (λ why. (self.new ≡ self.old)
            × ((why ≡ no_memory) ⊎ (update_sent self.old status.now ≡ Err why))) }
        ensures memory { IfErr result (λ why. why ≡ no_memory → IsSome self.old.stream) }
    {
        if self.stream.is_none() {
            return Err(MasterRefusal::NoStream);
        }
        let Some(key) = status.owed_key(self.alloc)? else {
            return Ok(note(self.alloc, &mut self.latest, status)?);
        };
        if has_update(&self.owing, &key) {
            return Err(MasterRefusal::UpdateTwice);
        }
        Ok(record_update(self.alloc, &mut self.latest, &mut self.owing, key, status)?)
    }

    /// Returns again the UPDATE at an index in the list of unacknowledged updates. Errors: no
    /// stream (M1), no such update (M5), out of memory (M6). M6 occurs only if there is such an
    /// update.
    pub fn resend(&self, index: usize) -> Result<Event, MasterRefusal>
        ensures ok { IfOk result (λ event. resend_sent self.now index ≡ Ok (event, self.now)) }
        // Each error: out of memory, or the refusal in the definition `resend_sent`.
        ensures err { IfErr result (λ why. (why ≡ no_memory)
            ⊎ (resend_sent self.now index ≡ Err why)) }
        ensures memory { IfErr result (λ why. why ≡ no_memory → IsOk (resend_sent self.now index)) }
    {
        if self.stream.is_none() {
            return Err(MasterRefusal::NoStream);
        }
        match pending_at(&self.owing, &self.acked, index) {
            Some(status) => Ok(events::update(self.alloc, status)?),
            None => Err(MasterRefusal::NoSuchUpdate),
        }
    }
}
