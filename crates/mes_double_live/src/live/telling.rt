//! How a live test master takes events from outside.
ghost use Rattle.std.specs.Prelude.{◌≡◌, [], ◌∷◌, true, false, is_some, IfOk, OnOk};
ghost use Rattle.mes_msg.specs.Event.TheVariants as event;
ghost use Rattle.mes_double_live.specs.Arriving.{AdmitsIf, Delivers, Obeyed, WaitsAlone, arriving, is_busy, waits_first};
ghost use Rattle.mes_double_live.specs.Lives.{one_more_busy, with_first, with_last, with_stock, with_taken};
ghost use Rattle.mes_double_live.specs.Moving.{Moves};
ghost use Rattle.mes_double_live.specs.Steps.{Admits, BeginsWith, Refuses, StepsTo, IsDelivering, overtaken_by};
ghost use Rattle.mes_double_live.specs.Steps.Step.{waits};

use super::Live;
use crate::fault::LiveFault;
use crate::stream_body::BUSY;
use mes_double_master::MasterRefusal;
use mes_json::NoMemory;
use mes_model::{Id, Offer, TaskStatus};
use mes_msg::Event;

impl Live {
    /// Takes an event from outside. OFFERS join the stock, and SUBSCRIBED is dropped. Any other
    /// event is sent on the current stream, or without one on the next, in order; RESCIND and UPDATE go
    /// through the master, and are dropped if the master refuses them.
    ///
    /// Events of these types are not sent. BUSY: the next call gets the status 503, and is not carried
    /// out. The others take effect in order. LOSE: the next event is not sent. TWICE: it is sent
    /// twice. Neither concerns the test master's own HEARTBEATs. MUTE: events are lost, until SPEAK
    /// or the next stream. BREAK: the stream breaks after the bytes before; events after it wait for
    /// the next stream.
    pub fn told(&mut self, event: Event) -> Result<(), LiveFault>
        // The test master changes only by its own deeds, and what these launch fits.
        ensures moves { Moves self.old.master self.new.master }
        // An event that is to be sent joins those that wait.
        ensures arrives { OnOk result (BeginsWith IsDelivering (arriving event) self.old self.new) }
        // Without a stream it waits, and nothing else changes.
        ensures alone { OnOk result (is_some self.old.master.stream ≡ false
            → WaitsAlone (arriving event) self.old self.new) }
        // After a BUSY one more call gets the status 503, and nothing else changes.
        ensures busy { is_busy event ≡ true → self.new ≡ one_more_busy self.old }
    {
        match event {
            Event::Subscribed(_) => Ok(()),
            Event::Offers(offers) => {
                self.stock(offers.into_vec())?;
                self.send_due()
            }
            event => self.take_other(event),
        }
    }

    /// Has one more call answered with 503 for a BUSY, or takes another event.
    fn take_other(&mut self, event: Event) -> Result<(), LiveFault>
        ensures moves { Moves self.old.master self.new.master }
        ensures arrives { OnOk result (BeginsWith IsDelivering (waits_first event) self.old self.new) }
        ensures alone { OnOk result (is_some self.old.master.stream ≡ false
            → WaitsAlone (waits_first event) self.old self.new) }
        ensures busy { is_busy event ≡ true → self.new ≡ one_more_busy self.old }
    {
        if is_busy(&event) {
            self.add_busy();
            Ok(())
        } else {
            self.take(event)
        }
    }

    /// Has one more call answered with 503.
    fn add_busy(&mut self)
        ensures { self.new ≡ one_more_busy self.old }
    {
        self.busy = self.busy.saturating_add(1);
    }

    /// Adds offers to the stock.
    fn stock(&mut self, offers: Vec<Offer>) -> Result<(), NoMemory>
        ensures same { self.new.master ≡ self.old.master }
        ensures stocked { OnOk result (self.new ≡ with_stock offers.items self.old) }
    {
        self.cluster.stock(offers)
    }

    /// Stores an event, and sends it on the current stream, unless there is no stream or earlier
    /// events wait.
    fn take(&mut self, event: Event) -> Result<(), LiveFault>
        ensures moves { Moves self.old.master self.new.master }
        ensures arrives { OnOk result
            (BeginsWith IsDelivering (waits event ∷ []) self.old self.new) }
        ensures alone { OnOk result (is_some self.old.master.stream ≡ false
            → self.new ≡ with_last event self.old) }
    {
        let is_first = self.waiting.is_empty();
        self.store(event)?;
        if !is_first || !self.has_stream() || !self.out.takes_more(usize::MAX) {
            return Ok(());
        }
        self.deliver_first()?;
        self.send_due()
    }

    /// Stores an event, to be sent later.
    fn store(&mut self, event: Event) -> Result<(), LiveFault>
        ensures same { self.new.master ≡ self.old.master }
        ensures stored { OnOk result (self.new ≡ with_last event self.old) }
    {
        match self.waiting.push_back(event) {
            Ok(()) => Ok(()),
            Err(_) => Err(LiveFault::NoMemory),
        }
    }

    /// Sends events that waited for a stream, until more than `most` bytes are pending. So a client
    /// that reads its stream receives any number of them in little memory.
    pub(super) fn deliver_waiting(&mut self, most: usize) -> Result<(), LiveFault>
        ensures moves { Moves self.old.master self.new.master }
        ensures steps { OnOk result (StepsTo IsDelivering self.old self.new) }
    {
        for _ in 0..self.waiting.len() {
            if !self.out.takes_more(most) {
                return Ok(());
            }
            self.deliver_first()?;
        }
        Ok(())
    }

    /// Sends the first event that waited for a stream, if there is one.
    fn deliver_first(&mut self) -> Result<(), LiveFault>
        ensures moves { Moves self.old.master self.new.master }
        ensures steps { OnOk result (StepsTo IsDelivering self.old self.new) }
    {
        match self.take_first() {
            Some(event) => self.deliver(&event),
            None => Ok(()),
        }
    }

    /// Takes the first event that waits, if there is one.
    fn take_first(&mut self) -> Option<Event>
        ensures same { self.new.master ≡ self.old.master }
        ensures taken { self.old ≡ with_taken result self.new }
    {
        self.waiting.pop_front()
    }

    /// Sends an event from outside, which waited until now, on the current stream.
    fn deliver(&mut self, event: &Event) -> Result<(), LiveFault>
        ensures moves { Moves self.old.master self.new.master }
        ensures steps { OnOk result (StepsTo IsDelivering (with_first event.now self.old) self.new) }
    {
        if self.admit(event)? {
            self.send(event)
        } else {
            Ok(())
        }
    }

    /// Makes an event from outside known to the master. Returns false if the master refuses it.
    fn admit(&mut self, event: &Event) -> Result<bool, NoMemory>
        ensures moves { Moves self.old.master self.new.master }
        ensures admits { IfOk result (λ admits. AdmitsIf admits event.now self.old self.new) }
    {
        match event {
            Event::Rescind(body) => self.note_rescind(&body.offer_id),
            Event::Update(body) => self.note_update(body.status.get()),
            _ => Ok(true),
        }
    }

    /// Sends an event, or does what its name demands of the stream.
    fn send(&mut self, event: &Event) -> Result<(), LiveFault>
        ensures same { self.new.master ≡ self.old.master }
        ensures delivers { OnOk result (Delivers event.now self.old self.new) }
    {
        if self.obeys(event) {
            return Ok(());
        }
        self.push(event)
    }

    /// Does what the name of an event demands of the stream. Returns false if it demands nothing.
    fn obeys(&mut self, event: &Event) -> bool
        ensures same { self.new.master ≡ self.old.master }
        ensures obeyed { result ≡ true → Obeyed event.now self.old self.new }
        ensures ignored { result ≡ false → self.new ≡ self.old }
    {
        match event {
            Event::Other(name) => self.out.obey(name.as_str()),
            _ => false,
        }
    }

    /// Takes an offer back. Returns false if the master refuses.
    fn note_rescind(&mut self, id: &Id) -> Result<bool, NoMemory>
        ensures moves { Moves self.old.master self.new.master }
        ensures admits { IfOk result (λ admits. AdmitsIf admits
            (event.Rescind (record { offer_id = id.now })) self.old self.new) }
    {
        match self.master.rescind(id.value.as_str()) {
            Ok(_) => {
                self.cluster.rescinded(id);
                Ok(true)
            }
            Err(MasterRefusal::NoMemory) => Err(NoMemory),
            Err(_) => Ok(false),
        }
    }

    /// Records a status from outside. Returns false if the master refuses it.
    fn note_update(&mut self, status: &TaskStatus) -> Result<bool, NoMemory>
        ensures moves { Moves self.old.master self.new.master }
        ensures admits { IfOk result (λ admits. AdmitsIf admits
            (event.Update (record { status = status.now })) self.old self.new) }
    {
        if !self.record(status)? {
            return Ok(false);
        }
        self.note_outside(status)?;
        Ok(true)
    }

    /// Records a status in the master. Returns false if the master refuses it.
    fn record(&mut self, status: &TaskStatus) -> Result<bool, NoMemory>
        ensures moves { Moves self.old.master self.new.master }
        ensures rest { self.new ≡ record self.old { master = self.new.master } }
        ensures records { IfOk result (λ records. records ≡ true
            → Admits (event.Update (record { status = status.now })) self.old.master
            self.new.master) }
        ensures refuses { IfOk result (λ records. records ≡ false
            → Refuses (event.Update (record { status = status.now })) self.old.master
            × (self.new ≡ self.old)) }
    {
        match self.master.note_update(status) {
            Ok(()) => Ok(true),
            Err(MasterRefusal::NoMemory) => Err(NoMemory),
            Err(_) => Ok(false),
        }
    }

    /// Notes a status from outside that the master recorded.
    fn note_outside(&mut self, status: &TaskStatus) -> Result<(), NoMemory>
        ensures same { self.new.master ≡ self.old.master }
        ensures tasks { OnOk result (self.new.cluster.tasks
            ≡ overtaken_by (event.Update (record { status = status.now })) self.old.cluster.tasks) }
        ensures body { OnOk result (self.new.out ≡ self.old.out) }
        ensures waiting { OnOk result (self.new.waiting ≡ self.old.waiting) }
    {
        self.note_sent(status)?;
        self.cluster
            .overtaken(&status.task_id, status.state, self.time);
        Ok(())
    }
}

/// Returns whether the event is a BUSY.
fn is_busy(event: &Event) -> bool
    ensures { result ≡ is_busy event.now }
{
    match event {
        Event::Other(name) => name.as_str() == BUSY,
        _ => false,
    }
}
