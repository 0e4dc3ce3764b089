//! The state of a live test master. `calling.rt` handles calls, `accepting.rt` ACCEPT, and
//! `following.rt` does what other calls demand. `telling.rt` takes the events from outside,
//! `reporting.rt` sends updates, `logging.rt` sends events and logs them, and `reading.rt` has the
//! read access to the state.
ghost use Rattle.std.specs.Prelude.{◌≡◌, ◌≤◌, [], ◌∷◌, true, false, is_some, option_copied, IfOk, OnOk};
ghost use Rattle.mes_double_cluster.specs.Clusters.{offer_at};
ghost use Rattle.mes_double_live.specs.Bodies.{empty, written, breaks_now, released};
ghost use Rattle.mes_double_live.specs.Lives.{at_time, broke, faults_taken, new_live};
ghost use Rattle.mes_double_live.specs.Moving.{Moves};
ghost use Rattle.mes_double_live.specs.Opening.{ChangesBy};
ghost use Rattle.mes_double_master.specs.Masters.{stream_broke};
ghost use Rattle.mes_double_live.specs.Steps.{MakesAll, MakesMore, StepsTo, IsSending, IsEnding, IsOfTime, IsTaking};
ghost use Rattle.mes_double_live.specs.Steps.Step.{beats, clears};

mod accepting;
mod calling;
mod following;
mod logging;
mod reading;
mod reporting;
mod telling;

use crate::fault::LiveFault;
use crate::reply::EndedStream;
use crate::run_log::RunLog;
use crate::settings::Settings;
use crate::stream_body::StreamBody;
use mes_double_cluster::{Cluster, SentUpdates};
use mes_double_faults::{Fault, FaultPlan};
use mes_double_http::StreamId;
use mes_double_master::{Master, MasterRefusal};
use mes_frame::{MAX_CHUNK, MIN_CHUNK};
use mes_json::NoMemory;
use mes_model::Offer;
use mes_model_schema::List;
use mes_msg::Event;
use std::alloc::Global;
use std::collections::VecDeque;
use std::marker::Model;
use std::slice;

/// The number of pending bytes of a stream above which events that wait for it go on waiting: 1 MiB.
pub(crate) const MAX_AHEAD: usize = 1_048_576;

/// A live test master: a test master with its cluster, and the current stream. Times are in
/// milliseconds. In contracts its value is `LiveState`.
#[derive(Drop)]
pub struct Live {
    alloc: Global,
    settings: Settings,
    master: Master,
    cluster: Cluster,
    /// When each unacknowledged update was sent last, in the order of the master's list of them.
    sent: SentUpdates,
    /// The body of the current stream; empty without one.
    out: StreamBody,
    /// The events from outside that came without a stream, and are not sent yet.
    waiting: VecDeque<Event>,
    /// The latest time that was passed.
    time: u64,
    /// The time of the next HEARTBEAT on the current stream.
    beats_at: u64,
    /// The number of calls that are to be answered with 503, as standard input demands.
    busy: u64,
    /// The number of calls of the run. It stops at 2^32 - 1.
    calls: u32,
    /// The number of planned faults that [`Live::take_happened`] returned. It stops at 2^64 - 1.
    taken: u64,
    /// The last events sent and calls answered.
    log: RunLog,
}

impl Model for Live {
    ghost use Rattle.std.specs.Coded.{codes};
    ghost use Rattle.mes_model_schema.specs.MembersCode.{members_code};
    ghost use Rattle.mes_double_live.specs.Lives.{LiveState};

    ghost Value = { LiveState };

    ghost coded = { Prim.hlevel (codes, members_code) };

    ghost view = { λ live. record {
      master = live.master;
      cluster = live.cluster;
      sent = live.sent;
      out = live.out;
      waiting = live.waiting.items;
      busy = live.busy;
      calls = live.calls;
      time = live.time;
      taken = live.taken;
      log = live.log;
    } };
}

impl Live {
    /// Returns a live test master without a stream, at the time 0, with these planned faults of events
    /// and calls. Chunks have at most `settings.most` bytes, from `MIN_CHUNK` to `MAX_CHUNK`. Does not
    /// allocate.
    pub fn new(alloc: Global, master: Master, settings: &Settings, plan: FaultPlan) -> Live
        requires least { MIN_CHUNK ≤ settings.now.most }
        requires greatest { settings.now.most ≤ MAX_CHUNK }
        ensures { result ≡ new_live master settings.now.finish_after
            (empty settings.now.most plan) }
    {
        Live {
            alloc,
            settings: *settings,
            master,
            cluster: Cluster::new(alloc, settings.finish_after),
            sent: SentUpdates::new(alloc),
            out: StreamBody::new(alloc, settings.most, plan),
            waiting: VecDeque::new(alloc),
            time: 0,
            beats_at: 0,
            busy: 0,
            calls: 0,
            taken: 0,
            log: RunLog::new(alloc),
        }
    }

    /// Returns the allocator.
    pub fn alloc(&self) -> Global {
        self.alloc
    }

    /// Returns the id of the current stream.
    pub fn stream(&self) -> Option<&StreamId>
        ensures { option_copied result ≡ self.now.master.stream }
    {
        self.master.stream()
    }

    /// Returns a copy of the id of the current stream.
    fn current(&self) -> Option<StreamId>
        ensures { result ≡ self.now.master.stream }
    {
        match self.master.stream() {
            Some(id) => Some(id.copy()),
            None => None,
        }
    }

    fn has_stream(&self) -> bool
        ensures { result ≡ is_some self.now.master.stream }
    {
        self.master.stream().is_some()
    }

    /// Returns the bytes of the current stream that are not written.
    pub fn pending(&self) -> &[u8]
        ensures { result.now ≡ self.now.out.pending }
    {
        self.out.pending()
    }

    /// Returns whether the current stream is to break now: a BREAK came, and all bytes before it are
    /// written.
    pub fn is_broken_off(&self) -> bool
        ensures { result ≡ breaks_now self.now.out }
    {
        self.out.is_broken_off()
    }

    /// Returns the planned faults that happened since the last call, in order.
    pub fn take_happened(&mut self) -> Vec<Fault>
        ensures taken { result.items ≡ self.old.out.happened }
        ensures rest { self.new ≡ faults_taken self.old }
        ensures steps { StepsTo IsTaking self.old self.new }
    {
        let happened = self.out.take_happened();
        self.taken = self.taken.saturating_add(happened.len() as u64);
        happened
    }

    /// Notes that the first `count` pending bytes were written.
    pub fn wrote(&mut self, count: usize)
        ensures state { self.new ≡ record self.old { out = written count self.old.out } }
        ensures steps { StepsTo IsTaking self.old self.new }
    {
        self.out.wrote(count);
    }

    /// Notes that the current stream was disconnected: its pending bytes are lost, no offer is
    /// outstanding, and calls get 403 until the next SUBSCRIBE.
    pub fn broken(&mut self)
        ensures state { self.new ≡ broke self.old }
        ensures moves { Moves self.old.master self.new.master }
        ensures steps { StepsTo IsEnding self.old self.new }
    {
        self.master.broken();
        self.cluster.disconnected(self.time);
        self.out.clear();
    }

    /// Ends the current stream by the events that wait for it and its last chunk, and returns what is
    /// not written of it, or `None` without a stream. Otherwise it is like [`Live::broken`].
    pub fn stop(&mut self) -> Result<Option<EndedStream>, LiveFault>
        ensures moves { Moves self.old.master self.new.master }
        ensures steps { OnOk result (StepsTo IsEnding self.old self.new) }
        ensures alone { is_some self.old.master.stream ≡ false → self.new ≡ self.old }
    {
        let Some(id) = self.current() else {
            return Ok(None);
        };
        self.deliver_waiting(usize::MAX)?;
        self.break_stream();
        Ok(Some(self.end_stream(id)?))
    }

    /// Notes in the master that the current stream was disconnected.
    fn break_stream(&mut self)
        ensures moves { Moves self.old.master self.new.master }
        ensures broken { self.new.master ≡ stream_broke self.old.master }
        ensures rest { self.new ≡ record self.old { master = self.new.master } }
    {
        self.master.broken();
    }

    /// Ends the current stream by its last chunk. The offers that were outstanding are free.
    fn end_stream(&mut self, id: StreamId) -> Result<EndedStream, LiveFault>
        ensures same { self.new.master ≡ self.old.master }
        ensures ends { OnOk result (ChangesBy (clears ∷ []) self.old self.new) }
    {
        self.cluster.disconnected(self.time);
        let rest = self.out.end()?;
        Ok(EndedStream { id, rest })
    }

    /// Notes the time. Late events whose time has come may be written. Events that wait for the
    /// stream are sent if few bytes are pending; and so are a HEARTBEAT, updates and offers that are
    /// due. A time before the latest one counts as that one.
    pub fn passed(&mut self, now: u64) -> Result<(), LiveFault>
        // The test master changes only by its own deeds, and what these launch fits.
        ensures moves { Moves self.old.master self.new.master }
        ensures steps { OnOk result (StepsTo (IsOfTime (at_time now self.old).time)
            self.old self.new) }
        // Without a stream only the time changes.
        ensures alone { OnOk result (is_some self.old.master.stream ≡ false
            → self.new ≡ at_time now self.old) }
    {
        self.note_time(now);
        if !self.has_stream() {
            return Ok(());
        }
        self.release()?;
        self.deliver_waiting(MAX_AHEAD)?;
        self.beat_due()?;
        self.resend_due()?;
        self.send_due()
    }

    /// Ends that bytes of a late event are held, if their time has come.
    fn release(&mut self) -> Result<(), NoMemory>
        ensures same { self.new.master ≡ self.old.master }
        ensures released { OnOk result
            (self.new.out ≡ released self.old.time self.old.out) }
        ensures rest { self.new ≡ record self.old { out = self.new.out } }
    {
        self.out.release(self.time)
    }

    fn note_time(&mut self, now: u64)
        ensures { self.new ≡ at_time now self.old }
    {
        self.time = self.time.max(now);
    }

    /// Sends a HEARTBEAT if one is due.
    fn beat_due(&mut self) -> Result<(), LiveFault>
        ensures same { self.new.master ≡ self.old.master }
        ensures steps { OnOk result (StepsTo IsSending self.old self.new) }
    {
        if self.beats_at <= self.time {
            self.beat()
        } else {
            Ok(())
        }
    }

    /// Returns the first time at which something is due on the current stream; `None` without a
    /// stream.
    pub fn first_due(&self) -> Option<u64> {
        self.master.stream()?;
        if !self.waiting.is_empty() && self.out.takes_more(MAX_AHEAD) {
            return Some(self.time);
        }
        let first = match self.cluster.first_due() {
            Some(due) => due.min(self.beats_at),
            None => self.beats_at,
        };
        let first = match self.out.until() {
            Some(due) => due.min(first),
            None => first,
        };
        match self.first_resend() {
            Some(due) => Some(due.min(first)),
            None => Some(first),
        }
    }

    /// Returns the first time at which an update is sent again.
    fn first_resend(&self) -> Option<u64> {
        match self.settings.resend {
            Some(every) => self.sent.first_due(every),
            None => None,
        }
    }

    /// Sends a HEARTBEAT on the current stream. The next one is due an interval later. Does nothing
    /// without a stream.
    pub fn beat(&mut self) -> Result<(), LiveFault>
        ensures same { self.new.master ≡ self.old.master }
        ensures steps { OnOk result (StepsTo IsSending self.old self.new) }
        ensures beats { OnOk result (is_some self.old.master.stream ≡ true
            → ChangesBy (beats ∷ []) self.old self.new) }
        ensures alone { is_some self.old.master.stream ≡ false → self.new ≡ self.old }
    {
        if !self.has_stream() {
            return Ok(());
        }
        self.beats_at = self.time.saturating_add(self.settings.heartbeat);
        self.out.beat()
    }

    /// Sends the updates and then the offers that are due. Does nothing without a stream.
    fn send_due(&mut self) -> Result<(), LiveFault>
        ensures moves { Moves self.old.master self.new.master }
        ensures steps { OnOk result (StepsTo IsSending self.old self.new) }
        ensures alone { is_some self.old.master.stream ≡ false → self.new ≡ self.old }
    {
        if !self.has_stream() {
            return Ok(());
        }
        self.report_due()?;
        self.offer_due()
    }

    /// Makes the offers that are due, and sends them in one event.
    fn offer_due(&mut self) -> Result<(), LiveFault>
        ensures moves { Moves self.old.master self.new.master }
        ensures steps { OnOk result (StepsTo IsSending self.old self.new) }
    {
        let made = self.make_offers()?;
        if made.is_empty() {
            return Ok(());
        }
        self.push(&Event::Offers(List::new(made)))
    }

    /// Makes the offers that are due.
    fn make_offers(&mut self) -> Result<Vec<Offer>, LiveFault>
        ensures moves { Moves self.old.master self.new.master }
        ensures rest { self.new
            ≡ record self.old { master = self.new.master; cluster = self.new.cluster } }
        ensures tasks { OnOk result (self.new.cluster.tasks ≡ self.old.cluster.tasks) }
        ensures made { IfOk result (λ made. MakesAll made.items self.old.master self.new.master) }
    {
        let mut made = Vec::new(self.alloc());
        for index in 0..self.stock_len() {
            self.make_offer_at(index, &mut made)?;
        }
        Ok(made)
    }

    /// Makes the offer at an index of the stock, if it is due, and appends it to those that were
    /// made.
    fn make_offer_at(&mut self, index: usize, made: &mut Vec<Offer>) -> Result<(), LiveFault>
        ensures moves { Moves self.old.master self.new.master }
        ensures rest { self.new
            ≡ record self.old { master = self.new.master; cluster = self.new.cluster } }
        ensures tasks { OnOk result (self.new.cluster.tasks ≡ self.old.cluster.tasks) }
        ensures made { OnOk result (MakesMore made.old.items self.old.master made.new.items
            self.new.master) }
    {
        match self.next_offer(index)? {
            Some(offer) => self.make_offer(index, offer, made),
            None => Ok(()),
        }
    }

    fn stock_len(&self) -> usize {
        self.cluster.stock_len()
    }

    /// Returns the offer at an index of the stock under a new identifier, if it is due.
    fn next_offer(&mut self, index: usize) -> Result<Option<Offer>, NoMemory>
        ensures offer { IfOk result (λ offer. (offer, self.new.cluster)
            ≡ offer_at index self.old.time self.old.cluster) }
        ensures rest { self.new ≡ record self.old { cluster = self.new.cluster } }
        ensures same { self.new.master ≡ self.old.master }
    {
        self.cluster.offer_at(index, self.time)
    }

    /// Makes the offer at an index of the stock, and appends it to those that were made. If its
    /// identifier was used before, the offer gets the next one later.
    fn make_offer(
        &mut self,
        index: usize,
        offer: Offer,
        made: &mut Vec<Offer>,
    ) -> Result<(), LiveFault>
        ensures moves { Moves self.old.master self.new.master }
        ensures rest { self.new
            ≡ record self.old { master = self.new.master; cluster = self.new.cluster } }
        ensures tasks { self.new.cluster.tasks ≡ self.old.cluster.tasks }
        ensures made { OnOk result (MakesMore made.old.items self.old.master made.new.items
            self.new.master) }
    {
        match self.master.note_offers(slice::from_ref(&offer)) {
            Ok(()) => {
                self.cluster.offered(index);
                match made.push(offer) {
                    Ok(()) => Ok(()),
                    Err(_) => Err(LiveFault::NoMemory),
                }
            }
            Err(MasterRefusal::NoMemory) => Err(LiveFault::NoMemory),
            Err(_) => Ok(()),
        }
    }
}
