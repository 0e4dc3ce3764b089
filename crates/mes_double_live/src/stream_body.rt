//! The body of the current stream: the bytes that are not written yet.
ghost use Rattle.std.specs.Prelude.{◌≡◌, ◌≤◌, ◌==◌, ◌++◌, ◌∷◌, [], length, Some, None, OnOk, IfOk};
ghost use Rattle.mes_frame.specs.Frames.{record_bytes};
ghost use Rattle.mes_msg.specs.Canon.{canonical_text};
ghost use Rattle.mes_msg.specs.Event.TheVariants.{Heartbeat};
ghost use Rattle.mes_double_live.specs.Bodies.{empty, flows, last_chunk, written, cleared, muted, unmuted, released, held_back, counted, next_fault, due, is_empty, Appends, appended, breaks_now, Beats, Obeys, Sends, SendsBy};
ghost use Rattle.mes_double_faults.specs.declared.fault.EventFault.TheVariants.{Cut};
ghost use Rattle.mes_double_live.specs.declared.stream_body.Delivery.TheVariants.{Broken, Flowing};

use crate::fault::{LiveFault, unsent};
use mes_double_faults::{EventFault, Fault, FaultPlan};
use mes_frame::{Limit, MAX_CHUNK, MIN_CHUNK, MemorySink, write_chunked};
use mes_json::NoMemory;
use mes_msg::Event;
use mes_stream::encode_each;
use std::alloc::Global;
use std::marker::Model;
use std::mem;

/// The last chunk of a body, without trailers (RFC 9112 section 7.1).
const LAST_CHUNK: &[u8] = b"0\r\n\r\n";

/// The names of events that are not sent, but demand something of the stream or of the test master.
const LOSE: &str = "LOSE";

const TWICE: &str = "TWICE";

const MUTE: &str = "MUTE";

const SPEAK: &str = "SPEAK";

const BREAK: &str = "BREAK";

pub(crate) const BUSY: &str = "BUSY";

/// The number of milliseconds in a second.
const MILLIS: u64 = 1_000;

/// Whether events are sent on a stream.
#[derive(Clone, Copy, Debug, PartialEq, Eq)]
pub(crate) enum Delivery {
    /// Events are sent.
    Flowing,
    /// Events are lost, and the stream stays open.
    Muted,
    /// Events are lost, and the connection is to be closed once the pending bytes are written.
    Broken,
}

/// The bytes of a chunked body that are not written yet, and what happens to the events. In contracts
/// its value is `BodyState`. Times are in milliseconds.
#[derive(Drop)]
pub(crate) struct StreamBody {
    alloc: Global,
    /// The largest chunk in bytes, from `MIN_CHUNK` to `MAX_CHUNK`.
    most: u32,
    /// What happens to the next event, as standard input demands.
    fault: Option<EventFault>,
    delivery: Delivery,
    /// The planned faults of the run.
    plan: FaultPlan,
    /// The number of events of the run, on all streams, that were neither HEARTBEATs nor lost because
    /// their stream was muted or broken. It stops at 2^32 - 1.
    count: u32,
    /// The planned faults that happened, and were not taken by [`StreamBody::take_happened`].
    happened: Vec<Fault>,
    bytes: Vec<u8>,
    /// The number of bytes at the start of `bytes` that were written, at most the length of
    /// `bytes`.
    written: usize,
    /// The bytes that follow `bytes`, and may not be written before the time `until`.
    held: Vec<u8>,
    /// The time until which further bytes are held.
    until: Option<u64>,
}

impl Model for StreamBody {
    ghost use Rattle.std.specs.Prelude.{◌≤◌, drop, length};
    ghost use Rattle.mes_frame.specs.declared.limits.TheConstants.{MIN_CHUNK, MAX_CHUNK};
    ghost use Rattle.mes_double_live.specs.Bodies.{BodyState};

    ghost Value = { BodyState };

    ghost view = { λ b. record {
      most = b.most;
      pending = drop b.written b.bytes.items;
      held = b.held.items;
      until = b.until;
      fault = b.fault;
      delivery = b.delivery;
      plan = b.plan;
      count = b.count;
      happened = b.happened.items;
    } };

    ghost invariant = { λ b. (b.written ≤ length b.bytes.items) × (MIN_CHUNK ≤ b.most)
        × (b.most ≤ MAX_CHUNK) };
}

impl StreamBody {
    /// Returns an empty body with chunks of at most `most` bytes, from `MIN_CHUNK` to `MAX_CHUNK`,
    /// and with these planned faults. Does not allocate.
    pub fn new(alloc: Global, most: u32, plan: FaultPlan) -> StreamBody
        requires least { MIN_CHUNK ≤ most }
        requires greatest { most ≤ MAX_CHUNK }
        ensures { result ≡ empty most plan }
    {
        StreamBody {
            alloc,
            most,
            fault: None,
            delivery: Delivery::Flowing,
            plan,
            count: 0,
            happened: Vec::new(alloc),
            bytes: Vec::new(alloc),
            written: 0,
            held: Vec::new(alloc),
            until: None,
        }
    }

    /// Returns the bytes that may be written, and are not.
    pub fn pending(&self) -> &[u8]
        ensures { result.now ≡ self.now.pending }
    {
        &self.bytes[self.written..]
    }

    /// Returns the planned faults.
    pub fn plan(&self) -> &FaultPlan
        ensures { result.now ≡ self.now.plan }
    {
        &self.plan
    }

    /// Notes that the first `count` pending bytes were written.
    pub fn wrote(&mut self, count: usize)
        ensures { self.new ≡ written count self.old }
    {
        self.written = self.written.saturating_add(count).min(self.bytes.len());
    }

    /// Returns the time until which bytes are held.
    pub fn until(&self) -> Option<u64>
        ensures { result ≡ self.now.until }
    {
        self.until
    }

    /// Ends that bytes are held, if their time has come.
    pub fn release(&mut self, now: u64) -> Result<(), NoMemory>
        ensures { OnOk result (self.new ≡ released now self.old) }
    {
        match self.until {
            Some(until) if until <= now => self.release_all(),
            _ => Ok(()),
        }
    }

    /// Ends that bytes are held.
    fn release_all(&mut self) -> Result<(), NoMemory>
        ensures { OnOk result (self.new ≡ record self.old {
          pending = self.old.pending ++ self.old.held;
          held = [];
          until = None;
        }) }
    {
        self.drop_written();
        self.bytes.extend_from_slice(self.held.as_slice())?;
        self.held.clear();
        self.until = None;
        Ok(())
    }

    /// Holds further bytes until a time at least.
    fn hold(&mut self, until: u64)
        ensures { self.new ≡ held_back until self.old }
    {
        self.until = match self.until {
            Some(held) => Some(held.max(until)),
            None => Some(until),
        };
    }

    /// Has this happen to the next event.
    pub fn set_fault(&mut self, fault: EventFault)
        ensures { self.new ≡ record self.old { fault = Some fault } }
    {
        self.fault = Some(fault);
    }

    /// Mutes the stream, unless it is broken.
    pub fn mute(&mut self)
        ensures { self.new ≡ muted self.old }
    {
        if self.delivery == Delivery::Flowing {
            self.delivery = Delivery::Muted;
        }
    }

    /// Ends that the stream is muted.
    pub fn speak(&mut self)
        ensures { self.new ≡ unmuted self.old }
    {
        if self.delivery == Delivery::Muted {
            self.delivery = Delivery::Flowing;
        }
    }

    /// Breaks the stream after the pending bytes.
    pub fn break_off(&mut self)
        ensures { self.new ≡ record self.old { delivery = Broken } }
    {
        self.delivery = Delivery::Broken;
    }

    /// Does what an event of this name demands: LOSE, TWICE, MUTE, SPEAK or BREAK. Returns false, and
    /// does nothing, for another name.
    pub fn obey(&mut self, name: &str) -> bool
        ensures { Obeys name.now self.old self.new result }
    {
        match name {
            LOSE => self.set_fault(EventFault::Lost),
            TWICE => self.set_fault(EventFault::Repeated),
            MUTE => self.mute(),
            SPEAK => self.speak(),
            BREAK => self.break_off(),
            _ => return false,
        }
        true
    }

    /// Returns whether events are sent: the stream is neither muted nor broken.
    pub fn is_flowing(&self) -> bool
        ensures { result ≡ flows self.now.delivery }
    {
        self.delivery == Delivery::Flowing
    }

    /// Returns whether the stream is to break now: it is broken, and all bytes before are written.
    pub fn is_broken_off(&self) -> bool
        ensures { result ≡ breaks_now self.now }
    {
        self.delivery == Delivery::Broken && self.unwritten() == 0
    }

    /// Returns the number of bytes that are not written, those that are held among them. It stops at
    /// the greatest `usize`.
    fn unwritten(&self) -> usize
        ensures { (result == 0) ≡ is_empty (self.now.pending ++ self.now.held) }
    {
        self.pending().len().saturating_add(self.held.len())
    }

    /// Returns whether the stream is not broken, and at most `most` bytes are not written.
    pub fn takes_more(&self, most: usize) -> bool {
        self.delivery != Delivery::Broken && self.unwritten() <= most
    }

    /// Appends the chunks of an event's record with the fault of this event, at the time `now`. The
    /// event is lost if the stream is muted or broken.
    pub fn push(&mut self, event: &Event, now: u64) -> Result<(), LiveFault>
        ensures { OnOk result (Sends now self.old (record_bytes (canonical_text event.now))
            self.new) }
    {
        if self.delivery != Delivery::Flowing {
            return Ok(());
        }
        let record = self.encoded(event)?;
        let fault = self.next_fault()?;
        self.push_with(fault, now, record.as_slice())?;
        Ok(())
    }

    /// Counts an event. Returns its fault: that which standard input demands, or the planned one.
    fn next_fault(&mut self) -> Result<Option<EventFault>, NoMemory>
        ensures fault { IfOk result (λ fault. fault ≡ next_fault self.old) }
        ensures counted { OnOk result (self.new ≡ counted self.old) }
    {
        self.count = self.count.saturating_add(1);
        if let Some(fault) = self.fault.take() {
            return Ok(Some(fault));
        }
        let planned = self.plan.of_event(u64::from(self.count));
        if let Some(fault) = planned {
            self.happened.push(Fault::Event(self.count, fault))?;
        }
        Ok(planned)
    }

    /// Notes that a planned fault happened.
    pub fn note(&mut self, fault: Fault) -> Result<(), NoMemory>
        ensures { OnOk result
            (self.new ≡ record self.old { happened = self.old.happened ++ fault ∷ [] }) }
    {
        self.happened.push(fault)?;
        Ok(())
    }

    /// Returns the number of events of the run. It stops at 2^32 - 1.
    pub fn count(&self) -> u32
        ensures { result ≡ self.now.count }
    {
        self.count
    }

    /// Returns the number of planned faults that happened since the last call of
    /// [`StreamBody::take_happened`].
    pub fn happened_len(&self) -> usize
        ensures { result ≡ length self.now.happened }
    {
        self.happened.len()
    }

    /// Returns the planned faults that happened since the last call.
    pub fn take_happened(&mut self) -> Vec<Fault>
        ensures taken { result.items ≡ self.old.happened }
        ensures rest { self.new ≡ record self.old { happened = [] } }
    {
        mem::replace(&mut self.happened, Vec::new(self.alloc))
    }

    /// Appends the chunks of a HEARTBEAT's record, which no fault concerns. The HEARTBEAT is lost if
    /// the stream is muted or broken.
    pub fn beat(&mut self) -> Result<(), LiveFault>
        ensures { OnOk result (Beats self.old (record_bytes (canonical_text Heartbeat)) self.new) }
    {
        if self.delivery != Delivery::Flowing {
            return Ok(());
        }
        let record = self.encoded(&Event::Heartbeat)?;
        self.push_chunks(record.as_slice())?;
        Ok(())
    }

    /// Returns the record of an event.
    fn encoded(&self, event: &Event) -> Result<Vec<u8>, LiveFault>
        ensures { IfOk result (λ made. made.items ≡ record_bytes (canonical_text event.now)) }
    {
        match encode_each(self.alloc, &[event], Limit::LARGEST) {
            Ok(encoded) => Ok(encoded),
            Err(fault) => Err(unsent(fault)),
        }
    }

    /// Appends the chunks of a record, with this fault.
    fn push_with(
        &mut self,
        fault: Option<EventFault>,
        now: u64,
        bytes: &[u8],
    ) -> Result<(), NoMemory>
        ensures { OnOk result (SendsBy fault now self.old bytes.now self.new) }
    {
        match fault {
            None => self.push_chunks(bytes),
            Some(EventFault::Lost) => Ok(()),
            Some(EventFault::Repeated) => {
                self.push_chunks(bytes)?;
                self.push_chunks(bytes)
            }
            Some(EventFault::Cut(most)) => self.cut(bytes, most),
            Some(EventFault::Late(seconds)) => {
                self.hold(due(now, seconds));
                self.push_chunks(bytes)
            }
            Some(EventFault::Muted) => {
                self.push_chunks(bytes)?;
                self.mute();
                Ok(())
            }
        }
    }

    /// Appends chunks of the first `most` bytes, and breaks the stream after them.
    fn cut(&mut self, bytes: &[u8], most: u32) -> Result<(), NoMemory>
        ensures { OnOk result (SendsBy (Some (Cut most)) 0 self.old bytes.now self.new) }
    {
        let end = bytes.len().min(most as usize);
        self.push_chunks(&bytes[..end])?;
        self.break_off();
        Ok(())
    }

    /// Appends chunks of these bytes, without the last chunk of a body.
    fn push_chunks(&mut self, bytes: &[u8]) -> Result<(), NoMemory>
        ensures { OnOk result (Appends self.old bytes.now self.new) }
    {
        let mut sink = MemorySink::new(self.alloc, usize::MAX);
        if write_chunked(&mut sink, bytes, self.most).is_err() {
            return Err(NoMemory);
        }
        let body = sink.bytes();
        let chunks = body.len().saturating_sub(LAST_CHUNK.len());
        self.append(&body[..chunks])
    }

    /// Appends chunks to the bytes that may be written, or to those that are held.
    fn append(&mut self, chunks: &[u8]) -> Result<(), NoMemory>
        ensures { OnOk result (self.new ≡ appended chunks.now self.old) }
    {
        match self.until {
            None => {
                self.drop_written();
                self.bytes.extend_from_slice(chunks)?;
            }
            Some(_) => self.held.extend_from_slice(chunks)?,
        }
        Ok(())
    }

    /// Ends the body: returns the bytes that are not written, held or not, and the last chunk. The
    /// body is empty afterwards, and nothing concerns further events but the planned faults.
    pub fn end(&mut self) -> Result<Vec<u8>, NoMemory>
        ensures rest { IfOk result (λ rest. rest.items
            ≡ self.old.pending ++ self.old.held ++ last_chunk) }
        ensures cleared { OnOk result (self.new ≡ cleared self.old) }
    {
        self.release_all()?;
        self.bytes.extend_from_slice(LAST_CHUNK)?;
        let mut rest = mem::replace(&mut self.bytes, Vec::new(self.alloc));
        rest.drain(..self.written);
        self.written = 0;
        self.end_faults();
        Ok(rest)
    }

    /// Drops all bytes, and ends what concerns further events but the planned faults.
    pub fn clear(&mut self)
        ensures { self.new ≡ cleared self.old }
    {
        self.bytes.clear();
        self.written = 0;
        self.held.clear();
        self.until = None;
        self.end_faults();
    }

    /// Has further events be sent, each once.
    fn end_faults(&mut self)
        ensures { self.new ≡ record self.old { fault = None; delivery = Flowing } }
    {
        self.fault = None;
        self.delivery = Delivery::Flowing;
    }

    /// Frees the space of the bytes that were written, once they are at least half of all, so that
    /// each byte is moved only once on average.
    fn drop_written(&mut self)
        ensures { self.new ≡ self.old }
    {
        if self.written < self.bytes.len() - self.written {
            return;
        }
        self.bytes.drain(..self.written);
        self.written = 0;
    }
}

/// Returns the time this number of seconds after `now`. It stops at 2^64 - 1.
fn due(now: u64, seconds: u32) -> u64
    ensures { result ≡ due now seconds }
{
    now.saturating_add(u64::from(seconds).saturating_mul(MILLIS))
}
