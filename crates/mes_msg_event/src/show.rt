//! Prints an event as lines. `line_fields.rt` writes the fields of a line.

ghost use Rattle.std.specs.Prelude.{◌≡◌, ◌++◌, IfOk};
ghost use Rattle.std.specs.List.{flat_map};
ghost use Rattle.mes_msg_event.specs.ShowLines.{spaced, update_words, event_words, offer_line, event_lines};

use crate::event::Event;
use crate::line_fields::{
    put_id, put_number, put_some_id, put_some_seconds, put_some_signed, put_some_uuid, put_text,
    put_word,
};
use itoa::Buffer;
use mes_model_offer::Offer;
use mes_model_schema::json::NoMemory;
use mes_model_task::TaskStatus;
use std::alloc::Global;

impl Event {
    /// Returns the printed lines of the event with this number, each with its LF. There is one
    /// line; OFFERS has one more for each offer.
    ///
    /// Errors: `NoMemory` if an allocation fails.
    pub fn show_lines(&self, alloc: Global, number: u64) -> Result<Vec<u8>, NoMemory>
        ensures { IfOk result (λ lines. lines.items ≡ event_lines number self.now) }
    {
        let mut lines = Vec::new(alloc);
        self.push_lines(number, &mut lines)?;
        Ok(lines)
    }

    /// Like [`Event::show_lines`], but appends to `lines` and allocates only if its capacity is too
    /// small.
    ///
    /// Errors: `NoMemory` if an allocation fails; part of the lines may then have been appended.
    pub fn push_lines(&self, number: u64, lines: &mut Vec<u8>) -> Result<(), NoMemory>
        // On success: exactly the lines of the event are appended.
        ensures { IfOk result (λ _. lines.new.items
            ≡ lines.old.items ++ event_lines number self.now) }
    {
        lines.extend_from_slice(Buffer::new().format(number).as_bytes())?;
        put_event(self, lines)?;
        lines.extend_from_slice(b"\n")?;
        if let Event::Offers(offers) = self {
            put_offers(offers.as_slice(), lines)?;
        }
        Ok(())
    }
}

fn put_event(event: &Event, line: &mut Vec<u8>) -> Result<(), NoMemory>
    ensures { IfOk result (λ _. line.new.items ≡ line.old.items ++ spaced (event_words event.now)) }
{
    match event {
        Event::Subscribed(body) => {
            put_word("SUBSCRIBED", line)?;
            put_id(&body.framework_id, line)?;
            put_some_seconds(&body.heartbeat_interval_seconds, line)
        }
        Event::Offers(offers) => {
            put_word("OFFERS", line)?;
            put_number(offers.len() as u64, line)
        }
        Event::Rescind(body) => {
            put_word("RESCIND", line)?;
            put_id(&body.offer_id, line)
        }
        Event::Update(body) => put_update(body.status.get(), line),
        Event::Message(body) => {
            put_word("MESSAGE", line)?;
            put_id(&body.agent_id, line)?;
            put_id(&body.executor_id, line)?;
            put_number(body.payload.len() as u64, line)
        }
        Event::Failure(body) => {
            put_word("FAILURE", line)?;
            put_some_id(&body.agent_id, line)?;
            put_some_id(&body.executor_id, line)?;
            put_some_signed(body.status, line)
        }
        Event::Error(body) => {
            put_word("ERROR", line)?;
            put_text(body.message.as_str(), line)
        }
        Event::Heartbeat => put_word("HEARTBEAT", line),
        Event::Other(name) => {
            put_word("OTHER", line)?;
            put_text(name.as_str(), line)
        }
    }
}

fn put_update(status: &TaskStatus, line: &mut Vec<u8>) -> Result<(), NoMemory>
    ensures { IfOk result (λ _. line.new.items
        ≡ line.old.items ++ spaced (update_words status.now)) }
{
    put_word("UPDATE", line)?;
    put_id(&status.task_id, line)?;
    put_word(status.state.name(), line)?;
    put_some_uuid(&status.uuid, line)
}

fn put_offers(offers: &[Offer], lines: &mut Vec<u8>) -> Result<(), NoMemory>
    ensures { IfOk result (λ _. lines.new.items
        ≡ lines.old.items ++ flat_map offer_line offers.now) }
{
    for offer in offers {
        put_offer(offer, lines)?;
    }
    Ok(())
}

fn put_offer(offer: &Offer, lines: &mut Vec<u8>) -> Result<(), NoMemory>
    ensures { IfOk result (λ _. lines.new.items ≡ lines.old.items ++ offer_line offer.now) }
{
    lines.extend_from_slice(b" ")?;
    put_id(&offer.id, lines)?;
    put_id(&offer.agent_id, lines)?;
    put_text(offer.hostname.as_str(), lines)?;
    put_number(offer.resources.len() as u64, lines)?;
    lines.extend_from_slice(b"\n")?;
    Ok(())
}
