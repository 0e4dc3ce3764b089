//! Example rows of a test master: its responses, the events that it sends, and its state.

use crate::held::held_by_master;
use crate::messages::{call_of, event_of, say_event};
use crate::outcome::Reported;
use crate::parsing::{ask_twice, change, look_at};
use crate::streams::report_events;
use crate::texts::text_named;
use crate::words::Words;
use mes_double_http::StreamId;
use mes_double_master::{Answer, Master, MasterRefusal};
use mes_model::{Id, Offer, TaskStatus};
use mes_model_schema::json::{NoMemory, Text};
use mes_msg::{Call, Event};
use std::alloc::Global;
use uuid::Uuid;

// The number from which the id of the first stream is made. Each call names this stream.
const FIRST_STREAM: u128 = 1;

const SECOND_STREAM: u128 = 2;

// An event that a master sends without a call, or records as sent.
#[derive(Clone, Copy)]
enum Sending<'a> {
    // Offers that the master makes.
    Offers(&'a [Offer]),
    // Offers that the master records as made, without an event.
    NotedOffers(&'a [Offer]),
    // A RESCIND of the offer with this identifier.
    Rescind(&'a str),
    Update(&'a TaskStatus),
    // An update that the master records as sent, without an event.
    NotedUpdate(&'a TaskStatus),
    // The unacknowledged update at this index, which the master sends again.
    Resend(usize),
}

/// Performs the steps of an example row on a new master.
pub(crate) fn run(alloc: Global, steps: &str, words: &mut Words) -> Result<(), Reported> {
    change(new_master(alloc)?, |master| {
        do_steps(alloc, master, steps, words)
    })
}

// If a step is rejected, prints the reason and goes on with the next step. A failed allocation ends
// the example row.
fn do_steps(
    alloc: Global,
    master: &mut Master,
    steps: &str,
    words: &mut Words,
) -> Result<(), Reported> {
    for step in steps.split("; ") {
        let answer = do_step(alloc, master, step, words);
        words.go_on(answer)?;
    }
    Ok(())
}

// Returns a master of the framework F1 with the ids of two streams.
fn new_master(alloc: Global) -> Result<Master, NoMemory> {
    let framework = framework(alloc)?;
    let ids = stream_ids(alloc)?;
    Ok(Master::new(alloc, framework, ids))
}

fn framework(alloc: Global) -> Result<Id, NoMemory> {
    let value = Text::of(alloc, "F1")?;
    Ok(Id { value })
}

fn stream_ids(alloc: Global) -> Result<Vec<Uuid>, NoMemory> {
    let mut ids = Vec::new(alloc);
    ids.push(Uuid::from_u128(FIRST_STREAM))?;
    ids.push(Uuid::from_u128(SECOND_STREAM))?;
    Ok(ids)
}

// Performs one step: handles a call, sends or records an event, or prints the state.
fn do_step(
    alloc: Global,
    master: &mut Master,
    step: &str,
    words: &mut Words,
) -> Result<(), Reported> {
    match step.split_once(' ') {
        Some(("call", name)) => call(alloc, master, text_named(name), words),
        Some(("event", name)) => send_like(alloc, master, text_named(name), words),
        Some(("note", name)) => note_like(alloc, master, text_named(name), words),
        Some(("rescind", id)) => send(alloc, master, Sending::Rescind(id), words),
        Some(("resend", place)) => resend(alloc, master, place, words),
        _ => {
            words.say_words(&held_by_master(master));
            Ok(())
        }
    }
}

fn call(alloc: Global, master: &mut Master, text: &str, words: &mut Words) -> Result<(), Reported> {
    look_at(call_of(alloc, text)?, |call| {
        answer_call(alloc, master, call, words)
    })
}

fn answer_call(
    alloc: Global,
    master: &mut Master,
    call: &Call,
    words: &mut Words,
) -> Result<(), Reported> {
    let answer = handle(master, call, words)?;
    report_answer(alloc, &answer, words)
}

// Prints the status and the events of a response.
fn report_answer(alloc: Global, answer: &Answer, words: &mut Words) -> Result<(), Reported> {
    words.say_number("answered", u64::from(answer.status.as_u16()));
    report_events(alloc, answer.events.as_slice(), words)
}

// Handles a call, and repeats this once if an allocation fails.
fn handle(master: &mut Master, call: &Call, words: &mut Words) -> Result<Answer, Reported> {
    ask_twice(|| handle_once(master, call), words)
}

// After an error, every getter of the master must return the same as before the call.
fn handle_once(master: &mut Master, call: &Call) -> Result<Answer, Reported> {
    let stream = StreamId::of_uuid(Uuid::from_u128(FIRST_STREAM));
    let before = held_by_master(master);
    match master.handle(call, Some(&stream)) {
        Ok(answer) => Ok(answer),
        Err(refused) => Err(Reported::from(refused).or_changed(is_still(master, &before))),
    }
}

// Has the master send the event in `text`: an OFFERS or an UPDATE.
fn send_like(
    alloc: Global,
    master: &mut Master,
    text: &str,
    words: &mut Words,
) -> Result<(), Reported> {
    look_at(event_of(alloc, text.as_bytes())?, |event| {
        send_reported(alloc, master, event, words)
    })
}

fn send_reported(
    alloc: Global,
    master: &mut Master,
    event: &Event,
    words: &mut Words,
) -> Result<(), Reported> {
    match event {
        Event::Offers(offers) => send(alloc, master, Sending::Offers(offers.as_slice()), words),
        Event::Update(body) => send(alloc, master, Sending::Update(body.status.get()), words),
        _ => Err(Reported::fault("no such step")),
    }
}

// Has the master record the event in `text` as sent: an OFFERS or an UPDATE.
fn note_like(
    alloc: Global,
    master: &mut Master,
    text: &str,
    words: &mut Words,
) -> Result<(), Reported> {
    look_at(event_of(alloc, text.as_bytes())?, |event| {
        note_reported(master, event, words)
    })
}

fn note_reported(master: &mut Master, event: &Event, words: &mut Words) -> Result<(), Reported> {
    match event {
        Event::Offers(offers) => note(master, Sending::NotedOffers(offers.as_slice()), words),
        Event::Update(body) => note(master, Sending::NotedUpdate(body.status.get()), words),
        _ => Err(Reported::fault("no such step")),
    }
}

// Has the master record an event as sent. The master must return no event.
fn note(master: &mut Master, sending: Sending<'_>, words: &mut Words) -> Result<(), Reported> {
    look_at(sent_event(master, sending, words)?, |event| {
        words.say(if event.is_none() { "noted" } else { "sent" });
    });
    Ok(())
}

fn resend(
    alloc: Global,
    master: &mut Master,
    place: &str,
    words: &mut Words,
) -> Result<(), Reported> {
    match place.parse::<usize>() {
        Ok(index) => send(alloc, master, Sending::Resend(index), words),
        Err(_) => Err(Reported::fault("no such place")),
    }
}

fn send(
    alloc: Global,
    master: &mut Master,
    sending: Sending<'_>,
    words: &mut Words,
) -> Result<(), Reported> {
    look_at(sent_event(master, sending, words)?, |event| match event {
        Some(event) => say_event(alloc, event, words),
        None => Err(Reported::fault("no event")),
    })
}

// Returns the event that the master sends, or `None` if the master only records it. Repeats this
// once if an allocation fails.
fn sent_event(
    master: &mut Master,
    sending: Sending<'_>,
    words: &mut Words,
) -> Result<Option<Event>, Reported> {
    ask_twice(|| send_once(master, sending), words)
}

// After an error, every getter of the master must return the same as before the call.
fn send_once(master: &mut Master, sending: Sending<'_>) -> Result<Option<Event>, Reported> {
    let before = held_by_master(master);
    match ask_to_send(master, sending) {
        Ok(event) => Ok(event),
        Err(refusal) => Err(Reported::from(refusal).or_changed(is_still(master, &before))),
    }
}

fn ask_to_send(master: &mut Master, sending: Sending<'_>) -> Result<Option<Event>, MasterRefusal> {
    match sending {
        Sending::Offers(offers) => Ok(Some(master.offer(offers)?)),
        Sending::NotedOffers(offers) => {
            master.note_offers(offers)?;
            Ok(None)
        }
        Sending::Rescind(id) => Ok(Some(master.rescind(id)?)),
        Sending::Update(status) => Ok(Some(master.update(status)?)),
        Sending::NotedUpdate(status) => {
            master.note_update(status)?;
            Ok(None)
        }
        Sending::Resend(place) => Ok(Some(master.resend(place)?)),
    }
}

fn is_still(master: &Master, before: &Words) -> bool {
    held_by_master(master).is_same(before)
}
