//! Example rows of a session: the events that it receives, the calls that it makes, and its state.

use crate::held::held_by_session;
use crate::making::make;
use crate::messages::{call_of, event_of, say_call};
use crate::outcome::Reported;
use crate::parsing::{ask_twice, change, look_at};
use crate::texts::text_named;
use crate::words::Words;
use mes_msg::{Call, Event};
use mes_session::Session;
use std::alloc::Global;

/// Performs the steps of an example row on a new session.
pub(crate) fn run(alloc: Global, steps: &str, words: &mut Words) -> Result<(), Reported> {
    change(Session::new(alloc), |session| {
        do_steps(alloc, session, steps, words)
    })
}

// If a step is rejected, prints the reason and goes on with the next step. A failed allocation ends
// the example row.
fn do_steps(
    alloc: Global,
    session: &mut Session,
    steps: &str,
    words: &mut Words,
) -> Result<(), Reported> {
    for step in steps.split("; ") {
        let answer = do_step(alloc, session, step, words);
        words.go_on(answer)?;
    }
    Ok(())
}

// Performs one step: applies an event, makes a call, or prints the state.
fn do_step(
    alloc: Global,
    session: &mut Session,
    step: &str,
    words: &mut Words,
) -> Result<(), Reported> {
    match step.split_once(' ') {
        Some(("hear", name)) => hear(alloc, session, text_named(name), words),
        Some(("make", name)) => make_like(alloc, session, text_named(name), words),
        _ => {
            words.say_words(&held_by_session(session));
            Ok(())
        }
    }
}

fn hear(
    alloc: Global,
    session: &mut Session,
    text: &str,
    words: &mut Words,
) -> Result<(), Reported> {
    let event = event_of(alloc, text.as_bytes())?;
    hear_event(session, &event, words)
}

// Applies an event, and repeats this once if an allocation fails.
fn hear_event(session: &mut Session, event: &Event, words: &mut Words) -> Result<(), Reported> {
    ask_twice(|| hear_once(session, event), words)
}

// After an error, every getter of the session must return the same as before the call.
fn hear_once(session: &mut Session, event: &Event) -> Result<(), Reported> {
    let before = held_by_session(session);
    match session.heard(event) {
        Ok(()) => Ok(()),
        Err(refusal) => Err(Reported::from(refusal).or_changed(is_still(session, &before))),
    }
}

fn make_like(
    alloc: Global,
    session: &mut Session,
    text: &str,
    words: &mut Words,
) -> Result<(), Reported> {
    look_at(call_of(alloc, text)?, |like| {
        report_made(alloc, session, like, words)
    })
}

fn report_made(
    alloc: Global,
    session: &mut Session,
    like: &Call,
    words: &mut Words,
) -> Result<(), Reported> {
    let made = make_call(alloc, session, like, words)?;
    look_at(made, |call| say_call(alloc, call, words))
}

// Has the session make a call, and repeats this once if an allocation fails.
fn make_call(
    alloc: Global,
    session: &mut Session,
    like: &Call,
    words: &mut Words,
) -> Result<Call, Reported> {
    ask_twice(|| make_once(alloc, session, like), words)
}

// After an error, every getter of the session must return the same as before the call.
fn make_once(alloc: Global, session: &mut Session, like: &Call) -> Result<Call, Reported> {
    let before = held_by_session(session);
    match make(alloc, session, like) {
        Ok(call) => Ok(call),
        Err(refusal) => Err(Reported::from(refusal).or_changed(is_still(session, &before))),
    }
}

fn is_still(session: &Session, before: &Words) -> bool {
    held_by_session(session).is_same(before)
}
