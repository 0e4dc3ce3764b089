//! Example rows that read an event, a call or a resource from its text and write it again.

use crate::outcome::Reported;
use crate::parsing::look_at;
use crate::words::Words;
use mes_model::{Part, Path, Resource};
use mes_model_schema::json::{self, NoMemory, read_text, write_text};
use mes_msg::{Call, Event, Limit};
use std::alloc::Global;

// The word that a buffer contains before a JSON tree or lines are appended.
const WORD: &[u8] = b"tree ";

/// Reads an event and prints its canonical text and its lines. Also prints whether the copy of the
/// event, and the event read again from its canonical text, have the same canonical text.
pub(crate) fn report_event(alloc: Global, text: &str, words: &mut Words) -> Result<(), Reported> {
    let event = event_of(alloc, text.as_bytes())?;
    report_texts(alloc, &event, words)
}

fn report_texts(alloc: Global, event: &Event, words: &mut Words) -> Result<(), Reported> {
    let canonical = event_text(alloc, event)?;
    words.say_bytes(canonical.as_slice());
    report_lines(alloc, event, words)?;
    let copied = canon_of_copy(alloc, event)?;
    words.say_same("copied", copied.as_slice() == canonical.as_slice());
    let read = canon_of_text(alloc, canonical.as_slice(), Limit::USUAL)?;
    words.say_same("read", read.as_slice() == canonical.as_slice());
    Ok(())
}

/// Reads an event from its text.
pub(crate) fn event_of(alloc: Global, text: &[u8]) -> Result<Event, Reported> {
    Ok(Event::read_record(alloc, text)?)
}

/// Returns the canonical text of an event.
pub(crate) fn event_text(alloc: Global, event: &Event) -> Result<Vec<u8>, Reported> {
    canon_within(alloc, event, Limit::USUAL)
}

fn canon_within(alloc: Global, event: &Event, limit: Limit) -> Result<Vec<u8>, Reported> {
    Ok(event.canon(alloc, limit)?)
}

/// Prints the canonical text of an event.
pub(crate) fn say_event(alloc: Global, event: &Event, words: &mut Words) -> Result<(), Reported> {
    let canonical = event_text(alloc, event)?;
    words.say_bytes(canonical.as_slice());
    Ok(())
}

// Prints the lines of an event, and whether they are the same when they are appended to a buffer.
fn report_lines(alloc: Global, event: &Event, words: &mut Words) -> Result<(), Reported> {
    let lines = event.show_lines(alloc, 1)?;
    words.say_bytes(lines.as_slice());
    let following = lines_after(alloc, event)?;
    words.say_same(
        "appended",
        after_word(following.as_slice()) == Some(lines.as_slice()),
    );
    Ok(())
}

// Appends the lines to a buffer that contains `WORD`. If an allocation fails, the buffer must still
// begin with `WORD`; a part of the lines may follow.
fn lines_after(alloc: Global, event: &Event) -> Result<Vec<u8>, Reported> {
    let mut lines = word(alloc)?;
    match event.push_lines(1, &mut lines) {
        Ok(()) => Ok(lines),
        Err(refused) => Err(Reported::from(refused).or_changed(after_word(
            lines.as_slice(),
        ).is_some())),
    }
}

fn canon_of_copy(alloc: Global, event: &Event) -> Result<Vec<u8>, Reported> {
    let copy = event.copy(alloc)?;
    event_text(alloc, &copy)
}

fn canon_of_text(alloc: Global, text: &[u8], limit: Limit) -> Result<Vec<u8>, Reported> {
    let event = event_of(alloc, text)?;
    canon_within(alloc, &event, limit)
}

/// Reads an event, and prints its canonical text under a record limit of 24 bytes.
pub(crate) fn report_short(alloc: Global, text: &str, words: &mut Words) -> Result<(), Reported> {
    let limit = Limit::new(24).unwrap_or(Limit::USUAL);
    let canonical = canon_of_text(alloc, text.as_bytes(), limit)?;
    words.say_bytes(canonical.as_slice());
    Ok(())
}

/// Reads a call, and prints its canonical text.
pub(crate) fn report_call(alloc: Global, text: &str, words: &mut Words) -> Result<(), Reported> {
    look_at(call_of(alloc, text)?, |call| say_call(alloc, call, words))
}

/// Reads a call from its text.
pub(crate) fn call_of(alloc: Global, text: &str) -> Result<Call, Reported> {
    Ok(Call::read_record(alloc, text.as_bytes())?)
}

/// Prints the canonical text of a call.
pub(crate) fn say_call(alloc: Global, call: &Call, words: &mut Words) -> Result<(), Reported> {
    let canonical = call_text(alloc, call)?;
    words.say_bytes(canonical.as_slice());
    Ok(())
}

/// Returns the canonical text of a call.
pub(crate) fn call_text(alloc: Global, call: &Call) -> Result<Vec<u8>, Reported> {
    Ok(call.canon(alloc, Limit::USUAL)?)
}

/// Reads a resource, and prints the text that is written for it.
pub(crate) fn report_resource(
    alloc: Global,
    text: &str,
    words: &mut Words,
) -> Result<(), Reported> {
    let resource = resource_of(alloc, text)?;
    say_resource(alloc, &resource, words)
}

fn say_resource(alloc: Global, resource: &Resource, words: &mut Words) -> Result<(), Reported> {
    let written = text_of_resource(alloc, resource)?;
    words.say_bytes(written.as_slice());
    Ok(())
}

// Returns `WORD` followed by the text of the resource.
fn text_of_resource(alloc: Global, resource: &Resource) -> Result<Vec<u8>, Reported> {
    let tree = resource.tree(alloc)?;
    text_of(alloc, &tree)
}

fn resource_of(alloc: Global, text: &str) -> Result<Resource, Reported> {
    let tree = tree_of(alloc, text.as_bytes())?;
    Ok(Resource::read(alloc, &tree, &Path::new())?)
}

/// Reads a JSON tree from its text.
pub(crate) fn tree_of(alloc: Global, text: &[u8]) -> Result<json::Json, Reported> {
    Ok(read_text(alloc, text)?)
}

/// Returns `WORD` followed by the canonical text of a JSON tree. If an allocation fails, the buffer
/// must contain only `WORD`.
pub(crate) fn text_of(alloc: Global, tree: &json::Json) -> Result<Vec<u8>, Reported> {
    let mut text = word(alloc)?;
    match write_text(tree, &mut text) {
        Ok(()) => Ok(text),
        Err(refused) => Err(Reported::from(refused).or_changed(text.as_slice() == WORD)),
    }
}

/// Returns the bytes after `WORD`, if the text begins with `WORD`.
pub(crate) fn after_word(text: &[u8]) -> Option<&[u8]> {
    if text.get(..WORD.len()) == Some(WORD) {
        text.get(WORD.len()..)
    } else {
        None
    }
}

fn word(alloc: Global) -> Result<Vec<u8>, NoMemory> {
    let mut text = Vec::new(alloc);
    text.extend_from_slice(WORD)?;
    Ok(text)
}
