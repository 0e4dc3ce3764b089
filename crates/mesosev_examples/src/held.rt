//! The state of a session or a test master, read through every getter, as a text that does not
//! allocate. The text is printed, and compared before and after a failed call. In the text
//! `missing` represents a getter that returns no value at an index below the length.

use crate::offers::{add_offer, is_same_offer};
use crate::words::Words;
use mes_double_master::Master;
use mes_model::{Id, Offer, OwedKey};
use mes_session::Session;

// An identifier that no offer in the example rows has.
const NO_OFFER: &str = "O0";

/// Describes a session: its framework or `-`, whether it is connected, the outstanding offers, and
/// the unacknowledged updates.
pub(crate) fn held_by_session(session: &Session) -> Words {
    let mut words = Words::new();
    words.say("framework");
    words.add_word(name_or(session.framework(), "-"));
    words.add_word(if session.connected() { "on" } else { "off" });
    add_hand(&mut words, session);
    add_owed(&mut words, session);
    words
}

/// Describes a master: its stream or `-`, the outstanding offers, the launched tasks, and the
/// acknowledged updates.
pub(crate) fn held_by_master(master: &Master) -> Words {
    let mut words = Words::new();
    words.say("stream");
    words.add_word(match master.stream() {
        Some(id) => id.as_str(),
        None => "-",
    });
    add_outstanding(&mut words, master);
    add_launched(&mut words, master);
    add_acked(&mut words, master);
    words
}

fn name_or<'a>(id: Option<&'a Id>, none: &'a str) -> &'a str {
    match id {
        Some(id) => id.value.as_str(),
        None => none,
    }
}

fn add_length(words: &mut Words, name: &str, length: usize) {
    words.add_word(name);
    words.add(" ");
    words.add_number(length as u64);
}

// Looks up each offer by index and by identifier. The getters must return no offer for the index
// after the last offer, and for an unknown identifier.
fn add_hand(words: &mut Words, session: &Session) {
    let length = session.hand_len();
    add_length(words, "hand", length);
    for index in 0..length {
        add_in_hand(words, session, session.hand_at(index));
    }
    add_stray(words, session.hand_at(length).is_some());
    add_stray(words, session.offer(NO_OFFER).is_some());
}

fn add_in_hand(words: &mut Words, session: &Session, offer: Option<&Offer>) {
    match offer {
        Some(offer) => {
            add_offer(words, offer);
            words.add(found_again(offer, session.offer(offer.id.value.as_str())));
        }
        None => words.add_word("missing"),
    }
}

fn found_again(offer: &Offer, again: Option<&Offer>) -> &'static str {
    match again {
        Some(again) if is_same_offer(offer, again) => "=same",
        Some(_) => "=another",
        None => "=missing",
    }
}

// Reports a value that a getter returns for an index or identifier that must have none.
fn add_stray(words: &mut Words, is_there: bool) {
    if is_there {
        words.add_word("stray");
    }
}

fn add_owed(words: &mut Words, session: &Session) {
    let length = session.owed_len();
    add_length(words, "owed", length);
    for index in 0..length {
        add_key(words, session.owed_at(index));
    }
    add_stray(words, session.owed_at(length).is_some());
}

fn add_outstanding(words: &mut Words, master: &Master) {
    let length = master.outstanding_len();
    add_length(words, "outstanding", length);
    for index in 0..length {
        add_offer_at(words, master.outstanding_at(index));
    }
    add_stray(words, master.outstanding_at(length).is_some());
}

fn add_offer_at(words: &mut Words, offer: Option<&Offer>) {
    match offer {
        Some(offer) => add_offer(words, offer),
        None => words.add_word("missing"),
    }
}

fn add_launched(words: &mut Words, master: &Master) {
    let length = master.launched_len();
    add_length(words, "launched", length);
    for index in 0..length {
        words.add_word(name_or(master.launched_at(index), "missing"));
    }
    add_stray(words, master.launched_at(length).is_some());
}

fn add_acked(words: &mut Words, master: &Master) {
    let length = master.acked_len();
    add_length(words, "acked", length);
    for index in 0..length {
        add_key(words, master.acked_at(index));
    }
    add_stray(words, master.acked_at(length).is_some());
}

// Appends the key of an update: the agent, the task, and the uuid in hexadecimal digits.
fn add_key(words: &mut Words, key: Option<&OwedKey>) {
    let Some(key) = key else {
        words.add_word("missing");
        return;
    };
    words.add_word(key.agent.value.as_str());
    words.add("/");
    words.add(key.task.value.as_str());
    words.add("/");
    add_digits(words, key.uuid.as_slice());
}

fn add_digits(words: &mut Words, bytes: &[u8]) {
    for byte in bytes {
        words.add_hexadecimal(*byte);
    }
}
