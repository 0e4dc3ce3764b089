//! The format of the scripts, and their interpreter.
//!
//! A line is `ACTION => RESULT | STATE`. The action is one of:
//! - `E` and an event that is received;
//! - `C` and a call that is checked with `check` and applied with `said`;
//! - `M` and a call that the session is asked to make;
//! - `B`, a disconnect.
//!
//! The result is `ok` or the refusal. For a call that was made it is `same`, or its canonical text
//! if that differs. The state is the framework or `-`, `on` or `off`, and each outstanding offer
//! with its host. After `;` it has the keys of the unacknowledged updates: agent, task, and UUID in
//! hexadecimal.
//!
//! A decoded value is local to a small function, because it makes each later step of its function
//! more expensive to check.

use mes_model::{OwedKey, Part, TaskInfo};
use mes_msg::{
    Accept, Acknowledge, Call, Decline, Entry, Event, Kill, Limit, Message, Operation, Reconcile,
    Shutdown, Subscribe,
};
use mes_session::{Refusal, Session, replay};
use std::alloc::Global;
use std::process::Abort;
use std::test::Fail;

fn refusal_in_words(alloc: Global, refusal: Refusal) -> Result<String, Fail> {
    let text = match refusal {
        Refusal::NotSubscribed => String::from_str(alloc, "S1")?,
        Refusal::NamedTwice => String::from_str(alloc, "S2")?,
        Refusal::NoSuchOffer { index } => format!(in alloc; "S3 {index}")?,
        Refusal::TwoAgents => String::from_str(alloc, "S4")?,
        Refusal::WrongAgent { task } => format!(in alloc; "S5 {task}")?,
        Refusal::Exceeds { task, resource } => format!(in alloc; "S6 {task} {resource}")?,
        Refusal::NotOwed => String::from_str(alloc, "S7")?,
        Refusal::NoMemory => String::from_str(alloc, "S8")?,
    };
    Ok(text)
}

fn in_words(alloc: Global, answer: Result<(), Refusal>) -> Result<String, Fail> {
    match answer {
        Ok(()) => Ok(String::from_str(alloc, "ok")?),
        Err(refusal) => refusal_in_words(alloc, refusal),
    }
}

/// Reads an event from its text.
fn event_of(alloc: Global, text: &str) -> Result<Event, Fail> {
    match Event::read_record(alloc, text.as_bytes()) {
        Ok(event) => Ok(event),
        Err(_) => Err("an event")?,
    }
}

/// Reads a call from its text.
fn call_of(alloc: Global, text: &str) -> Result<Call, Fail> {
    match Call::read_record(alloc, text.as_bytes()) {
        Ok(call) => Ok(call),
        Err(_) => Err("a call")?,
    }
}

/// Returns the tasks of an ACCEPT's only operation, or no tasks.
fn tasks_of(body: &Accept) -> &[TaskInfo] {
    match body.operations.as_slice().first() {
        Some(Operation::Launch { task_infos }) => task_infos.as_slice(),
        None => &[],
    }
}

/// Returns the key of an ACKNOWLEDGE.
fn key_of(alloc: Global, body: &Acknowledge) -> Result<OwedKey, Refusal> {
    let agent = body.agent_id.copy(alloc)?;
    let task = body.task_id.copy(alloc)?;
    let uuid = body.uuid.copy(alloc)?;
    Ok(OwedKey { agent, task, uuid })
}

/// Makes an ACKNOWLEDGE with the arguments of another one. The next functions do the same for other
/// calls.
fn acknowledge(alloc: Global, session: &mut Session, body: &Acknowledge) -> Result<Call, Refusal> {
    let key = key_of(alloc, body)?;
    session.acknowledge(&key)
}

fn accept(session: &mut Session, body: &Accept) -> Result<Call, Refusal> {
    let ids = body.offer_ids.as_slice();
    session.accept(ids, tasks_of(body), body.filters.as_ref())
}

fn decline(session: &mut Session, body: &Decline) -> Result<Call, Refusal> {
    session.decline(body.offer_ids.as_slice(), body.filters.as_ref())
}

fn kill(session: &mut Session, body: &Kill) -> Result<Call, Refusal> {
    session.kill(&body.task_id, body.agent_id.as_ref())
}

fn message(session: &mut Session, body: &Message) -> Result<Call, Refusal> {
    session.message(&body.agent_id, &body.executor_id, body.payload.as_slice())
}

fn subscribe(session: &mut Session, body: &Subscribe) -> Result<Call, Refusal> {
    session.subscribe(&body.framework_info)
}

fn reconcile(session: &mut Session, body: &Reconcile) -> Result<Call, Refusal> {
    session.reconcile(body.tasks.as_slice())
}

fn shutdown(session: &mut Session, body: &Shutdown) -> Result<Call, Refusal> {
    session.shutdown(&body.executor_id, &body.agent_id)
}

/// Makes a call with the arguments of another call.
fn make(alloc: Global, session: &mut Session, call: &Call) -> Result<Call, Refusal> {
    match call {
        Call::Subscribe { body, .. } => subscribe(session, body),
        Call::Accept { body, .. } => accept(session, body),
        Call::Decline { body, .. } => decline(session, body),
        Call::Revive { .. } => session.revive(),
        Call::Kill { body, .. } => kill(session, body),
        Call::Acknowledge { body, .. } => acknowledge(alloc, session, body),
        Call::Reconcile { body, .. } => reconcile(session, body),
        Call::Teardown { .. } => session.teardown(),
        Call::Suppress { .. } => session.suppress(),
        Call::Shutdown { body, .. } => shutdown(session, body),
        Call::Message { body, .. } => message(session, body),
    }
}

/// Returns the canonical text of a call.
fn text_of(alloc: Global, call: &Call) -> Result<String, Fail> {
    let bytes = call.canon(alloc, Limit::USUAL)?;
    match String::from_utf8(bytes) {
        Ok(text) => Ok(text),
        Err(_) => Err("a canonical text is UTF-8")?,
    }
}

/// Returns the canonical text of a call, or `same` if it is equal to `text`.
fn compared(alloc: Global, call: &Call, text: &str) -> Result<String, Fail> {
    let made = text_of(alloc, call)?;
    if made.as_str() == text {
        return Ok(String::from_str(alloc, "same")?);
    }
    Ok(made)
}

fn hear(alloc: Global, session: &mut Session, text: &str) -> Result<String, Fail> {
    let event = event_of(alloc, text)?;
    in_words(alloc, session.heard(&event))
}

fn say(alloc: Global, session: &mut Session, text: &str) -> Result<String, Fail> {
    let call = call_of(alloc, text)?;
    let checked = in_words(alloc, session.check(&call))?;
    let answer = in_words(alloc, session.said(&call))?;
    drop(call);
    if checked.as_str() != answer.as_str() {
        return Err("`check` returns what `said` returns")?;
    }
    Ok(answer)
}

/// Makes a call with the arguments of another call, and compares its canonical text to `text`.
fn ask_like(alloc: Global, session: &mut Session, call: &Call, text: &str) -> Result<String, Fail> {
    match make(alloc, session, call) {
        Ok(made) => {
            let answer = compared(alloc, &made, text);
            drop(made);
            answer
        }
        Err(refusal) => refusal_in_words(alloc, refusal),
    }
}

fn ask(alloc: Global, session: &mut Session, text: &str) -> Result<String, Fail> {
    let call = call_of(alloc, text)?;
    let answer = ask_like(alloc, session, &call, text);
    drop(call);
    answer
}

/// Executes the action of a line and returns its result.
fn step(alloc: Global, session: &mut Session, line: &str) -> Result<String, Fail> {
    match line.split_once(' ') {
        Some(("E", text)) => hear(alloc, session, text),
        Some(("C", text)) => say(alloc, session, text),
        Some(("M", text)) => ask(alloc, session, text),
        _ => {
            session.broken();
            Ok(String::from_str(alloc, "ok")?)
        }
    }
}

/// Returns the host of the outstanding offer with an identifier.
fn host_of<'a>(session: &'a Session, id: &str) -> Result<&'a str, Fail> {
    let offer = session.offer(id).ok_or("an offer of this identifier")?;
    Ok(offer.hostname.as_str())
}

/// Prints the outstanding offers with their hosts, found by index and by identifier.
fn hand_in_words(alloc: Global, session: &Session) -> Result<String, Fail> {
    let mut text = String::new(alloc);
    for index in 0..session.hand_len() {
        let offer = session.hand_at(index).ok_or("an offer in hand")?;
        let id = offer.id.value.as_str();
        text.push_str(" ")?;
        text.push_str(id)?;
        text.push_str("=")?;
        text.push_str(host_of(session, id)?)?;
    }
    Ok(text)
}

/// Prints the agent, the task and the UUID of a key, the last in hexadecimal digits.
fn key_in_words(alloc: Global, key: &OwedKey) -> Result<String, Fail> {
    let agent = key.agent.value.as_str();
    let task = key.task.value.as_str();
    let mut text = format!(in alloc; " {agent}/{task}/")?;
    for byte in key.uuid.as_slice() {
        let digits = format!(in alloc; "{byte:02x}")?;
        text.push_str(digits.as_str())?;
    }
    Ok(text)
}

/// Prints the keys of the unacknowledged updates.
fn owed_in_words(alloc: Global, session: &Session) -> Result<String, Fail> {
    let mut text = String::new(alloc);
    for index in 0..session.owed_len() {
        let key = session.owed_at(index).ok_or("a key that is owed")?;
        let words = key_in_words(alloc, key)?;
        text.push_str(words.as_str())?;
    }
    Ok(text)
}

/// Returns the framework's identifier, or `-` if no framework is known.
fn framework_in_words(session: &Session) -> &str {
    match session.framework() {
        Some(id) => id.value.as_str(),
        None => "-",
    }
}

/// Returns whether the getters return nothing for an index after the last offer, an unknown
/// identifier, and an index after the last key.
fn ends(session: &Session) -> bool {
    session.hand_at(session.hand_len()).is_none()
        && session.owed_at(session.owed_len()).is_none()
        && session.offer("none").is_none()
}

/// Prints the state of a session.
fn held_in_words(alloc: Global, session: &Session) -> Result<String, Fail> {
    let framework = framework_in_words(session);
    let stream = if session.connected() { "on" } else { "off" };
    let hand = hand_in_words(alloc, session)?;
    let owed = owed_in_words(alloc, session)?;
    Ok(format!(in alloc; "{framework} {stream}{hand} ;{owed}")?)
}

/// Splits a line into action, result and state.
fn sides_of(line: &str) -> Result<(&str, &str, &str), Fail> {
    let (what, reported) = line.split_once(" => ").ok_or("a line has an answer")?;
    let (answer, held) = reported
        .split_once(" | ")
        .ok_or("an answer has what is held")?;
    Ok((what, answer, held))
}

/// Expects the result and the state of a line.
fn expect_line<R: Abort + AllocGlobal>(
    rt: &R,
    session: &mut Session,
    line: &str,
) -> Result<(), Fail> {
    let (what, answer, held) = sides_of(line)?;
    let reported = step(rt.alloc(), session, what)?;
    assert_eq!(rt; reported.as_str(), answer, "{what}");
    let left = held_in_words(rt.alloc(), session)?;
    assert_eq!(rt; left.as_str(), held, "{what}");
    assert!(rt; ends(session), "{what}");
    Ok(())
}

/// Expects the result and the state of each line.
fn expect_lines<R: Abort + AllocGlobal>(
    rt: &R,
    session: &mut Session,
    script: &str,
) -> Result<(), Fail> {
    for line in script.lines() {
        expect_line(rt, session, line)?;
    }
    Ok(())
}

/// Expects the result and the state of each line of a script, in a new session.
pub(crate) fn expect_script<R: Abort + AllocGlobal>(rt: &R, script: &str) -> Result<(), Fail> {
    let mut session = Session::new(rt.alloc());
    expect_lines(rt, &mut session, script)
}

/// Reads an entry from its line.
fn entry_of(alloc: Global, line: &str) -> Result<Entry, Fail> {
    match line.split_once(' ') {
        Some(("E", text)) => Ok(Entry::Heard(event_of(alloc, text)?)),
        Some(("C", text)) => Ok(Entry::Said(call_of(alloc, text)?)),
        _ => Ok(Entry::Broken),
    }
}

/// Reads the entries of a history.
fn entries_of(alloc: Global, history: &str) -> Result<Vec<Entry>, Fail> {
    let mut entries = Vec::new(alloc);
    for line in history.lines() {
        entries.push(entry_of(alloc, line)?)?;
    }
    Ok(entries)
}

/// Replays a history and prints the state, or the index and the reason of the refusal.
fn replayed(alloc: Global, entries: &[Entry]) -> Result<String, Fail> {
    match replay(alloc, entries) {
        Ok(session) => {
            let held = held_in_words(alloc, &session);
            drop(session);
            held
        }
        Err((before, refusal)) => {
            let why = refusal_in_words(alloc, refusal)?;
            Ok(format!(in alloc; "{before} {why}")?)
        }
    }
}

/// Like [`replayed`], but for a history as text.
fn history_in_words(alloc: Global, history: &str) -> Result<String, Fail> {
    let entries = entries_of(alloc, history)?;
    replayed(alloc, entries.as_slice())
}

/// Expects the printed result of replaying a history.
pub(crate) fn expect_replay<R: Abort + AllocGlobal>(
    rt: &R,
    history: &str,
    expected: &str,
) -> Result<(), Fail> {
    let reported = history_in_words(rt.alloc(), history)?;
    assert_eq!(rt; reported.as_str(), expected, "{history}");
    Ok(())
}
