//! The format of the tables of tests, and the functions that run the rows.
//!
//! A row is `ACTION => RESULT => STATE`. An action is one of:
//! - a call, such as `2 {"type":"REVIVE",..}`, with the number of the stream that it names, or `-`;
//! - `offer EVENT`, `rescind ID`, `update EVENT` or `resend INDEX`;
//! - `break`: the current stream is disconnected. Its result is `-`.
//!
//! The result of a call is its status and the canonical texts of the events. Other results are the
//! canonical text of the event, or the number of the refusal. A state, such as `O1 O2 / T1 / T1 /
//! 2`, has four parts: the outstanding offers, the launched tasks, the tasks of acknowledged
//! updates, the number of the current stream. Stream N has the id
//! `00000000-0000-4000-8000-00000000000N`.

use mes_double_http::StreamId;
use mes_double_master::{Answer, Master, MasterRefusal};
use mes_fixed::Micros;
use mes_json::Text;
use mes_model::Id;
use mes_msg::{Call, Event, Limit};
use std::alloc::{AllocGlobal, Global};
use std::process::Abort;
use std::test::Fail;
use uuid::Uuid;

/// A stream id without its last digit.
const STREAM_FRONT: &str = "00000000-0000-4000-8000-00000000000";

fn stream_text(alloc: Global, number: &str) -> Result<String, Fail> {
    Ok(format!(in alloc; "{}{}", STREAM_FRONT, number)?)
}

fn stream_of(alloc: Global, number: &str) -> Result<StreamId, Fail> {
    let text = stream_text(alloc, number)?;
    Ok(StreamId::new(text.as_str()).ok_or("a stream's id")?)
}

fn uuid_of(alloc: Global, number: &str) -> Result<Uuid, Fail> {
    let text = stream_text(alloc, number)?;
    match Uuid::parse_str(text.as_str()) {
        Ok(id) => Ok(id),
        Err(_) => Err("a UUID")?,
    }
}

/// Returns the ids of the streams 1, 2 and 3.
fn stream_ids(alloc: Global) -> Result<Vec<Uuid>, Fail> {
    let mut ids = Vec::new(alloc);
    for number in ["1", "2", "3"] {
        ids.push(uuid_of(alloc, number)?)?;
    }
    Ok(ids)
}

/// Returns the id with this text.
pub(crate) fn id_of(alloc: Global, text: &str) -> Result<Id, Fail> {
    let value = Text::of(alloc, text)?;
    Ok(Id { value })
}

/// Returns a master of the framework F1 with ids for the streams 1, 2 and 3.
pub(crate) fn new_master(alloc: Global) -> Result<Master, Fail> {
    let ids = stream_ids(alloc)?;
    Ok(Master::new(alloc, id_of(alloc, "F1")?, ids))
}

/// Like [`new_master`], with this heartbeat interval.
pub(crate) fn master_with(alloc: Global, interval: Option<Micros>) -> Result<Master, Fail> {
    let ids = stream_ids(alloc)?;
    Ok(Master::with_interval(alloc, id_of(alloc, "F1")?, ids, interval))
}

fn call_of(alloc: Global, text: &str) -> Result<Call, Fail> {
    match Call::read_record(alloc, text.as_bytes()) {
        Ok(call) => Ok(call),
        Err(_) => Err("a call")?,
    }
}

fn event_of(alloc: Global, text: &str) -> Result<Event, Fail> {
    match Event::read_record(alloc, text.as_bytes()) {
        Ok(event) => Ok(event),
        Err(_) => Err("an event")?,
    }
}

fn text_of(alloc: Global, event: &Event) -> Result<String, Fail> {
    let Ok(canonical) = event.canon(alloc, Limit::USUAL) else {
        return Err("a canonical text")?;
    };
    match String::from_utf8(canonical) {
        Ok(text) => Ok(text),
        Err(_) => Err("a canonical text is UTF-8")?,
    }
}

fn reported(alloc: Global, answer: &Answer) -> Result<String, Fail> {
    let mut text = format!(in alloc; "{}", answer.status.as_u16())?;
    for event in answer.events.iter() {
        text.push_str(" ")?;
        text.push_str(text_of(alloc, event)?.as_str())?;
    }
    Ok(text)
}

fn number_of(why: MasterRefusal) -> &'static str {
    match why {
        MasterRefusal::NoStream => "M1",
        MasterRefusal::OfferTwice => "M2",
        MasterRefusal::NoSuchOffer => "M3",
        MasterRefusal::UpdateTwice => "M4",
        MasterRefusal::NoSuchUpdate => "M5",
        MasterRefusal::NoMemory => "M6",
    }
}

fn sent(alloc: Global, answer: Result<Event, MasterRefusal>) -> Result<String, Fail> {
    match answer {
        Ok(event) => {
            let text = text_of(alloc, &event);
            drop(event);
            text
        }
        Err(why) => Ok(String::from_str(alloc, number_of(why))?),
    }
}

/// Has the master handle a call that names this stream or none.
fn handled(master: &mut Master, call: &Call, stream: Option<&StreamId>) -> Result<Answer, Fail> {
    match master.handle(call, stream) {
        Ok(answer) => Ok(answer),
        Err(_) => Err("memory")?,
    }
}

fn called_by(
    alloc: Global,
    master: &mut Master,
    stream: &str,
    call: &Call,
) -> Result<Answer, Fail> {
    if stream == "-" {
        return handled(master, call, None);
    }
    let id = stream_of(alloc, stream)?;
    handled(master, call, Some(&id))
}

/// Has the master handle the call with this text. The call names the stream with this number, or
/// none for `-`.
fn answer_to(alloc: Global, master: &mut Master, stream: &str, text: &str) -> Result<Answer, Fail> {
    let call = call_of(alloc, text)?;
    let answer = called_by(alloc, master, stream, &call);
    drop(call);
    answer
}

/// Like [`answer_to`]; returns the printed response.
pub(crate) fn called(
    alloc: Global,
    master: &mut Master,
    stream: &str,
    text: &str,
) -> Result<String, Fail> {
    let answer = answer_to(alloc, master, stream, text)?;
    let reported = reported(alloc, &answer);
    drop(answer);
    reported
}

/// Like [`answer_to`]; returns the numbers of offers taken and of tasks launched, as `2 1`.
pub(crate) fn counted(
    alloc: Global,
    master: &mut Master,
    stream: &str,
    text: &str,
) -> Result<String, Fail> {
    let answer = answer_to(alloc, master, stream, text)?;
    let (taken, launched) = (answer.taken, answer.launched);
    drop(answer);
    Ok(format!(in alloc; "{taken} {launched}")?)
}

fn offered_as(alloc: Global, master: &mut Master, event: &Event) -> Result<String, Fail> {
    match event {
        Event::Offers(offers) => sent(alloc, master.offer(offers.as_slice())),
        _ => Err("offers")?,
    }
}

fn offered(alloc: Global, master: &mut Master, text: &str) -> Result<String, Fail> {
    let event = event_of(alloc, text)?;
    let answer = offered_as(alloc, master, &event);
    drop(event);
    answer
}

fn updated_as(alloc: Global, master: &mut Master, event: &Event) -> Result<String, Fail> {
    match event {
        Event::Update(body) => sent(alloc, master.update(body.status.get())),
        _ => Err("an update")?,
    }
}

fn updated(alloc: Global, master: &mut Master, text: &str) -> Result<String, Fail> {
    let event = event_of(alloc, text)?;
    let answer = updated_as(alloc, master, &event);
    drop(event);
    answer
}

fn resent(alloc: Global, master: &Master, text: &str) -> Result<String, Fail> {
    match text.parse::<usize>() {
        Ok(index) => sent(alloc, master.resend(index)),
        Err(_) => Err("an index")?,
    }
}

/// Disconnects the current stream.
fn broken(alloc: Global, master: &mut Master, deed: &str) -> Result<String, Fail> {
    if deed != "break" {
        Err("a deed is `break` or has two words")?
    }
    master.broken();
    Ok(String::from_str(alloc, "-")?)
}

/// Executes an action and prints its result.
pub(crate) fn done(alloc: Global, master: &mut Master, deed: &str) -> Result<String, Fail> {
    match deed.split_once(" ") {
        Some(("offer", text)) => offered(alloc, master, text),
        Some(("rescind", id)) => sent(alloc, master.rescind(id)),
        Some(("update", text)) => updated(alloc, master, text),
        Some(("resend", index)) => resent(alloc, master, index),
        Some((stream, text)) => called(alloc, master, stream, text),
        None => broken(alloc, master, deed),
    }
}

fn outstanding(alloc: Global, master: &Master) -> Result<String, Fail> {
    let mut text = String::new(alloc);
    for index in 0..master.outstanding_len() {
        let offer = master.outstanding_at(index).ok_or("an offer")?;
        text.push_str(offer.id.value.as_str())?;
        text.push_str(" ")?;
    }
    Ok(text)
}

fn launched(alloc: Global, master: &Master) -> Result<String, Fail> {
    let mut text = String::new(alloc);
    for index in 0..master.launched_len() {
        let task = master.launched_at(index).ok_or("a task")?;
        text.push_str(task.value.as_str())?;
        text.push_str(" ")?;
    }
    Ok(text)
}

/// Returns the tasks of the acknowledged updates as a text.
fn acked(alloc: Global, master: &Master) -> Result<String, Fail> {
    let mut text = String::new(alloc);
    for index in 0..master.acked_len() {
        let key = master.acked_at(index).ok_or("a key")?;
        text.push_str(key.task.value.as_str())?;
        text.push_str(" ")?;
    }
    Ok(text)
}

fn stream(master: &Master) -> &str {
    match master.stream() {
        Some(id) => id.as_str().strip_prefix(STREAM_FRONT).unwrap_or("?"),
        None => "-",
    }
}

/// Returns whether each getter of the master returns `None` at the index after its last element.
fn ends(master: &Master) -> bool {
    master.outstanding_at(master.outstanding_len()).is_none()
        && master.launched_at(master.launched_len()).is_none()
        && master.acked_at(master.acked_len()).is_none()
}

/// Returns the master's state, read through its getters, as a text.
fn held(alloc: Global, master: &Master) -> Result<String, Fail> {
    let offers = outstanding(alloc, master)?;
    let tasks = launched(alloc, master)?;
    let keys = acked(alloc, master)?;
    let stream = stream(master);
    Ok(format!(in alloc; "{offers}/ {tasks}/ {keys}/ {stream}")?)
}

/// Splits a row into its three parts.
fn parts_of(row: &str) -> Result<(&str, &str, &str), Fail> {
    let (deed, rest) = row.split_once(" => ").ok_or("a row has an answer")?;
    let (answer, state) = rest.split_once(" => ").ok_or("a row has a state")?;
    Ok((deed, answer, state))
}

fn expect_row<R: Abort + AllocGlobal>(rt: &R, master: &mut Master, row: &str) -> Result<(), Fail> {
    let (deed, answer, state) = parts_of(row)?;
    let said = done(rt.alloc(), master, deed)?;
    assert_eq!(rt; said.as_str(), answer, "{row}");
    let holds = held(rt.alloc(), master)?;
    assert_eq!(rt; holds.as_str(), state, "{row}");
    assert!(rt; ends(master));
    Ok(())
}

fn expect_rows<R: Abort + AllocGlobal>(
    rt: &R,
    master: &mut Master,
    rows: &str,
) -> Result<(), Fail> {
    for row in rows.lines() {
        expect_row(rt, master, row)?;
    }
    Ok(())
}

/// Runs the rows on a new master, and expects the result and the state of each.
pub(crate) fn expect_run<R: Abort + AllocGlobal>(rt: &R, rows: &str) -> Result<(), Fail> {
    let mut master = new_master(rt.alloc())?;
    let answer = expect_rows(rt, &mut master, rows);
    drop(master);
    answer
}
