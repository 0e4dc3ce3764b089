//! The format of the test tables, and their interpreter.
//!
//! A row of a test table is `OFFERS -> OPERATIONS => RESULT`. Offers are separated by ` ; `,
//! operations by ` // `, and the tasks of an operation by ` ; `. Of an offer or a task only the
//! resources are written. The result is `fits`, or the indices of the task and the resource of the
//! first breach.

use mes_json::read_tape;
use mes_model::{List, Offer, Part, PathBuilder, TaskInfo};
use mes_msg::Operation;
use mes_session_fit::{Breach, first_breach};
use std::alloc::Global;
use std::process::Abort;
use std::test::Fail;

/// The text of an offer before its resources.
const OFFER_FRONT: &[u8] =
    br#"{"id":{"value":"O1"},"framework_id":{"value":"F1"},"agent_id":{"value":"A1"},"hostname":"h","resources":["#;

/// The text of a task before its resources.
const TASK_FRONT: &[u8] =
    br#"{"name":"t","task_id":{"value":"T1"},"agent_id":{"value":"A1"},"resources":["#;

/// Returns the text of an offer or a task with these resources.
fn with_resources(alloc: Global, front: &[u8], resources: &str) -> Result<Vec<u8>, Fail> {
    let mut text = Vec::new(alloc);
    text.extend_from_slice(front)?;
    text.extend_from_slice(resources.as_bytes())?;
    text.extend_from_slice(b"]}")?;
    Ok(text)
}

fn offer_of(alloc: Global, resources: &str) -> Result<Offer, Fail> {
    let text = with_resources(alloc, OFFER_FRONT, resources)?;
    let tape = read_tape(alloc, text.as_slice())?;
    match Offer::read_from(alloc, &tape.root(), &PathBuilder::new()) {
        Ok(offer) => Ok(offer),
        Err(_) => Err("an offer")?,
    }
}

fn task_of(alloc: Global, resources: &str) -> Result<TaskInfo, Fail> {
    let text = with_resources(alloc, TASK_FRONT, resources)?;
    let tape = read_tape(alloc, text.as_slice())?;
    match TaskInfo::read_from(alloc, &tape.root(), &PathBuilder::new()) {
        Ok(task) => Ok(task),
        Err(_) => Err("a task")?,
    }
}

fn offers_of(alloc: Global, text: &str) -> Result<Vec<Offer>, Fail> {
    let mut offers = Vec::new(alloc);
    for resources in text.split(" ; ") {
        offers.push(offer_of(alloc, resources)?)?;
    }
    Ok(offers)
}

fn tasks_of(alloc: Global, text: &str) -> Result<Vec<TaskInfo>, Fail> {
    let mut tasks = Vec::new(alloc);
    for resources in text.split(" ; ") {
        tasks.push(task_of(alloc, resources)?)?;
    }
    Ok(tasks)
}

fn operation_of(alloc: Global, text: &str) -> Result<Operation, Fail> {
    Ok(Operation::Launch {
        task_infos: List::new(tasks_of(alloc, text)?),
    })
}

fn operations_of(alloc: Global, text: &str) -> Result<Vec<Operation>, Fail> {
    let mut operations = Vec::new(alloc);
    for tasks in text.split(" // ") {
        operations.push(operation_of(alloc, tasks)?)?;
    }
    Ok(operations)
}

fn in_words(alloc: Global, breach: Option<Breach>) -> Result<String, Fail> {
    match breach {
        None => Ok(String::from_str(alloc, "fits")?),
        Some(breach) => Ok(format!(in alloc; "{} {}", breach.task, breach.resource)?),
    }
}

fn answer(alloc: Global, offers: &str, operations: &str) -> Result<String, Fail> {
    let offers = offers_of(alloc, offers)?;
    let operations = operations_of(alloc, operations)?;
    in_words(
        alloc,
        first_breach(&offers.as_slice(), operations.as_slice()),
    )
}

/// Returns the printed result for the tasks of a row in two slices, each with half of the tasks.
fn answer_of_slices(alloc: Global, offers: &str, tasks: &str) -> Result<String, Fail> {
    let offers = offers_of(alloc, offers)?;
    let tasks = tasks_of(alloc, tasks)?;
    let (front, following) = tasks.as_slice().split_at(tasks.len() / 2);
    in_words(alloc, first_breach(&offers.as_slice(), &[front, following]))
}

fn answer_of_slice(alloc: Global, offers: &str, tasks: &str) -> Result<String, Fail> {
    let offers = offers_of(alloc, offers)?;
    let tasks = tasks_of(alloc, tasks)?;
    in_words(alloc, first_breach(&offers.as_slice(), &[tasks.as_slice()]))
}

/// Expects the result of each row, with the tasks in one slice and in two.
pub(crate) fn expect_answers_of_slices<R: Abort + AllocGlobal>(
    rt: &R,
    rows: &str,
) -> Result<(), Fail> {
    for row in rows.lines() {
        let (question, expected) = row.split_once(" => ").ok_or("a row has an answer")?;
        let (offers, tasks) = question.split_once(" -> ").ok_or("a row has offers")?;
        let said = answer_of_slice(rt.alloc(), offers, tasks)?;
        assert_eq!(rt; said.as_str(), expected, "{question}");
        let said = answer_of_slices(rt.alloc(), offers, tasks)?;
        assert_eq!(rt; said.as_str(), expected, "{question}");
    }
    Ok(())
}

/// Expects the result of each row.
pub(crate) fn expect_answers<R: Abort + AllocGlobal>(rt: &R, rows: &str) -> Result<(), Fail> {
    for row in rows.lines() {
        let (question, expected) = row.split_once(" => ").ok_or("a row has an answer")?;
        let (offers, operations) = question.split_once(" -> ").ok_or("a row has offers")?;
        let said = answer(rt.alloc(), offers, operations)?;
        assert_eq!(rt; said.as_str(), expected, "{question}");
    }
    Ok(())
}
