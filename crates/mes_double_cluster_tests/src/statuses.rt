//! Tests of statuses, of UUIDs, of the time of a refusal, and of the resource that does not fit.

use crate::support::{id_of, task_of, task_with};
use mes_double_cluster::{
    refusal_end, task_error, task_lost, task_unknown, unfitting_resource, update_uuid,
};
use mes_json::Text;
use mes_model::{Filters, Offer, Part, TaskStatus};
use mes_model_schema::fixed::Micros;
use std::alloc::Global;
use std::test::Fail;

/// The members of an UPDATE that the master itself sends, in the order of mesos.proto.
const ERROR: &str =
    r#"{"task_id":{"value":"T1"},"state":"TASK_ERROR","message":"no","source":"SOURCE_MASTER","reason":"REASON_TASK_INVALID","agent_id":{"value":"A1"}}"#;

const LOST: &str =
    r#"{"task_id":{"value":"T1"},"state":"TASK_LOST","message":"An offer is not outstanding","source":"SOURCE_MASTER","reason":"REASON_INVALID_OFFERS","agent_id":{"value":"A1"}}"#;

const UNKNOWN: &str =
    r#"{"task_id":{"value":"T1"},"state":"TASK_LOST","message":"The task is unknown","source":"SOURCE_MASTER","reason":"REASON_RECONCILIATION"}"#;

const UNKNOWN_ON_AGENT: &str =
    r#"{"task_id":{"value":"T1"},"state":"TASK_LOST","message":"The task is unknown","source":"SOURCE_MASTER","reason":"REASON_RECONCILIATION","agent_id":{"value":"A2"}}"#;

/// Returns the JSON text of a status.
fn text_of(alloc: Global, status: &TaskStatus) -> Result<String, Fail> {
    let mut text = Vec::new(alloc);
    status.write_json(alloc, &mut text)?;
    match String::from_utf8(text) {
        Ok(text) => Ok(text),
        Err(_) => Err("a status is UTF-8")?,
    }
}

fn error_text(alloc: Global) -> Result<String, Fail> {
    let task = task_of(alloc, "T1")?;
    let status = task_error(alloc, &task, Text::of(alloc, "no")?)?;
    text_of(alloc, &status)
}

fn lost_text(alloc: Global) -> Result<String, Fail> {
    let task = task_of(alloc, "T1")?;
    let status = task_lost(alloc, &task, "An offer is not outstanding")?;
    text_of(alloc, &status)
}

fn unknown_text(alloc: Global) -> Result<String, Fail> {
    let id = id_of(alloc, "T1")?;
    let status = task_unknown(alloc, &id, None)?;
    text_of(alloc, &status)
}

fn unknown_on_agent_text(alloc: Global) -> Result<String, Fail> {
    let id = id_of(alloc, "T1")?;
    let agent = id_of(alloc, "A2")?;
    let status = task_unknown(alloc, &id, Some(&agent))?;
    text_of(alloc, &status)
}

fn uuid_text(alloc: Global, update: u64) -> Result<String, Fail> {
    let mut buffer = [0; 36];
    let text = update_uuid(update).hyphenated().encode_lower(&mut buffer);
    Ok(String::from_str(alloc, text)?)
}

/// Returns the end of a refusal at the time 7 whose `refuse_seconds` are given in microseconds.
fn end_of(microseconds: u64) -> u64 {
    let refuse_seconds = Micros::of_units(microseconds);
    refusal_end(7, Some(&Filters { refuse_seconds }))
}

/// Returns the name of the first resource of a task that does not fit no offers, or `fits`.
fn misfit_of(alloc: Global, resources: &str) -> Result<String, Fail> {
    let offers: [Offer; 0] = [];
    let tasks = [task_with(alloc, "T1", resources)?];
    match unfitting_resource(&offers.as_slice(), &tasks) {
        Some(resource) => Ok(String::from_str(alloc, resource.name.as_str())?),
        None => Ok(String::from_str(alloc, "fits")?),
    }
}

#[test]
fn a_task_that_is_not_launched_has_a_reason(rt: HostRuntime) -> Result<(), Fail> {
    let text = error_text(rt.alloc())?;
    assert_eq!(rt; text.as_str(), ERROR);
    let text = lost_text(rt.alloc())?;
    assert_eq!(rt; text.as_str(), LOST);
    Ok(())
}

#[test]
fn an_unknown_task_is_lost(rt: HostRuntime) -> Result<(), Fail> {
    let text = unknown_text(rt.alloc())?;
    assert_eq!(rt; text.as_str(), UNKNOWN);
    let text = unknown_on_agent_text(rt.alloc())?;
    assert_eq!(rt; text.as_str(), UNKNOWN_ON_AGENT);
    Ok(())
}

#[test]
fn uuids_end_with_the_number_of_the_update(rt: HostRuntime) -> Result<(), Fail> {
    let text = uuid_text(rt.alloc(), 0)?;
    assert_eq!(rt; text.as_str(), "00000000-0000-4000-a000-000000000000");
    let text = uuid_text(rt.alloc(), 258)?;
    assert_eq!(rt; text.as_str(), "00000000-0000-4000-a000-000000000102");
    Ok(())
}

/// Microseconds, and the time at which a refusal that begins at the time 7 ends.
const REFUSALS: [(u64, u64); 5] = [(0, 7), (1, 8), (1_000, 8), (1_001, 9), (2_500_000, 2_507)];

#[test]
fn a_refusal_ends_after_its_seconds(rt: HostRuntime) {
    for &(microseconds, end) in &REFUSALS {
        assert_eq!(rt; end_of(microseconds), end, "after {microseconds}");
    }
}

#[test]
fn a_refusal_without_seconds_ends_after_five(rt: HostRuntime) {
    assert_eq!(rt; refusal_end(7, None), 5_007);
    let absent = Filters {
        refuse_seconds: None,
    };
    assert_eq!(rt; refusal_end(7, Some(&absent)), 5_007);
    assert_eq!(rt; refusal_end(u64::MAX - 1, None), u64::MAX);
}

/// A resource that no offer has.
const CPUS: &str = r#"{"name":"cpus","type":"SCALAR","scalar":{"value":0.5}}"#;

#[test]
fn the_first_resource_that_does_not_fit_is_found(rt: HostRuntime) -> Result<(), Fail> {
    let name = misfit_of(rt.alloc(), "")?;
    assert_eq!(rt; name.as_str(), "fits");
    let name = misfit_of(rt.alloc(), CPUS)?;
    assert_eq!(rt; name.as_str(), "cpus");
    Ok(())
}
