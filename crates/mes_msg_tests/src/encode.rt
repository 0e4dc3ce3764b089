//! Tests of events without a canonical text, and of the names of events of other types.

use crate::record::{nested, record_of, refused, rewritten};
use mes_json::{MAX_NESTING, Text};
use mes_model_schema::value_returned;
use mes_msg::{EncodeFault, Event, Limit, OtherName};
use std::alloc::Global;
use std::test::Fail;

/// The most nested objects of a `disk` in a written OFFERS, where it is inside six objects and
/// arrays.
const MOST_OBJECTS: usize = MAX_NESTING - 6;

/// Returns an OFFERS in the bare-array form, with a `disk` of this number of nested objects.
fn deep_offers(alloc: Global, objects: usize) -> Result<Vec<u8>, Fail> {
    nested(
        alloc,
        br#"{"type":"OFFERS","offers":[{"id":{"value":"O1"},"framework_id":{"value":"F1"},"agent_id":{"value":"A1"},"hostname":"h","resources":[{"name":"disk","type":"SET","set":{},"disk":"#,
        objects,
        b"}]}]}",
    )
}

fn refused_deep(alloc: Global, objects: usize, limit: Limit) -> Result<Option<EncodeFault>, Fail> {
    refused::<Event>(alloc, deep_offers(alloc, objects)?.as_slice(), limit)
}

// In the text `disk` is inside five objects and arrays, so it is read. Written, it is inside six.
#[test]
fn deep_events_are_refused(rt: HostRuntime) -> Result<(), Fail> {
    let smallest = Limit::new(1).ok_or("a limit")?;
    for limit in [Limit::LARGEST, smallest] {
        let why = refused_deep(rt.alloc(), MOST_OBJECTS + 1, limit)?;
        assert!(rt; matches!(why, Some(EncodeFault::TooDeep)));
    }
    Ok(())
}

// The canonical text nests to the limit, and is 11 bytes longer than the text that was read:
// `{"offers":` and `}`.
#[test]
fn events_nest_to_the_limit(rt: HostRuntime) -> Result<(), Fail> {
    let text = deep_offers(rt.alloc(), MOST_OBJECTS)?;
    let written = rewritten::<Event>(rt.alloc(), text.as_slice())?;
    assert_eq!(rt; written.len(), text.len() + 11);
    Ok(())
}

#[test]
fn a_deep_event_above_the_limit_is_too_large(rt: HostRuntime) -> Result<(), Fail> {
    let smallest = Limit::new(1).ok_or("a limit")?;
    let why = refused_deep(rt.alloc(), MOST_OBJECTS, smallest)?;
    assert!(rt; matches!(why, Some(EncodeFault::TooLarge)));
    Ok(())
}

#[test]
fn a_written_event_is_read_again(rt: HostRuntime) -> Result<(), Fail> {
    let text = deep_offers(rt.alloc(), MOST_OBJECTS)?;
    let written = rewritten::<Event>(rt.alloc(), text.as_slice())?;
    let again = rewritten::<Event>(rt.alloc(), written.as_slice())?;
    assert!(rt; again.as_slice() == written.as_slice());
    Ok(())
}

/// An OFFERS event whose offer has a resource.
const OFFERS: &str =
    r#"{"type":"OFFERS","offers":[{"id":{"value":"O1"},"framework_id":{"value":"F1"},"agent_id":{"value":"A1"},"hostname":"h","resources":[{"name":"cpus","type":"SCALAR","scalar":{"value":1.5}}]}]}"#;

// The law `value_returned` needs an event, and no allocator.
#[test]
fn the_law_of_returned_values_needs_no_allocator(rt: HostRuntime) -> Result<(), Fail> {
    let event: Event = record_of(rt.alloc(), OFFERS.as_bytes())?;
    value_returned(&event);
    Ok(())
}

/// The eight known types of events.
const KNOWN: [&str; 8] = [
    "SUBSCRIBED",
    "OFFERS",
    "RESCIND",
    "UPDATE",
    "MESSAGE",
    "FAILURE",
    "ERROR",
    "HEARTBEAT",
];

/// Names of other types of events.
const OTHER: [&str; 6] = [
    "",
    "INVERSE_OFFERS",
    "RESCIND_INVERSE_OFFER",
    "UPDATE_OPERATION_STATUS",
    "offers",
    "OFFERS ",
];

/// Returns whether `OtherName::new` returns the name as the error, because it is a known type.
fn is_returned(alloc: Global, name: &str) -> Result<bool, Fail> {
    let text = Text::new(String::from_str(alloc, name)?);
    match OtherName::new(text) {
        Ok(_) => Ok(false),
        Err(text) => Ok(text.as_str() == name),
    }
}

/// Returns whether the name is accepted as that of another type, and so is its copy.
fn is_other(alloc: Global, name: &str) -> Result<bool, Fail> {
    let text = Text::new(String::from_str(alloc, name)?);
    match OtherName::new(text) {
        Ok(other) => Ok(other.as_str() == name && other.copy(alloc)?.as_str() == name),
        Err(_) => Ok(false),
    }
}

#[test]
fn known_names_are_not_other_names(rt: HostRuntime) -> Result<(), Fail> {
    for &name in &KNOWN {
        assert!(rt; is_returned(rt.alloc(), name)?, "{name}");
    }
    for &name in &OTHER {
        assert!(rt; is_other(rt.alloc(), name)?, "{name}");
    }
    Ok(())
}
