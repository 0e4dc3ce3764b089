//! Helpers for events and calls read from JSON texts: they check the canonical text, or the path
//! and the reason of the first fault.

use crate::support::{as_text, expect_fault, field_fault_of, row_of};
use mes_frame::MAX_RECORD_LIMIT;
use mes_json::{Json, read_text};
use mes_model::Part;
use mes_model_schema::PartFault;
use mes_msg::{Call, EncodeFault, Event, Limit, RecordFault};
use std::alloc::{AllocGlobal, Global};
use std::process::Abort;
use std::test::Fail;

/// An event or a call.
pub(crate) trait Record: Part {
    fn of_text(alloc: Global, text: &[u8]) -> Result<Self, RecordFault>;

    fn of_json(alloc: Global, tree: &Json) -> Result<Self, PartFault>;

    fn canonical(&self, alloc: Global, limit: Limit) -> Result<Vec<u8>, EncodeFault>;
}

impl Record for Event {
    fn of_text(alloc: Global, text: &[u8]) -> Result<Event, RecordFault> {
        Event::read_record(alloc, text)
    }

    fn of_json(alloc: Global, tree: &Json) -> Result<Event, PartFault> {
        Event::of_tree(alloc, tree)
    }

    fn canonical(&self, alloc: Global, limit: Limit) -> Result<Vec<u8>, EncodeFault> {
        self.canon(alloc, limit)
    }
}

impl Record for Call {
    fn of_text(alloc: Global, text: &[u8]) -> Result<Call, RecordFault> {
        Call::read_record(alloc, text)
    }

    fn of_json(alloc: Global, tree: &Json) -> Result<Call, PartFault> {
        Call::of_tree(alloc, tree)
    }

    fn canonical(&self, alloc: Global, limit: Limit) -> Result<Vec<u8>, EncodeFault> {
        self.canon(alloc, limit)
    }
}

pub(crate) fn expect_faults<T: Record, R: Abort + AllocGlobal>(
    rt: &R,
    faults: &str,
) -> Result<(), Fail> {
    for line in faults.lines() {
        let (text, fault) = row_of(line)?;
        let answer = T::of_text(rt.alloc(), text.as_bytes());
        expect_fault(rt, text, field_fault_of(answer), fault)?;
    }
    Ok(())
}

/// Returns the text of a beginning, this number of nested objects, and an end.
pub(crate) fn nested(
    alloc: Global,
    front: &[u8],
    objects: usize,
    following: &[u8],
) -> Result<Vec<u8>, Fail> {
    let mut text = Vec::new(alloc);
    text.extend_from_slice(front)?;
    for _ in 1..objects {
        text.extend_from_slice(br#"{"a":"#)?;
    }
    text.extend_from_slice(b"{}")?;
    for _ in 1..objects {
        text.extend_from_slice(b"}")?;
    }
    text.extend_from_slice(following)?;
    Ok(text)
}

pub(crate) fn record_of<T: Record>(alloc: Global, text: &[u8]) -> Result<T, Fail> {
    match T::of_text(alloc, text) {
        Ok(record) => Ok(record),
        Err(_) => Err("a record")?,
    }
}

fn record_of_tree<T: Record>(alloc: Global, text: &str) -> Result<T, Fail> {
    let tree = read_text(alloc, text.as_bytes())?;
    match T::of_json(alloc, &tree) {
        Ok(record) => Ok(record),
        Err(_) => Err("a record")?,
    }
}

pub(crate) fn canon<T: Record>(record: &T, alloc: Global, limit: Limit) -> Result<Vec<u8>, Fail> {
    match record.canonical(alloc, limit) {
        Ok(text) => Ok(text),
        Err(_) => Err("a canonical text")?,
    }
}

pub(crate) fn rewritten<T: Record>(alloc: Global, text: &[u8]) -> Result<Vec<u8>, Fail> {
    canon(&record_of::<T>(alloc, text)?, alloc, Limit::LARGEST)
}

/// Returns the reason for which the event or call of a text has no canonical text within the limit,
/// if there is a reason.
pub(crate) fn refused<T: Record>(
    alloc: Global,
    text: &[u8],
    limit: Limit,
) -> Result<Option<EncodeFault>, Fail> {
    let record: T = record_of(alloc, text)?;
    Ok(record.canonical(alloc, limit).err())
}

fn is_too_large<T: Record>(record: &T, alloc: Global, limit: Limit) -> bool {
    matches!(record.canonical(alloc, limit), Err(EncodeFault::TooLarge))
}

/// Checks the canonical text with a limit of exactly its length, and that a limit of one byte less
/// is too small.
fn expect_canon<T: Record, R: Abort + AllocGlobal>(
    rt: &R,
    record: &T,
    written: &str,
) -> Result<(), Fail> {
    let length = written.len().min(MAX_RECORD_LIMIT as usize) as u32;
    let limit = Limit::new(length).ok_or("a limit")?;
    let below = Limit::new(length.saturating_sub(1)).ok_or("a limit")?;
    let out = canon(record, rt.alloc(), limit)?;
    assert_eq!(rt; as_text(out.as_slice()), Some(written));
    assert!(rt; is_too_large(record, rt.alloc(), below), "{written}");
    Ok(())
}

/// Checks the canonical text of the event or call of a text, of its copy, and of the event or call
/// that is read from the JSON tree of the text.
pub(crate) fn expect_record<T: Record, R: Abort + AllocGlobal>(
    rt: &R,
    text: &str,
    written: &str,
) -> Result<(), Fail> {
    let record: T = record_of(rt.alloc(), text.as_bytes())?;
    expect_canon(rt, &record, written)?;
    expect_canon(rt, &record.copy(rt.alloc())?, written)?;
    expect_canon(rt, &record_of_tree::<T>(rt.alloc(), text)?, written)
}

pub(crate) fn expect_records<T: Record, R: Abort + AllocGlobal>(
    rt: &R,
    rows: &str,
) -> Result<(), Fail> {
    for line in rows.lines() {
        let (text, written) = row_of(line)?;
        expect_record::<T, R>(rt, text, written)?;
    }
    Ok(())
}
