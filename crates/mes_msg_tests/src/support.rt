//! Helpers of the tests of events and calls.
//!
//! A table of tests is one string with a test on each line: `TEXT => PATH REASON` for an invalid
//! JSON text, and `TEXT => CANONICAL` for a valid one. The time to prove a test grows with the
//! number of string literals in its table, so each table is a single literal. A function that makes
//! an event or a call is slow to prove if more steps follow, so such functions are small.

use arrayvec::ArrayString;
use mes_json::TextFaultKind;
use mes_model_schema::{FieldFault, MAX_PATH_TEXT};
use mes_msg::RecordFault;
use std::process::Abort;
use std::test::Fail;

pub(crate) fn row_of(line: &str) -> Result<(&str, &str), Fail> {
    Ok(line.split_once(" => ").ok_or("a row has two sides")?)
}

pub(crate) fn field_fault_of<T: Drop>(answer: Result<T, RecordFault>) -> Option<FieldFault> {
    match answer.err()? {
        RecordFault::Field(fault) => Some(fault.into_inner()),
        RecordFault::Text(_) | RecordFault::NoMemory => None,
    }
}

pub(crate) fn text_fault_of<T: Drop>(
    answer: Result<T, RecordFault>,
) -> Option<(u64, TextFaultKind)> {
    match answer.err()? {
        RecordFault::Text(fault) => Some((fault.byte, fault.why)),
        RecordFault::Field(_) | RecordFault::NoMemory => None,
    }
}

/// Checks the path and the reason of a fault.
pub(crate) fn expect_fault<R: Abort>(
    rt: &R,
    text: &str,
    fault: Option<FieldFault>,
    expected: &str,
) -> Result<(), Fail> {
    let (path, why) = expected.split_once(' ').ok_or("a path and why")?;
    let fault = fault.ok_or("a fault")?;
    let mut path_text: ArrayString<MAX_PATH_TEXT> = ArrayString::new();
    fault.path.text(&mut path_text);
    assert_eq!(rt;
        (path_text.as_str(), fault.why.name()),
        (path, why),
        "{text}"
    );
    Ok(())
}

/// Returns the bytes as text, so that a failed test prints it.
pub(crate) fn as_text(bytes: &[u8]) -> Option<&str> {
    str::from_utf8(bytes).ok()
}
