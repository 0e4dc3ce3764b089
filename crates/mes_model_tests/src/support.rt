//! Helpers of the tests of messages.
//!
//! A table of tests is one string with a test on each line: `TEXT => PATH REASON` for an invalid
//! JSON text, and `TEXT => CANONICAL` for a valid one. The time to prove a test grows with the
//! number of string literals in its table, so each table is a single literal.

ghost use Rattle.std.specs.Prelude.{◌≤◌};

use arrayvec::ArrayString;
use mes_json::{Json, read_tape, read_text, write_text};
use mes_model_schema::{
    FieldFault, MAX_PATH_STEPS, MAX_PATH_TEXT, Part, PartFault, Path, PathBuilder, written_again,
};
use std::alloc::{AllocGlobal, Global};
use std::process::Abort;
use std::test::Fail;

pub(crate) fn row_of(line: &str) -> Result<(&str, &str), Fail> {
    Ok(line.split_once(" => ").ok_or("a row has two sides")?)
}

pub(crate) fn text_of(alloc: Global, tree: &Json) -> Result<Vec<u8>, Fail> {
    let mut out = Vec::new(alloc);
    write_text(tree, &mut out)?;
    Ok(out)
}

pub(crate) fn expect_text<R: Abort>(
    rt: &R,
    alloc: Global,
    tree: &Json,
    expected: &str,
) -> Result<(), Fail> {
    let out = text_of(alloc, tree)?;
    assert_eq!(rt; as_text(out.as_slice()), Some(expected));
    Ok(())
}

pub(crate) fn part_fault_of<T: Drop>(answer: Result<T, PartFault>) -> Option<FieldFault> {
    match answer.err()? {
        PartFault::Field(fault) => Some(fault.into_inner()),
        PartFault::NoMemory => None,
    }
}

/// Checks the path and the reason of a fault.
pub(crate) fn expect_fault<R: Abort>(
    rt: &R,
    text: &str,
    fault: Option<FieldFault>,
    expected: &str,
) -> Result<(), Fail> {
    let (path, why) = expected.split_once(' ').ok_or("a path and why")?;
    let fault = fault.ok_or("a fault")?;
    let mut path_text: ArrayString<MAX_PATH_TEXT> = ArrayString::new();
    fault.path.text(&mut path_text);
    assert_eq!(rt;
        (path_text.as_str(), fault.why.name()),
        (path, why),
        "{text}"
    );
    Ok(())
}

/// Reads the value of a text from its token tape.
pub(crate) fn read<T: Part>(alloc: Global, text: &str) -> Result<Result<T, PartFault>, Fail>
    requires { T.STEPS ≤ MAX_PATH_STEPS }
{
    let tape = read_tape(alloc, text.as_bytes())?;
    Ok(T::read_from(alloc, &tape.root(), &PathBuilder::new()))
}

pub(crate) fn value_of<T: Part>(alloc: Global, text: &str) -> Result<T, Fail>
    requires { T.STEPS ≤ MAX_PATH_STEPS }
{
    match read(alloc, text)? {
        Ok(value) => Ok(value),
        Err(_) => Err("a value")?,
    }
}

/// Returns the first fault of a text, read from its token tape, if the text is invalid.
pub(crate) fn fault_of<T: Part>(alloc: Global, text: &str) -> Result<Option<FieldFault>, Fail>
    requires { T.STEPS ≤ MAX_PATH_STEPS }
{
    Ok(part_fault_of(read::<T>(alloc, text)?))
}

/// Like [`fault_of`], but read from the JSON tree of the text.
fn fault_of_tree<T: Part>(alloc: Global, text: &str) -> Result<Option<FieldFault>, Fail>
    requires { T.STEPS ≤ MAX_PATH_STEPS }
{
    let tree = read_text(alloc, text.as_bytes())?;
    Ok(part_fault_of(T::read(alloc, &tree, &Path::new())))
}

/// Checks the first fault of each text in a table, read from its token tape and from its JSON tree.
pub(crate) fn expect_faults<T: Part, R: Abort + AllocGlobal>(
    rt: &R,
    faults: &str,
) -> Result<(), Fail>
    requires { T.STEPS ≤ MAX_PATH_STEPS }
{
    for line in faults.lines() {
        let (text, fault) = row_of(line)?;
        expect_fault(rt, text, fault_of::<T>(rt.alloc(), text)?, fault)?;
        expect_fault(rt, text, fault_of_tree::<T>(rt.alloc(), text)?, fault)?;
    }
    Ok(())
}

pub(crate) fn again<T: Part>(alloc: Global, value: &T) -> Result<T, Fail>
    requires { T.STEPS ≤ MAX_PATH_STEPS }
{
    match written_again(alloc, value) {
        Ok(again) => Ok(again),
        Err(_) => Err("it is written and read")?,
    }
}

fn copy_of<T: Part>(alloc: Global, text: &str) -> Result<T, Fail>
    requires { T.STEPS ≤ MAX_PATH_STEPS }
{
    let value: T = value_of(alloc, text)?;
    Ok(value.copy(alloc)?)
}

fn text_of_tree<T: Part>(alloc: Global, value: &T) -> Result<Vec<u8>, Fail> {
    let tree = value.tree(alloc)?;
    text_of(alloc, &tree)
}

fn text_without_tree<T: Part>(alloc: Global, value: &T) -> Result<Vec<u8>, Fail> {
    let mut out = Vec::new(alloc);
    value.write_json(alloc, &mut out)?;
    Ok(out)
}

/// Checks for each line of a table that the copy of the value has the canonical text.
pub(crate) fn expect_values<T: Part, R: Abort + AllocGlobal>(
    rt: &R,
    values: &str,
) -> Result<(), Fail>
    requires { T.STEPS ≤ MAX_PATH_STEPS }
{
    for line in values.lines() {
        let (text, written) = row_of(line)?;
        expect_written(rt, text, &copy_of::<T>(rt.alloc(), text)?, written)?;
    }
    Ok(())
}

/// Checks the text of a value, written from its tree and without a tree.
fn expect_written<T: Part, R: Abort + AllocGlobal>(
    rt: &R,
    text: &str,
    value: &T,
    written: &str,
) -> Result<(), Fail> {
    let by_tree = text_of_tree(rt.alloc(), value)?;
    assert_eq!(rt; as_text(by_tree.as_slice()), Some(written), "{text}");
    let without = text_without_tree(rt.alloc(), value)?;
    assert_eq!(rt; as_text(without.as_slice()), Some(written), "{text}");
    Ok(())
}

/// Returns the bytes as text, so that a failed test prints it.
pub(crate) fn as_text(bytes: &[u8]) -> Option<&str> {
    str::from_utf8(bytes).ok()
}
