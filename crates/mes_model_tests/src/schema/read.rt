//! Tests of labels read from JSON texts: the value, or the path and the reason of the first fault.

ghost use Rattle.std.specs.Prelude.{◌≤◌, ◌+◌};

use crate::support::{
    again, expect_fault, expect_faults, expect_text, part_fault_of, row_of, value_of,
};
use mes_json::{Json, read_tape, read_text};
use mes_model_schema::{
    FieldFault, Label, Labels, List, MAX_PATH_STEPS, Part, PartFault, Path, PathBuilder, find_rows,
    left_out, list_tree, nothing_found, read_either_list, read_list,
};
use std::alloc::Global;
use std::process::Abort;
use std::test::Fail;

/// JSON texts that are not labels, each with the first fault.
const FAULTS: &str = r#"[] => . WrongKind
null => . WrongKind
{"labels":{}} => labels WrongKind
{"labels":[],"labels":null} => labels Twice
{"labels":[{"key":"a"},null]} => labels[1] WrongKind
{"labels":[{"value":"v"}]} => labels[0].key Missing
{"labels":[{"key":null}]} => labels[0].key Missing
{"labels":[{"key":1}]} => labels[0].key WrongKind
{"labels":[{"key":"a","key":"a"}]} => labels[0].key Twice
{"labels":[{"value":[],"key":true}]} => labels[0].key WrongKind
{"labels":[{"key":"a","value":[]}]} => labels[0].value WrongKind
"#;

/// JSON texts of labels, each with the canonical text.
const LABELS: &str = r#"{} => {}
{"labels":null} => {}
{"x":1,"labels":[],"x":{}} => {}
{"labels":[{"key":"k"},{"value":"v","key":"l"},{"key":"m","value":null,"y":[{}]}]} => {"labels":[{"key":"k"},{"key":"l","value":"v"},{"key":"m"}]}
"#;

/// JSON texts that are no list of labels in either form, each with the first fault.
const EITHER_FAULTS: &str = r#"null => . WrongKind
7 => . WrongKind
"labels" => . WrongKind
[{"key":"a"},{"key":1}] => [1].key WrongKind
{"labels":{"key":"a"}} => labels WrongKind
{"labels":[7]} => labels[0] WrongKind
{"labels":[],"labels":[]} => labels Twice
"#;

/// JSON texts of a list of labels in either form, each with the canonical text.
const EITHER: &str = r#"[] => []
{} => []
{"labels":null,"key":7} => []
[{"key":"a"},{"key":"b"}] => [{"key":"a"},{"key":"b"}]
{"labels":[{"key":"a"},{"key":"b"}]} => [{"key":"a"},{"key":"b"}]
"#;

/// JSON objects with an unsupported member `x`, each with the first fault.
const LEFT_OUT: &str = r#"{"x":{}} => x LeftOut
{"x":false} => x LeftOut
{"y":1,"x":""} => x LeftOut
{"x":null,"x":null} => x Twice
{"x":{},"x":{}} => x Twice
"#;

/// JSON objects whose unsupported member `x` is absent or `null`.
const NOT_THERE: [&str; 3] = ["{}", "{\"x\":null}", "{\"y\":{},\"y\":{}}"];

/// Returns the fault of the unsupported member `x` in the object of a text, if there is a fault.
fn fault_of_left_out(alloc: Global, text: &str) -> Result<Option<FieldFault>, Fail> {
    let tape = read_tape(alloc, text.as_bytes())?;
    let mut found = nothing_found::<1>();
    match find_rows(alloc, &tape.root(), &["x"], &PathBuilder::new(), &mut found) {
        Ok(()) => Ok(part_fault_of(left_out(alloc, &found[0], "x", &PathBuilder::new()))),
        Err(_) => Err("an object")?,
    }
}

#[test]
fn the_first_fault_of_labels_is_reported(rt: HostRuntime) -> Result<(), Fail> {
    expect_faults::<Labels, HostRuntime>(&rt, FAULTS)
}

/// Reads the value of a text, writes it and reads it back. Returns the tree of the result.
fn tree_again<T: Part>(alloc: Global, text: &str) -> Result<Json, Fail>
    requires { T.STEPS ≤ MAX_PATH_STEPS }
{
    let value: T = value_of(alloc, text)?;
    Ok(again(alloc, &value)?.tree(alloc)?)
}

fn expect_labels<R: Abort>(rt: &R, alloc: Global, text: &str, expected: &str) -> Result<(), Fail> {
    let tree = tree_again::<Labels>(alloc, text)?;
    expect_text(rt, alloc, &tree, expected)
}

#[test]
fn labels_are_read(rt: HostRuntime) -> Result<(), Fail> {
    for line in LABELS.lines() {
        let (text, expected) = row_of(line)?;
        expect_labels(&rt, rt.alloc(), text, expected)?;
    }
    Ok(())
}

/// Reads a list in either form; the object form has the array as the member `labels`.
fn read_either<T: Part>(alloc: Global, text: &str) -> Result<Result<List<T>, PartFault>, Fail>
    requires { 2 + T.STEPS ≤ MAX_PATH_STEPS }
{
    let tape = read_tape(alloc, text.as_bytes())?;
    Ok(read_either_list(alloc, &tape.root(), "labels", &PathBuilder::new()))
}

fn list_of<T: Part>(answer: Result<List<T>, PartFault>) -> Result<List<T>, Fail> {
    match answer {
        Ok(list) => Ok(list),
        Err(_) => Err("it is a list")?,
    }
}

fn tree_of<T: Part>(alloc: Global, list: List<T>) -> Result<Json, Fail> {
    Ok(list_tree(alloc, &list)?)
}

fn expect_either<R: Abort>(rt: &R, alloc: Global, text: &str, expected: &str) -> Result<(), Fail> {
    let list = list_of(read_either::<Label>(alloc, text)?)?;
    expect_text(rt, alloc, &tree_of(alloc, list)?, expected)
}

#[test]
fn lists_are_read_in_either_form(rt: HostRuntime) -> Result<(), Fail> {
    for line in EITHER.lines() {
        let (text, expected) = row_of(line)?;
        expect_either(&rt, rt.alloc(), text, expected)?;
    }
    for line in EITHER_FAULTS.lines() {
        let (text, fault) = row_of(line)?;
        let reported = part_fault_of(read_either::<Label>(rt.alloc(), text)?);
        expect_fault(&rt, text, reported, fault)?;
    }
    Ok(())
}

/// JSON arrays of labels, each with the canonical text.
const ARRAYS: &str = r#"[] => []
[{"key":"a"},{"value":"v","key":"b","x":1}] => [{"key":"a"},{"key":"b","value":"v"}]
"#;

/// JSON texts that are no array of labels, each with the first fault.
const NO_ARRAYS: &str = r#"{} => . WrongKind
null => . WrongKind
[{"key":"a"},null] => [1] WrongKind
[{"key":"a"},{"key":7}] => [1].key WrongKind
"#;

/// Reads a list from the JSON tree of a text.
fn read_array<T: Part>(alloc: Global, text: &str) -> Result<Result<List<T>, PartFault>, Fail>
    requires { 1 + T.STEPS ≤ MAX_PATH_STEPS }
{
    let tree = read_text(alloc, text.as_bytes())?;
    Ok(read_list(alloc, &tree, &Path::new()))
}

/// Converts a list to `Labels` and back. Returns the list and the number of labels.
fn through_labels(list: List<Label>) -> (List<Label>, usize) {
    let labels = Labels::new(list);
    let count = labels.as_slice().len();
    (labels.into_list(), count)
}

fn expect_array<R: Abort>(rt: &R, alloc: Global, text: &str, expected: &str) -> Result<(), Fail> {
    let (list, count) = through_labels(list_of(read_array(alloc, text)?)?);
    assert_eq!(rt; list.len(), count);
    expect_text(rt, alloc, &tree_of(alloc, list)?, expected)
}

#[test]
fn lists_are_read_from_trees(rt: HostRuntime) -> Result<(), Fail> {
    for line in ARRAYS.lines() {
        let (text, expected) = row_of(line)?;
        expect_array(&rt, rt.alloc(), text, expected)?;
    }
    for line in NO_ARRAYS.lines() {
        let (text, fault) = row_of(line)?;
        let reported = part_fault_of(read_array::<Label>(rt.alloc(), text)?);
        expect_fault(&rt, text, reported, fault)?;
    }
    Ok(())
}

#[test]
fn members_that_are_left_out_are_refused(rt: HostRuntime) -> Result<(), Fail> {
    for line in LEFT_OUT.lines() {
        let (text, fault) = row_of(line)?;
        expect_fault(&rt, text, fault_of_left_out(rt.alloc(), text)?, fault)?;
    }
    for &text in &NOT_THERE {
        assert!(rt; fault_of_left_out(rt.alloc(), text)?.is_none(), "{text}");
    }
    Ok(())
}
