//! Tests of values written as JSON texts.

use crate::support::{as_text, expect_text};
use mes_fixed::{Micros, Thousandths};
use mes_json::{Json, Text};
use mes_model_schema::{Kept, Label, Labels, List, Part, push_flag_tree, whole_object};
use std::alloc::Global;
use std::process::Abort;
use std::test::Fail;

fn text(alloc: Global, characters: &str) -> Result<Text, Fail> {
    Ok(Text::new(String::from_str(alloc, characters)?))
}

fn label(alloc: Global, key: &str, value: Option<&str>) -> Result<Label, Fail> {
    let value = match value {
        Some(value) => Some(text(alloc, value)?),
        None => None,
    };
    Ok(Label {
        key: text(alloc, key)?,
        value,
    })
}

/// Appends the text of a value. Returns the nesting depth that `write_json` returned, and the
/// nesting depth of the value's tree.
fn write_direct<T: Part>(alloc: Global, value: &T, out: &mut Vec<u8>) -> Result<(u64, u64), Fail> {
    let deep = value.write_json(alloc, out)?;
    Ok((deep, value.tree(alloc)?.depth()))
}

/// Checks the text that is appended after one byte, and that the nesting depth returned is that of
/// the tree.
fn expect_direct<R: Abort, T: Part>(
    rt: &R,
    alloc: Global,
    value: &T,
    expected: &str,
) -> Result<(), Fail> {
    let whole = [b"!".as_slice(), expected.as_bytes()].concat(alloc)?;
    let mut out = Vec::from_slice(alloc, b"!")?;
    let (deep, depth) = write_direct(alloc, value, &mut out)?;
    assert_eq!(rt;
        (deep, as_text(out.as_slice())),
        (depth, as_text(whole.as_slice()))
    );
    Ok(())
}

/// Checks the text of a value, written from its tree and without a tree, and the text of its copy.
fn expect_written<R: Abort, T: Part>(
    rt: &R,
    alloc: Global,
    value: T,
    expected: &str,
) -> Result<(), Fail> {
    expect_text(rt, alloc, &value.tree(alloc)?, expected)?;
    expect_direct(rt, alloc, &value, expected)?;
    expect_text(rt, alloc, &value.copy(alloc)?.tree(alloc)?, expected)
}

#[test]
fn leaves_are_written(rt: HostRuntime) -> Result<(), Fail> {
    let alloc = rt.alloc();
    expect_written(&rt, alloc, text(alloc, "a\"b")?, "\"a\\\"b\"")?;
    expect_written(&rt, alloc, true, "true")?;
    expect_written(&rt, alloc, false, "false")?;
    expect_written(&rt, alloc, u64::MAX, "18446744073709551615")?;
    expect_written(&rt, alloc, 0u64, "0")?;
    expect_written(&rt, alloc, i32::MIN, "-2147483648")?;
    expect_written(&rt, alloc, 7i32, "7")?;
    expect_written(&rt, alloc, Thousandths::of_units(1500).unwrap(), "1.5")?;
    expect_written(&rt, alloc, Micros::of_units(1).unwrap(), "0.000001")
}

fn put(members: &mut Vec<(Text, Json)>, name: Text, value: Json) -> Result<(), Fail> {
    Ok(members.push((name, value))?)
}

/// Returns a JSON object with two members of one name.
fn twice(alloc: Global) -> Result<Json, Fail> {
    let mut members = Vec::new(alloc);
    put(&mut members, text(alloc, "a")?, Json::Null)?;
    put(&mut members, text(alloc, "a")?, Json::Bool(true))?;
    Ok(Json::Map(members))
}

/// Returns the object of `twice` as a `Kept`.
fn kept(alloc: Global) -> Result<Kept, Fail> {
    match Kept::new(twice(alloc)?) {
        Ok(kept) => Ok(kept),
        Err(_) => Err("an object is one")?,
    }
}

fn expect_kept<R: Abort>(rt: &R, alloc: Global, kept: Kept, expected: &str) -> Result<(), Fail> {
    let answer = expect_text(rt, alloc, kept.get(), expected);
    drop(kept);
    answer
}

#[test]
fn objects_are_stored_whole(rt: HostRuntime) -> Result<(), Fail> {
    let alloc = rt.alloc();
    expect_written(&rt, alloc, kept(alloc)?, "{\"a\":null,\"a\":true}")?;
    expect_kept(&rt, alloc, kept(alloc)?, "{\"a\":null,\"a\":true}")?;
    assert!(rt; Kept::new(Json::List(Vec::new(alloc))).is_err());
    Ok(())
}

fn expect_label<R: Abort>(
    rt: &R,
    alloc: Global,
    key: &str,
    value: Option<&str>,
    expected: &str,
) -> Result<(), Fail> {
    expect_written(rt, alloc, label(alloc, key, value)?, expected)
}

fn two_labels(alloc: Global) -> Result<Labels, Fail> {
    let mut labels = Vec::new(alloc);
    labels.push(label(alloc, "a", None)?)?;
    labels.push(label(alloc, "b", Some("c"))?)?;
    Ok(Labels::new(List::new(labels)))
}

#[test]
fn labels_are_written(rt: HostRuntime) -> Result<(), Fail> {
    let alloc = rt.alloc();
    expect_label(&rt, alloc, "rack", None, r#"{"key":"rack"}"#)?;
    expect_label(
        &rt,
        alloc,
        "rack",
        Some("r1"),
        r#"{"key":"rack","value":"r1"}"#,
    )?;
    expect_label(&rt, alloc, "", Some(""), r#"{"key":"","value":""}"#)?;
    expect_written(
        &rt,
        alloc,
        two_labels(alloc)?,
        r#"{"labels":[{"key":"a"},{"key":"b","value":"c"}]}"#,
    )?;
    expect_written(&rt, alloc, Labels::new(List::new(Vec::new(alloc))), "{}")
}

#[test]
fn flags_are_written(rt: HostRuntime) -> Result<(), Fail> {
    let alloc = rt.alloc();
    let mut members = Vec::new(alloc);
    push_flag_tree(&mut members, alloc, "shared", false)?;
    push_flag_tree(&mut members, alloc, "revocable", true)?;
    expect_text(&rt, alloc, &whole_object(members), "{\"revocable\":{}}")
}
