//! Values on a tape, read in place: each kind, and items and members in order, with nested values
//! skipped.
use mes_json::{Element, Items, Members, ValueKind, read_tape};
use std::process::Abort;
use std::test::Fail;

/// The content of a value: its kind in a word, and the text of a boolean, a number or a string.
type ShownValue = (&'static str, &'static str);

fn word_of(kind: ValueKind) -> &'static str {
    match kind {
        ValueKind::Null => "null",
        ValueKind::Bool => "truth",
        ValueKind::Number => "number",
        ValueKind::Text => "text",
        ValueKind::List => "list",
        ValueKind::Map => "map",
    }
}

/// Returns which of the six accessors return a value.
fn calls(element: &Element<'_>) -> [bool; 6] {
    [
        element.is_null(),
        element.as_bool().is_some(),
        element.as_number().is_some(),
        element.as_text().is_some(),
        element.items().is_some(),
        element.members().is_some(),
    ]
}

/// Returns which accessor must return a value, for the kind of value that `word` names.
fn call_of(word: &str) -> [bool; 6] {
    ["null", "truth", "number", "text", "list", "map"].map(|kind| kind == word)
}

/// Returns the text of a boolean, a number or a string, or an empty text for any other value.
fn given<'a>(element: &Element<'a>) -> &'a str {
    match element.as_bool() {
        Some(true) => "true",
        Some(false) => "false",
        None => element.as_number().or(element.as_text()).unwrap_or(""),
    }
}

/// Returns whether the value has the content `shown`.
fn shows(element: &Element<'_>, shown: &ShownValue) -> bool {
    let (word, text) = *shown;
    word_of(element.kind()) == word && calls(element) == call_of(word) && given(element) == text
}

fn expect_items<R: Abort>(rt: &R, mut items: Items<'_>, expected: &[ShownValue]) {
    for shown in expected {
        let item = items.next().expect(rt, "an item");
        assert!(rt; shows(&item, shown), "{shown:?}");
    }
    assert!(rt; items.next().is_none());
    assert!(rt; items.next().is_none());
}

fn expect_members<R: Abort>(rt: &R, mut members: Members<'_>, expected: &[(&str, ShownValue)]) {
    for (name, shown) in expected {
        let (found, value) = members.next().expect(rt, "a member");
        assert_eq!(rt; found, *name);
        assert!(rt; shows(&value, shown), "{name} {shown:?}");
    }
    assert!(rt; members.next().is_none());
    assert!(rt; members.next().is_none());
}

const NULL: ShownValue = ("null", "");

const FALSE: ShownValue = ("truth", "false");

const TRUE: ShownValue = ("truth", "true");

const ARRAY: ShownValue = ("list", "");

const OBJECT: ShownValue = ("map", "");

const ONE: ShownValue = ("number", "1");

const TWO: ShownValue = ("number", "2");

const NUMBER: ShownValue = ("number", "-1.50E+2");

const DIGIT: ShownValue = ("text", "1");

const WORD: ShownValue = ("text", "a\u{e9}\"");

const EMPTY: ShownValue = ("text", "");

#[test]
fn each_kind_of_value_is_shown_in_place(rt: HostRuntime) -> Result<(), Fail> {
    let text = br#"[null, false, true, -1.50E+2, "1", "a\u00e9\"", "", [], {}]"#;
    let tape = read_tape(rt.alloc(), text)?;
    let root = tape.root();
    assert!(rt; shows(&root, &ARRAY));
    let expected = [NULL, FALSE, TRUE, NUMBER, DIGIT, WORD, EMPTY, ARRAY, OBJECT];
    expect_items(&rt, root.items().expect(&rt, "items"), &expected);
    Ok(())
}

#[test]
fn items_pass_over_what_nests(rt: HostRuntime) -> Result<(), Fail> {
    let text = br#"[[1, [2, {"a": [1]}], []], {"b": {"c": [[]]}}, 1, [[[]]], 2]"#;
    let tape = read_tape(rt.alloc(), text)?;
    let mut items = tape.root().items().expect(&rt, "items");
    let first = items.next().expect(&rt, "the first");
    expect_items(
        &rt,
        first.items().expect(&rt, "its items"),
        &[ONE, ARRAY, ARRAY],
    );
    expect_items(&rt, items, &[OBJECT, ONE, ARRAY, TWO]);
    Ok(())
}

#[test]
fn members_come_in_order(rt: HostRuntime) -> Result<(), Fail> {
    let text = br#"{"a": {"b": [1], "c": {}}, "": "", "\u0061": [[null]], "b": null, "a": 2}"#;
    let tape = read_tape(rt.alloc(), text)?;
    let root = tape.root();
    let mut members = root.members().expect(&rt, "members");
    let (name, value) = members.next().expect(&rt, "the first");
    assert_eq!(rt; name, "a");
    expect_members(
        &rt,
        value.members().expect(&rt, "its members"),
        &[("b", ARRAY), ("c", OBJECT)],
    );
    let others = [("", EMPTY), ("a", ARRAY), ("b", NULL), ("a", TWO)];
    expect_members(&rt, members, &others);
    Ok(())
}

#[test]
fn an_empty_array_or_object_has_no_items(rt: HostRuntime) -> Result<(), Fail> {
    let tape = read_tape(rt.alloc(), b"[[], {}]")?;
    let mut items = tape.root().items().expect(&rt, "items");
    let array = items.next().expect(&rt, "an array");
    expect_items(&rt, array.items().expect(&rt, "its items"), &[]);
    let object = items.next().expect(&rt, "an object");
    expect_members(&rt, object.members().expect(&rt, "its members"), &[]);
    Ok(())
}

/// Texts of arrays, and their number of items, counted up to four.
const COUNTED: [(&[u8], usize); 4] = [
    (b"[]", 0),
    (b"[[]]", 1),
    (b"[{\"a\": [1, 2]}, [[3], 4], 5]", 3),
    (b"[1, 2, 3, 4, 5]", 4),
];

/// Returns the number of items counted up to four and up to zero, and whether a first item is left
/// afterwards.
fn counts(mut items: Items<'_>) -> (usize, usize, bool) {
    (items.count(4), items.count(0), items.next().is_some())
}

#[test]
fn items_are_counted_up_to_a_bound(rt: HostRuntime) -> Result<(), Fail> {
    for &(text, count) in &COUNTED {
        let tape = read_tape(rt.alloc(), text)?;
        let items = tape.root().items().expect(&rt, "items");
        assert_eq!(rt; counts(items), (count, 0, count > 0));
    }
    Ok(())
}
