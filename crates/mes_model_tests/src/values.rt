//! Tests of identifiers, of the values of resources and attributes, and of reservations.

use crate::support::{expect_faults, expect_values};
use mes_model::{Allocation, Id, Range, Ranges, Reservation, Scalar, Set, TextValue};
use std::test::Fail;

/// Invalid texts of a message with one required string, `value`.
const ONE_TEXT: &str = r#"[] => . WrongKind
null => . WrongKind
{} => value Missing
{"VALUE":"a"} => value Missing
{"value":null} => value Missing
{"value":1} => value WrongKind
{"value":"a","value":null} => value Twice
"#;

const ONE_TEXT_WRITTEN: &str = r#"{"value":"a"} => {"value":"a"}
{"x":1,"value":"","x":[]} => {"value":""}
"#;

const ALLOCATION: &str = r#""a" => . WrongKind
{"role":{}} => role WrongKind
{"role":null,"role":"a"} => role Twice
"#;

const ALLOCATION_WRITTEN: &str = r#"{} => {}
{"role":null} => {}
{"role":"a"} => {"role":"a"}
"#;

const RESERVATION: &str = r#"0 => . WrongKind
{"type":1} => type WrongKind
{"type":"a","type":"a"} => type Twice
{"role":[]} => role WrongKind
{"role":"a","role":"a"} => role Twice
{"principal":true} => principal WrongKind
{"principal":"a","principal":"a"} => principal Twice
{"labels":[]} => labels WrongKind
{"labels":{},"labels":{}} => labels Twice
{"labels":{"labels":[{"key":"a"},{}]}} => labels.labels[1].key Missing
{"role":1,"type":1} => type WrongKind
{"labels":1,"principal":1,"role":1} => role WrongKind
"#;

const RESERVATION_WRITTEN: &str = r#"{} => {}
{"labels":{"labels":[{"key":"k"}]},"principal":"p","role":"r","type":"DYNAMIC"} => {"type":"DYNAMIC","role":"r","principal":"p","labels":{"labels":[{"key":"k"}]}}
"#;

const SCALAR: &str = r#"1 => . WrongKind
{} => value Missing
{"value":null} => value Missing
{"value":"1"} => value WrongKind
{"value":1,"value":1} => value Twice
{"value":-1} => value NumberRange
{"value":1e999} => value NumberRange
{"value":1000000000000001} => value NumberRange
{"value":[],"value":[]} => value Twice
"#;

const SCALAR_WRITTEN: &str = r#"{"value":-0} => {"value":0.0}
{"value":1.0005} => {"value":1.001}
{"value":1e15} => {"value":1000000000000000.0}
"#;

const RANGE: &str = r#"[1,2] => . WrongKind
{"end":1} => begin Missing
{"begin":null,"end":1} => begin Missing
{"begin":"1","end":1} => begin WrongKind
{"begin":1,"end":1,"begin":1} => begin Twice
{"begin":-1,"end":1} => begin NumberRange
{"begin":0.5,"end":1} => begin NumberRange
{"begin":18446744073709551616,"end":1} => begin NumberRange
{"begin":1} => end Missing
{"begin":1,"end":null} => end Missing
{"begin":1,"end":{}} => end WrongKind
{"end":1,"begin":1,"end":1} => end Twice
{"begin":1,"end":-1} => end NumberRange
{"begin":1,"end":1e999} => end NumberRange
{"end":-1,"begin":-1} => begin NumberRange
"#;

const RANGE_WRITTEN: &str =
    r#"{"end":18446744073709551615,"begin":0} => {"begin":0,"end":18446744073709551615}
{"begin":31000,"end":1} => {"begin":31000,"end":1}
"#;

const RANGES: &str = r#"[] => . WrongKind
{"range":{}} => range WrongKind
{"range":[],"range":[]} => range Twice
{"range":[{"begin":1,"end":2},null]} => range[1] WrongKind
{"range":[{"begin":1}]} => range[0].end Missing
{"range":[{"begin":1,"end":2},{"end":[]},{}]} => range[1].begin Missing
"#;

const RANGES_WRITTEN: &str = r#"{} => {}
{"range":null} => {}
{"range":[{"begin":1,"end":2},{"end":4,"begin":3}]} => {"range":[{"begin":1,"end":2},{"begin":3,"end":4}]}
"#;

const SET: &str = r#"true => . WrongKind
{"item":"a"} => item WrongKind
{"item":[],"item":["a"]} => item Twice
{"item":[null]} => item[0] WrongKind
{"item":["a",1]} => item[1] WrongKind
"#;

const SET_WRITTEN: &str = r#"{"item":[]} => {}
{"item":["b","a","b"]} => {"item":["b","a","b"]}
"#;

#[test]
fn an_id_and_a_text_value_are_one_text(rt: HostRuntime) -> Result<(), Fail> {
    expect_faults::<Id, HostRuntime>(&rt, ONE_TEXT)?;
    expect_values::<Id, HostRuntime>(&rt, ONE_TEXT_WRITTEN)?;
    expect_faults::<TextValue, HostRuntime>(&rt, ONE_TEXT)?;
    expect_values::<TextValue, HostRuntime>(&rt, ONE_TEXT_WRITTEN)
}

#[test]
fn allocations_are_read_and_written(rt: HostRuntime) -> Result<(), Fail> {
    expect_faults::<Allocation, HostRuntime>(&rt, ALLOCATION)?;
    expect_values::<Allocation, HostRuntime>(&rt, ALLOCATION_WRITTEN)
}

#[test]
fn reservations_are_read_and_written(rt: HostRuntime) -> Result<(), Fail> {
    expect_faults::<Reservation, HostRuntime>(&rt, RESERVATION)?;
    expect_values::<Reservation, HostRuntime>(&rt, RESERVATION_WRITTEN)
}

#[test]
fn scalars_and_ranges_are_read_and_written(rt: HostRuntime) -> Result<(), Fail> {
    expect_faults::<Scalar, HostRuntime>(&rt, SCALAR)?;
    expect_values::<Scalar, HostRuntime>(&rt, SCALAR_WRITTEN)?;
    expect_faults::<Range, HostRuntime>(&rt, RANGE)?;
    expect_values::<Range, HostRuntime>(&rt, RANGE_WRITTEN)
}

#[test]
fn ranges_and_sets_are_lists(rt: HostRuntime) -> Result<(), Fail> {
    expect_faults::<Ranges, HostRuntime>(&rt, RANGES)?;
    expect_values::<Ranges, HostRuntime>(&rt, RANGES_WRITTEN)?;
    expect_faults::<Set, HostRuntime>(&rt, SET)?;
    expect_values::<Set, HostRuntime>(&rt, SET_WRITTEN)
}
