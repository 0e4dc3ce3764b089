//! Tests of resources and attributes.

use crate::support::{expect_faults, expect_values};
use mes_model::{Attribute, Resource};
use std::test::Fail;

/// Invalid texts with a fault of the member `name`, or with two faults. The first one is reported.
const NAMES: &str = r#"[] => . WrongKind
{"type":"SET","set":{}} => name Missing
{"name":null,"type":"SET","set":{}} => name Missing
{"name":7,"type":"SET","set":{}} => name WrongKind
{"name":"a","name":"b"} => name Twice
{"type":"LIST","name":7} => name WrongKind
{"name":"a","role":1,"type":"LIST"} => type UnknownName
{"name":"a","role":1} => type Missing
"#;

/// Invalid texts with a fault of the member `type`.
const TYPES: &str = r#"{"name":"a"} => type Missing
{"name":"a","type":null} => type Missing
{"name":"a","type":0} => type WrongKind
{"name":"a","type":"SET","type":"SET"} => type Twice
{"name":"a","type":"LIST"} => type UnknownName
{"name":"a","type":"set","set":{}} => type UnknownName
"#;

/// Invalid texts with a fault of the member that the type selects.
const VALUES: &str = r#"{"name":"a","type":"SCALAR","set":{}} => scalar Missing
{"name":"a","type":"SCALAR","scalar":null} => scalar Missing
{"name":"a","type":"SCALAR","scalar":1} => scalar WrongKind
{"name":"a","type":"SCALAR","scalar":{"value":1},"scalar":null} => scalar Twice
{"name":"a","type":"SCALAR","scalar":{"value":1e999}} => scalar.value NumberRange
{"name":"a","type":"RANGES","scalar":{"value":1}} => ranges Missing
{"name":"a","type":"RANGES","ranges":null} => ranges Missing
{"name":"a","type":"RANGES","ranges":[]} => ranges WrongKind
{"name":"a","type":"RANGES","ranges":{},"ranges":{}} => ranges Twice
{"name":"a","type":"RANGES","ranges":{"range":[{"begin":1,"end":-1}]}} => ranges.range[0].end NumberRange
{"name":"a","type":"SET","ranges":{}} => set Missing
{"name":"a","type":"SET","set":null} => set Missing
{"name":"a","type":"SET","set":["a"]} => set WrongKind
{"name":"a","type":"SET","set":{},"set":{}} => set Twice
{"name":"a","type":"SET","set":{"item":["a",{}]}} => set.item[1] WrongKind
"#;

/// Invalid texts with a fault of a member after the value in the table of a resource.
const ROWS: &str = r#"{"name":"a","type":"SET","set":{},"role":1} => role WrongKind
{"name":"a","type":"SET","set":{},"role":"a","role":"a"} => role Twice
{"name":"a","type":"SET","set":{},"allocation_info":"a"} => allocation_info WrongKind
{"name":"a","type":"SET","set":{},"allocation_info":{},"allocation_info":{}} => allocation_info Twice
{"name":"a","type":"SET","set":{},"allocation_info":{"role":1}} => allocation_info.role WrongKind
{"name":"a","type":"SET","set":{},"reservation":[]} => reservation WrongKind
{"name":"a","type":"SET","set":{},"reservation":{},"reservation":{}} => reservation Twice
{"name":"a","type":"SET","set":{},"reservations":{}} => reservations WrongKind
{"name":"a","type":"SET","set":{},"reservations":[],"reservations":[]} => reservations Twice
{"name":"a","type":"SET","set":{},"reservations":[null]} => reservations[0] WrongKind
{"name":"a","type":"SET","set":{},"reservations":[{},{"labels":{"labels":[{"key":"k"},{"key":1}]}}]} => reservations[1].labels.labels[1].key WrongKind
{"name":"a","type":"SET","set":{},"disk":[]} => disk WrongKind
{"name":"a","type":"SET","set":{},"disk":{},"disk":null} => disk Twice
{"name":"a","type":"SET","set":{},"revocable":true} => revocable WrongKind
{"name":"a","type":"SET","set":{},"revocable":{},"revocable":{}} => revocable Twice
{"name":"a","type":"SET","set":{},"shared":false} => shared WrongKind
{"name":"a","type":"SET","set":{},"shared":{},"shared":{}} => shared Twice
{"name":"a","type":"SET","set":{},"provider_id":"a"} => provider_id WrongKind
{"name":"a","type":"SET","set":{},"provider_id":{"value":"a"},"provider_id":null} => provider_id Twice
{"name":"a","type":"SET","set":{},"provider_id":{}} => provider_id.value Missing
{"name":"a","type":"SET","set":{},"shared":1,"revocable":1} => revocable WrongKind
{"name":"a","type":"SET","set":{},"provider_id":1,"shared":1,"disk":1} => disk WrongKind
{"name":"a","type":"SET","set":{},"reservations":1,"reservation":1,"role":1} => role WrongKind
"#;

/// Invalid texts with a fault of the text of an attribute.
const TEXTS: &str = r#"{"name":"a","type":"TEXT","set":{}} => text Missing
{"name":"a","type":"TEXT","text":null} => text Missing
{"name":"a","type":"TEXT","text":"a"} => text WrongKind
{"name":"a","type":"TEXT","text":{"value":"a"},"text":{"value":"a"}} => text Twice
{"name":"a","type":"TEXT","text":{"value":null}} => text.value Missing
"#;

/// A value of type `TEXT`, which is valid for an attribute and invalid for a resource.
const NO_TEXT: &str = r#"{"name":"a","type":"TEXT","text":{"value":"a"}} => type UnknownName
"#;

/// Valid values of both resources and attributes. Members of other types are ignored, even if they
/// are duplicates.
const BOTH_WRITTEN: &str =
    r#"{"scalar":{"value":1.5},"type":"SCALAR","name":"cpus"} => {"name":"cpus","type":"SCALAR","scalar":{"value":1.5}}
{"name":"ports","type":"RANGES","scalar":1,"scalar":[],"ranges":{"range":[{"begin":1,"end":2}]}} => {"name":"ports","type":"RANGES","ranges":{"range":[{"begin":1,"end":2}]}}
{"name":"","type":"SET","set":{},"ranges":null,"x":null,"x":0} => {"name":"","type":"SET","set":{}}
"#;

const RESOURCE_WRITTEN: &str =
    r#"{"name":"disk","type":"SCALAR","scalar":{"value":10},"role":"*","reservations":[{"type":"DYNAMIC","role":"web","principal":"p","labels":{"labels":[{"key":"k"}]}}],"disk":{"volume":0.10},"shared":{}} => {"name":"disk","type":"SCALAR","scalar":{"value":10.0},"role":"*","reservations":[{"type":"DYNAMIC","role":"web","principal":"p","labels":{"labels":[{"key":"k"}]}}],"disk":{"volume":0.10},"shared":{}}
{"name":"mem","type":"SET","set":{"item":["x"]},"role":"*","allocation_info":{"role":"a"},"reservation":{"principal":"p"},"reservations":[{"type":"STATIC","role":"r"},{}],"disk":{"source":{"type":"PATH","type":1}},"revocable":{"x":1},"shared":{},"provider_id":{"value":"i"}} => {"name":"mem","type":"SET","set":{"item":["x"]},"role":"*","allocation_info":{"role":"a"},"reservation":{"principal":"p"},"reservations":[{"type":"STATIC","role":"r"},{}],"disk":{"source":{"type":"PATH","type":1}},"revocable":{},"shared":{},"provider_id":{"value":"i"}}
{"name":"mem","type":"SET","set":{},"role":null,"allocation_info":null,"reservation":null,"reservations":null,"disk":null,"revocable":null,"shared":null,"provider_id":null} => {"name":"mem","type":"SET","set":{}}
"#;

const TEXT_WRITTEN: &str =
    r#"{"text":{"value":"r1"},"type":"TEXT","name":"rack"} => {"name":"rack","type":"TEXT","text":{"value":"r1"}}
"#;

#[test]
fn a_resource_has_the_value_of_its_type(rt: HostRuntime) -> Result<(), Fail> {
    expect_faults::<Resource, HostRuntime>(&rt, NAMES)?;
    expect_faults::<Resource, HostRuntime>(&rt, TYPES)?;
    expect_faults::<Resource, HostRuntime>(&rt, VALUES)?;
    expect_faults::<Resource, HostRuntime>(&rt, NO_TEXT)?;
    expect_values::<Resource, HostRuntime>(&rt, BOTH_WRITTEN)
}

#[test]
fn a_resource_has_the_rows_of_its_table(rt: HostRuntime) -> Result<(), Fail> {
    expect_faults::<Resource, HostRuntime>(&rt, ROWS)?;
    expect_values::<Resource, HostRuntime>(&rt, RESOURCE_WRITTEN)
}

#[test]
fn an_attribute_has_the_value_of_its_type(rt: HostRuntime) -> Result<(), Fail> {
    expect_faults::<Attribute, HostRuntime>(&rt, NAMES)?;
    expect_faults::<Attribute, HostRuntime>(&rt, TYPES)?;
    expect_faults::<Attribute, HostRuntime>(&rt, VALUES)?;
    expect_faults::<Attribute, HostRuntime>(&rt, TEXTS)?;
    expect_values::<Attribute, HostRuntime>(&rt, BOTH_WRITTEN)?;
    expect_values::<Attribute, HostRuntime>(&rt, TEXT_WRITTEN)
}
