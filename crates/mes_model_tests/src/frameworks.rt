//! Tests of frameworks, their capabilities, and filters on offers.

use crate::support::{expect_faults, expect_values};
use mes_model::{Capability, Filters, FrameworkInfo};
use std::test::Fail;

const CAPABILITY: &str = r#"null => . WrongKind
"A" => . WrongKind
{"type":1} => type WrongKind
{"type":{}} => type WrongKind
{"type":"A","type":"A"} => type Twice
{"type":null,"type":"A"} => type Twice
"#;

const CAPABILITY_WRITTEN: &str = r#"{} => {}
{"type":null} => {}
{"kind":1,"type":"MULTI_ROLE","kind":2} => {"type":"MULTI_ROLE"}
{"type":""} => {"type":""}
"#;

/// Invalid texts with a fault of a required member of a framework.
const REQUIRED: &str = r#"null => . WrongKind
[] => . WrongKind
{"name":"n"} => user Missing
{"user":null,"name":"n"} => user Missing
{"user":1,"name":"n"} => user WrongKind
{"user":"u","name":"n","user":"u"} => user Twice
{"user":"u"} => name Missing
{"user":"u","name":null} => name Missing
{"user":"u","name":{}} => name WrongKind
{"name":"n","user":"u","name":"n"} => name Twice
{} => user Missing
{"name":1,"user":1} => user WrongKind
{"id":1,"user":"u"} => name Missing
"#;

/// Invalid texts with a fault of a member from `id` to `checkpoint`.
const UP_TO_CHECKPOINT: &str = r#"{"user":"u","name":"n","id":"i"} => id WrongKind
{"user":"u","name":"n","id":[]} => id WrongKind
{"user":"u","name":"n","id":{}} => id.value Missing
{"user":"u","name":"n","id":{"value":null}} => id.value Missing
{"user":"u","name":"n","id":{"value":1}} => id.value WrongKind
{"user":"u","name":"n","id":{"value":"i","value":"i"}} => id.value Twice
{"user":"u","name":"n","id":{"value":"i"},"id":{"value":"i"}} => id Twice
{"id":null,"user":"u","name":"n","id":null} => id Twice
{"user":"u","name":"n","failover_timeout":"1"} => failover_timeout WrongKind
{"user":"u","name":"n","failover_timeout":true} => failover_timeout WrongKind
{"user":"u","name":"n","failover_timeout":{}} => failover_timeout WrongKind
{"user":"u","name":"n","failover_timeout":-1} => failover_timeout NumberRange
{"user":"u","name":"n","failover_timeout":1000000000001} => failover_timeout NumberRange
{"user":"u","name":"n","failover_timeout":1000000000000.000001} => failover_timeout NumberRange
{"user":"u","name":"n","failover_timeout":1e13} => failover_timeout NumberRange
{"user":"u","name":"n","failover_timeout":1e999} => failover_timeout NumberRange
{"user":"u","name":"n","failover_timeout":0.000000000000000000000000000000000000000000000000000000000000000} => failover_timeout NumberRange
{"user":"u","name":"n","failover_timeout":1,"failover_timeout":1} => failover_timeout Twice
{"failover_timeout":null,"user":"u","name":"n","failover_timeout":null} => failover_timeout Twice
{"user":"u","name":"n","checkpoint":"true"} => checkpoint WrongKind
{"user":"u","name":"n","checkpoint":1} => checkpoint WrongKind
{"user":"u","name":"n","checkpoint":{}} => checkpoint WrongKind
{"user":"u","name":"n","checkpoint":true,"checkpoint":true} => checkpoint Twice
{"checkpoint":null,"user":"u","name":"n","checkpoint":null} => checkpoint Twice
"#;

/// Invalid texts with a fault of a member from `roles` on.
const FROM_ROLES: &str = r#"{"user":"u","name":"n","roles":"r"} => roles WrongKind
{"user":"u","name":"n","roles":{}} => roles WrongKind
{"user":"u","name":"n","roles":[1]} => roles[0] WrongKind
{"user":"u","name":"n","roles":["r",null]} => roles[1] WrongKind
{"user":"u","name":"n","roles":["r","r",{},1]} => roles[2] WrongKind
{"user":"u","name":"n","roles":["r"],"roles":["r"]} => roles Twice
{"roles":null,"user":"u","name":"n","roles":null} => roles Twice
{"user":"u","name":"n","hostname":1} => hostname WrongKind
{"user":"u","name":"n","hostname":["h"]} => hostname WrongKind
{"user":"u","name":"n","hostname":"h","hostname":"h"} => hostname Twice
{"hostname":null,"user":"u","name":"n","hostname":null} => hostname Twice
{"user":"u","name":"n","principal":false} => principal WrongKind
{"user":"u","name":"n","principal":{}} => principal WrongKind
{"user":"u","name":"n","principal":"p","principal":"p"} => principal Twice
{"principal":null,"user":"u","name":"n","principal":null} => principal Twice
{"user":"u","name":"n","capabilities":{}} => capabilities WrongKind
{"user":"u","name":"n","capabilities":"A"} => capabilities WrongKind
{"user":"u","name":"n","capabilities":[null]} => capabilities[0] WrongKind
{"user":"u","name":"n","capabilities":["A"]} => capabilities[0] WrongKind
{"user":"u","name":"n","capabilities":[{},{"type":1}]} => capabilities[1].type WrongKind
{"user":"u","name":"n","capabilities":[{"type":"A","type":"B"}]} => capabilities[0].type Twice
{"user":"u","name":"n","capabilities":[],"capabilities":[]} => capabilities Twice
{"capabilities":null,"user":"u","name":"n","capabilities":null} => capabilities Twice
"#;

/// Invalid texts with two or more faults. The first one is reported.
const FIRST: &str = r#"{"capabilities":1,"principal":1,"user":"u","name":"n"} => principal WrongKind
{"principal":1,"hostname":1,"user":"u","name":"n"} => hostname WrongKind
{"hostname":1,"roles":1,"user":"u","name":"n"} => roles WrongKind
{"roles":1,"checkpoint":1,"user":"u","name":"n"} => checkpoint WrongKind
{"checkpoint":1,"failover_timeout":-1,"user":"u","name":"n"} => failover_timeout NumberRange
{"failover_timeout":-1,"id":1,"user":"u","name":"n"} => id WrongKind
{"id":1,"user":"u","name":1} => name WrongKind
{"capabilities":[{"type":1},1],"user":"u","name":"n"} => capabilities[0].type WrongKind
"#;

const FRAMEWORK_WRITTEN: &str =
    r#"{"capabilities":[{"type":"MULTI_ROLE"},{}],"principal":"p","hostname":"h","roles":["web","*",""],"checkpoint":false,"failover_timeout":604800.25,"id":{"value":"i"},"name":"n","user":"u"} => {"user":"u","name":"n","id":{"value":"i"},"failover_timeout":604800.25,"checkpoint":false,"roles":["web","*",""],"hostname":"h","principal":"p","capabilities":[{"type":"MULTI_ROLE"},{}]}
{"user":"u","name":"n","id":{"value":"i"},"failover_timeout":604800.25,"checkpoint":false,"roles":["web","*",""],"hostname":"h","principal":"p","capabilities":[{"type":"MULTI_ROLE"},{}]} => {"user":"u","name":"n","id":{"value":"i"},"failover_timeout":604800.25,"checkpoint":false,"roles":["web","*",""],"hostname":"h","principal":"p","capabilities":[{"type":"MULTI_ROLE"},{}]}
{"webui_url":1,"user":"u","name":"n","webui_url":2,"id":null,"failover_timeout":null,"checkpoint":null,"roles":null,"hostname":null,"principal":null,"capabilities":null} => {"user":"u","name":"n"}
{"user":"u","name":"n","roles":[],"capabilities":[],"checkpoint":true} => {"user":"u","name":"n","checkpoint":true}
{"user":"root","name":"n","hostname":"","principal":"","failover_timeout":0} => {"user":"root","name":"n","failover_timeout":0.0,"hostname":"","principal":""}
"#;

const FILTERS: &str = r#"null => . WrongKind
[] => . WrongKind
5 => . WrongKind
{"refuse_seconds":"5"} => refuse_seconds WrongKind
{"refuse_seconds":false} => refuse_seconds WrongKind
{"refuse_seconds":[]} => refuse_seconds WrongKind
{"refuse_seconds":-5} => refuse_seconds NumberRange
{"refuse_seconds":-0.0000001} => refuse_seconds NumberRange
{"refuse_seconds":1000000000000.0000005} => refuse_seconds NumberRange
{"refuse_seconds":1e999} => refuse_seconds NumberRange
{"refuse_seconds":0.000000000000000000000000000000000000000000000000000000000000000} => refuse_seconds NumberRange
{"refuse_seconds":5,"refuse_seconds":5} => refuse_seconds Twice
{"refuse_seconds":null,"refuse_seconds":5} => refuse_seconds Twice
"#;

/// Valid filters. Seconds are rounded to the nearest millionth, a half upwards.
const FILTERS_WRITTEN: &str = r#"{} => {}
{"refuse_seconds":null} => {}
{"refuse_seconds":5} => {"refuse_seconds":5.0}
{"seconds":1,"refuse_seconds":-0,"seconds":2} => {"refuse_seconds":0.0}
{"refuse_seconds":0.0000005} => {"refuse_seconds":0.000001}
{"refuse_seconds":0.00000049} => {"refuse_seconds":0.0}
{"refuse_seconds":1e12} => {"refuse_seconds":1000000000000.0}
{"refuse_seconds":1.25e-1} => {"refuse_seconds":0.125}
{"refuse_seconds":0.00000000000000000000000000000000000000000000000000000000000000} => {"refuse_seconds":0.0}
"#;

#[test]
fn capabilities_are_read_and_written(rt: HostRuntime) -> Result<(), Fail> {
    expect_faults::<Capability, HostRuntime>(&rt, CAPABILITY)?;
    expect_values::<Capability, HostRuntime>(&rt, CAPABILITY_WRITTEN)
}

#[test]
fn the_first_fault_of_a_framework_is_reported(rt: HostRuntime) -> Result<(), Fail> {
    expect_faults::<FrameworkInfo, HostRuntime>(&rt, REQUIRED)?;
    expect_faults::<FrameworkInfo, HostRuntime>(&rt, UP_TO_CHECKPOINT)?;
    expect_faults::<FrameworkInfo, HostRuntime>(&rt, FROM_ROLES)?;
    expect_faults::<FrameworkInfo, HostRuntime>(&rt, FIRST)
}

#[test]
fn frameworks_are_written_in_the_order_of_their_table(rt: HostRuntime) -> Result<(), Fail> {
    expect_values::<FrameworkInfo, HostRuntime>(&rt, FRAMEWORK_WRITTEN)
}

#[test]
fn filters_are_read_and_written(rt: HostRuntime) -> Result<(), Fail> {
    expect_faults::<Filters, HostRuntime>(&rt, FILTERS)?;
    expect_values::<Filters, HostRuntime>(&rt, FILTERS_WRITTEN)
}
