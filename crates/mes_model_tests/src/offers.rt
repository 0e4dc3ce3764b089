//! Tests of offers.

use crate::support::{expect_faults, expect_values};
use mes_model::Offer;
use std::test::Fail;

/// Invalid texts with a fault of a required member.
const REQUIRED: &str = r#"null => . WrongKind
{"framework_id":{"value":"f"},"agent_id":{"value":"a"},"hostname":"h"} => id Missing
{"id":null,"framework_id":{"value":"f"},"agent_id":{"value":"a"},"hostname":"h"} => id Missing
{"id":[],"framework_id":{"value":"f"},"agent_id":{"value":"a"},"hostname":"h"} => id WrongKind
{"id":{"value":"o"},"framework_id":{"value":"f"},"agent_id":{"value":"a"},"hostname":"h","id":{"value":"o"}} => id Twice
{"id":{"value":"o"},"agent_id":{"value":"a"},"hostname":"h"} => framework_id Missing
{"id":{"value":"o"},"framework_id":null,"agent_id":{"value":"a"},"hostname":"h"} => framework_id Missing
{"id":{"value":"o"},"framework_id":[],"agent_id":{"value":"a"},"hostname":"h"} => framework_id WrongKind
{"id":{"value":"o"},"framework_id":{"value":"f"},"agent_id":{"value":"a"},"hostname":"h","framework_id":{"value":"f"}} => framework_id Twice
{"id":{"value":"o"},"framework_id":{"value":"f"},"hostname":"h"} => agent_id Missing
{"id":{"value":"o"},"framework_id":{"value":"f"},"agent_id":null,"hostname":"h"} => agent_id Missing
{"id":{"value":"o"},"framework_id":{"value":"f"},"agent_id":[],"hostname":"h"} => agent_id WrongKind
{"id":{"value":"o"},"framework_id":{"value":"f"},"agent_id":{"value":"a"},"hostname":"h","agent_id":{"value":"a"}} => agent_id Twice
{"id":{"value":"o"},"framework_id":{"value":"f"},"agent_id":{"value":"a"}} => hostname Missing
{"id":{"value":"o"},"framework_id":{"value":"f"},"agent_id":{"value":"a"},"hostname":null} => hostname Missing
{"id":{"value":"o"},"framework_id":{"value":"f"},"agent_id":{"value":"a"},"hostname":[]} => hostname WrongKind
{"id":{"value":"o"},"framework_id":{"value":"f"},"agent_id":{"value":"a"},"hostname":"h","hostname":"h"} => hostname Twice
{"id":{},"framework_id":{"value":"f"},"agent_id":{"value":"a"},"hostname":"h"} => id.value Missing
{"id":{"value":"o"},"framework_id":{"value":1},"agent_id":{"value":"a"},"hostname":"h"} => framework_id.value WrongKind
{"id":{"value":"o"},"framework_id":{"value":"f"},"agent_id":{"value":"a","value":"a"},"hostname":"h"} => agent_id.value Twice
"#;

/// Invalid texts with a fault of another member.
const OTHERS: &str =
    r#"{"id":{"value":"o"},"framework_id":{"value":"f"},"agent_id":{"value":"a"},"hostname":"h","resources":{}} => resources WrongKind
{"id":{"value":"o"},"framework_id":{"value":"f"},"agent_id":{"value":"a"},"hostname":"h","resources":[],"resources":[]} => resources Twice
{"id":{"value":"o"},"framework_id":{"value":"f"},"agent_id":{"value":"a"},"hostname":"h","resources":[null]} => resources[0] WrongKind
{"id":{"value":"o"},"framework_id":{"value":"f"},"agent_id":{"value":"a"},"hostname":"h","attributes":{}} => attributes WrongKind
{"id":{"value":"o"},"framework_id":{"value":"f"},"agent_id":{"value":"a"},"hostname":"h","attributes":[],"attributes":[]} => attributes Twice
{"id":{"value":"o"},"framework_id":{"value":"f"},"agent_id":{"value":"a"},"hostname":"h","attributes":[null]} => attributes[0] WrongKind
{"id":{"value":"o"},"framework_id":{"value":"f"},"agent_id":{"value":"a"},"hostname":"h","executor_ids":{}} => executor_ids WrongKind
{"id":{"value":"o"},"framework_id":{"value":"f"},"agent_id":{"value":"a"},"hostname":"h","executor_ids":[],"executor_ids":[]} => executor_ids Twice
{"id":{"value":"o"},"framework_id":{"value":"f"},"agent_id":{"value":"a"},"hostname":"h","executor_ids":[null]} => executor_ids[0] WrongKind
{"id":{"value":"o"},"framework_id":{"value":"f"},"agent_id":{"value":"a"},"hostname":"h","allocation_info":[]} => allocation_info WrongKind
{"id":{"value":"o"},"framework_id":{"value":"f"},"agent_id":{"value":"a"},"hostname":"h","allocation_info":{},"allocation_info":null} => allocation_info Twice
{"id":{"value":"o"},"framework_id":{"value":"f"},"agent_id":{"value":"a"},"hostname":"h","resources":[{"name":"a","type":"SET","set":{},"reservations":[{"labels":{"labels":[{"key":"k","value":1}]}}]}]} => resources[0].reservations[0].labels.labels[0].value WrongKind
{"id":{"value":"o"},"framework_id":{"value":"f"},"agent_id":{"value":"a"},"hostname":"h","attributes":[{"name":"a","type":"SET","set":{}},{"name":"b","type":"RANGES","ranges":{"range":[{"begin":1}]}}]} => attributes[1].ranges.range[0].end Missing
{"id":{"value":"o"},"framework_id":{"value":"f"},"agent_id":{"value":"a"},"hostname":"h","executor_ids":[{"value":"e"},{"value":"e"},{}]} => executor_ids[2].value Missing
{"id":{"value":"o"},"framework_id":{"value":"f"},"agent_id":{"value":"a"},"hostname":"h","attributes":1,"resources":1} => resources WrongKind
{"id":{"value":"o"},"framework_id":{"value":"f"},"agent_id":{"value":"a"},"hostname":1,"allocation_info":1,"executor_ids":1} => hostname WrongKind
"#;

const WRITTEN: &str =
    r#"{"id":{"value":"o"},"framework_id":{"value":"f"},"agent_id":{"value":"a"},"hostname":"h","resources":[{"name":"cpus","type":"SCALAR","scalar":{"value":2.0}},{"name":"ports","type":"RANGES","ranges":{"range":[{"begin":31000,"end":32000}]}}],"attributes":[{"name":"rack","type":"TEXT","text":{"value":"r1"}}],"executor_ids":[{"value":"e"},{"value":"e"}],"allocation_info":{"role":"r"}} => {"id":{"value":"o"},"framework_id":{"value":"f"},"agent_id":{"value":"a"},"hostname":"h","resources":[{"name":"cpus","type":"SCALAR","scalar":{"value":2.0}},{"name":"ports","type":"RANGES","ranges":{"range":[{"begin":31000,"end":32000}]}}],"attributes":[{"name":"rack","type":"TEXT","text":{"value":"r1"}}],"executor_ids":[{"value":"e"},{"value":"e"}],"allocation_info":{"role":"r"}}
{"hostname":"h","url":1,"agent_id":{"value":"a"},"url":2,"executor_ids":null,"id":{"value":"o"},"resources":[],"attributes":null,"framework_id":{"value":"f"}} => {"id":{"value":"o"},"framework_id":{"value":"f"},"agent_id":{"value":"a"},"hostname":"h"}
"#;

#[test]
fn an_offer_has_its_required_rows(rt: HostRuntime) -> Result<(), Fail> {
    expect_faults::<Offer, HostRuntime>(&rt, REQUIRED)
}

#[test]
fn the_first_fault_of_an_offer_is_reported(rt: HostRuntime) -> Result<(), Fail> {
    expect_faults::<Offer, HostRuntime>(&rt, OTHERS)
}

#[test]
fn offers_are_written_in_the_order_of_their_table(rt: HostRuntime) -> Result<(), Fail> {
    expect_values::<Offer, HostRuntime>(&rt, WRITTEN)
}
