//! Keys: resources are compared only if they agree in all but value and allocation.

use crate::support::expect_answers;
use std::test::Fail;

/// Each additional member makes another key, in an offer and in a task.
const MEMBERS: &str =
    r#"{"name":"cpus","type":"SCALAR","scalar":{"value":1.0},"role":"web"} -> {"name":"cpus","type":"SCALAR","scalar":{"value":1.0},"role":"web"} => fits
{"name":"cpus","type":"SCALAR","scalar":{"value":1.0},"role":"web"} -> {"name":"cpus","type":"SCALAR","scalar":{"value":1.0}} => 0 0
{"name":"cpus","type":"SCALAR","scalar":{"value":1.0}} -> {"name":"cpus","type":"SCALAR","scalar":{"value":1.0},"role":"web"} => 0 0
{"name":"cpus","type":"SCALAR","scalar":{"value":1.0},"reservation":{}} -> {"name":"cpus","type":"SCALAR","scalar":{"value":1.0},"reservation":{}} => fits
{"name":"cpus","type":"SCALAR","scalar":{"value":1.0},"reservation":{}} -> {"name":"cpus","type":"SCALAR","scalar":{"value":1.0}} => 0 0
{"name":"cpus","type":"SCALAR","scalar":{"value":1.0}} -> {"name":"cpus","type":"SCALAR","scalar":{"value":1.0},"reservation":{}} => 0 0
{"name":"cpus","type":"SCALAR","scalar":{"value":1.0},"reservation":{"principal":"p"}} -> {"name":"cpus","type":"SCALAR","scalar":{"value":1.0},"reservation":{"principal":"p"}} => fits
{"name":"cpus","type":"SCALAR","scalar":{"value":1.0},"reservation":{"principal":"p"}} -> {"name":"cpus","type":"SCALAR","scalar":{"value":1.0}} => 0 0
{"name":"cpus","type":"SCALAR","scalar":{"value":1.0}} -> {"name":"cpus","type":"SCALAR","scalar":{"value":1.0},"reservation":{"principal":"p"}} => 0 0
{"name":"cpus","type":"SCALAR","scalar":{"value":1.0},"reservations":[{"type":"DYNAMIC"}]} -> {"name":"cpus","type":"SCALAR","scalar":{"value":1.0},"reservations":[{"type":"DYNAMIC"}]} => fits
{"name":"cpus","type":"SCALAR","scalar":{"value":1.0},"reservations":[{"type":"DYNAMIC"}]} -> {"name":"cpus","type":"SCALAR","scalar":{"value":1.0}} => 0 0
{"name":"cpus","type":"SCALAR","scalar":{"value":1.0}} -> {"name":"cpus","type":"SCALAR","scalar":{"value":1.0},"reservations":[{"type":"DYNAMIC"}]} => 0 0
{"name":"cpus","type":"SCALAR","scalar":{"value":1.0},"reservations":[{"role":"web"}]} -> {"name":"cpus","type":"SCALAR","scalar":{"value":1.0},"reservations":[{"role":"web"}]} => fits
{"name":"cpus","type":"SCALAR","scalar":{"value":1.0},"reservations":[{"role":"web"}]} -> {"name":"cpus","type":"SCALAR","scalar":{"value":1.0}} => 0 0
{"name":"cpus","type":"SCALAR","scalar":{"value":1.0}} -> {"name":"cpus","type":"SCALAR","scalar":{"value":1.0},"reservations":[{"role":"web"}]} => 0 0
{"name":"cpus","type":"SCALAR","scalar":{"value":1.0},"reservations":[{"labels":{"labels":[{"key":"k"}]}}]} -> {"name":"cpus","type":"SCALAR","scalar":{"value":1.0},"reservations":[{"labels":{"labels":[{"key":"k"}]}}]} => fits
{"name":"cpus","type":"SCALAR","scalar":{"value":1.0},"reservations":[{"labels":{"labels":[{"key":"k"}]}}]} -> {"name":"cpus","type":"SCALAR","scalar":{"value":1.0}} => 0 0
{"name":"cpus","type":"SCALAR","scalar":{"value":1.0}} -> {"name":"cpus","type":"SCALAR","scalar":{"value":1.0},"reservations":[{"labels":{"labels":[{"key":"k"}]}}]} => 0 0
{"name":"cpus","type":"SCALAR","scalar":{"value":1.0},"disk":{}} -> {"name":"cpus","type":"SCALAR","scalar":{"value":1.0},"disk":{}} => fits
{"name":"cpus","type":"SCALAR","scalar":{"value":1.0},"disk":{}} -> {"name":"cpus","type":"SCALAR","scalar":{"value":1.0}} => 0 0
{"name":"cpus","type":"SCALAR","scalar":{"value":1.0}} -> {"name":"cpus","type":"SCALAR","scalar":{"value":1.0},"disk":{}} => 0 0
{"name":"cpus","type":"SCALAR","scalar":{"value":1.0},"disk":{"volume":{"mode":"RW"}}} -> {"name":"cpus","type":"SCALAR","scalar":{"value":1.0},"disk":{"volume":{"mode":"RW"}}} => fits
{"name":"cpus","type":"SCALAR","scalar":{"value":1.0},"disk":{"volume":{"mode":"RW"}}} -> {"name":"cpus","type":"SCALAR","scalar":{"value":1.0}} => 0 0
{"name":"cpus","type":"SCALAR","scalar":{"value":1.0}} -> {"name":"cpus","type":"SCALAR","scalar":{"value":1.0},"disk":{"volume":{"mode":"RW"}}} => 0 0
{"name":"cpus","type":"SCALAR","scalar":{"value":1.0},"revocable":{}} -> {"name":"cpus","type":"SCALAR","scalar":{"value":1.0},"revocable":{}} => fits
{"name":"cpus","type":"SCALAR","scalar":{"value":1.0},"revocable":{}} -> {"name":"cpus","type":"SCALAR","scalar":{"value":1.0}} => 0 0
{"name":"cpus","type":"SCALAR","scalar":{"value":1.0}} -> {"name":"cpus","type":"SCALAR","scalar":{"value":1.0},"revocable":{}} => 0 0
{"name":"cpus","type":"SCALAR","scalar":{"value":1.0},"shared":{}} -> {"name":"cpus","type":"SCALAR","scalar":{"value":1.0},"shared":{}} => fits
{"name":"cpus","type":"SCALAR","scalar":{"value":1.0},"shared":{}} -> {"name":"cpus","type":"SCALAR","scalar":{"value":1.0}} => 0 0
{"name":"cpus","type":"SCALAR","scalar":{"value":1.0}} -> {"name":"cpus","type":"SCALAR","scalar":{"value":1.0},"shared":{}} => 0 0
{"name":"cpus","type":"SCALAR","scalar":{"value":1.0},"provider_id":{"value":"P"}} -> {"name":"cpus","type":"SCALAR","scalar":{"value":1.0},"provider_id":{"value":"P"}} => fits
{"name":"cpus","type":"SCALAR","scalar":{"value":1.0},"provider_id":{"value":"P"}} -> {"name":"cpus","type":"SCALAR","scalar":{"value":1.0}} => 0 0
{"name":"cpus","type":"SCALAR","scalar":{"value":1.0}} -> {"name":"cpus","type":"SCALAR","scalar":{"value":1.0},"provider_id":{"value":"P"}} => 0 0
{"name":"cpus","type":"SCALAR","scalar":{"value":1.0},"role":"web"} -> {"name":"cpus","type":"SCALAR","scalar":{"value":1.0},"role":"db"} => 0 0
{"name":"cpus","type":"SCALAR","scalar":{"value":1.0},"provider_id":{"value":"P"}} -> {"name":"cpus","type":"SCALAR","scalar":{"value":1.0},"provider_id":{"value":"Q"}} => 0 0
{"name":"cpus","type":"SCALAR","scalar":{"value":1.0},"reservation":{"principal":"p"}} -> {"name":"cpus","type":"SCALAR","scalar":{"value":1.0},"reservation":{"principal":"q"}} => 0 0
{"name":"cpus","type":"SCALAR","scalar":{"value":1.0},"reservation":{"type":"DYNAMIC"}} -> {"name":"cpus","type":"SCALAR","scalar":{"value":1.0},"reservation":{"type":"STATIC"}} => 0 0
{"name":"cpus","type":"SCALAR","scalar":{"value":1.0},"reservation":{"role":"a"}} -> {"name":"cpus","type":"SCALAR","scalar":{"value":1.0},"reservation":{"role":"b"}} => 0 0
{"name":"cpus","type":"SCALAR","scalar":{"value":1.0},"reservation":{"labels":{}}} -> {"name":"cpus","type":"SCALAR","scalar":{"value":1.0},"reservation":{}} => 0 0
{"name":"cpus","type":"SCALAR","scalar":{"value":1.0},"reservation":{"labels":{"labels":[{"key":"k"}]}}} -> {"name":"cpus","type":"SCALAR","scalar":{"value":1.0},"reservation":{"labels":{"labels":[{"key":"l"}]}}} => 0 0
"#;

/// A resource without a role has the role `*`; the allocation is not part of the key.
const ROLES: &str =
    r#"{"name":"cpus","type":"SCALAR","scalar":{"value":1.0},"role":"*"} -> {"name":"cpus","type":"SCALAR","scalar":{"value":1.0}} => fits
{"name":"cpus","type":"SCALAR","scalar":{"value":1.0}} -> {"name":"cpus","type":"SCALAR","scalar":{"value":1.0},"role":"*"} => fits
{"name":"cpus","type":"SCALAR","scalar":{"value":0.5},"role":"*"},{"name":"cpus","type":"SCALAR","scalar":{"value":0.5}} -> {"name":"cpus","type":"SCALAR","scalar":{"value":0.3}},{"name":"cpus","type":"SCALAR","scalar":{"value":0.7},"role":"*"} => fits
{"name":"cpus","type":"SCALAR","scalar":{"value":1.0},"role":""} -> {"name":"cpus","type":"SCALAR","scalar":{"value":1.0}} => 0 0
{"name":"cpus","type":"SCALAR","scalar":{"value":1.0},"allocation_info":{"role":"web"}} -> {"name":"cpus","type":"SCALAR","scalar":{"value":1.0}} => fits
{"name":"cpus","type":"SCALAR","scalar":{"value":1.0}} -> {"name":"cpus","type":"SCALAR","scalar":{"value":1.0},"allocation_info":{"role":"web"}} => fits
{"name":"ports","type":"RANGES","ranges":{"range":[{"begin":1,"end":5}]},"allocation_info":{"role":"a"}} ; {"name":"ports","type":"RANGES","ranges":{"range":[{"begin":6,"end":9}]},"allocation_info":{"role":"b"}} -> {"name":"ports","type":"RANGES","ranges":{"range":[{"begin":4,"end":7}]},"allocation_info":{}} => fits
{"name":"ports","type":"RANGES","ranges":{"range":[{"begin":1,"end":9}]},"allocation_info":{"role":"a"}} -> {"name":"ports","type":"RANGES","ranges":{"range":[{"begin":4,"end":7}]}} ; {"name":"ports","type":"RANGES","ranges":{"range":[{"begin":7,"end":8}]},"allocation_info":{"role":"b"}} => 0 0
"#;

/// Resources of one name and two types have two keys.
const TYPES: &str =
    r#"{"name":"x","type":"SCALAR","scalar":{"value":1.0}} -> {"name":"x","type":"RANGES","ranges":{"range":[{"begin":1,"end":1}]}} => 0 0
{"name":"x","type":"RANGES","ranges":{"range":[{"begin":1,"end":9}]}} -> {"name":"x","type":"SCALAR","scalar":{"value":1.0}} => 0 0
{"name":"x","type":"RANGES","ranges":{"range":[{"begin":1,"end":9}]}} -> {"name":"x","type":"SET","set":{"item":["1"]}} => 0 0
{"name":"x","type":"SET","set":{"item":["1"]}},{"name":"x","type":"RANGES","ranges":{"range":[{"begin":1,"end":9}]}},{"name":"x","type":"SCALAR","scalar":{"value":1.0}} -> {"name":"x","type":"SCALAR","scalar":{"value":1.0}},{"name":"x","type":"RANGES","ranges":{"range":[{"begin":1,"end":1}]}},{"name":"x","type":"SET","set":{"item":["1"]}} => fits
{"name":"x","type":"SET","set":{"item":["1"]}},{"name":"x","type":"RANGES","ranges":{"range":[{"begin":1,"end":9}]}},{"name":"x","type":"SCALAR","scalar":{"value":1.0}} -> {"name":"x","type":"RANGES","ranges":{"range":[{"begin":1,"end":1}]}} ; {"name":"x","type":"SCALAR","scalar":{"value":1.001}},{"name":"x","type":"SET","set":{"item":["2"]}} => 1 0
"#;

/// Objects, labels and reservations are compared as they are written.
const TREES: &str =
    r#"{"name":"cpus","type":"SCALAR","scalar":{"value":1.0},"disk":{"volume":0.25}} -> {"name":"cpus","type":"SCALAR","scalar":{"value":1.0},"disk":{"volume":0.25}} => fits
{"name":"cpus","type":"SCALAR","scalar":{"value":1.0},"disk":{"volume":0.250}} -> {"name":"cpus","type":"SCALAR","scalar":{"value":1.0},"disk":{"volume":0.25}} => 0 0
{"name":"cpus","type":"SCALAR","scalar":{"value":1.0},"disk":{"a":1,"b":2}} -> {"name":"cpus","type":"SCALAR","scalar":{"value":1.0},"disk":{"b":2,"a":1}} => 0 0
{"name":"cpus","type":"SCALAR","scalar":{"value":1.0},"disk":{"a":[1,{"b":null}]}} -> {"name":"cpus","type":"SCALAR","scalar":{"value":1.0},"disk":{"a":[1,{"b":null}]}} => fits
{"name":"cpus","type":"SCALAR","scalar":{"value":1.0},"reservations":[{"labels":{"labels":[{"key":"k","value":"v"},{"key":"l"}]}}]} -> {"name":"cpus","type":"SCALAR","scalar":{"value":1.0},"reservations":[{"labels":{"labels":[{"key":"k","value":"v"},{"key":"l"}]}}]} => fits
{"name":"cpus","type":"SCALAR","scalar":{"value":1.0},"reservations":[{"labels":{"labels":[{"key":"k","value":"v"},{"key":"l"}]}}]} -> {"name":"cpus","type":"SCALAR","scalar":{"value":1.0},"reservations":[{"labels":{"labels":[{"key":"l"},{"key":"k","value":"v"}]}}]} => 0 0
{"name":"cpus","type":"SCALAR","scalar":{"value":1.0},"reservations":[{"labels":{"labels":[{"key":"k","value":"v"}]}}]} -> {"name":"cpus","type":"SCALAR","scalar":{"value":1.0},"reservations":[{"labels":{"labels":[{"key":"k"}]}}]} => 0 0
{"name":"cpus","type":"SCALAR","scalar":{"value":1.0},"reservations":[{"role":"a"},{"role":"b"}]} -> {"name":"cpus","type":"SCALAR","scalar":{"value":1.0},"reservations":[{"role":"a"},{"role":"b"}]} => fits
{"name":"cpus","type":"SCALAR","scalar":{"value":1.0},"reservations":[{"role":"a"},{"role":"b"}]} -> {"name":"cpus","type":"SCALAR","scalar":{"value":1.0},"reservations":[{"role":"b"},{"role":"a"}]} => 0 0
{"name":"cpus","type":"SCALAR","scalar":{"value":1.0},"reservations":[{"role":"a"},{"role":"b"}]} -> {"name":"cpus","type":"SCALAR","scalar":{"value":1.0},"reservations":[{"role":"a"}]} => 0 0
{"name":"cpus","type":"SCALAR","scalar":{"value":1.0},"revocable":{"x":1}} -> {"name":"cpus","type":"SCALAR","scalar":{"value":1.0},"revocable":{}} => fits
"#;

/// A shared resource counts for each task that names it. A point or an item is offered and taken
/// only under its own key.
const SHARED: &str =
    r#"{"name":"ports","type":"RANGES","ranges":{"range":[{"begin":1,"end":9}]},"shared":{}} -> {"name":"ports","type":"RANGES","ranges":{"range":[{"begin":5,"end":5}]},"shared":{}} ; {"name":"ports","type":"RANGES","ranges":{"range":[{"begin":5,"end":5}]},"shared":{}} => 0 0
{"name":"cpus","type":"SCALAR","scalar":{"value":1.0},"shared":{}} -> {"name":"cpus","type":"SCALAR","scalar":{"value":1.0},"shared":{}} ; {"name":"cpus","type":"SCALAR","scalar":{"value":1.0},"shared":{}} => 0 0
{"name":"ports","type":"RANGES","ranges":{"range":[{"begin":1,"end":9}]}},{"name":"ports","type":"RANGES","ranges":{"range":[{"begin":1,"end":9}]},"role":"web"} -> {"name":"ports","type":"RANGES","ranges":{"range":[{"begin":5,"end":5}]}} ; {"name":"ports","type":"RANGES","ranges":{"range":[{"begin":5,"end":5}]},"role":"web"} => fits
{"name":"ports","type":"RANGES","ranges":{"range":[{"begin":1,"end":9}]},"role":"web"} -> {"name":"ports","type":"RANGES","ranges":{"range":[{"begin":5,"end":5}]}} => 0 0
{"name":"disks","type":"SET","set":{"item":["a"]},"role":"web"} -> {"name":"disks","type":"SET","set":{"item":["a"]}} => 0 0
"#;

#[test]
fn each_member_belongs_to_the_key(rt: HostRuntime) -> Result<(), Fail> {
    expect_answers(&rt, MEMBERS)
}

#[test]
fn a_role_belongs_to_the_key_and_an_allocation_does_not(rt: HostRuntime) -> Result<(), Fail> {
    expect_answers(&rt, ROLES)
}

#[test]
fn the_type_belongs_to_the_key(rt: HostRuntime) -> Result<(), Fail> {
    expect_answers(&rt, TYPES)
}

#[test]
fn members_are_compared_whole(rt: HostRuntime) -> Result<(), Fail> {
    expect_answers(&rt, TREES)
}

#[test]
fn ranges_and_sets_have_keys(rt: HostRuntime) -> Result<(), Fail> {
    expect_answers(&rt, SHARED)
}
