//! Ranges and sets: each point and each item is offered, and taken by only one task.

use crate::support::expect_answers;
use std::test::Fail;

/// Points that are offered by one range or by several.
const POINTS: &str =
    r#"{"name":"ports","type":"RANGES","ranges":{"range":[{"begin":31000,"end":32000}]}} -> {"name":"ports","type":"RANGES","ranges":{"range":[{"begin":31000,"end":31001}]}} ; {"name":"ports","type":"RANGES","ranges":{"range":[{"begin":31001,"end":31002}]}} => 0 0
{"name":"ports","type":"RANGES","ranges":{"range":[{"begin":31000,"end":32000}]}} -> {"name":"ports","type":"RANGES","ranges":{"range":[{"begin":31000,"end":31000}]}} ; {"name":"ports","type":"RANGES","ranges":{"range":[{"begin":31001,"end":31002}]}} => fits
{"name":"ports","type":"RANGES","ranges":{"range":[{"begin":1,"end":5},{"begin":6,"end":10}]}} -> {"name":"ports","type":"RANGES","ranges":{"range":[{"begin":1,"end":10}]}} => fits
{"name":"ports","type":"RANGES","ranges":{"range":[{"begin":6,"end":10},{"begin":1,"end":5}]}} -> {"name":"ports","type":"RANGES","ranges":{"range":[{"begin":1,"end":10}]}} => fits
{"name":"ports","type":"RANGES","ranges":{"range":[{"begin":1,"end":5},{"begin":7,"end":10}]}} -> {"name":"ports","type":"RANGES","ranges":{"range":[{"begin":1,"end":10}]}} => 0 0
{"name":"ports","type":"RANGES","ranges":{"range":[{"begin":1,"end":5}]}} ; {"name":"ports","type":"RANGES","ranges":{"range":[{"begin":6,"end":10}]}} -> {"name":"ports","type":"RANGES","ranges":{"range":[{"begin":3,"end":8}]}} => fits
{"name":"ports","type":"RANGES","ranges":{"range":[{"begin":1,"end":5}]}},{"name":"ports","type":"RANGES","ranges":{"range":[{"begin":6,"end":10}]}} -> {"name":"ports","type":"RANGES","ranges":{"range":[{"begin":3,"end":8}]}} => fits
{"name":"ports","type":"RANGES","ranges":{"range":[{"begin":1,"end":7}]}} ; {"name":"ports","type":"RANGES","ranges":{"range":[{"begin":4,"end":10}]}} -> {"name":"ports","type":"RANGES","ranges":{"range":[{"begin":1,"end":10}]}} => fits
{"name":"ports","type":"RANGES","ranges":{"range":[{"begin":1,"end":9}]}} -> {"name":"ports","type":"RANGES","ranges":{"range":[{"begin":1,"end":10}]}} => 0 0
{"name":"ports","type":"RANGES","ranges":{"range":[{"begin":2,"end":10}]}} -> {"name":"ports","type":"RANGES","ranges":{"range":[{"begin":1,"end":10}]}} => 0 0
{"name":"ports","type":"RANGES","ranges":{"range":[{"begin":1,"end":3},{"begin":5,"end":6},{"begin":2,"end":5},{"begin":7,"end":7}]}} -> {"name":"ports","type":"RANGES","ranges":{"range":[{"begin":7,"end":7},{"begin":1,"end":6}]}} => fits
{"name":"ports","type":"RANGES","ranges":{"range":[{"begin":1,"end":10}]}} -> {"name":"ports","type":"RANGES","ranges":{"range":[{"begin":1,"end":2},{"begin":9,"end":11}]}} => 0 0
"#;

/// A range whose end is less than its begin is empty.
const EMPTY: &str =
    r#" -> {"name":"ports","type":"RANGES","ranges":{"range":[{"begin":5,"end":4}]}} => fits
{"name":"ports","type":"RANGES","ranges":{"range":[{"begin":5,"end":4}]}} -> {"name":"ports","type":"RANGES","ranges":{"range":[{"begin":4,"end":5}]}} => 0 0
{"name":"ports","type":"RANGES","ranges":{"range":[{"begin":5,"end":4}]}} -> {"name":"ports","type":"RANGES","ranges":{"range":[{"begin":4,"end":4}]}} => 0 0
{"name":"ports","type":"RANGES","ranges":{"range":[{"begin":1,"end":10}]}} -> {"name":"ports","type":"RANGES","ranges":{"range":[{"begin":8,"end":3}]}} ; {"name":"ports","type":"RANGES","ranges":{"range":[{"begin":3,"end":8}]}} => fits
{"name":"ports","type":"RANGES","ranges":{"range":[{"begin":1,"end":10}]}} -> {"name":"ports","type":"RANGES","ranges":{"range":[{"begin":3,"end":8}]}} ; {"name":"ports","type":"RANGES","ranges":{"range":[{"begin":8,"end":3}]}} => fits
{"name":"ports","type":"RANGES","ranges":{"range":[{"begin":1,"end":10}]}} -> {"name":"ports","type":"RANGES","ranges":{"range":[]}} ; {"name":"ports","type":"RANGES","ranges":{"range":[{"begin":18446744073709551615,"end":0}]}} => fits
"#;

/// Ranges go from 0 to 2^64 - 1.
const ENDS: &str =
    r#"{"name":"ports","type":"RANGES","ranges":{"range":[{"begin":0,"end":18446744073709551615}]}} -> {"name":"ports","type":"RANGES","ranges":{"range":[{"begin":0,"end":18446744073709551615}]}} => fits
{"name":"ports","type":"RANGES","ranges":{"range":[{"begin":0,"end":18446744073709551614}]}} -> {"name":"ports","type":"RANGES","ranges":{"range":[{"begin":0,"end":18446744073709551615}]}} => 0 0
{"name":"ports","type":"RANGES","ranges":{"range":[{"begin":1,"end":18446744073709551615}]}} -> {"name":"ports","type":"RANGES","ranges":{"range":[{"begin":0,"end":18446744073709551615}]}} => 0 0
{"name":"ports","type":"RANGES","ranges":{"range":[{"begin":0,"end":9223372036854775807},{"begin":9223372036854775808,"end":18446744073709551615}]}} -> {"name":"ports","type":"RANGES","ranges":{"range":[{"begin":0,"end":18446744073709551615}]}} => fits
{"name":"ports","type":"RANGES","ranges":{"range":[{"begin":18446744073709551615,"end":18446744073709551615}]}} -> {"name":"ports","type":"RANGES","ranges":{"range":[{"begin":18446744073709551615,"end":18446744073709551615}]}} => fits
{"name":"ports","type":"RANGES","ranges":{"range":[{"begin":0,"end":18446744073709551615}]}} -> {"name":"ports","type":"RANGES","ranges":{"range":[{"begin":0,"end":18446744073709551614}]}} ; {"name":"ports","type":"RANGES","ranges":{"range":[{"begin":18446744073709551615,"end":18446744073709551615}]}} => fits
{"name":"ports","type":"RANGES","ranges":{"range":[{"begin":0,"end":18446744073709551615}]}} -> {"name":"ports","type":"RANGES","ranges":{"range":[{"begin":0,"end":18446744073709551615}]}} ; {"name":"ports","type":"RANGES","ranges":{"range":[{"begin":18446744073709551615,"end":18446744073709551615}]}} => 0 0
"#;

/// Two tasks may not take the same point: the first resource with that point is returned. Two
/// resources of one task may have the same point.
const SHARED: &str =
    r#"{"name":"ports","type":"RANGES","ranges":{"range":[{"begin":1,"end":10}]}} -> {"name":"ports","type":"RANGES","ranges":{"range":[{"begin":1,"end":5}]}},{"name":"ports","type":"RANGES","ranges":{"range":[{"begin":3,"end":7}]}} => fits
{"name":"ports","type":"RANGES","ranges":{"range":[{"begin":1,"end":10}]}} -> {"name":"ports","type":"RANGES","ranges":{"range":[{"begin":1,"end":5},{"begin":3,"end":7},{"begin":5,"end":5}]}} => fits
{"name":"ports","type":"RANGES","ranges":{"range":[{"begin":1,"end":10}]}} -> {"name":"ports","type":"RANGES","ranges":{"range":[{"begin":1,"end":3}]}},{"name":"ports","type":"RANGES","ranges":{"range":[{"begin":4,"end":5}]}} ; {"name":"ports","type":"RANGES","ranges":{"range":[{"begin":6,"end":7}]}},{"name":"ports","type":"RANGES","ranges":{"range":[{"begin":5,"end":6}]}} => 0 1
{"name":"ports","type":"RANGES","ranges":{"range":[{"begin":1,"end":10}]}} -> {"name":"ports","type":"RANGES","ranges":{"range":[{"begin":1,"end":3}]}} ; {"name":"ports","type":"RANGES","ranges":{"range":[{"begin":4,"end":5}]}} ; {"name":"ports","type":"RANGES","ranges":{"range":[{"begin":5,"end":6}]}} => 1 0
{"name":"ports","type":"RANGES","ranges":{"range":[{"begin":1,"end":10}]}} -> {"name":"ports","type":"RANGES","ranges":{"range":[{"begin":1,"end":3}]}} // {"name":"ports","type":"RANGES","ranges":{"range":[{"begin":4,"end":5}]}} ; {"name":"ports","type":"RANGES","ranges":{"range":[{"begin":3,"end":3}]}} => 0 0
{"name":"ports","type":"RANGES","ranges":{"range":[{"begin":1,"end":10}]}} ; {"name":"ports","type":"RANGES","ranges":{"range":[{"begin":1,"end":10}]}} -> {"name":"ports","type":"RANGES","ranges":{"range":[{"begin":1,"end":3}]}} ; {"name":"ports","type":"RANGES","ranges":{"range":[{"begin":3,"end":4}]}} => 0 0
{"name":"ports","type":"RANGES","ranges":{"range":[{"begin":1,"end":10}]}} -> {"name":"ports","type":"RANGES","ranges":{"range":[{"begin":1,"end":3}]}},{"name":"ports","type":"RANGES","ranges":{"range":[{"begin":11,"end":11}]}} ; {"name":"ports","type":"RANGES","ranges":{"range":[{"begin":3,"end":4}]}} => 0 0
{"name":"ports","type":"RANGES","ranges":{"range":[{"begin":1,"end":10}]}} -> {"name":"ports","type":"RANGES","ranges":{"range":[{"begin":1,"end":2}]}},{"name":"ports","type":"RANGES","ranges":{"range":[{"begin":11,"end":11}]}} ; {"name":"ports","type":"RANGES","ranges":{"range":[{"begin":3,"end":4}]}} ; {"name":"ports","type":"RANGES","ranges":{"range":[{"begin":4,"end":4}]}} => 0 1
"#;

/// Items of sets: each is offered, and only one task takes it.
const ITEMS: &str =
    r#"{"name":"disks","type":"SET","set":{"item":["a","b"]}} -> {"name":"disks","type":"SET","set":{"item":["a"]}} ; {"name":"disks","type":"SET","set":{"item":["b"]}} => fits
{"name":"disks","type":"SET","set":{"item":["a","b"]}} -> {"name":"disks","type":"SET","set":{"item":["a"]}} ; {"name":"disks","type":"SET","set":{"item":["a"]}} => 0 0
{"name":"disks","type":"SET","set":{"item":["a","b"]}} -> {"name":"disks","type":"SET","set":{"item":["c"]}} => 0 0
{"name":"disks","type":"SET","set":{"item":["a"]}},{"name":"disks","type":"SET","set":{"item":["b"]}} -> {"name":"disks","type":"SET","set":{"item":["b","a"]}} => fits
{"name":"disks","type":"SET","set":{"item":["a"]}} ; {"name":"disks","type":"SET","set":{"item":["b"]}} -> {"name":"disks","type":"SET","set":{"item":["b","a","b"]}} => fits
{"name":"disks","type":"SET","set":{"item":["a","a"]}} -> {"name":"disks","type":"SET","set":{"item":["a"]}} ; {"name":"disks","type":"SET","set":{"item":["a"]}} => 0 0
{"name":"disks","type":"SET","set":{"item":["ab"]}} -> {"name":"disks","type":"SET","set":{"item":["cd"]}} => 0 0
{"name":"disks","type":"SET","set":{"item":["ab"]}} -> {"name":"disks","type":"SET","set":{"item":["a"]}} => 0 0
{"name":"disks","type":"SET","set":{"item":[""]}} -> {"name":"disks","type":"SET","set":{"item":[""]}} => fits
 -> {"name":"disks","type":"SET","set":{"item":[""]}} => 0 0
 -> {"name":"disks","type":"SET","set":{"item":[]}} => fits
{"name":"disks","type":"SET","set":{"item":["x"]}} -> {"name":"disks","type":"SET","set":{"item":[]}},{"name":"disks","type":"SET","set":{"item":["x"]}} ; {"name":"disks","type":"SET","set":{"item":["y"]}} => 1 0
{"name":"disks","type":"SET","set":{"item":["\u00e9"]}} -> {"name":"disks","type":"SET","set":{"item":["\u00e9"]}} => fits
"#;

#[test]
fn each_point_is_offered(rt: HostRuntime) -> Result<(), Fail> {
    expect_answers(&rt, POINTS)
}

#[test]
fn empty_ranges_have_no_points(rt: HostRuntime) -> Result<(), Fail> {
    expect_answers(&rt, EMPTY)
}

#[test]
fn a_range_may_end_at_the_largest_number(rt: HostRuntime) -> Result<(), Fail> {
    expect_answers(&rt, ENDS)
}

#[test]
fn a_point_belongs_to_one_task(rt: HostRuntime) -> Result<(), Fail> {
    expect_answers(&rt, SHARED)
}

#[test]
fn an_item_belongs_to_one_task(rt: HostRuntime) -> Result<(), Fail> {
    expect_answers(&rt, ITEMS)
}
