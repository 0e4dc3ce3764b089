//! Tasks in slices, without operations: the result is that of all tasks in order.

use crate::support::expect_answers_of_slices;
use std::test::Fail;

/// Amounts, points and items of tasks in one slice, and in two.
const SLICES: &str =
    r#"{"name":"cpus","type":"SCALAR","scalar":{"value":1.0}},{"name":"ports","type":"RANGES","ranges":{"range":[{"begin":1,"end":9}]}} -> {"name":"cpus","type":"SCALAR","scalar":{"value":0.5}},{"name":"ports","type":"RANGES","ranges":{"range":[{"begin":1,"end":4}]}} ; {"name":"cpus","type":"SCALAR","scalar":{"value":0.5}},{"name":"ports","type":"RANGES","ranges":{"range":[{"begin":5,"end":9}]}} => fits
{"name":"cpus","type":"SCALAR","scalar":{"value":1.0}},{"name":"ports","type":"RANGES","ranges":{"range":[{"begin":1,"end":9}]}} -> {"name":"cpus","type":"SCALAR","scalar":{"value":0.5}},{"name":"ports","type":"RANGES","ranges":{"range":[{"begin":1,"end":4}]}} ; {"name":"cpus","type":"SCALAR","scalar":{"value":0.501}},{"name":"ports","type":"RANGES","ranges":{"range":[{"begin":5,"end":9}]}} => 0 0
{"name":"cpus","type":"SCALAR","scalar":{"value":1.0}},{"name":"ports","type":"RANGES","ranges":{"range":[{"begin":1,"end":9}]}} -> {"name":"cpus","type":"SCALAR","scalar":{"value":0.5}},{"name":"ports","type":"RANGES","ranges":{"range":[{"begin":1,"end":5}]}} ; {"name":"cpus","type":"SCALAR","scalar":{"value":0.5}},{"name":"ports","type":"RANGES","ranges":{"range":[{"begin":5,"end":9}]}} => 0 1
{"name":"cpus","type":"SCALAR","scalar":{"value":1.0}},{"name":"ports","type":"RANGES","ranges":{"range":[{"begin":1,"end":9}]}} -> {"name":"cpus","type":"SCALAR","scalar":{"value":0.5}},{"name":"ports","type":"RANGES","ranges":{"range":[{"begin":1,"end":4}]}} ; {"name":"cpus","type":"SCALAR","scalar":{"value":0.5}},{"name":"ports","type":"RANGES","ranges":{"range":[{"begin":5,"end":10}]}} => 1 1
{"name":"disks","type":"SET","set":{"item":["a","b"]}} -> {"name":"disks","type":"SET","set":{"item":["a"]}} ; {"name":"disks","type":"SET","set":{"item":["b"]}} ; {"name":"disks","type":"SET","set":{"item":["b"]}} => 1 0
{"name":"disks","type":"SET","set":{"item":["a","b"]}} -> {"name":"disks","type":"SET","set":{"item":["a"]}} ; {"name":"disks","type":"SET","set":{"item":["b"]}} ; {"name":"disks","type":"SET","set":{"item":["c"]}} => 2 0
{"name":"cpus","type":"SCALAR","scalar":{"value":1.0}} -> {"name":"cpus","type":"SCALAR","scalar":{"value":1.0}} => fits
 ->  ;  ; {"name":"cpus","type":"SCALAR","scalar":{"value":0.001}} => 2 0
"#;

#[test]
fn tasks_in_slices_count_in_their_order(rt: HostRuntime) -> Result<(), Fail> {
    expect_answers_of_slices(&rt, SLICES)
}
