//! The first resource that does not fit: in the order of the tasks over all operations, then of the
//! resources of a task.

use crate::support::expect_answers;
use std::test::Fail;

/// Rows in which several resources do not fit.
const FIRST: &str =
    r#"{"name":"cpus","type":"SCALAR","scalar":{"value":1.0}},{"name":"ports","type":"RANGES","ranges":{"range":[{"begin":1,"end":9}]}},{"name":"disks","type":"SET","set":{"item":["a"]}} -> {"name":"cpus","type":"SCALAR","scalar":{"value":2.0}},{"name":"ports","type":"RANGES","ranges":{"range":[{"begin":10,"end":10}]}},{"name":"disks","type":"SET","set":{"item":["b"]}} => 0 0
{"name":"cpus","type":"SCALAR","scalar":{"value":2.0}},{"name":"ports","type":"RANGES","ranges":{"range":[{"begin":1,"end":9}]}},{"name":"disks","type":"SET","set":{"item":["a"]}} -> {"name":"cpus","type":"SCALAR","scalar":{"value":2.0}},{"name":"ports","type":"RANGES","ranges":{"range":[{"begin":10,"end":10}]}},{"name":"disks","type":"SET","set":{"item":["b"]}} => 0 1
{"name":"cpus","type":"SCALAR","scalar":{"value":2.0}},{"name":"ports","type":"RANGES","ranges":{"range":[{"begin":1,"end":10}]}},{"name":"disks","type":"SET","set":{"item":["a"]}} -> {"name":"cpus","type":"SCALAR","scalar":{"value":2.0}},{"name":"ports","type":"RANGES","ranges":{"range":[{"begin":10,"end":10}]}},{"name":"disks","type":"SET","set":{"item":["b"]}} => 0 2
{"name":"cpus","type":"SCALAR","scalar":{"value":2.0}},{"name":"ports","type":"RANGES","ranges":{"range":[{"begin":1,"end":10}]}},{"name":"disks","type":"SET","set":{"item":["b"]}} -> {"name":"cpus","type":"SCALAR","scalar":{"value":2.0}},{"name":"ports","type":"RANGES","ranges":{"range":[{"begin":10,"end":10}]}},{"name":"disks","type":"SET","set":{"item":["b"]}} => fits
{"name":"ports","type":"RANGES","ranges":{"range":[{"begin":1,"end":9}]}} -> {"name":"ports","type":"RANGES","ranges":{"range":[{"begin":1,"end":1}]}},{"name":"ports","type":"RANGES","ranges":{"range":[{"begin":2,"end":2}]}} ; {"name":"ports","type":"RANGES","ranges":{"range":[{"begin":3,"end":3}]}},{"name":"ports","type":"RANGES","ranges":{"range":[{"begin":10,"end":10}]}} ; {"name":"ports","type":"RANGES","ranges":{"range":[{"begin":11,"end":11}]}} => 1 1
{"name":"ports","type":"RANGES","ranges":{"range":[{"begin":1,"end":9}]}} -> {"name":"ports","type":"RANGES","ranges":{"range":[{"begin":1,"end":1}]}} ; {"name":"ports","type":"RANGES","ranges":{"range":[{"begin":2,"end":2}]}} //  // {"name":"ports","type":"RANGES","ranges":{"range":[{"begin":3,"end":3}]}} ; {"name":"ports","type":"RANGES","ranges":{"range":[{"begin":4,"end":4}]}},{"name":"ports","type":"RANGES","ranges":{"range":[{"begin":0,"end":0}]}} => 4 1
{"name":"ports","type":"RANGES","ranges":{"range":[{"begin":1,"end":9}]}} -> {"name":"ports","type":"RANGES","ranges":{"range":[{"begin":1,"end":1}]}} ; {"name":"ports","type":"RANGES","ranges":{"range":[{"begin":2,"end":2}]}} // {"name":"ports","type":"RANGES","ranges":{"range":[{"begin":3,"end":3}]}} ; {"name":"ports","type":"RANGES","ranges":{"range":[{"begin":2,"end":2}]}} ; {"name":"ports","type":"RANGES","ranges":{"range":[{"begin":0,"end":0}]}} => 1 0
{"name":"cpus","type":"SCALAR","scalar":{"value":1.0}},{"name":"ports","type":"RANGES","ranges":{"range":[{"begin":1,"end":9}]}} -> {"name":"ports","type":"RANGES","ranges":{"range":[{"begin":1,"end":1}]}} ; {"name":"cpus","type":"SCALAR","scalar":{"value":0.5}},{"name":"ports","type":"RANGES","ranges":{"range":[{"begin":0,"end":0}]}} ; {"name":"cpus","type":"SCALAR","scalar":{"value":0.6}} => 1 0
"#;

#[test]
fn the_first_breach_by_tasks_and_resources_is_reported(rt: HostRuntime) -> Result<(), Fail> {
    expect_answers(&rt, FIRST)
}
