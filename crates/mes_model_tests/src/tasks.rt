//! Tests of commands, tasks to launch, and tasks in a RECONCILE call.

use crate::support::{expect_faults, expect_values};
use mes_model::{Command, TaskInfo, TaskRef};
use std::test::Fail;

const COMMAND: &str = r#"null => . WrongKind
[] => . WrongKind
"a" => . WrongKind
{"value":1} => value WrongKind
{"value":["a"]} => value WrongKind
{"value":"a","value":"a"} => value Twice
{"value":null,"value":null} => value Twice
{"shell":"true"} => shell WrongKind
{"shell":0} => shell WrongKind
{"shell":{}} => shell WrongKind
{"shell":true,"shell":true} => shell Twice
{"shell":false,"shell":null} => shell Twice
{"arguments":"a"} => arguments WrongKind
{"arguments":{}} => arguments WrongKind
{"arguments":[],"arguments":[]} => arguments Twice
{"arguments":[1]} => arguments[0] WrongKind
{"arguments":["a",null]} => arguments[1] WrongKind
{"arguments":["a",[],1]} => arguments[1] WrongKind
{"shell":1,"value":1} => value WrongKind
{"arguments":1,"shell":1} => shell WrongKind
{"arguments":["a",true],"value":"a","value":1} => value Twice
"#;

const COMMAND_WRITTEN: &str = r#"{} => {}
{"value":null,"shell":null,"arguments":null} => {}
{"arguments":[]} => {}
{"arguments":["a","-c",""],"shell":false,"value":"/bin/a"} => {"value":"/bin/a","shell":false,"arguments":["a","-c",""]}
{"user":1,"value":"","user":2,"shell":true} => {"value":"","shell":true}
"#;

/// Invalid texts with a fault of a required member of a task.
const REQUIRED: &str = r#"null => . WrongKind
[] => . WrongKind
{"task_id":{"value":"t"},"agent_id":{"value":"a"}} => name Missing
{"name":null,"task_id":{"value":"t"},"agent_id":{"value":"a"}} => name Missing
{"name":1,"task_id":{"value":"t"},"agent_id":{"value":"a"}} => name WrongKind
{"name":"n","task_id":{"value":"t"},"agent_id":{"value":"a"},"name":"n"} => name Twice
{"name":"n","agent_id":{"value":"a"}} => task_id Missing
{"name":"n","task_id":null,"agent_id":{"value":"a"}} => task_id Missing
{"name":"n","task_id":"t","agent_id":{"value":"a"}} => task_id WrongKind
{"name":"n","task_id":{"value":"t"},"agent_id":{"value":"a"},"task_id":{"value":"t"}} => task_id Twice
{"name":"n","task_id":{},"agent_id":{"value":"a"}} => task_id.value Missing
{"name":"n","task_id":{"value":1},"agent_id":{"value":"a"}} => task_id.value WrongKind
{"name":"n","task_id":{"value":"t"}} => agent_id Missing
{"name":"n","task_id":{"value":"t"},"agent_id":null} => agent_id Missing
{"name":"n","task_id":{"value":"t"},"agent_id":[]} => agent_id WrongKind
{"name":"n","task_id":{"value":"t"},"agent_id":{"value":"a"},"agent_id":null} => agent_id Twice
{"name":"n","task_id":{"value":"t"},"agent_id":{"value":null}} => agent_id.value Missing
{"agent_id":1,"task_id":1} => name Missing
{"agent_id":1,"task_id":1,"name":"n"} => task_id WrongKind
"#;

/// Invalid texts with a fault of another member of a task.
const OTHERS: &str =
    r#"{"name":"n","task_id":{"value":"t"},"agent_id":{"value":"a"},"resources":{}} => resources WrongKind
{"name":"n","task_id":{"value":"t"},"agent_id":{"value":"a"},"resources":[],"resources":[]} => resources Twice
{"name":"n","task_id":{"value":"t"},"agent_id":{"value":"a"},"resources":[null]} => resources[0] WrongKind
{"name":"n","task_id":{"value":"t"},"agent_id":{"value":"a"},"resources":[{"name":"a","type":"SET","set":{}},{"name":"cpus","type":"SCALAR","scalar":{"value":-1}}]} => resources[1].scalar.value NumberRange
{"name":"n","task_id":{"value":"t"},"agent_id":{"value":"a"},"resources":[{"name":"a","type":"SET","set":{},"reservations":[{"labels":{"labels":[{"key":"k","value":1}]}}]}]} => resources[0].reservations[0].labels.labels[0].value WrongKind
{"name":"n","task_id":{"value":"t"},"agent_id":{"value":"a"},"command":"a"} => command WrongKind
{"name":"n","task_id":{"value":"t"},"agent_id":{"value":"a"},"command":[]} => command WrongKind
{"name":"n","task_id":{"value":"t"},"agent_id":{"value":"a"},"command":{},"command":{}} => command Twice
{"name":"n","task_id":{"value":"t"},"agent_id":{"value":"a"},"command":{"shell":1}} => command.shell WrongKind
{"name":"n","task_id":{"value":"t"},"agent_id":{"value":"a"},"command":{"arguments":["a","b",1]}} => command.arguments[2] WrongKind
{"name":"n","task_id":{"value":"t"},"agent_id":{"value":"a"},"command":{"value":"a","value":"a"}} => command.value Twice
{"name":"n","task_id":{"value":"t"},"agent_id":{"value":"a"},"executor":"e"} => executor WrongKind
{"name":"n","task_id":{"value":"t"},"agent_id":{"value":"a"},"executor":[]} => executor WrongKind
{"name":"n","task_id":{"value":"t"},"agent_id":{"value":"a"},"executor":true} => executor WrongKind
{"name":"n","task_id":{"value":"t"},"agent_id":{"value":"a"},"executor":{},"executor":null} => executor Twice
{"executor":1,"command":1,"resources":1,"name":"n","task_id":{"value":"t"},"agent_id":{"value":"a"}} => resources WrongKind
{"executor":1,"command":1,"name":"n","task_id":{"value":"t"},"agent_id":{"value":"a"}} => command WrongKind
{"executor":1,"name":"n","task_id":{"value":"t"},"agent_id":1} => agent_id WrongKind
"#;

const TASK_WRITTEN: &str =
    r#"{"executor":{"executor_id":{"value":"e"},"n":1.50,"n":[null]},"command":{"arguments":["a"],"value":"/bin/a","shell":false},"resources":[{"name":"cpus","type":"SCALAR","scalar":{"value":0.5}},{"name":"ports","type":"RANGES","ranges":{"range":[{"begin":1,"end":2}]}}],"agent_id":{"value":"a"},"task_id":{"value":"t"},"name":"n"} => {"name":"n","task_id":{"value":"t"},"agent_id":{"value":"a"},"resources":[{"name":"cpus","type":"SCALAR","scalar":{"value":0.5}},{"name":"ports","type":"RANGES","ranges":{"range":[{"begin":1,"end":2}]}}],"command":{"value":"/bin/a","shell":false,"arguments":["a"]},"executor":{"executor_id":{"value":"e"},"n":1.50,"n":[null]}}
{"name":"n","task_id":{"value":"t"},"agent_id":{"value":"a"},"command":{},"executor":{}} => {"name":"n","task_id":{"value":"t"},"agent_id":{"value":"a"},"command":{},"executor":{}}
{"data":1,"name":"n","task_id":{"value":"t"},"agent_id":{"value":"a"},"data":2,"resources":null,"command":null,"executor":null} => {"name":"n","task_id":{"value":"t"},"agent_id":{"value":"a"}}
{"name":"n","task_id":{"value":"t"},"agent_id":{"value":"a"},"resources":[]} => {"name":"n","task_id":{"value":"t"},"agent_id":{"value":"a"}}
"#;

const TASK_REF: &str = r#"null => . WrongKind
["t"] => . WrongKind
{} => task_id Missing
{"task_id":null} => task_id Missing
{"task_id":"t"} => task_id WrongKind
{"task_id":{"value":"t"},"task_id":{"value":"t"}} => task_id Twice
{"task_id":{}} => task_id.value Missing
{"task_id":{"value":"t"},"agent_id":"a"} => agent_id WrongKind
{"task_id":{"value":"t"},"agent_id":{"value":"a"},"agent_id":{"value":"a"}} => agent_id Twice
{"task_id":{"value":"t"},"agent_id":null,"agent_id":null} => agent_id Twice
{"task_id":{"value":"t"},"agent_id":{}} => agent_id.value Missing
{"task_id":{"value":"t"},"agent_id":{"value":[]}} => agent_id.value WrongKind
{"agent_id":1} => task_id Missing
{"agent_id":1,"task_id":1} => task_id WrongKind
"#;

const TASK_REF_WRITTEN: &str =
    r#"{"agent_id":{"value":"a"},"task_id":{"value":"t"}} => {"task_id":{"value":"t"},"agent_id":{"value":"a"}}
{"task_id":{"value":"t"}} => {"task_id":{"value":"t"}}
{"agent_id":null,"state":1,"task_id":{"value":"t"},"state":2} => {"task_id":{"value":"t"}}
"#;

#[test]
fn commands_are_read_and_written(rt: HostRuntime) -> Result<(), Fail> {
    expect_faults::<Command, HostRuntime>(&rt, COMMAND)?;
    expect_values::<Command, HostRuntime>(&rt, COMMAND_WRITTEN)
}

#[test]
fn tasks_are_read_and_written(rt: HostRuntime) -> Result<(), Fail> {
    expect_faults::<TaskInfo, HostRuntime>(&rt, REQUIRED)?;
    expect_faults::<TaskInfo, HostRuntime>(&rt, OTHERS)?;
    expect_values::<TaskInfo, HostRuntime>(&rt, TASK_WRITTEN)
}

#[test]
fn references_to_tasks_are_read_and_written(rt: HostRuntime) -> Result<(), Fail> {
    expect_faults::<TaskRef, HostRuntime>(&rt, TASK_REF)?;
    expect_values::<TaskRef, HostRuntime>(&rt, TASK_REF_WRITTEN)
}
