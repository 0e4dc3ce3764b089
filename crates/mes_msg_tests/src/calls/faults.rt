//! Tests of invalid calls, each with the path and the reason of its first fault.

use crate::record::expect_faults;
use mes_msg::Call;
use std::test::Fail;

/// Invalid calls with a fault of the member `type`, and JSON values that are no objects.
const TYPES: &str = r#"{"t\u0079pe":"REVIVE","type":"REVIVE"} => type Twice
null => . WrongKind
[] => . WrongKind
"REVIVE" => . WrongKind
{} => type Missing
{"type":null} => type Missing
{"framework_id":{"value":"F1"}} => type Missing
{"type":7} => type WrongKind
{"type":"REVIVE","type":"REVIVE"} => type Twice
{"type":"REVIVE","type":null} => type Twice
{"type":"RECONCILE_OPERATIONS","framework_id":{"value":"F1"}} => type LeftOut
{"type":"ACKNOWLEDGE_OPERATION_STATUS","framework_id":{"value":"F1"}} => type LeftOut
{"type":"REQUEST","framework_id":{"value":"F1"}} => type LeftOut
{"type":"ACCEPT_INVERSE_OFFERS","framework_id":{"value":"F1"}} => type LeftOut
{"type":"DECLINE_INVERSE_OFFERS","framework_id":{"value":"F1"}} => type LeftOut
{"type":"UPDATE_FRAMEWORK","framework_id":{"value":"F1"}} => type LeftOut
{"type":"UNKNOWN","framework_id":{"value":"F1"}} => type LeftOut
{"type":"HEARTBEAT","framework_id":{"value":"F1"}} => type LeftOut
{"type":"","framework_id":{"value":"F1"}} => type LeftOut
{"type":"revive","framework_id":{"value":"F1"}} => type LeftOut
{"type":"REVIVE ","framework_id":{"value":"F1"}} => type LeftOut
"#;

/// Invalid calls with a fault of `framework_id`, which is reported before a fault of the body.
const FRAMEWORKS: &str = r#"{"type":"TEARDOWN"} => framework_id Missing
{"type":"TEARDOWN","framework_id":null} => framework_id Missing
{"type":"TEARDOWN","framework_id":"F1"} => framework_id WrongKind
{"type":"TEARDOWN","framework_id":{}} => framework_id.value Missing
{"type":"TEARDOWN","framework_id":{"value":"F1"},"framework_id":{"value":"F1"}} => framework_id Twice
{"type":"TEARDOWN","framework_id":null,"framework_id":{"value":"F1"}} => framework_id Twice
{"type":"REVIVE"} => framework_id Missing
{"type":"REVIVE","revive":{}} => framework_id Missing
{"type":"ACCEPT","accept":7} => framework_id Missing
{"type":"DECLINE","decline":{}} => framework_id Missing
{"type":"KILL","kill":{}} => framework_id Missing
{"type":"ACKNOWLEDGE","acknowledge":{}} => framework_id Missing
{"type":"RECONCILE","reconcile":{}} => framework_id Missing
{"type":"SUPPRESS"} => framework_id Missing
{"type":"SUPPRESS","framework_id":7,"suppress":{}} => framework_id WrongKind
{"type":"SHUTDOWN","shutdown":{}} => framework_id Missing
{"type":"MESSAGE","message":{}} => framework_id Missing
{"type":"RECONCILE","reconcile":7,"framework_id":{"value":7}} => framework_id.value WrongKind
{"type":"SUBSCRIBE","framework_id":7} => framework_id WrongKind
{"type":"SUBSCRIBE","subscribe":7,"framework_id":{}} => framework_id.value Missing
{"type":"SUBSCRIBE","framework_id":{"value":"F1"},"framework_id":{"value":"F1"}} => framework_id Twice
"#;

const SUBSCRIBE: &str = r#"{"type":"SUBSCRIBE"} => subscribe Missing
{"type":"SUBSCRIBE","subscribe":null} => subscribe Missing
{"type":"SUBSCRIBE","framework_id":{"value":"F1"},"subscribe":[]} => subscribe WrongKind
{"type":"SUBSCRIBE","subscribe":{},"subscribe":{}} => subscribe Twice
{"type":"SUBSCRIBE","subscribe":{}} => subscribe.framework_info Missing
{"type":"SUBSCRIBE","subscribe":{"framework_info":"n"}} => subscribe.framework_info WrongKind
{"type":"SUBSCRIBE","subscribe":{"framework_info":{"name":"n"}}} => subscribe.framework_info.user Missing
{"type":"SUBSCRIBE","subscribe":{"framework_info":{"user":"root"}}} => subscribe.framework_info.name Missing
{"type":"SUBSCRIBE","subscribe":{"framework_info":{"user":"root","name":"n","capabilities":[{"type":7}]}}} => subscribe.framework_info.capabilities[0].type WrongKind
"#;

const ACCEPT: &str = r#"{"type":"ACCEPT","framework_id":{"value":"F1"}} => accept Missing
{"type":"ACCEPT","framework_id":{"value":"F1"},"accept":null} => accept Missing
{"type":"ACCEPT","framework_id":{"value":"F1"},"accept":[]} => accept WrongKind
{"type":"ACCEPT","framework_id":{"value":"F1"},"accept":{},"accept":{}} => accept Twice
{"type":"ACCEPT","framework_id":{"value":"F1"},"accept":{"offer_ids":{"value":"O1"}}} => accept.offer_ids WrongKind
{"type":"ACCEPT","framework_id":{"value":"F1"},"accept":{"offer_ids":[null]}} => accept.offer_ids[0] WrongKind
{"type":"ACCEPT","framework_id":{"value":"F1"},"accept":{"offer_ids":[{"value":"O1"},{}]}} => accept.offer_ids[1].value Missing
{"type":"ACCEPT","framework_id":{"value":"F1"},"accept":{"offer_ids":[],"offer_ids":[]}} => accept.offer_ids Twice
{"type":"ACCEPT","framework_id":{"value":"F1"},"accept":{"operations":{}}} => accept.operations WrongKind
{"type":"ACCEPT","framework_id":{"value":"F1"},"accept":{"operations":[{}]}} => accept.operations[0].type Missing
{"type":"ACCEPT","framework_id":{"value":"F1"},"accept":{"operations":[{"type":"RESERVE","reserve":{}}]}} => accept.operations[0].type LeftOut
{"type":"ACCEPT","framework_id":{"value":"F1"},"accept":{"operations":[{"type":"LAUNCH_GROUP"}]}} => accept.operations[0].type LeftOut
{"type":"ACCEPT","framework_id":{"value":"F1"},"accept":{"operations":[{"type":"launch","launch":{}}]}} => accept.operations[0].type LeftOut
{"type":"ACCEPT","framework_id":{"value":"F1"},"accept":{"operations":[{"type":"LAUNCH","launch":{}},{"type":"CREATE"}]}} => accept.operations[1].type LeftOut
{"type":"ACCEPT","framework_id":{"value":"F1"},"accept":{"operations":[{"type":"LAUNCH"}]}} => accept.operations[0].launch Missing
{"type":"ACCEPT","framework_id":{"value":"F1"},"accept":{"operations":[{"type":"LAUNCH","launch":[]}]}} => accept.operations[0].launch WrongKind
{"type":"ACCEPT","framework_id":{"value":"F1"},"accept":{"operations":[{"type":"LAUNCH","launch":{"task_infos":{}}}]}} => accept.operations[0].launch.task_infos WrongKind
{"type":"ACCEPT","framework_id":{"value":"F1"},"accept":{"operations":[{"type":"LAUNCH","launch":{"task_infos":[{}]}}]}} => accept.operations[0].launch.task_infos[0].name Missing
{"type":"ACCEPT","framework_id":{"value":"F1"},"accept":{"operations":[{"type":"LAUNCH","launch":{"task_infos":[{"name":"t","task_id":{"value":"T1"},"agent_id":{"value":"A1"}},{"name":"t"}]}}]}} => accept.operations[0].launch.task_infos[1].task_id Missing
{"type":"ACCEPT","framework_id":{"value":"F1"},"accept":{"operations":[{"type":"LAUNCH","launch":{"task_infos":[{"name":"t","task_id":{"value":"T1"},"agent_id":{"value":"A1"},"resources":[{"name":"disk","type":"SCALAR","scalar":{"value":1},"reservations":[{"labels":{"labels":[{}]}}]}]}]}}]}} => accept.operations[0].launch.task_infos[0].resources[0].reservations[0].labels.labels[0].key Missing
{"type":"ACCEPT","framework_id":{"value":"F1"},"accept":{"operations":[{"type":"LAUNCH","launch":{"task_infos":[{"name":"t","task_id":{"value":"T1"},"agent_id":{"value":"A1"},"command":{"shell":1}}]}}]}} => accept.operations[0].launch.task_infos[0].command.shell WrongKind
{"type":"ACCEPT","framework_id":{"value":"F1"},"accept":{"filters":[]}} => accept.filters WrongKind
{"type":"ACCEPT","framework_id":{"value":"F1"},"accept":{"filters":{"refuse_seconds":"5"}}} => accept.filters.refuse_seconds WrongKind
{"type":"ACCEPT","framework_id":{"value":"F1"},"accept":{"filters":7,"operations":7,"offer_ids":7}} => accept.offer_ids WrongKind
{"type":"ACCEPT","framework_id":{"value":"F1"},"accept":{"filters":7,"operations":7}} => accept.operations WrongKind
"#;

const DECLINE: &str = r#"{"type":"DECLINE","framework_id":{"value":"F1"}} => decline Missing
{"type":"DECLINE","framework_id":{"value":"F1"},"decline":"O1"} => decline WrongKind
{"type":"DECLINE","framework_id":{"value":"F1"},"decline":{"offer_ids":[{"value":1}]}} => decline.offer_ids[0].value WrongKind
{"type":"DECLINE","framework_id":{"value":"F1"},"decline":{"filters":{"refuse_seconds":-1}}} => decline.filters.refuse_seconds NumberRange
{"type":"DECLINE","framework_id":{"value":"F1"},"decline":{"filters":7,"offer_ids":7}} => decline.offer_ids WrongKind
"#;

const REVIVE: &str =
    r#"{"type":"REVIVE","framework_id":{"value":"F1"},"revive":{}} => revive LeftOut
{"type":"REVIVE","framework_id":{"value":"F1"},"revive":{"roles":["a"]}} => revive LeftOut
{"type":"REVIVE","framework_id":{"value":"F1"},"revive":[]} => revive LeftOut
{"type":"REVIVE","framework_id":{"value":"F1"},"revive":false} => revive LeftOut
{"type":"REVIVE","framework_id":{"value":"F1"},"revive":0} => revive LeftOut
{"type":"REVIVE","framework_id":{"value":"F1"},"revive":""} => revive LeftOut
{"type":"REVIVE","framework_id":{"value":"F1"},"revive":null,"revive":null} => revive Twice
"#;

const KILL: &str = r#"{"type":"KILL","framework_id":{"value":"F1"}} => kill Missing
{"type":"KILL","framework_id":{"value":"F1"},"kill":[]} => kill WrongKind
{"type":"KILL","framework_id":{"value":"F1"},"kill":{}} => kill.task_id Missing
{"type":"KILL","framework_id":{"value":"F1"},"kill":{"task_id":{}}} => kill.task_id.value Missing
{"type":"KILL","framework_id":{"value":"F1"},"kill":{"task_id":{"value":"T1"},"agent_id":"A1"}} => kill.agent_id WrongKind
{"type":"KILL","framework_id":{"value":"F1"},"kill":{"agent_id":7}} => kill.task_id Missing
"#;

const ACKNOWLEDGE: &str =
    r#"{"type":"ACKNOWLEDGE","framework_id":{"value":"F1"}} => acknowledge Missing
{"type":"ACKNOWLEDGE","framework_id":{"value":"F1"},"acknowledge":"AA=="} => acknowledge WrongKind
{"type":"ACKNOWLEDGE","framework_id":{"value":"F1"},"acknowledge":{}} => acknowledge.agent_id Missing
{"type":"ACKNOWLEDGE","framework_id":{"value":"F1"},"acknowledge":{"task_id":{"value":"T1"},"uuid":"AA=="}} => acknowledge.agent_id Missing
{"type":"ACKNOWLEDGE","framework_id":{"value":"F1"},"acknowledge":{"agent_id":{"value":"A1"},"uuid":7}} => acknowledge.task_id Missing
{"type":"ACKNOWLEDGE","framework_id":{"value":"F1"},"acknowledge":{"agent_id":{"value":"A1"},"task_id":{"value":"T1"}}} => acknowledge.uuid Missing
{"type":"ACKNOWLEDGE","framework_id":{"value":"F1"},"acknowledge":{"agent_id":{"value":"A1"},"task_id":{"value":"T1"},"uuid":null}} => acknowledge.uuid Missing
{"type":"ACKNOWLEDGE","framework_id":{"value":"F1"},"acknowledge":{"agent_id":{"value":"A1"},"task_id":{"value":"T1"},"data":"AA=="}} => acknowledge.uuid Missing
{"type":"ACKNOWLEDGE","framework_id":{"value":"F1"},"acknowledge":{"agent_id":{"value":"A1"},"task_id":{"value":"T1"},"uuid":7}} => acknowledge.uuid WrongKind
{"type":"ACKNOWLEDGE","framework_id":{"value":"F1"},"acknowledge":{"agent_id":{"value":"A1"},"task_id":{"value":"T1"},"uuid":"AA"}} => acknowledge.uuid BadBase64
{"type":"ACKNOWLEDGE","framework_id":{"value":"F1"},"acknowledge":{"agent_id":{"value":"A1"},"task_id":{"value":"T1"},"uuid":"AA==","uuid":"AA=="}} => acknowledge.uuid Twice
"#;

const RECONCILE: &str = r#"{"type":"RECONCILE","framework_id":{"value":"F1"}} => reconcile Missing
{"type":"RECONCILE","framework_id":{"value":"F1"},"reconcile":null} => reconcile Missing
{"type":"RECONCILE","framework_id":{"value":"F1"},"reconcile":[]} => reconcile WrongKind
{"type":"RECONCILE","framework_id":{"value":"F1"},"reconcile":{"tasks":{}}} => reconcile.tasks WrongKind
{"type":"RECONCILE","framework_id":{"value":"F1"},"reconcile":{"tasks":[null]}} => reconcile.tasks[0] WrongKind
{"type":"RECONCILE","framework_id":{"value":"F1"},"reconcile":{"tasks":[{"task_id":{"value":"T1"}},{"agent_id":{"value":"A1"}}]}} => reconcile.tasks[1].task_id Missing
{"type":"RECONCILE","framework_id":{"value":"F1"},"reconcile":{"tasks":[{"task_id":{"value":"T1"},"agent_id":7}]}} => reconcile.tasks[0].agent_id WrongKind
"#;

const SUPPRESS: &str =
    r#"{"type":"SUPPRESS","framework_id":{"value":"F1"},"suppress":{}} => suppress LeftOut
{"type":"SUPPRESS","framework_id":{"value":"F1"},"suppress":{"roles":["a"]}} => suppress LeftOut
{"type":"SUPPRESS","framework_id":{"value":"F1"},"suppress":false} => suppress LeftOut
{"type":"SUPPRESS","framework_id":{"value":"F1"},"suppress":null,"suppress":null} => suppress Twice
"#;

const SHUTDOWN: &str = r#"{"type":"SHUTDOWN","framework_id":{"value":"F1"}} => shutdown Missing
{"type":"SHUTDOWN","framework_id":{"value":"F1"},"shutdown":[]} => shutdown WrongKind
{"type":"SHUTDOWN","framework_id":{"value":"F1"},"shutdown":{}} => shutdown.executor_id Missing
{"type":"SHUTDOWN","framework_id":{"value":"F1"},"shutdown":{"agent_id":{"value":"A1"}}} => shutdown.executor_id Missing
{"type":"SHUTDOWN","framework_id":{"value":"F1"},"shutdown":{"executor_id":{"value":"E1"}}} => shutdown.agent_id Missing
{"type":"SHUTDOWN","framework_id":{"value":"F1"},"shutdown":{"agent_id":7,"executor_id":{}}} => shutdown.executor_id.value Missing
"#;

const MESSAGE: &str = r#"{"type":"MESSAGE","framework_id":{"value":"F1"}} => message Missing
{"type":"MESSAGE","framework_id":{"value":"F1"},"message":"AAE="} => message WrongKind
{"type":"MESSAGE","framework_id":{"value":"F1"},"message":{"executor_id":{"value":"E1"},"data":"AAE="}} => message.agent_id Missing
{"type":"MESSAGE","framework_id":{"value":"F1"},"message":{"agent_id":{"value":"A1"},"data":"AAE="}} => message.executor_id Missing
{"type":"MESSAGE","framework_id":{"value":"F1"},"message":{"agent_id":{"value":"A1"},"executor_id":{"value":"E1"}}} => message.data Missing
{"type":"MESSAGE","framework_id":{"value":"F1"},"message":{"agent_id":{"value":"A1"},"executor_id":{"value":"E1"},"data":"AAE"}} => message.data BadBase64
"#;

#[test]
fn the_first_fault_of_a_call_is_reported(rt: HostRuntime) -> Result<(), Fail> {
    expect_faults::<Call, HostRuntime>(&rt, TYPES)?;
    expect_faults::<Call, HostRuntime>(&rt, FRAMEWORKS)?;
    expect_faults::<Call, HostRuntime>(&rt, SUBSCRIBE)?;
    expect_faults::<Call, HostRuntime>(&rt, ACCEPT)?;
    expect_faults::<Call, HostRuntime>(&rt, DECLINE)?;
    expect_faults::<Call, HostRuntime>(&rt, REVIVE)?;
    expect_faults::<Call, HostRuntime>(&rt, KILL)?;
    expect_faults::<Call, HostRuntime>(&rt, ACKNOWLEDGE)?;
    expect_faults::<Call, HostRuntime>(&rt, RECONCILE)?;
    expect_faults::<Call, HostRuntime>(&rt, SUPPRESS)?;
    expect_faults::<Call, HostRuntime>(&rt, SHUTDOWN)?;
    expect_faults::<Call, HostRuntime>(&rt, MESSAGE)
}
