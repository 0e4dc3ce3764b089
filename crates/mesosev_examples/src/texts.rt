//! Texts to which the example rows refer by name.

// The SUBSCRIBED event of the framework F1.
const SUBSCRIBED: &str = r#"{"type":"SUBSCRIBED","subscribed":{"framework_id":{"value":"F1"}}}"#;

// An offer without resources.
const OFFER: &str =
    r#"{"type":"OFFERS","offers":{"offers":[{"id":{"value":"O1"},"framework_id":{"value":"F1"},"agent_id":{"value":"A1"},"hostname":"h"}]}}"#;

// An offer of 1.1 processors.
const PROCESSORS: &str =
    r#"{"type":"OFFERS","offers":{"offers":[{"id":{"value":"O1"},"framework_id":{"value":"F1"},"agent_id":{"value":"A1"},"hostname":"h","resources":[{"name":"cpus","type":"SCALAR","scalar":{"value":1.1}}]}]}}"#;

// An offer of the ports 31000 to 32000.
const PORTS: &str =
    r#"{"type":"OFFERS","offers":{"offers":[{"id":{"value":"O1"},"framework_id":{"value":"F1"},"agent_id":{"value":"A1"},"hostname":"h","resources":[{"name":"ports","type":"RANGES","ranges":{"range":[{"begin":31000,"end":32000}]}}]}]}}"#;

// An update that requires an acknowledgement: its uuid has the bytes 00 to 0f.
const UPDATE: &str =
    r#"{"type":"UPDATE","update":{"status":{"task_id":{"value":"T1"},"state":"TASK_RUNNING","agent_id":{"value":"A1"},"uuid":"AAECAwQFBgcICQoLDA0ODw=="}}}"#;

// The acknowledgement of `UPDATE`.
const ACKNOWLEDGE: &str =
    r#"{"type":"ACKNOWLEDGE","framework_id":{"value":"F1"},"acknowledge":{"agent_id":{"value":"A1"},"task_id":{"value":"T1"},"uuid":"AAECAwQFBgcICQoLDA0ODw=="}}"#;

const SUBSCRIBE: &str =
    r#"{"type":"SUBSCRIBE","subscribe":{"framework_info":{"user":"root","name":"n"}}}"#;

// An ACCEPT of `OFFER`, with a task.
const ACCEPT: &str =
    r#"{"type":"ACCEPT","framework_id":{"value":"F1"},"accept":{"offer_ids":[{"value":"O1"}],"operations":[{"type":"LAUNCH","launch":{"task_infos":[{"name":"t","task_id":{"value":"T1"},"agent_id":{"value":"A1"}}]}}]}}"#;

// An offer with all members, whose identifiers are long enough to be allocated.
const FULL: &str =
    r#"{"type":"OFFERS","offers":{"offers":[{"id":{"value":"offer-of-a-long-identifier"},"framework_id":{"value":"F1"},"agent_id":{"value":"agent-of-a-long-identifier"},"hostname":"host-of-a-long-name","resources":[{"name":"cpus","type":"SCALAR","scalar":{"value":1.5},"role":"*"},{"name":"ports","type":"RANGES","ranges":{"range":[{"begin":1,"end":2},{"begin":31000,"end":32000}]},"allocation_info":{"role":"web"},"revocable":{}},{"name":"disk","type":"SET","set":{"item":["a","b"]},"reservation":{"role":"web","principal":"p"},"reservations":[{"type":"DYNAMIC","role":"web","principal":"p","labels":{"labels":[{"key":"k","value":"v"},{"key":"l"}]}}],"disk":{"volume":0.10,"source":{"type":"PATH"}},"shared":{},"provider_id":{"value":"P1"}}],"attributes":[{"name":"weight","type":"SCALAR","scalar":{"value":2}},{"name":"racks","type":"RANGES","ranges":{"range":[{"begin":3,"end":4}]}},{"name":"zones","type":"SET","set":{"item":["z"]}},{"name":"floor","type":"TEXT","text":{"value":"first"}}],"executor_ids":[{"value":"E1"},{"value":"E2"}],"allocation_info":{}}]}}"#;

// The offer of `OFFER` again, on another host, and another offer.
const TWO_OFFERS: &str =
    r#"{"type":"OFFERS","offers":{"offers":[{"id":{"value":"O1"},"framework_id":{"value":"F1"},"agent_id":{"value":"A1"},"hostname":"i"},{"id":{"value":"O2"},"framework_id":{"value":"F1"},"agent_id":{"value":"A2"},"hostname":"j"}]}}"#;

// An offer with another identifier than that of `OFFER`.
const OTHER_OFFER: &str =
    r#"{"type":"OFFERS","offers":{"offers":[{"id":{"value":"O3"},"framework_id":{"value":"F1"},"agent_id":{"value":"A3"},"hostname":"k"}]}}"#;

// An update of another task, whose identifiers are long enough to be allocated: its uuid has the
// bytes 10 to 1f.
const LONG_UPDATE: &str =
    r#"{"type":"UPDATE","update":{"status":{"task_id":{"value":"task-of-a-long-identifier"},"state":"TASK_FINISHED","message":"a message of some length","agent_id":{"value":"agent-of-a-long-identifier"},"uuid":"EBESExQVFhcYGRobHB0eHw=="}}}"#;

// A later update of the task of `UPDATE`, with the uuid of `LONG_UPDATE`.
const LATER_UPDATE: &str =
    r#"{"type":"UPDATE","update":{"status":{"task_id":{"value":"T1"},"state":"TASK_FINISHED","agent_id":{"value":"A1"},"uuid":"EBESExQVFhcYGRobHB0eHw=="}}}"#;

// The acknowledgement of `LONG_UPDATE`.
const LONG_ACKNOWLEDGE: &str =
    r#"{"type":"ACKNOWLEDGE","framework_id":{"value":"F1"},"acknowledge":{"agent_id":{"value":"agent-of-a-long-identifier"},"task_id":{"value":"task-of-a-long-identifier"},"uuid":"EBESExQVFhcYGRobHB0eHw=="}}"#;

// An ACCEPT of `FULL`, with the task of `ACCEPT` again and another.
const ACCEPT_FULL: &str =
    r#"{"type":"ACCEPT","framework_id":{"value":"F1"},"accept":{"offer_ids":[{"value":"offer-of-a-long-identifier"}],"operations":[{"type":"LAUNCH","launch":{"task_infos":[{"name":"t","task_id":{"value":"T1"},"agent_id":{"value":"A1"}},{"name":"t","task_id":{"value":"task-of-a-long-identifier"},"agent_id":{"value":"A1"}}]}}]}}"#;

const REVIVE: &str = r#"{"type":"REVIVE","framework_id":{"value":"F1"}}"#;

// A DECLINE of `OFFER`.
const DECLINE: &str =
    r#"{"type":"DECLINE","framework_id":{"value":"F1"},"decline":{"offer_ids":[{"value":"O1"}]}}"#;

/// Returns the text of this name, or `name` itself if it is a text.
pub(crate) fn text_named(name: &str) -> &str {
    match name {
        "SUBSCRIBED" => SUBSCRIBED,
        "OFFER" => OFFER,
        "PROCESSORS" => PROCESSORS,
        "PORTS" => PORTS,
        "UPDATE" => UPDATE,
        "ACKNOWLEDGE" => ACKNOWLEDGE,
        "SUBSCRIBE" => SUBSCRIBE,
        "ACCEPT" => ACCEPT,
        "FULL" => FULL,
        "TWO_OFFERS" => TWO_OFFERS,
        "OTHER_OFFER" => OTHER_OFFER,
        "LONG_UPDATE" => LONG_UPDATE,
        "LATER_UPDATE" => LATER_UPDATE,
        "LONG_ACKNOWLEDGE" => LONG_ACKNOWLEDGE,
        "ACCEPT_FULL" => ACCEPT_FULL,
        "REVIVE" => REVIVE,
        "DECLINE" => DECLINE,
        text => text,
    }
}
