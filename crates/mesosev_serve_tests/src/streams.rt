//! Streams that a SUBSCRIBE opens, with given events.

use crate::support::{
    STREAM, SUBSCRIBE_REQUEST, bytes_of, event_of, events_of, expect_calls, serve_anew,
};
use mes_frame::{MemorySink, MemorySource};
use mes_json::MAX_NESTING;
use mes_msg::Event;
use std::alloc::Global;
use std::test::Fail;

// The given events for each stream. SUBSCRIBED is skipped, and so is each event that the master
// refuses: a RESCIND of an offer that is unknown or already rescinded, an offer that is repeated,
// and an update that is already unacknowledged.
const GIVEN: &str =
    r#"{"type":"SUBSCRIBED","subscribed":{"framework_id":{"value":"F1"},"heartbeat_interval_seconds":15.0}}
{"type":"RESCIND","rescind":{"offer_id":{"value":"O1"}}}
{"type":"OFFERS","offers":{"offers":[{"id":{"value":"O1"},"framework_id":{"value":"F1"},"agent_id":{"value":"A1"},"hostname":"h"}]}}
{"type":"OFFERS","offers":{"offers":[{"id":{"value":"O1"},"framework_id":{"value":"F1"},"agent_id":{"value":"A1"},"hostname":"h"}]}}
{"type":"RESCIND","rescind":{"offer_id":{"value":"O1"}}}
{"type":"RESCIND","rescind":{"offer_id":{"value":"O1"}}}
{"type":"UPDATE","update":{"status":{"task_id":{"value":"T1"},"state":"TASK_RUNNING","agent_id":{"value":"A1"},"uuid":"AAECAwQFBgcICQoLDA0ODw=="}}}
{"type":"UPDATE","update":{"status":{"task_id":{"value":"T1"},"state":"TASK_RUNNING","agent_id":{"value":"A1"},"uuid":"AAECAwQFBgcICQoLDA0ODw=="}}}
{"type":"HEARTBEAT"}"#;

// Two streams. The response to the RECONCILE between them has no events, and no event of the first
// stream is sent on the second.
const SERVED: &str =
    r#"- {"type":"SUBSCRIBE","subscribe":{"framework_info":{"user":"root","name":"n"}}} => HTTP/1.1 200 OK|Content-Type: application/json|Transfer-Encoding: chunked|Mesos-Stream-Id: 00000000-0000-4000-8000-000000000001||1d9|100~{"type":"SUBSCRIBED","subscribed":{"framework_id":{"value":"F1"},"heartbeat_interval_seconds":15.0}}132~{"type":"OFFERS","offers":{"offers":[{"id":{"value":"O1"},"framework_id":{"value":"F1"},"agent_id":{"value":"A1"},"hostname":"h"}]}}56~{"type":"RESCIND","rescind":{"offer_id":{"value":"O1"}}}147~{"type":"UPDATE","update":{"status":{"task_id":{"value":"T1"},"state":"TASK_RUNNING","agent_id":{"value":"A1"},"uuid":"AAECAwQFBgcICQoLDA0ODw=="}}}20~{"type":"HEARTBEAT"}|0|| => 200 SUBSCRIBE~
00000000-0000-4000-8000-000000000001 {"type":"RECONCILE","framework_id":{"value":"F1"},"reconcile":{}} => HTTP/1.1 202 Accepted|Content-Length: 0|Connection: close|| => 202 RECONCILE~
- {"type":"SUBSCRIBE","subscribe":{"framework_info":{"user":"root","name":"n"}}} => HTTP/1.1 200 OK|Content-Type: application/json|Transfer-Encoding: chunked|Mesos-Stream-Id: 00000000-0000-4000-8000-000000000002||7f|100~{"type":"SUBSCRIBED","subscribed":{"framework_id":{"value":"F1"},"heartbeat_interval_seconds":15.0}}20~{"type":"HEARTBEAT"}|0|| => 200 SUBSCRIBE~
- {"type":"SUBSCRIBE","subscribe":{"framework_info":{"user":"root","name":"n"}}} => HTTP/1.1 403 Forbidden|Content-Length: 0|Connection: close|| => 403 SUBSCRIBE~"#;

// A SUBSCRIBE opens a new stream, whichever stream id the request names; the previous stream is
// then no longer current.
const NAMED: &str =
    r#"s1 {"type":"SUBSCRIBE","subscribe":{"framework_info":{"user":"root","name":"n"}}} => HTTP/1.1 200 OK|Content-Type: application/json|Transfer-Encoding: chunked|Mesos-Stream-Id: 00000000-0000-4000-8000-000000000001||68|100~{"type":"SUBSCRIBED","subscribed":{"framework_id":{"value":"F1"},"heartbeat_interval_seconds":15.0}}|0|| => 200 SUBSCRIBE~
00000000-0000-4000-8000-000000000001 {"type":"SUBSCRIBE","subscribe":{"framework_info":{"user":"root","name":"n"}}} => HTTP/1.1 200 OK|Content-Type: application/json|Transfer-Encoding: chunked|Mesos-Stream-Id: 00000000-0000-4000-8000-000000000002||68|100~{"type":"SUBSCRIBED","subscribed":{"framework_id":{"value":"F1"},"heartbeat_interval_seconds":15.0}}|0|| => 200 SUBSCRIBE~
00000000-0000-4000-8000-000000000001 {"type":"REVIVE","framework_id":{"value":"F1"}} => HTTP/1.1 400 Bad Request|Content-Length: 0|Connection: close|| => 400 REVIVE~
00000000-0000-4000-8000-000000000002 {"type":"REVIVE","framework_id":{"value":"F1"}} => HTTP/1.1 202 Accepted|Content-Length: 0|Connection: close|| => 202 REVIVE~"#;

// A SUBSCRIBE opens a stream even if the events of the stream cannot be encoded.
const UNWRITTEN: &str =
    r#"- {"type":"SUBSCRIBE","subscribe":{"framework_info":{"user":"root","name":"n"}}} =>  => 200 SUBSCRIBE~net write failed~
00000000-0000-4000-8000-000000000001 {"type":"REVIVE","framework_id":{"value":"F1"}} => HTTP/1.1 202 Accepted|Content-Length: 0|Connection: close|| => 202 REVIVE~"#;

// A response with a SUBSCRIBED and a HEARTBEAT in chunks of 100 bytes.
const IN_TWO: &str =
    r#"HTTP/1.1 200 OK|Content-Type: application/json|Transfer-Encoding: chunked|Mesos-Stream-Id: 00000000-0000-4000-8000-000000000001||64|100~{"type":"SUBSCRIBED","subscribed":{"framework_id":{"value":"F1"},"heartbeat_interval_seconds":15|1b|.0}}20~{"type":"HEARTBEAT"}|0||"#;

#[test]
fn events_go_through_the_master(rt: HostRuntime) -> Result<(), Fail> {
    let events = events_of(rt.alloc(), GIVEN)?;
    expect_calls(&rt, events.as_slice(), SERVED)
}

#[test]
fn a_subscribe_may_name_a_stream(rt: HostRuntime) -> Result<(), Fail> {
    expect_calls(&rt, &[], NAMED)
}

fn push_times(text: &mut String, piece: &str, count: usize) -> Result<(), Fail> {
    for _ in 0..count {
        text.push_str(piece)?;
    }
    Ok(())
}

// Offers that can be decoded, but nest too deep in the canonical text, which has one more object
// around the offers.
fn deep_offers(alloc: Global) -> Result<Event, Fail> {
    let mut text = String::new(alloc);
    text.push_str(
        r#"{"type":"OFFERS","offers":[{"id":{"value":"O1"},"framework_id":{"value":"F1"},"agent_id":{"value":"A1"},"hostname":"h","resources":[{"name":"disk","type":"SET","set":{},"disk":"#,
    )?;
    push_times(&mut text, r#"{"a":"#, MAX_NESTING - 6)?;
    text.push_str("{}")?;
    push_times(&mut text, "}", MAX_NESTING - 6)?;
    text.push_str("}]}]}")?;
    event_of(alloc, text.as_str())
}

#[test]
fn a_stream_that_cant_be_encoded_is_not_begun(rt: HostRuntime) -> Result<(), Fail> {
    let mut events = events_of(rt.alloc(), r#"{"type":"HEARTBEAT"}"#)?;
    events.push(deep_offers(rt.alloc())?)?;
    expect_calls(&rt, events.as_slice(), UNWRITTEN)
}

// Returns whether the response to a SUBSCRIBE, in chunks of `most` bytes, is `stream`.
fn writes(alloc: Global, events: &[Event], most: u32, stream: &str) -> Result<bool, Fail> {
    let request = bytes_of(alloc, SUBSCRIBE_REQUEST)?;
    let expected = bytes_of(alloc, stream)?;
    let mut source = MemorySource::new(request.as_slice(), 64);
    let mut writer = MemorySink::new(alloc, 64);
    let mut out = MemorySink::new(alloc, 64);
    let reported = serve_anew(alloc, events, most, &mut source, &mut writer, &mut out)?;
    Ok(reported == Ok((true, 14)) && writer.bytes() == expected.as_slice())
}

#[test]
fn chunks_have_the_size_that_is_given(rt: HostRuntime) -> Result<(), Fail> {
    let events = events_of(rt.alloc(), r#"{"type":"HEARTBEAT"}"#)?;
    for &(most, stream) in &[(100, IN_TWO), (127, STREAM), (4_096, STREAM)] {
        assert!(rt;
            writes(rt.alloc(), events.as_slice(), most, stream)?,
            "{most}"
        );
    }
    Ok(())
}
