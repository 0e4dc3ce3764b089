//! Served requests. Each row of a table has a request, the response, and the printed lines.

use crate::support::{BAD, bytes_of, expect_calls, leaves, row_of, served_anew};
use mes_frame::MemorySource;
use std::alloc::Global;
use std::test::Fail;

// Calls to one master in order. Each row: the stream id that the request names, or `-`, the call,
// the response, and the printed line.
const CALLS: &str =
    r#"s1 {"type":"REVIVE","framework_id":{"value":"F1"}} => HTTP/1.1 403 Forbidden|Content-Length: 0|Connection: close|| => 403 REVIVE~
- {"type":"SUBSCRIBE","subscribe":{"framework_info":{"user":"root","name":"n"}}} => HTTP/1.1 200 OK|Content-Type: application/json|Transfer-Encoding: chunked|Mesos-Stream-Id: 00000000-0000-4000-8000-000000000001||68|100~{"type":"SUBSCRIBED","subscribed":{"framework_id":{"value":"F1"},"heartbeat_interval_seconds":15.0}}|0|| => 200 SUBSCRIBE~
s1 {"type":"REVIVE","framework_id":{"value":"F1"}} => HTTP/1.1 400 Bad Request|Content-Length: 0|Connection: close|| => 400 REVIVE~
00000000-0000-4000-8000-000000000001 {"type":"REVIVE","framework_id":{"value":"F1"}} => HTTP/1.1 202 Accepted|Content-Length: 0|Connection: close|| => 202 REVIVE~
- {"type":"REVIVE","framework_id":{"value":"F1"}} => HTTP/1.1 400 Bad Request|Content-Length: 0|Connection: close|| => 400 REVIVE~
00000000-0000-4000-8000-000000000001 {"type":"SUPPRESS","framework_id":{"value":"F1"}} => HTTP/1.1 202 Accepted|Content-Length: 0|Connection: close|| => 202 SUPPRESS~
00000000-0000-4000-8000-000000000001 {"type":"ACCEPT","framework_id":{"value":"F1"},"accept":{"offer_ids":[{"value":"O1"}],"operations":[{"type":"LAUNCH","launch":{"task_infos":[{"name":"n","task_id":{"value":"T1"},"agent_id":{"value":"A1"}}]}}]}} => HTTP/1.1 202 Accepted|Content-Length: 0|Connection: close|| => 202 ACCEPT~
00000000-0000-4000-8000-000000000001 {"type":"DECLINE","framework_id":{"value":"F1"},"decline":{"offer_ids":[{"value":"O1"}]}} => HTTP/1.1 202 Accepted|Content-Length: 0|Connection: close|| => 202 DECLINE~
00000000-0000-4000-8000-000000000001 {"type":"KILL","framework_id":{"value":"F1"},"kill":{"task_id":{"value":"T1"}}} => HTTP/1.1 202 Accepted|Content-Length: 0|Connection: close|| => 202 KILL~
00000000-0000-4000-8000-000000000001 {"type":"ACKNOWLEDGE","framework_id":{"value":"F1"},"acknowledge":{"agent_id":{"value":"A1"},"task_id":{"value":"T1"},"uuid":"AAECAwQFBgcICQoLDA0ODw=="}} => HTTP/1.1 202 Accepted|Content-Length: 0|Connection: close|| => 202 ACKNOWLEDGE~
00000000-0000-4000-8000-000000000001 {"type":"RECONCILE","framework_id":{"value":"F1"},"reconcile":{}} => HTTP/1.1 202 Accepted|Content-Length: 0|Connection: close|| => 202 RECONCILE~
00000000-0000-4000-8000-000000000001 {"type":"SHUTDOWN","framework_id":{"value":"F1"},"shutdown":{"executor_id":{"value":"E1"},"agent_id":{"value":"A1"}}} => HTTP/1.1 202 Accepted|Content-Length: 0|Connection: close|| => 202 SHUTDOWN~
00000000-0000-4000-8000-000000000001 {"type":"MESSAGE","framework_id":{"value":"F1"},"message":{"agent_id":{"value":"A1"},"executor_id":{"value":"E1"},"data":"AAE="}} => HTTP/1.1 202 Accepted|Content-Length: 0|Connection: close|| => 202 MESSAGE~
00000000-0000-4000-8000-000000000001 {"type":"REVIVE"} => HTTP/1.1 400 Bad Request|Content-Length: 0|Connection: close|| => 400 -~
00000000-0000-4000-8000-000000000001 {"type":"REVIVE","framework_id":{"value":"F1"}} x => HTTP/1.1 400 Bad Request|Content-Length: 0|Connection: close|| => 400 -~
- {"type":"SUBSCRIBE","framework_id":{"value":"F2"},"subscribe":{"framework_info":{"user":"root","name":"n"}}} => HTTP/1.1 403 Forbidden|Content-Length: 0|Connection: close|| => 403 SUBSCRIBE~
00000000-0000-4000-8000-000000000001 {"type":"TEARDOWN","framework_id":{"value":"F1"}} => HTTP/1.1 202 Accepted|Content-Length: 0|Connection: close|| => 202 TEARDOWN~
00000000-0000-4000-8000-000000000001 {"type":"REVIVE","framework_id":{"value":"F1"}} => HTTP/1.1 403 Forbidden|Content-Length: 0|Connection: close|| => 403 REVIVE~
- {"type":"SUBSCRIBE","subscribe":{"framework_info":{"user":"root","name":"n"}}} => HTTP/1.1 403 Forbidden|Content-Length: 0|Connection: close|| => 403 SUBSCRIBE~"#;

// Requests to a master without a stream. The first reason to reject a request determines the status
// of the response.
const REQUESTS: &str =
    r#"POST /x HTTP/1.1|Host: 127.0.0.1:5050|Content-Type: application/json|Accept: application/json|Mesos-Stream-Id: s1|Connection: close|Content-Length: 47||{"type":"REVIVE","framework_id":{"value":"F1"}} => HTTP/1.1 404 Not Found|Content-Length: 0|Connection: close|| => 404 -~
GET /api/v1/scheduler HTTP/1.1|Host: 127.0.0.1:5050|Content-Type: application/json|Accept: application/json|Mesos-Stream-Id: s1|Connection: close|Content-Length: 47||{"type":"REVIVE","framework_id":{"value":"F1"}} => HTTP/1.1 405 Method Not Allowed|Content-Length: 0|Connection: close|| => 405 -~
GET /x HTTP/1.1|Host: 127.0.0.1:5050|Content-Type: application/json|Accept: application/json|Mesos-Stream-Id: s1|Connection: close|Content-Length: 47|| => HTTP/1.1 404 Not Found|Content-Length: 0|Connection: close|| => 404 -~
POST /api/v1/scheduler HTTP/1.1|Host: 127.0.0.1:5050|Content-Type: application/x-protobuf|Accept: application/json|Mesos-Stream-Id: s1|Connection: close|Content-Length: 47||{"type":"REVIVE","framework_id":{"value":"F1"}} => HTTP/1.1 400 Bad Request|Content-Length: 0|Connection: close|| => 400 -~
POST /api/v1/scheduler HTTP/1.1|Content-Type: application/json||{"type":"REVIVE","framework_id":{"value":"F1"}} => HTTP/1.1 400 Bad Request|Content-Length: 0|Connection: close|| => 400 -~
POST /api/v1/scheduler HTTP/1.1|Host: 127.0.0.1:5050|Content-Type: application/json|Accept: application/json|Mesos-Stream-Id: s1|Connection: close|Content-Length: 1048577||{"type":"REVIVE","framework_id":{"value":"F1"}} => HTTP/1.1 400 Bad Request|Content-Length: 0|Connection: close|| => 400 -~
POST /api/v1/scheduler HTTP/1.1|Host: 127.0.0.1:5050|Content-Type: application/json|Accept: application/json|Mesos-Stream-Id: a b|Connection: close|Content-Length: 47||{"type":"REVIVE","framework_id":{"value":"F1"}} => HTTP/1.1 400 Bad Request|Content-Length: 0|Connection: close|| => 400 -~
POST /api/v1/scheduler HTTP/2|Host: 127.0.0.1:5050|Content-Type: application/json|Accept: application/json|Mesos-Stream-Id: s1|Connection: close|Content-Length: 47||{"type":"REVIVE","framework_id":{"value":"F1"}} => HTTP/1.1 400 Bad Request|Content-Length: 0|Connection: close|| => 400 -~
POST /api/v1/scheduler HTTP/1.1|Host: 127.0.0.1:5050|Content-Type: application/json|Accept: application/json|Mesos-Stream-Id: s1|Connection: close|Content-Length: 46||{"type":"REVIVE","framework_id":{"value":"F1"}} => HTTP/1.1 400 Bad Request|Content-Length: 0|Connection: close|| => 400 -~
POST /api/v1/scheduler HTTP/1.1|Host: 127.0.0.1:5050|Content-Type: application/json|Accept: application/json|Mesos-Stream-Id: s1|Connection: close|Content-Length: 0|| => HTTP/1.1 400 Bad Request|Content-Length: 0|Connection: close|| => 400 -~
 => HTTP/1.1 400 Bad Request|Content-Length: 0|Connection: close|| => 400 -~
POST /api/v1/scheduler HTTP/1.1|Host: 127.0.0.1:5050|Content-Type: application/json|Accept: application/json|Mesos-Stream-Id: s1|Connection: close|Content-Length: 47| => HTTP/1.1 400 Bad Request|Content-Length: 0|Connection: close|| => 400 -~
POST /api/v1/scheduler HTTP/1.1|Host: 127.0.0.1:5050|Content-Type: application/json|Accept: application/json|Mesos-Stream-Id: s1|Connection: close|Content-Length: 48||{"type":"REVIVE","framework_id":{"value":"F1"}} =>  => - -~"#;

const REVIVE_REQUEST: &str =
    r#"POST /api/v1/scheduler HTTP/1.1|Host: 127.0.0.1:5050|Content-Type: application/json|Accept: application/json|Mesos-Stream-Id: s1|Connection: close|Content-Length: 47||{"type":"REVIVE","framework_id":{"value":"F1"}}"#;

// The response of a master without a stream to `REVIVE_REQUEST`, and the printed line.
const FORBIDDEN: &str =
    "HTTP/1.1 403 Forbidden|Content-Length: 0|Connection: close|| => 403 REVIVE~";

#[test]
fn calls_have_their_responses(rt: HostRuntime) -> Result<(), Fail> {
    expect_calls(&rt, &[], CALLS)
}

// Returns the response of a master without a stream, and the printed lines.
fn reported(alloc: Global, request: &str, most: usize) -> Result<String, Fail> {
    let bytes = bytes_of(alloc, request)?;
    served_anew(alloc, &mut MemorySource::new(bytes.as_slice(), most))
}

#[test]
fn requests_have_their_responses(rt: HostRuntime) -> Result<(), Fail> {
    for row in REQUESTS.lines() {
        let (request, expected) = row_of(row)?;
        for most in [1, 4_096] {
            assert_eq!(rt;
                reported(rt.alloc(), request, most)?.as_str(),
                expected,
                "{row}"
            );
        }
    }
    Ok(())
}

// Like `reported`. Exactly the bytes `taken` must be read, and `following` must remain unread.
fn reported_text(alloc: Global, taken: &[u8], following: &[u8]) -> Result<String, Fail> {
    let mut bytes = Vec::new(alloc);
    bytes.extend_from_slice(taken)?;
    bytes.extend_from_slice(following)?;
    let mut source = MemorySource::new(bytes.as_slice(), 4_096);
    let reported = served_anew(alloc, &mut source)?;
    if !leaves(&mut source, following)? {
        return Err("more bytes are read than the request has")?;
    }
    Ok(reported)
}

#[test]
fn bytes_after_a_body_are_not_read(rt: HostRuntime) -> Result<(), Fail> {
    let request = bytes_of(rt.alloc(), REVIVE_REQUEST)?;
    let reported = reported_text(rt.alloc(), request.as_slice(), b" trailing bytes")?;
    assert_eq!(rt; reported.as_str(), FORBIDDEN);
    Ok(())
}

// The head has a field of 20,000 bytes; it is rejected after the first 16,384.
#[test]
fn a_head_that_is_too_long_is_not_read_on(rt: HostRuntime) -> Result<(), Fail> {
    let mut head = bytes_of(rt.alloc(), "POST / HTTP/1.1|A: ")?;
    head.resize(16_384, b'a')?;
    let reported = reported_text(rt.alloc(), head.as_slice(), &[b'a'; 3_636])?;
    assert_eq!(rt; reported.as_str(), BAD);
    Ok(())
}
