//! Tests with heads that common software writes, directly and through a proxy. Each head was
//! captured on a loopback socket, except that of Mesos, which is from the documentation of its
//! scheduler API.

use crate::support::{Reads, expect_rows};
use std::test::Fail;

/// Calls of curl 7.88, Python's requests 2.34 and urllib, aiohttp 3.8, node 20 (`http` and `fetch`)
/// and wget 1.21. One is forwarded by nginx 1.22, which sends HTTP/1.0 by default.
const CALLS: &str =
    "POST /api/v1/scheduler HTTP/1.1|Host: 127.0.0.1:5050|User-Agent: curl/7.88.1|Accept: */*|Content-Type: application/json|Mesos-Stream-Id: s1|Content-Length: 2|| => ok
POST /api/v1/scheduler HTTP/1.1|Host: 127.0.0.1:5050|User-Agent: python-requests/2.34.2|Accept-Encoding: gzip, deflate|Accept: */*|Connection: keep-alive|Content-Type: application/json|Mesos-Stream-Id: s1|Content-Length: 2|| => ok
POST /api/v1/scheduler HTTP/1.1|Accept-Encoding: identity|Content-Length: 2|Host: 127.0.0.1:5050|User-Agent: Python-urllib/3.11|Content-Type: application/json|Connection: close|| => ok
POST /api/v1/scheduler HTTP/1.1|Host: 127.0.0.1:5050|Content-Type: application/json|Accept: */*|Accept-Encoding: gzip, deflate|User-Agent: Python/3.11 aiohttp/3.8.4|Content-Length: 2|| => ok
POST /api/v1/scheduler HTTP/1.1|Content-Type: application/json|Content-Length: 2|Mesos-Stream-Id: s1|Host: 127.0.0.1:5050|Connection: keep-alive|| => ok
POST /api/v1/scheduler HTTP/1.1|host: 127.0.0.1:5050|connection: keep-alive|Content-Type: application/json|accept: */*|accept-language: *|sec-fetch-mode: cors|user-agent: node|accept-encoding: gzip, deflate|content-length: 2|| => ok
POST /api/v1/scheduler HTTP/1.1|Host: 127.0.0.1:5050|User-Agent: Wget/1.21.3|Accept: */*|Accept-Encoding: identity|Connection: Keep-Alive|Content-Type: application/json|Content-Length: 2|| => ok
POST /api/v1/scheduler HTTP/1.0|Host: 127.0.0.1:5050|Connection: close|Content-Length: 2|Content-Type: application/json|Mesos-Stream-Id: s1|| => ok
POST /api/v1/scheduler HTTP/1.1|Host: 127.0.0.1:5050|User-Agent: Go-http-client/1.1|Content-Length: 2|Accept: application/json|Content-Type: application/x-protobuf|Accept-Encoding: gzip|| => H6 NotJson
POST /api/v1/scheduler HTTP/1.1|Host: 127.0.0.1:5050|User-Agent: curl/7.88.1|Accept: */*|Content-Type: application/x-www-form-urlencoded|Content-Length: 2|| => H6 NotJson
POST /api/v1/scheduler HTTP/1.1|Host: 127.0.0.1:5050|Content-Type: application/json|Connection: keep-alive|Transfer-Encoding: chunked|| => H10 NoLength";

/// Responses to a SUBSCRIBE: that of Mesos, and one forwarded by nginx.
const STREAMS: &str =
    "HTTP/1.1 200 OK|Content-Type: application/json|Transfer-Encoding: chunked|Mesos-Stream-Id: 130ae4e3-6b13-4ef4-baa9-9f2e85c3e9af|| => ok
HTTP/1.1 200 OK|Server: nginx/1.22.1|Date: Wed, 25 Nov 2026 19:45:26 GMT|Content-Type: application/json|Transfer-Encoding: chunked|Connection: keep-alive|Mesos-Stream-Id: 130ae4e3-6b13-4ef4-baa9-9f2e85c3e9af|| => ok
HTTP/1.1 307 Temporary Redirect|Location: //10.0.0.2:5050|Content-Length: 0|| => H4 Status
HTTP/1.1 502 Bad Gateway|Server: nginx/1.22.1|Date: Wed, 25 Nov 2026 19:45:26 GMT|Content-Type: text/html|Content-Length: 157|Connection: keep-alive|| => H4 Status";

/// Responses to calls other than SUBSCRIBE.
const ANSWERS: &str =
    "HTTP/1.1 202 Accepted|Date: Wed, 25 Nov 2026 19:45:24 GMT|Content-Length: 0|| => ok
HTTP/1.1 202 Accepted|Server: nginx/1.22.1|Date: Wed, 25 Nov 2026 19:45:24 GMT|Content-Length: 0|Connection: keep-alive|| => ok
HTTP/1.1 503 Service Unavailable|Server: nginx/1.22.1|Content-Type: text/html|Content-Length: 197|| => H4 Status";

#[test]
fn heads_of_widespread_software_are_read(rt: HostRuntime) -> Result<(), Fail> {
    expect_rows(&rt, Reads::Request, CALLS, b"{}")?;
    expect_rows(&rt, Reads::Head, STREAMS, b"")?;
    expect_rows(&rt, Reads::Answer, ANSWERS, b"")
}
