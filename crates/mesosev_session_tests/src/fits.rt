//! Whether tasks fit offers, both as texts, and the chunks of a body.

use crate::support::{ROOM, expect_error, expect_text};
use arrayvec::ArrayString;
use mes_session::{MAX_REFUSAL_LINE, refusal_line};
use mes_stream::{MAX_FAULT_LINE, fault_line};
use mesosev_session::{TextStop, check_fit, stream_chunk};
use std::process::Abort;
use std::test::Fail;

const OFFERS: &[u8] =
    b"[{\"id\":{\"value\":\"O1\"},\"framework_id\":{\"value\":\"F1\"},\"agent_id\":{\"value\":\"A1\"},\"hostname\":\"h\",\"resources\":[{\"name\":\"cpus\",\"type\":\"SCALAR\",\"scalar\":{\"value\":1}}]}]";

const HALF: &[u8] =
    b"[{\"name\":\"t\",\"task_id\":{\"value\":\"T1\"},\"agent_id\":{\"value\":\"A1\"},\"resources\":[{\"name\":\"cpus\",\"type\":\"SCALAR\",\"scalar\":{\"value\":0.5}}]}]";

const MORE: &[u8] =
    b"[{\"name\":\"t\",\"task_id\":{\"value\":\"T1\"},\"agent_id\":{\"value\":\"A1\"},\"resources\":[{\"name\":\"cpus\",\"type\":\"SCALAR\",\"scalar\":{\"value\":1.001}}]}]";

/// Checks the line of a stop.
fn expect_stop(rt: &impl Abort, checked: Result<(), TextStop>, expected: &str) -> Result<(), Fail> {
    match checked {
        Ok(()) => assert_eq!(rt; "", expected),
        Err(TextStop::Fault(stop)) => {
            let mut line = ArrayString::<MAX_FAULT_LINE>::new();
            fault_line(&stop.fault, stop.used, &mut line);
            assert_eq!(rt; line.as_str(), expected);
        }
        Err(TextStop::Refused { before, refusal }) => {
            let mut line = ArrayString::<MAX_REFUSAL_LINE>::new();
            refusal_line(&refusal, before, &mut line);
            assert_eq!(rt; line.as_str(), expected);
        }
    }
    Ok(())
}

#[test]
fn tasks_fit_or_the_first_resource_that_does_not_is_named(rt: HostRuntime) -> Result<(), Fail> {
    let alloc = rt.alloc();
    expect_stop(&rt, check_fit(alloc, OFFERS, HALF), "")?;
    expect_stop(&rt, check_fit(alloc, b"[]", b"[]"), "")?;
    expect_stop(
        &rt,
        check_fit(alloc, OFFERS, MORE),
        "refused S6 Exceeds record 1 task 0 resource 0",
    )?;
    expect_stop(
        &rt,
        check_fit(alloc, b"[]", HALF),
        "refused S6 Exceeds record 1 task 0 resource 0",
    )?;
    Ok(())
}

#[test]
fn a_text_that_is_no_list_is_reported(rt: HostRuntime) -> Result<(), Fail> {
    let alloc = rt.alloc();
    expect_stop(
        &rt,
        check_fit(alloc, b"{}", b"{"),
        "fault F12 Field record 1 . WrongKind after 2",
    )?;
    expect_stop(
        &rt,
        check_fit(alloc, b"[", b"[]"),
        "fault F11 Text record 1 byte 1 End after 1",
    )?;
    expect_stop(
        &rt,
        check_fit(alloc, OFFERS, b"[1]"),
        "fault F12 Field record 2 [0] WrongKind after 3",
    )?;
    expect_stop(
        &rt,
        check_fit(alloc, OFFERS, b""),
        "fault F11 Text record 2 byte 0 End after 0",
    )?;
    Ok(())
}

#[test]
fn data_become_a_chunk(rt: HostRuntime) -> Result<(), Fail> {
    let alloc = rt.alloc();
    expect_text(&rt, stream_chunk(alloc, b"hello", ROOM), b"5\r\nhello\r\n")?;
    expect_text(
        &rt,
        stream_chunk(alloc, b"0123456789abcdef", ROOM),
        b"10\r\n0123456789abcdef\r\n",
    )?;
    expect_text(&rt, stream_chunk(alloc, b"", 5), b"0\r\n\r\n")?;
    expect_error(&rt, stream_chunk(alloc, b"", 4), "room")?;
    Ok(())
}
