//! Tests of when unacknowledged updates are sent again.
//!
//! A row of a table is `ACTION => TIMES`. An action is one of:
//! - `send TASK NOW`: an update of the task is sent for the first time;
//! - `again INDEX NOW`: the update at an index is sent again;
//! - `ack TASK`: the update of the task is acknowledged.
//!
//! The times are those at which the first and the second update, and the earliest of all, are sent
//! again if that is done every 10 ms.

use crate::support::{halves, id_of, number_of, time_text};
use mes_double_cluster::SentUpdates;
use mes_model::{Bytes, OwedKey};
use std::alloc::{AllocGlobal, Global};
use std::process::Abort;
use std::test::Fail;

/// An update is sent again every 10 ms until it is acknowledged. The time saturates.
const AGAIN: &str = "ack T1 => - - -
send T1 3 => 13 - 13
send T2 5 => 13 15 13
again 0 13 => 23 15 15
again 2 99 => 23 15 15
ack T3 => 23 15 15
ack T2 => 23 - 23
again 0 18446744073709551614 => 18446744073709551615 - 18446744073709551615
";

fn key_of(alloc: Global, task: &str) -> Result<OwedKey, Fail> {
    Ok(OwedKey {
        agent: id_of(alloc, "A1")?,
        task: id_of(alloc, task)?,
        uuid: Bytes::new(Vec::new(alloc)),
    })
}

fn send(alloc: Global, sent: &mut SentUpdates, rest: &str) -> Result<(), Fail> {
    let (task, now) = halves(rest)?;
    let now = number_of(now)?;
    sent.push(key_of(alloc, task)?, now)?;
    Ok(())
}

fn send_again(sent: &mut SentUpdates, rest: &str) -> Result<(), Fail> {
    let (index, now) = halves(rest)?;
    sent.sent_again(number_of(index)? as usize, number_of(now)?);
    Ok(())
}

fn acknowledge(alloc: Global, sent: &mut SentUpdates, task: &str) -> Result<(), Fail> {
    let key = key_of(alloc, task)?;
    sent.acknowledge(&key);
    Ok(())
}

fn change(alloc: Global, sent: &mut SentUpdates, action: &str) -> Result<(), Fail> {
    let (word, rest) = halves(action)?;
    match word {
        "send" => send(alloc, sent, rest),
        "again" => send_again(sent, rest),
        _ => acknowledge(alloc, sent, rest),
    }
}

fn push_time(alloc: Global, times: &mut String, time: Option<u64>) -> Result<(), Fail> {
    let text = time_text(alloc, time)?;
    times.push_str(text.as_str())?;
    Ok(())
}

fn times_of(alloc: Global, sent: &SentUpdates) -> Result<String, Fail> {
    let mut times = String::new(alloc);
    push_time(alloc, &mut times, sent.due_from(0, 10))?;
    times.push_str(" ")?;
    push_time(alloc, &mut times, sent.due_from(1, 10))?;
    times.push_str(" ")?;
    push_time(alloc, &mut times, sent.first_due(10))?;
    Ok(times)
}

/// Runs the actions of the rows on an empty list, and expects the times after each.
fn expect_times<R: Abort + AllocGlobal>(
    rt: &R,
    sent: &mut SentUpdates,
    rows: &str,
) -> Result<(), Fail> {
    for row in rows.lines() {
        let (action, expected) = row.split_once(" => ").ok_or("a row has times")?;
        change(rt.alloc(), sent, action)?;
        let times = times_of(rt.alloc(), sent)?;
        assert_eq!(rt; times.as_str(), expected, "{row}");
    }
    Ok(())
}

#[test]
fn an_update_is_sent_again_until_it_is_acknowledged(rt: HostRuntime) -> Result<(), Fail> {
    let mut sent = SentUpdates::new(rt.alloc());
    expect_times(&rt, &mut sent, AGAIN)
}
