//! Sessions whose events and calls are texts. A test owns its session, and only borrows it to the
//! function with the steps: each exit of the owner would have to drop it.

use crate::support::{
    ACCEPT, ACCEPT_TEXT, ACKNOWLEDGE, OFFERS, ROOM, SUBSCRIBED, UPDATE, expect_error, expect_text,
};
use mesosev_session::TextSession;
use std::process::Abort;
use std::test::Fail;

const REVIVE: &[u8] = br#"{"type":"REVIVE","framework_id":{"value":"F1"}}"#;

#[test]
fn a_call_is_refused_before_subscribed(rt: HostRuntime) -> Result<(), Fail> {
    let mut session = TextSession::new(rt.alloc());
    refuse_before_subscribed(&rt, &mut session)
}

fn refuse_before_subscribed(rt: &impl Abort, session: &mut TextSession) -> Result<(), Fail> {
    expect_error(rt, session.said(REVIVE, ROOM), "S1")?;
    assert!(rt; session.framework().is_none());
    assert!(rt; !session.connected());
    assert_eq!(rt; session.entries(), 0);
    Ok(())
}

#[test]
fn a_launch_takes_the_offer(rt: HostRuntime) -> Result<(), Fail> {
    let mut session = TextSession::new(rt.alloc());
    launch(&rt, &mut session)
}

fn launch(rt: &impl Abort, session: &mut TextSession) -> Result<(), Fail> {
    assert!(rt; session.heard(SUBSCRIBED).is_ok());
    assert!(rt; session.heard(OFFERS).is_ok());
    assert_eq!(rt; session.offer_count(), 1);
    expect_text(rt, session.check(ACCEPT, ROOM), ACCEPT_TEXT)?;
    assert_eq!(rt; session.offer_count(), 1);
    expect_error(rt, session.said(ACCEPT, ACCEPT_TEXT.len() - 1), "room")?;
    assert_eq!(rt; session.offer_count(), 1);
    expect_text(rt, session.said(ACCEPT, ACCEPT_TEXT.len()), ACCEPT_TEXT)?;
    assert_eq!(rt; session.offer_count(), 0);
    expect_error(rt, session.said(ACCEPT, ROOM), "S3")?;
    assert_eq!(rt; session.entries(), 3);
    Ok(())
}

#[test]
fn an_update_is_acknowledged_once(rt: HostRuntime) -> Result<(), Fail> {
    let mut session = TextSession::new(rt.alloc());
    acknowledge_twice(&rt, &mut session)
}

fn acknowledge_twice(rt: &impl Abort, session: &mut TextSession) -> Result<(), Fail> {
    assert!(rt; session.heard(SUBSCRIBED).is_ok());
    assert!(rt; session.heard(UPDATE).is_ok());
    assert_eq!(rt; session.owed_count(), 1);
    expect_text(
        rt,
        session.owed_at(0, ROOM),
        br#"{"agent_id":{"value":"A1"},"task_id":{"value":"T1"},"uuid":"AAECAwQFBgcICQoLDA0ODw=="}"#,
    )?;
    expect_error(rt, session.owed_at(1, ROOM), "absent")?;
    expect_text(rt, session.said(ACKNOWLEDGE, ROOM), ACKNOWLEDGE)?;
    assert_eq!(rt; session.owed_count(), 0);
    expect_error(rt, session.said(ACKNOWLEDGE, ROOM), "S7")?;
    Ok(())
}

#[test]
fn a_break_keeps_the_framework(rt: HostRuntime) -> Result<(), Fail> {
    let mut session = TextSession::new(rt.alloc());
    break_and_subscribe(&rt, &mut session)
}

fn break_and_subscribe(rt: &impl Abort, session: &mut TextSession) -> Result<(), Fail> {
    assert!(rt; session.heard(SUBSCRIBED).is_ok());
    assert!(rt; session.heard(OFFERS).is_ok());
    session.broken();
    assert_eq!(rt; session.offer_count(), 0);
    assert!(rt; !session.connected());
    assert_eq!(rt; session.framework().unwrap_or(""), "F1");
    expect_text(
        rt,
        session.subscribe(br#"{"user":"root","name":"n"}"#, ROOM),
        br#"{"type":"SUBSCRIBE","framework_id":{"value":"F1"},"subscribe":{"framework_info":{"user":"root","name":"n","id":{"value":"F1"}}}}"#,
    )?;
    assert_eq!(rt; session.entries(), 4);
    Ok(())
}

#[test]
fn an_offer_is_found_by_its_identifier(rt: HostRuntime) -> Result<(), Fail> {
    let mut session = TextSession::new(rt.alloc());
    find_offers(&rt, &mut session)
}

fn find_offers(rt: &impl Abort, session: &mut TextSession) -> Result<(), Fail> {
    assert!(rt; session.heard(SUBSCRIBED).is_ok());
    assert!(rt; session.heard(OFFERS).is_ok());
    let offer =
        br#"{"id":{"value":"O1"},"framework_id":{"value":"F1"},"agent_id":{"value":"A1"},"hostname":"h","resources":[{"name":"cpus","type":"SCALAR","scalar":{"value":1.0}}]}"#;
    expect_text(rt, session.offer("O1", ROOM), offer)?;
    expect_text(rt, session.offer_at(0, ROOM), offer)?;
    expect_error(rt, session.offer("O2", ROOM), "absent")?;
    expect_error(rt, session.offer_at(1, ROOM), "absent")?;
    expect_error(rt, session.offer_at(0, 3), "room")?;
    Ok(())
}

#[test]
fn texts_that_are_no_messages_change_nothing(rt: HostRuntime) -> Result<(), Fail> {
    let mut session = TextSession::new(rt.alloc());
    give_no_messages(&rt, &mut session)
}

fn give_no_messages(rt: &impl Abort, session: &mut TextSession) -> Result<(), Fail> {
    expect_error(rt, session.heard(b"{"), "fault")?;
    expect_error(rt, session.heard(br#"{"type":"OFFERS"}"#), "fault")?;
    expect_error(rt, session.said(SUBSCRIBED, ROOM), "fault")?;
    expect_error(rt, session.subscribe(b"{}", ROOM), "fault")?;
    assert_eq!(rt; session.entries(), 0);
    Ok(())
}
