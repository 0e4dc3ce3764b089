//! Texts of events and calls, and the words for the result of a function.

use mes_session::Refusal;
use mesosev_session::TextRefusal;
use std::alloc::Global;
use std::process::Abort;
use std::test::Fail;

/// The room for a text: more than any test needs.
pub(crate) const ROOM: usize = 100_000;

pub(crate) const SUBSCRIBED: &[u8] =
    br#"{"type":"SUBSCRIBED","subscribed":{"framework_id":{"value":"F1"}}}"#;

/// An offer of 1 cpu, `O1` on the agent `A1`.
pub(crate) const OFFERS: &[u8] =
    br#"{"type":"OFFERS","offers":{"offers":[{"id":{"value":"O1"},"framework_id":{"value":"F1"},"agent_id":{"value":"A1"},"hostname":"h","resources":[{"name":"cpus","type":"SCALAR","scalar":{"value":1}}]}]}}"#;

pub(crate) const UPDATE: &[u8] =
    br#"{"type":"UPDATE","update":{"status":{"task_id":{"value":"T1"},"state":"TASK_RUNNING","agent_id":{"value":"A1"},"uuid":"AAECAwQFBgcICQoLDA0ODw=="}}}"#;

/// An ACCEPT of `O1` with a task of 1 cpu, with white space.
pub(crate) const ACCEPT: &[u8] =
    br#" {"type":"ACCEPT","framework_id":{"value":"F1"},"accept":{"offer_ids":[{"value":"O1"}],"operations":[{"type":"LAUNCH","launch":{"task_infos":[{"name":"t","task_id":{"value":"T1"},"agent_id":{"value":"A1"},"resources":[{"name":"cpus","type":"SCALAR","scalar":{"value":1}}]}]}}]}}"#;

/// The canonical text of `ACCEPT`.
pub(crate) const ACCEPT_TEXT: &[u8] =
    br#"{"type":"ACCEPT","framework_id":{"value":"F1"},"accept":{"offer_ids":[{"value":"O1"}],"operations":[{"type":"LAUNCH","launch":{"task_infos":[{"name":"t","task_id":{"value":"T1"},"agent_id":{"value":"A1"},"resources":[{"name":"cpus","type":"SCALAR","scalar":{"value":1.0}}]}]}}]}}"#;

pub(crate) const ACKNOWLEDGE: &[u8] =
    br#"{"type":"ACKNOWLEDGE","framework_id":{"value":"F1"},"acknowledge":{"agent_id":{"value":"A1"},"task_id":{"value":"T1"},"uuid":"AAECAwQFBgcICQoLDA0ODw=="}}"#;

/// Returns a word for the reason.
pub(crate) fn word(why: &TextRefusal) -> &'static str {
    match why {
        TextRefusal::Fault(_) => "fault",
        TextRefusal::Refused(refusal) => name(refusal),
        TextRefusal::Unfit => "unfit",
        TextRefusal::NoRoom { .. } => "room",
        TextRefusal::Absent => "absent",
    }
}

fn name(refusal: &Refusal) -> &'static str {
    match refusal {
        Refusal::NotSubscribed => "S1",
        Refusal::NamedTwice => "S2",
        Refusal::NoSuchOffer { .. } => "S3",
        Refusal::TwoAgents => "S4",
        Refusal::WrongAgent { .. } => "S5",
        Refusal::Exceeds { .. } => "S6",
        Refusal::NotOwed => "S7",
        Refusal::NoMemory => "S8",
    }
}

/// Fails unless the result is this text.
pub(crate) fn expect_text(
    rt: &impl Abort,
    found: Result<Vec<u8>, TextRefusal>,
    expected: &[u8],
) -> Result<(), Fail> {
    match found {
        Ok(text) => {
            assert!(rt; text.as_slice() == expected);
            Ok(())
        }
        Err(why) => {
            assert_eq!(rt; word(&why), "");
            Ok(())
        }
    }
}

/// Fails unless the result is an error with this word.
pub(crate) fn expect_error<T>(
    rt: &impl Abort,
    found: Result<T, TextRefusal>,
    expected: &str,
) -> Result<(), Fail>
where
    T: Drop,
{
    match found.err() {
        None => assert_eq!(rt; "good", expected),
        Some(why) => assert_eq!(rt; word(&why), expected),
    }
    Ok(())
}
