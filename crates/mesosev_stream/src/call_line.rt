//! Prints a call as a line.

ghost use Rattle.std.specs.Prelude.{◌≡◌, ◌++◌, IfOk};
ghost use Rattle.mes_msg.specs.ShowLines.{spaced};
ghost use Rattle.mesosev_stream.specs.CallLines.{acknowledge_words, call_line, call_words, reconcile_words};

use itoa::Buffer;
use mes_model_schema::json::NoMemory;
use mes_msg::{Acknowledge, Call, Reconcile};
use mes_msg_event::{put_id, put_number, put_uuid, put_word};

/// Appends the printed line of the call with this number, with its LF.
///
/// Errors: `NoMemory` if an allocation fails; part of the line may then have been appended.
pub(crate) fn push_call_line(call: &Call, number: u64, text: &mut Vec<u8>) -> Result<(), NoMemory>
    ensures { IfOk result (λ _. text.new.items ≡ text.old.items ++ call_line number call.now) }
{
    text.extend_from_slice(Buffer::new().format(number).as_bytes())?;
    put_call(call, text)?;
    text.extend_from_slice(b"\n")?;
    Ok(())
}

fn put_call(call: &Call, line: &mut Vec<u8>) -> Result<(), NoMemory>
    ensures { IfOk result (λ _. line.new.items ≡ line.old.items ++ spaced (call_words call.now)) }
{
    match call {
        Call::Subscribe { framework_id, .. } => {
            put_word("SUBSCRIBE", line)?;
            match framework_id {
                Some(id) => put_id(id, line),
                None => put_word("-", line),
            }
        }
        Call::Accept { body, .. } => {
            put_word("ACCEPT", line)?;
            put_number(body.offer_ids.len() as u64, line)?;
            put_number(body.operations.len() as u64, line)
        }
        Call::Decline { body, .. } => {
            put_word("DECLINE", line)?;
            put_number(body.offer_ids.len() as u64, line)
        }
        Call::Revive { .. } => put_word("REVIVE", line),
        Call::Kill { body, .. } => {
            put_word("KILL", line)?;
            put_id(&body.task_id, line)
        }
        Call::Acknowledge { body, .. } => put_acknowledge(body, line),
        Call::Reconcile { body, .. } => put_reconcile(body, line),
        Call::Teardown { .. } => put_word("TEARDOWN", line),
        Call::Suppress { .. } => put_word("SUPPRESS", line),
        Call::Shutdown { body, .. } => {
            put_word("SHUTDOWN", line)?;
            put_id(&body.executor_id, line)?;
            put_id(&body.agent_id, line)
        }
        Call::Message { body, .. } => {
            put_word("MESSAGE", line)?;
            put_id(&body.agent_id, line)?;
            put_id(&body.executor_id, line)?;
            put_number(body.payload.len() as u64, line)
        }
    }
}

fn put_acknowledge(body: &Acknowledge, line: &mut Vec<u8>) -> Result<(), NoMemory>
    ensures { IfOk result (λ _. line.new.items
        ≡ line.old.items ++ spaced (acknowledge_words body.now)) }
{
    put_word("ACKNOWLEDGE", line)?;
    put_id(&body.task_id, line)?;
    put_uuid(body.uuid.as_slice(), line)
}

fn put_reconcile(body: &Reconcile, line: &mut Vec<u8>) -> Result<(), NoMemory>
    ensures { IfOk result (λ _. line.new.items
        ≡ line.old.items ++ spaced (reconcile_words body.now)) }
{
    put_word("RECONCILE", line)?;
    put_number(body.tasks.len() as u64, line)
}
