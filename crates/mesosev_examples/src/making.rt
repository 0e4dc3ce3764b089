//! Functions with which a session makes a call like a given call.

use mes_model::{OwedKey, Part, TaskInfo};
use mes_msg::{
    Accept, Acknowledge, Call, Decline, Kill, Message, Operation, Reconcile, Shutdown, Subscribe,
};
use mes_session::{Refusal, Session};
use std::alloc::Global;

/// Has the session make a call with the values of `call`.
pub(crate) fn make(alloc: Global, session: &mut Session, call: &Call) -> Result<Call, Refusal> {
    match call {
        Call::Subscribe { body, .. } => subscribe(session, body),
        Call::Accept { body, .. } => accept(session, body),
        Call::Decline { body, .. } => decline(session, body),
        Call::Revive { .. } => session.revive(),
        Call::Kill { body, .. } => kill(session, body),
        Call::Acknowledge { body, .. } => acknowledge(alloc, session, body),
        Call::Reconcile { body, .. } => reconcile(session, body),
        Call::Teardown { .. } => session.teardown(),
        Call::Suppress { .. } => session.suppress(),
        Call::Shutdown { body, .. } => shutdown(session, body),
        Call::Message { body, .. } => message(session, body),
    }
}

fn subscribe(session: &mut Session, body: &Subscribe) -> Result<Call, Refusal> {
    session.subscribe(&body.framework_info)
}

fn accept(session: &mut Session, body: &Accept) -> Result<Call, Refusal> {
    let ids = body.offer_ids.as_slice();
    session.accept(ids, tasks_of(body), body.filters.as_ref())
}

// Returns the tasks of the ACCEPT's first operation, if any.
fn tasks_of(body: &Accept) -> &[TaskInfo] {
    match body.operations.as_slice().first() {
        Some(Operation::Launch { task_infos }) => task_infos.as_slice(),
        None => &[],
    }
}

fn decline(session: &mut Session, body: &Decline) -> Result<Call, Refusal> {
    session.decline(body.offer_ids.as_slice(), body.filters.as_ref())
}

fn kill(session: &mut Session, body: &Kill) -> Result<Call, Refusal> {
    session.kill(&body.task_id, body.agent_id.as_ref())
}

fn acknowledge(alloc: Global, session: &mut Session, body: &Acknowledge) -> Result<Call, Refusal> {
    let key = key_of(alloc, body)?;
    session.acknowledge(&key)
}

fn key_of(alloc: Global, body: &Acknowledge) -> Result<OwedKey, Refusal> {
    let agent = body.agent_id.copy(alloc)?;
    let task = body.task_id.copy(alloc)?;
    let uuid = body.uuid.copy(alloc)?;
    Ok(OwedKey { agent, task, uuid })
}

fn reconcile(session: &mut Session, body: &Reconcile) -> Result<Call, Refusal> {
    session.reconcile(body.tasks.as_slice())
}

fn shutdown(session: &mut Session, body: &Shutdown) -> Result<Call, Refusal> {
    session.shutdown(&body.executor_id, &body.agent_id)
}

fn message(session: &mut Session, body: &Message) -> Result<Call, Refusal> {
    session.message(&body.agent_id, &body.executor_id, body.payload.as_slice())
}
