//! A task of the cluster.
ghost use Rattle.std.specs.Prelude.{◌≡◌, IfOk};
ghost use Rattle.mes_double_cluster.specs.Stock.{same_id};
ghost use Rattle.mes_double_cluster.specs.Tasks.{launched, status_of, is_uuid_of, awaits, is_running, acknowledged, killed};

use crate::progress::Progress;
use crate::statuses::{task_update, update_uuid};
use mes_json::NoMemory;
use mes_model::{Id, TaskInfo, TaskState, TaskStatus};
use mes_model_schema::Part;
use mes_msg::Acknowledge;
use std::alloc::Global;

/// A task of the cluster.
#[derive(Drop)]
pub struct Task {
    id: Id,
    agent: Id,
    /// The number of the launch, which the offers of the task have too.
    launch: u64,
    /// How far the task is.
    pub progress: Progress,
}

impl Task {
    /// Returns a task that was just launched, in the launch with this number.
    pub fn new(alloc: Global, info: &TaskInfo, launch: u64) -> Result<Task, NoMemory>
        ensures { IfOk result (λ task. task ≡ launched launch info.now) }
    {
        Ok(Task {
            id: info.task_id.copy(alloc)?,
            agent: info.agent_id.copy(alloc)?,
            launch,
            progress: Progress::new(),
        })
    }

    /// Returns the identifier of the task.
    pub fn id(&self) -> &Id
        ensures { result.now ≡ self.now.id }
    {
        &self.id
    }

    /// Returns the identifier of the agent on which the task runs.
    pub fn agent(&self) -> &Id
        ensures { result.now ≡ self.now.agent }
    {
        &self.agent
    }

    /// Returns the number of the launch.
    pub fn launch(&self) -> u64
        ensures { result ≡ self.now.launch }
    {
        self.launch
    }

    /// Returns whether this is the task with this identifier.
    pub fn has_id(&self, id: &Id) -> bool
        ensures { result ≡ same_id self.now.id id.now }
    {
        &self.id == id
    }

    /// Returns whether this is the task with this identifier, and its last state was not reported.
    pub(crate) fn is_running(&self, id: &Id) -> bool
        ensures { result ≡ is_running id.now self.now }
    {
        self.has_id(id) && !self.progress.has_ended()
    }

    /// Returns the status with this state, in the update with the number `update`.
    pub fn status(
        &self,
        alloc: Global,
        state: TaskState,
        update: u64,
    ) -> Result<TaskStatus, NoMemory>
        ensures { IfOk result (λ status. status ≡ status_of state update self.now) }
    {
        task_update(alloc, &self.id, &self.agent, state, update)
    }

    /// Returns whether the body acknowledges the update that waits for it: whether it has the
    /// agent, the task and the uuid of the update.
    pub fn awaits(&self, body: &Acknowledge) -> bool
        ensures { result ≡ awaits body.now self.now }
    {
        self.has_id(&body.task_id)
            && self.agent == body.agent_id
            && is_uuid_of(body.uuid.as_slice(), self.progress.waiting)
    }

    /// Notes an acknowledgement, if the task awaits it.
    pub(crate) fn acknowledged(&mut self, body: &Acknowledge)
        ensures { self.new ≡ acknowledged body.now self.old }
    {
        if self.awaits(body) {
            self.progress = self.progress.acknowledged();
        }
    }

    /// Notes that the task with this identifier was killed.
    pub(crate) fn killed(&mut self, id: &Id)
        ensures { self.new ≡ killed id.now self.old }
    {
        if self.has_id(id) {
            self.progress = self.progress.killed();
        }
    }
}

/// Returns whether the uuid is that of the update with this number.
fn is_uuid_of(uuid: &[u8], update: Option<u64>) -> bool
    ensures { result ≡ is_uuid_of uuid.now update }
{
    match update {
        Some(update) => update_uuid(update).as_bytes().as_slice() == uuid,
        None => false,
    }
}
