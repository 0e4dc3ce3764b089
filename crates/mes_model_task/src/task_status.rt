//! Statuses of tasks.

ghost use Rattle.std.specs.Prelude.{◌≡◌, IsTrue, ◌↔◌, IfOk};
ghost use Rattle.mes_model_task.specs.Owed.{Owes, owed_key_of};

use crate::owed_key::OwedKey;
use crate::task_state::TaskState;
use crate::time_info::TimeInfo;
use mes_model_resource::Id;
use mes_model_schema::back::message_reads_back;
use mes_model_schema::fixed::Micros;
use mes_model_schema::json::{self, Element, NoMemory, Text};
use mes_model_schema::{
    Bytes, ConstructFrom, Labels, OptionalRow, Part, PartFault, PathBuilder, RequiredRow,
    RequiredRowRef, RowList, RowRefList, Rows13, made, message_text, message_tree, pairs,
    read_message,
};
use std::alloc::Global;

/// The status of a task, as in an UPDATE event (`TaskStatus` in mesos.proto).
#[derive(Debug, Drop)]
pub struct TaskStatus {
    /// The identifier of the task.
    pub task_id: Id,
    /// The state of the task.
    pub state: TaskState,
    /// A human-readable message.
    pub message: Option<Text>,
    /// The sender of the update: the master, the agent or the executor.
    pub source: Option<Text>,
    /// The reason for the state.
    pub reason: Option<Text>,
    /// The member `data`: arbitrary bytes from the executor.
    pub payload: Option<Bytes>,
    /// The agent of the task.
    pub agent_id: Option<Id>,
    /// The executor of the task.
    pub executor_id: Option<Id>,
    /// The time of the update, in seconds with six decimals since 1970-01-01 UTC.
    pub timestamp: Option<Micros>,
    /// The uuid that an acknowledgement repeats. An update without it is not acknowledged.
    pub uuid: Option<Bytes>,
    /// The result of the task's health check.
    pub healthy: Option<bool>,
    /// Labels given to the task, which have no effect.
    pub labels: Option<Labels>,
    /// The time since which the agent of the task is unreachable.
    pub unreachable_time: Option<TimeInfo>,
}

impl TaskStatus {
    /// Returns whether the update requires an acknowledgement: the status has an agent and a uuid
    /// that is not empty. Does not allocate.
    pub fn owes(&self) -> bool
        ensures { IsTrue result ↔ Owes self.now }
    {
        match (&self.agent_id, &self.uuid) {
            (Some(_), Some(uuid)) => !uuid.is_empty(),
            _ => false,
        }
    }

    /// Returns the key of the acknowledgement that the update requires, or `None` if it requires
    /// none.
    pub fn owed_key(&self, alloc: Global) -> Result<Option<OwedKey>, NoMemory>
        ensures { IfOk result (λ key. key ≡ owed_key_of self.now) }
    {
        let (Some(agent), Some(uuid)) = (&self.agent_id, &self.uuid) else {
            return Ok(None);
        };
        if uuid.is_empty() {
            return Ok(None);
        }
        let agent = agent.copy(alloc)?;
        let task = self.task_id.copy(alloc)?;
        let uuid = uuid.copy(alloc)?;
        Ok(Some(OwedKey { agent, task, uuid }))
    }
}

const TASK_STATUS_NAMES: [&str; 13] = [
    "task_id",
    "state",
    "message",
    "source",
    "reason",
    "data",
    "agent_id",
    "executor_id",
    "timestamp",
    "uuid",
    "healthy",
    "labels",
    "unreachable_time",
];

type TaskStatusRows = Rows13<
    RequiredRow<Id>,
    RequiredRow<TaskState>,
    OptionalRow<Text>,
    OptionalRow<Text>,
    OptionalRow<Text>,
    OptionalRow<Bytes>,
    OptionalRow<Id>,
    OptionalRow<Id>,
    OptionalRow<Micros>,
    OptionalRow<Bytes>,
    OptionalRow<bool>,
    OptionalRow<Labels>,
    OptionalRow<TimeInfo>,
>;

impl ConstructFrom<<TaskStatusRows as RowList>::Values> for TaskStatus {
    ghost use Rattle.mes_model_task.specs.TaskStatuses.{task_status_layout};

    ghost to = { task_status_layout.to };

    fn made_of(values: <TaskStatusRows as RowList>::Values) -> TaskStatus {
        made!(values => TaskStatus {
            task_id,
            state,
            message,
            source,
            reason,
            payload,
            agent_id,
            executor_id,
            timestamp,
            uuid,
            healthy,
            labels,
            unreachable_time,
        })
    }
}

/// Expands to the borrowed values of the members, in the order of the table.
macro_rules! task_status_rows {
    ($of:ident) => {
        pairs!(
            RequiredRowRef(&$of.task_id),
            RequiredRowRef(&$of.state),
            &$of.message,
            &$of.source,
            &$of.reason,
            &$of.payload,
            &$of.agent_id,
            &$of.executor_id,
            &$of.timestamp,
            &$of.uuid,
            &$of.healthy,
            &$of.labels,
            &$of.unreachable_time,
        )
    };
}

impl Part for TaskStatus {
    ghost use Rattle.mes_model_task.specs.TaskStatuses.{task_status, lawful_task_status};

    ghost kind = { task_status };

    ghost STEPS = { 4 };

    const STEPS: u32 = 4;

    ghost lawful = { lawful_task_status };

    #[tactic(auto, unfolding(crate::specs::TaskStatuses::task_status))]
    fn read_from(
        alloc: Global,
        element: &Element<'_>,
        path: &PathBuilder<'_>,
    ) -> Result<TaskStatus, PartFault> {
        read_message::<TaskStatusRows, TaskStatus, 13>(alloc, element, &TASK_STATUS_NAMES, path)
    }

    #[tactic(auto, using(crate::specs::TaskStatuses::task_status_back), unfolding(crate::specs::TaskStatuses::task_status))]
    fn tree(&self, alloc: Global) -> Result<json::Json, NoMemory> {
        message_tree(alloc, &TASK_STATUS_NAMES, &task_status_rows!(self))
    }

    #[tactic(auto, using(crate::specs::TaskStatuses::task_status_back), unfolding(crate::specs::TaskStatuses::task_status))]
    fn write_json(&self, alloc: Global, out: &mut Vec<u8>) -> Result<u64, NoMemory> {
        message_text(alloc, &TASK_STATUS_NAMES, &task_status_rows!(self), out)
    }

    fn copy(&self, alloc: Global) -> Result<TaskStatus, NoMemory> {
        let values = task_status_rows!(self).copy_rows(alloc)?;
        Ok(TaskStatus::made_of(values))
    }

    #[tactic(auto, using(crate::specs::TaskStatuses::task_status_back))]
    fn reads_back(&self) {
        message_reads_back(&TASK_STATUS_NAMES, &task_status_rows!(self));
    }
}
