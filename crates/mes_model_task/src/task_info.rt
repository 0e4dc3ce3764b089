//! Tasks to launch.

use crate::command::Command;
use mes_model_resource::{Id, Resource};
use mes_model_schema::back::message_reads_back;
use mes_model_schema::json::{self, Element, NoMemory, Text};
use mes_model_schema::{
    ConstructFrom, Kept, List, OptionalRow, Part, PartFault, PathBuilder, RepeatedRow, RequiredRow,
    RequiredRowRef, RowList, RowRefList, Rows6, made, message_text, message_tree, pairs,
    read_message,
};
use std::alloc::Global;

/// A task that a framework launches (`TaskInfo` in mesos.proto).
#[derive(Debug, Drop)]
pub struct TaskInfo {
    /// The name of the task.
    pub name: Text,
    /// The identifier of the task.
    pub task_id: Id,
    /// The agent to run the task on.
    pub agent_id: Id,
    /// The resources that the task uses.
    pub resources: List<Resource>,
    /// The command to run, if there is no executor.
    pub command: Option<Command>,
    /// The executor that runs the task: a JSON object that is retained with all its members.
    pub executor: Option<Kept>,
}

const TASK_INFO_NAMES: [&str; 6] = [
    "name",
    "task_id",
    "agent_id",
    "resources",
    "command",
    "executor",
];

type TaskInfoRows = Rows6<
    RequiredRow<Text>,
    RequiredRow<Id>,
    RequiredRow<Id>,
    RepeatedRow<Resource>,
    OptionalRow<Command>,
    OptionalRow<Kept>,
>;

impl ConstructFrom<<TaskInfoRows as RowList>::Values> for TaskInfo {
    ghost use Rattle.mes_model_task.specs.Tasks.{task_info_layout};

    ghost to = { task_info_layout.to };

    fn made_of(values: <TaskInfoRows as RowList>::Values) -> TaskInfo {
        made!(values => TaskInfo { name, task_id, agent_id, resources, command, executor })
    }
}

/// Expands to the borrowed values of the members, in the order of the table.
macro_rules! task_info_rows {
    ($of:ident) => {
        pairs!(
            RequiredRowRef(&$of.name),
            RequiredRowRef(&$of.task_id),
            RequiredRowRef(&$of.agent_id),
            &$of.resources,
            &$of.command,
            &$of.executor,
        )
    };
}

impl Part for TaskInfo {
    ghost use Rattle.mes_model_task.specs.Tasks.{task_info, lawful_task_info};

    ghost kind = { task_info };

    ghost STEPS = { 8 };

    const STEPS: u32 = 8;

    ghost lawful = { lawful_task_info };

    #[tactic(auto, unfolding(crate::specs::Tasks::task_info))]
    fn read_from(
        alloc: Global,
        element: &Element<'_>,
        path: &PathBuilder<'_>,
    ) -> Result<TaskInfo, PartFault> {
        read_message::<TaskInfoRows, TaskInfo, 6>(alloc, element, &TASK_INFO_NAMES, path)
    }

    #[tactic(auto, using(crate::specs::Tasks::task_info_back), unfolding(crate::specs::Tasks::task_info))]
    fn tree(&self, alloc: Global) -> Result<json::Json, NoMemory> {
        message_tree(alloc, &TASK_INFO_NAMES, &task_info_rows!(self))
    }

    #[tactic(auto, using(crate::specs::Tasks::task_info_back), unfolding(crate::specs::Tasks::task_info))]
    fn write_json(&self, alloc: Global, out: &mut Vec<u8>) -> Result<u64, NoMemory> {
        message_text(alloc, &TASK_INFO_NAMES, &task_info_rows!(self), out)
    }

    fn copy(&self, alloc: Global) -> Result<TaskInfo, NoMemory> {
        let values = task_info_rows!(self).copy_rows(alloc)?;
        Ok(TaskInfo::made_of(values))
    }

    #[tactic(auto, using(crate::specs::Tasks::task_info_back))]
    fn reads_back(&self) {
        message_reads_back(&TASK_INFO_NAMES, &task_info_rows!(self));
    }
}
