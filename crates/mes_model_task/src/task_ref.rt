//! Tasks in a RECONCILE call.

use mes_model_resource::Id;
use mes_model_schema::back::message_reads_back;
use mes_model_schema::json::{self, Element, NoMemory};
use mes_model_schema::{
    ConstructFrom, OptionalRow, Part, PartFault, PathBuilder, RequiredRow, RequiredRowRef, RowList,
    RowRefList, Rows2, made, message_text, message_tree, pairs, read_message,
};
use std::alloc::Global;

/// A task whose state a framework asks for (`Call.Reconcile.Task` of the v1 scheduler API).
#[derive(Debug, Drop)]
pub struct TaskRef {
    /// The identifier of the task.
    pub task_id: Id,
    /// The agent of the task, if it is known.
    pub agent_id: Option<Id>,
}

const TASK_REF_NAMES: [&str; 2] = ["task_id", "agent_id"];

type TaskRefRows = Rows2<RequiredRow<Id>, OptionalRow<Id>>;

impl ConstructFrom<<TaskRefRows as RowList>::Values> for TaskRef {
    ghost use Rattle.mes_model_task.specs.Tasks.{task_ref_layout};

    ghost to = { task_ref_layout.to };

    fn made_of(values: <TaskRefRows as RowList>::Values) -> TaskRef {
        made!(values => TaskRef { task_id, agent_id })
    }
}

/// Expands to the borrowed values of the members, in the order of the table.
macro_rules! task_ref_rows {
    ($of:ident) => {
        pairs!(
            RequiredRowRef(&$of.task_id),
            &$of.agent_id,
        )
    };
}

impl Part for TaskRef {
    ghost use Rattle.mes_model_task.specs.Tasks.{task_ref, lawful_task_ref};

    ghost kind = { task_ref };

    ghost STEPS = { 2 };

    const STEPS: u32 = 2;

    ghost lawful = { lawful_task_ref };

    #[tactic(auto, unfolding(crate::specs::Tasks::task_ref))]
    fn read_from(
        alloc: Global,
        element: &Element<'_>,
        path: &PathBuilder<'_>,
    ) -> Result<TaskRef, PartFault> {
        read_message::<TaskRefRows, TaskRef, 2>(alloc, element, &TASK_REF_NAMES, path)
    }

    #[tactic(auto, using(crate::specs::Tasks::task_ref_back), unfolding(crate::specs::Tasks::task_ref))]
    fn tree(&self, alloc: Global) -> Result<json::Json, NoMemory> {
        message_tree(alloc, &TASK_REF_NAMES, &task_ref_rows!(self))
    }

    #[tactic(auto, using(crate::specs::Tasks::task_ref_back), unfolding(crate::specs::Tasks::task_ref))]
    fn write_json(&self, alloc: Global, out: &mut Vec<u8>) -> Result<u64, NoMemory> {
        message_text(alloc, &TASK_REF_NAMES, &task_ref_rows!(self), out)
    }

    fn copy(&self, alloc: Global) -> Result<TaskRef, NoMemory> {
        let values = task_ref_rows!(self).copy_rows(alloc)?;
        Ok(TaskRef::made_of(values))
    }

    #[tactic(auto, using(crate::specs::Tasks::task_ref_back))]
    fn reads_back(&self) {
        message_reads_back(&TASK_REF_NAMES, &task_ref_rows!(self));
    }
}
