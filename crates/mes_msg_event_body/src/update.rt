//! The body of an UPDATE event, and the table of its members: one row for each member.

use mes_model_schema::back::message_reads_back;
use mes_model_schema::json::{self, Element, NoMemory};
use mes_model_schema::{
    Boxed, ConstructFrom, Part, PartFault, PathBuilder, RequiredRow, RequiredRowRef, RowList,
    RowRefList, Rows1, made, message_text, message_tree, pairs, read_message,
};
use mes_model_task::TaskStatus;
use std::alloc::Global;

/// The body of UPDATE (`Event.Update`): the state of a task.
#[derive(Debug, Drop)]
pub struct Update {
    /// The status of the task, boxed so that an `Event` is small.
    pub status: Boxed<TaskStatus>,
}

const UPDATE_NAMES: [&str; 1] = ["status"];

type UpdateRows = Rows1<RequiredRow<Boxed<TaskStatus>>>;

impl ConstructFrom<<UpdateRows as RowList>::Values> for Update {
    ghost use Rattle.mes_msg_event_body.specs.Bodies.{update_layout};

    ghost to = { update_layout.to };

    fn made_of(values: <UpdateRows as RowList>::Values) -> Update {
        made!(values => Update { status })
    }
}

macro_rules! update_rows {
    ($of:ident) => {
        pairs!(RequiredRowRef(&$of.status))
    };
}

impl Part for Update {
    ghost use Rattle.mes_msg_event_body.specs.Bodies.{update, lawful_update};

    ghost kind = { update };

    ghost STEPS = { 5 };

    const STEPS: u32 = 5;

    ghost lawful = { lawful_update };

    #[tactic(auto, unfolding(crate::specs::Bodies::update))]
    fn read_from(
        alloc: Global,
        element: &Element<'_>,
        path: &PathBuilder<'_>,
    ) -> Result<Update, PartFault> {
        read_message::<UpdateRows, Update, 1>(alloc, element, &UPDATE_NAMES, path)
    }

    #[tactic(auto, using(crate::specs::Bodies::update_back), unfolding(crate::specs::Bodies::update))]
    fn tree(&self, alloc: Global) -> Result<json::Json, NoMemory> {
        message_tree(alloc, &UPDATE_NAMES, &update_rows!(self))
    }

    #[tactic(auto, using(crate::specs::Bodies::update_back), unfolding(crate::specs::Bodies::update))]
    fn write_json(&self, alloc: Global, out: &mut Vec<u8>) -> Result<u64, NoMemory> {
        message_text(alloc, &UPDATE_NAMES, &update_rows!(self), out)
    }

    fn copy(&self, alloc: Global) -> Result<Update, NoMemory> {
        let values = update_rows!(self).copy_rows(alloc)?;
        Ok(Update::made_of(values))
    }

    #[tactic(auto, using(crate::specs::Bodies::update_back))]
    fn reads_back(&self) {
        message_reads_back(&UPDATE_NAMES, &update_rows!(self));
    }
}
