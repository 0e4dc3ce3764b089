//! The body of a KILL call, and the table of its members: one row for each member.

use mes_model::Id;
use mes_model_schema::back::message_reads_back;
use mes_model_schema::json::{self, Element, NoMemory};
use mes_model_schema::{
    ConstructFrom, OptionalRow, Part, PartFault, PathBuilder, RequiredRow, RequiredRowRef, RowList,
    RowRefList, Rows2, made, message_text, message_tree, pairs, read_message,
};
use std::alloc::Global;

/// The body of KILL (`Call.Kill`).
#[derive(Debug, Drop)]
pub struct Kill {
    /// The task to kill.
    pub task_id: Id,
    /// The agent of the task, if it is known.
    pub agent_id: Option<Id>,
}

const KILL_NAMES: [&str; 2] = ["task_id", "agent_id"];

type KillRows = Rows2<RequiredRow<Id>, OptionalRow<Id>>;

impl ConstructFrom<<KillRows as RowList>::Values> for Kill {
    ghost use Rattle.mes_msg_call_body.specs.CallBodies.{kill_layout};

    ghost to = { kill_layout.to };

    fn made_of(values: <KillRows as RowList>::Values) -> Kill {
        made!(values => Kill { task_id, agent_id })
    }
}

macro_rules! kill_rows {
    ($of:ident) => {
        pairs!(
            RequiredRowRef(&$of.task_id),
            &$of.agent_id,
        )
    };
}

impl Part for Kill {
    ghost use Rattle.mes_msg_call_body.specs.CallBodies.{kill, lawful_kill};

    ghost kind = { kill };

    ghost STEPS = { 2 };

    const STEPS: u32 = 2;

    ghost lawful = { lawful_kill };

    #[tactic(auto, unfolding(crate::specs::CallBodies::kill))]
    fn read_from(
        alloc: Global,
        element: &Element<'_>,
        path: &PathBuilder<'_>,
    ) -> Result<Kill, PartFault> {
        read_message::<KillRows, Kill, 2>(alloc, element, &KILL_NAMES, path)
    }

    #[tactic(auto, using(crate::specs::CallBodies::kill_back), unfolding(crate::specs::CallBodies::kill))]
    fn tree(&self, alloc: Global) -> Result<json::Json, NoMemory> {
        message_tree(alloc, &KILL_NAMES, &kill_rows!(self))
    }

    #[tactic(auto, using(crate::specs::CallBodies::kill_back), unfolding(crate::specs::CallBodies::kill))]
    fn write_json(&self, alloc: Global, out: &mut Vec<u8>) -> Result<u64, NoMemory> {
        message_text(alloc, &KILL_NAMES, &kill_rows!(self), out)
    }

    fn copy(&self, alloc: Global) -> Result<Kill, NoMemory> {
        let values = kill_rows!(self).copy_rows(alloc)?;
        Ok(Kill::made_of(values))
    }

    #[tactic(auto, using(crate::specs::CallBodies::kill_back))]
    fn reads_back(&self) {
        message_reads_back(&KILL_NAMES, &kill_rows!(self));
    }
}
