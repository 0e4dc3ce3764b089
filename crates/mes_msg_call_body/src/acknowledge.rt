//! The body of an ACKNOWLEDGE call, and the table of its members: one row for each member.

use mes_model::Id;
use mes_model_schema::back::message_reads_back;
use mes_model_schema::json::{self, Element, NoMemory};
use mes_model_schema::{
    Bytes, ConstructFrom, Part, PartFault, PathBuilder, RequiredRow, RequiredRowRef, RowList,
    RowRefList, Rows3, made, message_text, message_tree, pairs, read_message,
};
use std::alloc::Global;

/// The body of ACKNOWLEDGE (`Call.Acknowledge`): which status update is acknowledged.
#[derive(Debug, Drop)]
pub struct Acknowledge {
    /// The agent that sent the status update.
    pub agent_id: Id,
    /// The task of the status update.
    pub task_id: Id,
    /// The unique identifier of the status update.
    pub uuid: Bytes,
}

const ACKNOWLEDGE_NAMES: [&str; 3] = ["agent_id", "task_id", "uuid"];

type AcknowledgeRows = Rows3<RequiredRow<Id>, RequiredRow<Id>, RequiredRow<Bytes>>;

impl ConstructFrom<<AcknowledgeRows as RowList>::Values> for Acknowledge {
    ghost use Rattle.mes_msg_call_body.specs.CallBodies.{acknowledge_layout};

    ghost to = { acknowledge_layout.to };

    fn made_of(values: <AcknowledgeRows as RowList>::Values) -> Acknowledge {
        made!(values => Acknowledge { agent_id, task_id, uuid })
    }
}

macro_rules! acknowledge_rows {
    ($of:ident) => {
        pairs!(
            RequiredRowRef(&$of.agent_id),
            RequiredRowRef(&$of.task_id),
            RequiredRowRef(&$of.uuid),
        )
    };
}

impl Part for Acknowledge {
    ghost use Rattle.mes_msg_call_body.specs.CallBodies.{acknowledge, lawful_acknowledge};

    ghost kind = { acknowledge };

    ghost STEPS = { 2 };

    const STEPS: u32 = 2;

    ghost lawful = { lawful_acknowledge };

    #[tactic(auto, unfolding(crate::specs::CallBodies::acknowledge))]
    fn read_from(
        alloc: Global,
        element: &Element<'_>,
        path: &PathBuilder<'_>,
    ) -> Result<Acknowledge, PartFault> {
        read_message::<AcknowledgeRows, Acknowledge, 3>(alloc, element, &ACKNOWLEDGE_NAMES, path)
    }

    #[tactic(auto, using(crate::specs::CallBodies::acknowledge_back), unfolding(crate::specs::CallBodies::acknowledge))]
    fn tree(&self, alloc: Global) -> Result<json::Json, NoMemory> {
        message_tree(alloc, &ACKNOWLEDGE_NAMES, &acknowledge_rows!(self))
    }

    #[tactic(auto, using(crate::specs::CallBodies::acknowledge_back), unfolding(crate::specs::CallBodies::acknowledge))]
    fn write_json(&self, alloc: Global, out: &mut Vec<u8>) -> Result<u64, NoMemory> {
        message_text(alloc, &ACKNOWLEDGE_NAMES, &acknowledge_rows!(self), out)
    }

    fn copy(&self, alloc: Global) -> Result<Acknowledge, NoMemory> {
        let values = acknowledge_rows!(self).copy_rows(alloc)?;
        Ok(Acknowledge::made_of(values))
    }

    #[tactic(auto, using(crate::specs::CallBodies::acknowledge_back))]
    fn reads_back(&self) {
        message_reads_back(&ACKNOWLEDGE_NAMES, &acknowledge_rows!(self));
    }
}
