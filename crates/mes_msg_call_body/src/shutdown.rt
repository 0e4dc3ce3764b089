//! The body of a SHUTDOWN call, and the table of its members: one row for each member.

use mes_model::Id;
use mes_model_schema::back::message_reads_back;
use mes_model_schema::json::{self, Element, NoMemory};
use mes_model_schema::{
    ConstructFrom, Part, PartFault, PathBuilder, RequiredRow, RequiredRowRef, RowList, RowRefList,
    Rows2, made, message_text, message_tree, pairs, read_message,
};
use std::alloc::Global;

/// The body of SHUTDOWN (`Call.Shutdown`).
#[derive(Debug, Drop)]
pub struct Shutdown {
    /// The executor to shut down.
    pub executor_id: Id,
    /// The agent of the executor.
    pub agent_id: Id,
}

const SHUTDOWN_NAMES: [&str; 2] = ["executor_id", "agent_id"];

type ShutdownRows = Rows2<RequiredRow<Id>, RequiredRow<Id>>;

impl ConstructFrom<<ShutdownRows as RowList>::Values> for Shutdown {
    ghost use Rattle.mes_msg_call_body.specs.CallBodies.{shutdown_layout};

    ghost to = { shutdown_layout.to };

    fn made_of(values: <ShutdownRows as RowList>::Values) -> Shutdown {
        made!(values => Shutdown { executor_id, agent_id })
    }
}

macro_rules! shutdown_rows {
    ($of:ident) => {
        pairs!(RequiredRowRef(&$of.executor_id), RequiredRowRef(&$of.agent_id))
    };
}

impl Part for Shutdown {
    ghost use Rattle.mes_msg_call_body.specs.CallBodies.{shutdown, lawful_shutdown};

    ghost kind = { shutdown };

    ghost STEPS = { 2 };

    const STEPS: u32 = 2;

    ghost lawful = { lawful_shutdown };

    #[tactic(auto, unfolding(crate::specs::CallBodies::shutdown))]
    fn read_from(
        alloc: Global,
        element: &Element<'_>,
        path: &PathBuilder<'_>,
    ) -> Result<Shutdown, PartFault> {
        read_message::<ShutdownRows, Shutdown, 2>(alloc, element, &SHUTDOWN_NAMES, path)
    }

    #[tactic(auto, using(crate::specs::CallBodies::shutdown_back), unfolding(crate::specs::CallBodies::shutdown))]
    fn tree(&self, alloc: Global) -> Result<json::Json, NoMemory> {
        message_tree(alloc, &SHUTDOWN_NAMES, &shutdown_rows!(self))
    }

    #[tactic(auto, using(crate::specs::CallBodies::shutdown_back), unfolding(crate::specs::CallBodies::shutdown))]
    fn write_json(&self, alloc: Global, out: &mut Vec<u8>) -> Result<u64, NoMemory> {
        message_text(alloc, &SHUTDOWN_NAMES, &shutdown_rows!(self), out)
    }

    fn copy(&self, alloc: Global) -> Result<Shutdown, NoMemory> {
        let values = shutdown_rows!(self).copy_rows(alloc)?;
        Ok(Shutdown::made_of(values))
    }

    #[tactic(auto, using(crate::specs::CallBodies::shutdown_back))]
    fn reads_back(&self) {
        message_reads_back(&SHUTDOWN_NAMES, &shutdown_rows!(self));
    }
}
