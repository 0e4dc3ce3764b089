//! The body of a FAILURE event, and the table of its members: one row for each member.

use mes_model_resource::Id;
use mes_model_schema::back::message_reads_back;
use mes_model_schema::json::{self, Element, NoMemory};
use mes_model_schema::{
    ConstructFrom, OptionalRow, Part, PartFault, PathBuilder, RowList, RowRefList, Rows3, made,
    message_text, message_tree, pairs, read_message,
};
use std::alloc::Global;

/// The body of FAILURE (`Event.Failure`): an agent or an executor is lost.
#[derive(Debug, Drop)]
pub struct Failure {
    /// The agent that is lost, or the agent of the lost executor.
    pub agent_id: Option<Id>,
    /// The lost executor, if only an executor is lost.
    pub executor_id: Option<Id>,
    /// The exit status of the lost executor.
    pub status: Option<i32>,
}

const FAILURE_NAMES: [&str; 3] = ["agent_id", "executor_id", "status"];

type FailureRows = Rows3<OptionalRow<Id>, OptionalRow<Id>, OptionalRow<i32>>;

impl ConstructFrom<<FailureRows as RowList>::Values> for Failure {
    ghost use Rattle.mes_msg_event_body.specs.Bodies.{failure_layout};

    ghost to = { failure_layout.to };

    fn made_of(values: <FailureRows as RowList>::Values) -> Failure {
        made!(values => Failure { agent_id, executor_id, status })
    }
}

macro_rules! failure_rows {
    ($of:ident) => {
        pairs!(
            &$of.agent_id,
            &$of.executor_id,
            &$of.status,
        )
    };
}

impl Part for Failure {
    ghost use Rattle.mes_msg_event_body.specs.Bodies.{failure, lawful_failure};

    ghost kind = { failure };

    ghost STEPS = { 2 };

    const STEPS: u32 = 2;

    ghost lawful = { lawful_failure };

    #[tactic(auto, unfolding(crate::specs::Bodies::failure))]
    fn read_from(
        alloc: Global,
        element: &Element<'_>,
        path: &PathBuilder<'_>,
    ) -> Result<Failure, PartFault> {
        read_message::<FailureRows, Failure, 3>(alloc, element, &FAILURE_NAMES, path)
    }

    #[tactic(auto, using(crate::specs::Bodies::failure_back), unfolding(crate::specs::Bodies::failure))]
    fn tree(&self, alloc: Global) -> Result<json::Json, NoMemory> {
        message_tree(alloc, &FAILURE_NAMES, &failure_rows!(self))
    }

    #[tactic(auto, using(crate::specs::Bodies::failure_back), unfolding(crate::specs::Bodies::failure))]
    fn write_json(&self, alloc: Global, out: &mut Vec<u8>) -> Result<u64, NoMemory> {
        message_text(alloc, &FAILURE_NAMES, &failure_rows!(self), out)
    }

    fn copy(&self, alloc: Global) -> Result<Failure, NoMemory> {
        let values = failure_rows!(self).copy_rows(alloc)?;
        Ok(Failure::made_of(values))
    }

    #[tactic(auto, using(crate::specs::Bodies::failure_back))]
    fn reads_back(&self) {
        message_reads_back(&FAILURE_NAMES, &failure_rows!(self));
    }
}
