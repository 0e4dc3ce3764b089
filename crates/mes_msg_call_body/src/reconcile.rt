//! The body of a RECONCILE call, and the table of its members: one row for each member.

use mes_model::TaskRef;
use mes_model_schema::back::message_reads_back;
use mes_model_schema::json::{self, Element, NoMemory};
use mes_model_schema::{
    ConstructFrom, List, Part, PartFault, PathBuilder, RepeatedRow, RowList, RowRefList, Rows1,
    made, message_text, message_tree, pairs, read_message,
};
use std::alloc::Global;

/// The body of RECONCILE (`Call.Reconcile`).
#[derive(Debug, Drop)]
pub struct Reconcile {
    /// The tasks whose states are asked for. An empty list asks for all tasks of the framework.
    pub tasks: List<TaskRef>,
}

const RECONCILE_NAMES: [&str; 1] = ["tasks"];

type ReconcileRows = Rows1<RepeatedRow<TaskRef>>;

impl ConstructFrom<<ReconcileRows as RowList>::Values> for Reconcile {
    ghost use Rattle.mes_msg_call_body.specs.CallBodies.{reconcile_layout};

    ghost to = { reconcile_layout.to };

    fn made_of(values: <ReconcileRows as RowList>::Values) -> Reconcile {
        made!(values => Reconcile { tasks })
    }
}

macro_rules! reconcile_rows {
    ($of:ident) => {
        pairs!(&$of.tasks)
    };
}

impl Part for Reconcile {
    ghost use Rattle.mes_msg_call_body.specs.CallBodies.{reconcile, lawful_reconcile};

    ghost kind = { reconcile };

    ghost STEPS = { 4 };

    const STEPS: u32 = 4;

    ghost lawful = { lawful_reconcile };

    #[tactic(auto, unfolding(crate::specs::CallBodies::reconcile))]
    fn read_from(
        alloc: Global,
        element: &Element<'_>,
        path: &PathBuilder<'_>,
    ) -> Result<Reconcile, PartFault> {
        read_message::<ReconcileRows, Reconcile, 1>(alloc, element, &RECONCILE_NAMES, path)
    }

    #[tactic(auto, using(crate::specs::CallBodies::reconcile_back), unfolding(crate::specs::CallBodies::reconcile))]
    fn tree(&self, alloc: Global) -> Result<json::Json, NoMemory> {
        message_tree(alloc, &RECONCILE_NAMES, &reconcile_rows!(self))
    }

    #[tactic(auto, using(crate::specs::CallBodies::reconcile_back), unfolding(crate::specs::CallBodies::reconcile))]
    fn write_json(&self, alloc: Global, out: &mut Vec<u8>) -> Result<u64, NoMemory> {
        message_text(alloc, &RECONCILE_NAMES, &reconcile_rows!(self), out)
    }

    fn copy(&self, alloc: Global) -> Result<Reconcile, NoMemory> {
        let values = reconcile_rows!(self).copy_rows(alloc)?;
        Ok(Reconcile::made_of(values))
    }

    #[tactic(auto, using(crate::specs::CallBodies::reconcile_back))]
    fn reads_back(&self) {
        message_reads_back(&RECONCILE_NAMES, &reconcile_rows!(self));
    }
}
