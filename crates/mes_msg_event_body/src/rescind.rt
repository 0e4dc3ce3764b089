//! The body of a RESCIND event, and the table of its members: one row for each member.

use mes_model_resource::Id;
use mes_model_schema::back::message_reads_back;
use mes_model_schema::json::{self, Element, NoMemory};
use mes_model_schema::{
    ConstructFrom, Part, PartFault, PathBuilder, RequiredRow, RequiredRowRef, RowList, RowRefList,
    Rows1, made, message_text, message_tree, pairs, read_message,
};
use std::alloc::Global;

/// The body of RESCIND (`Event.Rescind`): an offer is no longer valid.
#[derive(Debug, Drop)]
pub struct Rescind {
    /// The offer that is no longer valid.
    pub offer_id: Id,
}

const RESCIND_NAMES: [&str; 1] = ["offer_id"];

type RescindRows = Rows1<RequiredRow<Id>>;

impl ConstructFrom<<RescindRows as RowList>::Values> for Rescind {
    ghost use Rattle.mes_msg_event_body.specs.Bodies.{rescind_layout};

    ghost to = { rescind_layout.to };

    fn made_of(values: <RescindRows as RowList>::Values) -> Rescind {
        made!(values => Rescind { offer_id })
    }
}

macro_rules! rescind_rows {
    ($of:ident) => {
        pairs!(RequiredRowRef(&$of.offer_id))
    };
}

impl Part for Rescind {
    ghost use Rattle.mes_msg_event_body.specs.Bodies.{rescind, lawful_rescind};

    ghost kind = { rescind };

    ghost STEPS = { 2 };

    const STEPS: u32 = 2;

    ghost lawful = { lawful_rescind };

    #[tactic(auto, unfolding(crate::specs::Bodies::rescind))]
    fn read_from(
        alloc: Global,
        element: &Element<'_>,
        path: &PathBuilder<'_>,
    ) -> Result<Rescind, PartFault> {
        read_message::<RescindRows, Rescind, 1>(alloc, element, &RESCIND_NAMES, path)
    }

    #[tactic(auto, using(crate::specs::Bodies::rescind_back), unfolding(crate::specs::Bodies::rescind))]
    fn tree(&self, alloc: Global) -> Result<json::Json, NoMemory> {
        message_tree(alloc, &RESCIND_NAMES, &rescind_rows!(self))
    }

    #[tactic(auto, using(crate::specs::Bodies::rescind_back), unfolding(crate::specs::Bodies::rescind))]
    fn write_json(&self, alloc: Global, out: &mut Vec<u8>) -> Result<u64, NoMemory> {
        message_text(alloc, &RESCIND_NAMES, &rescind_rows!(self), out)
    }

    fn copy(&self, alloc: Global) -> Result<Rescind, NoMemory> {
        let values = rescind_rows!(self).copy_rows(alloc)?;
        Ok(Rescind::made_of(values))
    }

    #[tactic(auto, using(crate::specs::Bodies::rescind_back))]
    fn reads_back(&self) {
        message_reads_back(&RESCIND_NAMES, &rescind_rows!(self));
    }
}
