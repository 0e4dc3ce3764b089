//! The body of a DECLINE call, and the table of its members: one row for each member.

use mes_model::{Filters, Id};
use mes_model_schema::back::message_reads_back;
use mes_model_schema::json::{self, Element, NoMemory};
use mes_model_schema::{
    ConstructFrom, List, OptionalRow, Part, PartFault, PathBuilder, RepeatedRow, RowList,
    RowRefList, Rows2, made, message_text, message_tree, pairs, read_message,
};
use std::alloc::Global;

/// The body of DECLINE (`Call.Decline`).
#[derive(Debug, Drop)]
pub struct Decline {
    /// The declined offers.
    pub offer_ids: List<Id>,
    /// The filters on later offers: when the declined resources may be offered again.
    pub filters: Option<Filters>,
}

const DECLINE_NAMES: [&str; 2] = ["offer_ids", "filters"];

type DeclineRows = Rows2<RepeatedRow<Id>, OptionalRow<Filters>>;

impl ConstructFrom<<DeclineRows as RowList>::Values> for Decline {
    ghost use Rattle.mes_msg_call_body.specs.CallBodies.{decline_layout};

    ghost to = { decline_layout.to };

    fn made_of(values: <DeclineRows as RowList>::Values) -> Decline {
        made!(values => Decline { offer_ids, filters })
    }
}

macro_rules! decline_rows {
    ($of:ident) => {
        pairs!(
            &$of.offer_ids,
            &$of.filters,
        )
    };
}

impl Part for Decline {
    ghost use Rattle.mes_msg_call_body.specs.CallBodies.{decline, lawful_decline};

    ghost kind = { decline };

    ghost STEPS = { 3 };

    const STEPS: u32 = 3;

    ghost lawful = { lawful_decline };

    #[tactic(auto, unfolding(crate::specs::CallBodies::decline))]
    fn read_from(
        alloc: Global,
        element: &Element<'_>,
        path: &PathBuilder<'_>,
    ) -> Result<Decline, PartFault> {
        read_message::<DeclineRows, Decline, 2>(alloc, element, &DECLINE_NAMES, path)
    }

    #[tactic(auto, using(crate::specs::CallBodies::decline_back), unfolding(crate::specs::CallBodies::decline))]
    fn tree(&self, alloc: Global) -> Result<json::Json, NoMemory> {
        message_tree(alloc, &DECLINE_NAMES, &decline_rows!(self))
    }

    #[tactic(auto, using(crate::specs::CallBodies::decline_back), unfolding(crate::specs::CallBodies::decline))]
    fn write_json(&self, alloc: Global, out: &mut Vec<u8>) -> Result<u64, NoMemory> {
        message_text(alloc, &DECLINE_NAMES, &decline_rows!(self), out)
    }

    fn copy(&self, alloc: Global) -> Result<Decline, NoMemory> {
        let values = decline_rows!(self).copy_rows(alloc)?;
        Ok(Decline::made_of(values))
    }

    #[tactic(auto, using(crate::specs::CallBodies::decline_back))]
    fn reads_back(&self) {
        message_reads_back(&DECLINE_NAMES, &decline_rows!(self));
    }
}
