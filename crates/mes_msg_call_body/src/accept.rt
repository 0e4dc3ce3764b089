//! The body of an ACCEPT call, and the table of its members: one row for each member.

use crate::operation::Operation;
use mes_model::{Filters, Id};
use mes_model_schema::back::message_reads_back;
use mes_model_schema::json::{self, Element, NoMemory};
use mes_model_schema::{
    ConstructFrom, List, OptionalRow, Part, PartFault, PathBuilder, RepeatedRow, RowList,
    RowRefList, Rows3, made, message_text, message_tree, pairs, read_message,
};
use std::alloc::Global;

#[derive(Debug, Drop)]
pub struct Accept {
    /// The accepted offers.
    pub offer_ids: List<Id>,
    /// The operations on the resources of the offers, in order.
    pub operations: List<Operation>,
    /// The filters on later offers: when unused resources of the offers may be offered again.
    pub filters: Option<Filters>,
}

const ACCEPT_NAMES: [&str; 3] = ["offer_ids", "operations", "filters"];

type AcceptRows = Rows3<RepeatedRow<Id>, RepeatedRow<Operation>, OptionalRow<Filters>>;

impl ConstructFrom<<AcceptRows as RowList>::Values> for Accept {
    ghost use Rattle.mes_msg_call_body.specs.CallBodies.{accept_layout};

    ghost to = { accept_layout.to };

    fn made_of(values: <AcceptRows as RowList>::Values) -> Accept {
        made!(values => Accept { offer_ids, operations, filters })
    }
}

macro_rules! accept_rows {
    ($of:ident) => {
        pairs!(
            &$of.offer_ids,
            &$of.operations,
            &$of.filters,
        )
    };
}

impl Part for Accept {
    ghost use Rattle.mes_msg_call_body.specs.CallBodies.{accept, lawful_accept};

    ghost kind = { accept };

    ghost STEPS = { 13 };

    const STEPS: u32 = 13;

    ghost lawful = { lawful_accept };

    #[tactic(auto, unfolding(crate::specs::CallBodies::accept))]
    fn read_from(
        alloc: Global,
        element: &Element<'_>,
        path: &PathBuilder<'_>,
    ) -> Result<Accept, PartFault> {
        read_message::<AcceptRows, Accept, 3>(alloc, element, &ACCEPT_NAMES, path)
    }

    #[tactic(auto, using(crate::specs::CallBodies::accept_back), unfolding(crate::specs::CallBodies::accept))]
    fn tree(&self, alloc: Global) -> Result<json::Json, NoMemory> {
        message_tree(alloc, &ACCEPT_NAMES, &accept_rows!(self))
    }

    #[tactic(auto, using(crate::specs::CallBodies::accept_back), unfolding(crate::specs::CallBodies::accept))]
    fn write_json(&self, alloc: Global, out: &mut Vec<u8>) -> Result<u64, NoMemory> {
        message_text(alloc, &ACCEPT_NAMES, &accept_rows!(self), out)
    }

    fn copy(&self, alloc: Global) -> Result<Accept, NoMemory> {
        let values = accept_rows!(self).copy_rows(alloc)?;
        Ok(Accept::made_of(values))
    }

    #[tactic(auto, using(crate::specs::CallBodies::accept_back))]
    fn reads_back(&self) {
        message_reads_back(&ACCEPT_NAMES, &accept_rows!(self));
    }
}
