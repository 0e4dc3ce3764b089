//! Offers of resources.

use crate::attribute::Attribute;
use mes_model_resource::{Allocation, Id, Resource};
use mes_model_schema::back::message_reads_back;
use mes_model_schema::json::{self, Element, NoMemory, Text};
use mes_model_schema::{
    ConstructFrom, List, OptionalRow, Part, PartFault, PathBuilder, RepeatedRow, RequiredRow,
    RequiredRowRef, RowList, RowRefList, Rows8, made, message_text, message_tree, pairs,
    read_message,
};
use std::alloc::Global;

/// An offer of the resources of an agent to a framework (`Offer` in mesos.proto).
#[derive(Debug, Drop)]
pub struct Offer {
    /// The identifier of the offer.
    pub id: Id,
    /// The framework that the offer is made to.
    pub framework_id: Id,
    /// The agent whose resources are offered.
    pub agent_id: Id,
    /// The hostname of the agent.
    pub hostname: Text,
    /// The resources that are offered.
    pub resources: List<Resource>,
    /// The attributes of the agent.
    pub attributes: List<Attribute>,
    /// The executors of the framework on the agent.
    pub executor_ids: List<Id>,
    /// The role that the resources are allocated to.
    pub allocation_info: Option<Allocation>,
}

const OFFER_NAMES: [&str; 8] = [
    "id",
    "framework_id",
    "agent_id",
    "hostname",
    "resources",
    "attributes",
    "executor_ids",
    "allocation_info",
];

type OfferRows = Rows8<
    RequiredRow<Id>,
    RequiredRow<Id>,
    RequiredRow<Id>,
    RequiredRow<Text>,
    RepeatedRow<Resource>,
    RepeatedRow<Attribute>,
    RepeatedRow<Id>,
    OptionalRow<Allocation>,
>;

impl ConstructFrom<<OfferRows as RowList>::Values> for Offer {
    ghost use Rattle.mes_model_offer.specs.Offers.{offer_layout};

    ghost to = { offer_layout.to };

    fn made_of(values: <OfferRows as RowList>::Values) -> Offer {
        made!(values => Offer {
            id,
            framework_id,
            agent_id,
            hostname,
            resources,
            attributes,
            executor_ids,
            allocation_info,
        })
    }
}

/// Expands to the borrowed values of the members, in the order of the table.
macro_rules! offer_rows {
    ($of:ident) => {
        pairs!(
            RequiredRowRef(&$of.id),
            RequiredRowRef(&$of.framework_id),
            RequiredRowRef(&$of.agent_id),
            RequiredRowRef(&$of.hostname),
            &$of.resources,
            &$of.attributes,
            &$of.executor_ids,
            &$of.allocation_info,
        )
    };
}

impl Part for Offer {
    ghost use Rattle.mes_model_offer.specs.Offers.{offer, lawful_offer};

    ghost kind = { offer };

    ghost STEPS = { 8 };

    const STEPS: u32 = 8;

    ghost lawful = { lawful_offer };

    #[tactic(auto, unfolding(crate::specs::Offers::offer))]
    fn read_from(
        alloc: Global,
        element: &Element<'_>,
        path: &PathBuilder<'_>,
    ) -> Result<Offer, PartFault> {
        read_message::<OfferRows, Offer, 8>(alloc, element, &OFFER_NAMES, path)
    }

    #[tactic(auto, using(crate::specs::Offers::offer_back), unfolding(crate::specs::Offers::offer))]
    fn tree(&self, alloc: Global) -> Result<json::Json, NoMemory> {
        message_tree(alloc, &OFFER_NAMES, &offer_rows!(self))
    }

    #[tactic(auto, using(crate::specs::Offers::offer_back), unfolding(crate::specs::Offers::offer))]
    fn write_json(&self, alloc: Global, out: &mut Vec<u8>) -> Result<u64, NoMemory> {
        message_text(alloc, &OFFER_NAMES, &offer_rows!(self), out)
    }

    fn copy(&self, alloc: Global) -> Result<Offer, NoMemory> {
        let values = offer_rows!(self).copy_rows(alloc)?;
        Ok(Offer::made_of(values))
    }

    #[tactic(auto, using(crate::specs::Offers::offer_back))]
    fn reads_back(&self) {
        message_reads_back(&OFFER_NAMES, &offer_rows!(self));
    }
}
