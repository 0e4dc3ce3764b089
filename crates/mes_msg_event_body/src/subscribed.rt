//! The body of a SUBSCRIBED event, and the table of its members: one row for each member.

use mes_model_resource::Id;
use mes_model_schema::back::message_reads_back;
use mes_model_schema::fixed::Micros;
use mes_model_schema::json::{self, Element, NoMemory};
use mes_model_schema::{
    ConstructFrom, OptionalRow, Part, PartFault, PathBuilder, RequiredRow, RequiredRowRef, RowList,
    RowRefList, Rows2, made, message_text, message_tree, pairs, read_message,
};
use std::alloc::Global;

/// The body of SUBSCRIBED (scheduler.proto, `Event.Subscribed`): the framework is subscribed.
#[derive(Debug, Drop)]
pub struct Subscribed {
    /// The identifier of the framework.
    pub framework_id: Id,
    /// The master's interval between two heartbeats, in seconds with six decimal places.
    pub heartbeat_interval_seconds: Option<Micros>,
}

const SUBSCRIBED_NAMES: [&str; 2] = ["framework_id", "heartbeat_interval_seconds"];

type SubscribedRows = Rows2<RequiredRow<Id>, OptionalRow<Micros>>;

impl ConstructFrom<<SubscribedRows as RowList>::Values> for Subscribed {
    ghost use Rattle.mes_msg_event_body.specs.Bodies.{subscribed_layout};

    ghost to = { subscribed_layout.to };

    fn made_of(values: <SubscribedRows as RowList>::Values) -> Subscribed {
        made!(values => Subscribed { framework_id, heartbeat_interval_seconds })
    }
}

macro_rules! subscribed_rows {
    ($of:ident) => {
        pairs!(
            RequiredRowRef(&$of.framework_id),
            &$of.heartbeat_interval_seconds,
        )
    };
}

impl Part for Subscribed {
    ghost use Rattle.mes_msg_event_body.specs.Bodies.{subscribed, lawful_subscribed};

    ghost kind = { subscribed };

    ghost STEPS = { 2 };

    const STEPS: u32 = 2;

    ghost lawful = { lawful_subscribed };

    #[tactic(auto, unfolding(crate::specs::Bodies::subscribed))]
    fn read_from(
        alloc: Global,
        element: &Element<'_>,
        path: &PathBuilder<'_>,
    ) -> Result<Subscribed, PartFault> {
        read_message::<SubscribedRows, Subscribed, 2>(alloc, element, &SUBSCRIBED_NAMES, path)
    }

    #[tactic(auto, using(crate::specs::Bodies::subscribed_back), unfolding(crate::specs::Bodies::subscribed))]
    fn tree(&self, alloc: Global) -> Result<json::Json, NoMemory> {
        message_tree(alloc, &SUBSCRIBED_NAMES, &subscribed_rows!(self))
    }

    #[tactic(auto, using(crate::specs::Bodies::subscribed_back), unfolding(crate::specs::Bodies::subscribed))]
    fn write_json(&self, alloc: Global, out: &mut Vec<u8>) -> Result<u64, NoMemory> {
        message_text(alloc, &SUBSCRIBED_NAMES, &subscribed_rows!(self), out)
    }

    fn copy(&self, alloc: Global) -> Result<Subscribed, NoMemory> {
        let values = subscribed_rows!(self).copy_rows(alloc)?;
        Ok(Subscribed::made_of(values))
    }

    #[tactic(auto, using(crate::specs::Bodies::subscribed_back))]
    fn reads_back(&self) {
        message_reads_back(&SUBSCRIBED_NAMES, &subscribed_rows!(self));
    }
}
