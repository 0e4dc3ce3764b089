//! The body of a SUBSCRIBE call, and the table of its members: one row for each member.

use mes_model::FrameworkInfo;
use mes_model_schema::back::message_reads_back;
use mes_model_schema::json::{self, Element, NoMemory};
use mes_model_schema::{
    ConstructFrom, Part, PartFault, PathBuilder, RequiredRow, RequiredRowRef, RowList, RowRefList,
    Rows1, made, message_text, message_tree, pairs, read_message,
};
use std::alloc::Global;

/// The body of SUBSCRIBE (scheduler.proto, `Call.Subscribe`).
#[derive(Debug, Drop)]
pub struct Subscribe {
    /// The description of the framework.
    pub framework_info: FrameworkInfo,
}

const SUBSCRIBE_NAMES: [&str; 1] = ["framework_info"];

type SubscribeRows = Rows1<RequiredRow<FrameworkInfo>>;

impl ConstructFrom<<SubscribeRows as RowList>::Values> for Subscribe {
    ghost use Rattle.mes_msg_call_body.specs.CallBodies.{subscribe_layout};

    ghost to = { subscribe_layout.to };

    fn made_of(values: <SubscribeRows as RowList>::Values) -> Subscribe {
        made!(values => Subscribe { framework_info })
    }
}

macro_rules! subscribe_rows {
    ($of:ident) => {
        pairs!(RequiredRowRef(&$of.framework_info))
    };
}

impl Part for Subscribe {
    ghost use Rattle.mes_msg_call_body.specs.CallBodies.{subscribe, lawful_subscribe};

    ghost kind = { subscribe };

    ghost STEPS = { 4 };

    const STEPS: u32 = 4;

    ghost lawful = { lawful_subscribe };

    #[tactic(auto, unfolding(crate::specs::CallBodies::subscribe))]
    fn read_from(
        alloc: Global,
        element: &Element<'_>,
        path: &PathBuilder<'_>,
    ) -> Result<Subscribe, PartFault> {
        read_message::<SubscribeRows, Subscribe, 1>(alloc, element, &SUBSCRIBE_NAMES, path)
    }

    #[tactic(auto, using(crate::specs::CallBodies::subscribe_back), unfolding(crate::specs::CallBodies::subscribe))]
    fn tree(&self, alloc: Global) -> Result<json::Json, NoMemory> {
        message_tree(alloc, &SUBSCRIBE_NAMES, &subscribe_rows!(self))
    }

    #[tactic(auto, using(crate::specs::CallBodies::subscribe_back), unfolding(crate::specs::CallBodies::subscribe))]
    fn write_json(&self, alloc: Global, out: &mut Vec<u8>) -> Result<u64, NoMemory> {
        message_text(alloc, &SUBSCRIBE_NAMES, &subscribe_rows!(self), out)
    }

    fn copy(&self, alloc: Global) -> Result<Subscribe, NoMemory> {
        let values = subscribe_rows!(self).copy_rows(alloc)?;
        Ok(Subscribe::made_of(values))
    }

    #[tactic(auto, using(crate::specs::CallBodies::subscribe_back))]
    fn reads_back(&self) {
        message_reads_back(&SUBSCRIBE_NAMES, &subscribe_rows!(self));
    }
}
