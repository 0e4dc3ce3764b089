//! The body of a MESSAGE event or call. The table of its members is in specs/Messages.antt.

use mes_model_resource::Id;
use mes_model_schema::back::message_reads_back;
use mes_model_schema::json::{self, Element, NoMemory};
use mes_model_schema::{
    Bytes, ConstructFrom, Part, PartFault, PathBuilder, RequiredRow, RequiredRowRef, RowList,
    RowRefList, Rows3, made, message_text, message_tree, pairs, read_message,
};
use std::alloc::Global;

/// Bytes from an executor to the framework (scheduler.proto, `Event.Message`) or from the framework
/// to an executor (`Call.Message`).
#[derive(Debug, Drop)]
pub struct Message {
    /// The agent of the executor.
    pub agent_id: Id,
    /// The executor that sends or receives the bytes.
    pub executor_id: Id,
    /// The bytes, which Mesos does not interpret. In JSON they are the base64 member `data`.
    pub payload: Bytes,
}

const MESSAGE_NAMES: [&str; 3] = ["agent_id", "executor_id", "data"];

type MessageRows = Rows3<RequiredRow<Id>, RequiredRow<Id>, RequiredRow<Bytes>>;

impl ConstructFrom<<MessageRows as RowList>::Values> for Message {
    ghost use Rattle.mes_msg_record.specs.Messages.{message_body_layout};

    ghost to = { message_body_layout.to };

    fn made_of(values: <MessageRows as RowList>::Values) -> Message {
        made!(values => Message { agent_id, executor_id, payload })
    }
}

macro_rules! message_rows {
    ($of:ident) => {
        pairs!(
            RequiredRowRef(&$of.agent_id),
            RequiredRowRef(&$of.executor_id),
            RequiredRowRef(&$of.payload),
        )
    };
}

impl Part for Message {
    ghost use Rattle.mes_msg_record.specs.Messages.{message_body, lawful_message_body};

    ghost kind = { message_body };

    ghost STEPS = { 2 };

    const STEPS: u32 = 2;

    ghost lawful = { lawful_message_body };

    #[tactic(auto, unfolding(crate::specs::Messages::message_body))]
    fn read_from(
        alloc: Global,
        element: &Element<'_>,
        path: &PathBuilder<'_>,
    ) -> Result<Message, PartFault> {
        read_message::<MessageRows, Message, 3>(alloc, element, &MESSAGE_NAMES, path)
    }

    #[tactic(auto, using(crate::specs::Messages::message_body_back), unfolding(crate::specs::Messages::message_body))]
    fn tree(&self, alloc: Global) -> Result<json::Json, NoMemory> {
        message_tree(alloc, &MESSAGE_NAMES, &message_rows!(self))
    }

    #[tactic(auto, using(crate::specs::Messages::message_body_back), unfolding(crate::specs::Messages::message_body))]
    fn write_json(&self, alloc: Global, out: &mut Vec<u8>) -> Result<u64, NoMemory> {
        message_text(alloc, &MESSAGE_NAMES, &message_rows!(self), out)
    }

    fn copy(&self, alloc: Global) -> Result<Message, NoMemory> {
        let values = message_rows!(self).copy_rows(alloc)?;
        Ok(Message::made_of(values))
    }

    #[tactic(auto, using(crate::specs::Messages::message_body_back))]
    fn reads_back(&self) {
        message_reads_back(&MESSAGE_NAMES, &message_rows!(self));
    }
}
