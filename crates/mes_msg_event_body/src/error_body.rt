//! The body of an ERROR event, and the table of its members: one row for each member.

use mes_model_schema::back::message_reads_back;
use mes_model_schema::json::{self, Element, NoMemory, Text};
use mes_model_schema::{
    ConstructFrom, Part, PartFault, PathBuilder, RequiredRow, RequiredRowRef, RowList, RowRefList,
    Rows1, made, message_text, message_tree, pairs, read_message,
};
use std::alloc::Global;

/// The body of ERROR (`Event.Error`): the master no longer serves the framework.
#[derive(Debug, Drop)]
pub struct ErrorBody {
    /// The reason that the master gives.
    pub message: Text,
}

const ERROR_BODY_NAMES: [&str; 1] = ["message"];

type ErrorBodyRows = Rows1<RequiredRow<Text>>;

impl ConstructFrom<<ErrorBodyRows as RowList>::Values> for ErrorBody {
    ghost use Rattle.mes_msg_event_body.specs.Bodies.{error_body_layout};

    ghost to = { error_body_layout.to };

    fn made_of(values: <ErrorBodyRows as RowList>::Values) -> ErrorBody {
        made!(values => ErrorBody { message })
    }
}

macro_rules! error_body_rows {
    ($of:ident) => {
        pairs!(RequiredRowRef(&$of.message))
    };
}

impl Part for ErrorBody {
    ghost use Rattle.mes_msg_event_body.specs.Bodies.{error_body, lawful_error_body};

    ghost kind = { error_body };

    ghost STEPS = { 1 };

    const STEPS: u32 = 1;

    ghost lawful = { lawful_error_body };

    #[tactic(auto, unfolding(crate::specs::Bodies::error_body))]
    fn read_from(
        alloc: Global,
        element: &Element<'_>,
        path: &PathBuilder<'_>,
    ) -> Result<ErrorBody, PartFault> {
        read_message::<ErrorBodyRows, ErrorBody, 1>(alloc, element, &ERROR_BODY_NAMES, path)
    }

    #[tactic(auto, using(crate::specs::Bodies::error_body_back), unfolding(crate::specs::Bodies::error_body))]
    fn tree(&self, alloc: Global) -> Result<json::Json, NoMemory> {
        message_tree(alloc, &ERROR_BODY_NAMES, &error_body_rows!(self))
    }

    #[tactic(auto, using(crate::specs::Bodies::error_body_back), unfolding(crate::specs::Bodies::error_body))]
    fn write_json(&self, alloc: Global, out: &mut Vec<u8>) -> Result<u64, NoMemory> {
        message_text(alloc, &ERROR_BODY_NAMES, &error_body_rows!(self), out)
    }

    fn copy(&self, alloc: Global) -> Result<ErrorBody, NoMemory> {
        let values = error_body_rows!(self).copy_rows(alloc)?;
        Ok(ErrorBody::made_of(values))
    }

    #[tactic(auto, using(crate::specs::Bodies::error_body_back))]
    fn reads_back(&self) {
        message_reads_back(&ERROR_BODY_NAMES, &error_body_rows!(self));
    }
}
