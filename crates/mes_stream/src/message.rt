//! The messages of a stream: events, or calls.

ghost use Rattle.std.specs.Prelude.{[]};
ghost use Rattle.mes_json.specs.Tree.{Tree};
ghost use Rattle.mes_json.specs.Tokens.{BeginsWith};
ghost use Rattle.mes_model_schema.specs.Parts.{Gives};

use mes_json::Element;
use mes_model_schema::{Part, PartFault, PathBuilder};
use mes_msg::{Call, Event};
use std::alloc::Global;

/// An event or a call: what the data of a record represent.
pub trait StreamMessage: Part {
    /// Reads the message at the root of a record's JSON text, or returns its first fault.
    fn read_root(alloc: Global, root: &Element<'_>) -> Result<Self, PartFault>
        ensures { (t : Tree) → BeginsWith root.now t → Gives (Self.kind.read [] t) result };
}

impl StreamMessage for Event {
    fn read_root(alloc: Global, root: &Element<'_>) -> Result<Event, PartFault> {
        Event::read_from(alloc, root, &PathBuilder::new())
    }
}

impl StreamMessage for Call {
    fn read_root(alloc: Global, root: &Element<'_>) -> Result<Call, PartFault> {
        Call::read_from(alloc, root, &PathBuilder::new())
    }
}
