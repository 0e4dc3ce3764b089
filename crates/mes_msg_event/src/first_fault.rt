//! The law, stated as the contract of an empty function, about the first fault of an event.

ghost use Rattle.std.specs.Prelude.{◌↔◌, List};
ghost use Rattle.mes_model_schema.specs.Tree.{Tree};
ghost use Rattle.mes_model_schema.specs.Paths.{Place};
ghost use Rattle.mes_model_schema.specs.Kinds.{Breaks};
ghost use Rattle.mes_model_schema.specs.FirstRows.{OfMessage};
ghost use Rattle.mes_model_schema.specs.declared.field.FieldFault.{FieldFault};
ghost use Rattle.mes_msg_event.specs.Events.{event};
ghost use Rattle.mes_msg_event.specs.FirstFaults.{OfEvent};

/// Proves that the first fault of an event is one of three: the JSON value is not an object, its
/// member `type` has a fault, or the member with the body of that type has a fault.
pub fn event_breaks()
    // A tree at a path has first fault f, if and only if f is the first in the order of the table.
    ensures { (at : List Place) (t : Tree) (f : FieldFault)
        → Breaks event at t f ↔ OfMessage OfEvent at t f }
{}
