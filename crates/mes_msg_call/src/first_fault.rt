//! The law, stated as the contract of an empty function, about the first fault of a call.

ghost use Rattle.std.specs.Prelude.{◌↔◌, List};
ghost use Rattle.mes_model_schema.specs.Tree.{Tree};
ghost use Rattle.mes_model_schema.specs.Paths.{Place};
ghost use Rattle.mes_model_schema.specs.Kinds.{Breaks};
ghost use Rattle.mes_model_schema.specs.FirstRows.{OfMessage};
ghost use Rattle.mes_model_schema.specs.declared.field.FieldFault.{FieldFault};
ghost use Rattle.mes_msg_call.specs.Calls.{call};
ghost use Rattle.mes_msg_call.specs.FirstFaults.{OfCall};

/// Proves that the first fault of a call is one of three: the JSON value is not an object, its
/// member `type` has a fault, or a later member in the table has a fault and those before it have
/// none.
pub fn call_breaks()
    // A tree at a path has first fault f, if and only if f is the first in the order of the table.
    ensures { (at : List Place) (t : Tree) (f : FieldFault)
        → Breaks call at t f ↔ OfMessage OfCall at t f }
{}
