//! The law, stated as the contract of an empty function, that lists the faults of a resource in
//! order.

ghost use Rattle.std.specs.Prelude.{◌↔◌, List};
ghost use Rattle.mes_model_schema.specs.Tree.{Tree};
ghost use Rattle.mes_model_schema.specs.Paths.{Place};
ghost use Rattle.mes_model_schema.specs.Kinds.{Breaks};
ghost use Rattle.mes_model_schema.specs.FirstRows.{OfMessage};
ghost use Rattle.mes_model_schema.specs.declared.field.FieldFault.{FieldFault};
ghost use Rattle.mes_model_resource.specs.Resources.{resource};
ghost use Rattle.mes_model_resource.specs.FirstFaults.{OfResource};

/// A resource has a fault if it is not an object, or a member in its table has a fault. The fault
/// of the first such member is reported.
pub fn resource_breaks()
    ensures { (at : List Place) (t : Tree) (f : FieldFault)
        → Breaks resource at t f ↔ OfMessage OfResource at t f }
{}
