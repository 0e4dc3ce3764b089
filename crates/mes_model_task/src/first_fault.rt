//! The laws, stated as contracts of empty functions, that list the faults of states and statuses in
//! order.

ghost use Rattle.std.specs.Prelude.{◌↔◌, List};
ghost use Rattle.mes_model_schema.specs.Tree.{Tree};
ghost use Rattle.mes_model_schema.specs.Paths.{Place};
ghost use Rattle.mes_model_schema.specs.Kinds.{Breaks};
ghost use Rattle.mes_model_schema.specs.FirstFaults.{IsString, ValueBreaks};
ghost use Rattle.mes_model_schema.specs.FirstRows.{OfMessage};
ghost use Rattle.mes_model_schema.specs.declared.field.FieldFault.{FieldFault};
ghost use Rattle.mes_model_schema.specs.declared.field.FieldFaultKind.TheVariants.{UnknownName};
ghost use Rattle.mes_model_task.specs.FirstFaults.{OfStatus};
ghost use Rattle.mes_model_task.specs.TaskStates.{states};
ghost use Rattle.mes_model_task.specs.TaskStatuses.{task_status};

/// A state has a fault if it is not a string (`WrongKind`), or not the name of a state
/// (`UnknownName`).
pub fn state_breaks()
    ensures { (at : List Place) (t : Tree) (f : FieldFault)
        → Breaks states at t f ↔ ValueBreaks IsString UnknownName states at t f }
{}

/// A status has a fault if it is not an object, or a member in its table has a fault. The fault of
/// the first such member is reported.
pub fn task_status_breaks()
    ensures { (at : List Place) (t : Tree) (f : FieldFault)
        → Breaks task_status at t f ↔ OfMessage OfStatus at t f }
{}
