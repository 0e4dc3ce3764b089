//! Makes the `PartFault` of an invalid value. These functions are not inlined, because faults are
//! rare.

ghost use Rattle.std.specs.Prelude.{◌<◌, length};
ghost use Rattle.mes_model_schema.specs.Paths.{Place, IsPlace};
ghost use Rattle.mes_model_schema.specs.Fields.{below};
ghost use Rattle.mes_model_schema.specs.Choices.{type_name};
ghost use Rattle.mes_model_schema.specs.Refusals.{Reports};

use crate::boxed::BoxedFault;
use crate::field::{FieldFault, FieldFaultKind};
use crate::limits::MAX_PATH_STEPS;
use crate::part::PartFault;
use crate::path::Step;
use crate::path_builder::PathBuilder;
use std::alloc::Global;

/// Makes the fault at this path. Like the functions below, returns `PartFault::NoMemory` if the
/// allocation failed.
#[cold]
#[inline(never)]
pub fn refusal_at(alloc: Global, path: &PathBuilder<'_>, why: FieldFaultKind) -> PartFault
    ensures { Reports (record { path = path.now; why = why }) result }
{
    let path = path.path();
    reported(alloc, FieldFault { path, why })
}

/// Makes the fault of the member of this name, in the object at this path.
#[cold]
#[inline(never)]
pub(crate) fn row_refusal(
    alloc: Global,
    path: &PathBuilder<'_>,
    name: &'static str,
    why: FieldFaultKind,
) -> PartFault
    requires room { length path.now < MAX_PATH_STEPS }
    requires step { IsPlace (Place.name name.now) }
    ensures { Reports (record { path = below path.now name.now; why = why }) result }
{
    let path = path.path().with(Step::Name(name));
    reported(alloc, FieldFault { path, why })
}

/// Makes the fault of the member `type`, in the object at this path.
pub fn type_refusal(alloc: Global, path: &PathBuilder<'_>, why: FieldFaultKind) -> PartFault
    requires { length path.now < MAX_PATH_STEPS }
    ensures { Reports (record { path = below path.now type_name; why = why }) result }
{
    row_refusal(alloc, path, "type", why)
}

/// Allocates the fault, or returns `PartFault::NoMemory` if the allocation failed.
fn reported(alloc: Global, fault: FieldFault) -> PartFault
    ensures { Reports fault result }
{
    match BoxedFault::new(alloc, fault) {
        Ok(fault) => PartFault::Field(fault),
        Err(_) => PartFault::NoMemory,
    }
}
