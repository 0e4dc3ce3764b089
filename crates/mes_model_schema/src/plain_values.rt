//! Strings, numbers and booleans at a position of a token tape. Any other value is `WrongKind`.

ghost use Rattle.std.specs.Prelude.{◌≡◌};
ghost use Rattle.mes_json.specs.Tree.{Tree};
ghost use Rattle.mes_json.specs.Tokens.{BeginsWith};
ghost use Rattle.mes_model_schema.specs.Leaves.{text_of, number_of, boolean_of};
ghost use Rattle.mes_model_schema.specs.Parts.{Gives, Shows};

use crate::field::FieldFaultKind;
use crate::part::PartFault;
use crate::path_builder::PathBuilder;
use crate::refusal::refusal_at;
use mes_json::Element;
use std::alloc::Global;

/// Borrows the text of a string, or returns `WrongKind`.
#[tactic(auto, using(crate::proofs::PartLemmas::refuses_told))]
pub fn text_in<'a>(
    alloc: Global,
    element: &Element<'a>,
    path: &PathBuilder<'_>,
) -> Result<&'a str, PartFault>
    ensures { (t : Tree) → BeginsWith element.now t
        → Shows (λ s. s.now) (text_of path.now t) result }
{
    match element.as_text() {
        Some(text) => Ok(text),
        None => Err(refusal_at(alloc, path, FieldFaultKind::WrongKind)),
    }
}

/// Borrows the text of a number as it was written, or returns `WrongKind`.
#[tactic(auto, using(crate::proofs::PartLemmas::refuses_told))]
pub(crate) fn number_in<'a>(
    alloc: Global,
    element: &Element<'a>,
    path: &PathBuilder<'_>,
) -> Result<&'a str, PartFault>
    ensures { (t : Tree) → BeginsWith element.now t
        → Shows (λ n. n.now) (number_of path.now t) result }
{
    match element.as_number() {
        Some(number) => Ok(number),
        None => Err(refusal_at(alloc, path, FieldFaultKind::WrongKind)),
    }
}

/// Returns a boolean, or `WrongKind`.
pub(crate) fn boolean_in(
    alloc: Global,
    element: &Element<'_>,
    path: &PathBuilder<'_>,
) -> Result<bool, PartFault>
    ensures { (t : Tree) → BeginsWith element.now t → Gives (boolean_of path.now t) result }
{
    match element.as_bool() {
        Some(truth) => Ok(truth),
        None => Err(refusal_at(alloc, path, FieldFaultKind::WrongKind)),
    }
}
