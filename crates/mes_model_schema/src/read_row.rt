//! Reads the member that one row describes, given what `found_rows` found under its name.
//! `write_row` and `append` write such a member.

ghost use Rattle.std.specs.Prelude.{◌≡◌, ℕ, List as list, ◌+◌, ◌≤◌, ◌<◌, length, None};
ghost use Rattle.mes_json.specs.Tree.{Tree, Members};
ghost use Rattle.mes_json.specs.Tokens.{BeginsWith};
ghost use Rattle.mes_model_schema.specs.Paths.{Place, IsPlace};
ghost use Rattle.mes_model_schema.specs.Fields.{values_named, below, single};
ghost use Rattle.mes_model_schema.specs.Leaves.{texts, left_out};
ghost use Rattle.mes_model_schema.specs.Lists.{list_of};
ghost use Rattle.mes_model_schema.specs.EitherLists.{either_list};
ghost use Rattle.mes_model_schema.specs.Rows.{required, optional, repeated, flagged};
ghost use Rattle.mes_model_schema.specs.Choices.{type_name};
ghost use Rattle.mes_model_schema.specs.FoundRows.{IsFound, IsSole};
ghost use Rattle.mes_model_schema.specs.Parts.{Gives, Shows};

use crate::field::FieldFaultKind;
use crate::found_rows::{Found, find_rows, nothing_found};
use crate::limits::MAX_PATH_STEPS;
use crate::list::List;
use crate::part::{Part, PartFault};
use crate::path::Step;
use crate::path_builder::PathBuilder;
use crate::refusal::{refusal_at, row_refusal, type_refusal};
use mes_json::Element;
use std::alloc::Global;

/// Reads a required member. Returns `Missing` if it is absent or `null`, `Twice` if it occurs
/// twice.
#[tactic(auto, unfolding(crate::specs::Rows::required, crate::specs::Fields::lookup))]
pub fn required<T: Part>(
    alloc: Global,
    found: &Found<'_>,
    name: &'static str,
    path: &PathBuilder<'_>,
) -> Result<T, PartFault>
    requires room { length path.now + 1 + T.STEPS ≤ MAX_PATH_STEPS }
    requires step { IsPlace (Place.name name.now) }
    ensures { (ms : Members) → IsFound found.now (values_named name.now ms)
        → Gives (required name.now T.kind path.now ms) result }
{
    match unique_value(found) {
        Unique::Present(value) => T::read_from(alloc, &value, &path.with(Step::Name(name))),
        Unique::Absent => Err(row_refusal(alloc, path, name, FieldFaultKind::Missing)),
        Unique::Repeated => Err(row_refusal(alloc, path, name, FieldFaultKind::Twice)),
    }
}

/// Reads an optional member: `None` if it is absent or `null`. Returns `Twice` if it occurs twice.
#[tactic(auto, unfolding(crate::specs::Rows::optional, crate::specs::Fields::lookup))]
pub fn optional<T: Part>(
    alloc: Global,
    found: &Found<'_>,
    name: &'static str,
    path: &PathBuilder<'_>,
) -> Result<Option<T>, PartFault>
    requires room { length path.now + 1 + T.STEPS ≤ MAX_PATH_STEPS }
    requires step { IsPlace (Place.name name.now) }
    ensures { (ms : Members) → IsFound found.now (values_named name.now ms)
        → Gives (optional name.now T.kind path.now ms) result }
{
    match unique_value(found) {
        Unique::Present(value) => {
            let value = T::read_from(alloc, &value, &path.with(Step::Name(name)))?;
            Ok(Some(value))
        }
        Unique::Absent => Ok(None),
        Unique::Repeated => Err(row_refusal(alloc, path, name, FieldFaultKind::Twice)),
    }
}

/// Reads the member of a list: empty if it is absent or `null`. Returns `Twice` if it occurs twice.
#[tactic(auto, unfolding(crate::specs::Rows::repeated, crate::specs::Fields::lookup))]
pub fn repeated<T: Part>(
    alloc: Global,
    found: &Found<'_>,
    name: &'static str,
    path: &PathBuilder<'_>,
) -> Result<List<T>, PartFault>
    requires room { length path.now + 2 + T.STEPS ≤ MAX_PATH_STEPS }
    requires step { IsPlace (Place.name name.now) }
    ensures { (ms : Members) → IsFound found.now (values_named name.now ms)
        → Gives (repeated name.now T.kind path.now ms) result }
{
    match unique_value(found) {
        Unique::Present(value) => read_items(alloc, &value, &path.with(Step::Name(name))),
        Unique::Absent => Ok(List::new(Vec::new(alloc))),
        Unique::Repeated => Err(row_refusal(alloc, path, name, FieldFaultKind::Twice)),
    }
}

/// Reads a flag: set if the member is an object, unset if it is absent or `null`. Returns
/// `WrongKind` for any other value, `Twice` if it occurs twice.
#[tactic(auto, using(crate::proofs::PartLemmas::refuses_told), unfolding(crate::specs::Rows::flagged, crate::specs::Fields::lookup))]
pub fn flagged(
    alloc: Global,
    found: &Found<'_>,
    name: &'static str,
    path: &PathBuilder<'_>,
) -> Result<bool, PartFault>
    requires room { length path.now < MAX_PATH_STEPS }
    requires step { IsPlace (Place.name name.now) }
    ensures { (ms : Members) → IsFound found.now (values_named name.now ms)
        → Shows (λ x. x) (flagged name.now path.now ms) result }
{
    match unique_value(found) {
        Unique::Present(value) => match value.members() {
            Some(_) => Ok(true),
            None => Err(row_refusal(alloc, path, name, FieldFaultKind::WrongKind)),
        },
        Unique::Absent => Ok(false),
        Unique::Repeated => Err(row_refusal(alloc, path, name, FieldFaultKind::Twice)),
    }
}

/// Reads the member `type`, which selects the other members of a typed value.
#[tactic(auto, using(crate::proofs::PartLemmas::refuses_told), unfolding(crate::specs::Rows::required, crate::specs::Fields::lookup, crate::specs::Leaves::texts))]
pub fn type_of<'a>(
    alloc: Global,
    found: &Found<'a>,
    path: &PathBuilder<'_>,
) -> Result<&'a str, PartFault>
    requires { length path.now < MAX_PATH_STEPS }
    ensures { (ms : Members) → IsFound found.now (values_named type_name ms)
        → Shows (λ s. s.now) (required type_name texts path.now ms) result }
{
    match unique_value(found) {
        Unique::Present(value) => match value.as_text() {
            Some(text) => Ok(text),
            None => Err(type_refusal(alloc, path, FieldFaultKind::WrongKind)),
        },
        Unique::Absent => Err(type_refusal(alloc, path, FieldFaultKind::Missing)),
        Unique::Repeated => Err(type_refusal(alloc, path, FieldFaultKind::Twice)),
    }
}

/// The most items of an array for which memory is reserved before the items are read.
const INITIAL_CAPACITY: usize = 64;

/// Reads the items of an array in order. Returns `WrongKind` if the value is not an array.
pub fn read_items<T: Part>(
    alloc: Global,
    element: &Element<'_>,
    path: &PathBuilder<'_>,
) -> Result<List<T>, PartFault>
    requires { length path.now + 1 + T.STEPS ≤ MAX_PATH_STEPS }
    ensures { (t : Tree) → BeginsWith element.now t
        → Gives ((list_of T.kind).read path.now t) result }
{
    let Some(mut items) = element.items() else {
        return Err(refusal_at(alloc, path, FieldFaultKind::WrongKind));
    };
    let mut values = Vec::with_capacity(alloc, items.count(INITIAL_CAPACITY))?;
    while let Some(item) = items.next() {
        let value = T::read_from(alloc, &item, &path.with(Step::Index(values.len() as u64)))?;
        values.push(value)?;
    }
    Ok(List::new(values))
}

/// Reads a list in either form: an object whose member `name` is the array, or the array itself.
pub fn read_either_list<T: Part>(
    alloc: Global,
    element: &Element<'_>,
    name: &'static str,
    path: &PathBuilder<'_>,
) -> Result<List<T>, PartFault>
    requires room { length path.now + 2 + T.STEPS ≤ MAX_PATH_STEPS }
    requires step { IsPlace (Place.name name.now) }
    ensures { (t : Tree) → BeginsWith element.now t
        → Gives ((either_list name.now T.kind).read path.now t) result }
{
    if element.items().is_some() {
        return read_items(alloc, element, path);
    }
    let mut found = nothing_found::<1>();
    find_rows(alloc, element, &[name], path, &mut found)?;
    repeated(alloc, &found[0], name, path)
}

/// The value of the only member of a name, if there is one.
enum Unique<'a> {
    /// No value: no member has the name, or its value is `null`.
    Absent,
    /// The value of the only member of the name, not `null`.
    Present(Element<'a>),
    /// Two or more members have the name, which is a fault.
    Repeated,
}

/// Checks an unsupported member: absent or `null`. Returns `LeftOut` for any other value, `Twice`
/// if it occurs twice.
#[tactic(auto, using(crate::proofs::PartLemmas::refuses_told), unfolding(crate::specs::Rows::optional, crate::specs::Fields::lookup, crate::specs::Leaves::left_out))]
pub fn left_out(
    alloc: Global,
    found: &Found<'_>,
    name: &'static str,
    path: &PathBuilder<'_>,
) -> Result<(), PartFault>
    requires room { length path.now < MAX_PATH_STEPS }
    requires step { IsPlace (Place.name name.now) }
    ensures { (ms : Members) → IsFound found.now (values_named name.now ms)
        → Shows (λ _. None) (optional name.now left_out path.now ms) result }
{
    match unique_value(found) {
        Unique::Present(_) => Err(row_refusal(alloc, path, name, FieldFaultKind::LeftOut)),
        Unique::Absent => Ok(()),
        Unique::Repeated => Err(row_refusal(alloc, path, name, FieldFaultKind::Twice)),
    }
}

/// Returns the value of the only member found, `Absent` if no member was found or its value is
/// `null`, or `Repeated` if two or more members were found.
#[tactic(auto, using(crate::proofs::ValueLemmas::single_none, crate::proofs::ValueLemmas::single_null, crate::proofs::ValueLemmas::single_one, crate::proofs::ValueLemmas::single_twice))]
fn unique_value<'a>(found: &Found<'a>) -> Unique<'a>
    ensures { (at : list Place) (ts : list Tree) → IsFound found.now ts
        → IsSole at (single at ts) result }
{
    match found {
        Found::Nothing => Unique::Absent,
        Found::One(value) => {
            if value.is_null() {
                Unique::Absent
            } else {
                Unique::Present(value.copy())
            }
        }
        Found::More => Unique::Repeated,
    }
}
