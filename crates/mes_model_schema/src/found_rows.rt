//! The members of an object that the table of a message names, found in one pass over the object.

ghost use Rattle.std.specs.Prelude.{◌≡◌, true, ℕ, ◌<◌, ◌≤◌, [], length, map, bytes_eq, slice_index_or};
ghost use Rattle.std.specs.Array.{AllOfLen};
ghost use Rattle.mes_json.specs.Tree.{Tree};
ghost use Rattle.mes_json.specs.Tokens.{BeginsWith};
ghost use Rattle.mes_model_schema.specs.FoundRows.{noted, noted_if, FindsRows};
ghost use Rattle.mes_model_schema.specs.NameLaws.{distinct};
ghost use Rattle.mes_model_schema.specs.declared.found_rows.Found.TheVariants.{Nothing};

use crate::field::FieldFaultKind;
use crate::part::PartFault;
use crate::path_builder::PathBuilder;
use crate::refusal::refusal_at;
use arrayvec::ArrayVec;
use mes_json::Element;
use std::alloc::Global;

/// The members of an object that have one name.
#[derive(Drop)]
pub enum Found<'a> {
    /// No member has the name.
    Nothing,
    /// One member has the name, with this value.
    One(Element<'a>),
    /// Two or more members have the name.
    More,
}

/// The default is `Nothing`: no member has been found yet.
impl<'a> Default for Found<'a> {
    ghost use Rattle.mes_model_schema.specs.declared.found_rows.Found.TheVariants.{Nothing};

    ghost is_default = { λ f. f ≡ Nothing };

    #[inline(always)]
    fn default() -> Found<'a> {
        Found::Nothing
    }
}

impl<'a> Found<'a> {
    /// Records one more member of this entry's name.
    #[inline(always)]
    fn note(&mut self, value: &Element<'a>)
        ensures { self.new ≡ noted value.now self.old }
    {
        match self {
            Found::Nothing => *self = Found::One(value.copy()),
            Found::One(_) | Found::More => *self = Found::More,
        }
    }
}

/// Finds the members of an object that have these distinct names, in one pass. `found` has an entry
/// for each name, `Nothing` at the start. It is a parameter, so that some 500 bytes are not moved
/// as a result. Returns `WrongKind` if the element is not an object.
#[inline(always)]
pub fn find_rows<'a, const N: usize>(
    alloc: Global,
    element: &Element<'a>,
    names: &[&'static str],
    path: &PathBuilder<'_>,
    found: &mut ArrayVec<Found<'a>, N>,
) -> Result<(), PartFault>
    requires room { length names.now ≤ length found.old.items }
    requires once { distinct (map (λ n. n.now) names.now) ≡ true }
    requires nothing { (i : ℕ) → slice_index_or found.old.items i Nothing ≡ Nothing }
    ensures all { length found.new.items ≡ length found.old.items }
    ensures finds { (t : Tree) → BeginsWith element.now t
        → FindsRows (map (λ n. n.now) names.now) path.now t found.new.items result }
{
    let Some(mut members) = element.members() else {
        return Err(refusal_at(alloc, path, FieldFaultKind::WrongKind));
    };
    while let Some((name, value)) = members.next() {
        note_member(found, names, name, &value);
    }
    Ok(())
}

/// Returns N entries, each of them `Nothing`.
#[inline(always)]
pub fn nothing_found<'a, const N: usize>() -> ArrayVec<Found<'a>, N>
    ensures none { (i : ℕ) → slice_index_or result.items i Nothing ≡ Nothing }
    ensures all { length result.items ≡ N }
{
    defaults()
}

/// Fills an array with N defaults, each written once.
#[inline(always)]
fn defaults<T: Default, const N: usize>() -> ArrayVec<T, N>
    ensures { AllOfLen T.is_default result.items N }
{
    ArrayVec::from_array_in((), Default::default())
}

/// Records a member in the entry of its name, if `names` has that name.
#[inline(always)]
fn note_member<'a, const N: usize>(
    found: &mut ArrayVec<Found<'a>, N>,
    names: &[&'static str],
    name: &str,
    value: &Element<'a>,
)
    requires room { length names.now ≤ length found.old.items }
    requires once { distinct (map (λ n. n.now) names.now) ≡ true }
    ensures all { length found.new.items ≡ length found.old.items }
    ensures notes { (i : ℕ) → i < length names.now → slice_index_or found.new.items i Nothing
        ≡ noted_if (bytes_eq name.now (slice_index_or (map (λ n. n.now) names.now) i [])) value.now
        (slice_index_or found.old.items i Nothing) }
{
    for (i, row) in names.iter().enumerate() {
        if name == *row {
            found[i].note(value);
            return;
        }
    }
}
