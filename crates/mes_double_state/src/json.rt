//! JSON arrays, and members of JSON objects.
ghost use Rattle.std.specs.Prelude.{◌≡◌, ◌∷◌, ◌++◌, [], map, IfOk, OnOk};
ghost use Rattle.mes_json.specs.Tree.{Tree};
ghost use Rattle.mes_json.specs.Tree.Tree.{string, array};
ghost use Rattle.mes_json.specs.View.{view, items_of};
ghost use Rattle.mes_model_schema.specs.Written.{pairs_view};
ghost use Rattle.mes_double_state.specs.States.{number_or_null};

use mes_json::{Json, NoMemory, Text};
use mes_model_schema::Part;
use std::alloc::Global;

/// A value with a JSON tree.
pub(crate) trait ToJson {
    /// The tree of a value.
    ghost tree: { Self → Tree };

    /// Returns the JSON value of the tree.
    fn to_json(&self, alloc: Global) -> Result<Json, NoMemory>
        ensures { IfOk result (λ json. view json ≡ tree self.now) };
}

/// Returns the JSON array of the values.
pub(crate) fn array_json<T: ToJson>(alloc: Global, values: &[T]) -> Result<Json, NoMemory>
    ensures { IfOk result (λ json. view json ≡ array (items_of (map T.tree values.now))) }
{
    let mut trees = Vec::new(alloc);
    for value in values {
        trees.push(value.to_json(alloc)?)?;
    }
    Ok(Json::List(trees))
}

/// Returns the JSON string of a text.
#[tactic(auto, using(mes_json::specs::declared::value::Json::the_lemmas))]
pub(crate) fn text_json(alloc: Global, text: &str) -> Result<Json, NoMemory>
    ensures { IfOk result (λ json. view json ≡ string text.now) }
{
    Ok(Json::Text(Text::of(alloc, text)?))
}

/// Returns the JSON number, or `null`.
#[tactic(auto, using(mes_json::specs::declared::value::Json::the_lemmas), unfolding(mes_model_schema::specs::Numbers::whole))]
pub(crate) fn number_or_null(alloc: Global, number: Option<u64>) -> Result<Json, NoMemory>
    ensures { IfOk result (λ json. view json ≡ number_or_null number) }
{
    match number {
        Some(number) => number.tree(alloc),
        None => Ok(Json::Null),
    }
}

/// Appends a member to those of an object.
pub(crate) fn push_member(
    members: &mut Vec<(Text, Json)>,
    alloc: Global,
    name: &str,
    json: Json,
) -> Result<(), NoMemory>
    ensures { OnOk result (pairs_view members.new.items
        ≡ pairs_view members.old.items ++ (name.now, view json) ∷ []) }
{
    let name = Text::of(alloc, name)?;
    members.push((name, json))?;
    Ok(())
}

/// Appends a member with a string to those of an object.
pub(crate) fn push_text(
    members: &mut Vec<(Text, Json)>,
    alloc: Global,
    name: &str,
    text: &str,
) -> Result<(), NoMemory>
    ensures { OnOk result (pairs_view members.new.items
        ≡ pairs_view members.old.items ++ (name.now, string text.now) ∷ []) }
{
    let json = text_json(alloc, text)?;
    push_member(members, alloc, name, json)
}
