//! Builds the JSON trees of the members of a message; `append` writes their texts instead. On
//! `NoMemory` the list `members` is unchanged.

ghost use Rattle.std.specs.Prelude.{◌≡◌, [], ◌∷◌, ◌++◌, IfOk, IfErr, OnOk};
ghost use Rattle.mes_json.specs.Tree.Tree.{object, string};
ghost use Rattle.mes_json.specs.View.{view, members_of};
ghost use Rattle.mes_model_schema.specs.Lists.{list_of};
ghost use Rattle.mes_model_schema.specs.Rows.{need, maybe, many, flag, ReturnsEach};
ghost use Rattle.mes_model_schema.specs.Choices.{type_name};
ghost use Rattle.mes_model_schema.specs.Written.{pairs_view};

use crate::list::List;
use crate::part::Part;
use mes_json::{Json, NoMemory, Text};
use std::alloc::Global;

/// Appends a required member.
pub fn put<T: Part>(
    members: &mut Vec<(Text, Json)>,
    alloc: Global,
    name: &str,
    value: &T,
) -> Result<(), NoMemory>
    ensures members { OnOk result (pairs_view members.new.items
        ≡ pairs_view members.old.items ++ (need name.now T.kind).members value.now) }
    ensures unchanged { IfErr result (λ _. pairs_view members.new.items
        ≡ pairs_view members.old.items) }
    ensures back { OnOk result ((need name.now T.kind).Back value.now) }
{
    let tree = value.tree(alloc)?;
    push_member(members, alloc, name, tree)
}

/// Appends an optional member, and nothing if the value is `None`.
pub fn push_optional_tree<T: Part>(
    members: &mut Vec<(Text, Json)>,
    alloc: Global,
    name: &str,
    value: &Option<T>,
) -> Result<(), NoMemory>
    ensures members { OnOk result (pairs_view members.new.items
        ≡ pairs_view members.old.items ++ (maybe name.now T.kind).members value.now) }
    ensures unchanged { IfErr result (λ _. pairs_view members.new.items
        ≡ pairs_view members.old.items) }
    ensures back { OnOk result ((maybe name.now T.kind).Back value.now) }
{
    match value {
        Some(value) => put(members, alloc, name, value),
        None => Ok(()),
    }
}

/// Appends the member of a list, and nothing if the list is empty.
pub fn push_repeated_tree<T: Part>(
    members: &mut Vec<(Text, Json)>,
    alloc: Global,
    name: &str,
    values: &List<T>,
) -> Result<(), NoMemory>
    ensures members { OnOk result (pairs_view members.new.items
        ≡ pairs_view members.old.items ++ (many name.now T.kind).members values.now) }
    ensures unchanged { IfErr result (λ _. pairs_view members.new.items
        ≡ pairs_view members.old.items) }
    ensures back { OnOk result ((many name.now T.kind).Back values.now) }
{
    if values.is_empty() {
        return Ok(());
    }
    let tree = list_tree(alloc, values)?;
    push_member(members, alloc, name, tree)
}

/// Appends the member of a flag with the value `{}`, and nothing if the flag is unset.
pub fn push_flag_tree(
    members: &mut Vec<(Text, Json)>,
    alloc: Global,
    name: &str,
    set: bool,
) -> Result<(), NoMemory>
    ensures members { OnOk result (pairs_view members.new.items
        ≡ pairs_view members.old.items ++ (flag name.now).members set) }
    ensures unchanged { IfErr result (λ _. pairs_view members.new.items
        ≡ pairs_view members.old.items) }
{
    if set {
        push_member(members, alloc, name, whole_object(Vec::new(alloc)))
    } else {
        Ok(())
    }
}

/// Appends the member `type`, which selects the other members of a typed value.
pub fn push_type_tree(
    members: &mut Vec<(Text, Json)>,
    alloc: Global,
    kind: &str,
) -> Result<(), NoMemory>
    ensures members { OnOk result (pairs_view members.new.items
        ≡ pairs_view members.old.items ++ (type_name, string kind.now) ∷ []) }
    ensures unchanged { IfErr result (λ _. pairs_view members.new.items
        ≡ pairs_view members.old.items) }
{
    let kind = Text::of(alloc, kind)?;
    push_member(members, alloc, "type", Json::Text(kind))
}

/// Builds the JSON object of a list of members. Does not allocate.
#[tactic(auto, using(crate::proofs::TreeLemmas::view_map))]
pub fn whole_object(members: Vec<(Text, Json)>) -> Json
    ensures { view result ≡ object (members_of (pairs_view members.items)) }
{
    Json::Map(members)
}

/// Builds the JSON array of a list.
#[tactic(auto, using(crate::proofs::TreeLemmas::view_list))]
pub fn list_tree<T: Part>(alloc: Global, values: &List<T>) -> Result<Json, NoMemory>
    ensures tree { IfOk result (λ t. view t ≡ (list_of T.kind).tree values.now) }
    // On success: each value is read back from its own tree.
    ensures back { OnOk result (ReturnsEach T.kind values.now) }
{
    let mut trees = Vec::with_capacity(alloc, values.len())?;
    for value in values.as_slice() {
        trees.push(value.tree(alloc)?)?;
    }
    Ok(Json::List(trees))
}

/// Copies a list.
pub fn copy_list<T: Part>(alloc: Global, values: &List<T>) -> Result<List<T>, NoMemory>
    ensures { IfOk result (λ copies. copies ≡ values.now) }
{
    let mut copies = Vec::with_capacity(alloc, values.len())?;
    for value in values.as_slice() {
        copies.push(value.copy(alloc)?)?;
    }
    Ok(List::new(copies))
}

/// Copies the value in an `Option`, if there is one.
pub fn copy_some<T: Part>(alloc: Global, value: &Option<T>) -> Result<Option<T>, NoMemory>
    ensures { IfOk result (λ copy. copy ≡ value.now) }
{
    match value {
        Some(value) => Ok(Some(value.copy(alloc)?)),
        None => Ok(None),
    }
}

fn push_member(
    members: &mut Vec<(Text, Json)>,
    alloc: Global,
    name: &str,
    tree: Json,
) -> Result<(), NoMemory>
    ensures members { OnOk result (pairs_view members.new.items
        ≡ pairs_view members.old.items ++ (name.now, view tree) ∷ []) }
    ensures unchanged { IfErr result (λ _. pairs_view members.new.items
        ≡ pairs_view members.old.items) }
{
    let name = Text::of(alloc, name)?;
    members.push((name, tree))?;
    Ok(())
}
