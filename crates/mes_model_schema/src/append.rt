//! Canonical JSON text written from values without a tree; `write_row` builds trees. Each member or
//! item follows a comma, and `close_object` or `close_array` turns the first comma into the opening
//! bracket. On `NoMemory` the content of `out` is unspecified.

ghost use Rattle.std.specs.Prelude.{◌≡◌, ℕ, [], ◌∷◌, ◌++◌, List as list, length, map, max, IfOk, OnOk};
ghost use Rattle.std.specs.Str.{IsUtf8};
ghost use Rattle.mes_json.specs.Tree.{Tree};
ghost use Rattle.mes_json.specs.Tree.Tree.{array, object, string};
ghost use Rattle.mes_json.specs.Canonical.{quoted_text};
ghost use Rattle.mes_json.specs.View.{items_of, members_of};
ghost use Rattle.mes_model_schema.specs.Appended.{Appends, AppendsItems, AppendsMembers, Closes};
ghost use Rattle.mes_model_schema.specs.Choices.{type_name};
ghost use Rattle.mes_model_schema.specs.Kinds.{Returns};
ghost use Rattle.mes_model_schema.specs.Lists.{list_of};
ghost use Rattle.mes_model_schema.specs.Rows.{need, maybe, many, flag, ReturnsEach};

use crate::list::List;
use crate::part::Part;
use mes_json::{NoMemory, write_str};
use std::alloc::Global;

/// Appends a required member. Returns the nesting depth of its value, like each function here: 0
/// for a scalar, 1 for `{}`, at most `u64::MAX`.
#[tactic(auto, using(crate::proofs::AppendLemmas::one_member))]
pub fn write_row_text<T: Part>(
    alloc: Global,
    name: &str,
    value: &T,
    out: &mut Vec<u8>,
) -> Result<u64, NoMemory>
    ensures members { IfOk result (λ deep. AppendsMembers out.old.items
        ((need name.now T.kind).members value.now) out.new.items deep) }
    ensures back { OnOk result ((need name.now T.kind).Back value.now) }
{
    append_name(name, out)?;
    value.write_json(alloc, out)
}

/// Appends an optional member, and nothing if the value is `None`.
#[tactic(auto, using(crate::proofs::AppendLemmas::no_members))]
pub fn write_optional_text<T: Part>(
    alloc: Global,
    name: &str,
    value: &Option<T>,
    out: &mut Vec<u8>,
) -> Result<u64, NoMemory>
    ensures members { IfOk result (λ deep. AppendsMembers out.old.items
        ((maybe name.now T.kind).members value.now) out.new.items deep) }
    ensures back { OnOk result ((maybe name.now T.kind).Back value.now) }
{
    match value {
        Some(value) => write_row_text(alloc, name, value, out),
        None => Ok(0),
    }
}

/// Appends the member of a list, and nothing if the list is empty.
pub fn write_repeated_text<T: Part>(
    alloc: Global,
    name: &str,
    values: &List<T>,
    out: &mut Vec<u8>,
) -> Result<u64, NoMemory>
    ensures members { IfOk result (λ deep. AppendsMembers out.old.items
        ((many name.now T.kind).members values.now) out.new.items deep) }
    ensures back { OnOk result ((many name.now T.kind).Back values.now) }
{
    if values.is_empty() {
        return Ok(0);
    }
    append_name(name, out)?;
    list_text(alloc, values, out)
}

/// Appends the member of a flag with the value `{}`, and nothing if the flag is unset.
pub fn write_flag_text(name: &str, set: bool, out: &mut Vec<u8>) -> Result<u64, NoMemory>
    ensures { IfOk result (λ deep. AppendsMembers out.old.items ((flag name.now).members set)
        out.new.items deep) }
{
    if !set {
        return Ok(0);
    }
    append_name(name, out)?;
    out.extend_from_slice(b"{}")?;
    Ok(1)
}

/// Appends the member `type`, which selects the other members of a typed value.
#[tactic(auto, using(crate::proofs::AppendLemmas::one_member, crate::proofs::AppendLemmas::a_string))]
pub fn write_type_text(kind: &str, out: &mut Vec<u8>) -> Result<u64, NoMemory>
    ensures { IfOk result (λ deep. AppendsMembers out.old.items ((type_name, string kind.now)
        ∷ []) out.new.items deep) }
{
    append_name("type", out)?;
    write_str(kind, out)?;
    Ok(0)
}

/// Appends the member `type`, and the member `name` with the body as its value.
#[tactic(auto, using(crate::proofs::AppendLemmas::both_members))]
pub fn write_case_text<T: Part>(
    alloc: Global,
    kind: &str,
    name: &str,
    body: &T,
    out: &mut Vec<u8>,
) -> Result<u64, NoMemory>
    ensures members { IfOk result (λ deep. AppendsMembers out.old.items
        ((type_name, string kind.now) ∷ (name.now, T.kind.tree body.now) ∷ []) out.new.items deep) }
    ensures back { OnOk result (Returns T.kind body.now) }
{
    let first = write_type_text(kind, out)?;
    let second = write_row_text(alloc, name, body, out)?;
    Ok(deeper(first, second))
}

/// Appends the text of a list.
pub fn list_text<T: Part>(
    alloc: Global,
    values: &List<T>,
    out: &mut Vec<u8>,
) -> Result<u64, NoMemory>
    ensures text { IfOk result (λ deep. Appends out.old.items ((list_of T.kind).tree values.now)
        out.new.items deep) }
    // On success: each value is read back from its own tree.
    ensures back { OnOk result (ReturnsEach T.kind values.now) }
{
    let start = out.len();
    let deepest = append_items(alloc, values.as_slice(), out)?;
    close_array(deepest, start, out)
}

/// Appends each item of a list after a comma.
fn append_items<T: Part>(alloc: Global, values: &[T], out: &mut Vec<u8>) -> Result<u64, NoMemory>
    ensures items { IfOk result (λ deep. AppendsItems out.old.items (map T.kind.tree values.now)
        out.new.items deep) }
    ensures back { OnOk result (ReturnsEach T.kind values.now) }
{
    let mut deepest = 0;
    for value in values {
        out.push(b',')?;
        let deep = value.write_json(alloc, out)?;
        deepest = deeper(deepest, deep);
    }
    Ok(deepest)
}

/// Appends a comma, a quoted name and a colon.
pub fn append_name(name: &str, out: &mut Vec<u8>) -> Result<(), NoMemory>
    ensures text { OnOk result (out.new.items
        ≡ out.old.items ++ 44 ∷ (quoted_text name.now ++ 58 ∷ [])) }
    ensures utf8 { OnOk result (IsUtf8 name.now) }
{
    out.push(b',')?;
    write_str(name, out)?;
    out.push(b':')?;
    Ok(())
}

/// Returns the greater of two depths.
pub fn deeper(one: u64, other: u64) -> u64
    ensures { result ≡ max one other }
{
    if one < other { other } else { one }
}

/// Makes an object of the members appended to `out` from offset `start` on. `deepest` is the
/// greatest nesting depth of their values. Returns the nesting depth of the object.
#[tactic(auto, using(crate::proofs::AppendLemmas::whole_object))]
pub fn close_object(deepest: u64, start: usize, out: &mut Vec<u8>) -> Result<u64, NoMemory>
    // If `out` had `start` bytes before the members: on success the text of the object follows
    // those bytes.
    ensures { (old : list ℕ) (ms : list (list ℕ × Tree)) → length old ≡ start
        → AppendsMembers old ms out.old.items deepest
        → IfOk result (λ deep. Appends old (object (members_of ms)) out.new.items deep) }
{
    close(b'{', start, b'}', out)?;
    Ok(deepest.saturating_add(1))
}

/// Makes an array of the items that were appended to `out` from offset `start` on, like
/// [`close_object`].
#[tactic(auto, using(crate::proofs::AppendLemmas::whole_array))]
fn close_array(deepest: u64, start: usize, out: &mut Vec<u8>) -> Result<u64, NoMemory>
    ensures { (old : list ℕ) (ts : list Tree) → length old ≡ start
        → AppendsItems old ts out.old.items deepest
        → IfOk result (λ deep. Appends old (array (items_of ts)) out.new.items deep) }
{
    close(b'[', start, b']', out)?;
    Ok(deepest.saturating_add(1))
}

/// Turns the comma at `start` into the opening bracket, or appends one, and appends the closing
/// bracket.
fn close(first: u8, start: usize, last: u8, out: &mut Vec<u8>) -> Result<(), NoMemory>
    ensures { OnOk result (Closes first start last out.old.items out.new.items) }
{
    if start < out.len() {
        out[start] = first;
    } else {
        out.push(first)?;
    }
    out.push(last)?;
    Ok(())
}
