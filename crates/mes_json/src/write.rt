//! Writes the canonical text of a value. Strings are in `write_string`; `canonical_length` computes
//! the length alone.
ghost use Rattle.std.specs.Prelude.{◌≡◌, ℕ, ◌≤◌, ◌++◌, IfOk, IfErr, OnOk};
ghost use Rattle.std.specs.Str.{IsUtf8};
ghost use Rattle.mes_json.specs.Tree.{depth};
ghost use Rattle.mes_json.specs.Grammar.{IsText};
ghost use Rattle.mes_json.specs.Canonical.{canonical, canonical_items, canonical_members};
ghost use Rattle.mes_json.specs.View.{view, items_view, members_view};
ghost use Rattle.mes_json.specs.Writable.{member_text, IsWritable, AreWritable, AreWritableMembers, Extends};

use crate::memory::NoMemory;
use crate::text::Text;
use crate::value::Json;
use crate::write_string::{append, write_quoted};

/// Appends the canonical text: no white space, members in order, numbers as written, and only the
/// necessary escapes. Changes nothing if an allocation fails. Recurses as deep as the value nests.
pub fn write_text(json: &Json, out: &mut Vec<u8>) -> Result<(), NoMemory>
    ensures written { IfOk result (λ _. out.new.items
        ≡ out.old.items ++ canonical (view json.now)) }
    ensures unchanged { IfErr result (λ _. out.new.items ≡ out.old.items) }
    ensures writable { OnOk result (IsWritable (view json.now)) }

    // The canonical text is a JSON text of the value, at any nesting limit that the value does not
    // exceed.
    ensures text { IfOk result (λ _. (d : ℕ) → depth (view json.now) ≤ d
        → IsText d (canonical (view json.now)) (view json.now)) }
{
    let before = out.len();
    match write_value(json, out) {
        Ok(()) => Ok(()),
        Err(refused) => {
            out.truncate(before);
            Err(refused)
        }
    }
}

#[cycle(write)]
fn write_value(json: &Json, out: &mut Vec<u8>) -> Result<(), NoMemory>
    ensures written { IfOk result (λ _. out.new.items
        ≡ out.old.items ++ canonical (view json.now)) }
    ensures writable { IfOk result (λ _. IsWritable (view json.now)) }
    ensures front { Extends out.old.items out.new.items }
{
    match json {
        Json::Null => append(b"null", out),
        Json::Bool(false) => append(b"false", out),
        Json::Bool(true) => append(b"true", out),
        Json::Num(number) => append(number.as_str().as_bytes(), out),
        Json::Text(text) => write_quoted(text, out),
        Json::List(items) => {
            append(b"[", out)?;
            write_items(items, out)?;
            append(b"]", out)
        }
        Json::Map(members) => {
            append(b"{", out)?;
            write_members(members, out)?;
            append(b"}", out)
        }
    }
}

#[cycle(write)]
fn write_items(items: &[Json], out: &mut Vec<u8>) -> Result<(), NoMemory>
    ensures written { IfOk result (λ _. out.new.items
        ≡ out.old.items ++ canonical_items (items_view items.now)) }
    ensures writable { IfOk result (λ _. AreWritable (items_view items.now)) }
    ensures front { Extends out.old.items out.new.items }
{
    if let [first, rest @ ..] = items {
        write_value(first, out)?;
        for item in rest {
            append(b",", out)?;
            write_value(item, out)?;
        }
    }
    Ok(())
}

#[cycle(write)]
fn write_members(members: &[(Text, Json)], out: &mut Vec<u8>) -> Result<(), NoMemory>
    ensures written { IfOk result (λ _. out.new.items
        ≡ out.old.items ++ canonical_members (members_view members.now)) }
    ensures writable { IfOk result (λ _. AreWritableMembers (members_view members.now)) }
    ensures front { Extends out.old.items out.new.items }
{
    if let [(name, value), rest @ ..] = members {
        write_member(name, value, out)?;
        for (name, value) in rest {
            append(b",", out)?;
            write_member(name, value, out)?;
        }
    }
    Ok(())
}

#[cycle(write)]
fn write_member(name: &Text, value: &Json, out: &mut Vec<u8>) -> Result<(), NoMemory>
    ensures written { IfOk result (λ _. out.new.items
        ≡ out.old.items ++ member_text name.now (view value.now)) }
    ensures writable { IfOk result (λ _. IsUtf8 name.now × IsWritable (view value.now)) }
    ensures front { Extends out.old.items out.new.items }
{
    write_quoted(name, out)?;
    append(b":", out)?;
    write_value(value, out)
}
