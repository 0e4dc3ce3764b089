//! The length of a value's canonical text, without writing the text.
ghost use Rattle.std.specs.Prelude.{◌≡◌, ◌+◌, ◌<◌, ◌≤◌, length, IfSome, IfNone};
ghost use Rattle.mes_json.specs.Canonical.{quoted_text, canonical, canonical_items, canonical_members};
ghost use Rattle.mes_json.specs.View.{view, items_view, members_view};
ghost use Rattle.mes_json.specs.Writable.{member_text};

use crate::text::Text;
use crate::unescaped::kept_run;
use crate::value::Json;
use crate::write_string::escaped_length;

/// Returns the length in bytes of the canonical text that [`crate::write_text`] writes, or `None`
/// if the length exceeds `most`. Stops as soon as the length exceeds `most`. Does not allocate.
/// Recurses as deep as the value nests.
pub fn text_length(json: &Json, most: usize) -> Option<usize>
    ensures some { IfSome result (λ n. (n ≡ length (canonical (view json.now))) × n ≤ most) }
    ensures none { IfNone result (most < length (canonical (view json.now))) }
{
    let room = capacity_after_value(json, most)?;
    Some(most - room)
}

// Each of these functions returns `room` less the length of a text, or `None` if the text is longer
// than `room`.

#[cycle(length)]
#[tactic(auto, using(crate::proofs::LengthLemmas::object_length))]
fn capacity_after_value(json: &Json, room: usize) -> Option<usize>
    ensures some { IfSome result (λ free. free + length (canonical (view json.now)) ≡ room) }
    ensures none { IfNone result (room < length (canonical (view json.now))) }
{
    match json {
        Json::Null => room.checked_sub(b"null".len()),
        Json::Bool(false) => room.checked_sub(b"false".len()),
        Json::Bool(true) => room.checked_sub(b"true".len()),
        Json::Num(number) => room.checked_sub(number.as_str().len()),
        Json::Text(text) => capacity_after_quoted(text, room),
        Json::List(items) => capacity_after_items(items, room.checked_sub(b"[]".len())?),
        Json::Map(members) => capacity_after_members(members, room.checked_sub(b"{}".len())?),
    }
}

#[cycle(length)]
fn capacity_after_items(items: &[Json], room: usize) -> Option<usize>
    ensures some { IfSome result (λ free. free + length (canonical_items (items_view items.now))
        ≡ room) }
    ensures none { IfNone result (room < length (canonical_items (items_view items.now))) }
{
    let mut free = room;
    if let [first, rest @ ..] = items {
        free = capacity_after_value(first, free)?;
        for item in rest {
            free = capacity_after_value(item, free.checked_sub(b",".len())?)?;
        }
    }
    Some(free)
}

#[cycle(length)]
fn capacity_after_members(members: &[(Text, Json)], room: usize) -> Option<usize>
    ensures some { IfSome result (λ free. free
        + length (canonical_members (members_view members.now)) ≡ room) }
    ensures none { IfNone result (room < length (canonical_members (members_view members.now))) }
{
    let mut free = room;
    if let [(name, value), rest @ ..] = members {
        free = capacity_after_member(name, value, free)?;
        for (name, value) in rest {
            free = capacity_after_member(name, value, free.checked_sub(b",".len())?)?;
        }
    }
    Some(free)
}

#[cycle(length)]
fn capacity_after_member(name: &Text, value: &Json, room: usize) -> Option<usize>
    ensures some { IfSome result (λ free. free + length (member_text name.now (view value.now))
        ≡ room) }
    ensures none { IfNone result (room < length (member_text name.now (view value.now))) }
{
    let room = capacity_after_quoted(name, room)?;
    capacity_after_value(value, room.checked_sub(b":".len())?)
}

fn capacity_after_quoted(text: &Text, room: usize) -> Option<usize>
    ensures some { IfSome result (λ free. free + length (quoted_text text.now) ≡ room) }
    ensures none { IfNone result (room < length (quoted_text text.now)) }
{
    let bytes = text.as_str().as_bytes();
    let mut free = room.checked_sub(b"\"\"".len())?;
    let mut place = kept_run(bytes);
    free = free.checked_sub(place)?;
    while place < bytes.len() {
        free = free.checked_sub(escaped_length(bytes[place]))?;
        let next = place + 1;
        let run = kept_run(&bytes[next..]);
        free = free.checked_sub(run)?;
        place = next + run;
    }
    Some(free)
}
