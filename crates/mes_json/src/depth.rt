//! The nesting depth of values.
ghost use Rattle.std.specs.Prelude.{◌≡◌, min};
ghost use Rattle.mes_json.specs.Tree.{depth, depth_of_items, depth_of_members};
ghost use Rattle.mes_json.specs.View.{view, items_view, members_view};

use crate::text::Text;
use crate::value::Json;

impl Json {
    /// Returns the nesting depth of arrays and objects: 0 for any other value, 1 for an empty array
    /// or object. Recurses as deep as the value nests.
    #[cycle(depth)]
    pub fn depth(&self) -> u64
        ensures { result ≡ min (depth (view self.now)) u64.MAX }
    {
        match self {
            Json::Null => 0,
            Json::Bool(_) => 0,
            Json::Num(_) => 0,
            Json::Text(_) => 0,
            Json::List(items) => depth_of_items(items).saturating_add(1),
            Json::Map(members) => depth_of_members(members).saturating_add(1),
        }
    }
}

#[cycle(depth)]
fn depth_of_items(items: &[Json]) -> u64
    ensures { result ≡ min (depth_of_items (items_view items.now)) u64.MAX }
{
    let mut deepest = 0;
    for item in items {
        let depth = item.depth();
        if deepest < depth {
            deepest = depth;
        }
    }
    deepest
}

#[cycle(depth)]
fn depth_of_members(members: &[(Text, Json)]) -> u64
    ensures { result ≡ min (depth_of_members (members_view members.now)) u64.MAX }
{
    let mut deepest = 0;
    for (_, value) in members {
        let depth = value.depth();
        if deepest < depth {
            deepest = depth;
        }
    }
    deepest
}
