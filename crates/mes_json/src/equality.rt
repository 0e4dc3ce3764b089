//! Equality of values.
ghost use Rattle.std.specs.Prelude.{◌≡◌, ◌↔◌, IsTrue};
ghost use Rattle.mes_json.specs.View.{view, items_view, members_view};

use crate::text::Text;
use crate::value::Json;

impl Json {
    /// Returns whether both values are the same tree: items and members in the same order, repeated
    /// names included, and numbers with the same text. Recurses as deep as the values nest.
    #[cycle(same)]
    pub fn same(&self, other: &Json) -> bool
        ensures { IsTrue result ↔ (view self.now ≡ view other.now) }
    {
        match self {
            Json::Null => matches!(other, Json::Null),
            Json::Bool(flag) => match other {
                Json::Bool(its) => *flag == *its,
                _ => false,
            },
            Json::Num(number) => match other {
                Json::Num(its) => number == its,
                _ => false,
            },
            Json::Text(text) => match other {
                Json::Text(its) => text == its,
                _ => false,
            },
            Json::List(items) => match other {
                Json::List(its) => same_items(items, its),
                _ => false,
            },
            Json::Map(members) => match other {
                Json::Map(its) => same_members(members, its),
                _ => false,
            },
        }
    }
}

#[cycle(same)]
fn same_items(items: &[Json], others: &[Json]) -> bool
    ensures { IsTrue result ↔ (items_view items.now ≡ items_view others.now) }
{
    if items.len() != others.len() {
        return false;
    }
    for at in 0..items.len() {
        if !items[at].same(&others[at]) {
            return false;
        }
    }
    true
}

#[cycle(same)]
fn same_members(members: &[(Text, Json)], others: &[(Text, Json)]) -> bool
    ensures { IsTrue result ↔ (members_view members.now ≡ members_view others.now) }
{
    if members.len() != others.len() {
        return false;
    }
    for at in 0..members.len() {
        if members[at].0 != others[at].0 || !members[at].1.same(&others[at].1) {
            return false;
        }
    }
    true
}
