//! Copies of values.
ghost use Rattle.std.specs.Prelude.{◌≡◌, IfOk};
ghost use Rattle.mes_json.specs.View.{view, items_view, members_view};

use crate::memory::NoMemory;
use crate::text::Text;
use crate::value::Json;
use std::alloc::Global;

impl Json {
    /// Copies the value into memory of its own. Recurses as deep as the value nests.
    #[cycle(copy)]
    pub fn copy(&self, alloc: Global) -> Result<Json, NoMemory>
        ensures { IfOk result (λ json. view json ≡ view self.now) }
    {
        match self {
            Json::Null => Ok(Json::Null),
            Json::Bool(flag) => Ok(Json::Bool(*flag)),
            Json::Num(number) => Ok(Json::Num(number.copy(alloc)?)),
            Json::Text(text) => Ok(Json::Text(text.copy(alloc)?)),
            Json::List(items) => Ok(Json::List(copy_items(alloc, items)?)),
            Json::Map(members) => Ok(Json::Map(copy_members(alloc, members)?)),
        }
    }
}

#[cycle(copy)]
fn copy_items(alloc: Global, items: &[Json]) -> Result<Vec<Json>, NoMemory>
    ensures { IfOk result (λ copies. items_view copies.items ≡ items_view items.now) }
{
    let mut copies = Vec::with_capacity(alloc, items.len())?;
    for item in items {
        copies.push(item.copy(alloc)?)?;
    }
    Ok(copies)
}

#[cycle(copy)]
fn copy_members(alloc: Global, members: &[(Text, Json)]) -> Result<Vec<(Text, Json)>, NoMemory>
    ensures { IfOk result (λ copies. members_view copies.items ≡ members_view members.now) }
{
    let mut copies = Vec::with_capacity(alloc, members.len())?;
    for (name, value) in members {
        copies.push((name.copy(alloc)?, value.copy(alloc)?))?;
    }
    Ok(copies)
}
