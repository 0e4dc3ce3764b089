//! The tree of a value on a tape.
ghost use Rattle.std.specs.Prelude.{◌≡◌, IfOk};
ghost use Rattle.mes_json.specs.Tree.{Tree};
ghost use Rattle.mes_json.specs.Tokens.{BeginsWith};
ghost use Rattle.mes_json.specs.View.{view};

use crate::cursor::Element;
use crate::memory::NoMemory;
use crate::tree_builder;
use crate::value::Json;
use std::alloc::Global;

impl Element<'_> {
    /// Copies the value to a tree with memory of its own. Returns `null` if the value is not whole.
    pub fn to_json(&self, alloc: Global) -> Result<Json, NoMemory>
        ensures { (t : Tree) → BeginsWith self.now t → IfOk result (λ json. view json ≡ t) }
    {
        match tree_builder::to_json(alloc, self.texts, self.nodes)? {
            Some(json) => Ok(json),
            None => Ok(Json::Null),
        }
    }
}
