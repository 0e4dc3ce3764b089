//! A JSON object that is retained with all its members, for messages without a table of members.
ghost use Rattle.std.specs.Prelude.{◌≡◌, None, Ok, IfOk, IfErr};
ghost use Rattle.mes_json.specs.Tree.{Tree, Members};
ghost use Rattle.mes_json.specs.Tree.Tree.{object};
ghost use Rattle.mes_json.specs.Cursor.{as_members};
ghost use Rattle.mes_json.specs.Tokens.{BeginsWith};
ghost use Rattle.mes_json.specs.View.{view};
ghost use Rattle.mes_model_schema.specs.Leaves.{objects};
ghost use Rattle.mes_model_schema.specs.KindLaws.{lawful_objects};

use crate::field::FieldFaultKind;
use crate::part::{Part, PartFault};
use crate::path_builder::PathBuilder;
use crate::refusal::refusal_at;
use mes_json::{Element, Json, NoMemory, write_text};
use std::alloc::Global;
use std::marker::Model;

/// A JSON object that is retained with all its members. In contracts its value is the members.
#[derive(Debug, Drop)]
pub struct Kept {
    json: Json,
}

impl Model for Kept {
    ghost use Rattle.mes_json.specs.Tree.{Members};
    ghost use Rattle.mes_json.specs.View.{view as tree_of};
    ghost use Rattle.mes_model_schema.specs.MembersCode.{members_code};
    ghost use Rattle.mes_model_schema.specs.Objects.{members_in, IsObject};

    ghost Value = { Members };

    ghost coded = { members_code };

    ghost view = { λ kept. members_in (tree_of kept.json) };

    ghost invariant = { λ kept. IsObject (tree_of kept.json) };
}

impl Kept {
    /// Takes over a JSON object, and returns any other value as the error. Does not allocate.
    pub fn new(json: Json) -> Result<Kept, Json>
        ensures ok { IfOk result (λ kept. view json ≡ object kept) }
        // On error: the value is returned unchanged, and it is not an object.
        ensures err { IfErr result (λ again. (again ≡ json)
            × ((ms : Members) → view json ≡ object ms → ⊥)) }
    {
        match json {
            Json::Map(_) => Ok(Kept { json }),
            _ => Err(json),
        }
    }

    /// Copies the object at a position of a tape. Returns `None` if the value there is not an
    /// object, without allocating.
    pub fn at_place(alloc: Global, element: &Element<'_>) -> Result<Option<Kept>, NoMemory>
        ensures ok { (t : Tree) → BeginsWith element.now t
            → IfOk result (λ found. found ≡ as_members t) }
        ensures other { (t : Tree) → BeginsWith element.now t → as_members t ≡ None
            → result ≡ Ok None }
    {
        if element.members().is_none() {
            return Ok(None);
        }
        match Kept::new(element.to_json(alloc)?) {
            Ok(kept) => Ok(Some(kept)),
            Err(_) => Ok(None),
        }
    }

    /// Borrows the object as a JSON value.
    pub fn get(&self) -> &Json
        ensures { view result.now ≡ object self.now }
    {
        &self.json
    }
}

impl Part for Kept {
    ghost kind = { objects };

    ghost STEPS = { 0 };

    const STEPS: u32 = 0;

    ghost lawful = { lawful_objects };

    #[tactic(auto, unfolding(crate::specs::Leaves::objects))]
    fn read_from(
        alloc: Global,
        element: &Element<'_>,
        path: &PathBuilder<'_>,
    ) -> Result<Kept, PartFault> {
        match Kept::at_place(alloc, element)? {
            Some(kept) => Ok(kept),
            None => Err(refusal_at(alloc, path, FieldFaultKind::WrongKind)),
        }
    }

    #[tactic(auto, unfolding(crate::specs::Leaves::objects))]
    fn tree(&self, alloc: Global) -> Result<Json, NoMemory> {
        self.json.copy(alloc)
    }

    #[tactic(auto, unfolding(crate::specs::Leaves::objects))]
    fn write_json(&self, _alloc: Global, out: &mut Vec<u8>) -> Result<u64, NoMemory> {
        write_text(&self.json, out)?;
        Ok(self.json.depth())
    }

    fn copy(&self, alloc: Global) -> Result<Kept, NoMemory> {
        Ok(Kept {
            json: self.json.copy(alloc)?,
        })
    }

    #[tactic(auto, unfolding(crate::specs::Leaves::objects))]
    fn reads_back(&self) {}
}
