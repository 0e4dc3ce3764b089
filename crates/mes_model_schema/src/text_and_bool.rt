//! Strings and booleans as parts of messages; `numbers` and `bytes` have the other scalars.

ghost use Rattle.std.specs.Prelude.{◌≡◌};
ghost use Rattle.mes_model_schema.specs.Leaves.{texts, booleans};
ghost use Rattle.mes_model_schema.specs.KindLaws.{lawful_texts, lawful_booleans};

use crate::part::{Part, PartFault};
use crate::path_builder::PathBuilder;
use crate::plain_values::{boolean_in, text_in};
use mes_json::{Element, Json, NoMemory, Text, write_str};
use std::alloc::Global;

impl Part for Text {
    ghost kind = { texts };

    ghost STEPS = { 0 };

    const STEPS: u32 = 0;

    ghost lawful = { lawful_texts };

    #[tactic(auto, unfolding(crate::specs::Leaves::texts))]
    fn read_from(
        alloc: Global,
        element: &Element<'_>,
        path: &PathBuilder<'_>,
    ) -> Result<Text, PartFault> {
        let text = text_in(alloc, element, path)?;
        Ok(Text::of(alloc, text)?)
    }

    #[tactic(auto, unfolding(crate::specs::Leaves::texts))]
    fn tree(&self, alloc: Global) -> Result<Json, NoMemory> {
        Ok(Json::Text(self.copy(alloc)?))
    }

    #[tactic(auto, unfolding(crate::specs::Leaves::texts))]
    fn write_json(&self, _alloc: Global, out: &mut Vec<u8>) -> Result<u64, NoMemory> {
        write_str(self.as_str(), out)?;
        Ok(0)
    }

    fn copy(&self, alloc: Global) -> Result<Text, NoMemory> {
        self.copy(alloc)
    }

    #[tactic(auto, unfolding(crate::specs::Leaves::texts))]
    fn reads_back(&self) {}
}

impl Part for bool {
    ghost kind = { booleans };

    ghost STEPS = { 0 };

    const STEPS: u32 = 0;

    ghost lawful = { lawful_booleans };

    #[tactic(auto, unfolding(crate::specs::Leaves::booleans))]
    fn read_from(
        alloc: Global,
        element: &Element<'_>,
        path: &PathBuilder<'_>,
    ) -> Result<bool, PartFault> {
        boolean_in(alloc, element, path)
    }

    #[tactic(auto, unfolding(crate::specs::Leaves::booleans))]
    fn tree(&self, _alloc: Global) -> Result<Json, NoMemory> {
        Ok(Json::Bool(*self))
    }

    #[tactic(auto, unfolding(crate::specs::Leaves::booleans))]
    fn write_json(&self, _alloc: Global, out: &mut Vec<u8>) -> Result<u64, NoMemory> {
        let text = if *self { "true" } else { "false" };
        out.extend_from_slice(text.as_bytes())?;
        Ok(0)
    }

    fn copy(&self, _alloc: Global) -> Result<bool, NoMemory> {
        Ok(*self)
    }

    #[tactic(auto, unfolding(crate::specs::Leaves::booleans))]
    fn reads_back(&self) {}
}
