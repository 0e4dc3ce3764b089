//! Numbers as parts of messages: `u64`, `i32`, and decimal numbers with 3 or 6 places, rounded to
//! the nearest thousandth or millionth.

ghost use Rattle.std.specs.Prelude.{◌≡◌, ◌≤◌, IfOk, OnOk};
ghost use Rattle.mes_fixed.specs.Number.{IsNumber};
ghost use Rattle.mes_json.specs.Tree.{Tree};
ghost use Rattle.mes_json.specs.Tree.Tree.{number};
ghost use Rattle.mes_json.specs.Tokens.{BeginsWith};
ghost use Rattle.mes_json.specs.View.{view};
ghost use Rattle.mes_model_schema.specs.Numbers.{whole, signed32, fixed};
ghost use Rattle.mes_model_schema.specs.NumberLaws.{lawful_whole, lawful_signed32, lawful_fixed};
ghost use Rattle.mes_model_schema.specs.Appended.{Appends};
ghost use Rattle.mes_model_schema.specs.Kinds.{Returns};
ghost use Rattle.mes_model_schema.specs.Parts.{Gives};

use crate::field::FieldFaultKind;
use crate::part::{Part, PartFault};
use crate::path_builder::PathBuilder;
use crate::plain_values::number_in;
use crate::refusal::refusal_at;
use arrayvec::ArrayString;
use itoa::Buffer;
use mes_fixed::{Fixed, read_i32, read_u64};
use mes_json::{Element, Json, NoMemory, NumText};
use std::alloc::Global;

impl Part for u64 {
    ghost kind = { whole };

    ghost STEPS = { 0 };

    const STEPS: u32 = 0;

    ghost lawful = { lawful_whole };

    #[tactic(auto, using(crate::proofs::NumberPlaces::whole_given, crate::proofs::NumberPlaces::whole_out_of_range))]
    fn read_from(
        alloc: Global,
        element: &Element<'_>,
        path: &PathBuilder<'_>,
    ) -> Result<u64, PartFault> {
        let text = number_in(alloc, element, path)?;
        match read_u64(text.as_bytes()) {
            Ok(whole) => Ok(whole),
            Err(_) => Err(refusal_at(alloc, path, FieldFaultKind::NumberRange)),
        }
    }

    #[tactic(auto, using(crate::proofs::NumberPlaces::whole_is_number, crate::specs::NumberBack::whole_returns), unfolding(crate::specs::Numbers::whole))]
    fn tree(&self, alloc: Global) -> Result<Json, NoMemory> {
        let number = *self;
        number_tree(alloc, Buffer::new().format(number))
    }

    #[tactic(auto, using(crate::proofs::NumberPlaces::whole_is_number, crate::specs::NumberBack::whole_returns), unfolding(crate::specs::Numbers::whole))]
    fn write_json(&self, _alloc: Global, out: &mut Vec<u8>) -> Result<u64, NoMemory> {
        let number = *self;
        append_number(Buffer::new().format(number), out)
    }

    fn copy(&self, _alloc: Global) -> Result<u64, NoMemory> {
        Ok(*self)
    }

    fn reads_back(&self) {
        whole_reads_back(*self);
    }
}

impl Part for i32 {
    ghost kind = { signed32 };

    ghost STEPS = { 0 };

    const STEPS: u32 = 0;

    ghost lawful = { lawful_signed32 };

    #[tactic(auto, using(crate::proofs::NumberPlaces::signed32_given, crate::proofs::NumberPlaces::signed32_out_of_range))]
    fn read_from(
        alloc: Global,
        element: &Element<'_>,
        path: &PathBuilder<'_>,
    ) -> Result<i32, PartFault> {
        let text = number_in(alloc, element, path)?;
        match read_i32(text.as_bytes()) {
            Ok(signed) => Ok(signed),
            Err(_) => Err(refusal_at(alloc, path, FieldFaultKind::NumberRange)),
        }
    }

    fn tree(&self, alloc: Global) -> Result<Json, NoMemory> {
        signed_tree(alloc, *self)
    }

    fn copy(&self, _alloc: Global) -> Result<i32, NoMemory> {
        Ok(*self)
    }

    fn reads_back(&self) {
        signed_reads_back(*self);
    }
}

impl Part for Fixed<3> {
    ghost kind = { fixed 3 };

    ghost STEPS = { 0 };

    const STEPS: u32 = 0;

    ghost lawful = { lawful_fixed 3 };

    fn read_from(
        alloc: Global,
        element: &Element<'_>,
        path: &PathBuilder<'_>,
    ) -> Result<Fixed<3>, PartFault> {
        fixed_in(alloc, element, path)
    }

    #[tactic(auto, using(crate::specs::NumberBack::fixed_returns), unfolding(crate::specs::Numbers::fixed))]
    fn tree(&self, alloc: Global) -> Result<Json, NoMemory> {
        fixed_tree(alloc, *self)
    }

    #[tactic(auto, using(crate::specs::NumberBack::fixed_returns), unfolding(crate::specs::Numbers::fixed))]
    fn write_json(&self, _alloc: Global, out: &mut Vec<u8>) -> Result<u64, NoMemory> {
        append_fixed(*self, out)
    }

    fn copy(&self, _alloc: Global) -> Result<Fixed<3>, NoMemory> {
        Ok(*self)
    }

    fn reads_back(&self) {
        fixed_reads_back(*self);
    }
}

impl Part for Fixed<6> {
    ghost kind = { fixed 6 };

    ghost STEPS = { 0 };

    const STEPS: u32 = 0;

    ghost lawful = { lawful_fixed 6 };

    fn read_from(
        alloc: Global,
        element: &Element<'_>,
        path: &PathBuilder<'_>,
    ) -> Result<Fixed<6>, PartFault> {
        fixed_in(alloc, element, path)
    }

    #[tactic(auto, using(crate::specs::NumberBack::fixed_returns), unfolding(crate::specs::Numbers::fixed))]
    fn tree(&self, alloc: Global) -> Result<Json, NoMemory> {
        fixed_tree(alloc, *self)
    }

    #[tactic(auto, using(crate::specs::NumberBack::fixed_returns), unfolding(crate::specs::Numbers::fixed))]
    fn write_json(&self, _alloc: Global, out: &mut Vec<u8>) -> Result<u64, NoMemory> {
        append_fixed(*self, out)
    }

    fn copy(&self, _alloc: Global) -> Result<Fixed<6>, NoMemory> {
        Ok(*self)
    }

    fn reads_back(&self) {
        fixed_reads_back(*self);
    }
}

/// Reads a decimal number, or returns `WrongKind` or `NumberRange`.
#[tactic(auto, using(crate::proofs::NumberPlaces::fixed_given, crate::proofs::NumberPlaces::fixed_out_of_range))]
fn fixed_in<const P: u32>(
    alloc: Global,
    element: &Element<'_>,
    path: &PathBuilder<'_>,
) -> Result<Fixed<P>, PartFault>
    requires { (1 ≤ P) × (P ≤ 6) }
    ensures { (t : Tree) → BeginsWith element.now t → Gives ((fixed P).read path.now t) result }
{
    let text = number_in(alloc, element, path)?;
    let Ok(units) = Fixed::read(text.as_bytes()) else {
        return Err(refusal_at(alloc, path, FieldFaultKind::NumberRange));
    };
    Ok(units)
}

/// Builds the JSON number of a signed whole number.
#[tactic(auto, using(crate::proofs::NumberPlaces::signed32_is_number, crate::specs::NumberBack::signed32_returns), unfolding(crate::specs::Numbers::signed32))]
fn signed_tree(alloc: Global, value: i32) -> Result<Json, NoMemory>
    ensures tree { IfOk result (λ t. view t ≡ signed32.tree value) }
    ensures back { OnOk result (Returns signed32 value) }
{
    number_tree(alloc, Buffer::new().format(value))
}

/// Builds the JSON number of a decimal number.
#[tactic(auto, using(crate::proofs::NumberPlaces::reads_is_number), unfolding(crate::specs::Numbers::fixed))]
fn fixed_tree<const P: u32>(alloc: Global, value: Fixed<P>) -> Result<Json, NoMemory>
    ensures tree { IfOk result (λ t. view t ≡ (fixed P).tree value.entry) }
    ensures back { OnOk result (Returns (fixed P) value.entry) }
{
    let mut text = ArrayString::new();
    value.write(&mut text);
    number_tree(alloc, text.as_str())
}

/// Builds the JSON number with this text.
fn number_tree(alloc: Global, text: &str) -> Result<Json, NoMemory>
    requires { IsNumber text.now }
    ensures { IfOk result (λ t. view t ≡ number text.now) }
{
    let number = NumText::new(String::from_str(alloc, text)?).unwrap();
    Ok(Json::Num(number))
}

/// Appends the text of a decimal number.
#[tactic(auto, using(crate::proofs::NumberPlaces::reads_is_number), unfolding(crate::specs::Numbers::fixed))]
fn append_fixed<const P: u32>(value: Fixed<P>, out: &mut Vec<u8>) -> Result<u64, NoMemory>
    ensures text { IfOk result (λ deep. Appends out.old.items ((fixed P).tree value.entry)
        out.new.items deep) }
    ensures back { OnOk result (Returns (fixed P) value.entry) }
{
    let mut text = ArrayString::new();
    value.write(&mut text);
    append_number(text.as_str(), out)
}

/// Appends the text of a number.
fn append_number(text: &str, out: &mut Vec<u8>) -> Result<u64, NoMemory>
    requires { IsNumber text.now }
    ensures { IfOk result (λ deep. Appends out.old.items (number text.now) out.new.items deep) }
{
    out.extend_from_slice(text.as_bytes())?;
    Ok(0)
}

/// Shows that a whole number is read back from its text.
#[tactic(auto, using(crate::specs::NumberBack::whole_returns))]
fn whole_reads_back(value: u64)
    ensures { Returns whole value }
{}

/// Shows that a whole number with a sign is read back from its text.
#[tactic(auto, using(crate::specs::NumberBack::signed32_returns))]
fn signed_reads_back(value: i32)
    ensures { Returns signed32 value }
{}

/// Shows that a decimal number is read back from its text.
#[tactic(auto, using(crate::specs::NumberBack::fixed_returns))]
fn fixed_reads_back<const P: u32>(value: Fixed<P>)
    ensures { Returns (fixed P) value.entry }
{}
