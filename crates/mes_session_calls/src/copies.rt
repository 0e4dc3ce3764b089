//! Copies of arguments, in newly allocated memory.
ghost use Rattle.std.specs.Prelude.{◌≡◌, option_copied, IfOk};

use mes_model_schema::json::NoMemory;
use mes_model_schema::{List, Part};
use std::alloc::Global;

pub(crate) fn copies_of<T: Part>(alloc: Global, values: &[T]) -> Result<List<T>, NoMemory>
    ensures { IfOk result (λ copies. copies ≡ values.now) }
{
    let mut copies = Vec::with_capacity(alloc, values.len())?;
    for value in values {
        copies.push(value.copy(alloc)?)?;
    }
    Ok(List::new(copies))
}

pub(crate) fn maybe<T: Part>(alloc: Global, value: Option<&T>) -> Result<Option<T>, NoMemory>
    ensures { IfOk result (λ copy. copy ≡ option_copied value.entry) }
{
    match value {
        Some(value) => Ok(Some(value.copy(alloc)?)),
        None => Ok(None),
    }
}
