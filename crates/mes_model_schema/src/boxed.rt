//! A heap-allocated value, so that the struct or enum with it is small.

ghost use Rattle.std.specs.Prelude.{◌≡◌, IfOk};

use crate::field::FieldFault;
use crate::part::{Part, PartFault};
use crate::path_builder::PathBuilder;
use mes_json::{Element, Json, NoMemory};
use std::alloc::Global;
use std::marker::Model;

/// A heap-allocated value, so that the struct or enum with it is small. In contracts a `Boxed` is
/// the value in it.
#[derive(Debug, Drop)]
pub struct Boxed<T> {
    value: Box<T>,
}

/// A heap-allocated fault.
pub type BoxedFault = Boxed<FieldFault>;

impl<T> Model for Boxed<T> {
    ghost Value = { T };

    ghost view = { λ b. b.value.value };
}

impl<T> Boxed<T> {
    /// Borrows the value.
    pub fn get(&self) -> &T
        ensures { result.now ≡ self.now }
    {
        self.value.as_ref()
    }

    /// Moves the value out and frees its memory.
    pub fn into_inner(self) -> T
        ensures { result ≡ self }
    {
        let Boxed { value } = self;
        Box::into_inner(value)
    }
}

impl<T: Drop> Boxed<T> {
    /// Moves a value to the heap. Returns `NoMemory` if the allocation failed; the value is then
    /// dropped.
    pub fn new(alloc: Global, value: T) -> Result<Boxed<T>, NoMemory>
        ensures { IfOk result (λ b. b ≡ value) }
    {
        let value = Box::new(alloc, value)?;
        Ok(Boxed { value })
    }
}

/// A `Boxed` is read, written and copied like the value in it.
impl<T: Part> Part for Boxed<T> {
    ghost kind = { T.kind };

    ghost STEPS = { T.STEPS };

    const STEPS: u32 = T::STEPS;

    ghost lawful = { T.lawful };

    fn read_from(
        alloc: Global,
        element: &Element<'_>,
        path: &PathBuilder<'_>,
    ) -> Result<Boxed<T>, PartFault> {
        match T::read_from(alloc, element, path) {
            Ok(value) => Ok(Boxed::new(alloc, value)?),
            Err(fault) => Err(fault),
        }
    }

    fn tree(&self, alloc: Global) -> Result<Json, NoMemory> {
        self.get().tree(alloc)
    }

    fn write_json(&self, alloc: Global, out: &mut Vec<u8>) -> Result<u64, NoMemory> {
        self.get().write_json(alloc, out)
    }

    fn copy(&self, alloc: Global) -> Result<Boxed<T>, NoMemory> {
        Boxed::new(alloc, self.get().copy(alloc)?)
    }

    fn reads_back(&self) {
        self.get().reads_back();
    }
}
