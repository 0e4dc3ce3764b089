//! The errors of reading a JSON text.
ghost use Rattle.std.specs.Prelude.{◌≡◌};
ghost use Rattle.mes_json.specs.declared.fault.ReadFault.TheVariants.{NoMemory as no_memory};

use crate::memory::{NoMemory, NoMemoryAt};

/// The reason why no JSON text continues at an offset.
#[derive(Debug, Clone, Copy, PartialEq, Eq)]
pub enum TextFaultKind {
    /// The bytes end before the text does.
    End,
    /// The byte opens an array or an object above the limit `MAX_NESTING`.
    Depth,
    /// No JSON text continues with the byte at the offset.
    Byte,
}

/// The first error of bytes that are not a JSON text.
#[derive(Debug, Clone, Copy, PartialEq, Eq)]
pub struct TextFault {
    /// The offset of the error: the length of the longest prefix that some JSON text begins with.
    pub byte: u64,
    /// The reason why no JSON text continues at the offset.
    pub why: TextFaultKind,
}

/// The reason why a JSON text was not read.
#[derive(Debug, Clone, Copy, PartialEq, Eq)]
pub enum ReadFault {
    /// The bytes are not a JSON text.
    Text(TextFault),
    /// An allocation failed.
    NoMemory,
}

impl From<NoMemory> for ReadFault {
    ghost from_gives = { λ _ fault. fault ≡ no_memory };

    fn from(_refused: NoMemory) -> ReadFault {
        ReadFault::NoMemory
    }
}

impl From<NoMemoryAt> for ReadFault {
    ghost from_gives = { λ _ fault. fault ≡ no_memory };

    fn from(_refused: NoMemoryAt) -> ReadFault {
        ReadFault::NoMemory
    }
}
