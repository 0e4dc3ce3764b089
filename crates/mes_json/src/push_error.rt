//! The error of pushing one byte to the reader.
ghost use Rattle.std.specs.Prelude.{◌≡◌};
ghost use Rattle.mes_json.specs.declared.push_error.PushError.TheVariants.{NoMemory as no_memory};

use crate::fault::TextFaultKind;
use crate::memory::NoMemory;
use std::alloc::{AllocError, AllocFailed};

/// The reason why a byte was not read.
#[derive(Clone, Copy)]
pub(crate) enum PushError {
    /// No JSON text continues with the byte.
    Refused(TextFaultKind),
    NoMemory,
}

impl From<NoMemory> for PushError {
    ghost from_gives = { λ _ stop. stop ≡ no_memory };

    fn from(_refused: NoMemory) -> PushError {
        PushError::NoMemory
    }
}

impl From<AllocError> for PushError {
    ghost from_gives = { λ _ stop. stop ≡ no_memory };

    fn from(_refused: AllocError) -> PushError {
        PushError::NoMemory
    }
}

impl<T: Drop> From<AllocFailed<T>> for PushError {
    ghost from_gives = { λ _ stop. stop ≡ no_memory };

    fn from(_refused: AllocFailed<T>) -> PushError {
        PushError::NoMemory
    }
}
