//! The result of one step of decoding.

ghost use Rattle.std.specs.Prelude.{◌≡◌, ◌+◌, ◌-◌, ◌^◌, ◌<◌, IsTrue, ◌↔◌};
ghost use Rattle.mes_stream.specs.declared.fault.Fault.TheVariants.{NoMemory as no_memory};

use crate::fault::Fault;
use crate::packed_fault::PackedFault;
use mes_json::NoMemoryAt;

/// The result of decoding a piece of a stream.
#[derive(Drop)]
pub struct Step<V, F = Fault> {
    /// The number of bytes of the piece used. The last of them ends a record or the stream, or is
    /// the byte at which an error is detected.
    pub used: usize,
    /// The meaning of the bytes used.
    pub out: Decoded<V, F>,
}

/// The meaning of the bytes used. The value of an event is `()` if it is not decoded yet.
#[derive(Drop)]
pub enum Decoded<V, F = Fault> {
    /// No record ended, and more bytes are needed. A decoder returns this only for a whole piece.
    More,
    /// The value of the record that ended with the last byte used.
    Event(V),
    /// The last byte used ended the stream.
    End,
    /// An error was detected, or an allocation failed, at the last byte used.
    Fault(F),
}

impl<V, F> Decoded<V, F> {
    /// Returns whether more bytes are needed.
    pub fn is_more(&self) -> bool
        ensures { IsTrue result ↔ (self.now ≡ Decoded.More) }
    {
        match self {
            Decoded::More => true,
            Decoded::Event(_) => false,
            Decoded::End => false,
            Decoded::Fault(_) => false,
        }
    }
}

impl Step<(), PackedFault> {
    /// Returns a step that used `used` bytes, and needs more.
    pub(crate) fn more(used: usize) -> Step<(), PackedFault>
        ensures { result ≡ record { used = used; out = Decoded.More } }
    {
        Step {
            used,
            out: Decoded::More,
        }
    }

    /// Returns the error for an allocation that failed at the byte after `refused.taken` bytes.
    pub(crate) fn no_memory(refused: NoMemoryAt) -> Step<(), PackedFault>
        requires { refused.taken < 2 ^ 64 - 1 }
        ensures used { result.used ≡ refused.taken + 1 }
        ensures fault { result.out ≡ Decoded.Fault no_memory }
    {
        Step {
            used: refused.taken + 1,
            out: Decoded::Fault(PackedFault::no_memory()),
        }
    }
}

impl<V> Step<V, PackedFault> {
    /// Returns the same step with the error in its public form.
    pub fn unpacked(self) -> Step<V>
        ensures { result ≡ self }
    {
        let Step { used, out } = self;
        let out = match out {
            Decoded::More => Decoded::More,
            Decoded::Event(value) => Decoded::Event(value),
            Decoded::End => Decoded::End,
            Decoded::Fault(fault) => Decoded::Fault(fault.into_fault()),
        };
        Step { used, out }
    }
}
