//! The trait of types that decode the data of records.

ghost use Rattle.std.specs.Prelude.{◌≡◌, ◌≢◌, ℕ, ◌+◌, ◌^◌, ◌<◌, ◌≤◌, List, [], ◌++◌, length, take, OnOk, IfOk, IfErr};
ghost use Rattle.mes_stream.specs.RecordValues.{AddsValue};
ghost use Rattle.mes_stream.specs.declared.record_error.RecordError.{RecordError as Refusal};

use crate::record_error::RecordError;
use mes_json::NoMemoryAt;

/// Decodes the data of consecutive records, as the bytes arrive: one value for each record.
pub trait RecordReader: Drop {
    /// The type of the values.
    type Value: Drop;

    /// The reader has taken these bytes of a record's data, and no allocation failed.
    ghost holds: { Self → List ℕ → Type 0 };

    /// The data represent the value.
    ghost spells: { List ℕ → Self.Value → Type 0 };

    /// The data have no value, for the given reason. `NoMemory`: an allocation may fail at their
    /// last byte.
    ghost breaks: { List ℕ → Refusal → Type 0 };

    /// The data are whole, so that their value may need memory.
    ghost whole: { List ℕ → Type 0 };

    /// The number of bytes that the reader buffers.
    ghost kept: { Self → ℕ };

    /// The largest number of bytes that the reader buffers of these data.
    ghost max_held: { List ℕ → ℕ };

    /// Consumes the bytes `run` of a record's data.
    fn push_run(&mut self, bytes: &[u8]) -> Result<(), NoMemoryAt>
        ensures ok { OnOk result ((r : List ℕ) → holds self.old r
            → holds self.new (r ++ bytes.now)) }
        // On an error: an allocation failed at the byte after `taken` bytes of `run`.
        ensures err { IfErr result (λ refused. 0 < length bytes.now
            → refused.taken < length bytes.now) }
        // An allocation can fail only at a byte for which `breaks` permits it.
        ensures begins { (r : List ℕ) → holds self.old r
            → IfErr result (λ refused. breaks (r
            ++ take (refused.taken + 1) bytes.now) RecordError.NoMemory) };

    /// Returns the value of a record whose data are complete.
    fn finish(&mut self) -> Result<Self::Value, RecordError>
        ensures ok { (r : List ℕ) → holds self.old r → length r < 2 ^ 64 → IfOk result (spells r) }
        ensures err { (r : List ℕ) → holds self.old r → length r < 2 ^ 64
            → IfErr result (breaks r) }
        // Data that are not whole have an error of their own.
        ensures memory { (r : List ℕ) → holds self.old r → length r < 2 ^ 64 → (whole r → ⊥)
            → IfErr result (λ why. why ≢ RecordError.NoMemory) }
        // After a success: the reader is ready for the next record.
        ensures next { OnOk result (holds self.new []) };

    /// Like [`finish`](Self::finish), but appends the value to a list. A value may be large; this
    /// avoids moves.
    fn finish_into(&mut self, values: &mut Vec<Self::Value>) -> Result<(), RecordError>
        ensures adds { (r : List ℕ) → holds self.old r → length r < 2 ^ 64
            → AddsValue spells breaks (holds self.new []) r values.old.items values.new.items
            result }
        // Data that are not whole have an error of their own.
        ensures memory { (r : List ℕ) → holds self.old r → length r < 2 ^ 64 → (whole r → ⊥)
            → IfErr result (λ why. why ≢ RecordError.NoMemory) }
        ensures next { OnOk result (holds self.new []) };

    /// Returns the error for a record without data. Does not allocate.
    fn empty_record_error(&self) -> RecordError
        ensures breaks { breaks [] result }
        ensures memory { result ≢ RecordError.NoMemory };

    /// Frees the buffers. The reader is as at the beginning of a record.
    fn release(&mut self)
        ensures kept { kept self.new ≡ 0 }
        ensures holds { holds self.new [] };

    /// Returns the number of buffered bytes, without spare capacity.
    fn held(&self) -> u64
        ensures count { result ≡ kept self.now }
        ensures most { (r : List ℕ) → holds self.now r → result ≤ max_held r };
}
