//! Reads a device, and passes the bytes of each read to a consumer.

ghost use Rattle.std.specs.Prelude.{◌≡◌, ℕ, ◌<◌, ◌≤◌, List, [], ◌++◌, length, OnOk, IfErr};
ghost use Rattle.std.specs.Io.KnownBytes.{Consumes};
ghost use Rattle.mes_stream.specs.Reads.{EndsReads};

use crate::limits::MAX_READ;
use mes_frame::Source;

/// Consumes the bytes of a device's reads, and updates an object of type `T` with the bytes.
pub trait Consumer<T> {
    /// The reason for which the consumer stopped.
    type Stop: Drop;

    /// The bytes changed the consumer and the object from the first pair of states to the second,
    /// and the consumer continues.
    ghost goes: { Self → T → Self → T → List ℕ → Type 0 };

    /// Like `goes`, for the bytes before the last piece; the consumer stopped in that piece.
    ghost stops: { Self → T → Self → T → List ℕ → List ℕ → Self.Stop → Type 0 };

    /// Consumes the bytes of one read. An error stops the reading.
    fn consume(&mut self, piece: &[u8], to: &mut T) -> Result<(), Self::Stop>
        requires some { 0 < length piece.now }
        requires most { length piece.now ≤ MAX_READ }
        // On success: the consumer continues after the piece.
        ensures more { (first : Self) (start : T) (w : List ℕ) → goes first start self.old to.old w
            → OnOk result (goes first start self.new to.new (w ++ piece.now)) }
        // On an error: the consumer stopped in the piece.
        ensures stop { (first : Self) (start : T) (w : List ℕ) → goes first start self.old to.old w
            → IfErr result (stops first start self.new to.new w piece.now) };
}

/// How the reads of a device ended.
#[derive(Drop)]
pub enum ReadsEnd<Z> {
    /// The consumer stopped.
    Stopped(Z),
    /// The device reported its end.
    AtEnd,
    /// A read failed.
    Failed,
    /// All allowed reads were made, and the device has not reported its end.
    Spent,
}

/// Reads a device at most `max_reads` times, at most `MAX_READ` bytes each time, and passes each
/// piece to `consumer`.
pub fn read_device<S: Source, T, C: Consumer<T>>(
    source: &mut S,
    max_reads: u64,
    consumer: &mut C,
    to: &mut T,
) -> ReadsEnd<C::Stop>
    requires { C.goes consumer.old to.old consumer.old to.old [] }
    // The bytes read from the device, the states of `consumer` and `to`, and the number of reads.
    ensures { (w : List ℕ) × Consumes (S.device source.old).bytes (S.device source.new).bytes w
        × EndsReads (C.goes consumer.old to.old consumer.new to.new)
        (C.stops consumer.old to.old consumer.new to.new) max_reads
        (S.device source.old).counts (S.device source.new).counts (S.device source.new).bytes w result }
{
    let mut buffer = [0; MAX_READ];
    'reads: for _ in 0..max_reads {
        let taken = match source.fetch(&mut buffer) {
            Ok(taken) => taken,
            Err(_) => return ReadsEnd::Failed,
        };
        if taken == 0 {
            return ReadsEnd::AtEnd;
        }
        if let Err(stop) = consumer.consume(&buffer[..taken], to) {
            return ReadsEnd::Stopped(stop);
        }
    }
    ReadsEnd::Spent
}
