//! Reads runs of bytes with the reader.
ghost use Rattle.std.specs.Prelude.{◌≡◌, ◌<◌, Some, IfErr, OnOk, length};
ghost use Rattle.mes_json.specs.declared.push_error.PushError.TheVariants.{NoMemory as no_memory};
ghost use Rattle.mes_json.specs.Machine.{run};
ghost use Rattle.mes_json.specs.Reader.{Fits, Reached, state_view};
ghost use Rattle.mes_json.specs.Read.{RunsPast, StopsIn, fault_at};

use crate::fault::{ReadFault, TextFault};
use crate::limits::MAX_NESTING;
use crate::push_error::PushError;
use crate::reader::Reader;

/// The reason why a run was not read completely.
#[derive(Clone, Copy)]
pub(crate) struct RunStop {
    /// The offset in the run of the first byte that was not read.
    pub place: usize,
    /// The reason why that byte was not read.
    pub stop: PushError,
}

impl Reader {
    /// Reads all of `bytes`, as `take_bytes` does. The offset of a fault counts from the start of
    /// `bytes`.
    pub(crate) fn take_all(&mut self, bytes: &[u8]) -> Result<(), ReadFault>
        requires fits { Fits self.old }
        requires reached { Reached self.old }
        ensures runs { OnOk result (run MAX_NESTING (state_view self.old) bytes.now
            ≡ Some (state_view self.new)) }
        ensures fits { OnOk result (Fits self.new) }
        ensures fault { IfErr result (λ e. StopsIn (state_view self.old) bytes.now e) }
    {
        match self.take_bytes(bytes) {
            Ok(()) => Ok(()),
            Err(stopped) => Err(stopped.fault()),
        }
    }

    /// Reads the bytes in order, and runs of plain bytes in one step. If an allocation fails in a
    /// run of plain bytes, that run is read byte by byte, so that the error belongs to one byte.
    /// After an error the reader must not be used.
    pub(crate) fn take_bytes(&mut self, bytes: &[u8]) -> Result<(), RunStop>
        requires fits { Fits self.old }
        requires reached { Reached self.old }
        ensures runs { OnOk result (run MAX_NESTING (state_view self.old) bytes.now
            ≡ Some (state_view self.new)) }
        ensures fits { OnOk result (Fits self.new) }
        ensures fault { IfErr result (λ e. StopsIn (state_view self.old) bytes.now
            (fault_at e.place e.stop)) }
        ensures inside { IfErr result (λ e. e.place < length bytes.now) }
        // If an allocation fails, some text goes on with the byte that was not read.
        ensures read { IfErr result (λ e. e.stop ≡ no_memory
            → RunsPast (state_view self.old) bytes.now e.place) }
    {
        let mut place = 0;
        while place < bytes.len() {
            if let Err(stop) = self.step(bytes[place]) {
                return Err(RunStop { place, stop });
            }
            place = self.take_run(bytes, place);
        }
        Ok(())
    }
}

impl RunStop {
    fn fault(self) -> ReadFault
        ensures { result ≡ fault_at self.place self.stop }
    {
        match self.stop {
            PushError::Refused(why) => ReadFault::Text(TextFault {
                byte: self.place as u64,
                why,
            }),
            PushError::NoMemory => ReadFault::NoMemory,
        }
    }
}
