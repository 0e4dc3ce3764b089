//! Reads an event from the bytes of a record, and writes its canonical text.
ghost use Rattle.std.specs.Prelude.{◌≡◌, [], Ok, IfOk, IfErr, MatchResult};
ghost use Rattle.mes_model_schema.specs.View.{view};
ghost use Rattle.mes_model_schema.specs.Parts.{Gives, IsFirstFault};
ghost use Rattle.mes_msg_event.specs.Canon.{canonical_text, IsGood, IsEncodeFault};
ghost use Rattle.mes_msg_event.specs.Events.{event, Spells, IsRecordFault};

use crate::event::Event;
use mes_frame::Limit;
use mes_model_schema::{PartFault, Path, json, read_part};
use mes_msg_record::{EncodeFault, RecordFault, canonical_bytes, read_bytes};
use std::alloc::Global;

impl Event {
    /// Reads the event in the bytes of a record, without building a JSON tree.
    pub fn read_record(alloc: Global, bytes: &[u8]) -> Result<Event, RecordFault>
        // On success: the bytes are a JSON text of the event.
        ensures ok { IfOk result (Spells bytes.now) }
        // If the bytes are a JSON text of event ev, the result is ev, or an allocation failed.
        ensures only { (ev : Event) → Spells bytes.now ev
            → MatchResult result (λ e. e ≡ ev) (λ e. e ≡ RecordFault.NoMemory) }

        // On error: the bytes are not a JSON text or not an event, and the error is the first
        // fault; or an allocation failed.
        ensures err { IfErr result (IsRecordFault bytes.now) }
    {
        read_bytes(alloc, bytes)
    }

    /// Reads the event that a JSON value represents.
    pub fn of_tree(alloc: Global, json: &json::Json) -> Result<Event, PartFault>
        ensures ok { IfOk result (event.Reads (view json.now)) }
        ensures only { (ev : Event) → event.Reads (view json.now) ev → Gives (Ok ev) result }
        ensures err { IfErr result (IsFirstFault event [] (view json.now)) }
    {
        read_part(alloc, json, &Path::new())
    }

    /// Returns the canonical text of the event. The text has no white space, and its members are in
    /// the order of the tables. Absent values, unset flags and empty lists are left out. The text
    /// nests at most `MAX_NESTING` deep and has at most `limit` bytes.
    pub fn canon(&self, alloc: Global, limit: Limit) -> Result<Vec<u8>, EncodeFault>
        // On success: the result is the canonical text of the event, within the limit. It is read
        // back as the same event.
        ensures text { IfOk result (λ text. text.items ≡ canonical_text self.now) }
        ensures good { IfOk result (λ _. IsGood self.now limit) }
        ensures spells { IfOk result (λ text. Spells text.items self.now) }
        // If the event has a canonical text within the limit, the only error is a failed
        // allocation.
        ensures only { IsGood self.now limit
            → MatchResult result (λ text. text.items ≡ canonical_text self.now) (λ e. e
            ≡ EncodeFault.NoMemory) }

        // On error: the event nests too deep; or it does not, and its text is too large; or an
        // allocation failed.
        ensures err { IfErr result (IsEncodeFault self.now limit) }
    {
        canonical_bytes(self, alloc, limit)
    }
}
