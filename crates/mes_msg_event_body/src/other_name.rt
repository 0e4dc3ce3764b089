//! The name of an event type whose body is not read.
ghost use Rattle.std.specs.Prelude.{◌≡◌, IfOk, IfErr};
ghost use Rattle.mes_model_schema.specs.Fields.{is_in};
ghost use Rattle.mes_msg_event_body.specs.EventNames.{event_names, IsOther};

use mes_model_schema::json::{NoMemory, Text};
use std::alloc::Global;
use std::marker::Model;

/// The type of an event whose body is ignored: any text but the eight known types of events. In
/// contracts its value is the bytes of the text.
#[derive(Debug, Drop)]
pub struct OtherName {
    name: Text,
}

impl Model for OtherName {
    ghost use Rattle.std.specs.Prelude.{ℕ, List};
    ghost use Rattle.mes_msg_event_body.specs.EventNames.{IsOther};

    ghost Value = { List ℕ };

    ghost view = { λ other. other.name };

    ghost invariant = { λ other. IsOther other.name };
}

impl OtherName {
    /// Returns the name, or the text as the error if it is one of the eight known types of events.
    /// Does not allocate.
    pub fn new(name: Text) -> Result<OtherName, Text>
        ensures ok { IfOk result (λ other. (other ≡ name) × IsOther name) }
        ensures err { IfErr result (λ again. (again ≡ name) × (IsOther name → ⊥)) }
    {
        if is_read(name.as_str()) {
            Err(name)
        } else {
            Ok(OtherName { name })
        }
    }

    /// Copies the name of an event type, which must not be one of the eight known types.
    pub fn of_type(alloc: Global, name: &str) -> Result<OtherName, NoMemory>
        requires { IsOther name.now }
        ensures { IfOk result (λ other. other ≡ name.now) }
    {
        let name = Text::of(alloc, name)?;
        Ok(OtherName { name })
    }

    /// Returns the name as a text.
    pub fn text(&self) -> &Text
        ensures text { result.now ≡ self.now }
        ensures other { IsOther self.now }
    {
        &self.name
    }

    /// Returns the name as a string slice.
    pub fn as_str(&self) -> &str
        ensures text { result.now ≡ self.now }
        ensures other { IsOther self.now }
    {
        self.name.as_str()
    }

    /// Returns the text of the name, without a copy.
    pub fn into_text(self) -> Text
        ensures { result ≡ self }
    {
        let OtherName { name } = self;
        name
    }

    /// Returns a copy of the name.
    pub fn copy(&self, alloc: Global) -> Result<OtherName, NoMemory>
        ensures { IfOk result (λ other. other ≡ self.now) }
    {
        let name = self.name.copy(alloc)?;
        Ok(OtherName { name })
    }
}

/// Returns whether the name is one of the eight known types of events.
fn is_read(name: &str) -> bool
    ensures { result ≡ is_in name.now event_names }
{
    matches!(
        name,
        "SUBSCRIBED"
            | "OFFERS"
            | "RESCIND"
            | "UPDATE"
            | "MESSAGE"
            | "FAILURE"
            | "ERROR"
            | "HEARTBEAT"
    )
}
