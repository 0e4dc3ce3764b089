//! The events of a stream to be written.

ghost use Rattle.std.specs.Prelude.{◌≡◌, [], ◌∷◌, ◌++◌, map, IfOk, OnOk};

use mes_json::NoMemory;
use mes_msg::Event;
use mes_stream::message_refs;
use std::alloc::Global;
use std::marker::Model;

/// The events of a stream in order: the master's own events, then references to the given events
/// that are sent. In contracts an `Outgoing` has the list of these events as its value.
#[derive(Drop)]
pub(crate) struct Outgoing<'a> {
    own: Vec<Event>,
    given: Vec<&'a Event>,
}

impl<'a> Model for Outgoing<'a> {
    ghost use Rattle.std.specs.Coded.{codes};
    ghost use Rattle.std.specs.Prelude.{List, ◌++◌, map};
    ghost use Rattle.mes_model_schema.specs.MembersCode.{members_code};
    ghost use Rattle.mes_msg.specs.Event.{Event as EventValue};

    ghost Value = { List EventValue };

    ghost coded = { Prim.hlevel (codes, members_code) };

    ghost view = { λ g. g.own.items ++ map (λ event. event.now) g.given.items };
}

impl<'a> Outgoing<'a> {
    /// Returns a list of the master's own events. Does not allocate.
    pub(crate) fn new(alloc: Global, own: Vec<Event>) -> Outgoing<'a>
        ensures { result ≡ own.items }
    {
        Outgoing {
            own,
            given: Vec::new(alloc),
        }
    }

    /// Appends a given event.
    pub(crate) fn push(&mut self, event: &'a Event) -> Result<(), NoMemory>
        ensures { OnOk result (self.new ≡ self.old ++ event.now ∷ []) }
    {
        self.given.push(event)?;
        Ok(())
    }

    /// Returns a reference to each event.
    pub(crate) fn all(&self, alloc: Global) -> Result<Vec<&Event>, NoMemory>
        ensures { IfOk result (λ all. map (λ event. event.now) all.items ≡ self.now) }
    {
        let mut all = message_refs(alloc, self.own.as_slice())?;
        all.extend_from_slice(self.given.as_slice())?;
        Ok(all)
    }
}
