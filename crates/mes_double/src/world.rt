//! A session and a test master, with the messages between them.
ghost use Rattle.std.specs.Prelude.{◌≡◌};
ghost use Rattle.mes_double.specs.Worlds.{new_world};

mod making;

use crate::sent::Sent;
use mes_double_master::Master;
use mes_model::Id;
use mes_msg::Event;
use mes_session::Session;
use std::alloc::Global;
use std::marker::Model;
use uuid::Uuid;

/// A session, a test master, and the messages between them. In contracts its value is `WorldState`.
#[derive(Drop)]
pub struct World {
    alloc: Global,
    master: Master,
    session: Session,
    waiting: Vec<Event>,
    sent: Vec<Sent>,
    skipped: usize,
}

impl Model for World {
    ghost use Rattle.std.specs.Coded.{codes};
    ghost use Rattle.mes_model_schema.specs.MembersCode.{members_code};
    ghost use Rattle.mes_double.specs.Worlds.{WorldState};

    ghost Value = { WorldState };

    ghost coded = { Prim.hlevel (codes, members_code) };

    ghost view = { λ w. record {
      master = w.master;
      session = w.session;
      waiting = w.waiting.items;
      sent = w.sent.items;
      skipped = w.skipped;
    } };
}

impl World {
    /// Returns a world with a new session and a new master, whose streams get these ids. Does not
    /// allocate.
    pub(crate) fn new(alloc: Global, framework: Id, ids: Vec<Uuid>) -> World
        ensures { result ≡ new_world framework ids.items }
    {
        World {
            alloc,
            master: Master::new(alloc, framework, ids),
            session: Session::new(alloc),
            waiting: Vec::new(alloc),
            sent: Vec::new(alloc),
            skipped: 0,
        }
    }

    /// Returns the master. Neither this nor another getter allocates.
    pub fn master(&self) -> &Master
        ensures { result.now ≡ self.now.master }
    {
        &self.master
    }

    /// Returns the session.
    pub fn session(&self) -> &Session
        ensures { result.now ≡ self.now.session }
    {
        &self.session
    }

    /// Returns the queued events, which were sent and not yet received, in order.
    pub fn waiting(&self) -> &[Event]
        ensures { result.now ≡ self.now.waiting }
    {
        self.waiting.as_slice()
    }

    /// Returns the calls of the session in order, each with the id of the stream that was then
    /// current.
    pub fn sent(&self) -> &[Sent]
        ensures { result.now ≡ self.now.sent }
    {
        self.sent.as_slice()
    }

    /// Returns the number of moves that were impossible or refused.
    pub fn skipped(&self) -> usize
        ensures { result ≡ self.now.skipped }
    {
        self.skipped
    }
}
