#![tactic(auto)]
//! A session and a live test master, between which no event is lost: what `mes_double` proves of its
//! worlds holds of them.
//!
//! `specs/LiveWorlds.antt` defines what can happen: the live test master makes steps (the clauses
//! `steps` of the methods of `mes_double_live::Live`), the session receives the events in order, and its
//! calls other than SUBSCRIBE arrive at any time, more than once or never. That the bytes of a stream are
//! the events that the steps send is proved by `stream_laws` of `mes_double_live`, if no fault of an event
//! is planned. [`live_world_laws`] proves that each run is a run of a world of `mes_double`.

mod theorems;

pub use theorems::live_world_laws;
