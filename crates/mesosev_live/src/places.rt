//! The connections of the live test master, each at a place.

use crate::connection::{Connection, Phase};
use crate::limits::MAX_CONNECTIONS;
use crate::time::earlier;
use mes_json::NoMemory;
use std::alloc::Global;

/// The connections, at `MAX_CONNECTIONS` places.
#[derive(Drop)]
pub(crate) struct Places {
    connections: Vec<Option<Connection>>,
}

impl Places {
    /// Returns empty places.
    pub fn new(alloc: Global) -> Result<Places, NoMemory> {
        let mut connections = Vec::new(alloc);
        for _ in 0..MAX_CONNECTIONS {
            connections.push(None)?;
        }
        Ok(Places { connections })
    }

    /// Returns the connection at a place.
    pub fn get(&mut self, place: usize) -> Option<&mut Connection> {
        self.connections.get_mut(place)?.as_mut()
    }

    /// Returns a place without a connection.
    pub fn free(&self) -> Option<usize> {
        self.connections.iter().position(|place| place.is_none())
    }

    /// Lets a connection have a place.
    pub fn put(&mut self, place: usize, connection: Connection) {
        if let Some(free) = self.connections.get_mut(place) {
            *free = Some(connection);
        }
    }

    /// Closes the connection at a place.
    pub fn close(&mut self, place: usize) {
        if let Some(place) = self.connections.get_mut(place) {
            *place = None;
        }
    }

    /// Notes whether the last write of a connection would have blocked.
    pub fn set_blocked(&mut self, place: usize, is_blocked: bool) {
        if let Some(connection) = self.get(place) {
            connection.set_blocked(is_blocked);
        }
    }

    /// Returns whether the last write of a connection would have blocked, and the system has not
    /// reported it since; or there is no connection.
    pub fn is_blocked(&mut self, place: usize) -> bool {
        match self.get(place) {
            Some(connection) => connection.is_blocked(),
            None => true,
        }
    }

    /// Returns whether no bytes of responses wait on a connection.
    pub fn is_written(&mut self, place: usize) -> bool {
        match self.get(place) {
            Some(connection) => connection.is_written(),
            None => true,
        }
    }

    /// Returns whether too many bytes of responses wait on a connection.
    pub fn is_full(&mut self, place: usize) -> bool {
        match self.get(place) {
            Some(connection) => connection.is_full(),
            None => false,
        }
    }

    /// Notes that a client sends no more bytes. Returns what its connection is used for.
    pub fn note_end(&mut self, place: usize) -> Option<Phase> {
        let connection = self.get(place)?;
        connection.set_ended();
        Some(connection.phase())
    }

    /// Discards what came on a connection.
    pub fn discard(&mut self, place: usize) {
        if let Some(connection) = self.get(place) {
            connection.discard();
        }
    }

    /// Begins to close a connection that is to end, if all was written. Returns whether it is to be
    /// closed at once.
    pub fn end(&mut self, place: usize, now: u64) -> bool {
        match self.get(place) {
            Some(connection) => connection.end(now),
            None => false,
        }
    }

    /// Closes the connections that are to be closed at the time `now`.
    pub fn close_due(&mut self, now: u64) {
        for place in &mut self.connections {
            if place
                .as_mut()
                .is_some_and(|connection| connection.is_due(now))
            {
                *place = None;
            }
        }
    }

    /// Returns the first time at which a connection is closed.
    pub fn first_close(&self) -> Option<u64> {
        let mut first: Option<u64> = None;
        for place in &self.connections {
            if let Some(connection) = place {
                first = earlier(first, connection.closes_at());
            }
        }
        first
    }

    /// Returns the first time from which a late response may be written.
    pub fn first_late(&self) -> Option<u64> {
        let mut first: Option<u64> = None;
        for place in &self.connections {
            if let Some(connection) = place {
                first = earlier(first, connection.writes_from());
            }
        }
        first
    }

    /// Ends that a response on a connection is late, if its time has come. Returns whether it has.
    pub fn end_delay(&mut self, place: usize, now: u64) -> bool {
        match self.get(place) {
            Some(connection) => connection.end_delay(now),
            None => false,
        }
    }

    /// Returns whether bytes of a call can be read on a connection.
    pub fn has_call(&mut self, place: usize) -> bool {
        match self.get(place) {
            Some(connection) => connection.has_call(),
            None => false,
        }
    }

    /// Returns whether no connection has bytes to write, or waits to be closed.
    pub fn are_at_rest(&self) -> bool {
        self.connections.iter().all(is_at_rest)
    }
}

/// Returns whether nothing of the connection waits to be written or closed.
fn is_at_rest(place: &Option<Connection>) -> bool {
    match place {
        Some(connection) => connection.is_at_rest(),
        None => true,
    }
}
