//! The letters with which the data of a session log's records begin.

/// The letter of an event received. Its JSON text follows.
pub const EVENT: u8 = b'E';

/// The letter of a call sent. Its JSON text follows.
pub const CALL: u8 = b'C';

/// The letter of a disconnect. No bytes follow it. Version 1 of the log has no disconnects.
pub const BROKEN: u8 = b'B';

/// The only byte of the header, the first record of a log of version 2. Version 1 has no header.
pub const HEADER: u8 = b'2';
