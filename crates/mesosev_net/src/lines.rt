//! The printed lines for a socket that could not be opened.

/// The address could not be bound.
pub const BIND_FAILED: &str = "net bind failed\n";

/// No connection could be accepted.
pub(crate) const ACCEPT_FAILED: &str = "net accept failed\n";

/// The peer could not be connected to.
pub(crate) const CONNECT_FAILED: &str = "net connect failed\n";
