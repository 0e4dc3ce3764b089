//! The limits of this crate.

/// The maximum nesting depth of arrays and objects in a JSON text. RFC 8259 section 9 permits a
/// limit.
pub const MAX_NESTING: usize = 128;

/// The maximum capacity, in bytes, of a buffer that a lexer reuses from a tape: one for texts, one
/// for nodes. A larger buffer is freed.
pub const MAX_REUSED_CAPACITY: usize = 16 * 1024 * 1024;

/// The maximum total length of a tape's texts, in bytes. Beyond it reading returns `NoMemory`.
pub const MAX_TEXTS: usize = u32::MAX as usize;

/// The maximum length, in bytes, of a text that is stored inline, without an allocation.
pub const MAX_INLINE_TEXT: usize = 16;
