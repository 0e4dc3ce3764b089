//! The limits of paths and of messages.

/// The most steps of a path.
pub const MAX_PATH_STEPS: usize = 16;

/// The most bytes of a name in a path.
pub const MAX_PATH_NAME: usize = 31;

/// The most bytes of the text of a path, whose steps each have at most a dot and a name.
pub const MAX_PATH_TEXT: usize = MAX_PATH_STEPS * (MAX_PATH_NAME + 1);

/// The most rows in the table of a message, so that the members found have room on the stack.
pub const MAX_ROWS: usize = 64;
