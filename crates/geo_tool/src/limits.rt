//! How many tools a script may have.

/// Tools of a script, at most.
pub const TOOL_LIMIT: usize = 40;
