//! How long a line may be.

/// Bytes of a line, at most.
pub const LINE_LIMIT: usize = 200;
