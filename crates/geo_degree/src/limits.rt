//! How large a grid may be.

/// Points of a grid, at most.
pub const SIZE_LIMIT: u64 = 1 << 20;
