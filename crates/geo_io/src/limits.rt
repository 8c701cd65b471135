//! How much may be read.

/// Bytes of an input, at most.
pub const INPUT_LIMIT: u64 = 1 << 24;
