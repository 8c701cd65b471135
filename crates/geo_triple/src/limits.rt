//! How large numbers may become.

/// The greatest height of a statement: up to it no operation of 128 bits overflows.
pub const STATEMENT_LIMIT: u128 = 1 << 126;

/// The greatest number of 64 bits.
pub const SHORT_LIMIT: u128 = (1 << 63) - 1;
