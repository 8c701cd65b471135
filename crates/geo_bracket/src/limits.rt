//! How long an expression may be.

/// Terms of an expression, at most.
pub const TERM_LIMIT: usize = 16;

/// Brackets of a term, at most.
pub const FACTOR_LIMIT: usize = 8;
