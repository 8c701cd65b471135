//! How large a search may be, and how many may share it.

/// Workers of a search, at most.
pub const WORKER_LIMIT: u64 = 16;

/// Chunks of a board, and indices of a search, at most.
pub const INDEX_LIMIT: u64 = 1 << 20;
