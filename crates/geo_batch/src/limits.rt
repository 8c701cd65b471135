//! How many jobs may run at once.

/// Jobs that are run side by side, at most.
pub const JOB_LIMIT: u64 = 16;
