//! How large a job of a batch may be.

/// Bytes of a job, at most, each line with one for its end.
pub const JOB_SIZE_LIMIT: usize = 65_536;
