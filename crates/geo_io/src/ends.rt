//! How a call that reads or writes ends without success.

use thiserror::Error;

/// A source could not read. The object's count of faults tells that it happened.
#[derive(Clone, Copy, Debug, PartialEq, Eq)]
pub struct Failed;

/// Memory was wanting.
#[derive(Clone, Copy, Debug, PartialEq, Eq)]
pub struct NoMemory;

/// Why a sink took nothing of a piece, or not all of some bytes.
#[derive(Clone, Copy, Debug, PartialEq, Eq, Error)]
pub enum SinkEnd {
    #[error("writing failed")]
    Failed,
    #[error("out of memory")]
    NoMemory,
}

/// Why a source was not read to its end.
#[derive(Clone, Copy, Debug, PartialEq, Eq, Error)]
pub enum LineEnd {
    #[error("reading failed")]
    Failed,
    #[error("the input has more than 2^24 bytes")]
    TooLong,
    #[error("out of memory")]
    NoMemory,
}
