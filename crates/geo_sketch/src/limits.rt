//! How much a sketch may hold, and how large its numbers may be.

/// Live elements of a sketch, at most.
pub const ELEMENT_LIMIT: usize = 64;

/// The coordinates of a fixed triple are in absolute value at most it.
pub const COORDINATE_LIMIT: u64 = 1000;

/// Parameters of the live elements, at most.
pub const PARAMETER_LIMIT: usize = 24;

/// Numbers of elements are below it, live and dropped ones.
pub const NUMBER_LIMIT: usize = 1000;

/// Claims of a sketch, at most.
pub const CLAIM_LIMIT: usize = 60;

/// The greatest plain height that an element may have at magnitude 3, and the greatest
/// height of an element that is shown.
pub const HEIGHT_LIMIT: u128 = 1 << 41;

/// How many assignments there are at which statements are tried; positions are below it.
pub const SAMPLE_COUNT: usize = 8;
