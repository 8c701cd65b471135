//! Jobs that run side by side and come back in their order.
#![tactic(auto)]

mod jobs;
mod limits;

pub use jobs::{Job, run_all};
pub use limits::JOB_LIMIT;

/// Memory was wanting.
#[derive(Clone, Copy, PartialEq, Eq, Debug)]
pub struct NoMemory;

#[cfg(test)]
mod tests;
