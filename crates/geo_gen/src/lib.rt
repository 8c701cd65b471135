//! Scripts made from a number: a large input that anybody can make again, byte for byte.
#![tactic(auto)]

mod draws;
mod scripts;
mod summaries;

pub use scripts::script;
pub use summaries::{Tally, summary};

/// Memory was wanting.
#[derive(Clone, Copy, PartialEq, Eq, Debug)]
pub struct NoMemory;

#[cfg(test)]
mod tests;
