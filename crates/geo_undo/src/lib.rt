//! The history of a sketch: which changes are done, and which were undone and can be
//! done again.
#![tactic(auto)]

mod history;
mod laws;
#[cfg(test)]
mod rebuilding_tests;
#[cfg(test)]
mod tests;

pub use history::History;
pub use laws::{redone_and_undone, undone_and_redone};
