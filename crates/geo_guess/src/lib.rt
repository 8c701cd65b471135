//! What seems to hold in a sketch: the statements that hold at eight sample positions and are
//! neither plain nor improper, kept as elements come and leave.
#![tactic(auto)]

mod candidates;
mod guesses;
mod laws;
mod order;
mod samples;
mod scan;
mod trials;

pub use guesses::Guesses;
pub use laws::{
    changes_by_one_element, dual_keeps_conjectures, what_holds_is_listed, what_is_listed,
    what_is_listed_is_posed,
};

#[cfg(test)]
mod tests;
