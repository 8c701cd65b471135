//! Heights: bounds of the coordinates of elements and of the parts of
//! statements, by which 128 bit arithmetic is known to suffice.
#![tactic(auto)]

mod capped;
mod heights;
mod laws;
mod sketch_heights;

pub use heights::Heights;
pub use laws::{
    heights_are_at_most_plain, heights_are_bounds, heights_at_threes_are_low, heights_bound_sums,
    heights_grow_along_the_construction, heights_grow_with_magnitudes,
};
pub use sketch_heights::{height, heights_of, of_statement};

#[cfg(test)]
mod tests;
