//! Forms, which a search over a grid can settle; their grids; and cursors over these.
#![tactic(auto)]

mod posing;
mod search;
mod spacing;

pub use geo_degree::{Axis, Block};
pub use posing::{Plan, Posed};
pub use search::{Cursor, Form, Grid, GridStop, Scratch};

#[cfg(test)]
mod posed_tests;
#[cfg(test)]
mod tests;
