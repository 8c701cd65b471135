//! Where the elements of a sketch are at present.
#![tactic(auto)]

mod evaluation;
mod here;
mod laws;
mod scene;

pub use here::{Here, Shown};
pub use laws::dual_keeps_places;
pub use scene::Scene;

#[cfg(test)]
mod tests;
