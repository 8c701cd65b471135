//! A checker of certificates: where it refuses nothing, what a certificate says is true,
//! whoever wrote it. It uses neither the grids, the board nor the search by
//! which verdicts are found.
#![tactic(auto)]

mod checking;
mod degrees;
mod entries;
mod evaluating;
mod grids;
mod laws;
mod posing;
mod values;
mod walking;

pub use checking::{Checked, check};
pub use laws::{made_certificates_are_valid, valid_certificates_are_true};

#[cfg(test)]
mod tests;
