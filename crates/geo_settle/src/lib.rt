//! Settling: the verdict on what a form asks, by a search over its grid.
#![tactic(auto)]

mod bench;
mod gate;
mod parts;
mod round;
mod samples;
mod settling;
mod threads;
mod values;
mod worker;

pub use bench::{Bench, First};
pub use gate::{Gate, OpenGate};
pub use round::Round;
pub use samples::failing_sample;
pub use settling::settle;
pub use worker::Worker;

#[cfg(test)]
mod bench_tests;
#[cfg(test)]
mod tests;
