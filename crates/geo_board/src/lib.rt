//! The claim board of a search: workers claim its chunks one after the other, tell each other the least failing index
//! found so far, and wait for nobody.
#![tactic(auto)]

mod board;
mod laws;
mod limits;
mod rule;
mod seat;
mod views;

pub use laws::{every_schedule, truthful_entries};
pub use limits::{INDEX_LIMIT, WORKER_LIMIT};
pub use seat::{Board, BoardSeat, Entry, NoMemory};

#[cfg(test)]
mod tests;
