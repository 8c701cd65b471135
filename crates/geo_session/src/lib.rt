//! One script's state: what is answered to each line.
#![tactic(auto)]

mod certifying;
mod desk;
mod edits;
mod followers;
mod laws;
mod ledger_texts;
mod session;
mod state;
mod steps;
mod texts;
mod views;
mod workers;
mod zeros;

pub use laws::{printed_verdicts_are_true, refused_lines_change_nothing};
pub use state::{Reply, Session};
