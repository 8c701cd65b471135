//! The script language: a line read as a command, and a command written as a
//! line.
#![tactic(auto)]

mod command_words;
mod commands;
mod laws;
mod limits;
mod lines;
mod numbers;
mod operands;
mod printing;
mod reading;
mod statements;
#[cfg(test)]
mod tests;
mod words;

pub use commands::Command;
pub use laws::spells_one_command;
pub use limits::LINE_LIMIT;
pub use lines::{are_plain, read_line};
pub use numbers::read_natural;
pub use printing::print_command;
pub use words::{Words, split_words};
