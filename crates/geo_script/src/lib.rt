//! A script with tools, carried out line by line.
#![tactic(auto)]

mod script;

pub use script::Script;
