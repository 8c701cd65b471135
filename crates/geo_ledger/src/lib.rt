//! The ledger of a sketch: its conjectures and its claims, each with its verdict.
#![tactic(auto)]

mod copies;
mod entry;
mod keeping;
mod laws;
mod ledger;
mod listing;
mod settling;

pub use entry::Entry;
pub use laws::{
    dual_keeps_the_ledger, kept_through_changes, verdicts_by_definitions,
    what_holds_is_in_the_ledger,
};
pub use ledger::Ledger;

#[cfg(test)]
mod tests;
