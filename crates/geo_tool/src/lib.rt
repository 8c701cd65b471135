//! Named tools: a script's lines expanded, one by one, so that none of them defines or
//! uses a tool.
#![tactic(auto)]

mod expanded;
mod expander;
mod laws;
mod limits;
#[cfg(test)]
mod tests;
mod tools;
mod uses;

pub use expanded::Expanded;
pub use expander::Expander;
pub use laws::{cut_lines_expand_alike, fed_one_by_one, few_lines_given, own_expansion};
pub use limits::TOOL_LIMIT;
