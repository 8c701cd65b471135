//! One checked step of derivation: from statements that hold, one that no grid need settle.
#![tactic(auto)]

mod laws;
mod premises;
mod reading;
mod rules;
mod shapes;
mod side;
#[cfg(test)]
mod tests;

pub use laws::{
    derived_statements_hold, inferences_are_derivations, one_of_two_holds, rules_are_identities,
};
pub use premises::Premises;
pub use reading::read_step;
pub use rules::{Rule, SaidStep};
pub use shapes::{Shape, shape_of};
pub use side::{is_plain, not_null_somewhere};
