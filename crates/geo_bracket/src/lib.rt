//! Bracket expressions: whether a sum of products of determinants is 0 everywhere.
#![tactic(auto)]

mod brackets;
mod degrees;
mod expressions;
mod heights;
mod laws;
mod limits;
mod posed;
#[cfg(test)]
mod posed_tests;
mod reading;
mod resolving;
mod terms;
#[cfg(test)]
mod tests;

pub use expressions::{Bracket, Expression, SaidExpression, Term};
pub use laws::{
    expressions_are_forms, verdicts_are_true, verdicts_on_expressions, zero_by_the_axes_alone,
};
pub use limits::{FACTOR_LIMIT, TERM_LIMIT};
pub use posed::{PosedZero, settle_zero};
pub use reading::read_expression;
