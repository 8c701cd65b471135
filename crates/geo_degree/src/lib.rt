//! Degrees of elements and statements in the parameters of a sketch, and the grids
//! that they lead to.
#![tactic(auto)]

mod degrees;
mod grids;
mod laws;
mod limits;

pub use degrees::Degrees;
pub use grids::{Axis, Block, grid_value};
pub use laws::{
    axes_are_the_parameters, axis_has_enough_values, clear_is_zero_everywhere,
    coordinates_are_polynomials, degrees_are_low, grids_have_few_axes, holds_at_every_assignment,
    holds_by_any_axes, holds_by_the_axes_alone, one_verdict, pairs_are_polynomials,
    pairs_have_one_degree, parts_are_polynomials, parts_are_polynomials_along_curves,
    parts_by_own_parameters, parts_by_the_axes_alone, parts_over_any_axes,
    points_are_numbered_by_digits, points_have_a_value_for_each_axis, statements_are_forms,
    verdict_of_is_the_verdict,
};
pub use limits::SIZE_LIMIT;

#[cfg(test)]
mod tests;
