//! Whether 64 bits suffice on the grid of some axes.

ghost use Rattle.std.specs.Prelude.{◌≡◌, ◌≤◌, ◌↔◌, ℕ, length, map, true, All};
ghost use Rattle.geo_sketch.specs.Lookups.{IsLive};
ghost use Rattle.geo_sketch.specs.Needs.{AtStated};
ghost use Rattle.geo_sketch.specs.declared.limits.TheConstants.{PARAMETER_LIMIT};
ghost use Rattle.geo_height.specs.Capped.{within_limit};
ghost use Rattle.geo_degree.specs.Grids.{axes_of, axis_magnitude};
ghost use Rattle.geo_degree.specs.Verdicts.{statement_height_at};
ghost use Rattle.geo_triple.specs.declared.limits.TheConstants.{SHORT_LIMIT};
ghost use Rattle.geo_grid.specs.Works.{AreLow};

use crate::posing::magnitudes::pair_on_grid;
use geo_degree::Axis;
use geo_height::{height, of_statement};
use geo_sketch::{Sketch, Statement};
use geo_triple::SHORT_LIMIT;

/// Whether they suffice for a statement about live elements, whose axes these are.
pub(crate) fn is_short_statement(sketch: &Sketch, statement: &Statement, axes: &[Axis]) -> bool
    requires live { AtStated statement.now (IsLive sketch.now.elements) }
    requires axes { axes.now ≡ axes_of sketch.now.elements statement.now }
    requires few { length axes.now ≤ PARAMETER_LIMIT }
    ensures { (result ≡ true) ↔ (statement_height_at sketch.now.elements statement.now (map axis_magnitude axes.now) ≤ SHORT_LIMIT) }
{
    let pairs = pair_on_grid(axes);
    is_short(of_statement(sketch, statement, &pairs[..axes.len()]))
}

/// Whether they suffice for some live elements.
pub(crate) fn are_short_elements(sketch: &Sketch, named: &[u32], axes: &[Axis]) -> bool
    requires live { All (IsLive sketch.now.elements) named.now }
    requires few { length axes.now ≤ PARAMETER_LIMIT }
    ensures { (result ≡ true) ↔ AreLow SHORT_LIMIT (record { drawing = sketch.now; named = named.now; axes = axes.now }) (map axis_magnitude axes.now) }
{
    let pairs = pair_on_grid(axes);
    for n in named {
        if !is_short(height(sketch, *n, &pairs[..axes.len()])) {
            return false;
        }
    }
    true
}

/// Whether they suffice at a height, which is given as far as it is within the limit.
fn is_short(height: Option<u128>) -> bool
    ensures { (h : ℕ) → height ≡ within_limit h → (result ≡ true) ↔ (h ≤ SHORT_LIMIT) }
{
    match height {
        Some(height) => height <= SHORT_LIMIT,
        None => false,
    }
}
