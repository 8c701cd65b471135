//! Magnitudes of axes, as heights are asked for them, and values within them.

ghost use Rattle.std.specs.Prelude.{◌≡◌, ◌≤◌, ◌↔◌, length, map, take, true};
ghost use Rattle.geo_sketch.specs.declared.limits.TheConstants.{PARAMETER_LIMIT};
ghost use Rattle.geo_degree.specs.Grids.{axis_magnitude};
ghost use Rattle.geo_grid.specs.Pairs.{paired};
ghost use Rattle.geo_grid.specs.Works.{IsOnGridFrom};

use geo_degree::Axis;
use geo_sketch::PARAMETER_LIMIT;

/// The parameter of each axis with a magnitude, and behind them what does not matter.
pub(crate) type Pairs = [(u32, u64); PARAMETER_LIMIT];

/// The pairs for a magnitude of each axis.
pub(crate) fn pair_up(axes: &[Axis], magnitudes: &[u64]) -> Pairs
    requires count { length magnitudes.now ≡ length axes.now }
    requires few { length axes.now ≤ PARAMETER_LIMIT }
    ensures pairs { take (length axes.now) result ≡ paired axes.now magnitudes.now }
    ensures room { length result ≡ PARAMETER_LIMIT }
{
    let mut pairs = [(0, 0); PARAMETER_LIMIT];
    for i in 0..axes.len() {
        pairs[i] = (axes[i].param, magnitudes[i]);
    }
    pairs
}

/// The pairs for the magnitudes on the grid of the axes.
pub(crate) fn pair_on_grid(axes: &[Axis]) -> Pairs
    requires { length axes.now ≤ PARAMETER_LIMIT }
    ensures pairs { take (length axes.now) result ≡ paired axes.now (map axis_magnitude axes.now) }
    ensures room { length result ≡ PARAMETER_LIMIT }
{
    let mut pairs = [(0, 0); PARAMETER_LIMIT];
    for i in 0..axes.len() {
        pairs[i] = (axes[i].param, magnitude_of(&axes[i]));
    }
    pairs
}

/// Whether the values from a place on are within the magnitudes of the axes.
pub(crate) fn are_on_grid(axes: &[Axis], values: &[i64], from: usize) -> bool
    requires { length values.now ≡ length axes.now }
    ensures { (result ≡ true) ↔ IsOnGridFrom from axes.now values.now }
{
    for k in from..values.len() {
        if values[k].unsigned_abs() > magnitude_of(&axes[k]) {
            return false;
        }
    }
    true
}

/// The greatest absolute value on the grid of an axis.
fn magnitude_of(axis: &Axis) -> u64
    ensures { result ≡ axis_magnitude axis.now }
{
    axis.degree / 2 + axis.degree % 2
}
