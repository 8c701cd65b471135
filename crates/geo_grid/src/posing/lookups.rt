//! Places of axes, which are looked up once, while a plan is made.

ghost use Rattle.std.specs.Prelude.{◌≡◌};
ghost use Rattle.geo_grid.specs.Codes.{axis_place as axis_place_of};

use geo_degree::Axis;

/// The place of the axis that has this parameter, or how many axes there are.
pub(crate) fn axis_place(axes: &[Axis], parameter: u64) -> usize
    ensures { result ≡ axis_place_of axes.now parameter }
{
    for (i, axis) in axes.iter().enumerate() {
        if u64::from(axis.param) == parameter {
            return i;
        }
    }
    axes.len()
}
