//! The values of the axes at a grid point, with the parameters that they are for.

ghost use Rattle.std.specs.Prelude.{◌≡◌, ◌<◌, IfOk, length};
ghost use Rattle.geo_degree.specs.Grids.{grid_size};
ghost use Rattle.geo_degree.specs.Questions.{grid_of, point};
ghost use Rattle.geo_degree.specs.Verdicts.{named};

use geo_degree::Axis;
use geo_grid::{Form, Grid};
use geo_sketch::{NoMemory, Values};
use std::alloc::Global;

/// A value for each axis of the form, to be written over.
pub(crate) fn blank_values<F: Form>(alloc: Global, form: &F) -> Result<Vec<i64>, NoMemory>
    ensures { IfOk result (λ values. length values.items ≡ length (F.question form.now).axes) }
{
    let count = form.axes().len();
    match vec![in alloc; 0; count] {
        Ok(values) => Ok(values),
        Err(_) => Err(NoMemory),
    }
}

/// The values at the point of the grid with this index, each with its parameter.
pub(crate) fn values_at<F: Form>(
    alloc: Global,
    form: &F,
    grid: &Grid,
    index: u64,
) -> Result<Values, NoMemory>
    requires grid { grid.now ≡ (F.question form.now).blocks }
    requires within { index < grid_size (grid_of (F.question form.now)) }
    ensures { IfOk result (λ values. values ≡ named (F.question form.now).axes (point (F.question form.now) index)) }
{
    let mut values = blank_values(alloc, form)?;
    grid.point(index, &mut values);
    name_values(alloc, form.axes(), &values)
}

/// Each axis with its value.
pub(crate) fn name_values(alloc: Global, axes: &[Axis], values: &[i64]) -> Result<Values, NoMemory>
    ensures { IfOk result (λ list. list ≡ named axes.now values.now) }
{
    let mut list = Values::new(alloc);
    for (axis, value) in axes.iter().zip(values) {
        list.push(axis.param, *value)?;
    }
    Ok(list)
}
