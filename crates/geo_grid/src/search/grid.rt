//! The grid of a form.

ghost use Rattle.std.specs.Prelude.{◌≡◌, ◌<◌, ◌≤◌, ◌↔◌, IfOk, Err, IsTrue, All, length, map};
ghost use Rattle.geo_triple.specs.declared.limits.TheConstants.{STATEMENT_LIMIT};
ghost use Rattle.geo_degree.specs.Blocks.{points_of_all};
ghost use Rattle.geo_degree.specs.Grids.{axis_magnitude, grid_point, grid_size};
ghost use Rattle.geo_degree.specs.Questions.{IsWithinLimits, grid_magnitudes, grid_of};
ghost use Rattle.geo_grid.specs.Values.{axis_count};
ghost use Rattle.geo_grid.specs.Walks.{wheels_of};
ghost use Rattle.geo_degree.specs.declared.limits.TheConstants.{SIZE_LIMIT};

use super::digits::{write_digits, write_values};
use super::form::Form;
use super::sizes::size_within_limit;
use super::wheels::{Wheel, find_wheels};
use geo_degree::{Axis, Block};
use geo_sketch::{PARAMETER_LIMIT, Past};
use std::alloc::Global;
use std::marker::Model;

/// Why a form has no grid that can be searched.
#[derive(Clone, Copy, PartialEq, Eq, Debug)]
pub enum GridStop {
    /// It passes a limit.
    Past(Past),
    NoMemory,
}

/// The grid of a form, where it is within the limits. Contracts see the list of its blocks.
#[derive(Drop)]
pub struct Grid {
    blocks: Vec<Block>,
    /// How far the digit of each axis turns.
    wheels: Vec<Wheel>,
    size: u64,
}

impl Model for Grid {
    ghost use Rattle.std.specs.Prelude.{◌≡◌, ◌≤◌, List};
    ghost use Rattle.geo_sketch.specs.declared.limits.TheConstants.{PARAMETER_LIMIT};
    ghost use Rattle.geo_degree.specs.declared.limits.TheConstants.{SIZE_LIMIT};
    ghost use Rattle.geo_degree.specs.declared.grids.Block.{Block};
    ghost use Rattle.geo_degree.specs.Blocks.{points_of_all};
    ghost use Rattle.geo_degree.specs.Grids.{grid_size};
    ghost use Rattle.geo_grid.specs.Values.{axis_count};
    ghost use Rattle.geo_grid.specs.Walks.{wheels_of};

    ghost Value = { List Block };

    ghost view = { λ g. g.blocks.items };

    ghost invariant = { λ g.
        (g.wheels.items ≡ wheels_of g.blocks.items) ×
        (g.size ≡ grid_size (points_of_all g.blocks.items)) ×
        (g.size ≤ SIZE_LIMIT) ×
        (axis_count g.blocks.items ≤ PARAMETER_LIMIT) };
}

impl Grid {
    /// The grid of a form, or the limit that it passes: that of 2^20 points, or else that of
    /// a height of 2^126 at the magnitudes of its axes.
    pub fn of<F: Form>(alloc: Global, form: &F) -> Result<Grid, GridStop>
        ensures grid { IfOk result (λ g. (g ≡ (F.question form.now).blocks) × IsWithinLimits (F.question form.now)) }
        ensures size { (result ≡ Err (GridStop.Past Past.Size)) ↔ (SIZE_LIMIT < grid_size (grid_of (F.question form.now))) }
        ensures height { (result ≡ Err (GridStop.Past Past.Height)) ↔ ((grid_size (grid_of (F.question form.now)) ≤ SIZE_LIMIT) × (STATEMENT_LIMIT < (F.question form.now).height_at (grid_magnitudes (F.question form.now)))) }
    {
        let blocks = form.blocks();
        let Some(size) = size_within_limit(blocks) else {
            return Err(GridStop::Past(Past::Size));
        };
        if !is_low(form) {
            return Err(GridStop::Past(Past::Height));
        }
        let Ok(wheels) = find_wheels(alloc, blocks) else {
            return Err(GridStop::NoMemory);
        };
        match blocks.to_vec(alloc) {
            Ok(blocks) => Ok(Grid {
                blocks,
                wheels,
                size,
            }),
            Err(_) => Err(GridStop::NoMemory),
        }
    }

    /// How many points it has.
    pub fn size(&self) -> u64
        ensures size { result ≡ grid_size (points_of_all self.now) }
        ensures small { result ≤ SIZE_LIMIT }
    {
        self.size
    }

    /// Writes the values of the axes at the point with this index. It takes no memory.
    pub fn point(&self, index: u64, out: &mut [i64])
        requires within { index < grid_size (points_of_all self.now) }
        requires room { length out.old ≡ axis_count self.now }
        ensures { out.new ≡ grid_point (points_of_all self.now) index }
    {
        let size = self.size;
        let mut digits = [0; PARAMETER_LIMIT];
        let digits = &mut digits[..out.len()];
        write_digits(&self.blocks, size, index, digits);
        write_values(digits, out);
    }

    pub(crate) fn blocks(&self) -> &[Block]
        ensures { result.now ≡ self.now }
    {
        &self.blocks
    }

    /// How far the digit of each axis turns.
    pub(crate) fn wheels(&self) -> &[Wheel]
        ensures { result.now ≡ wheels_of self.now }
    {
        &self.wheels
    }
}

/// Whether the height of a form is within its limit at the magnitudes of the axes. It takes
/// no memory.
fn is_low<F: Form>(form: &F) -> bool
    requires { grid_size (grid_of (F.question form.now)) ≤ SIZE_LIMIT }
    ensures { IsTrue result ↔ ((F.question form.now).height_at (grid_magnitudes (F.question form.now)) ≤ STATEMENT_LIMIT) }
{
    let axes = form.axes();
    let mut magnitudes = [0; PARAMETER_LIMIT];
    let magnitudes = &mut magnitudes[..axes.len()];
    write_magnitudes(axes, magnitudes);
    form.height(magnitudes).is_some()
}

/// Writes the magnitude of each axis: half its degree, rounded up.
fn write_magnitudes(axes: &[Axis], magnitudes: &mut [u64])
    requires count { length magnitudes.old ≡ length axes.now }
    requires small { All (λ a. a.degree ≤ SIZE_LIMIT) axes.now }
    ensures { magnitudes.new ≡ map axis_magnitude axes.now }
{
    for place in 0..axes.len() {
        magnitudes[place] = (axes[place].degree + 1) / 2;
    }
}
