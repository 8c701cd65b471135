//! A place on a grid, with the values of the axes there.

ghost use Rattle.std.specs.Prelude.{◌≡◌, ◌<◌, ◌+◌, ◌↔◌, ℕ, IfOk, IfSome, None};
ghost use Rattle.geo_degree.specs.Blocks.{points_of_all};
ghost use Rattle.geo_degree.specs.Grids.{grid_point, grid_size};
ghost use Rattle.geo_grid.specs.Walks.{StandsAt};
ghost use Rattle.geo_grid.specs.Values.{first_change};

use super::digits::{write_digits, write_values};
use super::grid::Grid;
use super::wheels::carry;
use crate::spacing::spaced;
use geo_sketch::NoMemory;
use std::alloc::Global;
use std::marker::Model;

/// A point of a grid. Contracts see the blocks of the grid and the index of the point.
#[derive(Drop)]
pub(crate) struct Place<'a> {
    grid: &'a Grid,
    /// For each axis, the number of its value.
    digits: Vec<u64>,
    values: Vec<i64>,
    index: u64,
}

impl<'a> Model for Place<'a> {
    ghost use Rattle.std.specs.Prelude.{ℕ, List};
    ghost use Rattle.geo_degree.specs.declared.grids.Block.{Block};

    ghost Value = { List Block × ℕ };

    ghost use Rattle.geo_grid.specs.Walks.{StandsAt};

    ghost view = { λ p. (p.grid.now, p.index) };

    ghost invariant = { λ p. StandsAt p.grid.now p.index p.digits.items p.values.items };
}

impl<'a> Place<'a> {
    /// The first point.
    pub(crate) fn first(alloc: Global, grid: &'a Grid) -> Result<Place<'a>, NoMemory>
        ensures { IfOk result (λ place. place ≡ (grid.now, 0)) }
    {
        let count = grid.wheels().len();
        let digits = spaced(alloc, 0, count)?;
        let values = spaced(alloc, 0, count)?;
        Ok(Place {
            grid,
            digits,
            values,
            index: 0,
        })
    }

    /// The values of the axes here.
    pub(crate) fn values(&self) -> &[i64]
        ensures within { self.now.1 < grid_size (points_of_all self.now.0) }
        ensures values { result.now ≡ grid_point (points_of_all self.now.0) self.now.1 }
    {
        &self.values
    }

    /// Goes to the point with this index.
    pub(crate) fn move_to(&mut self, index: u64)
        requires { index < grid_size (points_of_all self.old.0) }
        ensures { self.new ≡ (self.old.0, index) }
    {
        write_place(self.grid, index, &mut self.digits, &mut self.values);
        self.index = index;
    }

    /// Goes one point further, and gives the place of the first axis whose value changes; at
    /// the last point it stays.
    pub(crate) fn advance(&mut self) -> Option<usize>
        ensures last { (result ≡ None) ↔ (self.old.1 + 1 ≡ grid_size (points_of_all self.old.0)) }
        ensures stays { result ≡ None → self.new ≡ self.old }
        ensures moves { IfSome result (λ first. self.new ≡ (self.old.0, self.old.1 + 1)) }
        ensures change { IfSome result (λ first. first ≡ first_change (grid_point (points_of_all self.old.0) self.old.1) (grid_point (points_of_all self.old.0) (self.old.1 + 1))) }
    {
        let size = self.grid.size();
        if self.index + 1 == size {
            return None;
        }
        let first = carry(self.grid, &mut self.digits, &mut self.values);
        self.index += 1;
        Some(first)
    }
}

/// Makes the digits and the values at a point of a grid those at the point with this index.
fn write_place(grid: &Grid, index: u64, digits: &mut [u64], values: &mut [i64])
    requires within { index < grid_size (points_of_all grid.now) }
    requires stands { (i : ℕ) × StandsAt grid.now i digits.old values.old }
    ensures { StandsAt grid.now index digits.new values.new }
{
    write_digits(grid.blocks(), grid.size(), index, digits);
    write_values(digits, values);
}
