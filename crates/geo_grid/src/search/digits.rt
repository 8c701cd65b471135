//! The points of a grid by digits, one for each axis: the number of its value.

ghost use Rattle.std.specs.Prelude.{◌≡◌, ◌<◌, ◌≤◌, ◌+◌, suc, ℕ, List, ◌∷◌, ◌++◌, [], length, map, take, All};
ghost use Rattle.geo_degree.specs.Blocks.{AreDigits, point_count as count_of, points_of_all, rank, rows_before};
ghost use Rattle.geo_degree.specs.Grids.{grid_size, grid_value as value_at_number};
ghost use Rattle.geo_grid.specs.Values.{axis_count};
ghost use Rattle.geo_degree.specs.declared.limits.TheConstants.{SIZE_LIMIT};

use super::sizes::point_count;
use geo_degree::{Block, grid_value};

/// Writes the digits of the point with this index on the grid of these blocks, which has
/// `size` points.
pub(crate) fn write_digits(blocks: &[Block], size: u64, index: u64, digits: &mut [u64])
    requires size { size ≡ grid_size (points_of_all blocks.now) }
    requires small { size ≤ SIZE_LIMIT }
    requires within { index < size }
    requires room { length digits.old ≡ axis_count blocks.now }
    ensures digits { AreDigits blocks.now digits.new }
    ensures rank { rank blocks.now digits.new ≡ index }
{
    let mut behind = size;
    let mut rest = index;
    let mut place = 0;
    for block in blocks {
        behind /= point_count(*block);
        place = write_block_digits(*block, rest / behind, place, digits);
        rest %= behind;
    }
}

/// Writes the digits of a block at its point with this number, from a place on, and gives the
/// place behind them.
fn write_block_digits(block: Block, number: u64, place: usize, digits: &mut [u64]) -> usize
    requires within { number < count_of block }
    requires room { place + axis_count (block ∷ []) ≤ length digits.old }
    ensures place { result ≡ place + axis_count (block ∷ []) }
    ensures digits { (own : List ℕ) × AreDigits (block ∷ []) own × (rank (block ∷ []) own ≡ number) × (take result digits.new ≡ take place digits.old ++ own) }
{
    match block {
        Block::One(_) => {
            digits[place] = number;
            place + 1
        }
        Block::Pair(degree) => {
            let (row, column) = place_in_triangle(degree, number);
            digits[place] = row;
            digits[place + 1] = column;
            place + 2
        }
    }
}

/// The row and the column of the point with this number in a triangle, row by row.
fn place_in_triangle(degree: u64, number: u64) -> (u64, u64)
    requires { number < count_of (Block.Pair degree) }
    ensures within { result.0 + result.1 ≤ degree }
    ensures number { rows_before (suc degree) result.0 + result.1 ≡ number }
{
    let mut row = 0;
    let mut column = number;
    while degree - row < column {
        column -= degree - row + 1;
        row += 1;
    }
    (row, column)
}

/// Writes the values whose numbers are the digits.
pub(crate) fn write_values(digits: &[u64], values: &mut [i64])
    requires count { length values.old ≡ length digits.now }
    requires small { All (λ d. d ≤ SIZE_LIMIT) digits.now }
    ensures { values.new ≡ map value_at_number digits.now }
{
    for place in 0..digits.len() {
        values[place] = grid_value(digits[place]);
    }
}
