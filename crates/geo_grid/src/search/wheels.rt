//! How far the digits of a point turn, and the step from one point to the next.

ghost use Rattle.std.specs.Prelude.{◌≡◌, ◌<◌, ◌≤◌, ◌+◌, ◌-◌, ◌∷◌, ◌++◌, ℕ, [], length, slice_index_or, IfOk, OnOk};
ghost use Rattle.geo_degree.specs.Blocks.{points_of_all};
ghost use Rattle.geo_degree.specs.Grids.{grid_size};
ghost use Rattle.geo_grid.specs.Walks.{StandsAt, wheels_of, wheel_limit};
ghost use Rattle.geo_grid.specs.Values.{first_change};
ghost use Rattle.geo_degree.specs.declared.limits.TheConstants.{SIZE_LIMIT};

use super::grid::Grid;
use geo_degree::{Block, grid_value};
use geo_sketch::NoMemory;
use std::alloc::Global;

/// How far the digit of an axis turns, before it begins again.
#[derive(Clone, Copy)]
pub(crate) enum Wheel {
    /// To the degree.
    Whole(u64),
    /// To what the digit before it leaves of the degree.
    Rest(u64),
}

/// The wheels of blocks, one for each axis.
pub(crate) fn find_wheels(alloc: Global, blocks: &[Block]) -> Result<Vec<Wheel>, NoMemory>
    ensures { IfOk result (λ wheels. wheels.items ≡ wheels_of blocks.now) }
{
    let mut wheels = Vec::new(alloc);
    for block in blocks {
        add_wheels(*block, &mut wheels)?;
    }
    Ok(wheels)
}

fn add_wheels(block: Block, wheels: &mut Vec<Wheel>) -> Result<(), NoMemory>
    ensures { OnOk result (wheels.new.items ≡ wheels.old.items ++ wheels_of (block ∷ [])) }
{
    match block {
        Block::One(degree) => add_wheel(Wheel::Whole(degree), wheels),
        Block::Pair(degree) => {
            add_wheel(Wheel::Whole(degree), wheels)?;
            add_wheel(Wheel::Rest(degree), wheels)
        }
    }
}

fn add_wheel(wheel: Wheel, wheels: &mut Vec<Wheel>) -> Result<(), NoMemory>
    ensures { OnOk result (wheels.new.items ≡ wheels.old.items ++ wheel ∷ []) }
{
    match wheels.push(wheel) {
        Ok(()) => Ok(()),
        Err(_) => Err(NoMemory),
    }
}

/// Makes the digits and the values at a point those at the next one, and gives the place of
/// the first that change. Those before it are not written.
pub(crate) fn carry(grid: &Grid, digits: &mut [u64], values: &mut [i64]) -> usize
    requires small { grid_size (points_of_all grid.now) ≤ SIZE_LIMIT }
    requires stands { (i : ℕ) × StandsAt grid.now i digits.old values.old × (i + 1 < grid_size (points_of_all grid.now)) }
    ensures next { (i : ℕ) → StandsAt grid.now i digits.old values.old → StandsAt grid.now (i + 1) digits.new values.new }
    ensures change { result ≡ first_change values.old values.new }
{
    let wheels = grid.wheels();
    for place in (0..wheels.len()).rev() {
        let digit = digits[place];
        if digit < limit_at(wheels, digits, place) {
            digits[place] = digit + 1;
            values[place] = grid_value(digit + 1);
            return place;
        }
        digits[place] = 0;
        values[place] = 0;
    }
    unreachable!()
}

/// The last digit of the wheel at a place, where the digits before it are as they are.
fn limit_at(wheels: &[Wheel], digits: &[u64], place: usize) -> u64
    requires place { place < length wheels.now }
    requires rest { (d : ℕ) → slice_index_or wheels.now place (Wheel.Whole 0) ≡ Wheel.Rest d → (0 < place) × (place ≤ length digits.now) × (slice_index_or digits.now (place - 1) 0 ≤ d) }
    ensures { result ≡ wheel_limit (slice_index_or wheels.now place (Wheel.Whole 0)) (slice_index_or digits.now (place - 1) 0) }
{
    match wheels[place] {
        Wheel::Whole(degree) => degree,
        Wheel::Rest(degree) => degree - digits[place - 1],
    }
}
