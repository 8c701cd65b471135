//! A statement at all points of a grid.

ghost use Rattle.std.specs.Prelude.{◌≡◌, ◌<◌, ◌≤◌, ◌*◌, length, true, drop, take, pos, slice_index_or, slice_set};
ghost use Rattle.std.specs.List.{list_all};
ghost use Rattle.geo_sketch.specs.declared.limits.TheConstants.{NUMBER_LIMIT};
ghost use Rattle.geo_degree.specs.Polynomials.{with_value};
ghost use Rattle.geo_height.specs.Bounds.{magnitude_of};
ghost use Rattle.geo_check.specs.Grids.{magnitudes_in};
ghost use Rattle.geo_check.specs.Instances.{assigned, is_zero_on, on_triangle};
ghost use Rattle.geo_check.specs.Positions.{IsModest, IsPosition, IsReady, IsWalkable};

use crate::entries::{Entry, entry_at};
use crate::evaluating::{Claim, is_zero_at};
use geo_cert::GridList;
use geo_triple::Triple;

/// Whether all parts of the claim are 0 wherever the parameters of the entries from number k
/// on have any of their values, and all others are as they are now. The values are the same
/// again where it is so.
#[cycle(walk)]
pub(crate) fn is_zero_from(
    claim: &Claim,
    grid: &GridList,
    k: usize,
    values: &mut [i64],
    triples: &mut [Triple],
) -> bool
    requires ready { IsReady claim.now.sketch.now claim.now.statement.now claim.now.needed.now }
    requires walkable { IsWalkable claim.now.sketch.now.elements claim.now.statement.now grid.now }
    requires position { IsPosition grid.now values.old }
    requires triples_room { length triples.old ≡ NUMBER_LIMIT }
    ensures zero { result ≡ is_zero_on claim.now.sketch.now.elements claim.now.statement.now (drop k grid.now) (assigned values.old) }
    ensures same { result ≡ true → values.new ≡ values.old }
{
    if k >= grid.len() {
        return is_zero_at(claim, values, triples);
    }
    match entry_at(grid, k) {
        None => false,
        Some(Entry::One(p, list)) => is_zero_along(claim, grid, k + 1, p, list, values, triples),
        Some(Entry::Pair(p, q, first, second)) => {
            is_zero_on_triangle(claim, grid, k + 1, (p, q), first, second, values, triples)
        }
    }
}

/// The same where in addition parameter p has any of the values in the list.
#[cycle(walk)]
fn is_zero_along(
    claim: &Claim,
    grid: &GridList,
    k: usize,
    p: u32,
    list: &[i64],
    values: &mut [i64],
    triples: &mut [Triple],
) -> bool
    requires ready { IsReady claim.now.sketch.now claim.now.statement.now claim.now.needed.now }
    requires walkable { IsWalkable claim.now.sketch.now.elements claim.now.statement.now grid.now }
    requires modest { IsModest (magnitude_of (magnitudes_in grid.now)) p list.now }
    requires position { IsPosition grid.now values.old }
    requires triples_room { length triples.old ≡ NUMBER_LIMIT }
    ensures zero { result ≡ list_all (λ x. is_zero_on claim.now.sketch.now.elements claim.now.statement.now (drop k grid.now) (with_value (assigned values.old) p x)) list.now }
    ensures same { result ≡ true → values.new ≡ values.old }
{
    let place = p as usize;
    let before = value_in(values, place);
    for i in 0..list.len() {
        let value = value_in(list, i);
        put(values, place, value);
        if !is_zero_from(claim, grid, k, values, triples) {
            return false;
        }
    }
    put(values, place, before);
    true
}

/// The same where in addition the two parameters are on a triangle of two lists of values.
#[cycle(walk)]
fn is_zero_on_triangle(
    claim: &Claim,
    grid: &GridList,
    k: usize,
    pair: (u32, u32),
    first: &[i64],
    second: &[i64],
    values: &mut [i64],
    triples: &mut [Triple],
) -> bool
    requires ready { IsReady claim.now.sketch.now claim.now.statement.now claim.now.needed.now }
    requires walkable { IsWalkable claim.now.sketch.now.elements claim.now.statement.now grid.now }
    requires first_modest { IsModest (magnitude_of (magnitudes_in grid.now)) pair.0 first.now }
    requires second_modest { IsModest (magnitude_of (magnitudes_in grid.now)) pair.1 second.now }
    requires as_many { length first.now ≡ length second.now }
    requires position { IsPosition grid.now values.old }
    requires triples_room { length triples.old ≡ NUMBER_LIMIT }
    ensures zero { result ≡ on_triangle (λ x y. is_zero_on claim.now.sketch.now.elements claim.now.statement.now (drop k grid.now) (with_value (with_value (assigned values.old) pair.0 x) pair.1 y)) first.now second.now }
    ensures same { result ≡ true → values.new ≡ values.old }
{
    let place = pair.0 as usize;
    let before = value_in(values, place);
    for i in 0..first.len() {
        let value = value_in(first, i);
        put(values, place, value);
        let row = row_of(second, first.len() - i);
        if !is_zero_along(claim, grid, k, pair.1, row, values, triples) {
            return false;
        }
    }
    put(values, place, before);
    true
}

fn value_in(values: &[i64], place: usize) -> i64
    requires { place < length values.now }
    ensures { result ≡ slice_index_or values.now place (pos 0) }
{
    values[place]
}

/// The first so many values.
fn row_of<'a>(values: &'a [i64], count: usize) -> &'a [i64]
    requires { count ≤ length values.now }
    ensures { result.now ≡ take count values.now }
{
    &values[..count]
}

pub(crate) fn put(values: &mut [i64], place: usize, value: i64)
    requires { place < length values.old }
    ensures { values.new ≡ slice_set values.old place value }
{
    values[place] = value;
}
