//! Plain heights at magnitude 3, by which an addition is refused as tall.

ghost use Rattle.std.specs.Prelude.{◌≡◌, ℕ, ◌≤◌, length, All, slice_index_or, max, unsigned_abs};
ghost use Rattle.geo_sketch.specs.Constructions.{by_def, AtNamed, IsConstruction};
ghost use Rattle.geo_sketch.specs.PlainHeights.{plain_height_algebra, plain_height_of, threes, new_plain_height};
ghost use Rattle.geo_sketch.specs.declared.limits.TheConstants.{HEIGHT_LIMIT, ELEMENT_LIMIT};
ghost use Rattle.geo_sketch.specs.Tables.{place, Filled};
ghost use Rattle.geo_sketch.specs.Lookups.{IsLive};

use crate::elements::{Def, Element};
use crate::limits::ELEMENT_LIMIT;
use crate::lookups::entry_at;

/// The plain height that a new element with this number and definition has at
/// magnitude 3.
pub(crate) fn plain_height_of_new(elements: &[Element], number: u32, def: &Def) -> u128
    requires room { length elements.now ≤ ELEMENT_LIMIT }
    requires construction { IsConstruction elements.now }
    requires low { (n : ℕ) → plain_height_of elements.now n threes ≤ HEIGHT_LIMIT }
    requires live { AtNamed def.now (IsLive elements.now) }
    ensures { result ≡ new_plain_height elements.now number def.now }
{
    let heights = plain_heights_of(elements);
    plain_height_by(elements, &heights, number, def)
}

/// The plain heights of all elements, by their places.
fn plain_heights_of(elements: &[Element]) -> [u64; ELEMENT_LIMIT]
    requires room { length elements.now ≤ ELEMENT_LIMIT }
    requires construction { IsConstruction elements.now }
    requires low { (n : ℕ) → plain_height_of elements.now n threes ≤ HEIGHT_LIMIT }
    ensures filled { Filled (plain_height_algebra threes) elements.now 0 result (length elements.now) }
    ensures low { All (λ h. h ≤ HEIGHT_LIMIT) result }
{
    let mut heights = [0; ELEMENT_LIMIT];
    for i in 0..elements.len() {
        let element = &elements[i];
        heights[i] = plain_height_by(elements, &heights, element.number, &element.def) as u64;
    }
    heights
}

/// The plain height that a definition makes of those in the table.
fn plain_height_by(elements: &[Element], heights: &[u64], number: u32, def: &Def) -> u128
    requires { All (λ h. h ≤ HEIGHT_LIMIT) heights.now }
    ensures { result ≡ by_def (plain_height_algebra threes) number def.now (λ k. slice_index_or heights.now (place elements.now k) 0) }
{
    match def {
        Def::Free => 3,
        Def::Fixed(a, b, c) => largest(*a, *b, *c),
        Def::Cut(k) => 4 * plain_height_at(elements, heights, *k),
        Def::Blend(k, m) => plain_height_at(elements, heights, *k)
            + 3 * plain_height_at(elements, heights, *m),
        Def::Cross(k, m) => 2
            * plain_height_at(elements, heights, *k)
            * plain_height_at(elements, heights, *m),
    }
}

/// The plain height of the element with this number, as far as the table has it.
fn plain_height_at(elements: &[Element], heights: &[u64], number: u32) -> u128
    requires { All (λ h. h ≤ HEIGHT_LIMIT) heights.now }
    ensures value { result ≡ slice_index_or heights.now (place elements.now number) 0 }
    ensures low { result ≤ HEIGHT_LIMIT }
{
    u128::from(entry_at(elements, heights, number, 0))
}

fn largest(a: i64, b: i64, c: i64) -> u128
    ensures { result ≡ max (unsigned_abs a) (max (unsigned_abs b) (unsigned_abs c)) }
{
    let larger = a.unsigned_abs().max(b.unsigned_abs().max(c.unsigned_abs()));
    larger as u128
}
