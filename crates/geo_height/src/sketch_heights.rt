//! The heights of the elements and statements of a sketch, without memory.

ghost use Rattle.std.specs.Prelude.{◌≡◌, length, None, slice_index_or};
ghost use Rattle.geo_sketch.specs.Constructions.{by_def};
ghost use Rattle.geo_sketch.specs.Heights.{height_of, heights_at, statement_height};
ghost use Rattle.geo_sketch.specs.Lookups.{IsLive};
ghost use Rattle.geo_sketch.specs.Needs.{AtStated};
ghost use Rattle.geo_sketch.specs.Sketches.{IsDrawn};
ghost use Rattle.geo_sketch.specs.Tables.{place, Filled};
ghost use Rattle.geo_height.specs.Bounds.{magnitude_of};
ghost use Rattle.geo_height.specs.Capped.{capped_algebra, capped_cross, capped_statement, heights_within, within_limit};

use crate::heights::Heights;
use geo_sketch::{
    Def, ELEMENT_LIMIT, Element, Sketch, Statement, first_parameter, place_of, second_parameter,
};

/// The heights of a live element at these magnitudes, each of a parameter; one that is not
/// listed has magnitude 0. None where one of them is greater than 2^126.
pub fn heights_of(sketch: &Sketch, n: u32, magnitudes: &[(u32, u64)]) -> Option<Heights>
    requires { IsLive sketch.now.elements n }
    ensures { result ≡ heights_within (heights_at sketch.now.elements n (magnitude_of magnitudes.now)) }
{
    heights_in(sketch.elements(), &table_of(sketch, magnitudes), n)
}

/// The height of a live element, which is the largest of them, in the same way.
pub fn height(sketch: &Sketch, n: u32, magnitudes: &[(u32, u64)]) -> Option<u128>
    requires { IsLive sketch.now.elements n }
    ensures { result ≡ within_limit (height_of sketch.now.elements n (magnitude_of magnitudes.now)) }
{
    Some(heights_of(sketch, n, magnitudes)?.largest())
}

/// The height of a statement about live elements, in the same way.
pub fn of_statement(sketch: &Sketch, s: &Statement, magnitudes: &[(u32, u64)]) -> Option<u128>
    requires { AtStated s.now (IsLive sketch.now.elements) }
    ensures { result ≡ within_limit (statement_height sketch.now.elements s.now (magnitude_of magnitudes.now)) }
{
    statement_by(sketch.elements(), &table_of(sketch, magnitudes), s)
}

/// The heights of all elements, by their places.
fn table_of(sketch: &Sketch, magnitudes: &[(u32, u64)]) -> [Option<Heights>; ELEMENT_LIMIT]
    ensures { Filled (capped_algebra (magnitude_of magnitudes.now)) sketch.now.elements None result (length sketch.now.elements) }
{
    let elements = sketch.elements();
    let mut table = [None; ELEMENT_LIMIT];
    for i in 0..elements.len() {
        table[i] = heights_by(elements, &table, &elements[i], magnitudes);
    }
    table
}

/// The heights of an element, from those of earlier ones.
fn heights_by(
    elements: &[Element],
    table: &[Option<Heights>],
    element: &Element,
    magnitudes: &[(u32, u64)],
) -> Option<Heights>
    ensures { result ≡ by_def (capped_algebra (magnitude_of magnitudes.now)) element.now.number element.now.def (λ k. slice_index_or table.now (place elements.now k) None) }
{
    let first = magnitude(magnitudes, first_parameter(element.number));
    let second = magnitude(magnitudes, second_parameter(element.number));
    match &element.def {
        Def::Free => Some(Heights::of_free(first, second)),
        Def::Fixed(a, b, c) => Some(Heights::of_fixed(*a, *b, *c)),
        Def::Cut(k) => heights_in(elements, table, *k)?.cut(first),
        Def::Blend(k, l) => {
            heights_in(elements, table, *k)?.blend(&heights_in(elements, table, *l)?, first)
        }
        Def::Cross(k, l) => {
            heights_in(elements, table, *k)?.cross(&heights_in(elements, table, *l)?)
        }
    }
}

fn statement_by(elements: &[Element], table: &[Option<Heights>], s: &Statement) -> Option<u128>
    ensures { result ≡ capped_statement s.now (λ k. slice_index_or table.now (place elements.now k) None) }
{
    match s {
        Statement::Null(n) => Some(heights_in(elements, table, *n)?.largest()),
        Statement::Same(n, k) => Some(cross_in(elements, table, *n, *k)?.largest()),
        Statement::On(n, k) => {
            heights_in(elements, table, *n)?.dot(&heights_in(elements, table, *k)?)
        }
        Statement::Triple(n, k, l) => {
            heights_in(elements, table, *n)?.dot(&cross_in(elements, table, *k, *l)?)
        }
    }
}

fn cross_in(
    elements: &[Element],
    table: &[Option<Heights>],
    first: u32,
    second: u32,
) -> Option<Heights>
    ensures { result ≡ capped_cross (slice_index_or table.now (place elements.now first) None) (slice_index_or table.now (place elements.now second) None) }
{
    heights_in(elements, table, first)?.cross(&heights_in(elements, table, second)?)
}

/// The heights of the element with this number, as far as the table has them.
fn heights_in(elements: &[Element], table: &[Option<Heights>], number: u32) -> Option<Heights>
    ensures { result ≡ slice_index_or table.now (place elements.now number) None }
{
    match table.get(place_of(elements, number)) {
        Some(heights) => *heights,
        None => None,
    }
}

/// The magnitude of a parameter.
fn magnitude(magnitudes: &[(u32, u64)], parameter: u64) -> u64
    ensures { result ≡ magnitude_of magnitudes.now parameter }
{
    for (p, m) in magnitudes {
        if u64::from(*p) == parameter {
            return *m;
        }
    }
    0
}
