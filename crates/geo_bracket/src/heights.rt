//! The heights of expressions, without memory.

ghost use Rattle.std.specs.Prelude.{◌≡◌, ◌*◌, ◌+◌, ◌<◌, ◌≤◌, ◌↔◌, ℕ, max, true, unsigned_abs};
ghost use Rattle.geo_sketch.specs.Assignments.{first_parameter, second_parameter};
ghost use Rattle.geo_sketch.specs.Lookups.{IsLive};
ghost use Rattle.geo_sketch.specs.PlainHeights.{threes};
ghost use Rattle.geo_sketch.specs.Sketches.{IsDrawn};
ghost use Rattle.geo_height.specs.Bounds.{magnitude_of};
ghost use Rattle.geo_height.specs.Capped.{within_limit};
ghost use Rattle.geo_triple.specs.declared.limits.TheConstants.{STATEMENT_LIMIT};
ghost use Rattle.geo_bracket.specs.Expressions.{bracket_height, expression_height};
ghost use Rattle.geo_bracket.specs.Terms.{AtEach, AtProduct, height_of_term};

use crate::degrees::statement_of;
use crate::expressions::{Expression, Term};
use geo_height::of_statement;
use geo_sketch::{ELEMENT_LIMIT, Sketch, first_parameter, second_parameter};
use geo_triple::STATEMENT_LIMIT;

/// Two parameters for each element that a sketch may have.
const PLACES: usize = 2 * ELEMENT_LIMIT;

/// The height of terms about live elements at these magnitudes, each of a parameter; one that is
/// not listed has magnitude 0. None where it is greater than 2^126.
pub(crate) fn height(
    sketch: &Sketch,
    terms: &[Term<u32>],
    magnitudes: &[(u32, u64)],
) -> Option<u128>
    requires { AtEach (IsLive sketch.now.elements) terms.now }
    ensures { result ≡ within_limit (expression_height sketch.now.elements terms.now (magnitude_of magnitudes.now)) }
{
    let mut sum = Some(0);
    for term in terms {
        sum = plus(sum, height_of_term(sketch, term, magnitudes));
    }
    sum
}

/// The height of a term: those of its brackets multiplied, times the larger of 1 and its number.
fn height_of_term(sketch: &Sketch, term: &Term<u32>, magnitudes: &[(u32, u64)]) -> Option<u128>
    requires { AtProduct (IsLive sketch.now.elements) term.now.brackets }
    ensures { result ≡ within_limit (height_of_term (bracket_height sketch.now.elements (magnitude_of magnitudes.now)) term.now) }
{
    // The elements are those of a sketch, so that no height is 0.
    let _drawn = sketch.elements();
    let mut product = size_of(term.number());
    for bracket in term.brackets() {
        let height = of_statement(sketch, &statement_of(bracket), magnitudes);
        product = times(product, height);
    }
    product
}

/// The larger of 1 and a number without its sign.
fn size_of(number: i64) -> Option<u128>
    ensures { result ≡ within_limit (max 1 (unsigned_abs number)) }
{
    Some(u128::from(number.unsigned_abs().max(1)))
}

/// The sum of two heights, each of which is given as far as it is within the limit.
fn plus(x: Option<u128>, y: Option<u128>) -> Option<u128>
    ensures { (g h : ℕ) → x ≡ within_limit g → y ≡ within_limit h → result ≡ within_limit (g + h) }
{
    sum_within(x?, y?)
}

/// The product, where neither is 0.
fn times(x: Option<u128>, y: Option<u128>) -> Option<u128>
    ensures { (g h : ℕ) → x ≡ within_limit g → y ≡ within_limit h → 1 ≤ g → 1 ≤ h → result ≡ within_limit (g * h) }
{
    product_within(x?, y?)
}

fn sum_within(x: u128, y: u128) -> Option<u128>
    ensures { result ≡ within_limit (x + y) }
{
    keep(x.checked_add(y)?)
}

fn product_within(x: u128, y: u128) -> Option<u128>
    ensures { result ≡ within_limit (x * y) }
{
    keep(x.checked_mul(y)?)
}

/// The height, or None where it is above the limit.
fn keep(height: u128) -> Option<u128>
    ensures { result ≡ within_limit height }
{
    if height > STATEMENT_LIMIT {
        None
    } else {
        Some(height)
    }
}

/// Whether the height of an expression about live elements is greater than 2^126 where every
/// magnitude is 3.
pub(crate) fn is_great(sketch: &Sketch, expression: &Expression) -> bool
    requires { AtEach (IsLive sketch.now.elements) expression.now }
    ensures { (result ≡ true) ↔ (STATEMENT_LIMIT < expression_height sketch.now.elements expression.now threes) }
{
    height(sketch, expression.terms(), &all_threes(sketch)).is_none()
}

/// The magnitude 3 for the parameters of each element. Behind these stands what does not matter.
fn all_threes(sketch: &Sketch) -> [(u32, u64); PLACES]
    ensures threes { (n : ℕ) → IsLive sketch.now.elements n → (magnitude_of result (first_parameter n) ≡ 3) × (magnitude_of result (second_parameter n) ≡ 3) }
    ensures drawn { IsDrawn sketch.now }
{
    let elements = sketch.elements();
    let mut magnitudes = [(0, 3); PLACES];
    for i in 0..elements.len() {
        let number = elements[i].number;
        magnitudes[i] = (first_parameter(number) as u32, 3);
        magnitudes[ELEMENT_LIMIT + i] = (second_parameter(number) as u32, 3);
    }
    magnitudes
}
