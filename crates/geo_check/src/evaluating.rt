//! A statement at one assignment of values to all parameters. The checker evaluates on its own,
//! apart from the search on purpose: what it finds does not rest on that.

ghost use Rattle.std.specs.Prelude.{◌≡◌, ◌<◌, ◌≤◌, ◌*◌, IfOk, OnOk, length, true, map, slice_index_or};
ghost use Rattle.geo_triple.specs.Sums.{largest_of};
ghost use Rattle.geo_triple.specs.Triple.{zero_triple};
ghost use Rattle.geo_sketch.specs.declared.elements.Element.{Element as Entry};
ghost use Rattle.geo_sketch.specs.Assignments.{magnitudes};
ghost use Rattle.geo_sketch.specs.Constructions.{AtNamed, by_def};
ghost use Rattle.geo_sketch.specs.Heights.{statement_height};
ghost use Rattle.geo_sketch.specs.Lookups.{IsLive};
ghost use Rattle.geo_sketch.specs.Needs.{needs, AtStated};
ghost use Rattle.geo_sketch.specs.Sketches.{IsDrawn};
ghost use Rattle.geo_sketch.specs.declared.limits.TheConstants.{NUMBER_LIMIT};
ghost use Rattle.geo_sketch.specs.Statements.{parts_at};
ghost use Rattle.geo_triple.specs.Zero.{coordinates, are_zero};
ghost use Rattle.geo_sketch.specs.Triples.{triple_algebra};
ghost use Rattle.geo_height.specs.Bounds.{statement_sum, sums_by};
ghost use Rattle.geo_triple.specs.declared.limits.TheConstants.{STATEMENT_LIMIT};
ghost use Rattle.geo_check.specs.Instances.{assigned};
ghost use Rattle.geo_check.specs.Positions.{AreKnown, IsReady, parts_of, triple_of};

use geo_sketch::{Def, Element, NoMemory, Sketch, Statement, first_parameter, second_parameter};
use geo_triple::{Triple, blend, cross, cut, det, dot};
use std::alloc::Global;

/// A claim about the elements of a sketch.
#[derive(Clone, Copy)]
pub(crate) struct Claim<'a> {
    pub(crate) sketch: &'a Sketch,
    pub(crate) statement: &'a Statement,
    /// For each element, by its place, whether the statement needs it.
    pub(crate) needed: &'a [bool],
}

/// For each element, by its place, whether a statement needs it.
pub(crate) fn list_needed(
    alloc: Global,
    sketch: &Sketch,
    statement: &Statement,
) -> Result<Vec<bool>, NoMemory>
    requires { AtStated statement.now (IsLive sketch.now.elements) }
    ensures flags { IfOk result (λ needed. needed.items ≡ map (λ (e : Entry). needs sketch.now.elements statement.now e.number) sketch.now.elements) }
    ensures drawn { OnOk result (IsDrawn sketch.now) }
{
    let mut needed = Vec::new(alloc);
    for element in sketch.elements() {
        let flag = is_needed(sketch, statement, element.number);
        if needed.push(flag).is_err() {
            return Err(NoMemory);
        }
    }
    Ok(needed)
}

fn is_needed(sketch: &Sketch, statement: &Statement, n: u32) -> bool
    requires { AtStated statement.now (IsLive sketch.now.elements) }
    ensures { result ≡ needs sketch.now.elements statement.now n }
{
    match statement {
        Statement::Null(a) => sketch.depends(*a, n),
        Statement::Same(a, b) | Statement::On(a, b) => {
            sketch.depends(*a, n) || sketch.depends(*b, n)
        }
        Statement::Triple(a, b, c) => {
            sketch.depends(*a, n) || sketch.depends(*b, n) || sketch.depends(*c, n)
        }
    }
}

/// Whether all parts of the claim are 0 at the values. No element is evaluated that it
/// does not need.
pub(crate) fn is_zero_at(claim: &Claim, values: &[i64], triples: &mut [Triple]) -> bool
    requires ready { IsReady claim.now.sketch.now claim.now.statement.now claim.now.needed.now }
    requires values_room { length values.now ≡ 2 * NUMBER_LIMIT }
    requires triples_room { length triples.old ≡ NUMBER_LIMIT }
    requires low { statement_height claim.now.sketch.now.elements claim.now.statement.now (magnitudes (assigned values.now)) ≤ STATEMENT_LIMIT }
    ensures { result ≡ are_zero (parts_at claim.now.sketch.now.elements claim.now.statement.now (assigned values.now)) }
{
    evaluate(claim, values, triples);
    are_parts_zero(claim.statement, triples)
}

/// The triples of the elements that the claim needs, each at its number.
fn evaluate(claim: &Claim, values: &[i64], triples: &mut [Triple])
    requires ready { IsReady claim.now.sketch.now claim.now.statement.now claim.now.needed.now }
    requires values_room { length values.now ≡ 2 * NUMBER_LIMIT }
    requires triples_room { length triples.old ≡ NUMBER_LIMIT }
    requires low { statement_height claim.now.sketch.now.elements claim.now.statement.now (magnitudes (assigned values.now)) ≤ STATEMENT_LIMIT }
    ensures { AreKnown claim.now.sketch.now.elements claim.now.statement.now (assigned values.now) triples.new (length claim.now.sketch.now.elements) }
{
    let elements = claim.sketch.elements();
    for i in 0..elements.len() {
        if claim.needed[i] {
            let element = &elements[i];
            triples[element.number as usize] = triple_of(element, values, triples);
        }
    }
}

/// The triple of an element, from those of earlier ones.
fn triple_of(element: &Element, values: &[i64], triples: &[Triple]) -> Triple
    requires number { element.now.number < NUMBER_LIMIT }
    requires named { AtNamed element.now.def (λ k. k < NUMBER_LIMIT) }
    requires values_room { length values.now ≡ 2 * NUMBER_LIMIT }
    requires triples_room { length triples.now ≡ NUMBER_LIMIT }
    requires low { largest_of (sums_by (assigned values.now) element.now.number element.now.def (triple_of triples.now)) ≤ STATEMENT_LIMIT }
    ensures { result ≡ by_def (triple_algebra (assigned values.now)) element.now.number element.now.def (triple_of triples.now) }
{
    let first = first_parameter(element.number) as usize;
    let second = second_parameter(element.number) as usize;
    match &element.def {
        Def::Free => Triple {
            a: i128::from(values[first]),
            b: i128::from(values[second]),
            c: 1,
        },
        Def::Fixed(a, b, c) => Triple {
            a: i128::from(*a),
            b: i128::from(*b),
            c: i128::from(*c),
        },
        Def::Cut(k) => cut(&triples[*k as usize], values[first]),
        Def::Blend(k, m) => blend(&triples[*k as usize], &triples[*m as usize], values[first]),
        Def::Cross(k, m) => cross(&triples[*k as usize], &triples[*m as usize]),
    }
}

/// Whether all parts of a statement about these triples are 0.
fn are_parts_zero(statement: &Statement, triples: &[Triple]) -> bool
    requires room { AtStated statement.now (λ n. n < length triples.now) }
    requires low { statement_sum statement.now (triple_of triples.now) ≤ STATEMENT_LIMIT }
    ensures { result ≡ are_zero (parts_of statement.now (triple_of triples.now)) }
{
    match statement {
        Statement::Null(n) => is_zero(&triples[*n as usize]),
        Statement::Same(n, m) => is_zero(&cross(&triples[*n as usize], &triples[*m as usize])),
        Statement::On(n, m) => dot(&triples[*n as usize], &triples[*m as usize]) == 0,
        Statement::Triple(n, m, k) => {
            det(
                &triples[*n as usize],
                &triples[*m as usize],
                &triples[*k as usize],
            ) == 0
        }
    }
}

fn is_zero(triple: &Triple) -> bool
    ensures { result ≡ are_zero (coordinates triple.now) }
{
    triple.a == 0 && triple.b == 0 && triple.c == 0
}
