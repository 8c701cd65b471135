//! What a statement asks of the triples of its elements.

ghost use Rattle.std.specs.Prelude.{◌≡◌, ◌≤◌, ◌↔◌, length, true, false};
ghost use Rattle.geo_triple.specs.Zero.{AreZero, coordinates};
ghost use Rattle.geo_grid.specs.Codes.{SpeaksOf, condition_by, condition_size, condition_parts, place_in};

use crate::posing::plan::Plan;
use geo_sketch::Statement;
use geo_triple::{Triple, Width};

/// A statement about the triples at some places of a list.
#[derive(Clone, Copy)]
pub(crate) enum Condition {
    /// The triple is zero.
    Null(usize),
    /// The cross product is zero.
    Same(usize, usize),
    /// The dot product is 0.
    On(usize, usize),
    /// The determinant is 0.
    Triple(usize, usize, usize),
}

/// The statement by the places of its elements in a plan.
pub(crate) fn condition_of(plan: &Plan, statement: &Statement) -> Condition
    ensures { result ≡ condition_by (place_in plan.now) statement.now }
{
    match statement {
        Statement::Null(n) => Condition::Null(plan.find(*n)),
        Statement::Same(n, m) => Condition::Same(plan.find(*n), plan.find(*m)),
        Statement::On(n, m) => Condition::On(plan.find(*n), plan.find(*m)),
        Statement::Triple(n, m, k) => {
            Condition::Triple(plan.find(*n), plan.find(*m), plan.find(*k))
        }
    }
}

/// Whether one of its parts is not 0.
pub(crate) fn is_broken<W: Width>(condition: &Condition, triples: &[Triple]) -> bool
    requires inside { SpeaksOf condition.now (length triples.now) }
    requires low { condition_size condition.now triples.now ≤ W.limit }
    ensures { (result ≡ false) ↔ AreZero (condition_parts condition.now triples.now) }
{
    match condition {
        Condition::Null(n) => !is_zero(&triples[*n]),
        Condition::Same(n, m) => !is_zero(&W::cross(&triples[*n], &triples[*m])),
        Condition::On(n, m) => W::dot(&triples[*n], &triples[*m]) != 0,
        Condition::Triple(n, m, k) => W::det(&triples[*n], &triples[*m], &triples[*k]) != 0,
    }
}

fn is_zero(triple: &Triple) -> bool
    ensures { (result ≡ true) ↔ AreZero (coordinates triple.now) }
{
    triple.a == 0 && triple.b == 0 && triple.c == 0
}
