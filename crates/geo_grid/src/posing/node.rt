//! One step of a plan.

ghost use Rattle.std.specs.Prelude.{◌≡◌, ◌≤◌, ◌+◌, length};
ghost use Rattle.geo_sketch.specs.Triples.{of_coordinates};
ghost use Rattle.geo_grid.specs.Nodes.{IsInside, axis_value, node_size, node_triple};

use geo_sketch::of_values;
use geo_triple::{Steps, Triple, Width};
use std::sync::ledger::Ledger;

/// How the triple of an element is computed. Operands stand by their places in the list
/// of the triples, and values by the places of their axes: past the last axis, the value
/// is 0.
#[derive(Clone, Copy)]
pub(crate) enum Node {
    Free {
        x: usize,
        y: usize,
    },
    Fixed(i64, i64, i64),
    Cut {
        of: usize,
        by: usize,
    },
    Blend {
        first: usize,
        second: usize,
        by: usize,
    },
    Cross {
        first: usize,
        second: usize,
    },
}

/// Evaluates an element: the only way to an evaluation, which ticks once.
pub(crate) fn evaluate_node<W: Width, L: Ledger>(
    node: &Node,
    triples: &[Triple],
    values: &[i64],
    steps: &mut Steps<L>,
) -> Triple
    requires inside { IsInside node.now (length triples.now) }
    requires low { node_size node.now triples.now values.now ≤ W.limit }
    ensures value { result ≡ node_triple node.now triples.now values.now }
    ensures tick { steps.new ≡ steps.old + 1 }
{
    steps.tick();
    match node {
        Node::Free { x, y } => of_values(value_at(values, *x), value_at(values, *y), 1),
        Node::Fixed(a, b, c) => of_values(*a, *b, *c),
        Node::Cut { of, by } => W::cut(&triples[*of], value_at(values, *by)),
        Node::Blend { first, second, by } => {
            W::blend(&triples[*first], &triples[*second], value_at(values, *by))
        }
        Node::Cross { first, second } => W::cross(&triples[*first], &triples[*second]),
    }
}

fn value_at(values: &[i64], place: usize) -> i64
    ensures { result ≡ axis_value values.now place }
{
    match values.get(place) {
        Some(value) => *value,
        None => 0,
    }
}
