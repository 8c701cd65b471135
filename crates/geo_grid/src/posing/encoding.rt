//! The steps of a plan, from the elements of an order.

ghost use Rattle.std.specs.Prelude.{◌≡◌, map, IfOk};
ghost use Rattle.geo_grid.specs.Codes.{node_of as node_by_places};

use super::lookups::axis_place;
use super::node::Node;
use geo_degree::Axis;
use geo_sketch::{Def, Element, NoMemory, first_parameter, place_of, second_parameter};
use std::alloc::Global;

/// A step for each element of an order.
pub(crate) fn encode(
    alloc: Global,
    axes: &[Axis],
    elements: &[Element],
) -> Result<Vec<Node>, NoMemory>
    ensures { IfOk result (λ nodes. nodes.items ≡ map (node_by_places axes.now elements.now) elements.now) }
{
    let mut nodes = Vec::new(alloc);
    for element in elements {
        if nodes.push(node_of(axes, elements, element)).is_err() {
            return Err(NoMemory);
        }
    }
    Ok(nodes)
}

fn node_of(axes: &[Axis], elements: &[Element], element: &Element) -> Node
    ensures { result ≡ node_by_places axes.now elements.now element.now }
{
    let first = first_parameter(element.number);
    match element.def {
        Def::Free => Node::Free {
            x: axis_place(axes, first),
            y: axis_place(axes, second_parameter(element.number)),
        },
        Def::Fixed(a, b, c) => Node::Fixed(a, b, c),
        Def::Cut(k) => Node::Cut {
            of: place_of(elements, k),
            by: axis_place(axes, first),
        },
        Def::Blend(k, m) => Node::Blend {
            first: place_of(elements, k),
            second: place_of(elements, m),
            by: axis_place(axes, first),
        },
        Def::Cross(k, m) => Node::Cross {
            first: place_of(elements, k),
            second: place_of(elements, m),
        },
    }
}
