//! The axes of an expression, and the blocks that they make.

ghost use Rattle.std.specs.Prelude.{◌≡◌, ◌<◌, ◌++◌, ◌∷◌, [], IfOk, OnOk};
ghost use Rattle.geo_sketch.specs.declared.elements.Def.TheVariants.{Free as FreeDef};
ghost use Rattle.geo_sketch.specs.Assignments.{first_parameter, second_parameter, own_parameters};
ghost use Rattle.geo_sketch.specs.Lookups.{IsLive};
ghost use Rattle.geo_sketch.specs.Sketches.{IsDrawn};
ghost use Rattle.geo_sketch.specs.declared.limits.TheConstants.{NUMBER_LIMIT};
ghost use Rattle.geo_degree.specs.Blocks.{own_blocks};
ghost use Rattle.geo_degree.specs.Grids.{axes_among};
ghost use Rattle.geo_bracket.specs.Expressions.{expression_degree};
ghost use Rattle.geo_bracket.specs.Questions.{expression_axes, expression_blocks};
ghost use Rattle.geo_bracket.specs.Terms.{AtEach, IsSmall};

use crate::degrees::degree;
use crate::expressions::Term;
use geo_degree::{Axis, Block, Degrees};
use geo_sketch::{Def, Element, NoMemory, Sketch, first_parameter};
use std::alloc::Global;

/// The axes, by rising parameter, and the blocks that cover them, in that order.
#[derive(Drop)]
pub(crate) struct Found {
    pub(crate) axes: Vec<Axis>,
    pub(crate) blocks: Vec<Block>,
}

/// The axes and the blocks of terms about live elements.
pub(crate) fn find_axes(
    alloc: Global,
    sketch: &Sketch,
    terms: &[Term<u32>],
) -> Result<Found, NoMemory>
    requires live { AtEach (IsLive sketch.now.elements) terms.now }
    requires small { IsSmall terms.now }
    ensures axes { IfOk result (λ found. found.axes.items ≡ expression_axes sketch.now.elements terms.now) }
    ensures blocks { IfOk result (λ found. found.blocks.items ≡ expression_blocks sketch.now.elements terms.now) }
    ensures drawn { OnOk result (IsDrawn sketch.now) }
{
    let degrees = Degrees::of(alloc, sketch)?;
    let mut axes = Vec::new(alloc);
    let mut blocks = Vec::new(alloc);
    for element in sketch.elements() {
        add_axes(&degrees, terms, element, &mut axes, &mut blocks)?;
    }
    Ok(Found { axes, blocks })
}

/// Adds those of the parameters of an element that are axes, and their block. The two
/// parameters of a free element have one degree.
fn add_axes(
    degrees: &Degrees,
    terms: &[Term<u32>],
    element: &Element,
    axes: &mut Vec<Axis>,
    blocks: &mut Vec<Block>,
) -> Result<(), NoMemory>
    requires live { AtEach (IsLive degrees.now) terms.now }
    requires small { IsSmall terms.now }
    requires low { element.now.number < NUMBER_LIMIT }
    requires same { element.now.def ≡ FreeDef → expression_degree degrees.now terms.now (first_parameter element.now.number) ≡ expression_degree degrees.now terms.now (second_parameter element.now.number) }
    ensures axes { OnOk result (axes.new.items ≡ axes.old.items ++ axes_among (expression_degree degrees.now terms.now) (own_parameters element.now.number element.now.def)) }
    ensures blocks { OnOk result (blocks.new.items ≡ blocks.old.items ++ own_blocks (expression_degree degrees.now terms.now) element.now.number element.now.def) }
{
    let param = first_parameter(element.number) as u32;
    let is_pair = match element.def {
        Def::Free => true,
        Def::Cut(_) | Def::Blend(_, _) => false,
        Def::Fixed(_, _, _) | Def::Cross(_, _) => return Ok(()),
    };
    let degree = degree(degrees, terms, param);
    if degree == 0 {
        return Ok(());
    }
    push(axes, Axis { param, degree })?;
    if !is_pair {
        return push(blocks, Block::One(degree));
    }
    let param = param + 1;
    push(axes, Axis { param, degree })?;
    push(blocks, Block::Pair(degree))
}

fn push<T: Drop>(list: &mut Vec<T>, item: T) -> Result<(), NoMemory>
    ensures { OnOk result (list.new.items ≡ list.old.items ++ item ∷ []) }
{
    match list.push(item) {
        Ok(()) => Ok(()),
        Err(_) => Err(NoMemory),
    }
}
