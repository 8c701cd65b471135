//! On which axes the elements of a sketch depend.

ghost use Rattle.std.specs.Prelude.{◌≡◌, ◌≤◌, length, slice_index_or};
ghost use Rattle.geo_sketch.specs.Constructions.{by_def, IsConstruction};
ghost use Rattle.geo_sketch.specs.declared.limits.TheConstants.{ELEMENT_LIMIT};
ghost use Rattle.geo_sketch.specs.Tables.{Filled, place};
ghost use Rattle.geo_grid.specs.Orders.{level_algebra, own_level as level_of_own};

use geo_degree::Axis;
use geo_sketch::{Def, ELEMENT_LIMIT, Element, element_of_parameter, place_of};

/// For each element, by its place, how many axes there are up to the last one on which it
/// depends.
pub(crate) fn find_levels(elements: &[Element], axes: &[Axis]) -> [usize; ELEMENT_LIMIT]
    requires room { length elements.now ≤ ELEMENT_LIMIT }
    requires construction { IsConstruction elements.now }
    ensures { Filled (level_algebra axes.now) elements.now 0 result (length elements.now) }
{
    let mut levels = [0; ELEMENT_LIMIT];
    for i in 0..elements.len() {
        levels[i] = level_by(elements, &levels, &elements[i], axes);
    }
    levels
}

/// The level of an element, from those of earlier ones.
fn level_by(elements: &[Element], levels: &[usize], element: &Element, axes: &[Axis]) -> usize
    ensures { result ≡ by_def (level_algebra axes.now) element.now.number element.now.def (λ k. slice_index_or levels.now (place elements.now k) 0) }
{
    let own = own_level(axes, element.number);
    match &element.def {
        Def::Free | Def::Fixed(_, _, _) => own,
        Def::Cut(k) => own.max(level_at(elements, levels, *k)),
        Def::Blend(k, m) | Def::Cross(k, m) => {
            own.max(level_at(elements, levels, *k).max(level_at(elements, levels, *m)))
        }
    }
}

/// How many axes there are up to the last one that is a parameter of element n.
fn own_level(axes: &[Axis], n: u32) -> usize
    ensures { result ≡ level_of_own axes.now n }
{
    for i in (0..axes.len()).rev() {
        if element_of_parameter(axes[i].param) == n {
            return i + 1;
        }
    }
    0
}

/// The level of the element with this number, as far as the table has it.
fn level_at(elements: &[Element], levels: &[usize], number: u32) -> usize
    ensures { result ≡ slice_index_or levels.now (place elements.now number) 0 }
{
    match levels.get(place_of(elements, number)) {
        Some(level) => *level,
        None => 0,
    }
}
