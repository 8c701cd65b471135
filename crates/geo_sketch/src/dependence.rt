//! Which elements an element depends on.

ghost use Rattle.std.specs.Prelude.{◌≡◌, ◌≤◌, length, false, slice_index_or};
ghost use Rattle.geo_sketch.specs.Constructions.{by_def, IsConstruction};
ghost use Rattle.geo_sketch.specs.Dependence.{depends_algebra, depends_on};
ghost use Rattle.geo_sketch.specs.declared.limits.TheConstants.{ELEMENT_LIMIT};
ghost use Rattle.geo_sketch.specs.Tables.{place};
ghost use Rattle.geo_sketch.specs.Lookups.{IsLive};

use crate::elements::{Def, Element};
use crate::limits::ELEMENT_LIMIT;
use crate::lookups::entry_at;

/// Whether element n depends on the other one.
pub(crate) fn find_dependence(elements: &[Element], n: u32, on: u32) -> bool
    requires room { length elements.now ≤ ELEMENT_LIMIT }
    requires construction { IsConstruction elements.now }
    requires live { IsLive elements.now n }
    ensures { result ≡ depends_on elements.now n on }
{
    let mut seen = [false; ELEMENT_LIMIT];
    for i in 0..elements.len() {
        seen[i] = depends_by(elements, &seen, &elements[i], on);
    }
    entry_at(elements, &seen, n, false)
}

/// Whether an element depends on the other one, by what is known of those before it; `seen` is
/// indexed by places.
pub fn depends_by(elements: &[Element], seen: &[bool], element: &Element, on: u32) -> bool
    ensures { result ≡ by_def (depends_algebra on) element.now.number element.now.def (λ k. slice_index_or seen.now (place elements.now k) false) }
{
    let is_it = element.number == on;
    match &element.def {
        Def::Free | Def::Fixed(_, _, _) => is_it,
        Def::Cut(k) => is_it || entry_at(elements, seen, *k, false),
        Def::Blend(k, m) | Def::Cross(k, m) => {
            is_it || entry_at(elements, seen, *k, false) || entry_at(elements, seen, *m, false)
        }
    }
}
