//! Which elements of a sketch some of them need.

ghost use Rattle.std.specs.Prelude.{◌≡◌, ◌≤◌, ◌<◌, length, slice_set, true, All};
ghost use Rattle.geo_sketch.specs.Constructions.{AtNamed, IsConstruction};
ghost use Rattle.geo_sketch.specs.declared.limits.TheConstants.{ELEMENT_LIMIT};
ghost use Rattle.geo_sketch.specs.Tables.{place};
ghost use Rattle.geo_sketch.specs.Lookups.{IsLive};
ghost use Rattle.geo_grid.specs.Flags.{AreFlagged, AreNeeded, flagged_by};

use geo_sketch::{Def, ELEMENT_LIMIT, Element, place_of};

/// For each element, by its place, whether it is a named one or one on which a named one
/// depends: each marks those that its definition names, from the last element to the first.
pub(crate) fn find_needed(elements: &[Element], named: &[u32]) -> [bool; ELEMENT_LIMIT]
    requires room { length elements.now ≤ ELEMENT_LIMIT }
    requires construction { IsConstruction elements.now }
    requires live { All (IsLive elements.now) named.now }
    ensures { AreNeeded elements.now named.now result }
{
    let mut flags = flag_named(elements, named);
    for i in (0..elements.len()).rev() {
        if flags[i] {
            flag_references(elements, &elements[i].def, &mut flags);
        }
    }
    flags
}

/// Flags the named elements.
fn flag_named(elements: &[Element], named: &[u32]) -> [bool; ELEMENT_LIMIT]
    requires room { length elements.now ≤ ELEMENT_LIMIT }
    requires construction { IsConstruction elements.now }
    requires live { All (IsLive elements.now) named.now }
    ensures { AreFlagged elements.now named.now named.now result (length elements.now) }
{
    let mut flags = [false; ELEMENT_LIMIT];
    for n in named {
        flag(elements, *n, &mut flags);
    }
    flags
}

/// Flags the elements that a definition names.
fn flag_references(elements: &[Element], def: &Def, flags: &mut [bool])
    requires { AtNamed def.now (λ k. place elements.now k < length flags.old) }
    ensures { flags.new ≡ flagged_by elements.now def.now flags.old }
{
    match def {
        Def::Free | Def::Fixed(_, _, _) => {}
        Def::Cut(k) => flag(elements, *k, flags),
        Def::Blend(k, m) | Def::Cross(k, m) => {
            flag(elements, *k, flags);
            flag(elements, *m, flags);
        }
    }
}

fn flag(elements: &[Element], number: u32, flags: &mut [bool])
    requires { place elements.now number < length flags.old }
    ensures { flags.new ≡ slice_set flags.old (place elements.now number) true }
{
    flags[place_of(elements, number)] = true;
}
