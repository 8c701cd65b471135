//! Which elements are named by other elements and by claims.

ghost use Rattle.std.specs.Prelude.{◌≡◌};
ghost use Rattle.geo_sketch.specs.Drops.{refers_to, some_refer_to, some_speak_of};

use crate::elements::{Def, Element};
use crate::statements::Statement;

/// Whether some element names element n.
pub(crate) fn any_refers_to(elements: &[Element], n: u32) -> bool
    ensures { result ≡ some_refer_to elements.now n }
{
    for element in elements {
        if refers(&element.def, n) {
            return true;
        }
    }
    false
}

/// Whether some claim names element n.
pub(crate) fn any_speaks_of(claims: &[Statement], n: u32) -> bool
    ensures { result ≡ some_speak_of claims.now n }
{
    for claim in claims {
        if claim.names(n) {
            return true;
        }
    }
    false
}

fn refers(def: &Def, n: u32) -> bool
    ensures { result ≡ refers_to def.now n }
{
    match def {
        Def::Free | Def::Fixed(_, _, _) => false,
        Def::Cut(k) => *k == n,
        Def::Blend(k, m) | Def::Cross(k, m) => *k == n || *m == n,
    }
}
