//! Statements that hold by construction.

ghost use Rattle.std.specs.Prelude.{◌≡◌};
ghost use Rattle.geo_sketch.specs.Lookups.{def_at};
ghost use Rattle.geo_sketch.specs.PlainStatements.{blends, is_plain, passes_through};

use crate::elements::{Def, Element};
use crate::lookups::find_def;
use crate::statements::Statement;

/// Whether the statement holds by construction.
pub(crate) fn holds_plainly(elements: &[Element], statement: &Statement) -> bool
    ensures { result ≡ is_plain elements.now statement.now }
{
    match statement {
        Statement::Null(_) | Statement::Same(_, _) => false,
        Statement::On(n, m) => is_through(elements, *n, *m) || is_through(elements, *m, *n),
        Statement::Triple(n, m, k) => {
            is_blend(elements, *n, *m, *k)
                || is_blend(elements, *m, *n, *k)
                || is_blend(elements, *k, *n, *m)
        }
    }
}

/// Whether element n is a Cut or a Cross that names element m.
fn is_through(elements: &[Element], n: u32, m: u32) -> bool
    ensures { result ≡ passes_through (def_at elements.now n) m }
{
    match find_def(elements, n) {
        Some(Def::Cut(k)) => k == m,
        Some(Def::Cross(k, l)) => k == m || l == m,
        _ => false,
    }
}

/// Whether element n is a Blend of the other two.
fn is_blend(elements: &[Element], n: u32, m: u32, k: u32) -> bool
    ensures { result ≡ blends (def_at elements.now n) m k }
{
    match find_def(elements, n) {
        Some(Def::Blend(i, j)) => (i == m && j == k) || (i == k && j == m),
        _ => false,
    }
}
