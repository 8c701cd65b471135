//! Whether a claim is a statement about the elements that are listed. The checker tests this on
//! its own, apart from the search on purpose.

ghost use Rattle.std.specs.Prelude.{◌≡◌};
ghost use Rattle.geo_sketch.specs.Lookups.{kind_at};
ghost use Rattle.geo_sketch.specs.Posing.{is_posed, of_one_kind, of_two_kinds};

use geo_sketch::{Element, Kind, Statement, find_by_number};

/// Its numbers rise strictly, and are those of elements of fitting kinds.
pub(crate) fn is_posed(elements: &[Element], claim: &Statement) -> bool
    ensures { result ≡ is_posed elements.now claim.now }
{
    match claim {
        Statement::Null(n) => kind_of(elements, *n).is_some(),
        Statement::Same(n, m) => n < m && are_alike(elements, *n, *m),
        Statement::On(n, m) => n < m && are_unlike(elements, *n, *m),
        Statement::Triple(n, m, k) => {
            n < m && m < k && are_alike(elements, *n, *m) && are_alike(elements, *n, *k)
        }
    }
}

fn kind_of(elements: &[Element], n: u32) -> Option<Kind>
    ensures { result ≡ kind_at elements.now n }
{
    match find_by_number(elements, n) {
        Some(element) => Some(element.kind),
        None => None,
    }
}

/// Both are listed, and of one kind.
fn are_alike(elements: &[Element], n: u32, m: u32) -> bool
    ensures { result ≡ of_one_kind (kind_at elements.now n) (kind_at elements.now m) }
{
    match (kind_of(elements, n), kind_of(elements, m)) {
        (Some(first), Some(second)) => first == second,
        _ => false,
    }
}

/// Both are listed, and not of one kind.
fn are_unlike(elements: &[Element], n: u32, m: u32) -> bool
    ensures { result ≡ of_two_kinds (kind_at elements.now n) (kind_at elements.now m) }
{
    match (kind_of(elements, n), kind_of(elements, m)) {
        (Some(first), Some(second)) => first != second,
        _ => false,
    }
}
