//! Sums of products of coordinates. Each condition bounds the sum of the absolute values of the
//! terms, so that no partial sum overflows. `narrow` has the same by 64 bit products.

ghost use Rattle.std.specs.Prelude.{◌≡◌, ◌≤◌, ◌+◌, ◌*◌, ◌+ℤ◌, ◌-ℤ◌, ◌*ℤ◌, unsigned_abs};
ghost use Rattle.geo_triple.specs.Triple.{cross_of, dot_of, determinant_of, blend_of, cut_of};
ghost use Rattle.geo_triple.specs.declared.limits.TheConstants.{STATEMENT_LIMIT};
ghost use Rattle.geo_triple.specs.Sums.{sizes_of, largest_of, cross_sums, dot_sum, determinant_sum, blend_sums, cut_sums};

use crate::Triple;

pub(crate) fn product(x: i128, y: i128) -> i128
    requires { unsigned_abs x * unsigned_abs y ≤ STATEMENT_LIMIT }
    ensures { result ≡ x *ℤ y }
{
    x * y
}

fn difference_of_products(p: i128, q: i128, r: i128, s: i128) -> i128
    requires { unsigned_abs p * unsigned_abs q + unsigned_abs r * unsigned_abs s ≤ STATEMENT_LIMIT }
    ensures { result ≡ p *ℤ q -ℤ r *ℤ s }
{
    product(p, q) - product(r, s)
}

fn plus_product(x: i128, p: i128, q: i128) -> i128
    requires { unsigned_abs x + unsigned_abs p * unsigned_abs q ≤ STATEMENT_LIMIT }
    ensures { result ≡ x +ℤ p *ℤ q }
{
    x + product(p, q)
}

fn sum_of_products(p: i128, q: i128, r: i128, s: i128, u: i128, v: i128) -> i128
    requires { unsigned_abs p * unsigned_abs q + unsigned_abs r * unsigned_abs s + unsigned_abs u * unsigned_abs v ≤ STATEMENT_LIMIT }
    ensures { result ≡ p *ℤ q +ℤ r *ℤ s +ℤ u *ℤ v }
{
    plus_product(plus_product(product(p, q), r, s), u, v)
}

/// The line through two points, or the point on two lines; the zero triple where they are the same
/// or one of them is zero.
pub fn cross(s: &Triple, t: &Triple) -> Triple
    requires { largest_of (cross_sums (sizes_of s.now) (sizes_of t.now)) ≤ STATEMENT_LIMIT }
    ensures { result ≡ cross_of s.now t.now }
{
    Triple {
        a: difference_of_products(s.b, t.c, s.c, t.b),
        b: difference_of_products(s.c, t.a, s.a, t.c),
        c: difference_of_products(s.a, t.b, s.b, t.a),
    }
}

/// 0 exactly where the point is on the line.
pub fn dot(s: &Triple, t: &Triple) -> i128
    requires { dot_sum (sizes_of s.now) (sizes_of t.now) ≤ STATEMENT_LIMIT }
    ensures { result ≡ dot_of s.now t.now }
{
    sum_of_products(s.a, t.a, s.b, t.b, s.c, t.c)
}

/// 0 exactly where three points are collinear, or three lines concurrent.
pub fn det(s: &Triple, t: &Triple, u: &Triple) -> i128
    requires minors { largest_of (cross_sums (sizes_of t.now) (sizes_of u.now)) ≤ STATEMENT_LIMIT }
    requires sum { determinant_sum (sizes_of s.now) (sizes_of t.now) (sizes_of u.now) ≤ STATEMENT_LIMIT }
    ensures { result ≡ determinant_of s.now t.now u.now }
{
    dot(s, &cross(t, u))
}

/// The point s + by·t of the line through the points s and t, and so for lines.
pub fn blend(s: &Triple, t: &Triple, by: i64) -> Triple
    requires { largest_of (blend_sums (sizes_of s.now) (sizes_of t.now) (unsigned_abs by)) ≤ STATEMENT_LIMIT }
    ensures { result ≡ blend_of s.now t.now by }
{
    let by = i128::from(by);
    Triple {
        a: plus_product(s.a, by, t.a),
        b: plus_product(s.b, by, t.b),
        c: plus_product(s.c, by, t.c),
    }
}

/// The point in which the line s meets the vertical line through (by, 0), and so for a point s the
/// line that joins it with the point (1, 0, −by).
pub fn cut(s: &Triple, by: i64) -> Triple
    requires { largest_of (cut_sums (sizes_of s.now) (unsigned_abs by)) ≤ STATEMENT_LIMIT }
    ensures { result ≡ cut_of s.now by }
{
    let by = i128::from(by);
    Triple {
        a: -product(by, s.b),
        b: plus_product(s.c, by, s.a),
        c: -s.b,
    }
}
