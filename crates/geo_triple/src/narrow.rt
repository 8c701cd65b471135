//! The operations by 64 bit products, for numbers that stay within 64 bits: the values are those
//! of `products`.

ghost use Rattle.std.specs.Prelude.{◌≡◌, ◌≤◌, ◌+◌, ◌*◌, ◌+ℤ◌, ◌-ℤ◌, ◌*ℤ◌, unsigned_abs};
ghost use Rattle.geo_triple.specs.declared.limits.TheConstants.{SHORT_LIMIT};
ghost use Rattle.geo_triple.specs.Sums.{sizes_of, largest_of};

use crate::Triple;
use crate::widths::Width;

/// The coordinates of a triple as numbers of 64 bits.
#[derive(Clone, Copy)]
struct ShortTriple {
    a: i64,
    b: i64,
    c: i64,
}

fn shorten(x: i128) -> i64
    requires { unsigned_abs x ≤ SHORT_LIMIT }
    ensures { result ≡ x }
{
    x as i64
}

fn shortened(t: &Triple) -> ShortTriple
    requires { largest_of (sizes_of t.now) ≤ SHORT_LIMIT }
    ensures { result ≡ record { a = t.now.a; b = t.now.b; c = t.now.c } }
{
    ShortTriple {
        a: t.a as i64,
        b: t.b as i64,
        c: t.c as i64,
    }
}

fn product(x: i64, y: i64) -> i64
    requires { unsigned_abs x * unsigned_abs y ≤ SHORT_LIMIT }
    ensures { result ≡ x *ℤ y }
{
    x * y
}

fn difference_of_products(p: i64, q: i64, r: i64, s: i64) -> i64
    requires { unsigned_abs p * unsigned_abs q + unsigned_abs r * unsigned_abs s ≤ SHORT_LIMIT }
    ensures { result ≡ p *ℤ q -ℤ r *ℤ s }
{
    product(p, q) - product(r, s)
}

fn plus_product(x: i64, p: i64, q: i64) -> i64
    requires { unsigned_abs x + unsigned_abs p * unsigned_abs q ≤ SHORT_LIMIT }
    ensures { result ≡ x +ℤ p *ℤ q }
{
    x + product(p, q)
}

fn sum_of_products(p: i64, q: i64, r: i64, s: i64, u: i64, v: i64) -> i64
    requires { unsigned_abs p * unsigned_abs q + unsigned_abs r * unsigned_abs s + unsigned_abs u * unsigned_abs v ≤ SHORT_LIMIT }
    ensures { result ≡ p *ℤ q +ℤ r *ℤ s +ℤ u *ℤ v }
{
    plus_product(plus_product(product(p, q), r, s), u, v)
}

/// 64 bits.
pub struct Narrow;

impl Width for Narrow {
    ghost use Rattle.geo_triple.specs.declared.limits.TheConstants.{SHORT_LIMIT};
    ghost use Rattle.geo_triple.specs.WidthLaws.{narrow_within};

    ghost limit = { SHORT_LIMIT };

    ghost within = { narrow_within };

    fn cross(s: &Triple, t: &Triple) -> Triple {
        let s = shortened(s);
        let t = shortened(t);
        Triple {
            a: i128::from(difference_of_products(s.b, t.c, s.c, t.b)),
            b: i128::from(difference_of_products(s.c, t.a, s.a, t.c)),
            c: i128::from(difference_of_products(s.a, t.b, s.b, t.a)),
        }
    }

    fn dot(s: &Triple, t: &Triple) -> i128 {
        let s = shortened(s);
        let t = shortened(t);
        i128::from(sum_of_products(s.a, t.a, s.b, t.b, s.c, t.c))
    }

    fn det(s: &Triple, t: &Triple, u: &Triple) -> i128 {
        Narrow::dot(s, &Narrow::cross(t, u))
    }

    fn blend(s: &Triple, t: &Triple, by: i64) -> Triple {
        let s = shortened(s);
        let t = shortened(t);
        Triple {
            a: i128::from(plus_product(s.a, by, t.a)),
            b: i128::from(plus_product(s.b, by, t.b)),
            c: i128::from(plus_product(s.c, by, t.c)),
        }
    }

    fn cut(s: &Triple, by: i64) -> Triple {
        let s = shortened(s);
        Triple {
            a: i128::from(-product(by, s.b)),
            b: i128::from(plus_product(s.c, by, s.a)),
            c: i128::from(-s.b),
        }
    }

    fn product(x: i128, y: i128) -> i128 {
        i128::from(product(shorten(x), shorten(y)))
    }
}
