//! Reduction of a triple by the greatest common divisor of its coordinates.

ghost use Rattle.std.specs.Prelude.{◌≡◌, ◌≢◌, ◌≤◌, ◌↔◌, pos, unsigned_abs, int_div, IsNone, IfSome};
ghost use Rattle.geo_triple.specs.Triple.{size_of, zero_triple};
ghost use Rattle.geo_triple.specs.declared.limits.TheConstants.{STATEMENT_LIMIT};
ghost use Rattle.geo_triple.specs.Primitive.{IsPrimitiveOf, primitive_of, divisor_of, gcd_of, with_sign_of, nonzero_or};

use crate::Triple;

/// By Euclid's steps.
fn gcd(x: u128, y: u128) -> u128
    ensures { result ≡ gcd_of x y }
{
    let mut x = x;
    let mut y = y;
    while y != 0 {
        let rest = x % y;
        x = y;
        y = rest;
    }
    x
}

fn last_nonzero(a: i128, b: i128, c: i128) -> i128
    ensures { result ≡ nonzero_or c (nonzero_or b a) }
{
    if c != 0 {
        c
    } else if b != 0 {
        b
    } else {
        a
    }
}

fn with_sign_of(sign: i128, size: u128) -> i128
    requires { size ≤ STATEMENT_LIMIT }
    ensures { result ≡ with_sign_of sign size }
{
    let size = size as i128;
    if sign < 0 { -size } else { size }
}

fn divisor(a: i128, b: i128, c: i128) -> i128
    requires a_small { unsigned_abs a ≤ STATEMENT_LIMIT }
    requires b_small { unsigned_abs b ≤ STATEMENT_LIMIT }
    requires c_small { unsigned_abs c ≤ STATEMENT_LIMIT }
    ensures { result ≡ divisor_of record { a = a; b = b; c = c } }
{
    let size = gcd(gcd(a.unsigned_abs(), b.unsigned_abs()), c.unsigned_abs());
    with_sign_of(last_nonzero(a, b, c), size)
}

fn quotient(x: i128, by: i128) -> i128
    requires nonzero { by ≢ pos 0 }
    requires small { unsigned_abs x ≤ STATEMENT_LIMIT }
    ensures { result ≡ int_div x by }
{
    x / by
}

/// The triple with coprime coordinates, the last nonzero one positive, that stands for the same
/// point or line; None where the triple is zero and stands for none.
pub fn primitive(t: &Triple) -> Option<Triple>
    requires { size_of t.now ≤ STATEMENT_LIMIT }
    ensures value { result ≡ primitive_of t.now }
    ensures primitive { IfSome result (IsPrimitiveOf t.now) }
    ensures none_for_zero { IsNone result ↔ (t.now ≡ zero_triple) }
{
    let by = divisor(t.a, t.b, t.c);
    if by == 0 {
        return None;
    }
    Some(Triple {
        a: quotient(t.a, by),
        b: quotient(t.b, by),
        c: quotient(t.c, by),
    })
}
