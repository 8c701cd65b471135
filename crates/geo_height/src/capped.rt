//! Sums of products of heights, as far as they are within the limit.

ghost use Rattle.std.specs.Prelude.{◌≡◌, ◌+◌, ◌*◌};
ghost use Rattle.geo_height.specs.Capped.{within_limit};

use geo_triple::STATEMENT_LIMIT;

/// The height, or None where it is above the limit.
pub(crate) fn keep(height: u128) -> Option<u128>
    ensures { result ≡ within_limit height }
{
    if height > STATEMENT_LIMIT {
        None
    } else {
        Some(height)
    }
}

pub(crate) fn plus_product(x: u128, p: u128, q: u128) -> Option<u128>
    ensures { result ≡ within_limit (x + p * q) }
{
    keep(x.checked_add(p.checked_mul(q)?)?)
}

pub(crate) fn sum_of_two(p: u128, q: u128, r: u128, s: u128) -> Option<u128>
    ensures { result ≡ within_limit (p * q + r * s) }
{
    plus_product(p.checked_mul(q)?, r, s)
}

pub(crate) fn sum_of_three(p: u128, q: u128, r: u128, s: u128, u: u128, v: u128) -> Option<u128>
    ensures { result ≡ within_limit (p * q + r * s + u * v) }
{
    plus_product(sum_of_two(p, q, r, s)?, u, v)
}
