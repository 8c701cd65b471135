//! The two widths in which numbers are computed: 128 bits, and 64 bits where numbers are known to
//! fit. Values are the same.

ghost use Rattle.std.specs.Prelude.{◌≡◌, ◌≤◌, ◌*◌, ◌*ℤ◌, ℕ, unsigned_abs};
ghost use Rattle.geo_triple.specs.Triple.{blend_of, cross_of, cut_of, determinant_of, dot_of};
ghost use Rattle.geo_triple.specs.Sums.{blend_sums, cross_sums, cut_sums, determinant_sum, dot_sum, largest_of, sizes_of};

use crate::{Triple, products};

/// A width: what is computed, where no number on the way is above its limit.
pub trait Width {
    ghost use Rattle.std.specs.Prelude.{◌≤◌, ℕ};
    ghost use Rattle.geo_triple.specs.declared.limits.TheConstants.{STATEMENT_LIMIT};

    ghost limit: { ℕ };

    /// Its limit is at most that of 128 bits.
    ghost within: { limit ≤ STATEMENT_LIMIT };

    fn cross(s: &Triple, t: &Triple) -> Triple
        requires first { largest_of (sizes_of s.now) ≤ limit }
        requires second { largest_of (sizes_of t.now) ≤ limit }
        requires sums { largest_of (cross_sums (sizes_of s.now) (sizes_of t.now)) ≤ limit }
        ensures { result ≡ cross_of s.now t.now };

    fn dot(s: &Triple, t: &Triple) -> i128
        requires first { largest_of (sizes_of s.now) ≤ limit }
        requires second { largest_of (sizes_of t.now) ≤ limit }
        requires sum { dot_sum (sizes_of s.now) (sizes_of t.now) ≤ limit }
        ensures { result ≡ dot_of s.now t.now };

    fn det(s: &Triple, t: &Triple, u: &Triple) -> i128
        requires first { largest_of (sizes_of s.now) ≤ limit }
        requires second { largest_of (sizes_of t.now) ≤ limit }
        requires third { largest_of (sizes_of u.now) ≤ limit }
        requires minors { largest_of (cross_sums (sizes_of t.now) (sizes_of u.now)) ≤ limit }
        requires sum { determinant_sum (sizes_of s.now) (sizes_of t.now) (sizes_of u.now) ≤ limit }
        ensures { result ≡ determinant_of s.now t.now u.now };

    fn blend(s: &Triple, t: &Triple, by: i64) -> Triple
        requires second { largest_of (sizes_of t.now) ≤ limit }
        requires sums { largest_of (blend_sums (sizes_of s.now) (sizes_of t.now) (unsigned_abs by)) ≤ limit }
        ensures { result ≡ blend_of s.now t.now by };

    fn cut(s: &Triple, by: i64) -> Triple
        requires first { largest_of (sizes_of s.now) ≤ limit }
        requires sums { largest_of (cut_sums (sizes_of s.now) (unsigned_abs by)) ≤ limit }
        ensures { result ≡ cut_of s.now by };

    fn product(x: i128, y: i128) -> i128
        requires first { unsigned_abs x ≤ limit }
        requires second { unsigned_abs y ≤ limit }
        requires product { unsigned_abs x * unsigned_abs y ≤ limit }
        ensures { result ≡ x *ℤ y };
}

/// 128 bits.
pub struct Wide;

impl Width for Wide {
    ghost use Rattle.geo_triple.specs.declared.limits.TheConstants.{STATEMENT_LIMIT};
    ghost use Rattle.geo_triple.specs.WidthLaws.{wide_within};

    ghost limit = { STATEMENT_LIMIT };

    ghost within = { wide_within };

    fn cross(s: &Triple, t: &Triple) -> Triple {
        products::cross(s, t)
    }

    fn dot(s: &Triple, t: &Triple) -> i128 {
        products::dot(s, t)
    }

    fn det(s: &Triple, t: &Triple, u: &Triple) -> i128 {
        products::det(s, t, u)
    }

    fn blend(s: &Triple, t: &Triple, by: i64) -> Triple {
        products::blend(s, t, by)
    }

    fn cut(s: &Triple, by: i64) -> Triple {
        products::cut(s, by)
    }

    fn product(x: i128, y: i128) -> i128 {
        products::product(x, y)
    }
}
