//! Homogeneous coordinates of points and lines of the projective plane in 128 bits.
//! Each call gives the value that it has over unbounded whole numbers.
#![tactic(auto)]

ghost use Rattle.std.specs.Prelude.{◌≡◌};
ghost use Rattle.geo_triple.specs.Zero.{are_zero, coordinates};

mod laws;
mod limits;
mod narrow;
mod products;
mod reduction;
mod steps;
mod widths;

pub use laws::{
    cut_in_coordinates, heights_bound_sizes, incidences_by_construction, only_one_primitive,
    plain_heights_suffice, primitive_or_zero, sums_bound_sizes, sums_grow,
};
pub use limits::{SHORT_LIMIT, STATEMENT_LIMIT};
pub use narrow::Narrow;
pub use products::{blend, cross, cut, det, dot};
pub use reduction::primitive;
pub use steps::Steps;
pub use widths::{Wide, Width};

/// The homogeneous coordinates of a point or a line: the point (x, y) is (x, y, 1), the line
/// u·x + v·y + w = 0 is (u, v, w), and a multiple stands for the same point or line.
/// The zero triple stands for none.
#[derive(Clone, Copy)]
pub struct Triple {
    pub a: i128,
    pub b: i128,
    pub c: i128,
}

impl Triple {
    /// Whether it is the zero triple.
    pub fn is_zero(&self) -> bool
        ensures { result ≡ are_zero (coordinates self.now) }
    {
        self.a == 0 && self.b == 0 && self.c == 0
    }
}

#[cfg(test)]
mod tests {
    use super::*;

    fn at(a: i128, b: i128, c: i128) -> Triple
        ensures { result ≡ record { a = a; b = b; c = c } }
    {
        Triple { a, b, c }
    }

    fn is_at(t: Triple, a: i128, b: i128, c: i128) -> bool {
        t.a == a && t.b == b && t.c == c
    }

    /// A join, a point on it, a line through a point and a blend, with their primitive triples.
    #[test]
    #[tactic(auto, unfolding(crate::specs::Sums::largest_of, crate::specs::Sums::cross_sums, crate::specs::Sums::blend_sums, crate::specs::Sums::cut_sums))]
    fn elements_as_drawn(rt: HostRuntime) {
        assert!(rt; is_at(cross(&at(0, 0, 1), &at(4, 2, 1)), -2, 4, 0), "join");
        assert!(rt;
            is_at(cut(&at(-2, 4, 0), 2), -8, -4, -4),
            "point on the join"
        );
        assert!(rt;
            is_at(cut(&at(3, 4, 1), 2), -8, 7, -4),
            "line through a point"
        );
        assert!(rt;
            is_at(blend(&at(1, 2, 1), &at(-8, 7, -4), 1), -7, 9, -3),
            "blend"
        );
    }

    #[test]
    #[tactic(auto, unfolding(crate::specs::Triple::size_of))]
    fn primitive_triples(rt: HostRuntime) {
        for (a, b, c, x, y, z) in [
            (-2, 4, 0, -1, 2, 0),
            (-8, -4, -4, 2, 1, 1),
            (-8, 7, -4, 8, -7, 4),
            (-7, 9, -3, 7, -9, 3),
            (-5, 0, 0, 1, 0, 0),
            (0, -7, 0, 0, 1, 0),
        ] {
            match primitive(&at(a, b, c)) {
                Some(found) => assert!(rt; is_at(found, x, y, z), "at {a} {b} {c}"),
                None => assert!(rt; false, "at {a} {b} {c}"),
            }
        }
        assert!(rt; primitive(&at(0, 0, 0)).is_none(), "the zero triple");
        assert!(rt; at(0, 0, 0).is_zero(), "the zero triple");
        assert!(rt; !at(0, 0, -1).is_zero(), "a third coordinate");
    }

    #[test]
    #[tactic(auto, unfolding(crate::specs::Sums::largest_of, crate::specs::Sums::cross_sums, crate::specs::Sums::dot_sum, crate::specs::Sums::determinant_sum))]
    fn incidence(rt: HostRuntime) {
        assert_eq!(rt; dot(&at(2, 1, 1), &at(-2, 4, 0)), 0);
        assert_eq!(rt; dot(&at(3, 4, 1), &at(1, 2, 1)), 12);
        assert_eq!(rt; det(&at(0, 0, 1), &at(4, 2, 1), &at(2, 1, 1)), 0);
        assert_eq!(rt; det(&at(0, 0, 1), &at(1, 0, 1), &at(0, 1, 1)), 1);
        assert_eq!(rt; det(&at(1, 0, 1), &at(0, 0, 1), &at(0, 1, 1)), -1);
    }

    /// Large coordinates beside zeros: the height rule refuses this cross product.
    #[test]
    #[tactic(auto, unfolding(crate::specs::Sums::largest_of, crate::specs::Sums::cross_sums))]
    fn large_beside_zero(rt: HostRuntime) {
        assert!(rt; is_at(cross(&at(1 << 122, 0, 0), &at(0, 16, 0)), 0, 0, 1 << 126));
    }

    #[test]
    #[tactic(auto, unfolding(crate::specs::Sums::largest_of, crate::specs::Sums::cross_sums, crate::specs::Sums::dot_sum, crate::specs::Sums::determinant_sum, crate::specs::Sums::blend_sums, crate::specs::Sums::cut_sums))]
    fn by_short_products(rt: HostRuntime) {
        let s = at(3_000_000_000, -2, 7);
        let t = at(1_000_000_000, 5, -1);
        let cross = Narrow::cross(&s, &t);
        assert!(rt; is_at(cross, -33, 10_000_000_000, 17_000_000_000), "cross");
        assert_eq!(rt; Narrow::dot(&s, &t), 2_999_999_999_999_999_983);
        assert_eq!(rt; Narrow::det(&s, &t, &at(1, 0, 0)), -33);
        assert!(rt;
            is_at(Narrow::blend(&s, &t, -2), 1_000_000_000, -12, 9),
            "blend"
        );
        assert!(rt; is_at(Narrow::cut(&s, 4), 8, 12_000_000_007, 2), "cut");
        assert_eq!(rt;
            Narrow::dot(&at(i64::MAX.into(), 0, 0), &at(-1, 0, 0)),
            -9_223_372_036_854_775_807
        );
        assert_eq!(rt;
            Narrow::product(i64::MAX.into(), -1),
            -9_223_372_036_854_775_807
        );
        assert_eq!(rt; Wide::product(1 << 63, -(1 << 63)), -(1 << 126));
    }
}
