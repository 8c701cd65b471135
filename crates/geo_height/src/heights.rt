//! The heights of an element, one for each coordinate, from those of the elements that it
//! is made of.

ghost use Rattle.std.specs.Prelude.{◌≡◌, ◌+◌, ◌*◌, max, unsigned_abs};
ghost use Rattle.geo_triple.specs.Sums.{Sizes, of_sizes, largest_of, cross_sums, dot_sum};
ghost use Rattle.geo_sketch.specs.Heights.{blend_heights, cut_heights};
ghost use Rattle.geo_height.specs.Capped.{heights_within, sizes_in, within_limit};

use crate::capped::{keep, plus_product, sum_of_three, sum_of_two};

/// A bound of the absolute value of each coordinate of an element's triple.
#[derive(Clone, Copy, Debug, PartialEq, Eq)]
pub struct Heights {
    pub a: u128,
    pub b: u128,
    pub c: u128,
}

impl Heights {
    /// Of a free element, at the magnitudes of its two parameters.
    pub fn of_free(first: u64, second: u64) -> Heights
        ensures { heights_within (of_sizes (max 1 first) (max 1 second) 1) ≡ Some result }
    {
        Heights {
            a: u128::from(first.max(1)),
            b: u128::from(second.max(1)),
            c: 1,
        }
    }

    /// Of an element with these coordinates.
    pub fn of_fixed(a: i64, b: i64, c: i64) -> Heights
        ensures { heights_within (of_sizes (max 1 (unsigned_abs a)) (max 1 (unsigned_abs b)) (max 1 (unsigned_abs c))) ≡ Some result }
    {
        Heights {
            a: u128::from(a.unsigned_abs().max(1)),
            b: u128::from(b.unsigned_abs().max(1)),
            c: u128::from(c.unsigned_abs().max(1)),
        }
    }

    /// Of a cut, at the magnitude of its parameter. Here and below None where one of them
    /// is greater than 2^126.
    pub fn cut(&self, by: u64) -> Option<Heights>
        ensures { result ≡ heights_within (cut_heights (sizes_in self.now) by) }
    {
        let by = u128::from(by);
        all_of(
            plus_product(0, by.max(1), self.b),
            self.second_of_cut(by),
            keep(self.b),
        )
    }

    fn second_of_cut(&self, by: u128) -> Option<u128>
        ensures { result ≡ within_limit (max self.now.a (self.now.c + by * self.now.a)) }
    {
        keep(plus_product(self.c, by, self.a)?.max(self.a))
    }

    /// Of a blend of this one and another, at the magnitude of its parameter.
    pub fn blend(&self, other: &Heights, by: u64) -> Option<Heights>
        ensures { result ≡ heights_within (blend_heights (sizes_in self.now) (sizes_in other.now) by) }
    {
        let weight = u128::from(by.max(1));
        all_of(
            plus_product(self.a, weight, other.a),
            plus_product(self.b, weight, other.b),
            plus_product(self.c, weight, other.c),
        )
    }

    /// Of the cross product of this one and another.
    pub fn cross(&self, other: &Heights) -> Option<Heights>
        ensures { result ≡ heights_within (cross_sums (sizes_in self.now) (sizes_in other.now)) }
    {
        all_of(
            sum_of_two(self.b, other.c, self.c, other.b),
            sum_of_two(self.c, other.a, self.a, other.c),
            sum_of_two(self.a, other.b, self.b, other.a),
        )
    }

    /// A bound of the dot product of this one and another.
    #[tactic(auto, unfolding(geo_triple::specs::Sums::dot_sum))]
    pub fn dot(&self, other: &Heights) -> Option<u128>
        ensures { result ≡ within_limit (dot_sum (sizes_in self.now) (sizes_in other.now)) }
    {
        sum_of_three(self.a, other.a, self.b, other.b, self.c, other.c)
    }

    /// The height of the element.
    #[tactic(auto, unfolding(geo_triple::specs::Sums::largest_of))]
    pub fn largest(&self) -> u128
        ensures { result ≡ largest_of (sizes_in self.now) }
    {
        self.a.max(self.b.max(self.c))
    }
}

/// All three, or None where one is above the limit.
fn all_of(a: Option<u128>, b: Option<u128>, c: Option<u128>) -> Option<Heights>
    ensures { (g : Sizes) → a ≡ within_limit g.a → b ≡ within_limit g.b → c ≡ within_limit g.c → result ≡ heights_within g }
{
    Some(Heights {
        a: a?,
        b: b?,
        c: c?,
    })
}
