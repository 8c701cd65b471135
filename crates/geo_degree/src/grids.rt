//! The axes and blocks of a grid, and the values of an axis.

ghost use Rattle.std.specs.Prelude.{◌≡◌, ◌≤◌, ◌^◌};
ghost use Rattle.geo_degree.specs.Grids.{grid_value as value_at_number};

/// A parameter, and the degree in it, which is above 0 on a grid.
#[derive(Clone, Copy, Debug)]
pub struct Axis {
    pub param: u32,
    pub degree: u64,
}

/// What a grid is a product of: one axis with its degree, or the two axes of a free element,
/// whose points form a triangle, with the degree in either of them and in both together.
#[derive(Clone, Copy, PartialEq, Eq, Debug)]
pub enum Block {
    One(u64),
    Pair(u64),
}

/// The value number k of an axis: 0, 1, -1, 2, -2 and so on.
pub fn grid_value(k: u64) -> i64
    requires { k ≤ 2 ^ 21 }
    ensures { result ≡ value_at_number k }
{
    if k % 2 == 1 {
        ((k + 1) / 2) as i64
    } else {
        -((k / 2) as i64)
    }
}
