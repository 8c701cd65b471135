//! What is shown of an element.

use geo_sketch::{Kind, Name};
use geo_triple::Triple;

/// Where an element is.
#[derive(Clone, Copy)]
pub enum Here {
    /// At the point or line with these primitive coordinates.
    At(Triple),
    /// Its triple is zero.
    NullHere,
    /// Its height at the current values is greater than 2^41.
    Far,
}

/// What is shown of an element: its number, name and kind, and where it is.
#[derive(Clone, Copy)]
pub struct Shown {
    pub number: u32,
    pub name: Name,
    pub kind: Kind,
    pub here: Here,
}
