//! What a view is told.

use geo_eval::Shown;

/// What a view shows of its entries.
#[derive(Clone, Copy, PartialEq, Eq, Debug)]
pub enum ViewKind {
    /// A line of text for each entry.
    Table,
    /// A picture of the plane.
    Plane,
    /// A picture of the plane with the kinds exchanged: each point is drawn as the line with
    /// the same coordinates, and each line as the point.
    DualPlane,
}

/// A change of what a view shows.
#[derive(Clone, Copy)]
pub enum Change {
    /// An entry that is new, or stands in place of the one with its number.
    Put(Shown),
    /// The number of an entry that leaves.
    Gone(u32),
    /// Every entry's kind is exchanged.
    Dual,
}
