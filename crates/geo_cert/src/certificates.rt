//! What a certificate is, and why a line is none.

use crate::degree_lists::DegreeList;
use crate::element_lists::ElementList;
use crate::grid_lists::GridList;
use geo_sketch::{Statement, Values};

/// What was found of the claim, with what another program needs to check it.
#[derive(Drop)]
pub enum Finding {
    /// Its parts are 0 everywhere: they have these degrees, and are 0 on this grid.
    Proved(DegreeList, GridList),
    /// A part is not 0 at these values of its parameters.
    False(Values),
}

/// A statement with the elements on which it depends, and what was found of it.
#[derive(Drop)]
pub struct Certificate {
    /// By rising number, with their kinds at the time.
    pub elements: ElementList,
    /// About these elements, by their numbers.
    pub claim: Statement,
    pub finding: Finding,
}

/// Why a line is no certificate, or why a certificate is refused: the number of the first
/// rule that it breaks. Or memory was wanting.
#[derive(Clone, Copy, PartialEq, Eq, Debug)]
pub enum CertStop {
    Bad(u8),
    NoMemory,
}
