//! Changes of a sketch, and why one is refused.

use crate::elements::{Element, Setting};
use crate::statements::Statement;
use std::alloc::{AllocError, AllocFailed};

/// A change that was made, with what is needed to take it back.
#[derive(Clone, Copy, Debug)]
pub enum Delta {
    /// The element that was added, with its first setting.
    Added(Element, Setting),
    /// The element that was dropped, with its last setting.
    Dropped(Element, Setting),
    /// The number of an element, its setting before, and the one after.
    Dragged(u32, Setting, Setting),
    /// The claim that was added.
    Claimed(Statement),
    /// All kinds were exchanged.
    Dual,
}

/// Why a line of a script is refused; each is named by the word that a reply
/// prints.
#[derive(Clone, Copy, PartialEq, Eq, Debug)]
pub enum Refusal {
    Long,
    Ascii,
    Command,
    Arity,
    Name,
    Number,
    Taken,
    Unknown,
    Kind,
    Zero,
    Full,
    Tall,
    Used,
    Fixed,
    Nothing,
    Repeat,
    View,
    /// An expression that is none.
    Shape,
    /// An expression whose numbers could pass 128 bits.
    Great,
    /// A premise that is not known to hold.
    Unproved,
    /// A side condition that is 0 at all sample positions.
    Degenerate,
}

/// There was no memory.
#[derive(Clone, Copy, PartialEq, Eq, Debug)]
pub struct NoMemory;

impl From<AllocError> for NoMemory {
    fn from(_error: AllocError) -> NoMemory {
        NoMemory
    }
}

impl<T: Drop> From<AllocFailed<T>> for NoMemory {
    fn from(_failed: AllocFailed<T>) -> NoMemory {
        NoMemory
    }
}

/// Why a call that may need memory did nothing.
#[derive(Clone, Copy, PartialEq, Eq, Debug)]
pub enum Stop {
    Refused(Refusal),
    NoMemory,
}
