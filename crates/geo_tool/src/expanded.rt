//! The lines that an expansion gives.

ghost use Rattle.std.specs.Prelude.{◌≡◌, ◌++◌, ◌∷◌, [], OnOk, length, option_map, slice_get};

use std::alloc::{AllocError, Global};
use std::marker::Model;

/// Lines, in order.
#[derive(Drop)]
pub struct Expanded {
    lines: Vec<Vec<u8>>,
}

impl Model for Expanded {
    ghost use Rattle.std.specs.Prelude.{ℕ, List, map};

    ghost Value = { List (List ℕ) };

    ghost view = { λ e. map (λ line. line.items) e.lines.items };
}

impl Expanded {
    /// No lines.
    pub fn new(alloc: Global) -> Expanded
        ensures { result ≡ [] }
    {
        Expanded {
            lines: Vec::new(alloc),
        }
    }

    /// How many lines there are.
    pub fn len(&self) -> usize
        ensures { result ≡ length self.now }
    {
        self.lines.len()
    }

    /// The line at place k, and none past the last one.
    pub fn get(&self, k: usize) -> Option<&[u8]>
        ensures { option_map (λ line. line.now) result ≡ slice_get self.now k }
    {
        match self.lines.get(k) {
            Some(line) => Some(line.as_slice()),
            None => None,
        }
    }

    /// Forgets all lines.
    pub fn clear(&mut self)
        ensures { self.new ≡ [] }
    {
        self.lines.clear();
    }

    /// Adds a line at the end.
    pub(crate) fn push(&mut self, line: Vec<u8>) -> Result<(), AllocError>
        ensures { OnOk result (self.new ≡ self.old ++ line.items ∷ []) }
    {
        self.lines.push(line)?;
        Ok(())
    }
}
