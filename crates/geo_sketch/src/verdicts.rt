//! What was found out about a statement.

ghost use Rattle.std.specs.Prelude.{◌≡◌, ◌++◌, ◌∷◌, [], OnErr, OnOk, length, slice_get};

use crate::changes::NoMemory;
use std::alloc::Global;
use std::marker::Model;

/// The limit that a statement passes: that of the size of its grid, or that of its
/// height.
#[derive(Clone, Copy, PartialEq, Eq, Debug)]
pub enum Past {
    Size,
    Height,
}

/// What was found out about a statement.
#[derive(Drop)]
pub enum Verdict {
    Proved,
    /// It fails at these values of its axes.
    False(Values),
    Unsettled(Past),
}

/// Parameters, each with a value.
#[derive(Drop)]
pub struct Values {
    pairs: Vec<(u32, i64)>,
}

impl Model for Values {
    ghost use Rattle.std.specs.Prelude.{ℕ, ℤ, List};

    ghost Value = { List (ℕ × ℤ) };

    ghost view = { λ v. v.pairs.items };
}

impl Values {
    /// No values.
    pub fn new(alloc: Global) -> Values
        ensures { result ≡ [] }
    {
        Values {
            pairs: Vec::new(alloc),
        }
    }

    /// Adds a parameter with its value at the end.
    pub fn push(&mut self, param: u32, value: i64) -> Result<(), NoMemory>
        ensures after { OnOk result (self.new ≡ self.old ++ (param, value) ∷ []) }
        ensures unchanged { OnErr result (self.new ≡ self.old) }
    {
        match self.pairs.push((param, value)) {
            Ok(()) => Ok(()),
            Err(_) => Err(NoMemory),
        }
    }

    /// How many values there are.
    pub fn len(&self) -> usize
        ensures { result ≡ length self.now }
    {
        self.pairs.len()
    }

    /// The parameter and the value at place k, and none past the last one.
    pub fn get(&self, k: usize) -> Option<(u32, i64)>
        ensures { result ≡ slice_get self.now k }
    {
        self.pairs.get(k).copied()
    }
}
