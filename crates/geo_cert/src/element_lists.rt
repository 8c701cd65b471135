//! The elements of a certificate.

ghost use Rattle.std.specs.Prelude.{◌≡◌, ◌++◌, ◌∷◌, [], length, slice_get, OnOk, OnErr};

use geo_sketch::{Def, Kind, NoMemory};
use std::alloc::Global;
use std::marker::Model;

/// Elements, each by its number, its kind and its definition.
#[derive(Drop)]
pub struct ElementList {
    entries: Vec<(u32, Kind, Def)>,
}

impl Model for ElementList {
    ghost use Rattle.std.specs.Prelude.{ℕ, List};
    ghost use Rattle.geo_sketch.specs.declared.elements.Kind.{Kind};
    ghost use Rattle.geo_sketch.specs.declared.elements.Def.{Def};

    ghost Value = { List (ℕ × Kind × Def) };

    ghost view = { λ l. l.entries.items };
}

impl ElementList {
    /// No elements.
    pub fn new(alloc: Global) -> ElementList
        ensures { result ≡ [] }
    {
        ElementList {
            entries: Vec::new(alloc),
        }
    }

    /// Adds an element at the end.
    pub fn push(&mut self, number: u32, kind: Kind, def: Def) -> Result<(), NoMemory>
        ensures after { OnOk result (self.new ≡ self.old ++ (number, kind, def) ∷ []) }
        ensures unchanged { OnErr result (self.new ≡ self.old) }
    {
        match self.entries.push((number, kind, def)) {
            Ok(()) => Ok(()),
            Err(_) => Err(NoMemory),
        }
    }

    /// How many elements there are.
    pub fn len(&self) -> usize
        ensures { result ≡ length self.now }
    {
        self.entries.len()
    }

    /// The element at place k, and none past the last one.
    pub fn get(&self, k: usize) -> Option<(u32, Kind, Def)>
        ensures { result ≡ slice_get self.now k }
    {
        self.entries.get(k).copied()
    }

    /// All elements, in their order.
    pub fn as_slice(&self) -> &[(u32, Kind, Def)]
        ensures { result.now ≡ self.now }
    {
        &self.entries
    }
}
