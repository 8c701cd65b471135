//! The degrees of a certificate.

ghost use Rattle.std.specs.Prelude.{◌≡◌, ◌++◌, ◌∷◌, [], length, slice_get, OnOk, OnErr};
ghost use Rattle.geo_cert.specs.Versions.{are_single_degrees};

use geo_sketch::NoMemory;
use std::alloc::Global;
use std::marker::Model;

/// A parameter, or the two parameters of a free element, with the degree in it, or in
/// either of them and in both together.
#[derive(Clone, Copy, PartialEq, Eq, Debug)]
pub enum DegreeEntry {
    One(u32, i64),
    Pair(u32, u32, i64),
}

/// Degrees, each for one parameter or for two.
#[derive(Drop)]
pub struct DegreeList {
    entries: Vec<DegreeEntry>,
}

impl Model for DegreeList {
    ghost use Rattle.std.specs.Prelude.{List};
    ghost use Rattle.geo_cert.specs.declared.degree_lists.DegreeEntry.{DegreeEntry};

    ghost Value = { List DegreeEntry };

    ghost view = { λ l. l.entries.items };
}

impl DegreeList {
    /// No degrees.
    pub fn new(alloc: Global) -> DegreeList
        ensures { result ≡ [] }
    {
        DegreeList {
            entries: Vec::new(alloc),
        }
    }

    /// Adds a degree at the end.
    pub fn push(&mut self, entry: DegreeEntry) -> Result<(), NoMemory>
        ensures after { OnOk result (self.new ≡ self.old ++ entry ∷ []) }
        ensures unchanged { OnErr result (self.new ≡ self.old) }
    {
        match self.entries.push(entry) {
            Ok(()) => Ok(()),
            Err(_) => Err(NoMemory),
        }
    }

    /// How many entries there are.
    pub fn len(&self) -> usize
        ensures { result ≡ length self.now }
    {
        self.entries.len()
    }

    /// The entry at place k, and none past the last one.
    pub fn get(&self, k: usize) -> Option<DegreeEntry>
        ensures { result ≡ slice_get self.now k }
    {
        self.entries.get(k).copied()
    }

    /// All entries, in their order.
    pub fn as_slice(&self) -> &[DegreeEntry]
        ensures { result.now ≡ self.now }
    {
        &self.entries
    }

    /// Whether each entry is for one parameter.
    pub(crate) fn is_single(&self) -> bool
        ensures { result ≡ are_single_degrees self.now }
    {
        for entry in &self.entries {
            if let DegreeEntry::Pair(_, _, _) = entry {
                return false;
            }
        }
        true
    }
}
