//! The grid of a certificate.

ghost use Rattle.std.specs.Prelude.{◌≡◌, ◌<◌, ◌++◌, ◌∷◌, [], true, length, slice_get, Some, OnOk, OnErr, map, option_and_then, option_map};
ghost use Rattle.geo_cert.specs.Entries.{grid_of_entry};
ghost use Rattle.geo_cert.specs.Grids.{first_values, head_of, is_pair, one, second_values, two};
ghost use Rattle.geo_cert.specs.Versions.{are_single_grids};

use geo_sketch::NoMemory;
use std::alloc::Global;
use std::marker::Model;

/// The parameter, or the two parameters of a free element, that have values in an entry.
#[derive(Clone, Copy, PartialEq, Eq, Debug)]
pub enum GridHead {
    One(u32),
    Pair(u32, u32),
}

/// The values for a parameter, or those for each of two.
#[derive(Drop)]
pub(crate) enum GridEntry {
    One(u32, Vec<i64>),
    Pair(u32, u32, Vec<i64>, Vec<i64>),
}

/// Values, each list for one parameter, or two lists for two: of these the values at
/// places with a sum below their length belong together.
#[derive(Drop)]
pub struct GridList {
    entries: Vec<GridEntry>,
}

impl Model for GridList {
    ghost use Rattle.std.specs.Prelude.{List, map};
    ghost use Rattle.geo_cert.specs.Entries.{grid_of_entry};
    ghost use Rattle.geo_cert.specs.Grids.{Grid};

    ghost Value = { List Grid };

    ghost view = { λ l. map grid_of_entry l.entries.items };
}

impl GridList {
    /// No values.
    pub fn new(alloc: Global) -> GridList
        ensures { result ≡ [] }
    {
        GridList {
            entries: Vec::new(alloc),
        }
    }

    /// Adds the values for one parameter at the end.
    pub fn push_one(&mut self, alloc: Global, param: u32, values: &[i64]) -> Result<(), NoMemory>
        ensures after { OnOk result (self.new ≡ self.old ++ one param values.now ∷ []) }
        ensures unchanged { OnErr result (self.new ≡ self.old) }
    {
        match values.to_vec(alloc) {
            Ok(values) => self.push(GridEntry::One(param, values)),
            Err(_) => Err(NoMemory),
        }
    }

    /// Adds the values for two parameters at the end.
    pub fn push_pair(
        &mut self,
        alloc: Global,
        p: u32,
        q: u32,
        first: &[i64],
        second: &[i64],
    ) -> Result<(), NoMemory>
        ensures after { OnOk result (self.new ≡ self.old ++ two p q first.now second.now ∷ []) }
        ensures unchanged { OnErr result (self.new ≡ self.old) }
    {
        let Ok(first) = first.to_vec(alloc) else {
            return Err(NoMemory);
        };
        match second.to_vec(alloc) {
            Ok(second) => self.push(GridEntry::Pair(p, q, first, second)),
            Err(_) => Err(NoMemory),
        }
    }

    pub(crate) fn push(&mut self, entry: GridEntry) -> Result<(), NoMemory>
        ensures after { OnOk result (self.new ≡ self.old ++ grid_of_entry entry ∷ []) }
        ensures unchanged { OnErr result (self.new ≡ self.old) }
    {
        match self.entries.push(entry) {
            Ok(()) => Ok(()),
            Err(_) => Err(NoMemory),
        }
    }

    /// How many entries there are.
    pub fn len(&self) -> usize
        ensures { result ≡ length self.now }
    {
        self.entries.len()
    }

    /// The parameters of the entry at place k, and none past the last one.
    pub fn get(&self, k: usize) -> Option<GridHead>
        ensures { result ≡ option_map head_of (slice_get self.now k) }
    {
        match self.entries.get(k) {
            Some(GridEntry::One(p, _)) => Some(GridHead::One(*p)),
            Some(GridEntry::Pair(p, q, _, _)) => Some(GridHead::Pair(*p, *q)),
            None => None,
        }
    }

    /// The values of the entry at place k, which are those for the first parameter of a
    /// pair.
    pub fn first(&self, k: usize) -> &[i64]
        requires { k < length self.now }
        ensures { option_map first_values (slice_get self.now k) ≡ Some result.now }
    {
        match &self.entries[k] {
            GridEntry::One(_, values) => values,
            GridEntry::Pair(_, _, first, _) => first,
        }
    }

    /// The values for the second parameter of the pair at place k.
    pub fn second(&self, k: usize) -> &[i64]
        requires { option_map is_pair (slice_get self.now k) ≡ Some true }
        ensures { option_and_then second_values (slice_get self.now k) ≡ Some result.now }
    {
        match self.entries.get(k) {
            Some(GridEntry::Pair(_, _, _, second)) => second,
            _ => &[],
        }
    }

    /// All entries, in their order.
    pub(crate) fn as_slice(&self) -> &[GridEntry]
        ensures { map grid_of_entry result.now ≡ self.now }
    {
        &self.entries
    }

    /// Whether each entry is for one parameter.
    pub(crate) fn is_single(&self) -> bool
        ensures { result ≡ are_single_grids self.now }
    {
        for entry in &self.entries {
            if let GridEntry::Pair(_, _, _, _) = entry {
                return false;
            }
        }
        true
    }
}
