//! Views by their numbers.

ghost use Rattle.std.specs.Prelude.{◌≡◌, ◌↔◌, ◌++◌, Err, IfSome, OnErr, OnOk, None, map, option_map, slice_set, unsigned_abs};
ghost use Rattle.geo_sketch.specs.declared.changes.Refusal.{Refusal as Reason};
ghost use Rattle.geo_view.specs.Entries.{AreNearChanges};
ghost use Rattle.geo_view.specs.Sights.{after, picture_of};
ghost use Rattle.geo_view.specs.Walls.{sight_at};

use crate::shown::Change;
use crate::wall::Wall;
use geo_sketch::{NoMemory, Refusal, Stop};
use std::alloc::Global;

/// Views by their numbers, from 0 on. A closed view keeps its number.
pub trait Views: Drop {
    ghost use Rattle.std.specs.Prelude.{List, Option};
    ghost use Rattle.geo_view.specs.Sights.{Sight};

    // What is seen of each, with none where it was closed.
    ghost shows: { Self → List (Option Sight) };

    /// Lets every open view see the changes. Coordinates lie from -2^41 to 2^41. After
    /// NoMemory the views may only be dropped.
    fn tell(&mut self, changes: &[Change]) -> Result<(), NoMemory>
        requires near { AreNearChanges changes.now }
        ensures told { OnOk result (shows self.new ≡ map (option_map (after changes.now)) (shows self.old)) };

    /// Appends the picture of view k. Refused as view where no open view has this number.
    fn show(&self, alloc: Global, k: i64, out: &mut Vec<u8>) -> Result<(), Stop>
        ensures shown { OnOk result (IfSome (sight_at (shows self.now) k) (λ s. out.new.items ≡ out.old.items ++ picture_of s)) }
        ensures refused { (r : Reason) → (result ≡ Err (Stop.Refused r)) ↔ ((sight_at (shows self.now) k ≡ None) × (r ≡ Reason.View)) }
        ensures unchanged { (r : Reason) → result ≡ Err (Stop.Refused r) → out.new ≡ out.old };

    /// Closes view k: it is dropped in this call. Refused as view where no open view has
    /// this number.
    fn close(&mut self, k: i64) -> Result<(), Refusal>
        ensures closed { OnOk result (shows self.new ≡ slice_set (shows self.old) (unsigned_abs k) None) }
        ensures refused { (r : Reason) → (result ≡ Err r) ↔ ((sight_at (shows self.old) k ≡ None) × (r ≡ Reason.View)) }
        ensures unchanged { OnErr result (self.new ≡ self.old) };
}

impl Views for Wall {
    ghost use Rattle.geo_view.specs.Walls.{sights};

    ghost shows = { λ w. sights (λ b. (View-box b).sight b.value) w };

    fn tell(&mut self, changes: &[Change]) -> Result<(), NoMemory> {
        Wall::tell(self, changes)
    }

    fn show(&self, alloc: Global, k: i64, out: &mut Vec<u8>) -> Result<(), Stop> {
        Wall::show(self, alloc, k, out)
    }

    fn close(&mut self, k: i64) -> Result<(), Refusal> {
        Wall::close(self, k)
    }
}

/// No views.
#[derive(Drop)]
pub struct NoViews;

impl Views for NoViews {
    ghost use Rattle.std.specs.Prelude.{[]};

    ghost shows = { λ v. [] };

    fn tell(&mut self, _changes: &[Change]) -> Result<(), NoMemory> {
        Ok(())
    }

    fn show(&self, _alloc: Global, _k: i64, _out: &mut Vec<u8>) -> Result<(), Stop> {
        Err(Stop::Refused(Refusal::View))
    }

    fn close(&mut self, _k: i64) -> Result<(), Refusal> {
        Err(Refusal::View)
    }
}
