//! A history, and the calls that move a sketch along it.

ghost use Rattle.std.specs.Prelude.{◌≡◌, ◌≢◌, ◌↔◌, ◌++◌, ◌<◌, nat_lt, length, IfOk, IsOk, OnErr, OnOk, Err, false, List, [], ◌∷◌};
ghost use Rattle.geo_sketch.specs.Changes.{applied, LeadsFrom, made_of, makes_longer, makes_shorter, taken_back};
ghost use Rattle.geo_sketch.specs.Sketches.{IsDrawn};
ghost use Rattle.geo_sketch.specs.declared.changes.Delta.{Delta as Change};
ghost use Rattle.geo_sketch.specs.declared.changes.Refusal.{Refusal as RefusalWord};
ghost use Rattle.geo_undo.specs.Timelines.{continued, unstarted, IsSound, Redoes, Undoes};

use geo_sketch::{Delta, NoMemory, Refusal, Sketch, Stop};
use std::alloc::Global;
use std::marker::Model;

/// The changes that were made of a sketch, from the empty one on, up to where it
/// stands, and beyond that the undone ones.
#[derive(Drop)]
pub struct History {
    changes: Vec<Delta>,
    /// How many of them are done; the others are undone.
    count: usize,
}

impl Model for History {
    ghost use Rattle.std.specs.Prelude.{◌≤◌, length, take, drop};
    ghost use Rattle.geo_sketch.specs.Changes.{AllLead};
    ghost use Rattle.geo_sketch.specs.Sketches.{blank};
    ghost use Rattle.geo_undo.specs.Timelines.{Timeline};

    ghost Value = { Timeline };

    ghost view = { λ h. record { done = take h.count h.changes.items; undone = drop h.count h.changes.items } };

    ghost invariant = { λ h. (h.count ≤ length h.changes.items) × AllLead blank h.changes.items };
}

impl History {
    /// The history with nothing done.
    pub fn new(alloc: Global) -> History
        ensures { result ≡ unstarted }
    {
        History {
            changes: Vec::new(alloc),
            count: 0,
        }
    }

    /// Notes a change that was made of the sketch; the undone ones are forgotten.
    pub fn push(&mut self, delta: Delta) -> Result<(), NoMemory>
        requires { LeadsFrom (made_of self.old.done) delta }
        ensures after { OnOk result (self.new ≡ continued self.old delta) }
        ensures makes { OnOk result (made_of self.new.done ≡ applied (made_of self.old.done) delta) }
        ensures drawn { IsDrawn (made_of self.old.done) }
        ensures unchanged { OnErr result (self.new ≡ self.old) }
        ensures in_place { self.old.undone ≢ [] → IsOk result }
    {
        if self.can_redo() {
            self.put_over_undone(delta);
            Ok(())
        } else {
            self.put_last(delta)
        }
    }

    /// Takes back the last done change, and gives it.
    ///
    /// Refused where nothing is done. Only taking back a drop may need memory.
    pub fn undo(&mut self, sketch: &mut Sketch) -> Result<Delta, Stop>
        requires { sketch.old ≡ made_of self.old.done }
        ensures refused { (r : RefusalWord) → (result ≡ Err (Stop.Refused r)) ↔ ((self.old.done ≡ []) × (r ≡ RefusalWord.Nothing)) }
        ensures undoes { IfOk result (Undoes self.old self.new) }
        ensures makes { OnOk result (sketch.new ≡ made_of self.new.done) }
        ensures leads { IfOk result (LeadsFrom sketch.new) }
        ensures before { IfOk result (λ d. sketch.old ≡ applied sketch.new d) }
        ensures unchanged { OnErr result ((self.new ≡ self.old) × (sketch.new ≡ sketch.old)) }
        ensures in_place { (ds : List Change) (d : Change) → self.old.done ≡ ds ++ (d ∷ []) → makes_shorter d ≡ false → IsOk result }
    {
        if self.count == 0 {
            return Err(Stop::Refused(Refusal::Nothing));
        }
        let delta = self.changes[self.count - 1];
        if sketch.revert(&delta).is_err() {
            return Err(Stop::NoMemory);
        }
        self.count -= 1;
        Ok(delta)
    }

    /// Does the first undone change again, and gives it.
    ///
    /// Refused where nothing is undone. Only an addition or a claim may need memory.
    pub fn redo(&mut self, sketch: &mut Sketch) -> Result<Delta, Stop>
        requires { sketch.old ≡ made_of self.old.done }
        ensures refused { (r : RefusalWord) → (result ≡ Err (Stop.Refused r)) ↔ ((self.old.undone ≡ []) × (r ≡ RefusalWord.Nothing)) }
        ensures redoes { IfOk result (Redoes self.old self.new) }
        ensures makes { OnOk result (sketch.new ≡ made_of self.new.done) }
        ensures leads { IfOk result (LeadsFrom sketch.old) }
        ensures after { IfOk result (λ d. sketch.new ≡ applied sketch.old d) }
        ensures drawn { IsDrawn sketch.old }
        ensures unchanged { OnErr result ((self.new ≡ self.old) × (sketch.new ≡ sketch.old)) }
        ensures in_place { (d : Change) (ds : List Change) → self.old.undone ≡ d ∷ ds → makes_longer d ≡ false → IsOk result }
    {
        if self.count == self.changes.len() {
            return Err(Stop::Refused(Refusal::Nothing));
        }
        let delta = self.changes[self.count];
        if sketch.apply(&delta).is_err() {
            return Err(Stop::NoMemory);
        }
        self.count += 1;
        Ok(delta)
    }

    /// Whether a change is done that can be taken back.
    pub fn can_undo(&self) -> bool
        ensures result { result ≡ nat_lt 0 (length self.now.done) }
        ensures sound { IsSound self.now }
    {
        self.count > 0
    }

    /// Whether a change was undone that can be done again.
    pub fn can_redo(&self) -> bool
        ensures result { result ≡ nat_lt 0 (length self.now.undone) }
        ensures sound { IsSound self.now }
    {
        self.count < self.changes.len()
    }

    fn put_over_undone(&mut self, delta: Delta)
        requires undone { 0 < length self.old.undone }
        requires leads { LeadsFrom (made_of self.old.done) delta }
        ensures { self.new ≡ continued self.old delta }
    {
        self.changes[self.count] = delta;
        self.count += 1;
        self.changes.truncate(self.count);
    }

    fn put_last(&mut self, delta: Delta) -> Result<(), NoMemory>
        requires undone { length self.old.undone ≡ 0 }
        requires leads { LeadsFrom (made_of self.old.done) delta }
        ensures after { OnOk result (self.new ≡ continued self.old delta) }
        ensures unchanged { OnErr result (self.new ≡ self.old) }
    {
        if self.changes.push(delta).is_err() {
            return Err(NoMemory);
        }
        self.count += 1;
        Ok(())
    }
}
