//! A wall of boxed views.

ghost use Rattle.std.specs.Prelude.{◌≡◌, ◌≢◌, ◌↔◌, ◌++◌, Err, IfErr, IfOk, IfSome, OnErr, OnOk, None, Some, map, option_map, slice_set, unsigned_abs};
ghost use Rattle.geo_sketch.specs.declared.changes.Refusal.{Refusal as Reason};
ghost use Rattle.geo_view.specs.Entries.{AreNearChanges};
ghost use Rattle.geo_view.specs.Sights.{after, picture_of};
ghost use Rattle.geo_view.specs.Walls.{IsOpenAt, sight_at, sights};

use crate::shown::Change;
use crate::view::View;
use geo_sketch::{NoMemory, Refusal, Stop};
use std::alloc::Global;

/// The place of a view on a wall.
#[derive(Drop)]
pub struct Place {
    /// None where the view was closed.
    pub view: Option<Box<dyn View>>,
}

/// Views by their numbers, from 0 on. A closed view keeps its number.
#[derive(Drop)]
pub struct Wall {
    pub places: Vec<Place>,
}

impl Wall {
    /// The wall of these views, numbered in their order. After NoMemory they are dropped.
    pub fn new(alloc: Global, views: Vec<Box<dyn View>>) -> Result<Wall, NoMemory>
        ensures { IfOk result (λ wall. sights sight wall ≡ map (λ b. Some (sight b)) views.items) }
    {
        let mut places = Vec::new(alloc);
        if places.reserve(views.len()).is_err() {
            return Err(NoMemory);
        }
        let mut views = views;
        while !views.is_empty() {
            let view = views.remove(0);
            if places.push(Place { view: Some(view) }).is_err() {
                return Err(NoMemory);
            }
        }
        Ok(Wall { places })
    }

    /// Lets every open view see the changes. Coordinates lie from -2^41 to 2^41. After
    /// NoMemory the wall may only be dropped.
    pub fn tell(&mut self, changes: &[Change]) -> Result<(), NoMemory>
        requires near { AreNearChanges changes.now }
        ensures told { OnOk result (sights sight self.new ≡ map (option_map (after changes.now)) (sights sight self.old)) }
    {
        for place in 0..self.places.len() {
            tell_place(&mut self.places[place], changes)?;
        }
        Ok(())
    }

    /// Appends the picture of view k. Refused as view where no open view has this number.
    pub fn show(&self, alloc: Global, k: i64, out: &mut Vec<u8>) -> Result<(), Stop>
        ensures shown { OnOk result (IfSome (sight_at (sights sight self.now) k) (λ s. out.new.items ≡ out.old.items ++ picture_of s)) }
        ensures refused { (r : Reason) → (result ≡ Err (Stop.Refused r)) ↔ ((sight_at (sights sight self.now) k ≡ None) × (r ≡ Reason.View)) }
        ensures unchanged { (r : Reason) → result ≡ Err (Stop.Refused r) → out.new ≡ out.old }
    {
        match self.place_of(k) {
            Some(place) => render(alloc, &self.places[place], out),
            None => Err(Stop::Refused(Refusal::View)),
        }
    }

    /// Closes view k: its box is dropped in this call. Refused as view where no open view
    /// has this number.
    pub fn close(&mut self, k: i64) -> Result<(), Refusal>
        ensures closed { OnOk result (sights sight self.new ≡ slice_set (sights sight self.old) (unsigned_abs k) None) }
        ensures refused { (r : Reason) → (result ≡ Err r) ↔ ((sight_at (sights sight self.old) k ≡ None) × (r ≡ Reason.View)) }
        ensures unchanged { OnErr result (self.new ≡ self.old) }
    {
        match self.place_of(k) {
            Some(place) => {
                self.places[place] = Place { view: None };
                Ok(())
            }
            None => Err(Refusal::View),
        }
    }

    /// The place of the open view with this number.
    fn place_of(&self, k: i64) -> Option<usize>
        ensures there { IfSome result (λ i. IsOpenAt self.now.places.items k i) }
        ensures none { result ≡ None → sight_at (sights sight self.now) k ≡ None }
    {
        if k < 0 || k as u64 >= self.places.len() as u64 {
            return None;
        }
        let place = k as usize;
        if self.places[place].view.is_some() {
            Some(place)
        } else {
            None
        }
    }
}

fn tell_place(place: &mut Place, changes: &[Change]) -> Result<(), NoMemory>
    requires near { AreNearChanges changes.now }
    ensures { OnOk result (option_map sight place.new.view ≡ option_map (after changes.now) (option_map sight place.old.view)) }
{
    match &mut place.view {
        Some(view) => see_all(view, changes),
        None => Ok(()),
    }
}

fn see_all(view: &mut Box<dyn View>, changes: &[Change]) -> Result<(), NoMemory>
    requires near { AreNearChanges changes.now }
    ensures { OnOk result (sight view.new ≡ after changes.now (sight view.old)) }
{
    view.see(changes)
}

/// Appends the picture of the view at this place.
fn render(alloc: Global, place: &Place, out: &mut Vec<u8>) -> Result<(), Stop>
    requires open { place.now.view ≢ None }
    ensures picture { OnOk result (IfSome (option_map sight place.now.view) (λ s. out.new.items ≡ out.old.items ++ picture_of s)) }
    ensures stop { IfErr result (λ stop. stop ≡ Stop.NoMemory) }
{
    match &place.view {
        Some(view) => match view.render(alloc, out) {
            Ok(()) => Ok(()),
            Err(_) => Err(Stop::NoMemory),
        },
        None => unreachable!(),
    }
}
