//! A place on the grid of a form, and the form's parts there.

ghost use Rattle.std.specs.Prelude.{◌≡◌, ◌<◌, ◌≤◌, ◌+◌, ◌↔◌, IfOk, true, false};
ghost use Rattle.geo_degree.specs.Grids.{grid_size};
ghost use Rattle.geo_degree.specs.Questions.{IsWithinLimits, IsZeroAt, grid_of, point};
ghost use Rattle.geo_grid.specs.Values.{first_change};

use super::form::{Form, Scratch};
use super::grid::Grid;
use super::place::Place;
use geo_sketch::NoMemory;
use geo_triple::Steps;
use std::alloc::Global;
use std::marker::Model;
use std::sync::ledger::Ledger;

/// A cursor over the grid of a form. Contracts see the form, the index of the point at which
/// it stands, and whether it was sent to one.
#[derive(Drop)]
pub struct Cursor<'a, F: Form> {
    form: &'a F,
    place: Place<'a>,
    started: bool,
    /// The work of the form: it stands for the values here, and is fresh before the start.
    work: Scratch,
}

impl<'a, F: Form> Model for Cursor<'a, F> {
    ghost use Rattle.std.specs.Prelude.{◌≡◌, ◌<◌, ℕ, Bool, true, false};
    ghost use Rattle.geo_degree.specs.Blocks.{points_of_all};
    ghost use Rattle.geo_degree.specs.Grids.{grid_size};
    ghost use Rattle.geo_degree.specs.Questions.{IsWithinLimits, point};

    ghost Value = { F × ℕ × Bool };

    ghost view = { λ c. (c.form.now, c.place.1, c.started) };

    ghost invariant = { λ c.
        (c.place.0 ≡ (F.question c.form.now).blocks) ×
        IsWithinLimits (F.question c.form.now) ×
        (c.place.1 < grid_size (points_of_all c.place.0)) ×
        (c.started ≡ true → F.stands_for c.form.now c.work (point (F.question c.form.now) c.place.1)) ×
        (c.started ≡ false → F.is_fresh c.form.now c.work) };
}

impl<'a, F: Form> Cursor<'a, F> {
    /// A cursor over the grid of the form, at no point yet.
    pub fn new(alloc: Global, form: &'a F, grid: &'a Grid) -> Result<Cursor<'a, F>, NoMemory>
        requires grid { grid.now ≡ (F.question form.now).blocks }
        requires within { IsWithinLimits (F.question form.now) }
        ensures { IfOk result (λ cursor. cursor ≡ (form.now, 0, false)) }
    {
        let place = Place::first(alloc, grid)?;
        let work = form.scratch(alloc)?;
        Ok(Cursor {
            form,
            place,
            started: false,
            work,
        })
    }

    /// Goes to the point with this index. It takes no memory.
    pub fn seek<L: Ledger>(&mut self, index: u64, steps: &mut Steps<L>)
        requires { index < grid_size (grid_of (F.question self.old.0)) }
        ensures { self.new ≡ (self.old.0, index, true) }
    {
        self.place.move_to(index);
        self.form
            .refresh(self.place.values(), 0, &mut self.work, steps);
        self.started = true;
    }

    /// Goes one point further, or stays at the last one. It takes no memory. It ticks at most
    /// once for each element that depends on the first axis whose value changes or a later one.
    pub fn next<L: Ledger>(&mut self, steps: &mut Steps<L>) -> bool
        requires { self.old.2 ≡ true }
        ensures last { (result ≡ false) ↔ (self.old.1 + 1 ≡ grid_size (grid_of (F.question self.old.0))) }
        ensures stays { result ≡ false → (self.new ≡ self.old) × (steps.new ≡ steps.old) }
        ensures moves { result ≡ true → self.new ≡ (self.old.0, self.old.1 + 1, true) }
        ensures ticks { result ≡ true → steps.new ≤ steps.old + F.moved_count self.old.0 (first_change (point (F.question self.old.0) self.old.1) (point (F.question self.old.0) (self.old.1 + 1))) }
    {
        match self.place.advance() {
            Some(first) => {
                self.form
                    .refresh(self.place.values(), first, &mut self.work, steps);
                true
            }
            None => false,
        }
    }

    /// Whether a part of the form is not 0 at the point at which it stands.
    pub fn failing(&self) -> bool
        requires { self.now.2 ≡ true }
        ensures { (result ≡ false) ↔ IsZeroAt (F.question self.now.0) (point (F.question self.now.0) self.now.1) }
    {
        self.form.failing(&self.work)
    }
}
