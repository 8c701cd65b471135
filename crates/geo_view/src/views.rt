//! The views of this program.

ghost use Rattle.std.specs.Prelude.{◌≡◌, [], OnOk};

use crate::entries::Entries;
use crate::picture::write_picture;
use crate::shown::{Change, ViewKind};
use crate::view::View;
use geo_sketch::NoMemory;
use std::alloc::Global;

/// A view that shows a line of text for each entry.
#[derive(Drop)]
pub struct TableView {
    entries: Entries,
}

/// A view that shows the plane.
#[derive(Drop)]
pub struct PlaneView {
    entries: Entries,
}

/// A view that shows the plane with the kinds exchanged.
#[derive(Drop)]
pub struct DualView {
    entries: Entries,
}

impl TableView {
    /// An empty view.
    pub fn new(alloc: Global) -> TableView
        ensures { result.entries ≡ [] }
    {
        TableView {
            entries: Entries::new(alloc),
        }
    }
}

impl PlaneView {
    /// An empty view.
    pub fn new(alloc: Global) -> PlaneView
        ensures { result.entries ≡ [] }
    {
        PlaneView {
            entries: Entries::new(alloc),
        }
    }
}

impl DualView {
    /// An empty view.
    pub fn new(alloc: Global) -> DualView
        ensures { result.entries ≡ [] }
    {
        DualView {
            entries: Entries::new(alloc),
        }
    }
}

impl View for TableView {
    ghost use Rattle.geo_view.specs.declared.shown.ViewKind.TheVariants.{Table};

    ghost sight = { λ v. record { kind = Table; entries = v.entries } };

    fn kind(&self) -> ViewKind {
        ViewKind::Table
    }

    fn see(&mut self, changes: &[Change]) -> Result<(), NoMemory> {
        self.entries.see(changes)
    }

    fn render(&self, alloc: Global, out: &mut Vec<u8>) -> Result<(), NoMemory> {
        write_picture(alloc, ViewKind::Table, self.entries.list(), out)
    }
}

impl View for PlaneView {
    ghost use Rattle.geo_view.specs.declared.shown.ViewKind.TheVariants.{Plane};

    ghost sight = { λ v. record { kind = Plane; entries = v.entries } };

    fn kind(&self) -> ViewKind {
        ViewKind::Plane
    }

    fn see(&mut self, changes: &[Change]) -> Result<(), NoMemory> {
        self.entries.see(changes)
    }

    fn render(&self, alloc: Global, out: &mut Vec<u8>) -> Result<(), NoMemory> {
        write_picture(alloc, ViewKind::Plane, self.entries.list(), out)
    }
}

impl View for DualView {
    ghost use Rattle.geo_view.specs.declared.shown.ViewKind.TheVariants.{DualPlane};

    ghost sight = { λ v. record { kind = DualPlane; entries = v.entries } };

    fn kind(&self) -> ViewKind {
        ViewKind::DualPlane
    }

    fn see(&mut self, changes: &[Change]) -> Result<(), NoMemory> {
        self.entries.see(changes)
    }

    fn render(&self, alloc: Global, out: &mut Vec<u8>) -> Result<(), NoMemory> {
        write_picture(alloc, ViewKind::DualPlane, self.entries.list(), out)
    }
}
