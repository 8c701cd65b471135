//! What a view is.

ghost use Rattle.std.specs.Prelude.{◌≡◌, ◌++◌, OnOk};
ghost use Rattle.geo_view.specs.Entries.{AreNearChanges};
ghost use Rattle.geo_view.specs.Sights.{after, picture_of};

use crate::shown::{Change, ViewKind};
use geo_sketch::NoMemory;
use std::alloc::Global;

/// A view: a list of entries by rising number, which changes are told to, and which it
/// renders in its own kind. A program that embeds this one can have kinds of its own; each
/// is dropped when it is closed.
pub trait View: Drop {
    ghost use Rattle.geo_view.specs.Sights.{Sight};

    // Its kind, and its entries.
    ghost sight: { Self → Sight };

    /// What this view shows of its entries.
    fn kind(&self) -> ViewKind
        ensures { result ≡ (sight self.now).kind };

    /// Makes the changes, in their order. Coordinates lie from -2^41 to 2^41. After NoMemory
    /// a view may only be dropped.
    fn see(&mut self, changes: &[Change]) -> Result<(), NoMemory>
        requires near { AreNearChanges changes.now }
        ensures kind { (sight self.new).kind ≡ (sight self.old).kind }
        ensures seen { OnOk result (sight self.new ≡ after changes.now (sight self.old)) };

    /// Appends the picture of its kind. After NoMemory a part of it may have been appended.
    fn render(&self, alloc: Global, out: &mut Vec<u8>) -> Result<(), NoMemory>
        ensures picture { OnOk result (out.new.items ≡ out.old.items ++ picture_of (sight self.now)) };
}
