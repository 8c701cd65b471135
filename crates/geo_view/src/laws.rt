//! Laws of the definitions: functions that do nothing, whose contracts are the laws.

ghost use Rattle.std.specs.Prelude.{◌≡◌, Bool};
ghost use Rattle.geo_eval.specs.Scenes.{Leads, before_of};
ghost use Rattle.geo_sketch.specs.declared.changes.Delta.{Delta as Change};
ghost use Rattle.geo_sketch.specs.Sketches.{Drawing, IsDrawn};
ghost use Rattle.geo_view.specs.Entries.{AreNear, AreNearChanges, seen};
ghost use Rattle.geo_eval.specs.Shown.{shown_of};
ghost use Rattle.geo_view.specs.Following.{changes_of};

use geo_triple::primitive_or_zero;

/// A view that shows a sketch and is told what is handed on of a change shows the sketch
/// after it; and the coordinates of what it is told, and of what is shown, lie from -2^41 to
/// 2^41.
pub fn views_follow()
    ensures follow { (drawing : Drawing) (d : Change) (forward : Bool) → IsDrawn drawing → Leads drawing d forward → seen (changes_of drawing d forward) (shown_of (before_of drawing d forward)) ≡ shown_of drawing }
    ensures near { (drawing : Drawing) (d : Change) (forward : Bool) → IsDrawn drawing → AreNear (shown_of drawing) × AreNearChanges (changes_of drawing d forward) }
{
    primitive_or_zero();
}
