//! Laws of going back and forth along a history.

ghost use Rattle.std.specs.Prelude.{◌≡◌};
ghost use Rattle.geo_sketch.specs.Changes.{made_of};
ghost use Rattle.geo_sketch.specs.declared.changes.Delta.{Delta as Change};
ghost use Rattle.geo_undo.specs.Timelines.{Redoes, Timeline, Undoes};

/// Undo and then redo leave the history, and so the sketch, as they were, and move
/// the same change.
pub fn undone_and_redone()
    ensures history { (before between after : Timeline) (d e : Change) → Undoes before between d → Redoes between after e → after ≡ before }
    ensures change { (before between after : Timeline) (d e : Change) → Undoes before between d → Redoes between after e → e ≡ d }
    ensures sketch { (before between after : Timeline) (d e : Change) → Undoes before between d → Redoes between after e → made_of after.done ≡ made_of before.done }
{}

/// Redo and then undo leave the history, and so the sketch, as they were, and move
/// the same change.
pub fn redone_and_undone()
    ensures history { (before between after : Timeline) (d e : Change) → Redoes before between d → Undoes between after e → after ≡ before }
    ensures change { (before between after : Timeline) (d e : Change) → Redoes before between d → Undoes between after e → e ≡ d }
    ensures sketch { (before between after : Timeline) (d e : Change) → Redoes before between d → Undoes between after e → made_of after.done ≡ made_of before.done }
{}
