//! Laws of what is shown.

ghost use Rattle.std.specs.Prelude.{◌≡◌, ℕ, map};
ghost use Rattle.geo_sketch.specs.Changes.{applied};
ghost use Rattle.geo_sketch.specs.Sketches.{Drawing};
ghost use Rattle.geo_sketch.specs.declared.changes.Delta.{Delta as Change};
ghost use Rattle.geo_eval.specs.Shown.{here_of, shown_of, turned};

/// Exchanging all kinds moves nothing: each element is where it was, by the same triple, and what
/// is shown is the same but for the kinds.
pub fn dual_keeps_places()
    ensures places { (drawing : Drawing) (n : ℕ) → here_of (applied drawing Change.Dual) n ≡ here_of drawing n }
    ensures shown { (drawing : Drawing) → shown_of (applied drawing Change.Dual) ≡ map turned (shown_of drawing) }
{}
