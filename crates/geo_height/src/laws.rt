//! Laws of heights: functions that do nothing, whose contracts are the laws.

ghost use Rattle.std.specs.Prelude.{◌≡◌, ℕ, ◌≤◌, ℤ, true, Some};
ghost use Rattle.geo_triple.specs.Sums.{FitIn, largest_of, of_sizes, sizes_of};
ghost use Rattle.geo_sketch.specs.declared.elements.Element.{Element as Entry};
ghost use Rattle.geo_sketch.specs.declared.statements.Statement.{Statement as Posed};
ghost use Rattle.geo_sketch.specs.Dependence.{depends_on};
ghost use Rattle.geo_sketch.specs.Heights.{height_of, heights_at, statement_height};
ghost use Rattle.geo_sketch.specs.Lookups.{numbered, IsLive};
ghost use Rattle.geo_sketch.specs.Needs.{needs, AtStated};
ghost use Rattle.geo_sketch.specs.PlainHeights.{plain_height_of, threes};
ghost use Rattle.geo_sketch.specs.Sketches.{Drawing, IsDrawn};
ghost use Rattle.geo_sketch.specs.Statements.{parts_at};
ghost use Rattle.geo_triple.specs.Zero.{coordinates};
ghost use Rattle.geo_sketch.specs.Triples.{triple_at};
ghost use Rattle.geo_height.specs.Bounds.{statement_sum, sums_by, AreAtMost, IsWithin};
ghost use Rattle.geo_triple.specs.declared.limits.TheConstants.{STATEMENT_LIMIT};

/// Each coordinate of an element is in absolute value at most its own height, and so at
/// most the element's height, and each part of a statement is at most the statement's
/// height, at magnitudes that bound the values of the parameters.
pub fn heights_are_bounds()
    ensures coordinates { (drawing : Drawing) (v : ℕ → ℤ) (m : ℕ → ℕ) (n : ℕ) → IsDrawn drawing → IsWithin v m → FitIn (sizes_of (triple_at drawing.elements n v)) (heights_at drawing.elements n m) }
    ensures element { (drawing : Drawing) (v : ℕ → ℤ) (m : ℕ → ℕ) (n : ℕ) → IsDrawn drawing → IsWithin v m → AreAtMost (height_of drawing.elements n m) (coordinates (triple_at drawing.elements n v)) }
    ensures statement { (drawing : Drawing) (v : ℕ → ℤ) (m : ℕ → ℕ) (s : Posed) → IsDrawn drawing → IsWithin v m → AreAtMost (statement_height drawing.elements s m) (parts_at drawing.elements s v) }
{}

/// So is each sum of absolute values of terms by which they are computed. Where the height
/// of a statement is at most a limit, no sum on the way to its parts passes that limit,
/// whatever the limit is.
pub fn heights_bound_sums()
    ensures element { (drawing : Drawing) (v : ℕ → ℤ) (m : ℕ → ℕ) (n : ℕ) (e : Entry) → IsDrawn drawing → IsWithin v m → numbered drawing.elements n ≡ Some e → FitIn (sums_by v n e.def (λ k. triple_at drawing.elements k v)) (heights_at drawing.elements n m) }
    ensures statement { (drawing : Drawing) (v : ℕ → ℤ) (m : ℕ → ℕ) (s : Posed) → IsDrawn drawing → IsWithin v m → AtStated s (IsLive drawing.elements) → statement_sum s (λ k. triple_at drawing.elements k v) ≤ statement_height drawing.elements s m }
    ensures on_the_way { (drawing : Drawing) (v : ℕ → ℤ) (m : ℕ → ℕ) (s : Posed) (n : ℕ) (e : Entry) (limit : ℕ) → IsDrawn drawing → IsWithin v m → AtStated s (IsLive drawing.elements) → statement_height drawing.elements s m ≤ limit → needs drawing.elements s n ≡ true → numbered drawing.elements n ≡ Some e → largest_of (sums_by v n e.def (λ k. triple_at drawing.elements k v)) ≤ limit }
{}

/// No height falls where a magnitude grows.
pub fn heights_grow_with_magnitudes()
    ensures element { (drawing : Drawing) (m k : ℕ → ℕ) (n : ℕ) → IsDrawn drawing → ((p : ℕ) → m p ≤ k p) → FitIn (heights_at drawing.elements n m) (heights_at drawing.elements n k) }
    ensures statement { (drawing : Drawing) (m k : ℕ → ℕ) (s : Posed) → IsDrawn drawing → ((p : ℕ) → m p ≤ k p) → statement_height drawing.elements s m ≤ statement_height drawing.elements s k }
{}

/// The heights of an element are at least 1. Its height is at least that of each element
/// that it depends on, and the height of a statement is at least that of each element that
/// it names, and so of each that it needs. So one test of a statement's height covers all
/// values on the way to it.
pub fn heights_grow_along_the_construction()
    ensures positive { (drawing : Drawing) (m : ℕ → ℕ) (n : ℕ) → IsDrawn drawing → IsLive drawing.elements n → FitIn (of_sizes 1 1 1) (heights_at drawing.elements n m) }
    ensures element { (drawing : Drawing) (m : ℕ → ℕ) (n on : ℕ) → IsDrawn drawing → depends_on drawing.elements n on ≡ true → height_of drawing.elements on m ≤ height_of drawing.elements n m }
    ensures statement { (drawing : Drawing) (m : ℕ → ℕ) (s : Posed) → IsDrawn drawing → AtStated s (IsLive drawing.elements) → AtStated s (λ n. height_of drawing.elements n m ≤ statement_height drawing.elements s m) }
    ensures needed { (drawing : Drawing) (m : ℕ → ℕ) (s : Posed) (n : ℕ) → IsDrawn drawing → AtStated s (IsLive drawing.elements) → needs drawing.elements s n ≡ true → height_of drawing.elements n m ≤ statement_height drawing.elements s m }
{}

/// No height of an element is greater than its plain height.
pub fn heights_are_at_most_plain()
    ensures { (drawing : Drawing) (m : ℕ → ℕ) (n : ℕ) → IsDrawn drawing → height_of drawing.elements n m ≤ plain_height_of drawing.elements n m }
{}

/// Where every magnitude is 3, the height of a statement is within the limit, since no
/// element is tall.
pub fn heights_at_threes_are_low()
    ensures { (drawing : Drawing) (s : Posed) → IsDrawn drawing → statement_height drawing.elements s threes ≤ STATEMENT_LIMIT }
{}
