//! Laws of the lists of elements that make a sketch, of the statements that are posed in
//! it, and of the part that a statement needs.

ghost use Rattle.std.specs.Prelude.{◌≡◌, ◌↔◌, ℕ, ℤ, true, Some, List};
ghost use Rattle.geo_sketch.specs.Heights.{heights_at, statement_height};
ghost use Rattle.geo_sketch.specs.Needs.{needed_list, needs, renamed_part};
ghost use Rattle.geo_sketch.specs.PlainHeights.{plain_height_of};
ghost use Rattle.geo_sketch.specs.Posing.{is_posed};
ghost use Rattle.geo_sketch.specs.Rebuilding.{at_zero, is_sound, rebuilt, AreSound};
ghost use Rattle.geo_sketch.specs.Sketches.{Drawing, IsDrawn, IsPosed};
ghost use Rattle.geo_sketch.specs.Statements.{parts_at, Holds};
ghost use Rattle.geo_sketch.specs.Triples.{triple_at};
ghost use Rattle.geo_sketch.specs.declared.elements.Def.{Def as Definition};
ghost use Rattle.geo_sketch.specs.declared.elements.Element.{Element as Entry};
ghost use Rattle.geo_sketch.specs.declared.elements.Kind.{Kind as Sort};
ghost use Rattle.geo_sketch.specs.declared.statements.Statement.{Statement as Claim};

/// Elements make a sketch exactly where each can follow those before it; this is
/// computed, one element after another.
pub fn soundness_is_computed()
    ensures { (es : List Entry) → (is_sound es ≡ true) ↔ AreSound es }
{}

/// Whether a statement is posed is computed too: its numbers rise strictly, and its
/// elements are live and of fitting kinds.
pub fn posing_is_computed()
    ensures { (es : List Entry) (s : Claim) → (is_posed es s ≡ true) ↔ IsPosed es s }
{}

/// The elements of a sketch make one, and what is rebuilt is a sketch.
pub fn sketches_are_sound()
    ensures sound { (drawing : Drawing) → IsDrawn drawing → AreSound drawing.elements }
    ensures rebuilt { (list : List (ℕ × Sort × Definition)) (drawing : Drawing) → rebuilt list ≡ Some drawing → IsDrawn drawing }
{}

/// The elements that a statement needs, each under the name that its number gives it,
/// make a sketch by themselves. In it they have the same triples and heights as in the
/// whole sketch, and the statement has the same parts and the same height: it is posed
/// exactly where it was, and it holds exactly where it did.
pub fn needed_part_by_itself()
    ensures rebuilt { (drawing : Drawing) (s : Claim) → IsDrawn drawing → rebuilt (needed_list drawing.elements s) ≡ Some (at_zero (renamed_part drawing.elements s)) }
    ensures sound { (drawing : Drawing) (s : Claim) → IsDrawn drawing → AreSound (renamed_part drawing.elements s) }
    ensures posed { (drawing : Drawing) (s : Claim) → IsDrawn drawing → IsPosed (renamed_part drawing.elements s) s ↔ IsPosed drawing.elements s }
    ensures triples { (drawing : Drawing) (s : Claim) (v : ℕ → ℤ) (n : ℕ) → IsDrawn drawing → needs drawing.elements s n ≡ true → triple_at (renamed_part drawing.elements s) n v ≡ triple_at drawing.elements n v }
    ensures heights { (drawing : Drawing) (s : Claim) (m : ℕ → ℕ) (n : ℕ) → IsDrawn drawing → needs drawing.elements s n ≡ true → heights_at (renamed_part drawing.elements s) n m ≡ heights_at drawing.elements n m }
    ensures plain_heights { (drawing : Drawing) (s : Claim) (m : ℕ → ℕ) (n : ℕ) → IsDrawn drawing → needs drawing.elements s n ≡ true → plain_height_of (renamed_part drawing.elements s) n m ≡ plain_height_of drawing.elements n m }
    ensures statement_height { (drawing : Drawing) (s : Claim) (m : ℕ → ℕ) → IsDrawn drawing → statement_height (renamed_part drawing.elements s) s m ≡ statement_height drawing.elements s m }
    ensures parts { (drawing : Drawing) (s : Claim) (v : ℕ → ℤ) → IsDrawn drawing → parts_at (renamed_part drawing.elements s) s v ≡ parts_at drawing.elements s v }
    ensures holds { (drawing : Drawing) (s : Claim) → IsDrawn drawing → Holds (renamed_part drawing.elements s) s ↔ Holds drawing.elements s }
{}
