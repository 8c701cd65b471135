//! Laws of what is listed.

ghost use Rattle.std.specs.Prelude.{◌≡◌, ◌↔◌, Contains, List, false, map, true};
ghost use Rattle.geo_sketch.specs.Changes.{applied, exchanged, taken_back, LeadsFrom, LeadsTo};
ghost use Rattle.geo_sketch.specs.PlainStatements.{is_plain};
ghost use Rattle.geo_sketch.specs.Sketches.{Drawing, IsDrawn, IsPosed};
ghost use Rattle.geo_sketch.specs.Statements.{Holds};
ghost use Rattle.geo_sketch.specs.declared.changes.Delta.{Delta as Change};
ghost use Rattle.geo_sketch.specs.declared.elements.Element.{Element as Entry};
ghost use Rattle.geo_sketch.specs.declared.elements.Setting.{Setting as Values};
ghost use Rattle.geo_sketch.specs.declared.statements.Statement.{Statement as Claim};
ghost use Rattle.geo_guess.specs.Conjectures.{conjectures_of, is_proper, IsWithout};
ghost use Rattle.geo_guess.specs.Guesses.{IsGuessesOf, Noticed};
ghost use Rattle.geo_guess.specs.Noticing.{AreInOrder, IsConjecture};

/// A proper statement that holds everywhere is a conjecture unless it is plain.
pub fn what_holds_is_listed()
    ensures { (drawing : Drawing) (s : Claim) → IsDrawn drawing → IsPosed drawing.elements s → Holds drawing.elements s → is_proper drawing.elements s ≡ true → is_plain drawing.elements s ≡ false → Contains (conjectures_of drawing.elements) s }
{}

/// Each conjecture is about live elements of fitting kinds, with strictly rising numbers.
pub fn what_is_listed_is_posed()
    ensures { (es : List Entry) (s : Claim) → Contains (conjectures_of es) s → IsPosed es s }
{}

/// A statement is listed exactly where it is a conjecture, and the list has each once: by the
/// greatest number that it names, then Null, Same, On, Triple, then by its numbers.
pub fn what_is_listed()
    ensures exactly { (drawing : Drawing) (s : Claim) → IsDrawn drawing → Contains (conjectures_of drawing.elements) s ↔ IsConjecture drawing.elements s }
    ensures in_order { (drawing : Drawing) → IsDrawn drawing → AreInOrder (conjectures_of drawing.elements) }
{}

/// Exchanging all kinds keeps the conjectures, and so what is kept of them.
pub fn dual_keeps_conjectures()
    ensures conjectures { (es : List Entry) → conjectures_of (map exchanged es) ≡ conjectures_of es }
    ensures kept { (drawing : Drawing) (noticed : Noticed) → IsGuessesOf noticed drawing → IsGuessesOf noticed (applied drawing Change.Dual) }
{}

/// An addition brings one element and a drop takes one away, and so, the other way round, where
/// they are taken back: the premises of `added` and `dropped`.
pub fn changes_by_one_element()
    ensures added { (drawing : Drawing) (e : Entry) (s : Values) → IsDrawn drawing → LeadsFrom drawing (Change.Added e s) → IsWithout (applied drawing (Change.Added e s)) drawing e.number }
    ensures dropped { (drawing : Drawing) (e : Entry) (s : Values) → IsDrawn drawing → LeadsFrom drawing (Change.Dropped e s) → IsWithout drawing (applied drawing (Change.Dropped e s)) e.number }
    ensures taken_away { (drawing : Drawing) (e : Entry) (s : Values) → LeadsTo drawing (Change.Added e s) → IsWithout drawing (taken_back drawing (Change.Added e s)) e.number }
    ensures returned { (drawing : Drawing) (e : Entry) (s : Values) → LeadsTo drawing (Change.Dropped e s) → IsWithout (taken_back drawing (Change.Dropped e s)) drawing e.number }
{}
