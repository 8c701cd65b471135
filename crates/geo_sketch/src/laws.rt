//! Laws of what is computed along a construction, and of changes.

ghost use Rattle.std.specs.Prelude.{◌≡◌, ◌≢◌, ◌↔◌, ℕ, ℤ, false, List};
ghost use Rattle.geo_sketch.specs.Changes.{applied, made_of, taken_back, AllLead, LeadsFrom, LeadsTo};
ghost use Rattle.geo_sketch.specs.Constructions.{IsConstruction, IsStepwise};
ghost use Rattle.geo_sketch.specs.Dependence.{depends_algebra, AgreeFor};
ghost use Rattle.geo_sketch.specs.Drops.{speaks_of};
ghost use Rattle.geo_sketch.specs.PlainStatements.{is_plain, IsPlain};
ghost use Rattle.geo_sketch.specs.PlainHeights.{plain_height_algebra, plain_height_of};
ghost use Rattle.geo_sketch.specs.Triples.{triple_algebra, triple_at};
ghost use Rattle.geo_sketch.specs.Statements.{parts_at, Holds};
ghost use Rattle.geo_sketch.specs.Heights.{heights_algebra, heights_at};
ghost use Rattle.geo_sketch.specs.Sketches.{blank, Drawing, IsDrawn, IsPosed};
ghost use Rattle.geo_sketch.specs.declared.changes.Delta.{Delta as Change};
ghost use Rattle.geo_sketch.specs.declared.elements.Element.{Element as Entry};
ghost use Rattle.geo_sketch.specs.declared.elements.Setting.{Setting as Values};
ghost use Rattle.geo_sketch.specs.declared.statements.Statement.{Statement as Claim};

/// The triple, the heights and the plain height of each element are what its
/// definition makes of those of the elements that it names, and an element depends on
/// another one where it is that one or names an element that depends on it.
pub fn each_by_its_definition()
    ensures triples { (drawing : Drawing) (v : ℕ → ℤ) → IsDrawn drawing → IsStepwise (triple_algebra v) drawing.elements }
    ensures heights { (drawing : Drawing) (m : ℕ → ℕ) → IsDrawn drawing → IsStepwise (heights_algebra m) drawing.elements }
    ensures plain_heights { (drawing : Drawing) (m : ℕ → ℕ) → IsDrawn drawing → IsStepwise (plain_height_algebra m) drawing.elements }
    ensures dependence { (drawing : Drawing) (on : ℕ) → IsDrawn drawing → IsStepwise (depends_algebra on) drawing.elements }
{}

/// Two constructions that agree on the definitions of all that an element depends on,
/// at assignments that agree on the parameters of these, give it the same triple, the
/// same heights and the same plain height. The elements of a sketch are a construction.
pub fn fixed_by_what_it_depends_on()
    ensures triples { (es fs : List Entry) (v w : ℕ → ℤ) (n : ℕ) → IsConstruction es → IsConstruction fs → AgreeFor es fs v w n → triple_at es n v ≡ triple_at fs n w }
    ensures heights { (es fs : List Entry) (v w : ℕ → ℕ) (n : ℕ) → IsConstruction es → IsConstruction fs → AgreeFor es fs v w n → heights_at es n v ≡ heights_at fs n w }
    ensures plain_heights { (es fs : List Entry) (v w : ℕ → ℕ) (n : ℕ) → IsConstruction es → IsConstruction fs → AgreeFor es fs v w n → plain_height_of es n v ≡ plain_height_of fs n w }
    ensures sketches { (drawing : Drawing) → IsDrawn drawing → IsConstruction drawing.elements }
{}

/// Doing a change and taking it back are each other's inverse.
pub fn taken_back_and_done_again()
    ensures taken_back { (drawing : Drawing) (d : Change) → IsDrawn drawing → LeadsFrom drawing d → taken_back (applied drawing d) d ≡ drawing }
    ensures leads_to { (drawing : Drawing) (d : Change) → IsDrawn drawing → LeadsFrom drawing d → LeadsTo (applied drawing d) d }
    ensures done_again { (drawing : Drawing) (d : Change) → LeadsTo drawing d → applied (taken_back drawing d) d ≡ drawing }
    ensures leads_from { (drawing : Drawing) (d : Change) → LeadsTo drawing d → LeadsFrom (taken_back drawing d) d }
    ensures drawn { (drawing : Drawing) (d : Change) → LeadsTo drawing d → IsDrawn (taken_back drawing d) }
{}

/// What a list of changes makes of the empty sketch is well-formed, where each change
/// leads from what those before it make.
pub fn made_by_changes()
    ensures { (ds : List Change) → AllLead blank ds → IsDrawn (made_of ds) }
{}

/// Exchanging all kinds twice gives the sketch back, and it keeps all triples, heights,
/// plain heights and parts of statements. The same statements are posed, and the same
/// are plain.
pub fn dual_twice()
    ensures twice { (drawing : Drawing) → applied (applied drawing Change.Dual) Change.Dual ≡ drawing }
    ensures triples { (drawing : Drawing) (v : ℕ → ℤ) (n : ℕ) → triple_at (applied drawing Change.Dual).elements n v ≡ triple_at drawing.elements n v }
    ensures heights { (drawing : Drawing) (m : ℕ → ℕ) (n : ℕ) → heights_at (applied drawing Change.Dual).elements n m ≡ heights_at drawing.elements n m }
    ensures plain_heights { (drawing : Drawing) (m : ℕ → ℕ) (n : ℕ) → plain_height_of (applied drawing Change.Dual).elements n m ≡ plain_height_of drawing.elements n m }
    ensures parts { (drawing : Drawing) (v : ℕ → ℤ) (c : Claim) → parts_at (applied drawing Change.Dual).elements c v ≡ parts_at drawing.elements c v }
    ensures posed { (drawing : Drawing) (c : Claim) → IsPosed (applied drawing Change.Dual).elements c ↔ IsPosed drawing.elements c }
    ensures plain { (drawing : Drawing) (c : Claim) → is_plain (applied drawing Change.Dual).elements c ≡ is_plain drawing.elements c }
{}

/// An element that leaves or comes back, and one that is added or taken away, leave the
/// triples, heights and plain heights of all others as they are. Of the statements that
/// do not name it the same are posed, and the same are plain.
pub fn others_stay()
    ensures dropped { (drawing : Drawing) (e : Entry) (s : Values) (v : ℕ → ℤ) (n : ℕ) → IsDrawn drawing → LeadsFrom drawing (Change.Dropped e s) → n ≢ e.number → triple_at (applied drawing (Change.Dropped e s)).elements n v ≡ triple_at drawing.elements n v }
    ensures dropped_heights { (drawing : Drawing) (e : Entry) (s : Values) (m : ℕ → ℕ) (n : ℕ) → IsDrawn drawing → LeadsFrom drawing (Change.Dropped e s) → n ≢ e.number → heights_at (applied drawing (Change.Dropped e s)).elements n m ≡ heights_at drawing.elements n m }
    ensures dropped_plain_height { (drawing : Drawing) (e : Entry) (s : Values) (m : ℕ → ℕ) (n : ℕ) → IsDrawn drawing → LeadsFrom drawing (Change.Dropped e s) → n ≢ e.number → plain_height_of (applied drawing (Change.Dropped e s)).elements n m ≡ plain_height_of drawing.elements n m }
    ensures dropped_posed { (drawing : Drawing) (e : Entry) (s : Values) (c : Claim) → speaks_of c e.number ≡ false → IsPosed (applied drawing (Change.Dropped e s)).elements c ↔ IsPosed drawing.elements c }
    ensures dropped_plain { (drawing : Drawing) (e : Entry) (s : Values) (c : Claim) → speaks_of c e.number ≡ false → is_plain (applied drawing (Change.Dropped e s)).elements c ≡ is_plain drawing.elements c }
    ensures returned_posed { (drawing : Drawing) (e : Entry) (s : Values) (c : Claim) → speaks_of c e.number ≡ false → IsPosed (taken_back drawing (Change.Dropped e s)).elements c ↔ IsPosed drawing.elements c }
    ensures returned_plain { (drawing : Drawing) (e : Entry) (s : Values) (c : Claim) → speaks_of c e.number ≡ false → is_plain (taken_back drawing (Change.Dropped e s)).elements c ≡ is_plain drawing.elements c }
    ensures added { (drawing : Drawing) (e : Entry) (s : Values) (v : ℕ → ℤ) (n : ℕ) → n ≢ e.number → triple_at (applied drawing (Change.Added e s)).elements n v ≡ triple_at drawing.elements n v }
    ensures added_heights { (drawing : Drawing) (e : Entry) (s : Values) (m : ℕ → ℕ) (n : ℕ) → n ≢ e.number → heights_at (applied drawing (Change.Added e s)).elements n m ≡ heights_at drawing.elements n m }
    ensures added_plain_height { (drawing : Drawing) (e : Entry) (s : Values) (m : ℕ → ℕ) (n : ℕ) → n ≢ e.number → plain_height_of (applied drawing (Change.Added e s)).elements n m ≡ plain_height_of drawing.elements n m }
    ensures added_posed { (drawing : Drawing) (e : Entry) (s : Values) (c : Claim) → speaks_of c e.number ≡ false → IsPosed (applied drawing (Change.Added e s)).elements c ↔ IsPosed drawing.elements c }
    ensures added_plain { (drawing : Drawing) (e : Entry) (s : Values) (c : Claim) → speaks_of c e.number ≡ false → is_plain (applied drawing (Change.Added e s)).elements c ≡ is_plain drawing.elements c }
{}

/// A statement that is plain holds.
pub fn plain_statements_hold()
    ensures { (drawing : Drawing) (s : Claim) → IsDrawn drawing → IsPlain drawing.elements s → Holds drawing.elements s }
{}
