//! Laws of what a ledger lists, and of verdicts that are kept: functions that do nothing, whose
//! contracts are the laws.

ghost use Rattle.std.specs.Prelude.{◌≡◌, true, false, Contains, List};
ghost use Rattle.geo_sketch.specs.declared.changes.Delta.{Delta as Change};
ghost use Rattle.geo_sketch.specs.declared.statements.Statement.{Statement as Posed};
ghost use Rattle.geo_sketch.specs.declared.verdicts.Verdict.{Verdict as Found};
ghost use Rattle.geo_sketch.specs.Changes.{applied, taken_back, LeadsFrom, LeadsTo};
ghost use Rattle.geo_sketch.specs.PlainStatements.{is_plain, IsPlain};
ghost use Rattle.geo_sketch.specs.Sketches.{Drawing, IsDrawn, IsPosed};
ghost use Rattle.geo_sketch.specs.Statements.{Holds};
ghost use Rattle.geo_degree.specs.VerdictFunction.{verdict_of};
ghost use Rattle.geo_degree.specs.Verdicts.{question_of, IsStatementVerdict};
ghost use Rattle.geo_guess.specs.Conjectures.{is_proper};
ghost use Rattle.geo_ledger.specs.Ledgers.{entry_in, ledger_of, AreKept};
ghost use Rattle.geo_ledger.specs.Changes.{kept_without, leaving, AgreeForStatement};

use geo_guess::{dual_keeps_conjectures, what_holds_is_listed};
use geo_sketch::{dual_twice, plain_statements_hold};

/// A proper statement that holds everywhere is in the ledger, with its verdict, unless it is
/// plain; and every plain statement holds.
pub fn what_holds_is_in_the_ledger()
    ensures listed { (drawing : Drawing) (s : Posed) → IsDrawn drawing → IsPosed drawing.elements s → Holds drawing.elements s → is_proper drawing.elements s ≡ true → is_plain drawing.elements s ≡ false → Contains (ledger_of drawing) (entry_in drawing (s, true)) }
    ensures plain { (drawing : Drawing) (s : Posed) → IsDrawn drawing → IsPlain drawing.elements s → Holds drawing.elements s }
{
    what_holds_is_listed();
    plain_statements_hold();
}

/// Exchanging all kinds keeps the ledger, its statements and their verdicts; only the words for
/// them change. Exchanging them twice gives the sketch back.
pub fn dual_keeps_the_ledger()
    ensures ledger { (drawing : Drawing) → IsDrawn drawing → ledger_of (applied drawing Change.Dual) ≡ ledger_of drawing }
    ensures twice { (drawing : Drawing) → applied (applied drawing Change.Dual) Change.Dual ≡ drawing }
{
    dual_keeps_conjectures();
    dual_twice();
}

/// A statement has the same verdict in two sketches that agree on the definitions of
/// all elements on which it depends.
pub fn verdicts_by_definitions()
    ensures verdict { (drawing other : Drawing) (s : Posed) (r : Found) → IsDrawn drawing → IsDrawn other → IsPosed drawing.elements s → AgreeForStatement drawing.elements other.elements s → IsStatementVerdict drawing.elements s r → IsStatementVerdict other.elements s r }
    ensures same { (drawing other : Drawing) (s : Posed) → IsDrawn drawing → IsDrawn other → AgreeForStatement drawing.elements other.elements s → verdict_of (question_of drawing.elements s) ≡ verdict_of (question_of other.elements s) }
{}

/// Kept verdicts stay right where the sketch changes, once those that name an element
/// that leaves are let go.
pub fn kept_through_changes()
    ensures done { (drawing : Drawing) (d : Change) (kept : List (Posed × Found)) → IsDrawn drawing → LeadsFrom drawing d → AreKept drawing kept → AreKept (applied drawing d) (kept_without (leaving d true) kept) }
    ensures taken_back { (drawing : Drawing) (d : Change) (kept : List (Posed × Found)) → IsDrawn drawing → LeadsTo drawing d → AreKept drawing kept → AreKept (taken_back drawing d) (kept_without (leaving d false) kept) }
{}
