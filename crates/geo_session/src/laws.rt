//! Laws of what is answered: functions that compute nothing, whose contracts are the laws.

ghost use Rattle.std.specs.Prelude.{◌≡◌, ℕ, List};
ghost use Rattle.geo_sketch.specs.declared.changes.Refusal.{Refusal as Reason};
ghost use Rattle.geo_view.specs.declared.shown.ViewKind.{ViewKind};
ghost use Rattle.geo_session.specs.declared.state.Reply.TheVariants.{Refused};
ghost use Rattle.geo_session.specs.Answers.{State, start, answer_of, counted, printed_from, refused};
ghost use Rattle.geo_session.specs.Printed.{AreTrue};

use geo_bracket::verdicts_on_expressions;
use geo_degree::verdict_of_is_the_verdict;
use geo_infer::inferences_are_derivations;

/// A refused line changes nothing but the count of lines, and what is printed for it is the
/// line of its refusal.
pub fn refused_lines_change_nothing()
    ensures { (state : State) (line : List ℕ) (r : Reason) → (answer_of state line).reply ≡ Refused r → answer_of state line ≡ refused (counted state) r }
{}

/// Whatever the lines of a script and the kinds of the views are, every verdict that is
/// printed for them is true: a statement that is proved holds, one that is false fails at the
/// values beside it, and one is unsettled only where it passes the limit that is named. A
/// statement that is inferred holds. What a certificate says is true of the sketch, and of its
/// own elements alone. Of an expression a verdict is true where being 0 stands in place of
/// holding.
pub fn printed_verdicts_are_true()
    ensures { (kinds : List ViewKind) (lines : List (List ℕ)) → AreTrue (printed_from (start kinds) lines) }
{
    verdict_of_is_the_verdict();
    inferences_are_derivations();
    verdicts_on_expressions();
}
