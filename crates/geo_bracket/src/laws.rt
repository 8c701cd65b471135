//! Laws of expressions: functions that do nothing, whose contracts are the laws.

ghost use Rattle.std.specs.Prelude.{◌≡◌, ◌<◌, ◌↔◌, ℕ, ℤ, pos, List};
ghost use Rattle.geo_sketch.specs.declared.verdicts.Verdict.{Verdict as Found};
ghost use Rattle.geo_sketch.specs.declared.verdicts.Verdict.TheVariants.{False, Proved};
ghost use Rattle.geo_sketch.specs.Assignments.{assignment_of};
ghost use Rattle.geo_sketch.specs.Sketches.{Drawing, IsDrawn};
ghost use Rattle.geo_degree.specs.Grids.{values_on};
ghost use Rattle.geo_degree.specs.Questions.{IsForm, IsZeroEverywhere};
ghost use Rattle.geo_degree.specs.VerdictFunction.{verdict_of};
ghost use Rattle.geo_bracket.specs.Expressions.{IsPosedExpression, IsZeroExpression, Terms, expression_value};
ghost use Rattle.geo_bracket.specs.Questions.{expression_axes, expression_question, value_over};
ghost use Rattle.geo_bracket.specs.Verdicts.{IsExpressionVerdict};

use geo_degree::verdict_of_is_the_verdict;

/// An expression asks what a grid can answer: its value is a polynomial in its axes and in the
/// two of each Pair, with the degrees of these, and its height bounds it.
pub fn expressions_are_forms()
    ensures { (drawing : Drawing) (ts : Terms) → IsDrawn drawing → IsPosedExpression drawing.elements ts → IsForm (expression_question drawing.elements ts) }
{}

/// The value of an expression is what it is at the values of its axes, with 0 for all other
/// parameters; and it is 0 at every assignment where it is 0 at all values of its axes, and
/// only there.
pub fn zero_by_the_axes_alone()
    ensures value { (drawing : Drawing) (ts : Terms) (v : ℕ → ℤ) → IsDrawn drawing → expression_value drawing.elements ts v ≡ value_over drawing.elements ts (expression_axes drawing.elements ts) (values_on (expression_axes drawing.elements ts) v) }
    ensures zero { (drawing : Drawing) (ts : Terms) → IsDrawn drawing → IsZeroExpression drawing.elements ts ↔ IsZeroEverywhere (expression_question drawing.elements ts) }
{}

/// The verdict as a function is the verdict on an expression, and no other is.
pub fn verdicts_on_expressions()
    ensures verdict { (drawing : Drawing) (ts : Terms) → IsDrawn drawing → IsPosedExpression drawing.elements ts → IsExpressionVerdict drawing.elements ts (verdict_of (expression_question drawing.elements ts)) }
    ensures no_other { (drawing : Drawing) (ts : Terms) (r : Found) → IsDrawn drawing → IsPosedExpression drawing.elements ts → IsExpressionVerdict drawing.elements ts r → r ≡ verdict_of (expression_question drawing.elements ts) }
{
    verdict_of_is_the_verdict();
}

/// Where the verdict is `Proved`, the expression is 0 at every assignment, and where it is
/// `False`, it is not 0 at the values that are told, with 0 for all other parameters.
pub fn verdicts_are_true()
    ensures proved { (drawing : Drawing) (ts : Terms) → IsExpressionVerdict drawing.elements ts Proved → IsZeroExpression drawing.elements ts }
    ensures falsified { (drawing : Drawing) (ts : Terms) (values : List (ℕ × ℤ)) → IsExpressionVerdict drawing.elements ts (False values) → ¬ (expression_value drawing.elements ts (assignment_of values) ≡ pos 0) }
{}
