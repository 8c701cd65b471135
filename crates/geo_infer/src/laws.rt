//! Laws of derivation steps: functions that do nothing, whose contracts are the laws.

ghost use Rattle.std.specs.Prelude.{◌≡◌, ◌↔◌, ℕ, ℤ, List, Ok, true};
ghost use Rattle.geo_sketch.specs.declared.elements.Element.{Element as Entry};
ghost use Rattle.geo_sketch.specs.declared.statements.Statement.{Statement as Posed};
ghost use Rattle.geo_sketch.specs.Sketches.{Drawing, IsDrawn, IsPosed};
ghost use Rattle.geo_sketch.specs.Statements.{Holds, parts_at};
ghost use Rattle.geo_triple.specs.Zero.{AreZero};
ghost use Rattle.geo_infer.specs.declared.rules.Rule.{Rule as Given};
ghost use Rattle.geo_infer.specs.declared.rules.SaidStep.{SaidStep as Step};
ghost use Rattle.geo_infer.specs.declared.shapes.Shape.{Shape as Asked};
ghost use Rattle.geo_infer.specs.Derivations.{Derives, IsDerived, IsNotNullSomewhere, inference_of, is_not_null_somewhere};
ghost use Rattle.geo_infer.specs.Products.{AreAllZero, AreZeroProducts};
ghost use Rattle.geo_infer.specs.Shapes.{shape_by, shape_of};
ghost use Rattle.geo_infer.specs.Words.{step_of};

use geo_degree::{
    holds_at_every_assignment, parts_are_polynomials_along_curves, verdict_of_is_the_verdict,
};
use geo_law::no_product_is_zero;
use geo_sketch::plain_statements_hold;

/// Where all parts of the premises are 0, each part of the side condition times each part of
/// the conclusion is 0, for each rule and any elements.
pub fn rules_are_identities()
    ensures { (elements : List Entry) (v : ℕ → ℤ) (rule : Given) (a b c d : ℕ) → AreAllZero elements (shape_by rule a b c d).premises v → AreZeroProducts (parts_at elements (shape_by rule a b c d).side v) (parts_at elements (shape_by rule a b c d).conclusion v) }
{}

/// Where the products of the parts of two statements are 0 at every assignment, and the first
/// is not null at one, the second is null at every assignment. The proof goes along the
/// straight line between two assignments, on which parts are polynomials.
pub fn one_of_two_holds()
    ensures { (drawing : Drawing) (s t : Posed) (a b : ℕ → ℤ) → IsDrawn drawing → ((v : ℕ → ℤ) → AreZeroProducts (parts_at drawing.elements s v) (parts_at drawing.elements t v)) → (¬ AreZero (parts_at drawing.elements s a)) → AreZero (parts_at drawing.elements t b) }
{
    no_product_is_zero();
    parts_are_polynomials_along_curves();
}

/// What a step derives holds.
pub fn derived_statements_hold()
    ensures { (drawing : Drawing) (said : Step) (shape : Asked) → IsDrawn drawing → shape_of drawing.elements said ≡ Ok shape → Derives drawing.elements shape → Holds drawing.elements shape.conclusion }
{
    rules_are_identities();
    one_of_two_holds();
    plain_statements_hold();
    holds_at_every_assignment();
}

/// What a line infers is what its step derives, and so it holds; and whether a side condition is
/// not null somewhere is computed.
pub fn inferences_are_derivations()
    ensures exactly { (drawing : Drawing) (line : List ℕ) (said : Step) (s : Posed) → IsDrawn drawing → step_of line ≡ Ok said → (inference_of drawing.elements line ≡ Ok s) ↔ IsDerived drawing.elements said s }
    ensures holds { (drawing : Drawing) (line : List ℕ) (s : Posed) → IsDrawn drawing → inference_of drawing.elements line ≡ Ok s → Holds drawing.elements s }
    ensures not_null { (elements : List Entry) (side : Posed) → (is_not_null_somewhere elements side ≡ true) ↔ IsNotNullSomewhere elements side }
{
    verdict_of_is_the_verdict();
    derived_statements_hold();
}
