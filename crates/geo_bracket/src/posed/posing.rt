//! An expression, which a search over a grid can settle.

ghost use Rattle.std.specs.Prelude.{◌≡◌, ◌≤◌, ℕ, ℤ, List, length, map, true, IfOk, OnOk};
ghost use Rattle.geo_sketch.specs.Lookups.{IsLive};
ghost use Rattle.geo_sketch.specs.Sketches.{IsDrawn};
ghost use Rattle.geo_sketch.specs.declared.limits.TheConstants.{PARAMETER_LIMIT};
ghost use Rattle.geo_degree.specs.Grids.{axis_magnitude};
ghost use Rattle.geo_degree.specs.Questions.{IsForm};
ghost use Rattle.geo_grid.specs.declared.search.form.Scratch.{Scratch};
ghost use Rattle.geo_triple.specs.declared.limits.TheConstants.{SHORT_LIMIT};
ghost use Rattle.geo_grid.specs.Plans.{moved_count};
ghost use Rattle.geo_grid.specs.Ways.{triangle_one_way};
ghost use Rattle.geo_grid.specs.Works.{AreLow, StandsFor};
ghost use Rattle.geo_bracket.specs.Expressions.{IsPosedExpression};
ghost use Rattle.geo_bracket.specs.Posing.{AsksOf, planned_expression};
ghost use Rattle.geo_bracket.specs.Questions.{expression_axes, expression_blocks, expression_height_at, expression_question};
ghost use Rattle.geo_bracket.specs.Terms.{AtEach};
ghost use Rattle.std.proofs.Props.{props};

use crate::expressions::{Expression, Term};
use crate::heights::height;
use crate::laws::expressions_are_forms;
use crate::posed::axes::find_axes;
use crate::posed::magnitudes::{pair_on_grid, pair_up};
use crate::posed::places::{name_elements, place_terms};
use crate::posed::values::is_not_zero;
use geo_degree::{Axis, Block};
use geo_grid::{Form, Plan, Scratch};
use geo_sketch::{NoMemory, Sketch};
use geo_triple::{Narrow, SHORT_LIMIT, Steps, Wide};
use std::alloc::Global;
use std::sync::ledger::Ledger;

/// An expression over a sketch, both of which are borrowed: a sum of products of determinants
/// over the plan for the elements that it names, each of which is evaluated once, however many
/// places it stands at. Its axes are the parameters in which its degree is above 0, and every
/// other parameter is 0. All memory is taken when it is made, and by `scratch`.
#[derive(Drop)]
pub struct PosedZero<'a> {
    expression: &'a Expression,
    plan: Plan<'a>,
    blocks: Vec<Block>,
    /// The terms by the places of the triples.
    placed: Vec<Term<usize>>,
    /// Whether 64 bits suffice for its value on its grid.
    is_short: bool,
    ghost form: { IsForm (expression_question plan.drawing.elements expression.now) } by { Prim.hlevel (props, triangle_one_way) },
    ghost planned: { plan ≡ planned_expression plan.drawing expression.now } by { Prim.hlevel props },
    ghost covered: { blocks.items ≡ expression_blocks plan.drawing.elements expression.now } by { Prim.hlevel props },
    ghost short: { is_short ≡ true → expression_height_at plan.drawing.elements expression.now (map axis_magnitude plan.axes) ≤ SHORT_LIMIT } by { Prim.hlevel props },
    ghost low: { (limit : ℕ) (ms : List ℕ) → expression_height_at plan.drawing.elements expression.now ms ≤ limit → AreLow limit plan ms } by { Prim.hlevel props },
    ghost asks: { (work : Scratch) (xs : List ℤ) → StandsFor plan work xs → AsksOf plan.drawing.elements expression.now placed.items work.triples.items xs } by { Prim.hlevel props },
}

impl<'a> PosedZero<'a> {
    /// The expression over the sketch.
    pub fn new(
        alloc: Global,
        sketch: &'a Sketch,
        expression: &'a Expression,
    ) -> Result<PosedZero<'a>, NoMemory>
        requires { IsPosedExpression sketch.now.elements expression.now }
        ensures question { IfOk result (λ posed. ⟦<PosedZero<'a> as Form>⟧.question posed ≡ expression_question sketch.now.elements expression.now) }
        ensures counts { IfOk result (λ posed. (first : ℕ) → ⟦<PosedZero<'a> as Form>⟧.moved_count posed first ≡ moved_count (planned_expression sketch.now expression.now) first) }
        ensures drawn { OnOk result (IsDrawn sketch.now) }
    {
        expressions_are_forms();
        let terms = expression.terms();
        let found = find_axes(alloc, sketch, terms)?;
        let named = name_elements(alloc, terms)?;
        let is_short = is_short(sketch, terms, &found.axes);
        let plan = Plan::of(alloc, sketch, named, found.axes)?;
        let placed = place_terms(alloc, &plan, terms)?;
        Ok(PosedZero {
            expression,
            plan,
            blocks: found.blocks,
            placed,
            is_short,
        })
    }
}

/// Whether 64 bits suffice for terms about live elements on the grid of their axes.
fn is_short(sketch: &Sketch, terms: &[Term<u32>], axes: &[Axis]) -> bool
    requires live { AtEach (IsLive sketch.now.elements) terms.now }
    requires axes { axes.now ≡ expression_axes sketch.now.elements terms.now }
    requires few { length axes.now ≤ PARAMETER_LIMIT }
    ensures { result ≡ true → expression_height_at sketch.now.elements terms.now (map axis_magnitude axes.now) ≤ SHORT_LIMIT }
{
    let pairs = pair_on_grid(axes);
    match height(sketch, terms, &pairs[..axes.len()]) {
        Some(height) => height <= SHORT_LIMIT,
        None => false,
    }
}

impl<'a> Form for PosedZero<'a> {
    ghost use Rattle.geo_grid.specs.Plans.{moved_count as count_of};
    ghost use Rattle.geo_grid.specs.Ways.{not_both as never_both};
    ghost use Rattle.geo_grid.specs.Works.{IsFresh};
    ghost use Rattle.geo_bracket.specs.Posing.{TellsOf};
    ghost use Rattle.geo_bracket.specs.Questions.{expression_question};

    ghost question = { λ p. expression_question p.plan.drawing.elements p.expression.now };

    ghost is_fresh = { λ p work. IsFresh p.plan work };

    ghost stands_for = { λ p work xs. TellsOf p.plan p.expression.now work xs };

    ghost moved_count = { λ p first. count_of p.plan first };

    fn parts(&self) -> usize {
        1
    }

    fn axes(&self) -> &[Axis] {
        self.plan.axes()
    }

    fn blocks(&self) -> &[Block] {
        &self.blocks
    }

    fn height(&self, magnitudes: &[u64]) -> Option<u128> {
        let axes = self.plan.axes();
        let pairs = pair_up(axes, magnitudes);
        height(
            self.plan.sketch(),
            self.expression.terms(),
            &pairs[..axes.len()],
        )
    }

    fn scratch(&self, alloc: Global) -> Result<Scratch, NoMemory> {
        self.plan.scratch(alloc)
    }

    fn nodes_from(&self, first: usize) -> u64 {
        self.plan.nodes_from(first)
    }

    fn refresh<L: Ledger>(
        &self,
        values: &[i64],
        first: usize,
        work: &mut Scratch,
        steps: &mut Steps<L>,
    ) {
        self.plan.refresh(values, first, work, steps);
    }

    fn failing(&self, work: &Scratch) -> bool {
        if self.is_short && self.plan.is_on_grid(work) {
            is_not_zero::<Narrow>(&self.placed, &work.triples)
        } else {
            is_not_zero::<Wide>(&self.placed, &work.triples)
        }
    }

    ghost is_form = { λ p. p.form };

    ghost not_both = { λ p work xs fresh tells. never_both p.plan work xs fresh tells.0 };
}
