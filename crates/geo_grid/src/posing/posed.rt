//! A statement about a sketch, which a search over a grid can settle.

ghost use Rattle.std.specs.Prelude.{◌≡◌, ◌≤◌, ℕ, ℤ, List, map, true, IfOk};
ghost use Rattle.geo_sketch.specs.Needs.{stated};
ghost use Rattle.geo_sketch.specs.Sketches.{IsPosed};
ghost use Rattle.geo_degree.specs.Blocks.{blocks_of};
ghost use Rattle.geo_degree.specs.Grids.{axis_magnitude};
ghost use Rattle.geo_degree.specs.Questions.{IsForm};
ghost use Rattle.geo_degree.specs.Verdicts.{question_of, statement_height_at};
ghost use Rattle.geo_grid.specs.declared.search.form.Scratch.{Scratch};
ghost use Rattle.geo_grid.specs.Codes.{Asks};
ghost use Rattle.geo_triple.specs.declared.limits.TheConstants.{SHORT_LIMIT};
ghost use Rattle.geo_grid.specs.Plans.{moved_count, planned_for};
ghost use Rattle.geo_grid.specs.Ways.{speaks_one_way, triangle_one_way};
ghost use Rattle.geo_grid.specs.Works.{AreLow, StandsFor};
ghost use Rattle.std.proofs.Props.{props};

use crate::posing::axes::find_axes;
use crate::posing::condition::{Condition, condition_of, is_broken};
use crate::posing::magnitudes::pair_up;
use crate::posing::plan::Plan;
use crate::posing::shortness::{are_short_elements, is_short_statement};
use crate::search::{Form, Scratch};
use geo_degree::{Axis, Block, statements_are_forms};
use geo_height::of_statement;
use geo_sketch::{NoMemory, Sketch, Statement};
use geo_triple::{Narrow, Steps, Wide};
use std::alloc::Global;
use std::sync::ledger::Ledger;

/// A statement about a sketch, which is borrowed: a condition over the plan for the
/// elements that it names. Its axes are the parameters on which it depends, with their
/// degrees, and every other parameter is 0. All memory is taken when it is made, and by
/// `scratch`.
#[derive(Drop)]
pub struct Posed<'a> {
    statement: Statement,
    plan: Plan<'a>,
    blocks: Vec<Block>,
    condition: Condition,
    /// Whether 64 bits suffice for its parts on its grid.
    is_short: bool,
    ghost form: { IsForm (question_of plan.drawing.elements statement) } by { Prim.hlevel (props, triangle_one_way) },
    ghost planned: { plan ≡ planned_for plan.drawing statement } by { Prim.hlevel props },
    ghost covered: { blocks.items ≡ blocks_of plan.drawing.elements statement } by { Prim.hlevel props },
    ghost short: { is_short ≡ true → statement_height_at plan.drawing.elements statement (map axis_magnitude plan.axes) ≤ SHORT_LIMIT } by { Prim.hlevel props },
    ghost low: { (limit : ℕ) (ms : List ℕ) → statement_height_at plan.drawing.elements statement ms ≤ limit → AreLow limit plan ms } by { Prim.hlevel props },
    ghost asks: { (work : Scratch) (xs : List ℤ) → StandsFor plan work xs → Asks plan.drawing.elements statement condition work.triples.items xs } by { Prim.hlevel (props, speaks_one_way) },
}

impl<'a> Posed<'a> {
    /// The statement over the sketch.
    pub fn new(
        alloc: Global,
        sketch: &'a Sketch,
        statement: Statement,
    ) -> Result<Posed<'a>, NoMemory>
        requires { IsPosed sketch.now.elements statement }
        ensures question { IfOk result (λ posed. ⟦<Posed<'a> as Form>⟧.question posed ≡ question_of sketch.now.elements statement) }
        ensures counts { IfOk result (λ posed. (first : ℕ) → ⟦<Posed<'a> as Form>⟧.moved_count posed first ≡ moved_count (planned_for sketch.now statement) first) }
    {
        statements_are_forms();
        let found = find_axes(alloc, sketch, &statement)?;
        let named = numbers_of(alloc, &statement)?;
        let is_short = is_short_statement(sketch, &statement, &found.axes);
        let are_short = is_short || are_short_elements(sketch, &named, &found.axes);
        let plan = Plan::with_lane(alloc, sketch, named, found.axes, are_short)?;
        let condition = condition_of(&plan, &statement);
        Ok(Posed {
            statement,
            plan,
            blocks: found.blocks,
            condition,
            is_short,
        })
    }
}

/// The numbers of the elements that a statement names.
fn numbers_of(alloc: Global, statement: &Statement) -> Result<Vec<u32>, NoMemory>
    ensures { IfOk result (λ numbers. numbers.items ≡ stated statement.now) }
{
    let made = match statement {
        Statement::Null(n) => Vec::from_array(alloc, [*n]).ok(),
        Statement::Same(n, m) | Statement::On(n, m) => Vec::from_array(alloc, [*n, *m]).ok(),
        Statement::Triple(n, m, k) => Vec::from_array(alloc, [*n, *m, *k]).ok(),
    };
    made.ok_or(NoMemory)
}

impl<'a> Form for Posed<'a> {
    ghost use Rattle.geo_degree.specs.Verdicts.{question_of};
    ghost use Rattle.geo_grid.specs.Plans.{moved_count as count_of};
    ghost use Rattle.geo_grid.specs.Ways.{not_both as never_both};
    ghost use Rattle.geo_grid.specs.Works.{IsFresh, TellsOf};

    ghost question = { λ p. question_of p.plan.drawing.elements p.statement };

    ghost is_fresh = { λ p work. IsFresh p.plan work };

    ghost stands_for = { λ p work xs. TellsOf p.plan p.statement work xs };

    ghost moved_count = { λ p first. count_of p.plan first };

    fn parts(&self) -> usize {
        match self.statement {
            Statement::Null(_) | Statement::Same(_, _) => 3,
            Statement::On(_, _) | Statement::Triple(_, _, _) => 1,
        }
    }

    fn axes(&self) -> &[Axis] {
        self.plan.axes()
    }

    fn blocks(&self) -> &[Block] {
        &self.blocks
    }

    fn height(&self, magnitudes: &[u64]) -> Option<u128> {
        let axes = self.plan.axes();
        let pairs = pair_up(axes, magnitudes);
        of_statement(self.plan.sketch(), &self.statement, &pairs[..axes.len()])
    }

    fn scratch(&self, alloc: Global) -> Result<Scratch, NoMemory> {
        self.plan.scratch(alloc)
    }

    fn nodes_from(&self, first: usize) -> u64 {
        self.plan.nodes_from(first)
    }

    fn refresh<L: Ledger>(
        &self,
        values: &[i64],
        first: usize,
        work: &mut Scratch,
        steps: &mut Steps<L>,
    ) {
        self.plan.refresh(values, first, work, steps);
    }

    fn failing(&self, work: &Scratch) -> bool {
        if self.is_short && self.plan.is_on_grid(work) {
            is_broken::<Narrow>(&self.condition, &work.triples)
        } else {
            is_broken::<Wide>(&self.condition, &work.triples)
        }
    }

    ghost is_form = { λ p. p.form };

    ghost not_both = { λ p work xs fresh tells. never_both p.plan work xs fresh tells.0 };
}
