//! The verdict on an expression.

ghost use Rattle.std.specs.Prelude.{◌≡◌, ◌<◌, ◌≤◌, IfOk};
ghost use Rattle.geo_degree.specs.VerdictFunction.{verdict_of};
ghost use Rattle.geo_bracket.specs.Expressions.{IsPosedExpression};
ghost use Rattle.geo_bracket.specs.Questions.{expression_question};
ghost use Rattle.geo_bracket.specs.Verdicts.{IsExpressionVerdict};
ghost use Rattle.geo_board.specs.declared.limits.TheConstants.{WORKER_LIMIT};

use crate::expressions::Expression;
use crate::laws::verdicts_on_expressions;
use crate::posed::posing::PosedZero;
use geo_settle::{Gate, settle};
use geo_sketch::{NoMemory, Sketch, Verdict};
use std::alloc::Global;
use std::thread::Threads;

/// The verdict on an expression: proved where it is 0 at every assignment, else false at some
/// values, or not settled where its grid passes a limit and no sample position fails. The
/// workers share the search over the grid, and tell the gate of their claims.
pub fn settle_zero<R: Threads + Sync, G: Gate + Sync>(
    rt: &R,
    alloc: Global,
    sketch: &Sketch,
    expression: &Expression,
    workers: u64,
    gate: &G,
) -> Result<Verdict, NoMemory>
    requires posed { IsPosedExpression sketch.now.elements expression.now }
    requires workers { (0 < workers) × (workers ≤ WORKER_LIMIT) }
    ensures function { IfOk result (λ r. r ≡ verdict_of (expression_question sketch.now.elements expression.now)) }
    ensures verdict { IfOk result (λ r. IsExpressionVerdict sketch.now.elements expression.now r) }
{
    verdicts_on_expressions();
    let posed = PosedZero::new(alloc, sketch, expression)?;
    settle(rt, alloc, &posed, workers, gate)
}
