//! Finding the verdict of a statement anew.

ghost use Rattle.std.specs.Prelude.{◌≡◌, ◌≤◌, ◌<◌, IfOk};
ghost use Rattle.geo_sketch.specs.Sketches.{IsPosed};
ghost use Rattle.geo_degree.specs.VerdictFunction.{verdict_of};
ghost use Rattle.geo_degree.specs.Verdicts.{question_of};
ghost use Rattle.geo_board.specs.declared.limits.TheConstants.{WORKER_LIMIT};

use geo_grid::Posed;
use geo_settle::{Gate, settle};
use geo_sketch::{NoMemory, Sketch, Statement, Verdict};
use std::alloc::Global;
use std::thread::Threads;

/// The verdict of a statement in a sketch, found by so many workers.
pub(crate) fn settle_in<R: Threads + Sync, G: Gate + Sync>(
    rt: &R,
    alloc: Global,
    sketch: &Sketch,
    s: &Statement,
    workers: u64,
    gate: &G,
) -> Result<Verdict, NoMemory>
    requires workers { (0 < workers) × (workers ≤ WORKER_LIMIT) }
    requires posed { IsPosed sketch.now.elements s.now }
    ensures { IfOk result (λ r. r ≡ verdict_of (question_of sketch.now.elements s.now)) }
{
    let posed = Posed::new(alloc, sketch, *s)?;
    settle(rt, alloc, &posed, workers, gate)
}
