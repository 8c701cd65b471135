//! The verdict on a form.

ghost use Rattle.std.specs.Prelude.{◌≡◌, ◌<◌, ◌≤◌, IfOk};
ghost use Rattle.geo_degree.specs.Questions.{IsWithinLimits, IsZeroEverywhere};
ghost use Rattle.geo_degree.specs.VerdictFunction.{verdict_of};
ghost use Rattle.geo_degree.specs.Verdicts.{IsGridVerdict, IsPast, IsSampleVerdict};
ghost use Rattle.geo_board.specs.declared.limits.TheConstants.{WORKER_LIMIT};

use crate::bench::{Bench, First};
use crate::gate::Gate;
use crate::parts::zero_everywhere;
use crate::samples::failing_sample;
use crate::values::values_at;
use geo_degree::verdict_of_is_the_verdict;
use geo_grid::{Form, Grid, GridStop};
use geo_sketch::{NoMemory, Past, Verdict};
use std::alloc::Global;
use std::thread::Threads;

/// The verdict on what a form asks. Where its grid is within the limits, it is searched:
/// what is 0 at all its points is 0 everywhere. Elsewhere eight samples are tried, which
/// prove nothing. The method is that of Zhang, Yang and Deng (1990). The workers share the
/// search over the grid, and tell the gate of their claims.
pub fn settle<F: Form + Sync, R: Threads + Sync, G: Gate + Sync>(
    rt: &R,
    alloc: Global,
    form: &F,
    workers: u64,
    gate: &G,
) -> Result<Verdict, NoMemory>
    requires { (0 < workers) × (workers ≤ WORKER_LIMIT) }
    ensures { IfOk result (λ r. r ≡ verdict_of (F.question form.now)) }
{
    verdict_of_is_the_verdict();
    match Grid::of(alloc, form) {
        Ok(grid) => verdict_on_grid(rt, alloc, form, &grid, workers, gate),
        Err(GridStop::Past(past)) => verdict_at_samples(alloc, form, past),
        Err(GridStop::NoMemory) => Err(NoMemory),
    }
}

/// The verdict on a form whose grid is within the limits.
fn verdict_on_grid<F: Form + Sync, R: Threads + Sync, G: Gate + Sync>(
    rt: &R,
    alloc: Global,
    form: &F,
    grid: &Grid,
    workers: u64,
    gate: &G,
) -> Result<Verdict, NoMemory>
    requires grid { grid.now ≡ (F.question form.now).blocks }
    requires within { IsWithinLimits (F.question form.now) }
    requires workers { (0 < workers) × (workers ≤ WORKER_LIMIT) }
    ensures { IfOk result (λ r. IsGridVerdict (F.question form.now) (IsZeroEverywhere (F.question form.now)) r) }
{
    match Bench::prepare(alloc, form, grid, workers)?.run(rt, gate) {
        First::Clear => {
            zero_everywhere(form);
            Ok(Verdict::Proved)
        }
        First::At(index) => Ok(Verdict::False(values_at(alloc, form, grid, index)?)),
    }
}

/// The verdict on a form whose grid passes a limit.
fn verdict_at_samples<F: Form>(alloc: Global, form: &F, past: Past) -> Result<Verdict, NoMemory>
    requires { IsPast (F.question form.now) past }
    ensures { IfOk result (λ r. IsSampleVerdict (F.question form.now) r) }
{
    match failing_sample(alloc, form)? {
        Some(values) => Ok(Verdict::False(values)),
        None => Ok(Verdict::Unsettled(past)),
    }
}
