//! Verdicts that are kept under their statements.

ghost use Rattle.std.specs.Prelude.{◌≡◌, ◌≤◌, ◌<◌, Some, IsSome, slice_get, IfOk};
ghost use Rattle.indexmap.specs.IndexMap.{values};
ghost use Rattle.geo_sketch.specs.Sketches.{IsPosed};
ghost use Rattle.geo_degree.specs.VerdictFunction.{verdict_of};
ghost use Rattle.geo_degree.specs.Verdicts.{question_of};
ghost use Rattle.geo_ledger.specs.Ledgers.{AreKept};
ghost use Rattle.geo_board.specs.declared.limits.TheConstants.{WORKER_LIMIT};

use crate::settling::settle_in;
use geo_settle::Gate;
use geo_sketch::{NoMemory, Sketch, Statement, Verdict};
use indexmap::IndexMap;
use std::alloc::Global;
use std::thread::Threads;

/// The place of a statement's verdict among those that are kept. It is found and kept where
/// it is not there.
pub(crate) fn keep<R: Threads + Sync, G: Gate + Sync>(
    rt: &R,
    kept: &mut IndexMap<Statement, Verdict>,
    alloc: Global,
    sketch: &Sketch,
    s: &Statement,
    workers: u64,
    gate: &G,
) -> Result<usize, NoMemory>
    requires workers { (0 < workers) × (workers ≤ WORKER_LIMIT) }
    requires posed { IsPosed sketch.now.elements s.now }
    requires kept { AreKept sketch.now kept.old.entries }
    ensures kept { AreKept sketch.now kept.new.entries }
    ensures there { IfOk result (λ place. slice_get (values kept.new) place ≡ Some (verdict_of (question_of sketch.now.elements s.now))) }
{
    if let Some(place) = kept.get_index_of(s) {
        return Ok(place);
    }
    let verdict = settle_in(rt, alloc, sketch, s, workers, gate)?;
    let place = kept.len();
    match kept.insert(*s, verdict) {
        Ok(_) => Ok(place),
        Err(_) => Err(NoMemory),
    }
}

/// The kept verdict at this place.
pub(crate) fn verdict_at(kept: &IndexMap<Statement, Verdict>, place: usize) -> &Verdict
    requires { IsSome (slice_get (values kept.now) place) }
    ensures { slice_get (values kept.now) place ≡ Some result.now }
{
    match kept.get_index(place) {
        Some((_, verdict)) => verdict,
        None => unreachable!(),
    }
}
