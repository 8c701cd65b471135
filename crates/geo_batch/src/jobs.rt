//! Running jobs.

ghost use Rattle.std.specs.Prelude.{◌≡◌, ◌<◌, ◌≤◌, ℕ, length, map, Option, IfOk, IfSome, OnOk, Some, slice_index_or};
ghost use Rattle.std.specs.Thread.{IsSync};
ghost use Rattle.geo_batch.specs.declared.limits.TheConstants.{JOB_LIMIT};

use crate::NoMemory;
use std::alloc::{AllocError, Global};
use std::thread::{self, Threads};

/// Something to be done, which keeps what comes of it.
pub trait Job: Drop {
    /// What a job is once it has run, by what it was before.
    ghost done: { Self → Self };

    /// Runs the job, which may start threads of its own.
    fn run<R: Threads + Sync>(&mut self, rt: &R) -> Result<(), NoMemory>
        requires { IsSync R.row }
        ensures { OnOk result (self.new ≡ done self.old) };
}

/// Runs all jobs, side by side where there are processors, and gives them back in the order in
/// which they were handed in. Where one of them wants memory, none comes back.
pub fn run_all<R: Threads + Sync, J: Job + Send>(
    rt: &R,
    alloc: Global,
    jobs: Vec<J>,
) -> Result<Vec<J>, NoMemory>
    requires { length jobs.items ≤ JOB_LIMIT }
    ensures { IfOk result (λ done. done.items ≡ map J.done jobs.items) }
{
    match run_each(rt, jobs) {
        Ok(outcomes) => gather(alloc, outcomes),
        Err(AllocError) => Err(NoMemory),
    }
}

/// Each job once it has run, where it did, by its place.
fn run_each<R: Threads + Sync, J: Job + Send>(
    rt: &R,
    jobs: Vec<J>,
) -> Result<Vec<Option<J>>, AllocError>
    ensures count { IfOk result (λ outcomes. length outcomes.items ≡ length jobs.items) }
    ensures each { IfOk result (λ outcomes. (i : ℕ) (d : Option J) (e : J) → i < length jobs.items → IfSome (slice_index_or outcomes.items i d) (λ done. done ≡ J.done (slice_index_or jobs.items i e))) }
{
    thread::map_vec(rt, jobs, &|job: J| run_one(rt, job))
}

/// The job once it has run; None where it wants memory.
fn run_one<R: Threads + Sync, J: Job>(rt: &R, mut job: J) -> Option<J>
    ensures { IfSome result (λ done. done ≡ J.done job) }
{
    match job.run(rt) {
        Ok(()) => Some(job),
        Err(NoMemory) => None,
    }
}

/// All jobs, where each ran.
fn gather<J: Job>(alloc: Global, outcomes: Vec<Option<J>>) -> Result<Vec<J>, NoMemory>
    ensures { IfOk result (λ all. map Some all.items ≡ outcomes.items) }
{
    let mut all = Vec::new(alloc);
    for outcome in outcomes {
        match outcome {
            Some(job) => {
                if all.push(job).is_err() {
                    return Err(NoMemory);
                }
            }
            None => return Err(NoMemory),
        }
    }
    Ok(all)
}
