//! A batch: the jobs among the lines of an input, run side by side, a round at a time.

ghost use Rattle.std.specs.Prelude.{◌≡◌, ◌+◌, ◌++◌, ◌^◌, ◌<◌, ◌≤◌, [], ◌∷◌, if◌then◌else◌, length, map, IfOk, OnOk};
ghost use Rattle.geo_app.specs.Courses.{Course, IsLastReply, IsReplied};
ghost use Rattle.geo_app.specs.Gatherings.{Gathers, batch_course, nothing_gathered};
ghost use Rattle.geo_app.specs.Sheets.{done_sheet, has_line, sheet_of, sheets_text, some_refused, with_line};
ghost use Rattle.geo_board.specs.declared.limits.TheConstants.{WORKER_LIMIT};
ghost use Rattle.geo_batch.specs.declared.limits.TheConstants.{JOB_LIMIT};

use crate::refusals::or_refused;
use crate::work::Work;
use geo_batch::run_all;
use geo_sketch::NoMemory;
use std::alloc::Global;
use std::mem;
use std::thread::Threads;

/// The jobs that wait for their round.
#[derive(Drop)]
pub struct Batch {
    /// How many jobs run side by side.
    workers: u64,
    waiting: Vec<Work>,
    /// The job whose lines are being read.
    begun: Work,
}

impl Batch {
    /// No line was read.
    pub fn new(alloc: Global, workers: u64) -> Batch
        requires { 0 < workers }
        ensures goes { Gathers result (batch_course workers nothing_gathered) }
        ensures few { length result.waiting.items < result.workers }
        ensures workers { result.workers ≡ workers }
        ensures number { result.begun.number ≡ 1 }
    {
        Batch {
            workers,
            waiting: Vec::new(alloc),
            begun: Work::new(alloc, 1),
        }
    }

    /// Takes a line, and where it ends the last job of a round, runs these jobs and appends their
    /// outputs; answers whether one was refused, or a line of one.
    pub fn take<R: Threads + Sync>(
        &mut self,
        rt: &R,
        alloc: Global,
        line: &[u8],
        out: &mut Vec<u8>,
    ) -> Result<bool, NoMemory>
        requires few { length self.old.waiting.items < self.old.workers }
        requires workers { self.old.workers ≤ WORKER_LIMIT }
        requires number { self.old.begun.number + 1 < 2 ^ 64 }
        ensures replied { IfOk result (λ refused. (course : Course) → Gathers self.old course → IsReplied (Gathers self.new) course line.now refused out.old.items out.new.items) }
        ensures few { OnOk result (length self.new.waiting.items < self.new.workers) }
        ensures workers { self.new.workers ≡ self.old.workers }
        ensures number { OnOk result (self.new.begun.number ≤ self.old.begun.number + 1) }
    {
        if line != b"===".as_slice() {
            self.keep(line)?;
            return Ok(false);
        }
        self.close(alloc)?;
        if (self.waiting.len() as u64) < self.workers {
            return Ok(false);
        }
        self.run_round(rt, alloc, out)
    }

    /// Runs the jobs that are left, and appends their outputs; answers whether one was refused, or a
    /// line of one.
    pub fn finish<R: Threads + Sync>(
        &mut self,
        rt: &R,
        alloc: Global,
        out: &mut Vec<u8>,
    ) -> Result<bool, NoMemory>
        requires few { length self.old.waiting.items < self.old.workers }
        requires workers { self.old.workers ≤ WORKER_LIMIT }
        requires number { self.old.begun.number + 1 < 2 ^ 64 }
        ensures { IfOk result (λ refused. (course : Course) → Gathers self.old course → IsLastReply course refused out.old.items out.new.items) }
    {
        self.close_last(alloc)?;
        self.run_round(rt, alloc, out)
    }

    /// Keeps a line of the job that is begun.
    fn keep(&mut self, line: &[u8]) -> Result<(), NoMemory>
        ensures begun { OnOk result (self.new.begun ≡ with_line self.old.begun line.now) }
        ensures waiting { self.new.waiting.items ≡ self.old.waiting.items }
        ensures workers { self.new.workers ≡ self.old.workers }
    {
        match self.begun.push(line) {
            Ok(()) => Ok(()),
            Err(_) => Err(NoMemory),
        }
    }

    /// The job that is begun waits for its round, and the next one begins.
    fn close(&mut self, alloc: Global) -> Result<(), NoMemory>
        requires { self.old.begun.number + 1 < 2 ^ 64 }
        ensures waiting { OnOk result (self.new.waiting.items ≡ self.old.waiting.items ++ self.old.begun ∷ []) }
        ensures begun { OnOk result (self.new.begun ≡ sheet_of (self.old.begun.number + 1) []) }
        ensures workers { self.new.workers ≡ self.old.workers }
    {
        let next = Work::new(alloc, self.begun.number() + 1);
        let whole = mem::replace(&mut self.begun, next);
        match self.waiting.push(whole) {
            Ok(()) => Ok(()),
            Err(_) => Err(NoMemory),
        }
    }

    /// The job that is begun waits too, if it has a line.
    fn close_last(&mut self, alloc: Global) -> Result<(), NoMemory>
        requires { self.old.begun.number + 1 < 2 ^ 64 }
        ensures waiting { OnOk result (self.new.waiting.items ≡ (if has_line self.old.begun then self.old.waiting.items ++ self.old.begun ∷ [] else self.old.waiting.items)) }
    {
        if self.begun.has_line() {
            self.close(alloc)
        } else {
            Ok(())
        }
    }

    /// Runs the jobs that wait, and appends their outputs in order; answers whether one was refused,
    /// or a line of one.
    fn run_round<R: Threads + Sync>(
        &mut self,
        rt: &R,
        alloc: Global,
        out: &mut Vec<u8>,
    ) -> Result<bool, NoMemory>
        requires { length self.old.waiting.items ≤ JOB_LIMIT }
        ensures outputs { IfOk result (λ refused. (out.new.items ≡ out.old.items ++ sheets_text (map done_sheet self.old.waiting.items)) × (refused ≡ some_refused (map done_sheet self.old.waiting.items))) }
        ensures waiting { OnOk result (self.new.waiting.items ≡ []) }
        ensures workers { self.new.workers ≡ self.old.workers }
        ensures begun { self.new.begun ≡ self.old.begun }
    {
        let waiting = mem::replace(&mut self.waiting, Vec::new(alloc));
        match run_all(rt, alloc, waiting) {
            Ok(done) => put_each(done, out),
            Err(_) => Err(NoMemory),
        }
    }
}

/// Appends the outputs of jobs that have run, in order; answers whether one was refused, or a line
/// of one.
fn put_each(jobs: Vec<Work>, out: &mut Vec<u8>) -> Result<bool, NoMemory>
    ensures { IfOk result (λ refused. (out.new.items ≡ out.old.items ++ sheets_text jobs.items) × (refused ≡ some_refused jobs.items)) }
{
    let mut refused = false;
    for job in jobs {
        if out.extend_from_slice(job.text()).is_err() {
            return Err(NoMemory);
        }
        refused = or_refused(refused, job.is_refused());
    }
    Ok(refused)
}
