//! The whole program, from the words and the bytes that are read to the bytes
//! that are written.

ghost use Rattle.std.specs.Prelude.{◌≡◌, ◌≢◌, ℕ, List, [], Option, ◌<◌, ◌≤◌, ◌^◌, ◌↔◌, ◌⊎◌, length, None, Some};
ghost use Rattle.geo_io.specs.Faults.{Rose};
ghost use Rattle.geo_io.specs.Pieces.{Takes};
ghost use Rattle.geo_view.specs.declared.shown.ViewKind.{ViewKind};
ghost use Rattle.geo_session.specs.Views.{AreEmpty, kinds_of};
ghost use Rattle.geo_app.specs.declared.task.Request.{Request};
ghost use Rattle.geo_app.specs.declared.task.Task.{Task as Aim};
ghost use Rattle.geo_app.specs.Outcomes.{status_of, Headline, IsAnswered, IsStopped};
ghost use Rattle.geo_app.specs.Tasks.{request_of, task_of};
ghost use Rattle.geo_board.specs.declared.limits.TheConstants.{WORKER_LIMIT};
ghost use Rattle.geo_io.specs.declared.limits.TheConstants.{INPUT_LIMIT};

use crate::answering::Answering;
use crate::batch::Batch;
use crate::carrying::carry_out;
use crate::certified::printed_certificates_are_valid;
use crate::generated::run_generated;
use crate::limits::JOB_SIZE_LIMIT;
use crate::long_jobs::{long_jobs_are_answered_alike, verdicts_of_jobs_are_true};
use crate::long_lines::long_lines_are_answered_alike;
use crate::task::{Task, request_of};
use geo_cert::CERTIFICATE_LIMIT;
use geo_checker::{
    answers_are_right, long_lines_are_answered_alike as long_certificates_are_answered_alike,
};
use geo_io::{Sink, SinkEnd, Source, SureSink, SureSource};
use geo_parse::LINE_LIMIT;
use geo_script::Script;
use geo_session::printed_verdicts_are_true;
use geo_settle::Gate;
use geo_view::{NoViews, View, Wall};
use std::alloc::Global;
use std::thread::Threads;

/// How the program ends; the exit statuses are 0 to 6 in this order.
#[derive(Clone, Copy, PartialEq, Eq, Debug)]
pub enum Outcome {
    /// What there is to read was read to its end, no line or job was refused, no line was
    /// found invalid, and all was written.
    Done,
    /// The same, but a line or a job was refused, or a line found invalid.
    SomeRefused,
    /// The words are none that the program knows; nothing was read or written.
    Usage,
    /// The source could not be read.
    ReadFault,
    /// The sink could not be written to.
    WriteFault,
    /// More than 2^24 bytes were read.
    TooLong,
    /// Memory was wanting.
    NoMemory,
}

impl Outcome {
    /// The exit status.
    pub fn status(&self) -> u8
        ensures { result ≡ status_of self.now }
    {
        match self {
            Outcome::Done => 0,
            Outcome::SomeRefused => 1,
            Outcome::Usage => 2,
            Outcome::ReadFault => 3,
            Outcome::WriteFault => 4,
            Outcome::TooLong => 5,
            Outcome::NoMemory => 6,
        }
    }
}

/// Runs the program on the words of its command line, without its own name: carries out
/// the task that they set, reads what it needs from the source, and writes the replies to
/// the sink. The views of a script are numbered in their order, and see each change of its
/// sketch; they are dropped with the session, where the script did not close them before, and
/// unused where there is no script to read.
pub fn run_program<R: Threads + Sync, S: Source, K: Sink, G: Gate + Sync>(
    rt: &R,
    alloc: Global,
    words: &[String],
    source: &mut S,
    sink: &mut K,
    views: Vec<Box<dyn View>>,
    gate: &G,
) -> Outcome
    requires { AreEmpty sight views.items }
    ensures headline { (request : Request) → request_of words.now ≡ Some request → Takes (S.left source.old) (S.left source.new) (λ taken. Headline (kinds_of sight views.items) request.task request.workers result taken (S.left source.new) (K.held sink.old) (K.held sink.new)) }
    ensures usage { (result ≡ Outcome.Usage) ↔ (task_of words.now ≡ None) }
    ensures untouched { result ≡ Outcome.Usage → (source.new ≡ source.old) × (sink.new ≡ sink.old) }
    ensures read_fault { result ≡ Outcome.ReadFault → Rose (S.fault_count source.old) (S.fault_count source.new) }
    ensures write_fault { result ≡ Outcome.WriteFault → Rose (K.fault_count sink.old) (K.fault_count sink.new) }
    ensures generated { (seed : ℕ) → task_of words.now ≡ Some (Aim.Generate seed) → (source.new ≡ source.old) × ((result ≡ Outcome.Done) ⊎ ((result ≡ Outcome.WriteFault) ⊎ (result ≡ Outcome.NoMemory))) }
    ensures complete { (task : Aim) (bytes : List ℕ) → task_of words.now ≡ Some task → S.left source.old ≡ Some bytes → length bytes ≤ INPUT_LIMIT → ¬ Rose (S.fault_count source.old) (S.fault_count source.new) → ¬ Rose (K.fault_count sink.old) (K.fault_count sink.new) → IsAnswered result ⊎ (result ≡ Outcome.NoMemory) }
{
    match request_of(words) {
        Some(request) => match request.task {
            Task::Run => run(rt, alloc, request.workers, source, sink, views, gate),
            Task::Check => check(rt, alloc, source, sink, gate),
            Task::Generate(seed) => generate(rt, alloc, seed, request.workers, sink, gate),
            Task::Batch => run_batch(rt, alloc, request.workers, source, sink, gate),
        },
        None => Outcome::Usage,
    }
}

/// Runs the program over memory, where no fault can rise.
pub fn run_in_memory<R: Threads + Sync, G: Gate + Sync>(
    rt: &R,
    alloc: Global,
    words: &[String],
    source: &mut SureSource,
    sink: &mut SureSink,
    views: Vec<Box<dyn View>>,
    gate: &G,
) -> Outcome
    requires { AreEmpty sight views.items }
    ensures headline { (request : Request) → request_of words.now ≡ Some request → Takes (Some source.old) (Some source.new) (λ taken. Headline (kinds_of sight views.items) request.task request.workers result taken (Some source.new) (Some sink.old) (Some sink.new)) }
    ensures usage { (result ≡ Outcome.Usage) ↔ (task_of words.now ≡ None) }
    ensures untouched { result ≡ Outcome.Usage → (source.new ≡ source.old) × (sink.new ≡ sink.old) }
    ensures sure { (result ≢ Outcome.ReadFault) × (result ≢ Outcome.WriteFault) }
    ensures generated { (seed : ℕ) → task_of words.now ≡ Some (Aim.Generate seed) → (source.new ≡ source.old) × ((result ≡ Outcome.Done) ⊎ (result ≡ Outcome.NoMemory)) }
    ensures complete { (task : Aim) → task_of words.now ≡ Some task → length source.old ≤ INPUT_LIMIT → IsAnswered result ⊎ (result ≡ Outcome.NoMemory) }
{
    run_program(rt, alloc, words, source, sink, views, gate)
}

/// The bytes that are read of a line of a script: one more than it may have, so that a line that
/// is too long still is.
const SCRIPT_LINE: usize = LINE_LIMIT + 1;

/// And of one that may be a certificate.
const CERTIFICATE_LINE: usize = CERTIFICATE_LIMIT + 1;

/// Carries out each line of a script as soon as it is read.
fn run<R: Threads + Sync, S: Source, K: Sink, G: Gate + Sync>(
    rt: &R,
    alloc: Global,
    workers: u64,
    source: &mut S,
    sink: &mut K,
    views: Vec<Box<dyn View>>,
    gate: &G,
) -> Outcome
    requires empty { AreEmpty sight views.items }
    requires workers { (0 < workers) × (workers ≤ WORKER_LIMIT) }
    ensures headline { Takes (S.left source.old) (S.left source.new) (λ taken. Headline (kinds_of sight views.items) Task.Run workers result taken (S.left source.new) (K.held sink.old) (K.held sink.new)) }
    ensures ended { IsAnswered result ⊎ IsStopped result }
    ensures read_fault { result ≡ Outcome.ReadFault → Rose (S.fault_count source.old) (S.fault_count source.new) }
    ensures write_fault { result ≡ Outcome.WriteFault → Rose (K.fault_count sink.old) (K.fault_count sink.new) }
{
    printed_verdicts_are_true();
    long_lines_are_answered_alike();
    let wall = match Wall::new(alloc, views) {
        Ok(wall) => wall,
        Err(_) => return Outcome::NoMemory,
    };
    let script = Script::new(alloc, wall, workers);
    carry_out(
        rt,
        alloc,
        SCRIPT_LINE,
        &mut Answering::Script(script),
        source,
        sink,
        gate,
    )
}

/// Checks each line of certificates as soon as it is read, one after the other.
fn check<R: Threads + Sync, S: Source, K: Sink, G: Gate + Sync>(
    rt: &R,
    alloc: Global,
    source: &mut S,
    sink: &mut K,
    gate: &G,
) -> Outcome
    ensures headline { (kinds : List ViewKind) (workers : ℕ) → Takes (S.left source.old) (S.left source.new) (λ taken. Headline kinds Task.Check workers result taken (S.left source.new) (K.held sink.old) (K.held sink.new)) }
    ensures ended { IsAnswered result ⊎ IsStopped result }
    ensures read_fault { result ≡ Outcome.ReadFault → Rose (S.fault_count source.old) (S.fault_count source.new) }
    ensures write_fault { result ≡ Outcome.WriteFault → Rose (K.fault_count sink.old) (K.fault_count sink.new) }
{
    answers_are_right();
    printed_certificates_are_valid();
    long_certificates_are_answered_alike();
    let mut checks: Answering<NoViews> = Answering::Certificates;
    carry_out(rt, alloc, CERTIFICATE_LINE, &mut checks, source, sink, gate)
}

/// The bytes of a line of a batch that are kept: with one more for the end of the line, one more
/// than a job may have.
const BATCH_LINE: usize = JOB_SIZE_LIMIT + 1;

/// Carries out many scripts, each on its own, so many side by side.
fn run_batch<R: Threads + Sync, S: Source, K: Sink, G: Gate + Sync>(
    rt: &R,
    alloc: Global,
    workers: u64,
    source: &mut S,
    sink: &mut K,
    gate: &G,
) -> Outcome
    requires { (0 < workers) × (workers ≤ WORKER_LIMIT) }
    ensures headline { (kinds : List ViewKind) → Takes (S.left source.old) (S.left source.new) (λ taken. Headline kinds Task.Batch workers result taken (S.left source.new) (K.held sink.old) (K.held sink.new)) }
    ensures ended { IsAnswered result ⊎ IsStopped result }
    ensures read_fault { result ≡ Outcome.ReadFault → Rose (S.fault_count source.old) (S.fault_count source.new) }
    ensures write_fault { result ≡ Outcome.WriteFault → Rose (K.fault_count sink.old) (K.fault_count sink.new) }
{
    long_jobs_are_answered_alike();
    verdicts_of_jobs_are_true();
    let batch = Batch::new(alloc, workers);
    let mut jobs: Answering<NoViews> = Answering::Batch(batch);
    carry_out(rt, alloc, BATCH_LINE, &mut jobs, source, sink, gate)
}

/// Carries out a generated script, for which nothing is read.
#[tactic(auto, using(crate::proofs::Tallies::one_text))]
fn generate<R: Threads + Sync, K: Sink, G: Gate + Sync>(
    rt: &R,
    alloc: Global,
    seed: u32,
    workers: u64,
    sink: &mut K,
    gate: &G,
) -> Outcome
    requires { (0 < workers) × (workers ≤ WORKER_LIMIT) }
    ensures headline { (kinds : List ViewKind) (left : Option (List ℕ)) → Headline kinds (Task.Generate seed) workers result [] left (K.held sink.old) (K.held sink.new) }
    ensures ended { (result ≡ Outcome.Done) ⊎ ((result ≡ Outcome.WriteFault) ⊎ (result ≡ Outcome.NoMemory)) }
    ensures write_fault { result ≡ Outcome.WriteFault → Rose (K.fault_count sink.old) (K.fault_count sink.new) }
{
    match run_generated(rt, alloc, seed, workers, sink, gate) {
        Ok(()) => Outcome::Done,
        Err(SinkEnd::Failed) => Outcome::WriteFault,
        Err(SinkEnd::NoMemory) => Outcome::NoMemory,
    }
}
