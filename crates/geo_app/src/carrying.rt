//! The lines of an input, each answered as soon as it is read.

ghost use Rattle.std.specs.Prelude.{◌≡◌, ℕ, List, [], ◌∷◌, ◌+◌, ◌≤◌, ◌^◌, ◌⊎◌, ◌||◌, true, false, IfOk, OnOk, OnErr, IsErrOf, MatchBool, MatchResult};
ghost use Rattle.std.specs.Io.KnownBytes.{Appends};
ghost use Rattle.geo_io.specs.Faults.{Rose};
ghost use Rattle.geo_io.specs.Pieces.{AppendsFront, Takes as TakesBytes};
ghost use Rattle.geo_app.specs.Answering.{Goes, IsReady, count_of};
ghost use Rattle.geo_app.specs.Courses.{Course, Takes, IsCarriedOut, outcome_of_source, outcome_of_sink};
ghost use Rattle.geo_app.specs.Outcomes.{IsAnswered, IsStopped};
ghost use Rattle.geo_io.specs.declared.limits.TheConstants.{INPUT_LIMIT};

use crate::answering::Answering;
use crate::program::Outcome;
use crate::refusals::or_refused;
use geo_io::{LineEnd, Lines, Sink, SinkEnd, Source, write_all};
use geo_settle::Gate;
use geo_sketch::NoMemory;
use geo_view::Views;
use std::alloc::Global;
use std::thread::Threads;

/// Takes one line of the source, has it answered and the answer written, and only then takes the
/// next. Of a line that is longer than `limit` bytes only these are taken.
pub(crate) fn carry_out<R: Threads + Sync, S: Source, K: Sink, G: Gate + Sync, W: Views>(
    rt: &R,
    alloc: Global,
    limit: usize,
    answering: &mut Answering<W>,
    source: &mut S,
    sink: &mut K,
    gate: &G,
) -> Outcome
    requires ready { IsReady answering.old }
    requires count { count_of answering.old ≤ 1 }
    ensures carried { (course : Course) → Goes W.shows answering.old course → course.meanwhile [] ≡ [] → TakesBytes (S.left source.old) (S.left source.new) (λ taken. IsCarriedOut course limit result taken (S.left source.new) (K.held sink.old) (K.held sink.new)) }
    ensures ended { IsAnswered result ⊎ IsStopped result }
    ensures read_fault { result ≡ Outcome.ReadFault → Rose (S.fault_count source.old) (S.fault_count source.new) }
    ensures write_fault { result ≡ Outcome.WriteFault → Rose (K.fault_count sink.old) (K.fault_count sink.new) }
{
    let mut lines = match Lines::new(alloc, limit) {
        Ok(lines) => lines,
        Err(_) => return Outcome::NoMemory,
    };
    let mut out = Vec::new(alloc);
    let mut refused = false;
    'lines: loop {
        match lines.next(source) {
            Ok(Some(line)) => match answer(rt, alloc, answering, &line, &mut out, sink, gate) {
                Ok(more) => refused = or_refused(refused, more),
                Err(end) => return stopped_by_sink(end),
            },
            Ok(None) => return ended(refused, finish(rt, alloc, answering, &mut out, sink)),
            Err(end) => return stopped_by_source(end),
        }
    }
}

/// Has a line answered, and writes the answer; `out` is room for it.
fn answer<R: Threads + Sync, K: Sink, G: Gate + Sync, W: Views>(
    rt: &R,
    alloc: Global,
    answering: &mut Answering<W>,
    line: &[u8],
    out: &mut Vec<u8>,
    sink: &mut K,
    gate: &G,
) -> Result<bool, SinkEnd>
    requires ready { IsReady answering.old }
    requires few { count_of answering.old ≤ INPUT_LIMIT + 1 }
    ensures taken { IfOk result (λ refused. (course : Course) → Goes W.shows answering.old course → (next : Course) × Goes W.shows answering.new next × ((written : List ℕ) × Appends (K.held sink.old) (K.held sink.new) written × Takes course next line.now refused written)) }
    ensures front { OnErr result ((course : Course) (lines : List (List ℕ)) → Goes W.shows answering.old course → AppendsFront (K.held sink.old) (K.held sink.new) (course.text (line.now ∷ lines))) }
    ensures ready { OnOk result (IsReady answering.new) }
    ensures count { OnOk result (count_of answering.new ≤ count_of answering.old + 1) }
    ensures counts { K.fault_count sink.old ≤ K.fault_count sink.new }
    ensures failed { IsErrOf result SinkEnd.Failed → Rose (K.fault_count sink.old) (K.fault_count sink.new) }
{
    out.clear();
    let refused = match answering.take(rt, alloc, line, out, gate) {
        Ok(refused) => refused,
        Err(NoMemory) => return Err(SinkEnd::NoMemory),
    };
    match write_all(sink, out) {
        Ok(()) => Ok(refused),
        Err(end) => Err(end),
    }
}

/// Writes what is to be written at the end of the input; `out` is room for it.
fn finish<R: Threads + Sync, K: Sink, W: Views>(
    rt: &R,
    alloc: Global,
    answering: &mut Answering<W>,
    out: &mut Vec<u8>,
    sink: &mut K,
) -> Result<bool, SinkEnd>
    requires ready { IsReady answering.old }
    requires few { count_of answering.old ≤ INPUT_LIMIT + 1 }
    ensures all { IfOk result (λ refused. (course : Course) → Goes W.shows answering.old course → Appends (K.held sink.old) (K.held sink.new) (course.text []) × (refused ≡ course.refuses [])) }
    ensures front { OnErr result ((course : Course) → Goes W.shows answering.old course → AppendsFront (K.held sink.old) (K.held sink.new) (course.text [])) }
    ensures counts { K.fault_count sink.old ≤ K.fault_count sink.new }
    ensures failed { IsErrOf result SinkEnd.Failed → Rose (K.fault_count sink.old) (K.fault_count sink.new) }
{
    out.clear();
    let refused = match answering.finish(rt, alloc, out) {
        Ok(refused) => refused,
        Err(NoMemory) => return Err(SinkEnd::NoMemory),
    };
    match write_all(sink, out) {
        Ok(()) => Ok(refused),
        Err(end) => Err(end),
    }
}

fn stopped_by_source(end: LineEnd) -> Outcome
    ensures { result ≡ outcome_of_source end }
{
    match end {
        LineEnd::Failed => Outcome::ReadFault,
        LineEnd::TooLong => Outcome::TooLong,
        LineEnd::NoMemory => Outcome::NoMemory,
    }
}

fn stopped_by_sink(end: SinkEnd) -> Outcome
    ensures { result ≡ outcome_of_sink end }
{
    match end {
        SinkEnd::Failed => Outcome::WriteFault,
        SinkEnd::NoMemory => Outcome::NoMemory,
    }
}

/// Where all was written; `refused` says whether something was refused before the end.
fn ended(refused: bool, end: Result<bool, SinkEnd>) -> Outcome
    ensures { MatchResult end (λ more. MatchBool (refused || more) (result ≡ Outcome.SomeRefused) (result ≡ Outcome.Done)) (λ stop. result ≡ outcome_of_sink stop) }
{
    match end {
        Ok(more) if or_refused(refused, more) => Outcome::SomeRefused,
        Ok(_) => Outcome::Done,
        Err(end) => stopped_by_sink(end),
    }
}
