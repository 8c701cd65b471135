//! A generated script, carried out and counted.

ghost use Rattle.std.specs.Prelude.{◌≡◌, ℕ, ◌+◌, ◌≤◌, ◌++◌, ◌==◌, ◌^◌, ◌<◌, List, [], codes, length, IfOk, OnOk, OnErr, IsErrOf};
ghost use Rattle.std.specs.Io.KnownBytes.{Appends};
ghost use Rattle.std.specs.List.{starts_with};
ghost use Rattle.geo_io.specs.Faults.{Rose};
ghost use Rattle.geo_io.specs.Lines.{lines_of};
ghost use Rattle.geo_io.specs.Pieces.{AppendsFront};
ghost use Rattle.geo_session.specs.Answers.{State, start, answer_of};
ghost use Rattle.geo_session.specs.Standing.{StandsFor};
ghost use Rattle.geo_app.specs.Generated.{answered_from, asks_text, generated_text, lines_that_begin, tally_of};
ghost use Rattle.geo_app.specs.Counting.{IsCounted};
ghost use Rattle.geo_board.specs.declared.limits.TheConstants.{WORKER_LIMIT};

use geo_gen::{Tally, script, summary};
use geo_io::{Sink, SinkEnd, split_line, write_all};
use geo_session::{Reply, Session};
use geo_settle::Gate;
use geo_sketch::NoMemory;
use geo_view::{NoViews, Views};
use std::alloc::Global;
use std::thread::Threads;

/// How many lines were answered so far, and what the ledgers among the replies say.
#[derive(Drop)]
pub struct Counts {
    pub lines: u64,
    pub ok: u64,
    pub refused: u64,
    pub ledger: Vec<u8>,
}

/// Carries out the script of a seed, and writes the line that counts its answers.
pub(crate) fn run_generated<R: Threads + Sync, K: Sink, G: Gate + Sync>(
    rt: &R,
    alloc: Global,
    seed: u32,
    workers: u64,
    sink: &mut K,
    gate: &G,
) -> Result<(), SinkEnd>
    requires { (0 < workers) × (workers ≤ WORKER_LIMIT) }
    ensures all { OnOk result (Appends (K.held sink.old) (K.held sink.new) (generated_text seed)) }
    ensures front { OnErr result (AppendsFront (K.held sink.old) (K.held sink.new) (generated_text seed)) }
    ensures counts { K.fault_count sink.old ≤ K.fault_count sink.new }
    ensures failed { IsErrOf result SinkEnd.Failed → Rose (K.fault_count sink.old) (K.fault_count sink.new) }
{
    match summarise(rt, alloc, seed, workers, gate) {
        Ok(line) => write_all(sink, &line),
        Err(NoMemory) => Err(SinkEnd::NoMemory),
    }
}

/// The line that counts the answers to the script of a seed.
fn summarise<R: Threads + Sync, G: Gate + Sync>(
    rt: &R,
    alloc: Global,
    seed: u32,
    workers: u64,
    gate: &G,
) -> Result<Vec<u8>, NoMemory>
    requires { (0 < workers) × (workers ≤ WORKER_LIMIT) }
    ensures { IfOk result (λ line. line.items ≡ generated_text seed) }
{
    let Ok(bytes) = script(alloc, seed) else {
        return Err(NoMemory);
    };
    let tally = count_answers(rt, alloc, &bytes, workers, gate)?;
    let mut line = Vec::new(alloc);
    match summary(alloc, seed, &tally, &mut line) {
        Ok(()) => Ok(line),
        Err(_) => Err(NoMemory),
    }
}

/// Carries out a script, and counts how its lines are answered.
fn count_answers<R: Threads + Sync, G: Gate + Sync>(
    rt: &R,
    alloc: Global,
    bytes: &[u8],
    workers: u64,
    gate: &G,
) -> Result<Tally, NoMemory>
    requires { (0 < workers) × (workers ≤ WORKER_LIMIT) }
    ensures { IfOk result (λ tally. tally ≡ tally_of (answered_from (start []) (lines_of bytes.now))) }
{
    let mut session = Session::new(alloc, NoViews, workers);
    count_all(rt, alloc, &mut session, bytes, gate)
}

/// Carries out the lines of a script on a session with nothing done, and counts how they are
/// answered.
fn count_all<R: Threads + Sync, G: Gate + Sync, W: Views>(
    rt: &R,
    alloc: Global,
    session: &mut Session<W>,
    bytes: &[u8],
    gate: &G,
) -> Result<Tally, NoMemory>
    requires { StandsFor W.shows session.old (start []) }
    ensures { IfOk result (λ tally. tally ≡ tally_of (answered_from (start []) (lines_of bytes.now))) }
{
    let mut counts = Counts {
        lines: 0,
        ok: 0,
        refused: 0,
        ledger: Vec::new(alloc),
    };
    let mut rest = bytes;
    while let Some((line, after)) = split_line(rest) {
        count_line(rt, alloc, session, line, &mut counts, gate)?;
        rest = after;
    }
    Ok(Tally {
        lines: counts.lines,
        ok: counts.ok,
        refused: counts.refused,
        proved: count_lines(&counts.ledger, b"proved "),
        falsified: count_lines(&counts.ledger, b"false "),
        unsettled: count_lines(&counts.ledger, b"unsettled "),
    })
}

/// Carries out one line, and counts its answer.
fn count_line<R: Threads + Sync, G: Gate + Sync, W: Views>(
    rt: &R,
    alloc: Global,
    session: &mut Session<W>,
    line: &[u8],
    counts: &mut Counts,
    gate: &G,
) -> Result<(), NoMemory>
    requires room { counts.old.lines + 1 < 2 ^ 64 }
    requires few_ok { counts.old.ok ≤ counts.old.lines }
    requires few_refused { counts.old.refused ≤ counts.old.lines }
    ensures { OnOk result ((state : State) → StandsFor W.shows session.old state → IsCounted W.shows state line.now counts.old counts.new session.new) }
{
    let mut text = Vec::new(alloc);
    let reply = session.line(rt, alloc, line, &mut text, gate)?;
    if line == b"ledger".as_slice() && counts.ledger.extend_from_slice(&text).is_err() {
        return Err(NoMemory);
    }
    counts.lines += 1;
    match reply {
        Reply::Accepted if !asks_text(line) => counts.ok += 1,
        Reply::Refused(_) => counts.refused += 1,
        Reply::Accepted | Reply::Nothing => {}
    }
    Ok(())
}

fn asks_text(line: &[u8]) -> bool
    ensures { result ≡ asks_text line.now }
{
    line == b"screen".as_slice() || line == b"ledger".as_slice()
}

/// How many lines of a text begin with a word.
fn count_lines(text: &[u8], word: &[u8]) -> u64
    ensures { result ≡ lines_that_begin word.now text.now }
{
    let mut count = 0;
    let mut rest = text;
    while let Some((line, after)) = split_line(rest) {
        if line.starts_with(word) {
            count += 1;
        }
        rest = after;
    }
    count
}
