//! Lines that read as no command, and steps of derivation.

ghost use Rattle.std.specs.Prelude.{◌≡◌, ◌<◌, ◌≤◌, ◌++◌, Err, IfOk, OnOk};
ghost use Rattle.geo_sketch.specs.Sketches.{ArePosed, IsPosed};
ghost use Rattle.geo_parse.specs.Words.{words};
ghost use Rattle.geo_infer.specs.Derivations.{are_known, conclusion_by, inference_of, is_known, is_proved, judged};
ghost use Rattle.geo_infer.specs.Shapes.{IsPosedShape, shape_of};
ghost use Rattle.geo_infer.specs.Words.{begins_with};
ghost use Rattle.geo_ledger.specs.Ledgers.{AreKept};
ghost use Rattle.geo_session.specs.Answers.{State, answer_beside, answer_by, concluded, drawing_of, is_no_command};
ghost use Rattle.geo_session.specs.LedgerTexts.{inferred_line};
ghost use Rattle.geo_session.specs.Standing.{IsAt, Gives};
ghost use Rattle.geo_session.specs.Together.{IsTogether};
ghost use Rattle.geo_board.specs.declared.limits.TheConstants.{WORKER_LIMIT};

use crate::desk::Desk;
use crate::ledger_texts::write_statement;
use crate::state::Reply;
use geo_infer::{Premises, SaidStep, Shape, is_plain, not_null_somewhere, read_step, shape_of};
use geo_ledger::Ledger;
use geo_parse::split_words;
use geo_settle::Gate;
use geo_sketch::{Element, NoMemory, Refusal, Sketch, Statement, Verdict};
use geo_view::Views;
use std::alloc::{AllocError, Global};
use std::thread::Threads;

impl<W: Views> Desk<W> {
    /// Answers a line that the grammar refuses.
    pub(crate) fn answer_unread<R: Threads + Sync, G: Gate + Sync>(
        &mut self,
        rt: &R,
        alloc: Global,
        line: &[u8],
        refusal: Refusal,
        out: &mut Vec<u8>,
        gate: &G,
    ) -> Result<Reply, NoMemory>
        requires { IsTogether self.old }
        ensures gives { IfOk result (λ reply. (state : State) → IsAt W.shows self.old state → Gives (answer_by state line.now (Err refusal)) reply out.old.items out.new.items (IsAt W.shows self.new)) }
        ensures together { OnOk result (IsTogether self.new) }
    {
        if is_no_command(refusal) {
            self.answer_beside(rt, alloc, line, out, gate)
        } else {
            self.refuse(alloc, refusal, out)
        }
    }

    /// Answers a line that reads as no command, by its first word.
    fn answer_beside<R: Threads + Sync, G: Gate + Sync>(
        &mut self,
        rt: &R,
        alloc: Global,
        line: &[u8],
        out: &mut Vec<u8>,
        gate: &G,
    ) -> Result<Reply, NoMemory>
        requires { IsTogether self.old }
        ensures gives { IfOk result (λ reply. (state : State) → IsAt W.shows self.old state → Gives (answer_beside state line.now) reply out.old.items out.new.items (IsAt W.shows self.new)) }
        ensures together { OnOk result (IsTogether self.new) }
    {
        if begins_with(line, b"infer") {
            self.infer(rt, alloc, line, out, gate)
        } else if begins_with(line, b"zero") {
            self.zero(rt, alloc, line, out, gate)
        } else {
            self.refuse(alloc, Refusal::Command, out)
        }
    }

    /// Answers the step that a line says.
    fn infer<R: Threads + Sync, G: Gate + Sync>(
        &mut self,
        rt: &R,
        alloc: Global,
        line: &[u8],
        out: &mut Vec<u8>,
        gate: &G,
    ) -> Result<Reply, NoMemory>
        requires { IsTogether self.old }
        ensures gives { IfOk result (λ reply. (state : State) → IsAt W.shows self.old state → Gives (concluded state (inference_of (drawing_of state).elements line.now)) reply out.old.items out.new.items (IsAt W.shows self.new)) }
        ensures together { OnOk result (IsTogether self.new) }
    {
        match read_step(line) {
            Ok(said) => self.take_step(rt, alloc, &said, out, gate),
            Err(refusal) => self.refuse(alloc, refusal, out),
        }
    }

    fn take_step<R: Threads + Sync, G: Gate + Sync>(
        &mut self,
        rt: &R,
        alloc: Global,
        said: &SaidStep,
        out: &mut Vec<u8>,
        gate: &G,
    ) -> Result<Reply, NoMemory>
        requires { IsTogether self.old }
        ensures gives { IfOk result (λ reply. (state : State) → IsAt W.shows self.old state → Gives (concluded state (conclusion_by (drawing_of state).elements (shape_of (drawing_of state).elements said.now))) reply out.old.items out.new.items (IsAt W.shows self.new)) }
        ensures together { OnOk result (IsTogether self.new) }
    {
        match shape_of(&self.sketch, said) {
            Ok(shape) => self.judge(rt, alloc, &shape, out, gate),
            Err(refusal) => self.refuse(alloc, refusal, out),
        }
    }

    /// Writes the conclusion, where all premises are known and the side condition is not null
    /// somewhere.
    fn judge<R: Threads + Sync, G: Gate + Sync>(
        &mut self,
        rt: &R,
        alloc: Global,
        shape: &Shape,
        out: &mut Vec<u8>,
        gate: &G,
    ) -> Result<Reply, NoMemory>
        requires posed { IsPosedShape self.old.sketch.elements shape.now }
        requires together { IsTogether self.old }
        ensures gives { IfOk result (λ reply. (state : State) → IsAt W.shows self.old state → Gives (concluded state (judged (drawing_of state).elements shape.now)) reply out.old.items out.new.items (IsAt W.shows self.new)) }
        ensures together { OnOk result (IsTogether self.new) }
    {
        let workers = self.workers.count;
        let ledger = &mut self.followers.ledger;
        if !are_known(
            rt,
            ledger,
            alloc,
            &self.sketch,
            &shape.premises,
            workers,
            gate,
        )? {
            return self.refuse(alloc, Refusal::Unproved, out);
        }
        if !not_null_somewhere(alloc, &self.sketch, &shape.side)? {
            return self.refuse(alloc, Refusal::Degenerate, out);
        }
        match write_inferred(self.sketch.elements(), &shape.conclusion, out) {
            Ok(()) => Ok(Reply::Accepted),
            Err(_) => Err(NoMemory),
        }
    }
}

/// Whether it says that the line reads as no command.
fn is_no_command(refusal: Refusal) -> bool
    ensures { result ≡ is_no_command refusal }
{
    matches!(refusal, Refusal::Command)
}

/// Whether the first word of the line is this one.
fn begins_with(line: &[u8], word: &[u8]) -> bool
    ensures { result ≡ begins_with word.now (words line.now) }
{
    match split_words(line).next() {
        Some(first) => first == word,
        None => false,
    }
}

/// Whether each premise holds by construction or is proved; those that are settled are kept.
fn are_known<R: Threads + Sync, G: Gate + Sync>(
    rt: &R,
    ledger: &mut Ledger,
    alloc: Global,
    sketch: &Sketch,
    premises: &Premises,
    workers: u64,
    gate: &G,
) -> Result<bool, NoMemory>
    requires workers { (0 < workers) × (workers ≤ WORKER_LIMIT) }
    requires posed { ArePosed sketch.now.elements premises.now }
    requires kept { AreKept sketch.now ledger.old }
    ensures known { IfOk result (λ known. known ≡ are_known sketch.now.elements premises.now) }
    ensures kept { OnOk result (AreKept sketch.now ledger.new) }
{
    for k in 0..premises.len() {
        match premises.get(k) {
            Some(premise) => {
                if !is_known(rt, ledger, alloc, sketch, &premise, workers, gate)? {
                    return Ok(false);
                }
            }
            None => unreachable!(),
        }
    }
    Ok(true)
}

fn is_known<R: Threads + Sync, G: Gate + Sync>(
    rt: &R,
    ledger: &mut Ledger,
    alloc: Global,
    sketch: &Sketch,
    premise: &Statement,
    workers: u64,
    gate: &G,
) -> Result<bool, NoMemory>
    requires workers { (0 < workers) × (workers ≤ WORKER_LIMIT) }
    requires posed { IsPosed sketch.now.elements premise.now }
    requires kept { AreKept sketch.now ledger.old }
    ensures known { IfOk result (λ known. known ≡ is_known sketch.now.elements premise.now) }
    ensures kept { OnOk result (AreKept sketch.now ledger.new) }
{
    if is_plain(sketch, premise) {
        return Ok(true);
    }
    Ok(is_proved(ledger.verdict(rt, alloc, sketch, premise, workers, gate)?))
}

fn is_proved(verdict: &Verdict) -> bool
    ensures { result ≡ is_proved verdict.now }
{
    matches!(verdict, Verdict::Proved)
}

fn write_inferred(
    elements: &[Element],
    statement: &Statement,
    out: &mut Vec<u8>,
) -> Result<(), AllocError>
    ensures { OnOk result (out.new.items ≡ out.old.items ++ inferred_line elements.now statement.now) }
{
    out.extend_from_slice(b"inferred ")?;
    write_statement(elements, statement, out)?;
    out.extend_from_slice(b"\n")
}
