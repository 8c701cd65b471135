//! Lines that ask whether an expression is 0 everywhere.

ghost use Rattle.std.specs.Prelude.{◌≡◌, ◌++◌, [], ◌∷◌, IfOk, OnOk};
ghost use Rattle.geo_degree.specs.VerdictFunction.{verdict_of};
ghost use Rattle.geo_bracket.specs.Expressions.{IsPosedExpression};
ghost use Rattle.geo_bracket.specs.Questions.{expression_question};
ghost use Rattle.geo_bracket.specs.Resolving.{expression_of, resolved};
ghost use Rattle.geo_session.specs.Answers.{State, drawing_of, replied, settled};
ghost use Rattle.geo_session.specs.Printed.{ZeroLine};
ghost use Rattle.geo_session.specs.Standing.{IsAt, Gives};
ghost use Rattle.geo_session.specs.Zeros.{zero_line};

use crate::desk::Desk;
use crate::ledger_texts::{word_of_verdict, write_values};
use crate::state::Reply;
use geo_bracket::{Expression, SaidExpression, read_expression, settle_zero};
use geo_settle::Gate;
use geo_sketch::{Element, NoMemory, Stop, Verdict};
use geo_view::Views;
use std::alloc::{AllocError, Global};
use std::thread::Threads;

impl<W: Views> Desk<W> {
    /// Answers what a line asks of an expression.
    pub(crate) fn zero<R: Threads + Sync, G: Gate + Sync>(
        &self,
        rt: &R,
        alloc: Global,
        line: &[u8],
        out: &mut Vec<u8>,
        gate: &G,
    ) -> Result<Reply, NoMemory>
        ensures { IfOk result (λ reply. (state : State) → IsAt W.shows self.now state → Gives (settled state (expression_of (drawing_of state).elements line.now)) reply out.old.items out.new.items (IsAt W.shows self.now)) }
    {
        match read_expression(alloc, line) {
            Ok(said) => self.ask(rt, alloc, &said, out, gate),
            Err(Stop::Refused(refusal)) => self.refuse(alloc, refusal, out),
            Err(Stop::NoMemory) => Err(NoMemory),
        }
    }

    fn ask<R: Threads + Sync, G: Gate + Sync>(
        &self,
        rt: &R,
        alloc: Global,
        said: &SaidExpression,
        out: &mut Vec<u8>,
        gate: &G,
    ) -> Result<Reply, NoMemory>
        ensures { IfOk result (λ reply. (state : State) → IsAt W.shows self.now state → Gives (settled state (resolved (drawing_of state).elements said.now)) reply out.old.items out.new.items (IsAt W.shows self.now)) }
    {
        match said.resolve(alloc, &self.sketch) {
            Ok(expression) => self.settle(rt, alloc, &expression, out, gate),
            Err(Stop::Refused(refusal)) => self.refuse(alloc, refusal, out),
            Err(Stop::NoMemory) => Err(NoMemory),
        }
    }

    /// Writes the verdict on an expression.
    fn settle<R: Threads + Sync, G: Gate + Sync>(
        &self,
        rt: &R,
        alloc: Global,
        expression: &Expression,
        out: &mut Vec<u8>,
        gate: &G,
    ) -> Result<Reply, NoMemory>
        requires { IsPosedExpression self.now.sketch.elements expression.now }
        ensures { IfOk result (λ reply. (state : State) → IsAt W.shows self.now state → Gives (replied state (ZeroLine (drawing_of state).elements expression.now (verdict_of (expression_question (drawing_of state).elements expression.now)) ∷ [])) reply out.old.items out.new.items (IsAt W.shows self.now)) }
    {
        let workers = self.workers.count;
        let verdict = settle_zero(rt, alloc, &self.sketch, expression, workers, gate)?;
        match write_zero(alloc, self.sketch.elements(), &verdict, out) {
            Ok(()) => Ok(Reply::Accepted),
            Err(_) => Err(NoMemory),
        }
    }
}

fn write_zero(
    alloc: Global,
    elements: &[Element],
    verdict: &Verdict,
    out: &mut Vec<u8>,
) -> Result<(), AllocError>
    ensures { OnOk result (out.new.items ≡ out.old.items ++ zero_line elements.now verdict.now) }
{
    out.extend_from_slice(word_of_verdict(verdict))?;
    out.extend_from_slice(b"zero")?;
    if let Verdict::False(values) = verdict {
        write_values(alloc, elements, values, out)?;
    }
    out.extend_from_slice(b"\n")
}
