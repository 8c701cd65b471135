//! How a session takes a line.

ghost use Rattle.std.specs.Prelude.{◌≡◌, ◌<◌, ◌≤◌, ◌++◌, List, Ok, IfOk, OnErr, IsErr};
ghost use Rattle.geo_sketch.specs.declared.changes.Refusal.{Refusal as Reason};
ghost use Rattle.geo_view.specs.declared.shown.ViewKind.{ViewKind};
ghost use Rattle.geo_session.specs.Answers.{State, start, answer_of, counted};
ghost use Rattle.geo_session.specs.Printed.{AreTrue};
ghost use Rattle.geo_session.specs.Standing.{StandsFor, Gives, IsSpent};
ghost use Rattle.geo_session.specs.Texts.{refusal_line};
ghost use Rattle.geo_session.specs.Views.{empty_views};
ghost use Rattle.geo_board.specs.declared.limits.TheConstants.{WORKER_LIMIT};

use crate::desk::Desk;
use crate::laws::refused_lines_change_nothing;
use crate::state::{Reply, Session};
use geo_bracket::verdicts_on_expressions;
use geo_degree::verdict_of_is_the_verdict;
use geo_infer::inferences_are_derivations;
use geo_settle::Gate;
use geo_sketch::NoMemory;
use geo_view::Views;
use std::alloc::Global;
use std::thread::Threads;

impl<W: Views> Session<W> {
    /// A session with nothing done. The views are told of every change, and are dropped with
    /// the session, where they were not closed before. So many workers share the search over
    /// each grid.
    pub fn new(alloc: Global, views: W, workers: u64) -> Session<W>
        requires { (0 < workers) × (workers ≤ WORKER_LIMIT) }
        ensures { (kinds : List ViewKind) → W.shows views ≡ empty_views kinds → StandsFor W.shows result (start kinds) }
    {
        Session {
            desk: Desk::new(alloc, views, workers),
            spent: false,
        }
    }

    /// Takes the next line of the script, without its line break, and appends the
    /// reply to `out`. Several threads try what may hold where an element comes, and the
    /// workers that settle a statement tell the gate of their claims. After NoMemory the
    /// session is spent: it answers NoMemory to every later line, and what was appended may
    /// be a part of the reply.
    pub fn line<R: Threads + Sync, G: Gate + Sync>(
        &mut self,
        rt: &R,
        alloc: Global,
        line: &[u8],
        out: &mut Vec<u8>,
        gate: &G,
    ) -> Result<Reply, NoMemory>
        ensures answer { IfOk result (λ reply. (state : State) → StandsFor W.shows self.old state → Gives (answer_of state line.now) reply out.old.items out.new.items (StandsFor W.shows self.new)) }
        ensures refused { (r : Reason) → result ≡ Ok (Reply.Refused r) → (state : State) → StandsFor W.shows self.old state → StandsFor W.shows self.new (counted state) × (out.new.items ≡ out.old.items ++ refusal_line (counted state).count r) }
        ensures true_verdicts { (state : State) → StandsFor W.shows self.old state → AreTrue (answer_of state line.now).printed }
        ensures spent { OnErr result (IsSpent self.new) }
        ensures stays_spent { IsSpent self.old → IsErr result }
    {
        if self.spent {
            return Err(NoMemory);
        }
        refused_lines_change_nothing();
        verdict_of_is_the_verdict();
        inferences_are_derivations();
        verdicts_on_expressions();
        // By its contract the sketch is drawn, as the verdicts have to know.
        let _drawn = self.desk.sketch.elements();
        // Spent, unless the line is answered to its end.
        self.spent = true;
        let reply = self.desk.line(rt, alloc, line, out, gate)?;
        self.spent = false;
        Ok(reply)
    }
}
