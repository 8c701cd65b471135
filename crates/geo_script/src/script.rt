//! A script with tools, carried out line by line.

ghost use Rattle.std.specs.Prelude.{◌≡◌, ℕ, ◌<◌, ◌≤◌, List, ◌||◌, IfOk};
ghost use Rattle.geo_view.specs.declared.shown.ViewKind.{ViewKind};
ghost use Rattle.geo_session.specs.Answers.{State, is_refused};
ghost use Rattle.geo_session.specs.Standing.{StandsFor};
ghost use Rattle.geo_session.specs.Views.{empty_views};
ghost use Rattle.geo_script.specs.Places.{Place, StandsAt, AreCarriedOut, beginning, given_at, place_after};
ghost use Rattle.geo_board.specs.declared.limits.TheConstants.{WORKER_LIMIT};

use geo_session::{Reply, Session};
use geo_settle::Gate;
use geo_sketch::NoMemory;
use geo_tool::{Expanded, Expander};
use geo_view::Views;
use std::alloc::Global;
use std::thread::Threads;

/// A script under way: its session, the tools that it has defined, and the lines that its
/// last line gave.
#[derive(Drop)]
pub struct Script<W: Drop> {
    session: Session<W>,
    expander: Expander,
    given: Expanded,
}

impl<W: Views> Script<W> {
    /// A script of which no line was taken, with the views of its session. So many workers
    /// share the search over each grid.
    pub fn new(alloc: Global, views: W, workers: u64) -> Script<W>
        requires { (0 < workers) × (workers ≤ WORKER_LIMIT) }
        ensures { (kinds : List ViewKind) → W.shows views ≡ empty_views kinds → StandsAt W.shows result (beginning kinds) }
    {
        Script {
            session: Session::new(alloc, views, workers),
            expander: Expander::new(alloc),
            given: Expanded::new(alloc),
        }
    }

    /// Takes the next line, carries out each line that it gives, and appends the replies to
    /// `out`; answers whether one of them was refused. After NoMemory it can only be dropped.
    pub fn take<R: Threads + Sync, G: Gate + Sync>(
        &mut self,
        rt: &R,
        alloc: Global,
        line: &[u8],
        out: &mut Vec<u8>,
        gate: &G,
    ) -> Result<bool, NoMemory>
        ensures carried_out { IfOk result (λ refused. (place : Place) → StandsAt W.shows self.old place → AreCarriedOut place.state (given_at place line.now) refused out.old.items out.new.items (StandsFor W.shows self.new.session)) }
        ensures tools { IfOk result (λ refused. (place : Place) → StandsAt W.shows self.old place → StandsAt W.shows self.new (place_after place line.now)) }
    {
        self.given.clear();
        self.expander.feed(line, &mut self.given)?;
        carry_out_all(rt, alloc, &mut self.session, &self.given, out, gate)
    }
}

/// Carries out lines, and appends the replies; answers whether one of them was refused.
fn carry_out_all<R: Threads + Sync, G: Gate + Sync, W: Views>(
    rt: &R,
    alloc: Global,
    session: &mut Session<W>,
    lines: &Expanded,
    out: &mut Vec<u8>,
    gate: &G,
) -> Result<bool, NoMemory>
    ensures { IfOk result (λ refused. (state : State) → StandsFor W.shows session.old state → AreCarriedOut state lines.now refused out.old.items out.new.items (StandsFor W.shows session.new)) }
{
    let mut refused = false;
    for k in 0..lines.len() {
        match lines.get(k) {
            Some(line) => {
                let reply = session.line(rt, alloc, line, out, gate)?;
                refused = or_refused(refused, reply);
            }
            None => unreachable!(),
        }
    }
    Ok(refused)
}

fn or_refused(before: bool, reply: Reply) -> bool
    ensures { result ≡ (before || is_refused reply) }
{
    match reply {
        Reply::Refused(_) => true,
        Reply::Nothing | Reply::Accepted => before,
    }
}
