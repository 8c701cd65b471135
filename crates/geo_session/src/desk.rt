//! The desk of a session: a sketch with its history, and what follows its changes.

ghost use Rattle.std.specs.Prelude.{◌≡◌, ◌<◌, ◌≤◌, List, IfOk, OnOk, [], ◌∷◌};
ghost use Rattle.geo_parse.specs.Printing.{IsWritable};
ghost use Rattle.geo_parse.specs.Reading.{read_of};
ghost use Rattle.geo_view.specs.declared.shown.ViewKind.{ViewKind as PictureKind};
ghost use Rattle.geo_session.specs.Answers.{State, start, answer_of, answer_by, answer_to, drawing_of, refused, replied};
ghost use Rattle.geo_session.specs.LedgerTexts.{conjectures_text};
ghost use Rattle.geo_session.specs.Printed.{Text, ledger_lines};
ghost use Rattle.geo_session.specs.Standing.{IsAt, Gives};
ghost use Rattle.geo_session.specs.Together.{IsTogether};
ghost use Rattle.geo_session.specs.Views.{empty_views};
ghost use Rattle.geo_board.specs.declared.limits.TheConstants.{WORKER_LIMIT};

use crate::followers::Followers;
use crate::ledger_texts::{write_conjectures, write_ledger};
use crate::state::Reply;
use crate::texts::write_refusal;
use crate::workers::Workers;
use geo_parse::{Command, read_line};
use geo_settle::Gate;
use geo_sketch::{NoMemory, Refusal, Sketch};
use geo_undo::History;
use geo_view::{ViewKind, Views};
use std::alloc::Global;
use std::thread::Threads;

/// A sketch with its history, what follows its changes, the views that show it, how many lines
/// were read, and by how many workers it is settled.
/// Where a call answers NoMemory these need no longer fit.
#[derive(Drop)]
pub struct Desk<W: Drop> {
    pub(crate) sketch: Sketch,
    pub(crate) history: History,
    pub(crate) followers: Followers,
    pub(crate) views: W,
    /// It stays at its last value.
    pub(crate) count: u64,
    pub(crate) workers: Workers,
}

impl<W: Views> Desk<W> {
    /// A desk with nothing done.
    pub(crate) fn new(alloc: Global, views: W, workers: u64) -> Desk<W>
        requires workers { (0 < workers) × (workers ≤ WORKER_LIMIT) }
        ensures at { (kinds : List PictureKind) → W.shows views ≡ empty_views kinds → IsAt W.shows result (start kinds) }
        ensures together { IsTogether result }
    {
        Desk {
            sketch: Sketch::new(alloc),
            history: History::new(alloc),
            followers: Followers::new(alloc),
            views,
            count: 0,
            workers: Workers { count: workers },
        }
    }

    /// Counts a line and answers it.
    pub(crate) fn line<R: Threads + Sync, G: Gate + Sync>(
        &mut self,
        rt: &R,
        alloc: Global,
        line: &[u8],
        out: &mut Vec<u8>,
        gate: &G,
    ) -> Result<Reply, NoMemory>
        requires { IsTogether self.old }
        ensures gives { IfOk result (λ reply. (state : State) → IsAt W.shows self.old state → Gives (answer_of state line.now) reply out.old.items out.new.items (IsAt W.shows self.new)) }
        ensures together { OnOk result (IsTogether self.new) }
    {
        self.count = self.count.saturating_add(1);
        self.answer(rt, alloc, line, out, gate)
    }

    /// Answers the line that was counted last.
    fn answer<R: Threads + Sync, G: Gate + Sync>(
        &mut self,
        rt: &R,
        alloc: Global,
        line: &[u8],
        out: &mut Vec<u8>,
        gate: &G,
    ) -> Result<Reply, NoMemory>
        requires { IsTogether self.old }
        ensures gives { IfOk result (λ reply. (state : State) → IsAt W.shows self.old state → Gives (answer_by state line.now (read_of line.now)) reply out.old.items out.new.items (IsAt W.shows self.new)) }
        ensures together { OnOk result (IsTogether self.new) }
    {
        match &read_line(line) {
            Err(refusal) => self.answer_unread(rt, alloc, line, *refusal, out, gate),
            Ok(None) => Ok(Reply::Nothing),
            Ok(Some(command)) => self.carry_out(rt, alloc, command, out, gate),
        }
    }

    /// Carries out a command on the line that was counted last.
    fn carry_out<R: Threads + Sync, G: Gate + Sync>(
        &mut self,
        rt: &R,
        alloc: Global,
        command: &Command,
        out: &mut Vec<u8>,
        gate: &G,
    ) -> Result<Reply, NoMemory>
        requires writable { IsWritable command.now }
        requires together { IsTogether self.old }
        ensures gives { IfOk result (λ reply. (state : State) → IsAt W.shows self.old state → Gives (answer_to state command.now) reply out.old.items out.new.items (IsAt W.shows self.new)) }
        ensures together { OnOk result (IsTogether self.new) }
    {
        match command {
            Command::Add(name, kind, spec) => self.add(rt, alloc, name, *kind, spec, out),
            Command::Drag(name, to) => self.drag(rt, alloc, name, *to, out),
            Command::Drop(name) => self.drop_element(rt, alloc, name, out),
            Command::Claim(said) => self.claim(rt, alloc, said, out),
            Command::Dual => self.dual(rt, alloc, out),
            Command::Undo => self.undo(rt, alloc, out),
            Command::Redo => self.redo(rt, alloc, out),
            Command::Screen => self.picture(alloc, ViewKind::Table, out),
            Command::Conjectures => self.conjectures(out),
            Command::Ledger => self.ledger(rt, alloc, out, gate),
            Command::Svg => self.picture(alloc, ViewKind::Plane, out),
            Command::Show(k) => self.show(alloc, *k, out),
            Command::Close(k) => self.close(alloc, *k, out),
            Command::Certify(said) => self.certify(rt, alloc, said, out, gate),
        }
    }

    /// Writes what seems to hold.
    fn conjectures(&self, out: &mut Vec<u8>) -> Result<Reply, NoMemory>
        requires { IsTogether self.now }
        ensures { IfOk result (λ reply. (state : State) → IsAt W.shows self.now state → Gives (replied state (Text (conjectures_text (drawing_of state)) ∷ [])) reply out.old.items out.new.items (IsAt W.shows self.now)) }
    {
        write_conjectures(&self.sketch, &self.followers.guesses, out)?;
        Ok(Reply::Accepted)
    }

    /// Writes the ledger of the sketch.
    fn ledger<R: Threads + Sync, G: Gate + Sync>(
        &mut self,
        rt: &R,
        alloc: Global,
        out: &mut Vec<u8>,
        gate: &G,
    ) -> Result<Reply, NoMemory>
        requires { IsTogether self.old }
        ensures gives { IfOk result (λ reply. (state : State) → IsAt W.shows self.old state → Gives (replied state (ledger_lines (drawing_of state))) reply out.old.items out.new.items (IsAt W.shows self.new)) }
        ensures together { OnOk result (IsTogether self.new) }
    {
        let followers = &mut self.followers;
        write_ledger(
            rt,
            alloc,
            &self.sketch,
            &followers.guesses,
            &mut followers.ledger,
            self.workers.count,
            gate,
            out,
        )?;
        Ok(Reply::Accepted)
    }

    /// Writes the line of a refusal.
    pub(crate) fn refuse(
        &self,
        alloc: Global,
        refusal: Refusal,
        out: &mut Vec<u8>,
    ) -> Result<Reply, NoMemory>
        ensures { IfOk result (λ reply. (state : State) → IsAt W.shows self.now state → Gives (refused state refusal) reply out.old.items out.new.items (IsAt W.shows self.now)) }
    {
        match write_refusal(alloc, self.count, refusal, out) {
            Ok(()) => Ok(Reply::Refused(refusal)),
            Err(_) => Err(NoMemory),
        }
    }
}
