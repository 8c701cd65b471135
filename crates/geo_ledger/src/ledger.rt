//! A ledger, which keeps the verdicts that were found.

ghost use Rattle.std.specs.Prelude.{◌≡◌, ◌≤◌, ◌<◌, [], filter, not, IfOk};
ghost use Rattle.std.specs.Borrow.{sem};
ghost use Rattle.geo_sketch.specs.Drops.{speaks_of};
ghost use Rattle.geo_sketch.specs.Sketches.{IsPosed};
ghost use Rattle.geo_degree.specs.VerdictFunction.{verdict_of};
ghost use Rattle.geo_degree.specs.Verdicts.{question_of};
ghost use Rattle.geo_guess.specs.Guesses.{IsGuessesOf};
ghost use Rattle.geo_ledger.specs.Ledgers.{AreKept, ledger_of};
ghost use Rattle.geo_ledger.specs.Lending.{StaysRight};
ghost use Rattle.geo_board.specs.declared.limits.TheConstants.{WORKER_LIMIT};

use crate::entry::Entry;
use crate::keeping::{keep, verdict_at};
use crate::listing::{list_claims, list_conjectures};
use geo_guess::Guesses;
use geo_settle::Gate;
use geo_sketch::{NoMemory, Sketch, Statement, Verdict};
use indexmap::IndexMap;
use std::alloc::Global;
use std::marker::Model;
use std::thread::Threads;

/// The verdicts that were found in a sketch, kept from one ledger to the next.
/// Contracts see the kept statements with their verdicts.
#[derive(Drop)]
pub struct Ledger {
    kept: IndexMap<Statement, Verdict>,
    /// The ledger as it was last asked for.
    list: Vec<Entry>,
}

impl Model for Ledger {
    ghost use Rattle.std.specs.Prelude.{List};
    ghost use Rattle.geo_sketch.specs.declared.statements.Statement.{Statement as Posed};
    ghost use Rattle.geo_sketch.specs.declared.verdicts.Verdict.{Verdict as Found};

    ghost Value = { List (Posed × Found) };

    ghost view = { λ l. l.kept.entries };
}

impl Ledger {
    /// A ledger that keeps nothing.
    pub fn new(alloc: Global) -> Ledger
        ensures { result ≡ [] }
    {
        Ledger {
            kept: IndexMap::new(alloc),
            list: Vec::new(alloc),
        }
    }

    /// The ledger of the sketch: its conjectures in their order, then the claims that are none of
    /// them in the order of claiming, each with its verdict, kept or found now by so many
    /// workers, who tell the gate of their claims.
    pub fn entries<R: Threads + Sync, G: Gate + Sync>(
        &mut self,
        rt: &R,
        alloc: Global,
        sketch: &Sketch,
        guesses: &Guesses,
        workers: u64,
        gate: &G,
    ) -> Result<&[Entry], NoMemory>
        requires workers { (0 < workers) × (workers ≤ WORKER_LIMIT) }
        requires guesses { IsGuessesOf guesses.now sketch.now }
        requires kept { AreKept sketch.now self.old }
        ensures entries { IfOk result (λ entries. entries.now ≡ ledger_of sketch.now) }
        ensures* kept { sem 𝓛 (StaysRight sketch.now self.entry) }
    {
        self.list.clear();
        let kept = &mut self.kept;
        list_conjectures(
            rt,
            kept,
            &mut self.list,
            alloc,
            sketch,
            guesses,
            workers,
            gate,
        )?;
        list_claims(
            rt,
            kept,
            &mut self.list,
            alloc,
            sketch,
            guesses,
            workers,
            gate,
        )?;
        Ok(&self.list)
    }

    /// The verdict of a statement, kept or found now by so many workers, who tell the gate of
    /// their claims.
    pub fn verdict<R: Threads + Sync, G: Gate + Sync>(
        &mut self,
        rt: &R,
        alloc: Global,
        sketch: &Sketch,
        s: &Statement,
        workers: u64,
        gate: &G,
    ) -> Result<&Verdict, NoMemory>
        requires workers { (0 < workers) × (workers ≤ WORKER_LIMIT) }
        requires posed { IsPosed sketch.now.elements s.now }
        requires kept { AreKept sketch.now self.old }
        ensures verdict { IfOk result (λ r. r.now ≡ verdict_of (question_of sketch.now.elements s.now)) }
        ensures* kept { sem 𝓛 (StaysRight sketch.now self.entry) }
    {
        let place = keep(rt, &mut self.kept, alloc, sketch, s, workers, gate)?;
        Ok(verdict_at(&self.kept, place))
    }

    /// Lets go of exactly the verdicts whose statements name element n. It takes no
    /// memory.
    pub fn forget(&mut self, n: u32)
        ensures { self.new ≡ filter (λ e. not (speaks_of e.0 n)) self.old }
    {
        self.kept.retain(|s, _| !s.names(n));
    }
}
