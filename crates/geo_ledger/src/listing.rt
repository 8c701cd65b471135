//! The entries of a ledger, one after the other.

ghost use Rattle.std.specs.Prelude.{◌≡◌, ◌≤◌, ◌<◌, ◌++◌, ◌∷◌, [], true, false, All, IfOk, OnOk, filter, map, not};
ghost use Rattle.geo_sketch.specs.Claims.{is_claimed};
ghost use Rattle.geo_sketch.specs.Sketches.{IsPosed};
ghost use Rattle.geo_guess.specs.Conjectures.{conjectures_of};
ghost use Rattle.geo_guess.specs.Guesses.{IsGuessesOf};
ghost use Rattle.geo_ledger.specs.Ledgers.{entry_in, further_claims, AreKept};
ghost use Rattle.geo_board.specs.declared.limits.TheConstants.{WORKER_LIMIT};

use crate::copies::copy_verdict;
use crate::entry::Entry;
use crate::keeping::{keep, verdict_at};
use geo_guess::{Guesses, what_is_listed_is_posed};
use geo_settle::Gate;
use geo_sketch::{NoMemory, Sketch, Statement, Verdict, has_claim};
use indexmap::IndexMap;
use std::alloc::Global;
use std::thread::Threads;

/// Appends an entry for each conjecture.
pub(crate) fn list_conjectures<R: Threads + Sync, G: Gate + Sync>(
    rt: &R,
    kept: &mut IndexMap<Statement, Verdict>,
    list: &mut Vec<Entry>,
    alloc: Global,
    sketch: &Sketch,
    guesses: &Guesses,
    workers: u64,
    gate: &G,
) -> Result<(), NoMemory>
    requires workers { (0 < workers) × (workers ≤ WORKER_LIMIT) }
    requires guesses { IsGuessesOf guesses.now sketch.now }
    requires kept { AreKept sketch.now kept.old.entries }
    ensures kept { AreKept sketch.now kept.new.entries }
    ensures listed { OnOk result (list.new.items ≡ list.old.items ++ map (λ s. entry_in sketch.now (s, true)) (conjectures_of sketch.now.elements)) }
{
    what_is_listed_is_posed();
    list_all(
        rt,
        kept,
        list,
        alloc,
        sketch,
        guesses.list(),
        true,
        workers,
        gate,
    )
}

/// Appends an entry for each claim that is no conjecture.
pub(crate) fn list_claims<R: Threads + Sync, G: Gate + Sync>(
    rt: &R,
    kept: &mut IndexMap<Statement, Verdict>,
    list: &mut Vec<Entry>,
    alloc: Global,
    sketch: &Sketch,
    guesses: &Guesses,
    workers: u64,
    gate: &G,
) -> Result<(), NoMemory>
    requires workers { (0 < workers) × (workers ≤ WORKER_LIMIT) }
    requires guesses { IsGuessesOf guesses.now sketch.now }
    requires kept { AreKept sketch.now kept.old.entries }
    ensures kept { AreKept sketch.now kept.new.entries }
    ensures listed { OnOk result (list.new.items ≡ list.old.items ++ map (λ s. entry_in sketch.now (s, false)) (further_claims sketch.now)) }
{
    let further = others_of(alloc, sketch.claims(), guesses.list())?;
    list_all(
        rt, kept, list, alloc, sketch, &further, false, workers, gate,
    )
}

/// Appends an entry for each statement.
fn list_all<R: Threads + Sync, G: Gate + Sync>(
    rt: &R,
    kept: &mut IndexMap<Statement, Verdict>,
    list: &mut Vec<Entry>,
    alloc: Global,
    sketch: &Sketch,
    statements: &[Statement],
    guessed: bool,
    workers: u64,
    gate: &G,
) -> Result<(), NoMemory>
    requires workers { (0 < workers) × (workers ≤ WORKER_LIMIT) }
    requires posed { All (IsPosed sketch.now.elements) statements.now }
    requires kept { AreKept sketch.now kept.old.entries }
    ensures kept { AreKept sketch.now kept.new.entries }
    ensures listed { OnOk result (list.new.items ≡ list.old.items ++ map (λ s. entry_in sketch.now (s, guessed)) statements.now) }
{
    for s in statements {
        let entry = entry_of(rt, kept, alloc, sketch, s, guessed, workers, gate)?;
        if list.push(entry).is_err() {
            return Err(NoMemory);
        }
    }
    Ok(())
}

/// What the ledger says of one statement.
fn entry_of<R: Threads + Sync, G: Gate + Sync>(
    rt: &R,
    kept: &mut IndexMap<Statement, Verdict>,
    alloc: Global,
    sketch: &Sketch,
    s: &Statement,
    guessed: bool,
    workers: u64,
    gate: &G,
) -> Result<Entry, NoMemory>
    requires workers { (0 < workers) × (workers ≤ WORKER_LIMIT) }
    requires posed { IsPosed sketch.now.elements s.now }
    requires kept { AreKept sketch.now kept.old.entries }
    ensures kept { AreKept sketch.now kept.new.entries }
    ensures entry { IfOk result (λ entry. entry ≡ entry_in sketch.now (s.now, guessed)) }
{
    let place = keep(rt, kept, alloc, sketch, s, workers, gate)?;
    Ok(Entry {
        statement: *s,
        guessed,
        verdict: copy_verdict(alloc, verdict_at(kept, place))?,
    })
}

/// The statements that do not stand among the others, in their order.
fn others_of(
    alloc: Global,
    statements: &[Statement],
    others: &[Statement],
) -> Result<Vec<Statement>, NoMemory>
    ensures { IfOk result (λ v. v.items ≡ filter (λ s. not (is_claimed others.now s)) statements.now) }
{
    match statements.to_vec(alloc) {
        Ok(mut left) => {
            leave_out(&mut left, others);
            Ok(left)
        }
        Err(_) => Err(NoMemory),
    }
}

/// Takes out the statements that stand among the others.
fn leave_out(list: &mut Vec<Statement>, others: &[Statement])
    ensures { list.new.items ≡ filter (λ s. not (is_claimed others.now s)) list.old.items }
{
    list.retain(
        |s: &Statement| -> bool
            ensures { result ≡ not (is_claimed others.entry.now s.now) }
        { !has_claim(others, s) },
    );
}
