//! The conjectures of a sketch, kept as elements come and leave.

ghost use Rattle.std.specs.Prelude.{◌≡◌, IfOk, OnErr, OnOk, filter, not};
ghost use Rattle.geo_sketch.specs.Drops.{speaks_of};
ghost use Rattle.geo_sketch.specs.Sketches.{blank, Drawing};
ghost use Rattle.geo_guess.specs.Conjectures.{conjectures_of, IsWithout};
ghost use Rattle.geo_guess.specs.Guesses.{IsGuessesOf};
ghost use Rattle.geo_guess.specs.Samples.{AreLow, AreSamples};

use crate::candidates::statements_from;
use crate::order::put_all;
use crate::samples::{keep, let_go, triples_in};
use crate::scan::conjectures_naming;
use geo_sketch::{NoMemory, SAMPLE_COUNT, Sketch, Statement};
use geo_triple::Triple;
use std::alloc::Global;
use std::marker::Model;
use std::thread::Threads;

/// The conjectures of a sketch. Whoever changes the sketch tells them of each element that comes
/// or leaves; drags, claims and duality leave them as they are.
#[derive(Drop)]
pub struct Guesses {
    list: Vec<Statement>,
    /// The triples of the elements at the sample positions, by number.
    samples: Vec<[Triple; SAMPLE_COUNT]>,
}

impl Model for Guesses {
    ghost use Rattle.geo_guess.specs.Guesses.{Noticed};

    ghost Value = { Noticed };

    ghost view = { λ g. record { list = g.list.items; samples = g.samples.items } };
}

impl Guesses {
    /// Those of the empty sketch.
    pub fn new(alloc: Global) -> Guesses
        ensures { IsGuessesOf result blank }
    {
        Guesses {
            list: Vec::new(alloc),
            samples: Vec::new(alloc),
        }
    }

    /// Element n was added or came back. Its triples at the sample positions are found, from those
    /// of the elements that its definition names, and the statements that name it are tried there
    /// by several threads.
    pub fn added<R: Threads + Sync>(
        &mut self,
        rt: &R,
        alloc: Global,
        sketch: &Sketch,
        n: u32,
    ) -> Result<(), NoMemory>
        requires { (rest : Drawing) × IsWithout sketch.now rest n × IsGuessesOf self.old rest }
        ensures after { OnOk result (IsGuessesOf self.new sketch.now) }
        ensures unchanged { OnErr result ((rest : Drawing) → IsWithout sketch.now rest n → IsGuessesOf self.old rest → IsGuessesOf self.new rest) }
    {
        let triples = triples_in(&self.samples, sketch, n);
        keep(&mut self.samples, n, triples)?;
        match list_with(rt, alloc, &self.list, sketch, &self.samples, n) {
            Ok(list) => {
                self.list = list;
                Ok(())
            }
            Err(_) => {
                let_go(&mut self.samples, n);
                Err(NoMemory)
            }
        }
    }

    /// Element n left, which takes no memory.
    pub fn dropped(&mut self, n: u32)
        ensures kept { self.new.list ≡ filter (λ s. not (speaks_of s n)) self.old.list }
        ensures after { (drawing rest : Drawing) → IsWithout drawing rest n → IsGuessesOf self.old drawing → IsGuessesOf self.new rest }
    {
        forget(&mut self.list, n);
        let_go(&mut self.samples, n);
    }

    /// The conjectures, in their order.
    pub fn list(&self) -> &[Statement]
        ensures { result.now ≡ self.now.list }
    {
        &self.list
    }
}

/// The list with the conjectures that name element n in their places.
fn list_with<R: Threads + Sync>(
    rt: &R,
    alloc: Global,
    kept: &[Statement],
    sketch: &Sketch,
    samples: &[[Triple; SAMPLE_COUNT]],
    n: u32,
) -> Result<Vec<Statement>, NoMemory>
    requires without { (rest : Drawing) × IsWithout sketch.now rest n × (kept.now ≡ conjectures_of rest.elements) }
    requires samples { AreSamples sketch.now.elements samples.now }
    requires low { AreLow samples.now }
    ensures { IfOk result (λ list. list.items ≡ conjectures_of sketch.now.elements) }
{
    let statements = statements_from(alloc, sketch.elements(), n)?;
    match conjectures_naming(rt, alloc, sketch, samples, n, statements) {
        Ok(found) => put_all(alloc, kept, &found),
        Err(_) => Err(NoMemory),
    }
}

/// Takes out the statements that name element n.
fn forget(list: &mut Vec<Statement>, n: u32)
    ensures { list.new.items ≡ filter (λ s. not (speaks_of s n)) list.old.items }
{
    list.retain(
        |s: &Statement| -> bool
            ensures { result ≡ not (speaks_of s.now n) }
        { !s.names(n) },
    );
}
