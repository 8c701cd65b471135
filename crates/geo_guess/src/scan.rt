//! Trying candidates by several threads.

ghost use Rattle.std.specs.Prelude.{◌≡◌, ◌&&◌, IfOk, filter};
ghost use Rattle.geo_sketch.specs.Drops.{speaks_of};
ghost use Rattle.geo_guess.specs.Conjectures.{is_conjecture};
ghost use Rattle.geo_guess.specs.Samples.{AreLow, AreSamples};

use crate::trials::is_guessed;
use geo_sketch::{SAMPLE_COUNT, Sketch, Statement};
use geo_triple::Triple;
use rayon::prelude::*;
use std::alloc::{AllocError, Global};
use std::thread::Threads;

/// The statements among these that name element n and are conjectures, in their order.
pub(crate) fn conjectures_naming(
    rt: &(impl Threads + Sync),
    alloc: Global,
    sketch: &Sketch,
    samples: &[[Triple; SAMPLE_COUNT]],
    n: u32,
    statements: Vec<Statement>,
) -> Result<Vec<Statement>, AllocError>
    requires samples { AreSamples sketch.now.elements samples.now }
    requires low { AreLow samples.now }
    ensures { IfOk result (λ v. v.items ≡ filter (λ s. speaks_of s n && is_conjecture sketch.now.elements s) statements.items) }
{
    statements
        .into_par_iter()
        .filter(
            |s: &Statement| -> bool
                requires samples { AreSamples sketch.now.elements samples.now }
                requires low { AreLow samples.now }
                ensures { result ≡ (speaks_of s.now n && is_conjecture sketch.entry.now.elements s.now) }
            { s.names(n) && is_guessed(sketch, samples, s) },
        )
        .collect(rt, alloc)
}
