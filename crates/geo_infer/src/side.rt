//! Premises that hold by construction, and side conditions that are not null somewhere.

ghost use Rattle.std.specs.Prelude.{◌≡◌, IfOk};
ghost use Rattle.geo_sketch.specs.PlainStatements.{is_plain};
ghost use Rattle.geo_sketch.specs.Sketches.{IsPosed};
ghost use Rattle.geo_infer.specs.Derivations.{is_not_null_somewhere};

use geo_degree::parts_by_the_axes_alone;
use geo_grid::Posed;
use geo_settle::failing_sample;
use geo_sketch::{NoMemory, Sketch, Statement};
use std::alloc::Global;

/// Whether the statement holds by construction.
pub fn is_plain(sketch: &Sketch, s: &Statement) -> bool
    ensures { result ≡ is_plain sketch.now.elements s.now }
{
    sketch.is_plain(s)
}

/// Whether at one of the eight sample positions a part of the side condition is not 0.
pub fn not_null_somewhere(
    alloc: Global,
    sketch: &Sketch,
    side: &Statement,
) -> Result<bool, NoMemory>
    requires { IsPosed sketch.now.elements side.now }
    ensures { IfOk result (λ found. found ≡ is_not_null_somewhere sketch.now.elements side.now) }
{
    parts_by_the_axes_alone();
    let _drawn = sketch.elements();
    let posed = Posed::new(alloc, sketch, *side)?;
    Ok(failing_sample(alloc, &posed)?.is_some())
}
