//! The search over the sample positions, where there is no grid that can be searched.

ghost use Rattle.std.specs.Prelude.{◌≡◌, ◌<◌, ◌*◌, ◌⊎◌, ◌↔◌, ℤ, List, length, All, IfOk, false};
ghost use Rattle.geo_sketch.specs.Samples.{sample_value as sample_at};
ghost use Rattle.geo_sketch.specs.declared.limits.TheConstants.{SAMPLE_COUNT, NUMBER_LIMIT};
ghost use Rattle.geo_degree.specs.declared.grids.Axis.{Axis as GridAxis};
ghost use Rattle.geo_degree.specs.Grids.{values_on};
ghost use Rattle.geo_degree.specs.Questions.{IsZeroAt, sample};
ghost use Rattle.geo_settle.specs.Findings.{IsSampleFinding};

use crate::values::{blank_values, name_values};
use geo_degree::Axis;
use geo_grid::{Form, Scratch};
use geo_sketch::{NoMemory, SAMPLE_COUNT, Values, sample_value};
use geo_triple::Steps;
use std::alloc::Global;
use std::marker::Brand;
use std::sync::ledger::{Blank, Ledger};

/// The values of the axes at the first sample position at which a part of the form is not
/// 0; None where all parts are 0 at all of them.
pub fn failing_sample<F: Form>(alloc: Global, form: &F) -> Result<Option<Values>, NoMemory>
    ensures { IfOk result (λ found. IsSampleFinding (F.question form.now) found) }
{
    first_failing::<F, Brand>(alloc, form, Blank::new(1))
}

/// Tries one position after the other. It counts no steps for its caller.
fn first_failing<F: Form, L: Ledger>(
    alloc: Global,
    form: &F,
    blank: Blank,
) -> Result<Option<Values>, NoMemory>
    requires name { blank.name ≡ L.name }
    requires parts { blank.parts ≡ L.parts }
    requires some { 0 < blank.parts }
    ensures { IfOk result (λ found. IsSampleFinding (F.question form.now) found) }
{
    let mut steps = Steps::<L>::new(blank);
    let mut values = blank_values(alloc, form)?;
    let mut work = form.scratch(alloc)?;
    for position in 0..SAMPLE_COUNT as u32 {
        if fails_at(form, position, &mut values, &mut work, &mut steps) {
            return Ok(Some(name_values(alloc, form.axes(), &values)?));
        }
    }
    Ok(None)
}

/// Whether a part of the form is not 0 at a sample position, whose values are written.
fn fails_at<F: Form, L: Ledger>(
    form: &F,
    position: u32,
    values: &mut [i64],
    work: &mut Scratch,
    steps: &mut Steps<L>,
) -> bool
    requires position { position < SAMPLE_COUNT }
    requires count { length values.old ≡ length (F.question form.now).axes }
    requires work { F.is_fresh form.now work.old ⊎ ((xs : List ℤ) × F.stands_for form.now work.old xs) }
    ensures values { values.new ≡ sample (F.question form.now) position }
    ensures work { (xs : List ℤ) × F.stands_for form.now work.new xs }
    ensures fails { (result ≡ false) ↔ IsZeroAt (F.question form.now) (sample (F.question form.now) position) }
{
    write_sample(form.axes(), position, values);
    form.refresh(values, 0, work, steps);
    form.failing(work)
}

/// Writes the value of each axis at a sample position.
pub(crate) fn write_sample(axes: &[Axis], position: u32, values: &mut [i64])
    requires position { position < SAMPLE_COUNT }
    requires parameters { All (λ (a : GridAxis). a.param < 2 * NUMBER_LIMIT) axes.now }
    requires count { length values.old ≡ length axes.now }
    ensures { values.new ≡ values_on axes.now (sample_at position) }
{
    for k in 0..axes.len() {
        values[k] = sample_value(position, axes[k].param);
    }
}
