//! Whether a statement is a conjecture.

ghost use Rattle.std.specs.Prelude.{◌≡◌, ◌<◌, ◌||◌, ◌∷◌, [], List};
ghost use Rattle.geo_triple.specs.Triple.{cross_of, determinant_of, dot_of};
ghost use Rattle.geo_sketch.specs.declared.limits.TheConstants.{SAMPLE_COUNT};
ghost use Rattle.geo_sketch.specs.declared.elements.Element.{Element as Entry};
ghost use Rattle.geo_triple.specs.Zero.{coordinates, are_zero};
ghost use Rattle.geo_guess.specs.Conjectures.{are_together, holds_at_samples, is_conjecture, is_nowhere, is_proper, is_zero_at};
ghost use Rattle.geo_guess.specs.Samples.{AreLow, AreSamples, IsLow};

use crate::samples::{low_cross, sample_of};
use geo_sketch::{SAMPLE_COUNT, Sketch, Statement};
use geo_triple::{Triple, det, dot};

/// Whether the statement is a conjecture of the sketch. Most candidates fail at the first
/// sample position.
pub(crate) fn is_guessed(sketch: &Sketch, samples: &[[Triple; SAMPLE_COUNT]], s: &Statement) -> bool
    requires samples { AreSamples sketch.now.elements samples.now }
    requires low { AreLow samples.now }
    ensures { result ≡ is_conjecture sketch.now.elements s.now }
{
    holds_at_samples(samples, s)
        && s.is_posed(sketch.elements())
        && is_proper(samples, s)
        && !sketch.is_plain(s)
}

/// Whether no element that is named is zero at all sample positions, and no two of three are the
/// same there.
fn is_proper(samples: &[[Triple; SAMPLE_COUNT]], s: &Statement) -> bool
    requires { AreLow samples.now }
    ensures { (es : List Entry) → AreSamples es samples.now → result ≡ is_proper es s.now }
{
    match s {
        Statement::Null(_) => true,
        Statement::Same(n, m) | Statement::On(n, m) => {
            !(is_nowhere(samples, *n) || is_nowhere(samples, *m))
        }
        Statement::Triple(n, m, k) => {
            !any_nowhere(samples, *n, *m, *k) && !any_together(samples, *n, *m, *k)
        }
    }
}

/// Whether one of three elements is zero at all sample positions.
fn any_nowhere(samples: &[[Triple; SAMPLE_COUNT]], n: u32, m: u32, k: u32) -> bool
    requires { AreLow samples.now }
    ensures { (es : List Entry) → AreSamples es samples.now → result ≡ (is_nowhere es n || (is_nowhere es m || is_nowhere es k)) }
{
    is_nowhere(samples, n) || is_nowhere(samples, m) || is_nowhere(samples, k)
}

/// Whether two of three elements are the same at all sample positions.
fn any_together(samples: &[[Triple; SAMPLE_COUNT]], n: u32, m: u32, k: u32) -> bool
    requires { AreLow samples.now }
    ensures { (es : List Entry) → AreSamples es samples.now → result ≡ (are_together es n m || (are_together es n k || are_together es m k)) }
{
    are_together(samples, n, m) || are_together(samples, n, k) || are_together(samples, m, k)
}

fn is_nowhere(samples: &[[Triple; SAMPLE_COUNT]], n: u32) -> bool
    requires { AreLow samples.now }
    ensures { (es : List Entry) → AreSamples es samples.now → result ≡ is_nowhere es n }
{
    holds_at_samples(samples, &Statement::Null(n))
}

fn are_together(samples: &[[Triple; SAMPLE_COUNT]], n: u32, m: u32) -> bool
    requires { AreLow samples.now }
    ensures { (es : List Entry) → AreSamples es samples.now → result ≡ are_together es n m }
{
    holds_at_samples(samples, &Statement::Same(n, m))
}

/// Whether all parts of the statement are 0 at all sample positions. The first one where they are
/// not decides it.
fn holds_at_samples(samples: &[[Triple; SAMPLE_COUNT]], s: &Statement) -> bool
    requires { AreLow samples.now }
    ensures { (es : List Entry) → AreSamples es samples.now → result ≡ holds_at_samples es s.now }
{
    let mut holds = true;
    for position in 0..SAMPLE_COUNT {
        holds = holds && is_zero_at(samples, s, position);
    }
    holds
}

/// Whether all parts of the statement are 0 at a sample position.
fn is_zero_at(samples: &[[Triple; SAMPLE_COUNT]], s: &Statement, position: usize) -> bool
    requires low { AreLow samples.now }
    requires position { position < SAMPLE_COUNT }
    ensures { (es : List Entry) → AreSamples es samples.now → result ≡ is_zero_at es s.now position }
{
    match s {
        Statement::Null(n) => sample_of(samples, *n, position).is_zero(),
        Statement::Same(n, m) => are_same(
            &sample_of(samples, *n, position),
            &sample_of(samples, *m, position),
        ),
        Statement::On(n, m) => is_on(
            &sample_of(samples, *n, position),
            &sample_of(samples, *m, position),
        ),
        Statement::Triple(n, m, k) => are_in_line(
            &sample_of(samples, *n, position),
            &sample_of(samples, *m, position),
            &sample_of(samples, *k, position),
        ),
    }
}

fn are_same(s: &Triple, t: &Triple) -> bool
    requires first { IsLow s.now }
    requires second { IsLow t.now }
    ensures { result ≡ are_zero (coordinates (cross_of s.now t.now)) }
{
    low_cross(s, t).is_zero()
}

fn is_on(s: &Triple, t: &Triple) -> bool
    requires first { IsLow s.now }
    requires second { IsLow t.now }
    ensures { result ≡ are_zero (dot_of s.now t.now ∷ []) }
{
    dot(s, t) == 0
}

fn are_in_line(s: &Triple, t: &Triple, u: &Triple) -> bool
    requires first { IsLow s.now }
    requires second { IsLow t.now }
    requires third { IsLow u.now }
    ensures { result ≡ are_zero (determinant_of s.now t.now u.now ∷ []) }
{
    det(s, t, u) == 0
}
