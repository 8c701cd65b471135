//! The triples of the elements at the sample positions, kept by their numbers.

ghost use Rattle.std.specs.Prelude.{◌≡◌, ℕ, ◌<◌, ◌≤◌, OnErr, OnOk, slice_index_or, unsigned_abs};
ghost use Rattle.geo_triple.specs.Triple.{blend_of, cross_of, cut_of, zero_triple};
ghost use Rattle.geo_sketch.specs.Samples.{sample_value as value_at};
ghost use Rattle.geo_sketch.specs.declared.limits.TheConstants.{SAMPLE_COUNT, NUMBER_LIMIT};
ghost use Rattle.geo_sketch.specs.Sketches.{Drawing};
ghost use Rattle.geo_sketch.specs.Triples.{triple_at};
ghost use Rattle.geo_guess.specs.Conjectures.{IsWithout};
ghost use Rattle.geo_guess.specs.Samples.{made_from, sample_in, AreLow, AreMade, AreSameBut, AreSamples, IsLow};

use geo_sketch::{Def, Element, NoMemory, SAMPLE_COUNT, Sketch, find_by_number, sample_value};
use geo_triple::{Triple, blend, cross, cut};

/// What is kept where there is no element.
fn no_triples() -> [Triple; SAMPLE_COUNT]
    ensures { (position : ℕ) → slice_index_or result position zero_triple ≡ zero_triple }
{
    [Triple { a: 0, b: 0, c: 0 }; SAMPLE_COUNT]
}

/// The triples of element n of the sketch, from those of the other elements.
pub(crate) fn triples_in(
    samples: &[[Triple; SAMPLE_COUNT]],
    sketch: &Sketch,
    n: u32,
) -> [Triple; SAMPLE_COUNT]
    requires { (rest : Drawing) × IsWithout sketch.now rest n × AreSamples rest.elements samples.now }
    ensures { (position : ℕ) → position < SAMPLE_COUNT → slice_index_or result position zero_triple ≡ triple_at sketch.now.elements n (value_at position) }
{
    match find_by_number(sketch.elements(), n) {
        Some(element) => triples_of(samples, &element),
        None => no_triples(),
    }
}

/// The triples of an element, from those of the elements that its definition names.
fn triples_of(samples: &[[Triple; SAMPLE_COUNT]], element: &Element) -> [Triple; SAMPLE_COUNT]
    requires low { AreLow samples.now }
    requires number { element.now.number < NUMBER_LIMIT }
    ensures { AreMade samples.now element.now result SAMPLE_COUNT }
{
    let mut triples = no_triples();
    for position in 0..SAMPLE_COUNT {
        triples[position] = triple_by(samples, element, position);
    }
    triples
}

/// The triple of an element at one position.
fn triple_by(samples: &[[Triple; SAMPLE_COUNT]], element: &Element, position: usize) -> Triple
    requires low { AreLow samples.now }
    requires number { element.now.number < NUMBER_LIMIT }
    requires position { position < SAMPLE_COUNT }
    ensures { result ≡ made_from samples.now element.now position }
{
    let value = sample_value(position as u32, 2 * element.number);
    match &element.def {
        Def::Free => {
            let second = sample_value(position as u32, 2 * element.number + 1);
            Triple {
                a: i128::from(value),
                b: i128::from(second),
                c: 1,
            }
        }
        Def::Fixed(a, b, c) => Triple {
            a: i128::from(*a),
            b: i128::from(*b),
            c: i128::from(*c),
        },
        Def::Cut(k) => low_cut(&sample_of(samples, *k, position), value),
        Def::Blend(k, m) => low_blend(
            &sample_of(samples, *k, position),
            &sample_of(samples, *m, position),
            value,
        ),
        Def::Cross(k, m) => low_cross(
            &sample_of(samples, *k, position),
            &sample_of(samples, *m, position),
        ),
    }
}

fn low_cut(t: &Triple, by: i64) -> Triple
    requires low { IsLow t.now }
    requires small { unsigned_abs by ≤ 3 }
    ensures { result ≡ cut_of t.now by }
{
    cut(t, by)
}

fn low_blend(s: &Triple, t: &Triple, by: i64) -> Triple
    requires first { IsLow s.now }
    requires second { IsLow t.now }
    requires small { unsigned_abs by ≤ 3 }
    ensures { result ≡ blend_of s.now t.now by }
{
    blend(s, t, by)
}

pub(crate) fn low_cross(s: &Triple, t: &Triple) -> Triple
    requires first { IsLow s.now }
    requires second { IsLow t.now }
    ensures { result ≡ cross_of s.now t.now }
{
    cross(s, t)
}

/// What is kept for number n at a position.
pub(crate) fn sample_of(samples: &[[Triple; SAMPLE_COUNT]], n: u32, position: usize) -> Triple
    requires low { AreLow samples.now }
    requires position { position < SAMPLE_COUNT }
    ensures value { result ≡ sample_in samples.now n position }
    ensures low { IsLow result }
{
    match samples.get(n as usize) {
        Some(triples) => triples[position],
        None => Triple { a: 0, b: 0, c: 0 },
    }
}

/// Makes room for number n, and keeps its triples.
pub(crate) fn keep(
    samples: &mut Vec<[Triple; SAMPLE_COUNT]>,
    n: u32,
    triples: [Triple; SAMPLE_COUNT],
) -> Result<(), NoMemory>
    ensures others { AreSameBut n samples.old.items samples.new.items }
    ensures here { OnOk result ((position : ℕ) → position < SAMPLE_COUNT → sample_in samples.new.items n position ≡ slice_index_or triples position zero_triple) }
    ensures unchanged { OnErr result ((position : ℕ) → position < SAMPLE_COUNT → sample_in samples.new.items n position ≡ sample_in samples.old.items n position) }
{
    let place = n as usize;
    while samples.len() <= place {
        if samples.push(no_triples()).is_err() {
            return Err(NoMemory);
        }
    }
    samples[place] = triples;
    Ok(())
}

/// Keeps nothing for number n.
pub(crate) fn let_go(samples: &mut Vec<[Triple; SAMPLE_COUNT]>, n: u32)
    ensures others { AreSameBut n samples.old.items samples.new.items }
    ensures here { (position : ℕ) → position < SAMPLE_COUNT → sample_in samples.new.items n position ≡ zero_triple }
{
    if let Some(triples) = samples.get_mut(n as usize) {
        *triples = no_triples();
    }
}
