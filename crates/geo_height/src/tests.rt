ghost use Rattle.geo_sketch.specs.Additions.{IsSmallSpec};

use crate::{height, heights_of, of_statement};
use geo_sketch::{Delta, Kind, Name, Refusal, Sketch, Spec, Statement, Stop};
use std::alloc::Global;

fn name(text: &str) -> Result<Name, Stop> {
    match Name::new(text.as_bytes()) {
        Some(name) => Ok(name),
        None => Err(Stop::Refused(Refusal::Name)),
    }
}

fn fixed(sketch: &mut Sketch, text: &str, kind: Kind, spec: &Spec) -> Result<Delta, Stop>
    requires { IsSmallSpec spec.now }
{
    sketch.add(name(text)?, kind, spec)
}

fn free(sketch: &mut Sketch, text: &str) -> Result<Delta, Stop> {
    sketch.add(name(text)?, Kind::Point, &Spec::Free(0, 0))
}

fn along(sketch: &mut Sketch, text: &str, k: &str, m: &str) -> Result<Delta, Stop> {
    sketch.add(
        name(text)?,
        Kind::Point,
        &Spec::Blend(name(k)?, name(m)?, 1),
    )
}

fn cross(sketch: &mut Sketch, text: &str, kind: Kind, k: &str, m: &str) -> Result<Delta, Stop> {
    sketch.add(name(text)?, kind, &Spec::Cross(name(k)?, name(m)?))
}

/// Desargues with a fixed centre.
fn desargues(alloc: Global) -> Result<Sketch, Stop> {
    let mut sketch = Sketch::new(alloc);
    fixed(&mut sketch, "O", Kind::Point, &Spec::Fixed(0, 0, 1))?;
    for text in ["A", "B", "C"] {
        free(&mut sketch, text)?;
    }
    for (text, m) in [("D", "A"), ("E", "B"), ("F", "C")] {
        along(&mut sketch, text, "O", m)?;
    }
    for (text, kind, k, m) in [
        ("ab", Kind::Line, "A", "B"),
        ("de", Kind::Line, "D", "E"),
        ("X", Kind::Point, "ab", "de"),
        ("bc", Kind::Line, "B", "C"),
        ("ef", Kind::Line, "E", "F"),
        ("Y", Kind::Point, "bc", "ef"),
        ("ca", Kind::Line, "C", "A"),
        ("fd", Kind::Line, "F", "D"),
        ("Z", Kind::Point, "ca", "fd"),
    ] {
        cross(&mut sketch, text, kind, k, m)?;
    }
    Ok(sketch)
}

/// One parameter, and large numbers.
fn large(alloc: Global) -> Result<Sketch, Stop> {
    let mut sketch = Sketch::new(alloc);
    fixed(&mut sketch, "A", Kind::Point, &Spec::Fixed(800, 800, -800))?;
    fixed(&mut sketch, "B", Kind::Point, &Spec::Fixed(800, -800, 800))?;
    along(&mut sketch, "P", "A", "B")?;
    fixed(&mut sketch, "Q", Kind::Point, &Spec::Fixed(1, 1, 1))?;
    fixed(&mut sketch, "R", Kind::Point, &Spec::Fixed(-1, 1, 1))?;
    fixed(&mut sketch, "S", Kind::Point, &Spec::Fixed(1, 1, -1))?;
    fixed(&mut sketch, "g", Kind::Line, &Spec::Fixed(1, 1, 1))?;
    for (text, kind, k, m) in [
        ("a", Kind::Line, "P", "Q"),
        ("b", Kind::Line, "P", "R"),
        ("c", Kind::Line, "P", "S"),
        ("U", Kind::Point, "a", "g"),
        ("n", Kind::Line, "U", "S"),
        ("X", Kind::Point, "a", "n"),
        ("Y", Kind::Point, "b", "n"),
        ("Z", Kind::Point, "c", "n"),
        ("u", Kind::Line, "P", "X"),
        ("v", Kind::Line, "P", "Y"),
        ("w", Kind::Line, "P", "Z"),
    ] {
        cross(&mut sketch, text, kind, k, m)?;
    }
    Ok(sketch)
}

/// The heights of the element at a place, and the largest.
fn at_place(
    sketch: &Sketch,
    place: usize,
    magnitudes: &[(u32, u64)],
) -> Option<(u128, u128, u128, u128)> {
    let elements = sketch.elements();
    if place < elements.len() {
        let number = elements[place].number;
        let heights = heights_of(sketch, number, magnitudes)?;
        let largest = height(sketch, number, magnitudes)?;
        Some((heights.a, heights.b, heights.c, largest))
    } else {
        None
    }
}

/// The height of the statement on the elements at three places.
fn at_places(
    sketch: &Sketch,
    places: (usize, usize, usize),
    magnitudes: &[(u32, u64)],
) -> Option<u128> {
    let elements = sketch.elements();
    let (first, second, third) = places;
    if first < elements.len() && second < elements.len() && third < elements.len() {
        let statement = Statement::Triple(
            elements[first].number,
            elements[second].number,
            elements[third].number,
        );
        of_statement(sketch, &statement, magnitudes)
    } else {
        None
    }
}

/// The intersections of Desargues' figure, where its coordinates have magnitude 2
/// and its ratios magnitude 1; and the first of them, where A and B are far out.
#[test]
fn heights_of_desargues_figure(rt: HostRuntime) {
    let magnitudes = [
        (2, 2),
        (3, 2),
        (4, 2),
        (5, 2),
        (6, 2),
        (7, 2),
        (8, 1),
        (10, 1),
        (12, 1),
    ];
    let far_out = [
        (2, 1000),
        (3, 1000),
        (4, 1000),
        (5, 1000),
        (6, 1),
        (7, 1),
        (8, 1),
        (10, 2),
        (12, 3),
    ];
    match desargues(rt.alloc()) {
        Ok(sketch) => {
            for place in [9, 12, 15] {
                assert!(rt;
                    at_place(&sketch, place, &magnitudes) == Some((168, 168, 96, 168)),
                    "at {place}"
                );
            }
            assert!(rt; at_places(&sketch, (9, 12, 15), &magnitudes) == Some(16_257_024));
            assert!(rt;
                at_place(&sketch, 9, &far_out)
                    == Some((22_022_004_000, 22_022_004_000, 28_020_000, 22_022_004_000))
            );
        }
        Err(_) => assert!(rt; false, "the figure"),
    }
}

/// The statement of the large figure is within the limit at magnitude 3, and above
/// it at magnitude 5. A parameter that is not listed has magnitude 0.
#[test]
fn heights_of_a_large_figure(rt: HostRuntime) {
    match large(rt.alloc()) {
        Ok(sketch) => {
            for (magnitudes, all) in [
                ([(4, 3)], 2_097_152_000_000),
                ([(4, 5)], 7_077_888_000_000),
                ([(5, 3)], 262_144_000_000),
            ] {
                assert!(rt;
                    at_place(&sketch, 15, &magnitudes) == Some((all, all, all, all)),
                    "{all}"
                );
            }
            assert!(rt; at_places(&sketch, (15, 16, 17), &[(4, 3)]).is_some());
            assert!(rt; at_places(&sketch, (15, 16, 17), &[(4, 5)]).is_none());
        }
        Err(_) => assert!(rt; false, "the figure"),
    }
}
