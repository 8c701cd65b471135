ghost use Rattle.std.specs.Prelude.{◌≡◌};
ghost use Rattle.geo_sketch.specs.Additions.{IsSmallSpec};

use crate::{Degrees, grid_value};
use geo_sketch::{Delta, Kind, Name, Refusal, Sketch, Spec, Statement, Stop};
use std::alloc::Global;

fn name(text: &str) -> Result<Name, Stop> {
    match Name::new(text.as_bytes()) {
        Some(name) => Ok(name),
        None => Err(Stop::Refused(Refusal::Name)),
    }
}

fn fixed(sketch: &mut Sketch, text: &str, kind: Kind, spec: &Spec) -> Result<Delta, Stop>
    requires { IsSmallSpec spec.now }
{
    sketch.add(name(text)?, kind, spec)
}

fn free(sketch: &mut Sketch, text: &str) -> Result<Delta, Stop> {
    sketch.add(name(text)?, Kind::Point, &Spec::Free(0, 0))
}

fn along(sketch: &mut Sketch, text: &str, k: &str, m: &str) -> Result<Delta, Stop> {
    sketch.add(
        name(text)?,
        Kind::Point,
        &Spec::Blend(name(k)?, name(m)?, 1),
    )
}

fn cross(sketch: &mut Sketch, text: &str, kind: Kind, k: &str, m: &str) -> Result<Delta, Stop> {
    sketch.add(name(text)?, kind, &Spec::Cross(name(k)?, name(m)?))
}

/// Desargues with a fixed centre.
fn desargues(alloc: Global) -> Result<Sketch, Stop> {
    let mut sketch = Sketch::new(alloc);
    fixed(&mut sketch, "O", Kind::Point, &Spec::Fixed(0, 0, 1))?;
    for text in ["A", "B", "C"] {
        free(&mut sketch, text)?;
    }
    for (text, m) in [("D", "A"), ("E", "B"), ("F", "C")] {
        along(&mut sketch, text, "O", m)?;
    }
    for (text, kind, k, m) in [
        ("ab", Kind::Line, "A", "B"),
        ("de", Kind::Line, "D", "E"),
        ("X", Kind::Point, "ab", "de"),
        ("bc", Kind::Line, "B", "C"),
        ("ef", Kind::Line, "E", "F"),
        ("Y", Kind::Point, "bc", "ef"),
        ("ca", Kind::Line, "C", "A"),
        ("fd", Kind::Line, "F", "D"),
        ("Z", Kind::Point, "ca", "fd"),
    ] {
        cross(&mut sketch, text, kind, k, m)?;
    }
    Ok(sketch)
}

/// The degree in a parameter of the statement on the elements at three places.
fn at_places(
    sketch: &Sketch,
    degrees: &Degrees,
    places: (usize, usize, usize),
    p: u32,
) -> Option<u64>
    requires { degrees.now ≡ sketch.now.elements }
{
    let elements = sketch.elements();
    let (first, second, third) = places;
    if first < elements.len() && second < elements.len() && third < elements.len() {
        let statement = Statement::Triple(
            elements[first].number,
            elements[second].number,
            elements[third].number,
        );
        Some(degrees.of_statement(&statement, p))
    } else {
        None
    }
}

/// The degree in a parameter of the element at a place.
fn at_place(sketch: &Sketch, degrees: &Degrees, place: usize, p: u32) -> Option<u64>
    requires { degrees.now ≡ sketch.now.elements }
{
    let elements = sketch.elements();
    if place < elements.len() {
        Some(degrees.of_element(elements[place].number, p))
    } else {
        None
    }
}

/// The statement that the three intersections of Desargues' figure are collinear, and
/// the first of them, which depends on A, B and two ratios alone.
#[test]
fn degrees_of_desargues_figure(rt: HostRuntime) {
    match desargues(rt.alloc()) {
        Ok(sketch) => match Degrees::of(rt.alloc(), &sketch) {
            Ok(degrees) => {
                for (p, statement, first) in [
                    (0, 0, 0),
                    (2, 4, 2),
                    (3, 4, 2),
                    (4, 4, 2),
                    (5, 4, 2),
                    (6, 4, 0),
                    (7, 4, 0),
                    (8, 2, 1),
                    (9, 0, 0),
                    (10, 2, 1),
                    (12, 2, 0),
                    (30, 0, 0),
                    (4_000_000_000, 0, 0),
                ] {
                    assert!(rt;
                        at_places(&sketch, &degrees, (9, 12, 15), p) == Some(statement),
                        "the statement in {p}"
                    );
                    assert!(rt;
                        at_place(&sketch, &degrees, 9, p) == Some(first),
                        "the first in {p}"
                    );
                }
            }
            Err(_) => assert!(rt; false, "the degrees"),
        },
        Err(_) => assert!(rt; false, "the figure"),
    }
}

#[test]
fn values_of_an_axis(rt: HostRuntime) {
    for (k, value) in [
        (0, 0),
        (1, 1),
        (2, -1),
        (3, 2),
        (4, -2),
        (2_097_152, -1_048_576),
    ] {
        assert_eq!(rt; grid_value(k), value);
    }
}
