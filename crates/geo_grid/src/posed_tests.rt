//! Statements about Desargues' figure with a fixed centre, and a plan for some of its elements.

ghost use Rattle.std.specs.Prelude.{◌≡◌, ◌<◌, ◌≤◌, map, unsigned_abs, All, IfOk};
ghost use Rattle.geo_sketch.specs.Additions.{IsSmallSpec};

use crate::{Form, Posed};
use geo_sketch::{Kind, Name, Said, Sketch, Spec};
use geo_triple::Steps;
use std::alloc::Global;
use std::marker::Brand;
use std::sync::ledger::{Blank, Ledger};
use std::test::Fail;

fn named(text: &str) -> Result<Name, Fail> {
    Ok(Name::new(text.as_bytes()).ok_or("no name")?)
}

fn add(sketch: &mut Sketch, name: &str, kind: Kind, spec: &Spec) -> Result<(), Fail>
    requires { IsSmallSpec spec.now }
{
    sketch.add(named(name)?, kind, spec)?;
    Ok(())
}

/// A, B and C are free, D, E and F lie on their joins with the centre O, and X, Y and Z are
/// the meets of the sides.
fn desargues(alloc: Global, centre: &Spec) -> Result<Sketch, Fail>
    requires { IsSmallSpec centre.now }
{
    let mut sketch = Sketch::new(alloc);
    add(&mut sketch, "O", Kind::Point, centre)?;
    for name in ["A", "B", "C"] {
        add(&mut sketch, name, Kind::Point, &Spec::Free(0, 0))?;
    }
    for (name, through) in [("D", "A"), ("E", "B"), ("F", "C")] {
        let spec = Spec::Blend(named("O")?, named(through)?, 1);
        add(&mut sketch, name, Kind::Point, &spec)?;
    }
    for (name, kind, k, m) in [
        ("ab", Kind::Line, "A", "B"),
        ("de", Kind::Line, "D", "E"),
        ("X", Kind::Point, "ab", "de"),
        ("bc", Kind::Line, "B", "C"),
        ("ef", Kind::Line, "E", "F"),
        ("Y", Kind::Point, "bc", "ef"),
        ("ca", Kind::Line, "C", "A"),
        ("fd", Kind::Line, "F", "D"),
        ("Z", Kind::Point, "ca", "fd"),
    ] {
        add(&mut sketch, name, kind, &Spec::Cross(named(k)?, named(m)?))?;
    }
    Ok(sketch)
}

/// That X, Y and Z are collinear needs all elements. No axis moves O, and each of the
/// others is moved by A, B, C, D, E or F.
#[test]
fn elements_that_an_axis_moves(rt: HostRuntime) -> Result<(), Fail> {
    let sketch = desargues(rt.alloc(), &Spec::Fixed(0, 0, 1))?;
    let said = Said::Collinear(named("X")?, named("Y")?, named("Z")?);
    let posed = Posed::new(rt.alloc(), &sketch, sketch.resolve(&said)?)?;
    for (first, count) in [
        (0, 15),
        (1, 15),
        (2, 14),
        (3, 14),
        (4, 12),
        (5, 12),
        (6, 9),
        (7, 8),
        (8, 5),
        (9, 0),
        (1000, 0),
    ] {
        assert_eq!(rt; posed.nodes_from(first), count, "from {first} on");
    }
    Ok(())
}

/// Whether a part is not 0 at these values of the axes, after the work stood for others.
fn fails_at<F: Form, L: Ledger>(
    alloc: Global,
    form: &F,
    before: &[i64],
    values: &[i64],
    blank: Blank,
) -> Result<bool, Fail>
    requires name { blank.name ≡ L.name }
    requires parts { blank.parts ≡ L.parts }
    requires some { 0 < blank.parts }
{
    let earlier = magnitudes_of(alloc, before)?;
    let magnitudes = magnitudes_of(alloc, values)?;
    let count = form.axes().len();
    if earlier.len() != count || magnitudes.len() != count {
        return Err("not a value for each axis")?;
    }
    if form.height(&earlier).is_none() || form.height(&magnitudes).is_none() {
        return Err("too high")?;
    }
    let mut steps = Steps::<L>::new(blank);
    let mut work = form.scratch(alloc)?;
    form.refresh(before, 0, &mut work, &mut steps);
    form.refresh(values, 0, &mut work, &mut steps);
    Ok(form.failing(&work))
}

fn magnitudes_of(alloc: Global, values: &[i64]) -> Result<Vec<u64>, Fail>
    ensures magnitudes { IfOk result (λ magnitudes. magnitudes.items ≡ map unsigned_abs values.now) }
    ensures low { IfOk result (λ magnitudes. All (λ m. m ≤ 100) magnitudes.items) }
{
    let mut magnitudes = Vec::new(alloc);
    for value in values {
        if value.unsigned_abs() > 100 {
            return Err("too large")?;
        }
        magnitudes.push(value.unsigned_abs())?;
    }
    Ok(magnitudes)
}

/// One statement of each form, where it holds and where it does not; the first holds
/// everywhere.
#[test]
fn statements_at_values(rt: HostRuntime) -> Result<(), Fail> {
    let sketch = desargues(rt.alloc(), &Spec::Fixed(0, 0, 1))?;
    let all = Said::Collinear(named("X")?, named("Y")?, named("Z")?);
    let three = Said::Collinear(named("A")?, named("B")?, named("C")?);
    let on = Said::On(named("A")?, named("bc")?);
    let same = Said::Same(named("D")?, named("E")?);
    let null = Said::Null(named("ab")?);
    let rows: [(Said, &[i64], bool); 9] = [
        (all, &[1, 0, 0, 1, -1, -1, 1, 2, 3], false),
        (three, &[0, 0, 1, 1, 2, 2], false),
        (three, &[0, 0, 1, 0, 0, 1], true),
        (on, &[1, 1, 0, 0, 2, 2], false),
        (on, &[1, 0, 0, 0, 2, 2], true),
        (same, &[1, 2, 1, 2, 1, 1], false),
        (same, &[1, 2, 1, 3, 1, 1], true),
        (null, &[1, 2, 1, 2], false),
        (null, &[1, 2, 1, 3], true),
    ];
    for (said, values, fails) in rows {
        let posed = Posed::new(rt.alloc(), &sketch, sketch.resolve(&said)?)?;
        let found = fails_at::<Posed, Brand>(rt.alloc(), &posed, values, values, Blank::new(1))?;
        assert_eq!(rt; found, fails, "{said:?} at {values:?}");
    }
    Ok(())
}

/// Values on the grid are computed in 64 bits, and those beyond it are not: at a centre as far
/// out as one may be, the elements fit 64 bits on the grid, and the first statement, which
/// holds everywhere, does not.
#[test]
fn a_work_that_leaves_the_grid(rt: HostRuntime) -> Result<(), Fail> {
    let sketch = desargues(rt.alloc(), &Spec::Fixed(1000, 1000, 1000))?;
    let all = Said::Collinear(named("X")?, named("Y")?, named("Z")?);
    let other = Said::Collinear(named("X")?, named("Y")?, named("A")?);
    let near: &[i64] = &[1, 0, 0, 1, -1, -1, 1, -1, 1];
    let far: &[i64] = &[50, 7, -3, 90, 11, -60, 70, 80, 90];
    let flat: &[i64] = &[1, 0, 1, 0, -1, -1, 1, 0, 1];
    let rows: [(Said, &[i64], &[i64], bool); 8] = [
        (all, near, near, false),
        (all, near, far, false),
        (all, far, near, false),
        (other, near, near, true),
        (other, near, flat, false),
        (other, near, far, true),
        (other, far, near, true),
        (other, far, flat, false),
    ];
    for (said, before, values, fails) in rows {
        let posed = Posed::new(rt.alloc(), &sketch, sketch.resolve(&said)?)?;
        let found = fails_at::<Posed, Brand>(rt.alloc(), &posed, before, values, Blank::new(1))?;
        assert_eq!(rt; found, fails, "{said:?} at {values:?} after {before:?}");
    }
    Ok(())
}
