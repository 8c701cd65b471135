ghost use Rattle.geo_sketch.specs.Additions.{IsSmallSpec};

use crate::{SaidStep, not_null_somewhere, read_step, shape_of};
use geo_sketch::{Kind, Name, Refusal, Sketch, Spec, Statement, Stop};
use std::alloc::Global;

fn name(text: &[u8]) -> Result<Name, Stop> {
    match Name::new(text) {
        Some(name) => Ok(name),
        None => Err(Stop::Refused(Refusal::Name)),
    }
}

fn add(sketch: &mut Sketch, text: &[u8], kind: Kind, spec: &Spec) -> Result<(), Stop>
    requires { IsSmallSpec spec.now }
{
    sketch.add(name(text)?, kind, spec)?;
    Ok(())
}

/// Points A, B, C and D, of which B is fixed where A is not, and a line l.
fn figure(alloc: Global) -> Result<Sketch, Stop> {
    let mut sketch = Sketch::new(alloc);
    add(&mut sketch, b"l", Kind::Line, &Spec::Free(1, 2))?;
    add(&mut sketch, b"A", Kind::Point, &Spec::Free(0, 0))?;
    add(&mut sketch, b"B", Kind::Point, &Spec::Free(3, 1))?;
    add(&mut sketch, b"C", Kind::Point, &Spec::Free(2, 5))?;
    Ok(sketch)
}

fn step(sketch: &Sketch, line: &[u8]) -> Result<(Statement, Statement, usize), Refusal> {
    match read_step(line) {
        Ok(said) => pose(sketch, &said),
        Err(refusal) => Err(refusal),
    }
}

fn pose(sketch: &Sketch, said: &SaidStep) -> Result<(Statement, Statement, usize), Refusal> {
    match shape_of(sketch, said) {
        Ok(shape) => Ok((shape.side, shape.conclusion, shape.premises.len())),
        Err(refusal) => Err(refusal),
    }
}

#[test]
fn steps_of_each_rule(rt: HostRuntime) {
    let Ok(sketch) = figure(rt.alloc()) else {
        panic!(rt; "the figure was refused");
    };
    let span = Ok((Statement::Null(0), Statement::Triple(1, 2, 3), 3));
    assert!(rt; step(&sketch, b"infer span C A B l") == span);
    let moved = Ok((Statement::Null(2), Statement::On(0, 1), 2));
    assert!(rt; step(&sketch, b"infer move B A l") == moved);
    assert!(rt; step(&sketch, b"infer span A B C") == Err(Refusal::Arity));
    assert!(rt; step(&sketch, b"infer jump A B C") == Err(Refusal::Command));
    assert!(rt; step(&sketch, b"infer") == Err(Refusal::Arity));
    assert!(rt; step(&sketch, b"infer span A B 7 l") == Err(Refusal::Name));
    assert!(rt; step(&sketch, b"infer span A B Z l") == Err(Refusal::Unknown));
    assert!(rt; step(&sketch, b"infer span A B l C") == Err(Refusal::Kind));
    assert!(rt; step(&sketch, b"infer lie A B A l") == Err(Refusal::Repeat));
}

/// Whether the line is somewhere not null, and so the join of a point with itself.
fn sides(alloc: Global) -> Result<(bool, bool), Stop> {
    let mut sketch = figure(alloc)?;
    add(
        &mut sketch,
        b"n",
        Kind::Line,
        &Spec::Cross(name(b"A")?, name(b"A")?),
    )?;
    let line = read_and_ask(alloc, &sketch, b"infer span A B C l")?;
    let none = read_and_ask(alloc, &sketch, b"infer span A B C n")?;
    Ok((line, none))
}

fn read_and_ask(alloc: Global, sketch: &Sketch, line: &[u8]) -> Result<bool, Stop> {
    let said = match read_step(line) {
        Ok(said) => said,
        Err(refusal) => return Err(Stop::Refused(refusal)),
    };
    match shape_of(sketch, &said) {
        Ok(shape) => match not_null_somewhere(alloc, sketch, &shape.side) {
            Ok(found) => Ok(found),
            Err(_) => Err(Stop::NoMemory),
        },
        Err(refusal) => Err(Stop::Refused(refusal)),
    }
}

#[test]
fn side_conditions(rt: HostRuntime) {
    assert!(rt; sides(rt.alloc()) == Ok((true, false)));
}
