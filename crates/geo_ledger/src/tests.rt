ghost use Rattle.geo_sketch.specs.Sketches.{IsPosed};
ghost use Rattle.geo_guess.specs.Guesses.{IsGuessesOf};
ghost use Rattle.geo_ledger.specs.Ledgers.{AreKept};

use crate::Ledger;
use crate::copies::copy_verdict;
use geo_guess::Guesses;
use geo_settle::OpenGate;
use geo_sketch::{
    Kind, Name, NoMemory, Past, Refusal, Said, Sketch, Spec, Statement, Stop, Values, Verdict,
};
use std::alloc::Global;
use std::thread::Threads;

/// Asks for the ledger, lets go of an element, and asks again.
fn ask_twice<R: Threads + Sync>(
    rt: &R,
    ledger: &mut Ledger,
    alloc: Global,
    sketch: &Sketch,
    guesses: &Guesses,
    n: u32,
) -> Result<usize, NoMemory>
    requires guesses { IsGuessesOf guesses.now sketch.now }
    requires kept { AreKept sketch.now ledger.old }
    ensures kept { AreKept sketch.now ledger.new }
{
    let _first = ledger.entries(rt, alloc, sketch, guesses, 1, &OpenGate)?;
    ledger.forget(n);
    let list = ledger.entries(rt, alloc, sketch, guesses, 1, &OpenGate)?;
    Ok(list.len())
}

#[test]
fn ledger_of_no_claims(rt: HostRuntime) {
    let sketch = Sketch::new(rt.alloc());
    let guesses = Guesses::new(rt.alloc());
    let mut ledger = Ledger::new(rt.alloc());
    assert!(rt; ask_twice(&rt, &mut ledger, rt.alloc(), &sketch, &guesses, 0) == Ok(0));
}

/// A verdict that is false at three values.
fn falsehood(alloc: Global) -> Result<Verdict, NoMemory> {
    let mut values = Values::new(alloc);
    for (param, value) in [(0, 1), (3, -2), (8, 4_611_686_018_427_387_904)] {
        values.push(param, value)?;
    }
    Ok(Verdict::False(values))
}

/// Copies the verdict twice over, and counts its values.
fn copied(alloc: Global, verdict: &Verdict) -> Result<usize, NoMemory> {
    let copy = copy_verdict(alloc, verdict)?;
    match copy_verdict(alloc, &copy)? {
        Verdict::Proved => Ok(100),
        Verdict::False(values) => Ok(values.len()),
        Verdict::Unsettled(Past::Size) => Ok(200),
        Verdict::Unsettled(Past::Height) => Ok(300),
    }
}

#[test]
fn copies_of_verdicts(rt: HostRuntime) {
    match falsehood(rt.alloc()) {
        Ok(verdict) => assert!(rt; copied(rt.alloc(), &verdict) == Ok(3)),
        Err(_) => assert!(rt; false, "the values"),
    }
    assert!(rt; copied(rt.alloc(), &Verdict::Proved) == Ok(100));
    assert!(rt; copied(rt.alloc(), &Verdict::Unsettled(Past::Size)) == Ok(200));
    assert!(rt; copied(rt.alloc(), &Verdict::Unsettled(Past::Height)) == Ok(300));
}

fn name(text: &str) -> Result<Name, Stop> {
    match Name::new(text.as_bytes()) {
        Some(name) => Ok(name),
        None => Err(Stop::Refused(Refusal::Name)),
    }
}

/// Three free points.
fn triangle(alloc: Global) -> Result<Sketch, Stop> {
    let mut sketch = Sketch::new(alloc);
    for text in ["A", "B", "C"] {
        sketch.add(name(text)?, Kind::Point, &Spec::Free(0, 0))?;
    }
    Ok(sketch)
}

/// Whether the verdict is false, and the fourth and the fifth value are 1.
fn is_false_there(verdict: &Verdict) -> bool {
    match verdict {
        Verdict::False(values) => {
            values.len() == 6 && values.get(3) == Some((3, 1)) && values.get(4) == Some((4, 1))
        }
        _ => false,
    }
}

/// Asks twice for the verdict of the statement.
fn asked_twice<R: Threads + Sync>(
    rt: &R,
    alloc: Global,
    sketch: &Sketch,
    statement: &Statement,
) -> Result<bool, NoMemory>
    requires { IsPosed sketch.now.elements statement.now }
{
    let mut ledger = Ledger::new(alloc);
    let first = is_false_there(ledger.verdict(rt, alloc, sketch, statement, 2, &OpenGate)?);
    let second = is_false_there(ledger.verdict(rt, alloc, sketch, statement, 2, &OpenGate)?);
    Ok(first && second)
}

fn is_triangle_false<R: Threads + Sync>(rt: &R, alloc: Global) -> Result<bool, Stop> {
    let sketch = triangle(alloc)?;
    let said = Said::Collinear(name("A")?, name("B")?, name("C")?);
    match sketch.resolve(&said) {
        Ok(statement) => match asked_twice(rt, alloc, &sketch, &statement) {
            Ok(is_false) => Ok(is_false),
            Err(_) => Err(Stop::NoMemory),
        },
        Err(refusal) => Err(Stop::Refused(refusal)),
    }
}

/// Three free points are in general on no line.
#[test]
fn verdict_on_three_free_points(rt: HostRuntime) {
    match is_triangle_false(&rt, rt.alloc()) {
        Ok(is_false) => assert!(rt; is_false),
        Err(_) => assert!(rt; false, "the triangle"),
    }
}
