ghost use Rattle.std.specs.Prelude.{OnOk};
ghost use Rattle.geo_sketch.specs.Additions.{IsSmallSpec};
ghost use Rattle.geo_guess.specs.Guesses.{IsGuessesOf};

use crate::Guesses;
use geo_sketch::{Delta, Kind, Name, Refusal, Sketch, Spec, Statement, Stop};
use std::alloc::Global;
use std::thread::Threads;

fn name(text: &str) -> Result<Name, Stop> {
    match Name::new(text.as_bytes()) {
        Some(name) => Ok(name),
        None => Err(Stop::Refused(Refusal::Name)),
    }
}

/// Adds an element, and tells the guesses.
fn add<R: Threads + Sync>(
    rt: &R,
    alloc: Global,
    sketch: &mut Sketch,
    guesses: &mut Guesses,
    text: &str,
    kind: Kind,
    spec: &Spec,
) -> Result<(), Stop>
    requires small { IsSmallSpec spec.now }
    requires same { IsGuessesOf guesses.old sketch.old }
    ensures { OnOk result (IsGuessesOf guesses.new sketch.new) }
{
    let _drawn = sketch.elements();
    let delta = sketch.add(name(text)?, kind, spec)?;
    let Delta::Added(element, _) = &delta else {
        return Err(Stop::NoMemory);
    };
    match guesses.added(rt, alloc, sketch, element.number) {
        Ok(()) => Ok(()),
        Err(_) => Err(Stop::NoMemory),
    }
}

fn point<R: Threads + Sync>(
    rt: &R,
    alloc: Global,
    sketch: &mut Sketch,
    guesses: &mut Guesses,
    text: &str,
) -> Result<(), Stop>
    requires { IsGuessesOf guesses.old sketch.old }
    ensures { OnOk result (IsGuessesOf guesses.new sketch.new) }
{
    add(
        rt,
        alloc,
        sketch,
        guesses,
        text,
        Kind::Point,
        &Spec::Free(0, 0),
    )
}

fn cross<R: Threads + Sync>(
    rt: &R,
    alloc: Global,
    sketch: &mut Sketch,
    guesses: &mut Guesses,
    texts: (&str, &str, &str),
    kind: Kind,
) -> Result<(), Stop>
    requires { IsGuessesOf guesses.old sketch.old }
    ensures { OnOk result (IsGuessesOf guesses.new sketch.new) }
{
    let spec = Spec::Cross(name(texts.1)?, name(texts.2)?);
    add(rt, alloc, sketch, guesses, texts.0, kind, &spec)
}

/// Drops an element and takes that back, and tells the guesses each time. Gives what was noticed
/// between.
fn drop_and_return<R: Threads + Sync>(
    rt: &R,
    alloc: Global,
    sketch: &mut Sketch,
    guesses: &mut Guesses,
    text: &str,
) -> Result<Vec<Statement>, Stop>
    requires { IsGuessesOf guesses.old sketch.old }
    ensures { OnOk result (IsGuessesOf guesses.new sketch.new) }
{
    let _drawn = sketch.elements();
    let delta = match sketch.drop_element(name(text)?) {
        Ok(delta) => delta,
        Err(refusal) => return Err(Stop::Refused(refusal)),
    };
    let Delta::Dropped(element, _) = &delta else {
        return Err(Stop::NoMemory);
    };
    guesses.dropped(element.number);
    let Ok(between) = guesses.list().to_vec(alloc) else {
        return Err(Stop::NoMemory);
    };
    match sketch.revert(&delta) {
        Ok(()) => match guesses.added(rt, alloc, sketch, element.number) {
            Ok(()) => Ok(between),
            Err(_) => Err(Stop::NoMemory),
        },
        Err(_) => Err(Stop::NoMemory),
    }
}

/// Three free points, two joins through one of them, a point on the first, and their meet.
fn two_joins<R: Threads + Sync>(
    rt: &R,
    alloc: Global,
    sketch: &mut Sketch,
    guesses: &mut Guesses,
) -> Result<(), Stop>
    requires { IsGuessesOf guesses.old sketch.old }
    ensures { OnOk result (IsGuessesOf guesses.new sketch.new) }
{
    point(rt, alloc, sketch, guesses, "A")?;
    point(rt, alloc, sketch, guesses, "B")?;
    point(rt, alloc, sketch, guesses, "C")?;
    cross(rt, alloc, sketch, guesses, ("l", "A", "B"), Kind::Line)?;
    let on_first = Spec::Cut(name("l")?, 3);
    add(rt, alloc, sketch, guesses, "P", Kind::Point, &on_first)?;
    cross(rt, alloc, sketch, guesses, ("m", "A", "C"), Kind::Line)?;
    cross(rt, alloc, sketch, guesses, ("X", "l", "m"), Kind::Point)
}

/// The meet X of two joins through A is A, and P lies on the join l of A and B. What names P comes
/// back to its places among the others.
#[test]
fn an_element_comes_back_in_the_middle(rt: HostRuntime) -> Result<(), Stop> {
    let alloc = rt.alloc();
    let mut sketch = Sketch::new(alloc);
    let mut guesses = Guesses::new(alloc);
    two_joins(&rt, alloc, &mut sketch, &mut guesses)?;
    let all = [
        Statement::Triple(0, 1, 4),
        Statement::Same(0, 6),
        Statement::Triple(1, 4, 6),
    ];
    assert_eq!(rt; guesses.list(), all.as_slice());
    let between = drop_and_return(&rt, alloc, &mut sketch, &mut guesses, "P")?;
    assert_eq!(rt; between.as_slice(), [Statement::Same(0, 6)].as_slice());
    assert_eq!(rt; guesses.list(), all.as_slice());
    Ok(())
}
