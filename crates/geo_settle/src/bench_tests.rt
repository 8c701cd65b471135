//! Searches over the grids of two statements about Desargues' figure, by several workers.

ghost use Rattle.std.specs.Prelude.{◌<◌, ◌≤◌};
ghost use Rattle.geo_sketch.specs.Additions.{IsSmallSpec};

use crate::{Bench, First, Gate};
use geo_grid::{Grid, Posed};
use geo_sketch::{Kind, Name, Said, Sketch, Spec};
use std::alloc::Global;
use std::sync::atomic::{AtomicU64, Ordering};
use std::test::Fail;
use std::thread::Threads;

fn named(text: &str) -> Result<Name, Fail> {
    Ok(Name::new(text.as_bytes()).ok_or("no name")?)
}

fn add(sketch: &mut Sketch, name: &str, kind: Kind, spec: &Spec) -> Result<(), Fail>
    requires { IsSmallSpec spec.now }
{
    sketch.add(named(name)?, kind, spec)?;
    Ok(())
}

/// A, B and C are free, D, E and F lie on their joins with a fixed centre, and X, Y and Z
/// are the meets of the sides.
fn desargues(alloc: Global) -> Result<Sketch, Fail> {
    let mut sketch = Sketch::new(alloc);
    add(&mut sketch, "O", Kind::Point, &Spec::Fixed(0, 0, 1))?;
    for name in ["A", "B", "C"] {
        add(&mut sketch, name, Kind::Point, &Spec::Free(0, 0))?;
    }
    for (name, through) in [("D", "A"), ("E", "B"), ("F", "C")] {
        let spec = Spec::Blend(named("O")?, named(through)?, 1);
        add(&mut sketch, name, Kind::Point, &spec)?;
    }
    for (name, kind, k, m) in [
        ("ab", Kind::Line, "A", "B"),
        ("de", Kind::Line, "D", "E"),
        ("X", Kind::Point, "ab", "de"),
        ("bc", Kind::Line, "B", "C"),
        ("ef", Kind::Line, "E", "F"),
        ("Y", Kind::Point, "bc", "ef"),
        ("ca", Kind::Line, "C", "A"),
        ("fd", Kind::Line, "F", "D"),
        ("Z", Kind::Point, "ca", "fd"),
    ] {
        add(&mut sketch, name, kind, &Spec::Cross(named(k)?, named(m)?))?;
    }
    Ok(sketch)
}

/// Counts its calls, those that tell that no chunk was left, and adds up the worker numbers
/// of these.
#[derive(Drop)]
struct Counts {
    calls: AtomicU64,
    ends: AtomicU64,
    numbers: AtomicU64,
}

impl Gate for Counts {
    fn passed(&self, worker: u64, chunk: Option<u64>) {
        self.calls.fetch_add(1, Ordering::SeqCst);
        if chunk.is_none() {
            self.ends.fetch_add(1, Ordering::SeqCst);
            self.numbers.fetch_add(worker, Ordering::SeqCst);
        }
    }
}

/// What so many workers find of a statement, that three points are collinear, how often the
/// gate was called, how often at an end, and the sum of the numbers at the ends.
fn searched<R: Threads + Sync>(
    rt: &R,
    alloc: Global,
    points: [&str; 3],
    workers: u64,
) -> Result<(First, u64, u64, u64), Fail>
    requires { (0 < workers) × (workers ≤ 16) }
{
    let sketch = desargues(alloc)?;
    let said = Said::Collinear(named(points[0])?, named(points[1])?, named(points[2])?);
    let posed = Posed::new(alloc, &sketch, sketch.resolve(&said)?)?;
    let Ok(grid) = Grid::of(alloc, &posed) else {
        return Err("no grid")?;
    };
    let gate = Counts {
        calls: AtomicU64::new(0),
        ends: AtomicU64::new(0),
        numbers: AtomicU64::new(0),
    };
    let first = Bench::prepare(alloc, &posed, &grid, workers)?.run(rt, &gate);
    Ok((
        first,
        gate.calls.load(Ordering::SeqCst),
        gate.ends.load(Ordering::SeqCst),
        gate.numbers.load(Ordering::SeqCst),
    ))
}

/// The false claim has 10,800 points in 11 chunks, and fails first in the second; the true
/// one has 91,125 in 89. The numbers of 1, 2 and 16 workers, from 0, add up to 0, 1 and 120.
#[test]
fn finds_by_many_workers(rt: HostRuntime) -> Result<(), Fail> {
    for (workers, numbers) in [(1, 0), (2, 1), (16, 120)] {
        let found = searched(&rt, rt.alloc(), ["X", "Y", "A"], workers)?;
        assert_eq!(rt; found, (First::At(1467), 11 + workers, workers, numbers));
        let found = searched(&rt, rt.alloc(), ["X", "Y", "Z"], workers)?;
        assert_eq!(rt; found, (First::Clear, 89 + workers, workers, numbers));
    }
    Ok(())
}
