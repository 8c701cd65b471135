//! Searches over the grids of expressions: a relation of Grassmann and Plücker, and the one that
//! says that six points are on a conic.

ghost use Rattle.std.specs.Prelude.{◌<◌, ◌≤◌};
ghost use Rattle.geo_board.specs.declared.limits.TheConstants.{WORKER_LIMIT};

use crate::{Expression, PosedZero, read_expression, settle_zero};
use geo_grid::{Form, Grid};
use geo_settle::{Bench, First, OpenGate};
use geo_sketch::{Kind, Name, Sketch, Spec, Verdict};
use std::alloc::Global;
use std::test::Fail;
use std::thread::Threads;

const RELATION: &[u8] = b"zero [A,B,C] [A,D,E] - [A,B,D] [A,C,E] + [A,B,E] [A,C,D]";

const CONIC: &[u8] = b"zero [A,B,E] [A,C,F] [D,B,F] [D,C,E] - [D,B,E] [D,C,F] [A,B,F] [A,C,E]";

fn named(text: &str) -> Result<Name, Fail> {
    Ok(Name::new(text.as_bytes()).ok_or("no name")?)
}

/// Free points with these names.
fn free_points(alloc: Global, names: &[&str]) -> Result<Sketch, Fail> {
    let mut sketch = Sketch::new(alloc);
    for name in names {
        sketch.add(named(name)?, Kind::Point, &Spec::Free(0, 0))?;
    }
    Ok(sketch)
}

/// A, B, D and E are free, C lies on the line of A and B, and F on that of D and E.
fn two_lines(alloc: Global) -> Result<Sketch, Fail> {
    let mut sketch = free_points(alloc, &["A", "B"])?;
    let spec = Spec::Blend(named("A")?, named("B")?, 2);
    sketch.add(named("C")?, Kind::Point, &spec)?;
    for name in ["D", "E"] {
        sketch.add(named(name)?, Kind::Point, &Spec::Free(0, 0))?;
    }
    let spec = Spec::Blend(named("D")?, named("E")?, 3);
    sketch.add(named("F")?, Kind::Point, &spec)?;
    Ok(sketch)
}

/// How many grid points so many workers search, and what they find.
fn searched<R: Threads + Sync>(
    rt: &R,
    alloc: Global,
    sketch: &Sketch,
    line: &[u8],
    workers: u64,
) -> Result<(u64, First), Fail>
    requires { (0 < workers) × (workers ≤ WORKER_LIMIT) }
{
    let expression = read_expression(alloc, line)?.resolve(alloc, sketch)?;
    let posed = PosedZero::new(alloc, sketch, &expression)?;
    let Ok(grid) = Grid::of(alloc, &posed) else {
        return Err("no grid")?;
    };
    let size = grid.size();
    let first = Bench::prepare(alloc, &posed, &grid, workers)?.run(rt, &OpenGate);
    Ok((size, first))
}

/// The relation is 0 everywhere, and six free points need not be on a conic.
#[test]
fn finds_by_many_workers(rt: HostRuntime) -> Result<(), Fail> {
    let five = free_points(rt.alloc(), &["A", "B", "C", "D", "E"])?;
    let six = free_points(rt.alloc(), &["A", "B", "C", "D", "E", "F"])?;
    for workers in [1, 16] {
        let found = searched(&rt, rt.alloc(), &five, RELATION, workers)?;
        assert_eq!(rt; found, (486, First::Clear));
        let found = searched(&rt, rt.alloc(), &six, CONIC, workers)?;
        assert_eq!(rt; found, (46_656, First::At(1865)));
    }
    Ok(())
}

/// Where three of six points are on one line and three on another, they are on a conic.
#[test]
fn conic_of_two_lines(rt: HostRuntime) -> Result<(), Fail> {
    let lines = two_lines(rt.alloc())?;
    let found = searched(&rt, rt.alloc(), &lines, CONIC, 16)?;
    assert_eq!(rt; found, (455_625, First::Clear));
    Ok(())
}

/// The values at which it is not 0, by their parameters.
#[test]
fn verdict_on_six_points(rt: HostRuntime) -> Result<(), Fail> {
    let six = free_points(rt.alloc(), &["A", "B", "C", "D", "E", "F"])?;
    let expression = read_expression(rt.alloc(), CONIC)?.resolve(rt.alloc(), &six)?;
    let Verdict::False(values) = settle_zero(&rt, rt.alloc(), &six, &expression, 2, &OpenGate)?
    else {
        return Err("not false")?;
    };
    for (k, value) in [0, 0, 0, 1, 0, -1, 1, 0, 1, 1, -1, 0]
        .into_iter()
        .enumerate()
    {
        assert_eq!(rt; values.get(k), Some((k as u32, value)));
    }
    assert_eq!(rt; values.len(), 12);
    Ok(())
}

/// Each point is evaluated once, at however many places it stands.
#[test]
fn points_that_an_axis_moves(rt: HostRuntime) -> Result<(), Fail> {
    let lines = two_lines(rt.alloc())?;
    let expression = read_expression(rt.alloc(), CONIC)?.resolve(rt.alloc(), &lines)?;
    let posed = PosedZero::new(rt.alloc(), &lines, &expression)?;
    for (first, count) in [
        (0, 6),
        (1, 6),
        (2, 5),
        (4, 4),
        (5, 3),
        (7, 2),
        (9, 1),
        (10, 0),
    ] {
        assert_eq!(rt; posed.nodes_from(first), count, "from {first} on");
    }
    Ok(())
}
