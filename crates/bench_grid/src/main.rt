//! What bench/table.py times. Each line of the input has a figure, a way and a number: `grid`
//! goes over so many points of the statement's grid by a cursor, `lane` does so without, `wide`
//! does so outside of the lane, each of them counting where the statement fails; `pose` poses
//! the statement as often; `workers` lets so many search its whole grid; and `again` lets 16
//! workers search as often for the first point at which X, Y and A are not collinear.
#![tactic(auto)]

mod figures;
mod searches;
mod walks;

ghost use Rattle.geo_sketch.specs.Sketches.{IsPosed};

use anyhow::{Context, Result, bail};
use figures::{figure_of, named};
use geo_grid::{Form, Grid, GridStop, Posed};
use geo_sketch::{NoMemory, Said, Sketch, Statement};
use searches::{search, search_again};
use std::alloc::Global;
use std::io::Read;
use std::marker::Brand;
use std::sync::ledger::Blank;
use std::thread::Threads;
use walks::{over_grid, over_triangles};

/// How many axes the statement has that is posed so often.
fn pose(alloc: Global, sketch: &Sketch, statement: Statement, times: u64) -> Result<u64>
    requires { IsPosed sketch.now.elements statement }
{
    let mut axes = 0;
    for _ in 0..times {
        let posed = Posed::new(alloc, sketch, statement).ok().context("memory")?;
        axes = posed.axes().len() as u64;
    }
    Ok(axes)
}

/// At how many of so many points the statement fails.
fn count_failing(alloc: Global, posed: &Posed, way: &str, points: u64) -> Result<u64> {
    let failed = match (way, Grid::of(alloc, posed)) {
        ("grid", Ok(grid)) => over_grid::<Posed, Brand>(alloc, posed, &grid, points, Blank::new(1)),
        ("lane", Ok(_)) => over_triangles::<Posed, Brand>(
            alloc,
            posed,
            false,
            points,
            Blank::new(1),
        ),
        ("wide", Ok(_)) => over_triangles::<Posed, Brand>(
            alloc,
            posed,
            true,
            points,
            Blank::new(1),
        ),
        (_, Err(GridStop::NoMemory)) => Err(NoMemory),
        (_, Err(GridStop::Past(_))) => bail!("no grid"),
        (way, Ok(_)) => bail!("no way {way}"),
    };
    failed.ok().context("memory")
}

/// What a line asks for: at how many points its statement fails, how many axes it has, or the
/// index that was found.
fn carry_out<R: Threads + Sync>(rt: &R, alloc: Global, line: &str) -> Result<u64> {
    let (figure, rest) = line.split_once(' ').context("a figure")?;
    let (way, count) = rest.split_once(' ').context("a way and a number")?;
    let count = count.parse::<u64>().context("how many")?;
    let sketch = figure_of(alloc, figure)?;
    let third = if way == "again" { "A" } else { "Z" };
    let said = Said::Collinear(named("X")?, named("Y")?, named(third)?);
    let statement = sketch.resolve(&said).ok().context("a statement")?;
    if way == "pose" {
        return pose(alloc, &sketch, statement, count);
    }
    let posed = Posed::new(alloc, &sketch, statement)
        .ok()
        .context("memory")?;
    match way {
        "workers" => search(rt, alloc, &posed, count),
        "again" => search_again(rt, alloc, &posed, count),
        _ => count_failing(alloc, &posed, way, count),
    }
}

fn main(rt: HostRuntime) -> Result<()> {
    let mut input = String::new(rt.alloc());
    rt.reader().read_to_string(&mut input)?;
    for line in input.lines() {
        let count = carry_out(&rt, rt.alloc(), line)?;
        println!(rt; "{line}: {count}")?;
    }
    Ok(())
}
