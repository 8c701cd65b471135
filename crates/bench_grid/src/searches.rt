//! Searches over the whole grid of a statement, by one worker or by several.

ghost use Rattle.std.specs.Prelude.{◌<◌, ◌≤◌};

use anyhow::{Context, Result, bail};
use geo_grid::{Grid, Posed};
use geo_settle::{Bench, First, OpenGate};
use std::alloc::Global;
use std::thread::Threads;

fn first_of<R: Threads + Sync>(rt: &R, alloc: Global, posed: &Posed, workers: u64) -> Result<First>
    requires { (0 < workers) × (workers ≤ 16) }
{
    let grid = Grid::of(alloc, posed).ok().context("a grid")?;
    let bench = Bench::prepare(alloc, posed, &grid, workers)
        .ok()
        .context("memory")?;
    Ok(bench.run(rt, &OpenGate))
}

/// At how many points the statement was found to fail by so many workers: 1, or 0 for none.
pub(crate) fn search<R: Threads + Sync>(
    rt: &R,
    alloc: Global,
    posed: &Posed,
    workers: u64,
) -> Result<u64> {
    if !(1..=16).contains(&workers) {
        bail!("no number of workers {workers}");
    }
    match first_of(rt, alloc, posed, workers)? {
        First::Clear => Ok(0),
        First::At(_) => Ok(1),
    }
}

/// The index that each of so many searches by 16 workers finds, where all find the same.
pub(crate) fn search_again<R: Threads + Sync>(
    rt: &R,
    alloc: Global,
    posed: &Posed,
    times: u64,
) -> Result<u64> {
    let First::At(index) = first_of(rt, alloc, posed, 1)? else {
        bail!("nothing was found");
    };
    for _ in 0..times {
        if first_of(rt, alloc, posed, 16)? != First::At(index) {
            bail!("not {index} each time");
        }
    }
    Ok(index)
}
