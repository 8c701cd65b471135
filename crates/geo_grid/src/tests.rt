//! A form that has nothing to do with sketches: whether (x - y) z is 0.

ghost use Rattle.std.specs.Prelude.{◌≡◌, ◌<◌, ◌≤◌, ◌+◌, ◌∷◌, [], pos, length, slice_index_or, true};
ghost use Rattle.geo_degree.specs.Grids.{axis, grid_size};
ghost use Rattle.geo_degree.specs.Questions.{grid_of};
ghost use Rattle.geo_grid.specs.Values.{axis_count};
ghost use Rattle.geo_grid.specs.Products.{AreProper, factor_at, numbers_at};

use crate::{Axis, Block, Cursor, Form, Grid, GridStop, Scratch};
use geo_sketch::{NoMemory, Past};
use geo_triple::Steps;
use std::alloc::Global;
use std::marker::Brand;
use std::sync::ledger::{Blank, Ledger};
use std::test::Fail;

/// The product, with a Pair for x and y and an axis for z by itself. A work has three numbers:
/// 1 where it stands for some values and else 0, and the factors x - y and z.
#[derive(Drop)]
struct Product {
    axes: [Axis; 3],
    blocks: [Block; 2],
    ghost proper: { AreProper axes blocks },
}

impl Form for Product {
    ghost use Rattle.std.specs.Prelude.{◌≡◌, ◌-◌, min};
    ghost use Rattle.geo_grid.specs.Products.{no_numbers, numbers_at, product_question};
    ghost use Rattle.geo_grid.specs.ProductLaws.{fresh_or_used, product_form};

    ghost question = { λ f. product_question f.axes f.blocks };

    ghost is_fresh = { λ f work. work.numbers.items ≡ no_numbers };

    ghost stands_for = { λ f work xs. work.numbers.items ≡ numbers_at xs };

    ghost moved_count = { λ f first. min 2 (3 - first) };

    fn parts(&self) -> usize {
        1
    }

    fn axes(&self) -> &[Axis] {
        &self.axes
    }

    fn blocks(&self) -> &[Block] {
        &self.blocks
    }

    fn height(&self, magnitudes: &[u64]) -> Option<u128> {
        let _axes = &self.axes;
        let factor = u128::from(magnitudes[0]) + u128::from(magnitudes[1]);
        Some(factor * u128::from(magnitudes[2]))
    }

    fn scratch(&self, alloc: Global) -> Result<Scratch, NoMemory> {
        match vec![in alloc; 0; 3] {
            Ok(numbers) => Ok(Scratch {
                triples: Vec::new(alloc),
                numbers,
            }),
            Err(_) => Err(NoMemory),
        }
    }

    fn nodes_from(&self, first: usize) -> u64 {
        3usize.saturating_sub(first).min(2) as u64
    }

    fn refresh<L: Ledger>(
        &self,
        values: &[i64],
        first: usize,
        work: &mut Scratch,
        steps: &mut Steps<L>,
    ) {
        let first = if work.numbers[0] == 0 { 0 } else { first };
        match first {
            0 | 1 => {
                put_first(values, &mut work.numbers, steps);
                put_second(values, &mut work.numbers, steps);
            }
            2 => put_second(values, &mut work.numbers, steps),
            _ => {}
        }
    }

    fn failing(&self, work: &Scratch) -> bool {
        work.numbers[1] != 0 && work.numbers[2] != 0
    }

    ghost is_form = { λ f. product_form f.axes f.blocks f.proper };

    ghost not_both = { λ f work xs. fresh_or_used work.numbers.items xs };
}

fn put_first<L: Ledger>(values: &[i64], numbers: &mut [i128], steps: &mut Steps<L>)
    requires values { length values.now ≡ 3 }
    requires numbers { length numbers.old ≡ 3 }
    ensures mark { slice_index_or numbers.new 0 (pos 0) ≡ pos 1 }
    ensures factor { slice_index_or numbers.new 1 (pos 0) ≡ factor_at values.now }
    ensures ticks { steps.new ≡ steps.old + 1 }
{
    numbers[0] = 1;
    numbers[1] = i128::from(values[0]) - i128::from(values[1]);
    steps.tick();
}

fn put_second<L: Ledger>(values: &[i64], numbers: &mut [i128], steps: &mut Steps<L>)
    requires values { length values.now ≡ 3 }
    requires numbers { length numbers.old ≡ 3 }
    requires mark { slice_index_or numbers.old 0 (pos 0) ≡ pos 1 }
    requires factor { slice_index_or numbers.old 1 (pos 0) ≡ factor_at values.now }
    ensures numbers { numbers.new ≡ numbers_at values.now }
    ensures ticks { steps.new ≡ steps.old + 1 }
{
    numbers[2] = i128::from(values[2]);
    steps.tick();
}

fn of_degrees(pair: u64, one: u64) -> Product
    requires pair { 0 < pair }
    requires one { 0 < one }
    ensures axes { result.axes ≡ axis 0 pair ∷ axis 1 pair ∷ axis 2 one ∷ [] }
    ensures blocks { result.blocks ≡ Block.Pair pair ∷ Block.One one ∷ [] }
{
    Product {
        axes: [
            Axis {
                param: 0,
                degree: pair,
            },
            Axis {
                param: 1,
                degree: pair,
            },
            Axis {
                param: 2,
                degree: one,
            },
        ],
        blocks: [Block::Pair(pair), Block::One(one)],
    }
}

fn grid_size_of(alloc: Global, pair: u64, one: u64) -> Result<u64, GridStop>
    requires pair { 0 < pair }
    requires one { 0 < one }
{
    match Grid::of(alloc, &of_degrees(pair, one)) {
        Ok(grid) => Ok(grid.size()),
        Err(stop) => Err(stop),
    }
}

/// A Pair of degree d has (d + 1)(d + 2) / 2 points and a One d + 1, and 2^20 of them are not
/// too many.
#[test]
fn sizes(rt: HostRuntime) {
    let alloc = rt.alloc();
    let past = Err(GridStop::Past(Past::Size));
    assert_eq!(rt; grid_size_of(alloc, 1, 2), Ok(9));
    assert_eq!(rt; grid_size_of(alloc, 6, 1), Ok(56));
    assert_eq!(rt; grid_size_of(alloc, 1, 349_524), Ok(1_048_575));
    assert_eq!(rt; grid_size_of(alloc, 1, 349_525), past);
    assert_eq!(rt; grid_size_of(alloc, 1446, 1), past);
    assert_eq!(rt; grid_size_of(alloc, 1 << 32, 1 << 32), past);
    assert_eq!(rt; grid_size_of(alloc, u64::MAX, 1), past);
    assert_eq!(rt; grid_size_of(alloc, 1, u64::MAX), past);
}

/// The values of the axes, point by point.
fn points_of(alloc: Global, grid: &Grid, axes: usize) -> Result<Vec<i64>, Fail>
    requires { axes ≡ axis_count grid.now }
{
    let mut values = vec![in alloc; 0; axes]?;
    let mut points = Vec::new(alloc);
    for index in 0..grid.size() {
        grid.point(index, &mut values);
        points.extend_from_slice(&values)?;
    }
    Ok(points)
}

/// Whether it fails at each point, and whether the cursor went further then.
fn onward<F: Form, L: Ledger>(
    alloc: Global,
    cursor: &mut Cursor<F>,
    times: u64,
    steps: &mut Steps<L>,
) -> Result<Vec<(bool, bool)>, Fail>
    requires { cursor.old.2 ≡ true }
    ensures { cursor.new.0 ≡ cursor.old.0 }
{
    let mut seen = Vec::new(alloc);
    for _ in 0..times {
        let failing = cursor.failing();
        seen.push((failing, cursor.next(steps)))?;
    }
    Ok(seen)
}

/// Whether it fails at the point with each index, from the last to the first.
fn backward<F: Form, L: Ledger>(
    alloc: Global,
    cursor: &mut Cursor<F>,
    size: u64,
    steps: &mut Steps<L>,
) -> Result<Vec<bool>, Fail>
    requires { size ≡ grid_size (grid_of (F.question cursor.old.0)) }
{
    let mut seen = Vec::new(alloc);
    for index in (0..size).rev() {
        cursor.seek(index, steps);
        seen.push(cursor.failing())?;
    }
    Ok(seen)
}

/// What is seen on the way over a grid.
#[derive(Drop)]
struct Seen {
    points: Vec<i64>,
    onward: Vec<(bool, bool)>,
    backward: Vec<bool>,
}

/// Goes over the whole grid, and tries to go further two times.
fn go_over<F: Form, L: Ledger>(alloc: Global, form: &F, blank: Blank) -> Result<Seen, Fail>
    requires name { blank.name ≡ L.name }
    requires parts { blank.parts ≡ L.parts }
    requires some { 0 < blank.parts }
{
    let grid = match Grid::of(alloc, form) {
        Ok(grid) => grid,
        Err(_) => Err("no grid")?,
    };
    let size = grid.size();
    let mut steps = Steps::<L>::new(blank);
    let mut cursor = Cursor::new(alloc, form, &grid)?;
    cursor.seek(0, &mut steps);
    Ok(Seen {
        points: points_of(alloc, &grid, form.axes().len())?,
        onward: onward(alloc, &mut cursor, size + 2, &mut steps)?,
        backward: backward(alloc, &mut cursor, size, &mut steps)?,
    })
}

/// The part is (x - y) z, at the values 0, 1 and -1 number i and j of x and y with i + j at
/// most 2, and at z = 0, 1. The last axis runs fastest.
#[test]
fn walks(rt: HostRuntime) -> Result<(), Fail> {
    let seen = go_over::<Product, Brand>(rt.alloc(), &of_degrees(2, 1), Blank::new(1))?;
    let points = [
        0, 0, 0, 0, 0, 1, 0, 1, 0, 0, 1, 1, 0, -1, 0, 0, -1, 1, 1, 0, 0, 1, 0, 1, 1, 1, 0, 1, 1, 1,
        -1, 0, 0, -1, 0, 1,
    ];
    assert_eq!(rt; seen.points.as_slice(), points.as_slice());
    let onward = [
        (false, true),
        (false, true),
        (false, true),
        (true, true),
        (false, true),
        (true, true),
        (false, true),
        (true, true),
        (false, true),
        (false, true),
        (false, true),
        (true, false),
        (true, false),
        (true, false),
    ];
    assert_eq!(rt; seen.onward.as_slice(), onward.as_slice());
    let backward = [
        true, false, false, false, true, false, true, false, true, false, false, false,
    ];
    assert_eq!(rt; seen.backward.as_slice(), backward.as_slice());
    Ok(())
}

/// From the third point to the fourth z alone changes: one element at most is evaluated.
fn to_the_fourth<L: Ledger>(cursor: &mut Cursor<Product>, steps: &mut Steps<L>) -> bool
    requires blocks { cursor.old.0.blocks ≡ Block.Pair 1 ∷ Block.One 1 ∷ [] }
    requires third { cursor.old ≡ (cursor.old.0, 2, true) }
    ensures fourth { cursor.new ≡ (cursor.old.0, 3, true) }
    ensures ticks { steps.new ≤ steps.old + 1 }
{
    cursor.next(steps)
}

fn fourth_fails<L: Ledger>(alloc: Global, form: &Product, blank: Blank) -> Result<bool, Fail>
    requires blocks { form.now.blocks ≡ Block.Pair 1 ∷ Block.One 1 ∷ [] }
    requires name { blank.name ≡ L.name }
    requires parts { blank.parts ≡ L.parts }
    requires some { 0 < blank.parts }
{
    let grid = match Grid::of(alloc, form) {
        Ok(grid) => grid,
        Err(_) => Err("no grid")?,
    };
    let mut steps = Steps::<L>::new(blank);
    let mut cursor = Cursor::new(alloc, form, &grid)?;
    cursor.seek(2, &mut steps);
    to_the_fourth(&mut cursor, &mut steps);
    Ok(cursor.failing())
}

#[test]
fn what_depends_on_an_axis(rt: HostRuntime) -> Result<(), Fail> {
    let form = of_degrees(1, 1);
    assert_eq!(rt; form.nodes_from(1), 2);
    assert_eq!(rt; form.nodes_from(2), 1);
    assert_eq!(rt; form.nodes_from(3), 0);
    assert!(rt; fourth_fails::<Brand>(rt.alloc(), &form, Blank::new(1))?);
    Ok(())
}
