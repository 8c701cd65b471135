//! Ways over many points, each of which counts those at which a part of a form is not 0.

ghost use Rattle.std.specs.Prelude.{◌≡◌, ◌<◌, ◌≤◌, All, IfOk, length, unsigned_abs};
ghost use Rattle.geo_degree.specs.Questions.{IsWithinLimits};
ghost use Rattle.geo_grid.specs.Values.{AgreeBefore};

use geo_grid::{Axis, Cursor, Form, Grid, Scratch};
use geo_sketch::NoMemory;
use geo_triple::Steps;
use std::alloc::Global;
use std::sync::ledger::{Blank, Ledger};

/// Over the points of the grid, from the first to the last and from the first again, as often
/// as it takes.
pub(crate) fn over_grid<F: Form, L: Ledger>(
    alloc: Global,
    form: &F,
    grid: &Grid,
    points: u64,
    blank: Blank,
) -> Result<u64, NoMemory>
    requires grid { grid.now ≡ (F.question form.now).blocks }
    requires within { IsWithinLimits (F.question form.now) }
    requires name { blank.name ≡ L.name }
    requires parts { blank.parts ≡ L.parts }
    requires some { 0 < blank.parts }
{
    let mut steps = Steps::<L>::new(blank);
    let mut cursor = Cursor::new(alloc, form, grid)?;
    let mut failed = 0u64;
    cursor.seek(0, &mut steps);
    for _ in 0..points {
        if cursor.failing() {
            failed = failed.saturating_add(1);
        }
        if !cursor.next(&mut steps) {
            cursor.seek(0, &mut steps);
        }
    }
    Ok(failed)
}

/// Over the points of the grid, in its order, as often as it takes, with the work of the form
/// alone. Where `is_wide` says so, the work first stands for values beyond the grid, and is
/// gone on from. An axis has at most seven values here.
pub(crate) fn over_triangles<F: Form, L: Ledger>(
    alloc: Global,
    form: &F,
    is_wide: bool,
    points: u64,
    blank: Blank,
) -> Result<u64, NoMemory>
    requires name { blank.name ≡ L.name }
    requires parts { blank.parts ≡ L.parts }
    requires some { 0 < blank.parts }
{
    let mut steps = Steps::<L>::new(blank);
    let mut work = form.scratch(alloc)?;
    let count = form.axes().len();
    let mut digits = zeros(alloc, count)?;
    let mut values = same(alloc, 0, count)?;
    let far = same(alloc, 3, count)?;
    if is_wide {
        form.refresh(&far, 0, &mut work, &mut steps);
    }
    let mut failed = 0u64;
    let mut first = 0;
    for _ in 0..points {
        form.refresh(&values, first, &mut work, &mut steps);
        if form.failing(&work) {
            failed = failed.saturating_add(1);
        }
        first = carry(form.axes(), &mut digits, &mut values);
    }
    Ok(failed)
}

fn zeros(alloc: Global, count: usize) -> Result<Vec<u64>, NoMemory>
    ensures { IfOk result (λ digits. length digits.items ≡ count) }
{
    match vec![in alloc; 0; count] {
        Ok(digits) => Ok(digits),
        Err(_) => Err(NoMemory),
    }
}

fn same(alloc: Global, value: i64, count: usize) -> Result<Vec<i64>, NoMemory>
    requires { unsigned_abs value ≤ 3 }
    ensures count { IfOk result (λ values. length values.items ≡ count) }
    ensures small { IfOk result (λ values. All (λ x. unsigned_abs x ≤ 3) values.items) }
{
    match vec![in alloc; value; count] {
        Ok(values) => Ok(values),
        Err(_) => Err(NoMemory),
    }
}

/// Makes the digits and the values those at the next point, and gives the place of the first
/// that changes.
fn carry(axes: &[Axis], digits: &mut [u64], values: &mut [i64]) -> usize
    requires digits { length digits.old ≡ length axes.now }
    requires count { length values.old ≡ length axes.now }
    requires small { All (λ x. unsigned_abs x ≤ 3) values.old }
    ensures digits { length digits.new ≡ length digits.old }
    ensures count { length values.new ≡ length values.old }
    ensures small { All (λ x. unsigned_abs x ≤ 3) values.new }
    ensures before { AgreeBefore result values.old values.new }
{
    for place in (0..axes.len()).rev() {
        if digits[place] < greatest_digit(axes, digits, place) {
            digits[place] += 1;
            values[place] = value_of(digits[place]);
            return place;
        }
        digits[place] = 0;
        values[place] = 0;
    }
    0
}

/// The greatest digit at a place: the two of a free point together are at most the degree.
fn greatest_digit(axes: &[Axis], digits: &[u64], place: usize) -> u64
    requires digits { length digits.now ≡ length axes.now }
    requires within { place < length axes.now }
    ensures { result ≤ 6 }
{
    let degree = axes[place].degree.min(6);
    if axes[place].param % 2 == 1 && place > 0 {
        degree.saturating_sub(digits[place - 1])
    } else {
        degree
    }
}

/// The value of a digit, of 0, 1, -1, 2, -2, 3, -3.
fn value_of(digit: u64) -> i64
    ensures { unsigned_abs result ≤ 3 }
{
    match digit {
        0 => 0,
        1 => 1,
        2 => -1,
        3 => 2,
        4 => -2,
        5 => 3,
        _ => -3,
    }
}
