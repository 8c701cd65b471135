//! The grid of a certificate: whether it is one for the degrees, its size, and how large its
//! values are.

ghost use Rattle.std.specs.Prelude.{◌≡◌, ◌<◌, ◌≤◌, ◌^◌, ◌++◌, ◌∷◌, [], nat_lt, not, IfOk, OnOk, MatchOption};
ghost use Rattle.std.specs.List.{AllByRecursion};
ghost use Rattle.geo_cert.specs.Grids.{Grid};
ghost use Rattle.geo_check.specs.Entries.{entry_shown};
ghost use Rattle.geo_check.specs.Grids.{are_different, are_enough, are_for, are_more, has_value, is_for, largest, magnitudes_in, own_magnitudes, points_in, size_of};
ghost use Rattle.geo_degree.specs.declared.limits.TheConstants.{SIZE_LIMIT};

use crate::entries::{Entry, entry_at};
use geo_cert::{DegreeEntry, GridList};
use geo_degree::SIZE_LIMIT;
use geo_sketch::NoMemory;
use std::alloc::Global;

/// The entries are for these degrees, in their order.
pub(crate) fn are_for(degrees: &[DegreeEntry], grid: &GridList) -> bool
    ensures { result ≡ are_for degrees.now grid.now }
{
    for (k, degree) in degrees.iter().enumerate() {
        match entry_at(grid, k) {
            Some(entry) => {
                if !is_for(degree, &entry) {
                    return false;
                }
            }
            None => return false,
        }
    }
    grid.len() <= degrees.len()
}

fn is_for(degree: &DegreeEntry, entry: &Entry) -> bool
    ensures { result ≡ is_for degree.now (entry_shown entry.now) }
{
    match (degree, entry) {
        (DegreeEntry::One(p, degree), Entry::One(q, values)) => {
            p == q && are_enough(values, *degree)
        }
        (DegreeEntry::Pair(p, q, degree), Entry::Pair(r, s, first, second)) => {
            p == r
                && q == s
                && first.len() == second.len()
                && are_enough(first, *degree)
                && are_enough(second, *degree)
        }
        _ => false,
    }
}

/// None stands twice, and there are more than the degree.
fn are_enough(values: &[i64], degree: i64) -> bool
    ensures { result ≡ are_enough values.now degree }
{
    are_different(values) && are_more(values, degree)
}

fn are_different(values: &[i64]) -> bool
    ensures { result ≡ are_different values.now }
{
    for i in 0..values.len() {
        if has_value(&values[i + 1..], values[i]) {
            return false;
        }
    }
    true
}

fn has_value(values: &[i64], value: i64) -> bool
    ensures { result ≡ has_value values.now value }
{
    for other in values {
        if *other == value {
            return true;
        }
    }
    false
}

fn are_more(values: &[i64], degree: i64) -> bool
    ensures { result ≡ are_more values.now degree }
{
    degree < 0 || degree.unsigned_abs() < values.len() as u64
}

/// There are at most 2^20 points.
pub(crate) fn is_small(grid: &GridList) -> bool
    requires { AllByRecursion (λ (g : Grid). 1 ≤ points_in g) grid.now }
    ensures { result ≡ not (nat_lt SIZE_LIMIT (size_of grid.now)) }
{
    let mut size: u64 = 1;
    for k in 0..grid.len() {
        let Some(entry) = entry_at(grid, k) else {
            return false;
        };
        let Some(count) = count_points(&entry) else {
            return false;
        };
        size *= count;
        if size > SIZE_LIMIT {
            return false;
        }
    }
    true
}

/// How many points an entry has, where they are not too many.
fn count_points(entry: &Entry) -> Option<u64>
    ensures { MatchOption result (SIZE_LIMIT < points_in (entry_shown entry.now)) (λ n. (n ≡ points_in (entry_shown entry.now)) × (n ≤ 2 ^ 40)) }
{
    match entry {
        Entry::One(_, values) => count_below(values.len()),
        Entry::Pair(_, _, first, _) => match count_below(first.len()) {
            Some(m) => Some(m * (m + 1) / 2),
            None => None,
        },
    }
}

/// The number, where it is at most the limit.
fn count_below(m: usize) -> Option<u64>
    ensures { MatchOption result (SIZE_LIMIT < m) (λ n. (n ≡ m) × (n ≤ SIZE_LIMIT)) }
{
    let count = m as u64;
    if count > SIZE_LIMIT {
        return None;
    }
    Some(count)
}

/// The largest absolute value for each parameter.
pub(crate) fn list_magnitudes(alloc: Global, grid: &GridList) -> Result<Vec<(u32, u64)>, NoMemory>
    ensures { IfOk result (λ magnitudes. magnitudes.items ≡ magnitudes_in grid.now) }
{
    let mut magnitudes = Vec::new(alloc);
    for k in 0..grid.len() {
        let Some(entry) = entry_at(grid, k) else {
            return Err(NoMemory);
        };
        add_magnitudes(&entry, &mut magnitudes)?;
    }
    Ok(magnitudes)
}

fn add_magnitudes(entry: &Entry, magnitudes: &mut Vec<(u32, u64)>) -> Result<(), NoMemory>
    ensures { OnOk result (magnitudes.new.items ≡ magnitudes.old.items ++ own_magnitudes (entry_shown entry.now)) }
{
    match entry {
        Entry::One(p, values) => push(magnitudes, (*p, largest(values))),
        Entry::Pair(p, q, first, second) => {
            push(magnitudes, (*p, largest(first)))?;
            push(magnitudes, (*q, largest(second)))
        }
    }
}

fn push(magnitudes: &mut Vec<(u32, u64)>, magnitude: (u32, u64)) -> Result<(), NoMemory>
    ensures { OnOk result (magnitudes.new.items ≡ magnitudes.old.items ++ magnitude ∷ []) }
{
    match magnitudes.push(magnitude) {
        Ok(()) => Ok(()),
        Err(_) => Err(NoMemory),
    }
}

fn largest(values: &[i64]) -> u64
    ensures { result ≡ largest values.now }
{
    let mut most = 0;
    for value in values {
        most = value.unsigned_abs().max(most);
    }
    most
}
