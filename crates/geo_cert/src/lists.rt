//! The lists of a certificate.

ghost use Rattle.std.specs.Prelude.{◌≡◌, IfOk, OnOk, option_map};
ghost use Rattle.serde_json.specs.View.{view, items_view};
ghost use Rattle.geo_cert.specs.Reading.{degree_in, element_in, grid_in, grid_of_rows, two_rows, value_in};
ghost use Rattle.geo_cert.specs.Entries.{grid_of_entry, rows_shown};
ghost use Rattle.geo_cert.specs.Rows.{all_in, row_in, rows_in};

use crate::degree_lists::{DegreeEntry, DegreeList};
use crate::element_lists::ElementList;
use crate::grid_lists::{GridEntry, GridList};
use crate::rows::{row_of, wholes_of};
use crate::shapes::{GridRows, degree_of, element_of, grid_rows_of, value_of};
use geo_sketch::{Def, Kind, NoMemory, Values};
use serde_json::Value;
use std::alloc::Global;

/// A list of elements; None where it is no such list.
pub fn elements_of(alloc: Global, value: &Value) -> Result<Option<ElementList>, NoMemory>
    ensures { IfOk result (λ o. o ≡ rows_in element_in (view value.now)) }
{
    match row_of(value) {
        Some(rows) => list_elements(alloc, rows),
        None => Ok(None),
    }
}

fn list_elements(alloc: Global, rows: &[Value]) -> Result<Option<ElementList>, NoMemory>
    ensures { IfOk result (λ o. o ≡ all_in (row_in element_in) (items_view rows.now)) }
{
    let mut all = ElementList::new(alloc);
    for row in rows {
        match element_row(row) {
            Some((number, kind, def)) => all.push(number, kind, def)?,
            None => return Ok(None),
        }
    }
    Ok(Some(all))
}

fn element_row(row: &Value) -> Option<(u32, Kind, Def)>
    ensures { result ≡ row_in element_in (view row.now) }
{
    let values = row_of(row)?;
    element_of(values)
}

/// A list of degrees; None where it is no such list.
pub fn degrees_of(alloc: Global, value: &Value) -> Result<Option<DegreeList>, NoMemory>
    ensures { IfOk result (λ o. o ≡ rows_in degree_in (view value.now)) }
{
    match row_of(value) {
        Some(rows) => list_degrees(alloc, rows),
        None => Ok(None),
    }
}

fn list_degrees(alloc: Global, rows: &[Value]) -> Result<Option<DegreeList>, NoMemory>
    ensures { IfOk result (λ o. o ≡ all_in (row_in degree_in) (items_view rows.now)) }
{
    let mut all = DegreeList::new(alloc);
    for row in rows {
        match degree_row(row) {
            Some(entry) => all.push(entry)?,
            None => return Ok(None),
        }
    }
    Ok(Some(all))
}

fn degree_row(row: &Value) -> Option<DegreeEntry>
    ensures { result ≡ row_in degree_in (view row.now) }
{
    let values = row_of(row)?;
    degree_of(values)
}

/// A list of parameters with their values; None where it is no such list.
pub fn values_of(alloc: Global, value: &Value) -> Result<Option<Values>, NoMemory>
    ensures { IfOk result (λ o. o ≡ rows_in value_in (view value.now)) }
{
    match row_of(value) {
        Some(rows) => list_values(alloc, rows),
        None => Ok(None),
    }
}

fn list_values(alloc: Global, rows: &[Value]) -> Result<Option<Values>, NoMemory>
    ensures { IfOk result (λ o. o ≡ all_in (row_in value_in) (items_view rows.now)) }
{
    let mut all = Values::new(alloc);
    for row in rows {
        match value_row(row) {
            Some((param, value)) => all.push(param, value)?,
            None => return Ok(None),
        }
    }
    Ok(Some(all))
}

fn value_row(row: &Value) -> Option<(u32, i64)>
    ensures { result ≡ row_in value_in (view row.now) }
{
    let values = row_of(row)?;
    value_of(values)
}

/// A list of parameters with their grid values; None where it is no such list.
pub fn grid_of(alloc: Global, value: &Value) -> Result<Option<GridList>, NoMemory>
    ensures { IfOk result (λ o. o ≡ rows_in grid_in (view value.now)) }
{
    match row_of(value) {
        Some(rows) => list_grid(alloc, rows),
        None => Ok(None),
    }
}

fn list_grid(alloc: Global, rows: &[Value]) -> Result<Option<GridList>, NoMemory>
    ensures { IfOk result (λ o. o ≡ all_in (row_in grid_in) (items_view rows.now)) }
{
    let mut all = GridList::new(alloc);
    for row in rows {
        match grid_row(alloc, row) {
            Ok(Some(entry)) => all.push(entry)?,
            Ok(None) => return Ok(None),
            Err(stop) => return Err(stop),
        }
    }
    Ok(Some(all))
}

fn grid_row(alloc: Global, row: &Value) -> Result<Option<GridEntry>, NoMemory>
    ensures { IfOk result (λ o. option_map grid_of_entry o ≡ row_in grid_in (view row.now)) }
{
    let Some(values) = row_of(row) else {
        return Ok(None);
    };
    match grid_rows_of(values) {
        Some(rows) => read_grid_rows(alloc, &rows),
        None => Ok(None),
    }
}

fn read_grid_rows(alloc: Global, rows: &GridRows) -> Result<Option<GridEntry>, NoMemory>
    ensures { IfOk result (λ o. option_map grid_of_entry o ≡ grid_of_rows (rows_shown rows.now)) }
{
    match rows {
        GridRows::One(p, values) => match wholes_of(alloc, values) {
            Ok(Some(values)) => Ok(Some(GridEntry::One(*p, values))),
            Ok(None) => Ok(None),
            Err(stop) => Err(stop),
        },
        GridRows::Pair(p, q, first, second) => read_pair(alloc, *p, *q, first, second),
    }
}

fn read_pair(
    alloc: Global,
    p: u32,
    q: u32,
    first: &[Value],
    second: &[Value],
) -> Result<Option<GridEntry>, NoMemory>
    ensures { IfOk result (λ o. option_map grid_of_entry o ≡ grid_of_rows (two_rows p q (items_view first.now) (items_view second.now))) }
{
    let Some(first) = wholes_of(alloc, first)? else {
        return Ok(None);
    };
    match wholes_of(alloc, second)? {
        Some(second) => Ok(Some(GridEntry::Pair(p, q, first, second))),
        None => Ok(None),
    }
}
