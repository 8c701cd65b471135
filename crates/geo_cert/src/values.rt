//! The JSON value of a certificate.

ghost use Rattle.std.specs.Prelude.{◌≡◌, IfOk, map};
ghost use Rattle.serde_json.specs.Data.{array};
ghost use Rattle.serde_json.specs.View.{view};
ghost use Rattle.geo_cert.specs.Entries.{grid_of_entry};
ghost use Rattle.geo_cert.specs.Shapes.{certificate_data, claim_items, degree_items, element_items, finding_data, grid_items, row_data, rows_data, value_items, wholes_items};
ghost use Rattle.geo_cert.specs.Words.{text_of_kind};
ghost use Rattle.geo_cert.specs.Written.{written_version};
ghost use Rattle.geo_cert.specs.declared.certificates.Finding.TheVariants.{Proved as ProvedFinding, False as FalseFinding};

use crate::certificates::{Certificate, Finding};
use crate::degree_lists::{DegreeEntry, DegreeList};
use crate::element_lists::ElementList;
use crate::grid_lists::{GridEntry, GridList};
use geo_sketch::{Def, Kind, Statement, Values};
use serde_json::{Value, json};
use std::alloc::{AllocError, Global};

/// The object that a certificate is, in the version that is written.
pub(crate) fn certificate_value(
    alloc: Global,
    certificate: &Certificate,
) -> Result<Value, AllocError>
    ensures { IfOk result (λ v. view v ≡ certificate_data written_version certificate.now) }
{
    let claim = claim_value(alloc, &certificate.claim)?;
    let elements = elements_value(alloc, &certificate.elements)?;
    match &certificate.finding {
        Finding::Proved(degrees, grid) => {
            let degrees = degrees_value(alloc, degrees)?;
            let grid = grid_values(alloc, grid)?;
            json!(in alloc; {"claim": claim, "degrees": degrees, "elements": elements, "grid": grid, "verdict": "proved", "version": 2})
        }
        Finding::False(values) => {
            let values = values_value(alloc, values)?;
            json!(in alloc; {"claim": claim, "elements": elements, "values": values, "verdict": "false", "version": 2})
        }
    }
}

fn elements_value(alloc: Global, elements: &ElementList) -> Result<Value, AllocError>
    ensures { IfOk result (λ v. view v ≡ rows_data element_items elements.now) }
{
    let mut rows = Vec::new(alloc);
    for element in elements.as_slice() {
        rows.push(element_value(alloc, element)?)?;
    }
    Ok(Value::Array(rows))
}

fn element_value(alloc: Global, element: &(u32, Kind, Def)) -> Result<Value, AllocError>
    ensures { IfOk result (λ v. view v ≡ row_data element_items element.now) }
{
    let (number, kind, def) = *element;
    let kind = word_of_kind(kind);
    match def {
        Def::Free => json!(in alloc; [number, kind, "free"]),
        Def::Fixed(a, b, c) => json!(in alloc; [number, kind, "fixed", a, b, c]),
        Def::Cut(k) => json!(in alloc; [number, kind, "cut", k]),
        Def::Blend(k, m) => json!(in alloc; [number, kind, "blend", k, m]),
        Def::Cross(k, m) => json!(in alloc; [number, kind, "cross", k, m]),
    }
}

fn word_of_kind(kind: Kind) -> &'static str
    ensures { result.now ≡ text_of_kind kind }
{
    match kind {
        Kind::Point => "point",
        Kind::Line => "line",
    }
}

fn claim_value(alloc: Global, claim: &Statement) -> Result<Value, AllocError>
    ensures { IfOk result (λ v. view v ≡ row_data claim_items claim.now) }
{
    match *claim {
        Statement::Null(n) => json!(in alloc; ["null", n]),
        Statement::Same(n, m) => json!(in alloc; ["same", n, m]),
        Statement::On(n, m) => json!(in alloc; ["on", n, m]),
        Statement::Triple(n, m, k) => json!(in alloc; ["triple", n, m, k]),
    }
}

fn degrees_value(alloc: Global, degrees: &DegreeList) -> Result<Value, AllocError>
    ensures { IfOk result (λ v. view v ≡ rows_data degree_items degrees.now) }
{
    let mut rows = Vec::new(alloc);
    for entry in degrees.as_slice() {
        rows.push(degree_value(alloc, entry)?)?;
    }
    Ok(Value::Array(rows))
}

fn degree_value(alloc: Global, entry: &DegreeEntry) -> Result<Value, AllocError>
    ensures { IfOk result (λ v. view v ≡ row_data degree_items entry.now) }
{
    match *entry {
        DegreeEntry::One(p, degree) => json!(in alloc; [p, degree]),
        DegreeEntry::Pair(p, q, degree) => json!(in alloc; [p, q, degree]),
    }
}

fn values_value(alloc: Global, values: &Values) -> Result<Value, AllocError>
    ensures { IfOk result (λ v. view v ≡ rows_data value_items values.now) }
{
    let mut rows = Vec::new(alloc);
    for k in 0..values.len() {
        match values.get(k) {
            Some((param, value)) => rows.push(value_row(alloc, param, value)?)?,
            None => unreachable!(),
        }
    }
    Ok(Value::Array(rows))
}

fn value_row(alloc: Global, param: u32, value: i64) -> Result<Value, AllocError>
    ensures { IfOk result (λ v. view v ≡ row_data value_items (param, value)) }
{
    json!(in alloc; [param, value])
}

fn grid_values(alloc: Global, grid: &GridList) -> Result<Value, AllocError>
    ensures { IfOk result (λ v. view v ≡ rows_data grid_items grid.now) }
{
    grid_rows(alloc, grid.as_slice())
}

fn grid_rows(alloc: Global, entries: &[GridEntry]) -> Result<Value, AllocError>
    ensures { IfOk result (λ v. view v ≡ rows_data grid_items (map grid_of_entry entries.now)) }
{
    let mut rows = Vec::new(alloc);
    for entry in entries {
        rows.push(grid_value(alloc, entry)?)?;
    }
    Ok(Value::Array(rows))
}

fn grid_value(alloc: Global, entry: &GridEntry) -> Result<Value, AllocError>
    ensures { IfOk result (λ v. view v ≡ row_data grid_items (grid_of_entry entry.now)) }
{
    match entry {
        GridEntry::One(p, values) => {
            let values = wholes_value(alloc, values)?;
            json!(in alloc; [*p, values])
        }
        GridEntry::Pair(p, q, first, second) => {
            let first = wholes_value(alloc, first)?;
            let second = wholes_value(alloc, second)?;
            json!(in alloc; [*p, *q, first, second])
        }
    }
}

fn wholes_value(alloc: Global, values: &[i64]) -> Result<Value, AllocError>
    ensures { IfOk result (λ v. view v ≡ array (wholes_items values.now)) }
{
    let mut row = Vec::new(alloc);
    for value in values {
        row.push(Value::from(*value))?;
    }
    Ok(Value::Array(row))
}
