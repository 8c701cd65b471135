//! Making the certificate of a verdict.

ghost use Rattle.std.specs.Prelude.{◌≡◌, ◌≤◌, ◌<◌, ◌+◌, ◌++◌, ◌∷◌, [], IfOk, OnOk, if◌then◌else◌, map};
ghost use Rattle.std.specs.Option.{IfSome, option_to_list};
ghost use Rattle.geo_sketch.specs.Lookups.{IsLive};
ghost use Rattle.geo_sketch.specs.Needs.{entry_of, needed_list, needs as is_needed, AtStated};
ghost use Rattle.geo_sketch.specs.Sketches.{IsPosed};
ghost use Rattle.geo_sketch.specs.declared.limits.TheConstants.{NUMBER_LIMIT};
ghost use Rattle.geo_degree.specs.Degrees.{statement_degree, statement_degree_limit};
ghost use Rattle.geo_degree.specs.Grids.{grid_values as first_grid_values};
ghost use Rattle.geo_cert.specs.Making.{certificate_by, degrees_of, element_degree, finding_by, values_for, IsLowEntry};
ghost use Rattle.geo_cert.specs.declared.certificates.Finding.TheVariants.{Proved as ProvedFinding};

use crate::certificates::{Certificate, Finding};
use crate::degree_lists::{DegreeEntry, DegreeList};
use crate::element_lists::ElementList;
use crate::grid_lists::GridList;
use geo_degree::{Degrees, grid_value};
use geo_sketch::{
    Def, Element, NoMemory, Sketch, Statement, Values, Verdict, copy_values, first_parameter,
    second_parameter,
};
use std::alloc::Global;

/// The certificate of a statement with its verdict; none where the verdict is not settled.
/// It has the elements that the statement needs, by rising number and with their kinds at
/// the time, the degrees of the statement and the grid that they lead to, or the values at
/// which the statement fails.
pub fn make(
    alloc: Global,
    sketch: &Sketch,
    s: &Statement,
    verdict: &Verdict,
) -> Result<Option<Certificate>, NoMemory>
    requires { IsPosed sketch.now.elements s.now }
    ensures { IfOk result (λ o. o ≡ certificate_by sketch.now.elements s.now verdict.now) }
{
    let Some(finding) = find(alloc, sketch, s, verdict)? else {
        return Ok(None);
    };
    let elements = list_needed(alloc, sketch, s)?;
    Ok(Some(Certificate {
        elements,
        claim: *s,
        finding,
    }))
}

/// What the verdict says that was found.
fn find(
    alloc: Global,
    sketch: &Sketch,
    s: &Statement,
    verdict: &Verdict,
) -> Result<Option<Finding>, NoMemory>
    requires { AtStated s.now (IsLive sketch.now.elements) }
    ensures { IfOk result (λ o. o ≡ finding_by sketch.now.elements s.now verdict.now) }
{
    match verdict {
        Verdict::Proved => Ok(Some(proved(alloc, sketch, s)?)),
        Verdict::False(values) => Ok(Some(Finding::False(copy_values(alloc, values)?))),
        Verdict::Unsettled(_) => Ok(None),
    }
}

/// The degrees of a statement, and the grid that they lead to.
fn proved(alloc: Global, sketch: &Sketch, s: &Statement) -> Result<Finding, NoMemory>
    requires { AtStated s.now (IsLive sketch.now.elements) }
    ensures { IfOk result (λ found. found ≡ ProvedFinding (degrees_of sketch.now.elements s.now) (map values_for (degrees_of sketch.now.elements s.now))) }
{
    let table = Degrees::of(alloc, sketch)?;
    let mut degrees = DegreeList::new(alloc);
    let mut grid = GridList::new(alloc);
    for element in sketch.elements() {
        add_degree(alloc, &table, s, element, &mut degrees, &mut grid)?;
    }
    Ok(Finding::Proved(degrees, grid))
}

/// Adds the degree of a statement in the parameters of an element, where it is above 0, and
/// the values that it leads to.
fn add_degree(
    alloc: Global,
    table: &Degrees,
    s: &Statement,
    element: &Element,
    degrees: &mut DegreeList,
    grid: &mut GridList,
) -> Result<(), NoMemory>
    requires live { AtStated s.now (IsLive table.now) }
    requires low { element.now.number < NUMBER_LIMIT }
    ensures degrees { OnOk result (degrees.new ≡ degrees.old ++ option_to_list (element_degree (statement_degree table.now s.now) element.now)) }
    ensures grid { OnOk result (grid.new ≡ grid.old ++ map values_for (option_to_list (element_degree (statement_degree table.now s.now) element.now))) }
{
    match degree_of_element(table, s, element) {
        Some(entry) => {
            degrees.push(entry)?;
            add_values(alloc, &entry, grid)
        }
        None => Ok(()),
    }
}

/// The degree of a statement in the parameters of an element, where it is above 0. It is the
/// same in both parameters of a free element.
fn degree_of_element(table: &Degrees, s: &Statement, element: &Element) -> Option<DegreeEntry>
    requires live { AtStated s.now (IsLive table.now) }
    requires low { element.now.number < NUMBER_LIMIT }
    ensures entry { result ≡ element_degree (statement_degree table.now s.now) element.now }
    ensures low { IfSome result IsLowEntry }
{
    let first = first_parameter(element.number) as u32;
    let is_pair = match element.def {
        Def::Free => true,
        Def::Cut(_) | Def::Blend(_, _) => false,
        Def::Fixed(_, _, _) | Def::Cross(_, _) => return None,
    };
    let degree = table.of_statement(s, first) as i64;
    if degree == 0 {
        return None;
    }
    if is_pair {
        Some(DegreeEntry::Pair(first, first + 1, degree))
    } else {
        Some(DegreeEntry::One(first, degree))
    }
}

/// Adds the values for the parameters of an entry.
fn add_values(alloc: Global, entry: &DegreeEntry, grid: &mut GridList) -> Result<(), NoMemory>
    requires { IsLowEntry entry.now }
    ensures { OnOk result (grid.new ≡ grid.old ++ values_for entry.now ∷ []) }
{
    match *entry {
        DegreeEntry::One(p, degree) => {
            let values = list_values(alloc, degree.unsigned_abs())?;
            grid.push_one(alloc, p, &values)
        }
        DegreeEntry::Pair(p, q, degree) => {
            let values = list_values(alloc, degree.unsigned_abs())?;
            grid.push_pair(alloc, p, q, &values, &values)
        }
    }
}

/// The values number 0 to the degree.
fn list_values(alloc: Global, degree: u64) -> Result<Vec<i64>, NoMemory>
    requires { degree ≤ statement_degree_limit }
    ensures { IfOk result (λ values. values.items ≡ first_grid_values (degree + 1)) }
{
    let mut values = Vec::new(alloc);
    for k in 0..degree + 1 {
        if values.push(grid_value(k)).is_err() {
            return Err(NoMemory);
        }
    }
    Ok(values)
}

/// The elements that a statement needs, by rising number.
fn list_needed(alloc: Global, sketch: &Sketch, s: &Statement) -> Result<ElementList, NoMemory>
    requires { AtStated s.now (IsLive sketch.now.elements) }
    ensures { IfOk result (λ list. list ≡ needed_list sketch.now.elements s.now) }
{
    let mut list = ElementList::new(alloc);
    for element in sketch.elements() {
        add_needed(sketch, s, element, &mut list)?;
    }
    Ok(list)
}

fn add_needed(
    sketch: &Sketch,
    s: &Statement,
    element: &Element,
    list: &mut ElementList,
) -> Result<(), NoMemory>
    requires { AtStated s.now (IsLive sketch.now.elements) }
    ensures { OnOk result (list.new ≡ list.old ++ (if is_needed sketch.now.elements s.now element.now.number then entry_of element.now ∷ [] else [])) }
{
    if sketch.needs(s, element.number) {
        list.push(element.number, element.kind, element.def)
    } else {
        Ok(())
    }
}
