//! The degrees of a certificate, against those of the claim, which are computed anew.

ghost use Rattle.std.specs.Prelude.{◌≡◌, IfOk};
ghost use Rattle.std.specs.List.{list_all};
ghost use Rattle.geo_sketch.specs.Lookups.{IsLive};
ghost use Rattle.geo_sketch.specs.Needs.{AtStated};
ghost use Rattle.geo_degree.specs.Degrees.{statement_degree};
ghost use Rattle.geo_degree.specs.Grids.{parameters_of};
ghost use Rattle.geo_check.specs.Degrees.{allowed, are_apart, are_of_free, are_right, first_of, is_among, is_at_most, is_owned, named_by, rise_from};

use geo_cert::DegreeEntry;
use geo_degree::Degrees;
use geo_sketch::{
    Def, Element, NoMemory, Sketch, Statement, element_of_parameter, find_by_number,
    first_parameter, second_parameter,
};
use std::alloc::Global;

/// Each parameter is named once, in rising order and as it is owned, and none has a greater
/// degree in the claim than it is allowed.
pub(crate) fn are_right(
    alloc: Global,
    sketch: &Sketch,
    claim: &Statement,
    parameters: &[u32],
    entries: &[DegreeEntry],
) -> Result<bool, NoMemory>
    requires live { AtStated claim.now (IsLive sketch.now.elements) }
    requires parameters { parameters.now ≡ parameters_of sketch.now.elements }
    ensures { IfOk result (λ right. right ≡ are_right sketch.now.elements claim.now entries.now) }
{
    if !rise(entries) {
        return Ok(false);
    }
    let named = list_named(alloc, entries)?;
    if !are_apart(&named) || !are_owned(sketch.elements(), parameters, entries) {
        return Ok(false);
    }
    let degrees = Degrees::of(alloc, sketch)?;
    Ok(allow(&degrees, claim, parameters, entries))
}

/// The first parameters of the entries rise strictly.
fn rise(entries: &[DegreeEntry]) -> bool
    ensures { result ≡ rise_from 0 entries.now }
{
    let mut low: u64 = 0;
    for entry in entries {
        let first = u64::from(first_of(entry));
        if first < low {
            return false;
        }
        low = first + 1;
    }
    true
}

fn first_of(entry: &DegreeEntry) -> u32
    ensures { result ≡ first_of entry.now }
{
    match entry {
        DegreeEntry::One(p, _) | DegreeEntry::Pair(p, _, _) => *p,
    }
}

/// The parameters that the entries name, in their order.
fn list_named(alloc: Global, entries: &[DegreeEntry]) -> Result<Vec<u32>, NoMemory>
    ensures { IfOk result (λ named. named.items ≡ named_by entries.now) }
{
    let mut named = Vec::new(alloc);
    for entry in entries {
        if named.push(first_of(entry)).is_err() {
            return Err(NoMemory);
        }
        if let DegreeEntry::Pair(_, q, _) = entry {
            if named.push(*q).is_err() {
                return Err(NoMemory);
            }
        }
    }
    Ok(named)
}

/// No parameter stands twice.
fn are_apart(named: &[u32]) -> bool
    ensures { result ≡ are_apart named.now }
{
    for i in 0..named.len() {
        if is_among(&named[i + 1..], named[i]) {
            return false;
        }
    }
    true
}

fn is_among(parameters: &[u32], p: u32) -> bool
    ensures { result ≡ is_among parameters.now p }
{
    for q in parameters {
        if *q == p {
            return true;
        }
    }
    false
}

/// Each entry names a parameter of a listed element, or the two of a free one.
fn are_owned(elements: &[Element], parameters: &[u32], entries: &[DegreeEntry]) -> bool
    requires { parameters.now ≡ parameters_of elements.now }
    ensures { result ≡ list_all (is_owned elements.now) entries.now }
{
    for entry in entries {
        let owned = match entry {
            DegreeEntry::One(p, _) => is_among(parameters, *p),
            DegreeEntry::Pair(p, q, _) => are_of_free(elements, *p, *q),
        };
        if !owned {
            return false;
        }
    }
    true
}

fn are_of_free(elements: &[Element], p: u32, q: u32) -> bool
    ensures { result ≡ are_of_free elements.now p q }
{
    let n = element_of_parameter(p);
    if u64::from(p) != first_parameter(n) || u64::from(q) != second_parameter(n) {
        return false;
    }
    match find_by_number(elements, n) {
        Some(element) => matches!(element.def, Def::Free),
        None => false,
    }
}

/// Each parameter of a listed element is allowed the degree that it has in the claim.
fn allow(degrees: &Degrees, claim: &Statement, parameters: &[u32], entries: &[DegreeEntry]) -> bool
    requires { AtStated claim.now (IsLive degrees.now) }
    ensures { result ≡ list_all (λ p. is_at_most (statement_degree degrees.now claim.now p) (allowed entries.now p)) parameters.now }
{
    for p in parameters {
        if !is_at_most(degrees.of_statement(claim, *p), allowed(entries, *p)) {
            return false;
        }
    }
    true
}

fn is_at_most(degree: u64, limit: i64) -> bool
    ensures { result ≡ is_at_most degree limit }
{
    limit >= 0 && degree <= limit.unsigned_abs()
}

/// The degree that the entries allow a parameter: 0 where none names it.
fn allowed(entries: &[DegreeEntry], p: u32) -> i64
    ensures { result ≡ allowed entries.now p }
{
    for entry in entries {
        match entry {
            DegreeEntry::One(q, degree) => {
                if *q == p {
                    return *degree;
                }
            }
            DegreeEntry::Pair(q, r, degree) => {
                if *q == p || *r == p {
                    return *degree;
                }
            }
        }
    }
    0
}
