//! What a certificate is worth.

ghost use Rattle.std.specs.Prelude.{◌≡◌, ◌<◌, ◌++◌, IfOk, OnOk, length, true};
ghost use Rattle.std.specs.List.{AllByRecursion};
ghost use Rattle.geo_sketch.specs.Sketches.{IsDrawn, IsPosed};
ghost use Rattle.geo_sketch.specs.declared.limits.TheConstants.{NUMBER_LIMIT};
ghost use Rattle.geo_degree.specs.Grids.{parameters_of};
ghost use Rattle.geo_sketch.specs.Assignments.{own_parameters};
ghost use Rattle.geo_height.specs.Bounds.{magnitude_of};
ghost use Rattle.geo_check.specs.Degrees.{are_right};
ghost use Rattle.geo_check.specs.Faults.{IsAnswer, checked_of, finding_fault, grid_fault, points_fault, values_fault};
ghost use Rattle.geo_check.specs.Grids.{are_values_for, magnitudes_in};
ghost use Rattle.geo_check.specs.Positions.{IsModestEntry};
ghost use Rattle.geo_check.specs.Truth.{IsTrueAnswer};

use crate::degrees::are_right;
use crate::evaluating::{Claim, is_zero_at, list_needed};
use crate::grids::{are_for, is_small, list_magnitudes};
use crate::laws::valid_certificates_are_true;
use crate::posing::is_posed;
use crate::values::{are_values_for, assigned_values, blank_values, list_sizes};
use crate::walking::is_zero_from;
use geo_cert::{CertStop, Certificate, DegreeEntry, Finding, GridList};
use geo_height::of_statement;
use geo_sketch::{
    Def, Element, NUMBER_LIMIT, NoMemory, Sketch, Statement, Values, first_parameter,
};
use geo_triple::Triple;
use std::alloc::Global;

/// What a certificate says of its claim, where it is right.
#[derive(Clone, Copy, PartialEq, Eq, Debug)]
pub enum Checked {
    /// That it holds.
    Proved,
    /// That a part of it is not 0 at the values.
    False,
}

/// Checks a certificate. It is refused by the first number that applies:
///
/// 3 - its elements make no sketch, or its claim is no statement about them;
/// 4 - the degrees do not name parameters of the elements, the first ones rising and each once,
///     a pair the two of a free element, or allow one less than its degree in the claim;
/// 5 - the grid is not for these degrees, or the values not for the parameters of the elements;
/// 6 - the grid has more than 2^20 points;
/// 7 - numbers at the values might be greater than 2^126;
/// 8 - a part of the claim is not 0 on the grid, or all parts are 0 at the values.
pub fn check(alloc: Global, certificate: &Certificate) -> Result<Checked, CertStop>
    ensures answer { IsAnswer certificate.now result }
    ensures truth { IsTrueAnswer certificate.now result }
{
    let sketch = match Sketch::rebuild(alloc, certificate.elements.as_slice()) {
        Ok(Some(sketch)) => sketch,
        Ok(None) => return Err(CertStop::Bad(3)),
        Err(_) => return Err(CertStop::NoMemory),
    };
    let claim = &certificate.claim;
    if !is_posed(sketch.elements(), claim) {
        return Err(CertStop::Bad(3));
    }
    match find_fault(alloc, &sketch, claim, &certificate.finding) {
        Ok(None) => {
            valid_certificates_are_true();
            Ok(checked_of(&certificate.finding))
        }
        Ok(Some(number)) => Err(CertStop::Bad(number)),
        Err(_) => Err(CertStop::NoMemory),
    }
}

fn checked_of(finding: &Finding) -> Checked
    ensures { result ≡ checked_of finding.now }
{
    match finding {
        Finding::Proved(_, _) => Checked::Proved,
        Finding::False(_) => Checked::False,
    }
}

/// Why what was found of a claim is refused.
fn find_fault(
    alloc: Global,
    sketch: &Sketch,
    claim: &Statement,
    finding: &Finding,
) -> Result<Option<u8>, NoMemory>
    requires { IsPosed sketch.now.elements claim.now }
    ensures { IfOk result (λ fault. fault ≡ finding_fault sketch.now.elements claim.now finding.now) }
{
    let parameters = list_parameters(alloc, sketch)?;
    match finding {
        Finding::Proved(degrees, grid) => {
            if !are_right(alloc, sketch, claim, &parameters, degrees.as_slice())? {
                return Ok(Some(4));
            }
            find_grid_fault(alloc, sketch, claim, degrees.as_slice(), grid)
        }
        Finding::False(values) => {
            if !are_values_for(&parameters, values) {
                return Ok(Some(5));
            }
            find_values_fault(alloc, sketch, claim, values)
        }
    }
}

/// Why the grid of a claim that is said to be proved is refused, where the degrees are right.
fn find_grid_fault(
    alloc: Global,
    sketch: &Sketch,
    claim: &Statement,
    degrees: &[DegreeEntry],
    grid: &GridList,
) -> Result<Option<u8>, NoMemory>
    requires drawn { IsDrawn sketch.now }
    requires posed { IsPosed sketch.now.elements claim.now }
    requires right { are_right sketch.now.elements claim.now degrees.now ≡ true }
    ensures { IfOk result (λ fault. fault ≡ grid_fault sketch.now.elements claim.now degrees.now grid.now) }
{
    if !are_for(degrees, grid) {
        return Ok(Some(5));
    }
    if !is_small(grid) {
        return Ok(Some(6));
    }
    find_points_fault(alloc, sketch, claim, grid)
}

/// Why the points of a grid refute that the claim is proved.
fn find_points_fault(
    alloc: Global,
    sketch: &Sketch,
    claim: &Statement,
    grid: &GridList,
) -> Result<Option<u8>, NoMemory>
    requires posed { IsPosed sketch.now.elements claim.now }
    requires modest { AllByRecursion (IsModestEntry (magnitude_of (magnitudes_in grid.now))) grid.now }
    ensures { IfOk result (λ fault. fault ≡ points_fault sketch.now.elements claim.now grid.now) }
{
    let magnitudes = list_magnitudes(alloc, grid)?;
    if of_statement(sketch, claim, &magnitudes).is_none() {
        return Ok(Some(7));
    }
    let needed = list_needed(alloc, sketch, claim)?;
    let mut values = blank_values(alloc)?;
    let mut triples = blank_triples(alloc)?;
    let claim = Claim {
        sketch,
        statement: claim,
        needed: &needed,
    };
    if is_zero_from(&claim, grid, 0, &mut values, &mut triples) {
        Ok(None)
    } else {
        Ok(Some(8))
    }
}

/// Why the values at which a claim is said to be false are refused, where they are for the
/// parameters of the elements.
fn find_values_fault(
    alloc: Global,
    sketch: &Sketch,
    claim: &Statement,
    stated: &Values,
) -> Result<Option<u8>, NoMemory>
    requires posed { IsPosed sketch.now.elements claim.now }
    requires values { are_values_for (parameters_of sketch.now.elements) stated.now ≡ true }
    ensures { IfOk result (λ fault. fault ≡ values_fault sketch.now.elements claim.now stated.now) }
{
    let sizes = list_sizes(alloc, stated)?;
    if of_statement(sketch, claim, &sizes).is_none() {
        return Ok(Some(7));
    }
    let needed = list_needed(alloc, sketch, claim)?;
    let values = assigned_values(alloc, stated)?;
    let mut triples = blank_triples(alloc)?;
    let claim = Claim {
        sketch,
        statement: claim,
        needed: &needed,
    };
    if is_zero_at(&claim, &values, &mut triples) {
        Ok(Some(8))
    } else {
        Ok(None)
    }
}

/// A triple for each element that a sketch may have.
fn blank_triples(alloc: Global) -> Result<Vec<Triple>, NoMemory>
    ensures { IfOk result (λ triples. length triples.items ≡ NUMBER_LIMIT) }
{
    let zero = Triple { a: 0, b: 0, c: 0 };
    match vec![in alloc; zero; NUMBER_LIMIT] {
        Ok(triples) => Ok(triples),
        Err(_) => Err(NoMemory),
    }
}

/// The parameters of the elements, by rising number.
fn list_parameters(alloc: Global, sketch: &Sketch) -> Result<Vec<u32>, NoMemory>
    ensures parameters { IfOk result (λ parameters. parameters.items ≡ parameters_of sketch.now.elements) }
    ensures drawn { OnOk result (IsDrawn sketch.now) }
{
    let mut parameters = Vec::new(alloc);
    for element in sketch.elements() {
        add_parameters(element, &mut parameters)?;
    }
    Ok(parameters)
}

fn add_parameters(element: &Element, parameters: &mut Vec<u32>) -> Result<(), NoMemory>
    requires { element.now.number < NUMBER_LIMIT }
    ensures { OnOk result (parameters.new.items ≡ parameters.old.items ++ own_parameters element.now.number element.now.def) }
{
    let first = first_parameter(element.number) as u32;
    let pushed = match element.def {
        Def::Free => match parameters.push(first) {
            Ok(()) => parameters.push(first + 1),
            Err(error) => Err(error),
        },
        Def::Cut(_) | Def::Blend(_, _) => parameters.push(first),
        Def::Fixed(_, _, _) | Def::Cross(_, _) => Ok(()),
    };
    match pushed {
        Ok(()) => Ok(()),
        Err(_) => Err(NoMemory),
    }
}
