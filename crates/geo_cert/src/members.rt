//! The object that a certificate is.

ghost use Rattle.std.specs.Prelude.{◌≡◌, IfOk, option_and_then, option_map};
ghost use Rattle.serde_json.specs.Find.{as_str};
ghost use Rattle.serde_json.specs.View.{view, members_view};
ghost use Rattle.geo_cert.specs.Objects.{certificate_in, certificate_of as of_data, checked as checked_finding, endings, false_finding as finding_of_false, false_of, false_parts, fits_version as version_fits, is_text as is_same, next_member as next_of, proved_finding as finding_of_proved, proved_of, proved_parts, with_finding as finding_with};
ghost use Rattle.geo_cert.specs.Reading.{claim_in};
ghost use Rattle.geo_cert.specs.Rows.{count, row_in};
ghost use Rattle.geo_cert.specs.Parts.{false_shown, proved_shown};
ghost use Rattle.geo_cert.specs.Versions.{are_single};

use crate::certificates::{Certificate, Finding};
use crate::lists::{degrees_of, elements_of, grid_of, values_of};
use crate::rows::{count_of, row_of};
use crate::shapes::claim_of;
use geo_sketch::{NoMemory, Statement};
use serde_json::{Map, Value};
use std::alloc::Global;

/// The values of the members, where the claim is proved.
#[derive(Drop)]
pub struct ProvedParts {
    claim: Value,
    degrees: Value,
    elements: Value,
    grid: Value,
    verdict: Value,
    version: Value,
}

/// The values of the members, where the claim is false.
#[derive(Drop)]
pub struct FalseParts {
    claim: Value,
    elements: Value,
    values: Value,
    verdict: Value,
    version: Value,
}

/// Takes off the first member, which shall have this key.
fn next_member(members: &mut Map<String, Value>, key: &str) -> Option<Value>
    ensures { option_map (λ v. (view v, members_view members.new.entries)) result ≡ next_of key.now (members_view members.old.entries) }
{
    let (found, value) = members.pop_first()?;
    if found.as_str() == key {
        Some(value)
    } else {
        None
    }
}

/// Takes off the last two members, the verdict and the version.
fn take_endings(mut members: Map<String, Value>) -> Option<(Value, Value)>
    ensures { option_map (λ p. (view p.0, view p.1)) result ≡ endings (members_view members.entries) }
{
    let verdict = next_member(&mut members, "verdict")?;
    let version = next_member(&mut members, "version")?;
    match members.pop_first() {
        None => Some((verdict, version)),
        Some(_) => None,
    }
}

/// The members of a certificate whose claim is proved.
fn take_proved(mut members: Map<String, Value>) -> Option<ProvedParts>
    ensures { option_map proved_shown result ≡ proved_parts (members_view members.entries) }
{
    let claim = next_member(&mut members, "claim")?;
    let degrees = next_member(&mut members, "degrees")?;
    let elements = next_member(&mut members, "elements")?;
    let grid = next_member(&mut members, "grid")?;
    let (verdict, version) = take_endings(members)?;
    Some(ProvedParts {
        claim,
        degrees,
        elements,
        grid,
        verdict,
        version,
    })
}

/// The members of a certificate whose claim is false.
fn take_false(mut members: Map<String, Value>) -> Option<FalseParts>
    ensures { option_map false_shown result ≡ false_parts (members_view members.entries) }
{
    let claim = next_member(&mut members, "claim")?;
    let elements = next_member(&mut members, "elements")?;
    let values = next_member(&mut members, "values")?;
    let (verdict, version) = take_endings(members)?;
    Some(FalseParts {
        claim,
        elements,
        values,
        verdict,
        version,
    })
}

fn is_text(word: &str, value: &Value) -> bool
    ensures { result ≡ is_same word.now (as_str (view value.now)) }
{
    match value.as_str() {
        Some(text) => text == word,
        None => false,
    }
}

/// Whether the finding can be written in this version.
fn fits_version(finding: &Finding, version: &Value) -> bool
    ensures { result ≡ version_fits finding.now (count (view version.now)) }
{
    match count_of(version) {
        Some(1) => is_single(finding),
        Some(version) => version == 2,
        None => false,
    }
}

/// Whether no entry is for two parameters.
fn is_single(finding: &Finding) -> bool
    ensures { result ≡ are_single finding.now }
{
    match finding {
        Finding::Proved(degrees, grid) => degrees.is_single() && grid.is_single(),
        Finding::False(_) => true,
    }
}

/// The finding, where the verdict is this word and the version fits.
fn checked(word: &str, verdict: &Value, version: &Value, finding: Finding) -> Option<Finding>
    ensures { result ≡ checked_finding word.now (view verdict.now) (view version.now) finding }
{
    if is_text(word, verdict) && fits_version(&finding, version) {
        Some(finding)
    } else {
        None
    }
}

fn proved_finding(alloc: Global, parts: &ProvedParts) -> Result<Option<Finding>, NoMemory>
    ensures { IfOk result (λ o. o ≡ finding_of_proved (proved_shown parts.now)) }
{
    let Some(degrees) = degrees_of(alloc, &parts.degrees)? else {
        return Ok(None);
    };
    let Some(grid) = grid_of(alloc, &parts.grid)? else {
        return Ok(None);
    };
    let finding = Finding::Proved(degrees, grid);
    Ok(checked("proved", &parts.verdict, &parts.version, finding))
}

fn false_finding(alloc: Global, parts: &FalseParts) -> Result<Option<Finding>, NoMemory>
    ensures { IfOk result (λ o. o ≡ finding_of_false (false_shown parts.now)) }
{
    let Some(values) = values_of(alloc, &parts.values)? else {
        return Ok(None);
    };
    let finding = Finding::False(values);
    Ok(checked("false", &parts.verdict, &parts.version, finding))
}

/// The certificate with this finding, where the claim and the elements are such.
fn with_finding(
    alloc: Global,
    claim: &Value,
    elements: &Value,
    finding: Finding,
) -> Result<Option<Certificate>, NoMemory>
    ensures { IfOk result (λ o. o ≡ finding_with (view claim.now) (view elements.now) finding) }
{
    let Some(claim) = claim_row(claim) else {
        return Ok(None);
    };
    match elements_of(alloc, elements)? {
        Some(elements) => Ok(Some(Certificate {
            elements,
            claim,
            finding,
        })),
        None => Ok(None),
    }
}

fn claim_row(row: &Value) -> Option<Statement>
    ensures { result ≡ row_in claim_in (view row.now) }
{
    let values = row_of(row)?;
    claim_of(values)
}

fn read_proved(alloc: Global, parts: &ProvedParts) -> Result<Option<Certificate>, NoMemory>
    ensures { IfOk result (λ o. o ≡ proved_of (proved_shown parts.now)) }
{
    match proved_finding(alloc, parts)? {
        Some(finding) => with_finding(alloc, &parts.claim, &parts.elements, finding),
        None => Ok(None),
    }
}

fn read_false(alloc: Global, parts: &FalseParts) -> Result<Option<Certificate>, NoMemory>
    ensures { IfOk result (λ o. o ≡ false_of (false_shown parts.now)) }
{
    match false_finding(alloc, parts)? {
        Some(finding) => with_finding(alloc, &parts.claim, &parts.elements, finding),
        None => Ok(None),
    }
}

fn proved_certificate(
    alloc: Global,
    members: Map<String, Value>,
) -> Result<Option<Certificate>, NoMemory>
    ensures { IfOk result (λ o. o ≡ option_and_then proved_of (proved_parts (members_view members.entries))) }
{
    match take_proved(members) {
        Some(parts) => read_proved(alloc, &parts),
        None => Ok(None),
    }
}

fn false_certificate(
    alloc: Global,
    members: Map<String, Value>,
) -> Result<Option<Certificate>, NoMemory>
    ensures { IfOk result (λ o. o ≡ option_and_then false_of (false_parts (members_view members.entries))) }
{
    match take_false(members) {
        Some(parts) => read_false(alloc, &parts),
        None => Ok(None),
    }
}

fn read_members(alloc: Global, members: Map<String, Value>) -> Result<Option<Certificate>, NoMemory>
    ensures { IfOk result (λ o. o ≡ certificate_in (members_view members.entries)) }
{
    if members.len() == 6 {
        proved_certificate(alloc, members)
    } else {
        false_certificate(alloc, members)
    }
}

/// The certificate that a value is; None where it is none.
pub fn certificate_of(alloc: Global, value: Value) -> Result<Option<Certificate>, NoMemory>
    ensures { IfOk result (λ o. o ≡ of_data (view value)) }
{
    match value {
        Value::Object(members) => read_members(alloc, members),
        _ => Ok(None),
    }
}
