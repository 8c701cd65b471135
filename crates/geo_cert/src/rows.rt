//! The values of a row, taken one after another.

ghost use Rattle.std.specs.Prelude.{◌≡◌, IfOk, option_map};
ghost use Rattle.serde_json.specs.Find.{as_array, as_str};
ghost use Rattle.serde_json.specs.View.{view, items_view};
ghost use Rattle.geo_cert.specs.Rows.{count, ended, next, whole, wholes as all_wholes};

use geo_sketch::NoMemory;
use serde_json::Value;
use std::alloc::Global;

/// A whole number from -2^31 to 2^31 - 1.
pub fn whole_of(value: &Value) -> Option<i64>
    ensures { result ≡ whole (view value.now) }
{
    match value.as_i64() {
        Some(n) if -(1 << 31) <= n && n < (1 << 31) => Some(n),
        _ => None,
    }
}

/// Such a number that is not negative.
pub fn count_of(value: &Value) -> Option<u32>
    ensures { result ≡ count (view value.now) }
{
    match value.as_u64() {
        Some(n) if n < (1 << 31) => Some(n as u32),
        _ => None,
    }
}

/// The values of a row.
pub fn row_of(value: &Value) -> Option<&[Value]>
    ensures { option_map (λ r. items_view r.now) result ≡ as_array (view value.now) }
{
    match value.as_array() {
        Some(values) => Some(values),
        None => None,
    }
}

/// The number at the front of a row, and what stands behind it.
pub fn next_count(values: &[Value]) -> Option<(u32, &[Value])>
    ensures { option_map (λ p. (p.0, items_view p.1.now)) result ≡ next count (items_view values.now) }
{
    let (first, rest) = values.split_first()?;
    let number = count_of(first)?;
    Some((number, rest))
}

/// The whole number at the front of a row, and what stands behind it.
pub fn next_whole(values: &[Value]) -> Option<(i64, &[Value])>
    ensures { option_map (λ p. (p.0, items_view p.1.now)) result ≡ next whole (items_view values.now) }
{
    let (first, rest) = values.split_first()?;
    let number = whole_of(first)?;
    Some((number, rest))
}

/// The word at the front of a row, and what stands behind it.
pub fn next_word(values: &[Value]) -> Option<(&str, &[Value])>
    ensures { option_map (λ p. (p.0.now, items_view p.1.now)) result ≡ next as_str (items_view values.now) }
{
    let (first, rest) = values.split_first()?;
    let word = first.as_str()?;
    Some((word, rest))
}

/// The row at the front of a row, and what stands behind it.
pub fn next_row(values: &[Value]) -> Option<(&[Value], &[Value])>
    ensures { option_map (λ p. (items_view p.0.now, items_view p.1.now)) result ≡ next as_array (items_view values.now) }
{
    let (first, rest) = values.split_first()?;
    let row = row_of(first)?;
    Some((row, rest))
}

/// The value, where nothing is left of the row.
pub fn at_end<T: Drop>(value: T, rest: &[Value]) -> Option<T>
    ensures { result ≡ ended value (items_view rest.now) }
{
    match rest.split_first() {
        None => Some(value),
        Some(_) => None,
    }
}

/// A row of whole numbers; None where a value is none.
pub fn wholes_of(alloc: Global, values: &[Value]) -> Result<Option<Vec<i64>>, NoMemory>
    ensures { IfOk result (λ o. option_map (λ v. v.items) o ≡ all_wholes (items_view values.now)) }
{
    let mut all = Vec::new(alloc);
    for value in values {
        match whole_of(value) {
            Some(n) => {
                if all.push(n).is_err() {
                    return Err(NoMemory);
                }
            }
            None => return Ok(None),
        }
    }
    Ok(Some(all))
}
