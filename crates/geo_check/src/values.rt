//! The values at which a claim is said to be false.

ghost use Rattle.std.specs.Prelude.{◌≡◌, ◌<◌, ◌*◌, IfOk, OnOk, All, length, pos, replicate, ℕ, ℤ};
ghost use Rattle.geo_sketch.specs.Assignments.{assignment_of};
ghost use Rattle.geo_sketch.specs.declared.limits.TheConstants.{NUMBER_LIMIT};
ghost use Rattle.geo_check.specs.Grids.{are_values_for, sizes_of_values};
ghost use Rattle.geo_check.specs.Instances.{assigned, nothing_set};

use crate::walking::put;
use geo_sketch::{NUMBER_LIMIT, NoMemory, Values};
use std::alloc::Global;

/// The values are for these parameters, each once and in this order.
pub(crate) fn are_values_for(parameters: &[u32], values: &Values) -> bool
    ensures { result ≡ are_values_for parameters.now values.now }
{
    for (k, p) in parameters.iter().enumerate() {
        match values.get(k) {
            Some((q, _)) => {
                if q != *p {
                    return false;
                }
            }
            None => return false,
        }
    }
    values.get(parameters.len()).is_none()
}

/// Each parameter with the absolute value of its value.
pub(crate) fn list_sizes(alloc: Global, values: &Values) -> Result<Vec<(u32, u64)>, NoMemory>
    ensures { IfOk result (λ sizes. sizes.items ≡ sizes_of_values values.now) }
{
    let mut sizes = Vec::new(alloc);
    for k in 0..values.len() {
        let Some((p, value)) = values.get(k) else {
            return Err(NoMemory);
        };
        if sizes.push((p, value.unsigned_abs())).is_err() {
            return Err(NoMemory);
        }
    }
    Ok(sizes)
}

/// The values by the numbers of their parameters; every other parameter is 0.
pub(crate) fn assigned_values(alloc: Global, values: &Values) -> Result<Vec<i64>, NoMemory>
    requires { All (λ (v : ℕ × ℤ). v.0 < 2 * NUMBER_LIMIT) values.now }
    ensures room { IfOk result (λ position. length position.items ≡ 2 * NUMBER_LIMIT) }
    ensures values { IfOk result (λ position. assigned position.items ≡ assignment_of values.now) }
{
    let mut position = blank_values(alloc)?;
    assign(values, &mut position)?;
    Ok(position)
}

/// A value for each parameter that a sketch may have, all 0.
pub(crate) fn blank_values(alloc: Global) -> Result<Vec<i64>, NoMemory>
    ensures { IfOk result (λ values. values.items ≡ replicate (2 * NUMBER_LIMIT) (pos 0)) }
{
    match vec![in alloc; 0; 2 * NUMBER_LIMIT] {
        Ok(values) => Ok(values),
        Err(_) => Err(NoMemory),
    }
}

/// Sets each parameter to its value, from the last one to the first.
fn assign(values: &Values, position: &mut [i64]) -> Result<(), NoMemory>
    requires room { length position.old ≡ 2 * NUMBER_LIMIT }
    requires within { All (λ (v : ℕ × ℤ). v.0 < 2 * NUMBER_LIMIT) values.now }
    requires nothing { assigned position.old ≡ nothing_set }
    ensures { OnOk result ((length position.new ≡ 2 * NUMBER_LIMIT) × (assigned position.new ≡ assignment_of values.now)) }
{
    for k in (0..values.len()).rev() {
        let Some((p, value)) = values.get(k) else {
            return Err(NoMemory);
        };
        put(position, p as usize, value);
    }
    Ok(())
}
