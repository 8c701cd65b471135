//! Copies of values.

ghost use Rattle.std.specs.Prelude.{◌≡◌, IfOk};

use crate::changes::NoMemory;
use crate::verdicts::Values;
use std::alloc::Global;

/// A list with the same parameters and values.
pub fn copy_values(alloc: Global, values: &Values) -> Result<Values, NoMemory>
    ensures { IfOk result (λ copy. copy ≡ values.now) }
{
    let mut copy = Values::new(alloc);
    for k in 0..values.len() {
        if let Some((param, value)) = values.get(k) {
            copy.push(param, value)?;
        }
    }
    Ok(copy)
}
