//! Copies of verdicts.

ghost use Rattle.std.specs.Prelude.{◌≡◌, IfOk};

use geo_sketch::{NoMemory, Verdict, copy_values};
use std::alloc::Global;

/// A verdict that is equal to this one.
pub(crate) fn copy_verdict(alloc: Global, verdict: &Verdict) -> Result<Verdict, NoMemory>
    ensures { IfOk result (λ copy. copy ≡ verdict.now) }
{
    match verdict {
        Verdict::Proved => Ok(Verdict::Proved),
        Verdict::False(values) => Ok(Verdict::False(copy_values(alloc, values)?)),
        Verdict::Unsettled(past) => Ok(Verdict::Unsettled(*past)),
    }
}
