//! Lists that one thread of a search writes while others write theirs.

ghost use Rattle.std.specs.Prelude.{◌≡◌, replicate, IfOk};

use geo_sketch::NoMemory;
use std::alloc::Global;

/// How many elements of room follow a list: at least a cache line of 64 bytes.
const SPACE: usize = 8;

/// So many copies of an item of eight bytes or more, with room behind them, so that they share no
/// cache line with the list that another thread was given next.
pub(crate) fn spaced<T: Copy + Drop>(
    alloc: Global,
    item: T,
    count: usize,
) -> Result<Vec<T>, NoMemory>
    ensures { IfOk result (λ list. list.items ≡ replicate count item) }
{
    let Ok(mut list) = Vec::with_capacity(alloc, count.saturating_add(SPACE)) else {
        return Err(NoMemory);
    };
    match list.resize(count, item) {
        Ok(()) => Ok(list),
        Err(_) => Err(NoMemory),
    }
}
