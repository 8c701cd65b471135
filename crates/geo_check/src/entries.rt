//! The entries of a certificate's grid.

ghost use Rattle.std.specs.Prelude.{◌≡◌, ◌+◌, ◌<◌, ◌∷◌, [], drop, length, MatchOption, OnSome};
ghost use Rattle.geo_check.specs.Entries.{entry_shown};

use geo_cert::{GridHead, GridList};

/// The values for a parameter, or those for each of two.
#[derive(Clone, Copy, Drop)]
pub(crate) enum Entry<'a> {
    One(u32, &'a [i64]),
    Pair(u32, u32, &'a [i64], &'a [i64]),
}

/// The entry at place k, and none past the last one.
pub(crate) fn entry_at<'a>(grid: &'a GridList, k: usize) -> Option<Entry<'a>>
    ensures entry { MatchOption result (drop k grid.now ≡ []) (λ e. drop k grid.now ≡ entry_shown e ∷ drop (k + 1) grid.now) }
    ensures within { OnSome result (k < length grid.now) }
    ensures countable { OnSome result (k < usize.MAX) }
{
    if k >= grid.len() {
        return None;
    }
    match grid.get(k) {
        None => None,
        Some(GridHead::One(p)) => Some(Entry::One(p, grid.first(k))),
        Some(GridHead::Pair(p, q)) => Some(Entry::Pair(p, q, grid.first(k), grid.second(k))),
    }
}
