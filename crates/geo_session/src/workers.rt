//! How many workers a session has.

ghost use Rattle.std.specs.Prelude.{◌<◌, ◌≤◌};
ghost use Rattle.geo_board.specs.declared.limits.TheConstants.{WORKER_LIMIT};

/// How many workers share the search over a grid.
#[derive(Clone, Copy)]
pub(crate) struct Workers {
    pub(crate) count: u64,
    ghost some: { 0 < count },
    ghost few: { count ≤ WORKER_LIMIT },
}
