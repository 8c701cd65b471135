// The rule of the table, and what its steps tell. The first word is the next chunk, the second the least index found.
ghost use Rattle.geo_board.specs.Rule.{ObeysRule, initial_view, Claims, Looks, Finishes, view_without_first, view_of_first, view_together, spent_view};

use crate::views::SeatView;
use atomic_table::{Join, Play, Split, TableRule};

pub(crate) const NEXT: usize = 0;

pub(crate) const LEAST: usize = 1;

/// How many chunks there are, and how many workers.
#[derive(Clone, Copy)]
pub struct Sizes {
    pub total: u64,
    pub workers: u64,
}

pub struct BoardRule;

impl TableRule<(), SeatView, Sizes> for BoardRule {
    ghost holds = { ObeysRule };

    ghost first = { initial_view };
}

pub(crate) struct Claiming;

impl Play<(), SeatView> for Claiming {
    ghost then = { Claims };
}

pub(crate) struct Looking;

impl Play<(), SeatView> for Looking {
    ghost then = { Looks };
}

pub(crate) struct Finishing;

impl Play<(), SeatView> for Finishing {
    ghost then = { Finishes };
}

// One worker leaves for a seat of its own.
pub(crate) struct Parting;

impl Split<SeatView> for Parting {
    ghost left = { view_without_first };

    ghost right = { view_of_first };
}

// The workers of one seat go to another.
pub(crate) struct Gathering;

impl Join<SeatView> for Gathering {
    ghost both = { view_together };

    ghost spent = { spent_view };
}
