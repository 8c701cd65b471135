// The board and its seats. Their calls stand in `board`.
ghost use Rattle.std.specs.Prelude.{◌≡◌, ◌≤◌, ◌<◌, ◌^◌, [], Some, length};
ghost use Rattle.geo_board.specs.Hands.{first_hand};
ghost use Rattle.geo_board.specs.declared.limits.TheConstants.{WORKER_LIMIT, INDEX_LIMIT};

use crate::rule::{BoardRule, Sizes};
use crate::views::SeatView;
use atomic_table::{Seat, Table};
use std::alloc::Global;

/// Memory ran out.
#[derive(Clone, Copy, Debug, PartialEq, Eq)]
pub struct NoMemory;

/// A finished chunk: what was found in it, and the last look at the board before that. Both are `u64::MAX` for none.
#[derive(Clone, Copy)]
pub struct Entry {
    pub chunk: u64,
    pub found: u64,
    pub bound: u64,
}

/// One worker's right to step on a board. Contracts see its `number_of`, its
/// `worker_of` and its `history_of`.
#[derive(Drop)]
pub struct BoardSeat {
    pub(crate) number: u64,
    pub(crate) seat: Seat<(), SeatView>,
    ghost no_slot: { seat.me.1 ≡ [] },
    ghost one_worker: { length seat.me.0.hands ≡ 1 },
    ghost its_number: { (first_hand seat.me.0).number ≡ number },
}

/// The chunks of one search, which workers claim through shared references.
#[derive(Drop)]
pub struct Board {
    pub(crate) sizes: Sizes,
    pub(crate) table: Table<(), SeatView, Sizes, BoardRule, Global>,
    ghost two_words: { table.shared.table_id.words ≡ 2 },
    ghost no_slots: { table.shared.table_id.slots ≡ 0 },
    ghost key: { table.shared.key ≡ sizes },
    ghost chunks: { sizes.total ≤ INDEX_LIMIT },
    ghost workers: { sizes.workers ≤ WORKER_LIMIT },
    ghost some_worker: { 0 < sizes.workers },
}
