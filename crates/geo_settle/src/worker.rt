//! A worker of a round: what one thread does.

ghost use Rattle.std.specs.Prelude.{◌≡◌, ◌<◌, ◌≤◌, ℕ, [], Some, true, false, MatchOption, vec_capacity};
ghost use Rattle.crossbeam_utils.specs.Padded.{padded_value};
ghost use Rattle.geo_board.specs.BoardSeats.{number_of, total_of, worker_of};
ghost use Rattle.geo_board.specs.Machine.{entry, worker_after_look};
ghost use Rattle.geo_degree.specs.Grids.{grid_size};
ghost use Rattle.geo_degree.specs.Questions.{grid_of};
ghost use Rattle.geo_settle.specs.Fails.{IsTruthfulOf, fails_at};
ghost use Rattle.geo_settle.specs.Rounds.{HasSwept, IsIdle, IsWorkerOf};
ghost use Rattle.geo_board.specs.declared.limits.TheConstants.{WORKER_LIMIT};

use crate::gate::Gate;
use crate::round::Round;
use crossbeam_utils::CachePadded;
use geo_board::BoardSeat;
use geo_grid::{Cursor, Form};
use geo_triple::Steps;
use std::marker::{Brand, Model};
use std::sync::ledger::{Blank, Ledger};

/// How many points a chunk of a grid has; the last one may have fewer.
pub(crate) const CHUNK: u64 = 1024;

/// How many points a worker searches between two looks at the board.
const RUN: u64 = 64;

/// Room for the seats of all workers of a round.
#[derive(Drop)]
pub(crate) struct Room {
    pub(crate) seats: Vec<BoardSeat>,
    ghost empty: { seats.items ≡ [] },
    ghost enough: { WORKER_LIMIT ≤ vec_capacity seats },
}

/// A worker of a round. It has a seat on the board, a cursor of its own, and room for all
/// seats, so that the round is closed without memory. Its cursor changes at each point and is
/// padded, since workers lie side by side in a list. Contracts see the form and the seat.
#[derive(Drop)]
pub struct Worker<'a, F: Form> {
    pub(crate) seat: BoardSeat,
    pub(crate) cursor: CachePadded<Cursor<'a, F>>,
    pub(crate) room: Room,
}

impl<'a, F: Form> Model for Worker<'a, F> {
    ghost use Rattle.crossbeam_utils.specs.Padded.{padded_value};
    ghost use Rattle.geo_board.specs.declared.seat.BoardSeat.{BoardSeat};

    ghost Value = { F × BoardSeat };

    ghost view = { λ w. ((padded_value w.cursor).0, w.seat) };
}

impl<'a, F: Form + Sync> Worker<'a, F> {
    /// Searches one chunk after the other until none is left. It tells the gate of each of
    /// its claims, of the last one too. It takes no memory, and waits for nobody.
    pub fn sweep<G: Gate>(&mut self, round: &Round<'a, F>, gate: &G)
        requires of_round { IsWorkerOf round.now self.old }
        requires idle { IsIdle self.old }
        ensures of_round { IsWorkerOf round.now self.new }
        ensures swept { HasSwept (F.question round.now.0) self.new }
    {
        while let Some(chunk) = round.board.claim(&mut self.seat) {
            gate.passed(self.seat.number(), Some(chunk));
            let found = self.search::<Brand>(round, chunk, Blank::new(1));
            round.board.finish(&mut self.seat, found);
        }
        gate.passed(self.seat.number(), None);
    }

    /// The least failing index of the worker's chunk, or `u64::MAX`: where none fails, or
    /// where the rest of the chunk is not below a find of which the board tells. It counts
    /// no steps for its caller.
    fn search<L: Ledger>(&mut self, round: &Round<'a, F>, chunk: u64, blank: Blank) -> u64
        requires of_round { IsWorkerOf round.now self.old }
        requires chunk { ((worker_of self.old.1).chunk ≡ Some chunk) × (chunk < total_of round.now.1) }
        requires name { blank.name ≡ L.name }
        requires parts { blank.parts ≡ L.parts }
        requires some { 0 < blank.parts }
        ensures of_round { IsWorkerOf round.now self.new × (number_of self.new.1 ≡ number_of self.old.1) }
        ensures truthful { (look : ℕ) × (worker_of self.new.1 ≡ worker_after_look look (worker_of self.old.1)) × IsTruthfulOf (F.question round.now.0) (entry chunk result look) }
    {
        let mut steps = Steps::<L>::new(blank);
        let start = chunk * CHUNK;
        let end = round.size.min(start + CHUNK);
        let mut from = start;
        self.cursor.seek(from, &mut steps);
        while from < end {
            if round.board.look(&mut self.seat) <= from {
                return u64::MAX;
            }
            let to = end.min(from + RUN);
            if let Some(index) = first_failing(&mut self.cursor, from, to, &mut steps) {
                return index;
            }
            from = to;
        }
        u64::MAX
    }

    /// Its seat, and the room that it has.
    pub(crate) fn into_parts(self) -> (BoardSeat, Room)
        ensures { result.0 ≡ self.entry.1 }
    {
        (self.seat, self.room)
    }
}

/// The first of some indices at which a part is not 0. The cursor stands at `from`; where
/// there is none it then stands at `to`, unless the grid ends there.
fn first_failing<F: Form, L: Ledger>(
    cursor: &mut Cursor<F>,
    from: u64,
    to: u64,
    steps: &mut Steps<L>,
) -> Option<u64>
    requires stands { (cursor.old.1 ≡ from) × (cursor.old.2 ≡ true) }
    requires within { (from ≤ to) × (to ≤ grid_size (grid_of (F.question cursor.old.0))) }
    ensures form { (cursor.new.0 ≡ cursor.old.0) × (cursor.new.2 ≡ true) }
    ensures found { MatchOption result
        (((j : ℕ) → from ≤ j → j < to → fails_at (F.question cursor.old.0) j ≡ false) × (to < grid_size (grid_of (F.question cursor.old.0)) → cursor.new.1 ≡ to))
        (λ i. (from ≤ i) × (i < to) × (fails_at (F.question cursor.old.0) i ≡ true) × ((j : ℕ) → from ≤ j → j < i → fails_at (F.question cursor.old.0) j ≡ false)) }
{
    for index in from..to {
        if fails_here(cursor) {
            return Some(index);
        }
        cursor.next(steps);
    }
    None
}

/// Whether a part is not 0 at the point at which the cursor stands.
fn fails_here<F: Form>(cursor: &Cursor<F>) -> bool
    requires { cursor.now.2 ≡ true }
    ensures { fails_at (F.question cursor.now.0) cursor.now.1 ≡ result }
{
    cursor.failing()
}
