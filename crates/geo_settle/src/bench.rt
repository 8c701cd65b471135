//! The search over a grid for the least point at which a part is not 0.

ghost use Rattle.std.specs.Prelude.{◌≡◌, ◌<◌, ◌≤◌, ◌↔◌, ℕ, All, IfOk, length, vec_len};
ghost use Rattle.std.specs.Thread.{IsSync};
ghost use Rattle.geo_board.specs.BoardSeats.{workers_of};
ghost use Rattle.geo_degree.specs.Questions.{IsClear, IsLeastFailing, IsWithinLimits};
ghost use Rattle.geo_settle.specs.Rounds.{HasSwept, IsNewWorkerOf, IsWorkerOf};
ghost use Rattle.geo_board.specs.declared.limits.TheConstants.{WORKER_LIMIT};

use crate::gate::Gate;
use crate::round::Round;
use crate::threads::in_threads;
use crate::worker::{CHUNK, Room, Worker};
use crossbeam_utils::CachePadded;
use geo_board::{Board, WORKER_LIMIT};
use geo_grid::{Cursor, Form, Grid};
use geo_sketch::NoMemory;
use std::alloc::Global;
use std::marker::Model;
use std::thread::Threads;

/// What a search over a grid found.
#[derive(Clone, Copy, PartialEq, Eq, Debug)]
pub enum First {
    /// All parts are 0 at every grid point.
    Clear,
    /// The least index at which a part is not 0.
    At(u64),
}

/// All that a search needs, so that the search itself takes no memory: a round and its
/// workers. Contracts see the form and how many workers there are.
#[derive(Drop)]
pub struct Bench<'a, F: Form> {
    round: Round<'a, F>,
    workers: Vec<Worker<'a, F>>,
}

impl<'a, F: Form> Model for Bench<'a, F> {
    ghost use Rattle.std.specs.Prelude.{◌≡◌, ◌<◌, ℕ, All, vec_len};
    ghost use Rattle.geo_board.specs.BoardSeats.{workers_of};
    ghost use Rattle.geo_settle.specs.Rounds.{IsNewWorkerOf};

    ghost Value = { F × ℕ };

    ghost view = { λ b. (b.round.0, vec_len b.workers) };

    ghost invariant = { λ b.
        All (IsNewWorkerOf b.round) b.workers.items ×
        (vec_len b.workers ≡ workers_of b.round.1) ×
        (0 < vec_len b.workers) };
}

impl<'a, F: Form + Sync> Bench<'a, F> {
    /// Makes a search over the grid of a form ready, with a seat, a cursor and room for all
    /// seats for each worker.
    pub fn prepare(
        alloc: Global,
        form: &'a F,
        grid: &'a Grid,
        workers: u64,
    ) -> Result<Bench<'a, F>, NoMemory>
        requires grid { grid.now ≡ (F.question form.now).blocks }
        requires within { IsWithinLimits (F.question form.now) }
        requires workers { (0 < workers) × (workers ≤ WORKER_LIMIT) }
        ensures { IfOk result (λ bench. bench ≡ (form.now, workers)) }
    {
        let size = grid.size();
        let Ok((board, mut seats)) = Board::new(alloc, size.div_ceil(CHUNK), workers) else {
            return Err(NoMemory);
        };
        let mut list = Vec::new(alloc);
        while let Some(seat) = seats.pop() {
            let cursor = Cursor::new(alloc, form, grid)?;
            let Ok(seats) = Vec::with_capacity(alloc, WORKER_LIMIT as usize) else {
                return Err(NoMemory);
            };
            let room = Room { seats };
            let cursor = CachePadded::new(cursor);
            let Ok(()) = list.push(Worker { seat, cursor, room }) else {
                return Err(NoMemory);
            };
        }
        Ok(Bench {
            round: Round { form, size, board },
            workers: list,
        })
    }

    /// The round, and its workers, for who lets them sweep in threads of his own.
    pub fn open(self) -> (Round<'a, F>, Vec<Worker<'a, F>>)
        ensures form { result.0.0 ≡ self.entry.0 }
        ensures count { (vec_len result.1 ≡ self.entry.1) × (workers_of result.0.1 ≡ self.entry.1) }
        ensures workers { All (IsNewWorkerOf result.0) result.1.items }
    {
        (self.round, self.workers)
    }

    /// Searches the whole grid: each worker sweeps in a thread of its own, and one alone in this
    /// thread. The gate is told of each chunk once, and once more by each worker. It
    /// takes no memory, and cannot be refused: where no thread can be made the workers sweep
    /// one after the other.
    pub fn run<R: Threads + Sync, G: Gate + Sync>(self, rt: &R, gate: &G) -> First
        ensures clear { (result ≡ First.Clear) ↔ IsClear (F.question self.entry.0) }
        ensures at { (i : ℕ) → (result ≡ First.At i) ↔ IsLeastFailing (F.question self.entry.0) i }
    {
        let (round, mut workers) = self.open();
        sweep_all(rt, &round, workers.as_mut_slice(), gate);
        round.close(workers)
    }
}

/// Lets each worker sweep in a thread of its own, and one alone in this thread.
fn sweep_all<'a, F: Form + Sync, R: Threads + Sync, G: Gate + Sync>(
    rt: &R,
    round: &Round<'a, F>,
    workers: &mut [Worker<'a, F>],
    gate: &G,
)
    requires new { All (IsNewWorkerOf round.now) workers.old }
    ensures count { length workers.new ≡ length workers.old }
    ensures of_round { All (IsWorkerOf round.now) workers.new }
    ensures swept { All (HasSwept (F.question round.now.0)) workers.new }
{
    in_threads(
        rt,
        workers,
        &|_, worker|
            requires { IsSync F.row × IsSync G.row × IsNewWorkerOf round.now worker.old }
            ensures of_round { IsWorkerOf round.entry.now worker.new }
            ensures swept { HasSwept (F.question round.entry.now.0) worker.new }
        { worker.sweep(round, gate) },
    );
}
