//! A round: one search, which its workers share.

ghost use Rattle.std.specs.Prelude.{◌≡◌, ◌↔◌, ℕ, All, vec_len};
ghost use Rattle.geo_board.specs.BoardSeats.{workers_of};
ghost use Rattle.geo_board.specs.Truth.{IsAnswer};
ghost use Rattle.geo_degree.specs.Grids.{grid_size};
ghost use Rattle.geo_degree.specs.Questions.{IsClear, IsLeastFailing, grid_of};
ghost use Rattle.geo_settle.specs.Fails.{fails_at};
ghost use Rattle.geo_settle.specs.Rounds.{HasSwept, IsWorkerOf};

use crate::bench::First;
use crate::worker::{Room, Worker};
use geo_board::{Board, truthful_entries};
use geo_grid::Form;
use std::marker::Model;

/// The search over the grid of a form, with the board on which its workers claim chunks.
/// Contracts see the form and the board.
#[derive(Drop)]
pub struct Round<'a, F: Form> {
    pub(crate) form: &'a F,
    pub(crate) size: u64,
    pub(crate) board: Board,
}

impl<'a, F: Form> Model for Round<'a, F> {
    ghost use Rattle.std.specs.Prelude.{◌≡◌, ◌≤◌};
    ghost use Rattle.geo_board.specs.declared.seat.Board.{Board};
    ghost use Rattle.geo_board.specs.BoardSeats.{total_of, workers_of};
    ghost use Rattle.geo_board.specs.Truth.{chunk_count};
    ghost use Rattle.geo_degree.specs.Grids.{grid_size};
    ghost use Rattle.geo_degree.specs.Questions.{grid_of};
    ghost use Rattle.geo_degree.specs.declared.limits.TheConstants.{SIZE_LIMIT};
    ghost use Rattle.geo_board.specs.declared.limits.TheConstants.{WORKER_LIMIT};

    ghost Value = { F × Board };

    ghost view = { λ r. (r.form.now, r.board) };

    ghost invariant = { λ r.
        (r.size ≡ grid_size (grid_of (F.question r.form.now))) ×
        (r.size ≤ SIZE_LIMIT) ×
        (total_of r.board ≡ chunk_count r.size) ×
        (workers_of r.board ≤ WORKER_LIMIT) };
}

impl<'a, F: Form + Sync> Round<'a, F> {
    /// What was found, once all workers have swept. It takes no memory, and waits for
    /// nobody.
    pub fn close(self, mut workers: Vec<Worker<'a, F>>) -> First
        requires count { vec_len workers ≡ workers_of self.1 }
        requires of_round { All (IsWorkerOf self) workers.items }
        requires swept { All (HasSwept (F.question self.0)) workers.items }
        ensures clear { (result ≡ First.Clear) ↔ IsClear (F.question self.entry.0) }
        ensures at { (i : ℕ) → (result ≡ First.At i) ↔ IsLeastFailing (F.question self.entry.0) i }
    {
        let Round {
            form,
            size: _,
            board,
        } = self;
        let Some(first) = workers.pop() else {
            unreachable!()
        };
        let (seat, room) = first.into_parts();
        let Room { mut seats } = room;
        let Ok(()) = seats.push(seat) else {
            unreachable!()
        };
        while let Some(worker) = workers.pop() {
            let (seat, _room) = worker.into_parts();
            let Ok(()) = seats.push(seat) else {
                unreachable!()
            };
        }
        truthful_entries();
        first_found(form, board.close(seats))
    }
}

/// What was found in the search of which this is the board's answer.
fn first_found<F: Form>(form: &F, least: u64) -> First
    requires { IsAnswer (grid_size (grid_of (F.question form.now))) (fails_at (F.question form.now)) least }
    ensures clear { (result ≡ First.Clear) ↔ IsClear (F.question form.now) }
    ensures at { (i : ℕ) → (result ≡ First.At i) ↔ IsLeastFailing (F.question form.now) i }
{
    if least == u64::MAX {
        First::Clear
    } else {
        First::At(least)
    }
}
