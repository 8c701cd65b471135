// The calls on a board: each of `claim`, `look` and `finish` is one atomic operation on one word.
ghost use Rattle.std.specs.Prelude.{◌≡◌, ℕ, ◌+◌, ◌-◌, ◌≤◌, ◌<◌, ◌^◌, [], true, false, None, Some, IsSome, List, All, length, vec_len, map, IfOk, IfSome, MatchOption};
ghost use Rattle.std.specs.List.{range_with_len};
ghost use Rattle.geo_board.specs.declared.views.BoardEvent.{BoardEvent};
ghost use Rattle.geo_board.specs.declared.views.BoardEvent.TheVariants.{Claim, Look, Finish};
ghost use Rattle.geo_board.specs.Machine.{worker_after_claim, worker_after_look, worker_after_finish, least_found, times, IsWholeSchedule};
ghost use Rattle.geo_board.specs.Rule.{initial_view};
ghost use Rattle.geo_board.specs.BoardSeats.{total_of, workers_of, state_of, number_of, worker_of, history_of, IsSeatOf, IsInitialSeatOf, HasEnded, Happened, HasPartIn, entries_of, hands_of};
ghost use Rattle.geo_board.specs.declared.limits.TheConstants.{WORKER_LIMIT, INDEX_LIMIT};

use crate::rule::{Claiming, Finishing, Gathering, LEAST, Looking, NEXT, Parting, Sizes};
use crate::seat::{Board, BoardSeat, NoMemory};
use crate::views::SeatView;
use atomic_table::{Seat, Table};
use std::alloc::{AllocError, Global};

impl BoardSeat {
    /// The number of its worker, from 0.
    pub fn number(&self) -> u64
        ensures { result ≡ number_of self.now }
    {
        self.number
    }
}

impl Board {
    /// A board of `total` chunks, all unclaimed, and one seat for each worker number from 0.
    pub fn new(alloc: Global, total: u64, workers: u64) -> Result<(Board, Vec<BoardSeat>), NoMemory>
        requires workers { (0 < workers) × (workers ≤ WORKER_LIMIT) }
        requires chunks { total ≤ INDEX_LIMIT }
        ensures sizes { IfOk result (λ r. (total_of r.0 ≡ total) × (workers_of r.0 ≡ workers)) }
        ensures seats { IfOk result (λ r. All (IsInitialSeatOf r.0) r.1.items) }
        ensures numbers { IfOk result (λ r. map number_of r.1.items ≡ range_with_len 0 workers) }
        ensures histories { IfOk result (λ r. All (λ s. history_of s ≡ []) r.1.items) }
    {
        let sizes = Sizes { total, workers };
        let Ok((table, whole)) = Table::of_words(alloc, &[0, u64::MAX], &sizes) else {
            return Err(NoMemory);
        };
        let board = Board { sizes, table };
        let Ok(seats) = board.deal(alloc, whole) else {
            return Err(NoMemory);
        };
        Ok((board, seats))
    }

    // Splits the first seat into one for each worker.
    fn deal(
        &self,
        alloc: Global,
        mut whole: Seat<(), SeatView>,
    ) -> Result<Vec<BoardSeat>, AllocError>
        requires { (whole.table_id ≡ self.now.table.shared.table_id) × (whole.me ≡ (initial_view self.now.sizes, [])) }
        ensures seats { IfOk result (λ seats. All (IsInitialSeatOf self.now) seats.items) }
        ensures numbers { IfOk result (λ seats. map number_of seats.items ≡ range_with_len 0 self.now.sizes.workers) }
        ensures histories { IfOk result (λ seats. All (λ s. history_of s ≡ []) seats.items) }
    {
        let mut seats = Vec::new(alloc);
        let last = self.sizes.workers - 1;
        for number in 0..last {
            let seat = self.table.shared.split_seat::<Parting>(&mut whole);
            seats.push(BoardSeat { number, seat })?;
        }
        seats.push(BoardSeat {
            number: last,
            seat: whole,
        })?;
        Ok(seats)
    }

    /// Claims the next chunk. `None` says that at this call's own step all chunks were claimed.
    pub fn claim(&self, seat: &mut BoardSeat) -> Option<u64>
        requires of_board { IsSeatOf self.now seat.old }
        requires free { ((worker_of seat.old).chunk ≡ None) × ((worker_of seat.old).ended ≡ false) }
        ensures of_board { IsSeatOf self.now seat.new × (number_of seat.new ≡ number_of seat.old) }
        ensures claimed { (next : ℕ) × (worker_of seat.new ≡ worker_after_claim (total_of self.now) next (worker_of seat.old))
            × MatchOption result (total_of self.now ≤ next) (λ chunk. (chunk ≡ next) × (chunk < total_of self.now)) }
        ensures happened { (earlier : List BoardEvent) × Happened self.now earlier (Claim (number_of seat.old)) seat.old seat.new
            × MatchOption result (total_of self.now ≤ (state_of self.now earlier).next) (λ chunk. chunk ≡ (state_of self.now earlier).next) }
        ensures above { IfSome result (λ chunk. All (λ e. e.chunk < chunk) (worker_of seat.old).entries) }
    {
        let shared = &self.table.shared;
        let next = shared.fetch_add::<Claiming>(&mut seat.seat, NEXT, 1);
        if next < self.sizes.total {
            Some(next)
        } else {
            None
        }
    }

    /// The least index found so far, `u64::MAX` for none.
    pub fn look(&self, seat: &mut BoardSeat) -> u64
        requires of_board { IsSeatOf self.now seat.old }
        ensures of_board { IsSeatOf self.now seat.new × (number_of seat.new ≡ number_of seat.old) }
        ensures looked { worker_of seat.new ≡ worker_after_look result (worker_of seat.old) }
        ensures happened { (earlier : List BoardEvent) × Happened self.now earlier (Look (number_of seat.old)) seat.old seat.new
            × (result ≡ (state_of self.now earlier).least) }
        ensures not_above_last { result ≤ (worker_of seat.old).look }
        ensures not_above_own { result ≤ least_found (worker_of seat.old).entries }
    {
        self.table.shared.load::<Looking>(&mut seat.seat, LEAST)
    }

    /// Ends the seat's chunk, in which `found` is the least failing index, or `u64::MAX`.
    pub fn finish(&self, seat: &mut BoardSeat, found: u64)
        requires of_board { IsSeatOf self.now seat.old }
        requires busy { IsSome (worker_of seat.old).chunk }
        ensures of_board { IsSeatOf self.now seat.new × (number_of seat.new ≡ number_of seat.old) }
        ensures finished { worker_of seat.new ≡ worker_after_finish found (worker_of seat.old) }
        ensures happened { (earlier : List BoardEvent) × Happened self.now earlier (Finish (number_of seat.old) found) seat.old seat.new }
    {
        let shared = &self.table.shared;
        shared.fetch_min::<Finishing>(&mut seat.seat, LEAST, found);
    }

    /// The least index found by all workers, `u64::MAX` for none.
    pub fn close(self, seats: Vec<BoardSeat>) -> u64
        requires all { vec_len seats ≡ workers_of self }
        requires seats { All (λ s. IsSeatOf self s × HasEnded s) seats.items }
        ensures least { result ≡ least_found (entries_of seats.items) }
        ensures bounds { All (λ e. result ≤ e.bound) (entries_of seats.items) }
        ensures each_chunk_once { (chunk : ℕ) → chunk < total_of self → times chunk (entries_of seats.items) ≡ 1 }
        ensures schedule { (events : List BoardEvent) × IsWholeSchedule (total_of self) (workers_of self) events
            × (result ≡ (state_of self events).least) × All (HasPartIn self events) seats.items }
    {
        let whole = self.gather(seats);
        let Board { sizes: _, table } = self;
        let closed = table.close_with(whole);
        let least = closed.word(LEAST);
        closed.free();
        least
    }

    // One seat with all workers and all entries.
    fn gather(&self, mut seats: Vec<BoardSeat>) -> Seat<(), SeatView>
        requires all { vec_len seats ≡ workers_of self.now }
        requires seats { All (λ s. IsSeatOf self.now s × HasEnded s) seats.items }
        ensures of_board { result.table_id ≡ self.now.table.shared.table_id }
        ensures hands { result.me.0.hands ≡ hands_of seats.items }
        ensures workers { length result.me.0.hands ≡ workers_of self.now }
        ensures ended { All (λ h. h.worker.ended ≡ true) result.me.0.hands }
    {
        let Some(
            BoardSeat {
                number: _,
                seat: mut whole,
            },
        ) = seats.pop()
        else {
            unreachable!()
        };
        while let Some(
            BoardSeat {
                number: _,
                seat: other,
            },
        ) = seats.pop()
        {
            self.table.shared.join_seat::<Gathering>(&mut whole, other);
        }
        whole
    }
}
