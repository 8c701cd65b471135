// What holds of every schedule, as contracts of functions that do nothing.
ghost use Rattle.std.specs.Prelude.{◌≡◌, ℕ, ◌≤◌, ◌<◌, ◌^◌, Bool, List, All};
ghost use Rattle.geo_board.specs.declared.seat.Entry.{Entry};
ghost use Rattle.geo_board.specs.declared.views.BoardEvent.{BoardEvent};
ghost use Rattle.geo_board.specs.Machine.{IsWholeSchedule, final_state, final_entries, times, least_found};
ghost use Rattle.geo_board.specs.Truth.{chunk_count, IsTruthful, IsAnswer};
ghost use Rattle.geo_board.specs.declared.limits.TheConstants.{INDEX_LIMIT};

/// Once all workers have ended, whatever the schedule, each chunk was finished once, and the board has the least index
/// found. Where all entries are truthful, that is the answer of the search.
pub fn every_schedule()
    ensures each_chunk_once { (total workers : ℕ) (events : List BoardEvent)
        → IsWholeSchedule total workers events
        → (chunk : ℕ) → chunk < total → times chunk (final_entries total workers events) ≡ 1 }
    ensures least { (total workers : ℕ) (events : List BoardEvent)
        → IsWholeSchedule total workers events
        → (final_state total workers events).least ≡ least_found (final_entries total workers events) }
    ensures answer { (size workers : ℕ) (events : List BoardEvent) (fails : ℕ → Bool)
        → size ≤ INDEX_LIMIT
        → IsWholeSchedule (chunk_count size) workers events
        → All (IsTruthful size fails) (final_entries (chunk_count size) workers events)
        → IsAnswer size fails (final_state (chunk_count size) workers events).least }
{}

/// What truthful entries decide, for who closes a running board: its answer is that of the search.
pub fn truthful_entries()
    ensures { (size least : ℕ) (fails : ℕ → Bool) (entries : List Entry)
        → size ≤ INDEX_LIMIT
        → least ≡ least_found entries
        → All (λ e. least ≤ e.bound) entries
        → ((chunk : ℕ) → chunk < chunk_count size → times chunk entries ≡ 1)
        → All (IsTruthful size fails) entries
        → IsAnswer size fails least }
{}
