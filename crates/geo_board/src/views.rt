// What is known with a seat of the table. All of it exists in proofs alone: no value of these types is made.
use crate::seat::Entry;
use std::collections::LinkedList;

/// What a worker, named by its number, does at one step; with a finish goes the least failing index of its chunk, or
/// `u64::MAX`.
pub enum BoardEvent {
    Claim(u64),
    Look(u64),
    Finish(u64, u64),
}

/// A worker's current chunk if it has one, what it saw at its last look, whether it has ended, and the chunks that it has
/// finished.
pub struct WorkerState {
    pub chunk: Option<u64>,
    pub look: u64,
    pub ended: bool,
    pub entries: LinkedList<Entry>,
}

/// A worker with its number, and all that had happened on the board when it stepped last, that step included.
pub struct Hand {
    pub number: u64,
    pub history: LinkedList<BoardEvent>,
    pub worker: WorkerState,
}

/// The board's number of chunks and of workers, and the workers of one seat.
pub struct SeatView {
    pub total: u64,
    pub workers: u64,
    pub hands: LinkedList<Hand>,
}
