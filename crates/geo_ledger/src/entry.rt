//! What a ledger says of one statement.

use geo_sketch::{Statement, Verdict};

/// One line of the ledger.
#[derive(Drop)]
pub struct Entry {
    pub statement: Statement,
    /// Whether it is a conjecture, claimed or not; otherwise it is a claim alone.
    pub guessed: bool,
    pub verdict: Verdict,
}
