//! What a source and a sink promise.
ghost use Rattle.std.specs.Prelude.{◌≡◌, ℕ, List, Option, ◌<◌, ◌≤◌, length, IfOk, OnErr, IsErrOf};
ghost use Rattle.std.specs.Io.{ReadsAtMost, WritesAtMost};
ghost use Rattle.std.specs.Io.KnownBytes.{ReadConsumes, WriteAppends};
ghost use Rattle.geo_io.specs.Faults.{Rose};

use super::ends::{Failed, SinkEnd};

/// Gives bytes, in pieces of its own choosing, up to an end.
///
/// A source that tells the bytes that are left goes on telling after each call, whatever the call
/// answers; its count of faults never falls.
pub trait Source {
    // The bytes that are left, where the source tells them.
    ghost left: { Self → Option (List ℕ) };

    // The faults so far, a count that stays at 2^64 − 1 once it is there.
    ghost fault_count: { Self → ℕ };

    /// Moves the next bytes into the front of `buf`, and gives their number. `Ok(0)` on a buffer
    /// that is not empty means the end. At `Failed` no byte is taken.
    fn read(&mut self, buf: &mut [u8]) -> Result<usize, Failed>
        ensures bound { ReadsAtMost result buf.new }
        ensures bytes { ReadConsumes (left self.old) (left self.new) result buf.new }
        ensures counts { fault_count self.old ≤ fault_count self.new }
        ensures failed { OnErr result (Rose (fault_count self.old) (fault_count self.new)) };

    /// The number of faults so far, which stays at 2^64 − 1 once it is there.
    fn faults(&self) -> u64
        ensures { result ≡ fault_count self.now };
}

/// Takes bytes, as many of each piece as it likes.
///
/// A sink that tells the bytes that it holds goes on telling after each call, whatever the call
/// answers; its count of faults never falls.
pub trait Sink {
    // The bytes that the sink holds, where it tells them.
    ghost held: { Self → Option (List ℕ) };

    // The faults so far, a count that stays at 2^64 − 1 once it is there.
    ghost fault_count: { Self → ℕ };

    /// Appends the first bytes of `piece`, at least one where it is not empty, and gives their
    /// number. At an `Err` nothing of the piece is taken.
    fn write(&mut self, piece: &[u8]) -> Result<usize, SinkEnd>
        ensures bound { WritesAtMost result piece.now }
        ensures some { IfOk result (λ n. 0 < length piece.now → 0 < n) }
        ensures bytes { WriteAppends (held self.old) (held self.new) result piece.now }
        ensures counts { fault_count self.old ≤ fault_count self.new }
        ensures failed { IsErrOf result SinkEnd.Failed
            → Rose (fault_count self.old) (fault_count self.new) };

    /// The number of faults so far, which stays at 2^64 − 1 once it is there.
    fn faults(&self) -> u64
        ensures { result ≡ fault_count self.now };
}
