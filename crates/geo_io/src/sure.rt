//! A source and a sink in memory that never fault.
ghost use Rattle.std.specs.Prelude.{◌≡◌, ℕ, List, Some, Ok, IfOk, IfErr, IsOk, ◌<◌, ◌≤◌, min, length, drop, [], ◌++◌};
ghost use Rattle.std.specs.Io.{ReadsAtMost, WritesAtMost};
ghost use Rattle.std.specs.Io.KnownBytes.{ReadConsumes, WriteAppends};

use super::ends::{Failed, SinkEnd};
use super::front::copy_front;
use super::streams::{Sink, Source};
use std::alloc::Global;
use std::marker::Model;

/// A source over bytes in memory, seen as the bytes that are left. Its count of faults is the
/// constant 0.
#[derive(Drop)]
pub struct SureSource {
    bytes: Vec<u8>,
    at: usize,
}

impl Model for SureSource {
    ghost Value = { List ℕ };

    ghost view = { λ s. drop s.at s.bytes.items };

    ghost invariant = { λ s. s.at ≤ length s.bytes.items };
}

impl SureSource {
    /// A source that gives these bytes.
    pub fn new(bytes: Vec<u8>) -> SureSource
        ensures { result ≡ bytes.items }
    {
        SureSource { bytes, at: 0 }
    }
}

impl Source for SureSource {
    ghost left = { λ s. Some s };

    ghost fault_count = { λ _. 0 };

    fn read(&mut self, buf: &mut [u8]) -> Result<usize, Failed>
        ensures bound { ReadsAtMost result buf.new }
        ensures bytes { ReadConsumes (Some self.old) (Some self.new) result buf.new }
        ensures full { result ≡ Ok (min (length buf.new) (length self.old)) }
    {
        let count = buf.len().min(self.bytes.len() - self.at);
        copy_front(&self.bytes[self.at..], buf, count);
        self.at += count;
        Ok(count)
    }

    fn faults(&self) -> u64
        ensures { result ≡ 0 }
    {
        0
    }
}

/// A sink in memory, seen as the bytes that it holds. Its count of faults is the constant 0.
#[derive(Drop)]
pub struct SureSink {
    bytes: Vec<u8>,
}

impl Model for SureSink {
    ghost Value = { List ℕ };

    ghost view = { λ s. s.bytes.items };
}

impl SureSink {
    /// A sink that holds nothing.
    pub fn new(alloc: Global) -> SureSink
        ensures { result ≡ [] }
    {
        SureSink {
            bytes: Vec::new(alloc),
        }
    }

    /// The bytes that it holds.
    pub fn held(&self) -> &[u8]
        ensures { result.now ≡ self.now }
    {
        &self.bytes
    }
}

impl Sink for SureSink {
    ghost held = { λ s. Some s };

    ghost fault_count = { λ _. 0 };

    fn write(&mut self, piece: &[u8]) -> Result<usize, SinkEnd>
        ensures bound { WritesAtMost result piece.now }
        ensures whole { IfOk result (λ n. n ≡ length piece.now) }
        ensures bytes { WriteAppends (Some self.old) (Some self.new) result piece.now }
        ensures memory { IfErr result (λ end. end ≡ SinkEnd.NoMemory) }
    {
        match self.bytes.extend_from_slice(piece) {
            Ok(()) => Ok(piece.len()),
            Err(_) => Err(SinkEnd::NoMemory),
        }
    }

    fn faults(&self) -> u64
        ensures { result ≡ 0 }
    {
        0
    }
}
