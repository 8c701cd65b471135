//! A source and a sink in memory that fail at chosen calls, for tests of what stands above.
ghost use Rattle.std.specs.Prelude.{◌≡◌, Some, Ok, IfOk, IsErr, IsTrue, IsErrOf, MatchBool, OnErr, ◌<◌, ◌≤◌, ◌↔◌, min, length, []};
ghost use Rattle.std.specs.Io.{ReadsAtMost, WritesAtMost};
ghost use Rattle.std.specs.Io.KnownBytes.{ReadConsumes, WriteAppends};
ghost use Rattle.geo_io.specs.Faults.{Rose};
ghost use Rattle.geo_io.specs.Memory.{first_calls, next_fails, after_next};

use super::calls::Calls;
use super::ends::{Failed, SinkEnd};
use super::front::copy_front;
use super::streams::{Sink, Source};
use std::alloc::Global;
use std::marker::Model;

/// A source over bytes in memory. The calls whose numbers, from 1, stand in `failing` fail; each
/// other call gives as many bytes as the smallest of `most`, the buffer's length and the number of
/// bytes left.
#[derive(Drop)]
pub struct MemSource {
    bytes: Vec<u8>,
    at: usize,
    calls: Calls,
}

impl Model for MemSource {
    ghost use Rattle.std.specs.Prelude.{◌≤◌, length, drop};
    ghost use Rattle.geo_io.specs.Memory.{MemoryInput};

    ghost Value = { MemoryInput };

    ghost view = { λ s. record { left = drop s.at s.bytes.items; calls = s.calls } };

    ghost invariant = { λ s. s.at ≤ length s.bytes.items };
}

impl MemSource {
    /// A source that gives these bytes, at most `most` a call.
    pub fn new(bytes: Vec<u8>, failing: Vec<u64>, most: usize) -> MemSource
        requires { 1 ≤ most }
        ensures { result ≡ record { left = bytes.items; calls = first_calls failing.items most } }
    {
        MemSource {
            bytes,
            at: 0,
            calls: Calls::new(failing, most),
        }
    }
}

impl Source for MemSource {
    ghost left = { λ s. Some s.left };

    ghost fault_count = { λ s. s.calls.faults };

    fn read(&mut self, buf: &mut [u8]) -> Result<usize, Failed>
        ensures bound { ReadsAtMost result buf.new }
        ensures bytes { ReadConsumes (Some self.old.left) (Some self.new.left) result buf.new }
        ensures gives { MatchBool (next_fails self.old.calls) (IsErr result)
            (result ≡ Ok (min self.old.calls.most
            (min (length buf.old) (length self.old.left)))) }
        ensures calls { self.new.calls ≡ after_next self.old.calls }
        ensures counts { self.old.calls.faults ≤ self.new.calls.faults }
        ensures failed { OnErr result (Rose self.old.calls.faults self.new.calls.faults) }
    {
        let most = self.calls.most();
        if self.calls.next_fails() {
            return Err(Failed);
        }
        let count = most.min(buf.len().min(self.bytes.len() - self.at));
        copy_front(&self.bytes[self.at..], buf, count);
        self.at += count;
        Ok(count)
    }

    fn faults(&self) -> u64 {
        self.calls.faults()
    }
}

/// A sink in memory. The calls whose numbers, from 1, stand in `failing` fail; each other call
/// takes as many bytes as the smaller of `most` and the piece's length, where there is memory.
#[derive(Drop)]
pub struct MemSink {
    bytes: Vec<u8>,
    calls: Calls,
}

impl Model for MemSink {
    ghost use Rattle.geo_io.specs.Memory.{MemoryOutput};

    ghost Value = { MemoryOutput };

    ghost view = { λ s. record { held = s.bytes.items; calls = s.calls } };
}

impl MemSink {
    /// A sink that holds nothing and takes at most `most` bytes a call.
    pub fn new(alloc: Global, failing: Vec<u64>, most: usize) -> MemSink
        requires { 1 ≤ most }
        ensures { result ≡ record { held = []; calls = first_calls failing.items most } }
    {
        MemSink {
            bytes: Vec::new(alloc),
            calls: Calls::new(failing, most),
        }
    }

    /// The bytes that it holds.
    pub fn held(&self) -> &[u8]
        ensures { result.now ≡ self.now.held }
    {
        &self.bytes
    }
}

impl Sink for MemSink {
    ghost held = { λ s. Some s.held };

    ghost fault_count = { λ s. s.calls.faults };

    fn write(&mut self, piece: &[u8]) -> Result<usize, SinkEnd>
        ensures bound { WritesAtMost result piece.now }
        ensures some { IfOk result (λ n. 0 < length piece.now → 0 < n) }
        ensures bytes { WriteAppends (Some self.old.held) (Some self.new.held) result piece.now }
        ensures takes { IfOk result (λ n. n ≡ min self.old.calls.most (length piece.now)) }
        ensures fails { IsErrOf result SinkEnd.Failed ↔ IsTrue (next_fails self.old.calls) }
        ensures calls { self.new.calls ≡ after_next self.old.calls }
        ensures counts { self.old.calls.faults ≤ self.new.calls.faults }
        ensures failed { IsErrOf result SinkEnd.Failed
            → Rose self.old.calls.faults self.new.calls.faults }
    {
        let most = self.calls.most();
        if self.calls.next_fails() {
            return Err(SinkEnd::Failed);
        }
        let count = most.min(piece.len());
        match self.bytes.extend_from_slice(&piece[..count]) {
            Ok(()) => Ok(count),
            Err(_) => Err(SinkEnd::NoMemory),
        }
    }

    fn faults(&self) -> u64 {
        self.calls.faults()
    }
}
