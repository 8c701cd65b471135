//! The bytes of one read.
ghost use Rattle.std.specs.Prelude.{◌≡◌, ◌≤◌, [], length, drop, IfOk, MatchResult, OnErr};
ghost use Rattle.std.specs.Io.KnownBytes.{Consumes, Keeps, IsAtEnd};
ghost use Rattle.geo_io.specs.Faults.{Rose};

use super::ends::{Failed, NoMemory};
use super::streams::Source;
use std::alloc::Global;
use std::marker::Model;

/// The length of the buffer that each read is given.
const BUFFER_LEN: usize = 4096;

/// What is left of the bytes that the last read gave.
#[derive(Drop)]
pub(super) struct Buffer {
    bytes: Vec<u8>,
    at: usize,
    end: usize,
}

impl Model for Buffer {
    ghost use Rattle.std.specs.Prelude.{◌≡◌, ◌≤◌, ℕ, List, length, take, drop};

    ghost Value = { List ℕ };

    ghost view = { λ s. drop s.at (take s.end s.bytes.items) };

    ghost invariant = { λ s. (length s.bytes.items ≡ 4096) × (s.at ≤ s.end) × (s.end ≤ 4096) };
}

impl Buffer {
    pub(super) fn new(alloc: Global) -> Result<Buffer, NoMemory>
        ensures { IfOk result (λ buffer. buffer ≡ []) }
    {
        match vec![in alloc; 0u8; BUFFER_LEN] {
            Ok(bytes) => Ok(Buffer {
                bytes,
                at: 0,
                end: 0,
            }),
            Err(_) => Err(NoMemory),
        }
    }

    pub(super) fn bytes(&self) -> &[u8]
        ensures bytes { result.now ≡ self.now }
        ensures few { length result.now ≤ 4096 }
    {
        &self.bytes[self.at..self.end]
    }

    /// Passes over the first bytes.
    pub(super) fn pass(&mut self, count: usize)
        requires { count ≤ length self.old }
        ensures { self.new ≡ drop count self.old }
    {
        self.at += count;
    }

    /// Reads once; the bytes that it had are gone.
    pub(super) fn read<S: Source>(&mut self, source: &mut S) -> Result<(), Failed>
        ensures few { length self.new ≤ 4096 }
        ensures bytes { MatchResult result
            (λ _. Consumes (S.left source.old) (S.left source.new) self.new)
            (λ _. Keeps (S.left source.old) (S.left source.new)) }
        ensures end { IfOk result (λ _. self.new ≡ [] → IsAtEnd (S.left source.new)) }
        ensures none { OnErr result (self.new ≡ []) }
        ensures counts { S.fault_count source.old ≤ S.fault_count source.new }
        ensures failed { OnErr result (Rose (S.fault_count source.old) (S.fault_count source.new)) }
    {
        self.at = 0;
        self.end = 0;
        self.end = source.read(&mut self.bytes)?;
        Ok(())
    }
}
