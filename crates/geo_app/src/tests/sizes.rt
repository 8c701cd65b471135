//! Inputs of the greatest size, whose bytes are made as they are read.

ghost use Rattle.std.specs.Prelude.{None};

use super::tables::words_of;
use crate::program::Outcome;
use crate::run_with_views;
use geo_io::{Failed, Source, SureSink};
use std::alloc::{AllocError, Global};
use std::process::Abort;
use std::thread::Threads;

/// So many line feeds, of which it does not tell that they are what is left.
#[derive(Drop)]
struct LineFeeds {
    left: usize,
}

impl Source for LineFeeds {
    ghost left = { λ _. None };

    ghost fault_count = { λ _. 0 };

    fn read(&mut self, buf: &mut [u8]) -> Result<usize, Failed> {
        let count = buf.len().min(self.left);
        buf[..count].fill(b'\n');
        self.left -= count;
        Ok(count)
    }

    fn faults(&self) -> u64 {
        0
    }
}

/// How the program ends with so many line feeds, of which all are read, and what it writes.
fn assert_size<R: Threads + Sync + Abort>(
    rt: &R,
    alloc: Global,
    words: &str,
    size: usize,
    ended: Outcome,
    written: &str,
) -> Result<(), AllocError> {
    let mut source = LineFeeds { left: size };
    let mut sink = SureSink::new(alloc);
    let words = words_of(alloc, words)?;
    let outcome = run_with_views(rt, alloc, &words, &mut source, &mut sink)?;
    assert_eq!(rt; outcome, ended);
    assert_eq!(rt; sink.held(), written.as_bytes());
    assert_eq!(rt; source.left, 0);
    Ok(())
}

const MOST: usize = 1 << 24;

#[test]
fn reads_the_greatest_script(rt: HostRuntime) -> Result<(), AllocError> {
    assert_size(&rt, rt.alloc(), "run", MOST, Outcome::Done, "")
}

#[test]
fn stops_at_one_byte_more(rt: HostRuntime) -> Result<(), AllocError> {
    assert_size(&rt, rt.alloc(), "run", MOST + 1, Outcome::TooLong, "")
}

#[test]
fn reads_as_many_bytes_of_certificates(rt: HostRuntime) -> Result<(), AllocError> {
    assert_size(&rt, rt.alloc(), "check", MOST, Outcome::Done, "")?;
    assert_size(&rt, rt.alloc(), "check", MOST + 1, Outcome::TooLong, "")
}

/// All of them are one job, which is too large.
#[test]
fn reads_as_many_bytes_of_batches(rt: HostRuntime) -> Result<(), AllocError> {
    let refused = "job 1\nrefused job\n";
    assert_size(
        &rt,
        rt.alloc(),
        "batch",
        MOST,
        Outcome::SomeRefused,
        refused,
    )?;
    assert_size(&rt, rt.alloc(), "batch", MOST + 1, Outcome::TooLong, "")
}
