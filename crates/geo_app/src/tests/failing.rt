//! Sources and sinks that fail at each of their calls in turn.

use super::tables::{bytes_of, words_of};
use crate::run_with_views;
use geo_io::{MemSink, MemSource, SureSink, SureSource};
use std::alloc::{AllocError, Global};
use std::thread::Threads;

/// The lines of a script.
const SCRIPT: &str = "\
point A 0 0
point B 1 0
point C 0 1
join l A B
join m A C
meet X l m
screen
ledger
";

/// What is written for each line, with `|` behind the last line feed.
const REPLIES: &str = "\
ok
|ok
|ok
|ok
|ok
|ok
|A point 0 0 1
B point 1 0 1
C point 0 1 1
l line 0 1 0
m line 1 0 0
X point 0 0 1
|proved same A X
";

/// The replies to those lines of the script that end within its first `count` bytes.
fn replies_within(alloc: Global, count: usize) -> Result<Vec<u8>, AllocError> {
    let front = SCRIPT.as_bytes().get(..count).unwrap_or(SCRIPT.as_bytes());
    let lines = front
        .iter()
        .filter(|byte: &&u8| -> bool { **byte == b'\n' })
        .count();
    let mut written = Vec::new(alloc);
    for reply in REPLIES.split('|').take(lines) {
        written.extend_from_slice(reply.as_bytes())?;
    }
    Ok(written)
}

/// How the script ends, and what is written, where calls fail.
fn run_failing<R: Threads + Sync>(
    rt: &R,
    alloc: Global,
    reads: Vec<u64>,
    writes: Vec<u64>,
) -> Result<(u8, MemSink), AllocError> {
    let mut source = MemSource::new(bytes_of(alloc, SCRIPT)?, reads, 8);
    let mut sink = MemSink::new(alloc, writes, 7);
    let ended = run_with_views(rt, alloc, &words_of(alloc, "run")?, &mut source, &mut sink)?;
    Ok((ended.status(), sink))
}

/// At most the whole lines among the bytes that were read before are answered, and each of them.
#[test]
fn writes_the_whole_lines_at_each_failing_read(rt: HostRuntime) -> Result<(), AllocError> {
    let calls = SCRIPT.len().div_ceil(8) as u64 + 1;
    for before in 0..calls {
        let reads = vec![in rt.alloc(); before + 1]?;
        let (status, sink) = run_failing(&rt, rt.alloc(), reads, Vec::new(rt.alloc()))?;
        let written = replies_within(rt.alloc(), 8 * before as usize)?;
        assert_eq!(rt; status, 3);
        assert_eq!(rt; sink.held(), written.as_slice(), "{before} reads");
    }
    Ok(())
}

/// Each reply is written in pieces of 7 bytes: six times ok, 82 bytes, and 16.
#[test]
fn writes_a_front_part_at_each_failing_write(rt: HostRuntime) -> Result<(), AllocError> {
    let whole = replies_within(rt.alloc(), SCRIPT.len())?;
    let (status, sink) = run_failing(&rt, rt.alloc(), Vec::new(rt.alloc()), Vec::new(rt.alloc()))?;
    assert_eq!(rt; status, 0);
    assert_eq!(rt; sink.held(), whole.as_slice());
    for call in 1..22u64 {
        let writes = vec![in rt.alloc(); call]?;
        let (status, sink) = run_failing(&rt, rt.alloc(), Vec::new(rt.alloc()), writes)?;
        assert_eq!(rt; status, 4);
        assert!(rt; whole.starts_with(sink.held()), "write {call}");
    }
    Ok(())
}

const THREE_LINES: &str = "point A 1 2\nscreen\nscreen\n";

#[test]
fn ends_at_a_failing_read(rt: HostRuntime) -> Result<(), AllocError> {
    let script = bytes_of(rt.alloc(), THREE_LINES)?;
    let mut source = MemSource::new(script, vec![in rt.alloc(); 3]?, 8);
    let mut sink = SureSink::new(rt.alloc());
    let ended = run_with_views(
        &rt,
        rt.alloc(),
        &words_of(rt.alloc(), "run")?,
        &mut source,
        &mut sink,
    )?;
    assert_eq!(rt; ended.status(), 3);
    assert_eq!(rt; sink.held(), b"ok\n".as_slice());
    Ok(())
}

#[test]
fn ends_at_a_failing_write(rt: HostRuntime) -> Result<(), AllocError> {
    let mut source = SureSource::new(bytes_of(rt.alloc(), THREE_LINES)?);
    let mut sink = MemSink::new(rt.alloc(), vec![in rt.alloc(); 2]?, 7);
    let ended = run_with_views(
        &rt,
        rt.alloc(),
        &words_of(rt.alloc(), "run")?,
        &mut source,
        &mut sink,
    )?;
    assert_eq!(rt; ended.status(), 4);
    assert_eq!(rt; sink.held(), b"ok\n".as_slice());
    Ok(())
}
