//! Batches of great size, and such whose input or output fails.

use super::tables::{assert_run, bytes_of, words_of};
use crate::program::Outcome;
use crate::run_with_views;
use geo_io::{MemSink, MemSource};
use std::alloc::{AllocError, Global};

/// The jobs of `cases/batches` have a comment each; this batch has not a byte.
#[test]
fn runs_no_job(rt: HostRuntime) -> Result<(), AllocError> {
    assert_run(&rt, rt.alloc(), "batch", "no job", Vec::new(rt.alloc()), "")
}

/// 1,008 comments of 65 bytes with their ends, a last one of `last` bytes without its end, and a second
/// job.
fn job_with_comments(alloc: Global, last: usize) -> Result<Vec<u8>, AllocError> {
    let mut comment = "#".repeat(alloc, 64)?;
    comment.push_str("\n")?;
    let mut script = comment.repeat(alloc, 1008)?;
    script.push_str(&"#".repeat(alloc, last)?)?;
    script.push_str("\n===\ndual\n")?;
    Ok(script.into_bytes())
}

/// A job may have 65,536 bytes, with the end of each line.
#[test]
fn refuses_a_job_that_is_too_large(rt: HostRuntime) -> Result<(), AllocError> {
    for (last, written) in [
        (15, "job 1\njob 2\nok\n"),
        (16, "job 1\nrefused job\njob 2\nok\n"),
    ] {
        let input = job_with_comments(rt.alloc(), last)?;
        assert_run(&rt, rt.alloc(), "batch", "a great job", input, written)?;
    }
    Ok(())
}

/// The last line counts one byte more, also where no line feed ends it.
#[test]
fn counts_the_end_of_the_last_line(rt: HostRuntime) -> Result<(), AllocError> {
    for (size, written) in [
        (65_535, "job 1\nrefused 1 long\n"),
        (65_536, "job 1\nrefused job\n"),
        (70_000, "job 1\nrefused job\n"),
    ] {
        let input = vec![in rt.alloc(); b'#'; size]?;
        assert_run(&rt, rt.alloc(), "batch", "a line", input, written)?;
    }
    Ok(())
}

/// Five jobs of 9 bytes each, with the line that ends it.
const FIVE: &str = "dual\n===\ndual\n===\ndual\n===\ndual\n===\ndual\n===\n";

const FIVE_WRITTEN: &str = "job 1\nok\njob 2\nok\njob 3\nok\njob 4\nok\njob 5\nok\n";

/// How many workers, the read that fails, and how many bytes are written before. Each read has one
/// job, and each output 9 bytes.
const FAILING_READS: [(u64, u64, usize); 12] = [
    (1, 1, 0),
    (1, 2, 9),
    (1, 5, 36),
    (2, 2, 0),
    (2, 3, 18),
    (2, 4, 18),
    (2, 5, 36),
    (3, 3, 0),
    (3, 4, 27),
    (3, 5, 27),
    (4, 5, 36),
    (16, 5, 0),
];

/// Where a read fails, the whole rounds of jobs before it are written, and nothing else.
#[test]
fn writes_the_whole_rounds_at_each_failing_read(rt: HostRuntime) -> Result<(), AllocError> {
    for (workers, call, length) in FAILING_READS {
        let words = format!(in rt.alloc(); "batch,--workers,{workers}")?;
        let mut source = MemSource::new(bytes_of(rt.alloc(), FIVE)?, vec![in rt.alloc(); call]?, 9);
        let mut sink = MemSink::new(rt.alloc(), Vec::new(rt.alloc()), 7);
        let ended = run_with_views(
            &rt,
            rt.alloc(),
            &words_of(rt.alloc(), &words)?,
            &mut source,
            &mut sink,
        )?;
        assert_eq!(rt; ended, Outcome::ReadFault);
        assert!(rt; FIVE_WRITTEN.as_bytes().starts_with(sink.held()));
        assert_eq!(rt; sink.held().len(), length, "{words}, call {call}");
    }
    Ok(())
}

/// Where a write fails, a front part is written. The rounds have 18, 18 and 9 bytes, and a write has 7.
#[test]
fn writes_a_front_part_of_a_round(rt: HostRuntime) -> Result<(), AllocError> {
    let words = words_of(rt.alloc(), "batch,--workers,2")?;
    for call in 1..9u64 {
        let mut source = MemSource::new(bytes_of(rt.alloc(), FIVE)?, Vec::new(rt.alloc()), 8);
        let mut sink = MemSink::new(rt.alloc(), vec![in rt.alloc(); call]?, 7);
        let ended = run_with_views(&rt, rt.alloc(), &words, &mut source, &mut sink)?;
        assert_eq!(rt; ended, Outcome::WriteFault);
        assert!(rt; FIVE_WRITTEN.as_bytes().starts_with(sink.held()));
    }
    Ok(())
}
