//! Words of the command line, and what the program does for them.

use super::tables::{bytes_of, run_over, words_of};
use crate::program::Outcome;
use crate::run_with_views;
use geo_io::{SureSink, SureSource};
use std::alloc::{AllocError, Global};
use std::process::Abort;
use std::thread::Threads;

/// Runs the program with the words of each line of a table over a script of one line, and compares
/// how it ends and what it writes.
fn assert_forms<R: Threads + Sync + Abort>(
    rt: &R,
    alloc: Global,
    forms: &str,
    outcome: Outcome,
    written: &str,
) -> Result<(), AllocError> {
    for words in forms.split_terminator('\n') {
        let (ended, sink) = run_over(rt, alloc, words, bytes_of(alloc, "point A 1 2\n")?)?;
        assert_eq!(rt; ended, outcome, "{words}");
        assert_eq!(rt; sink.held(), written.as_bytes(), "{words}");
    }
    Ok(())
}

/// A word that ends in a blank, and the empty word, are among them.
const OTHERS: &str = "\

Run
run 
run,run
run,--workers
run,--workers,
run,--workers,0
run,--workers,17
run,--workers,02
run,--workers,+2
run,--workers,4294967298
run,--worker,2
run,--workers,2,2
--workers,2,run
check,check
check,--workers,0
check,7
check,7,--workers,1
gen
gen,
gen,-1
gen,+1
gen,01
gen,1a
gen,4294967296
gen,18446744073709551623
gen,--workers,1,7
gen,7,--workers,0
gen,7,--workers,1,1
batch,2
batch,--workers,0
batch,--workers,17
Batch
";

#[test]
fn knows_the_forms(rt: HostRuntime) -> Result<(), AllocError> {
    let scripts = "run\nrun,--workers,1\nrun,--workers,9\nrun,--workers,16\n";
    assert_forms(&rt, rt.alloc(), scripts, Outcome::Done, "ok\n")?;
    let checks = "check\ncheck,--workers,1\ncheck,--workers,16\n";
    assert_forms(&rt, rt.alloc(), checks, Outcome::SomeRefused, "invalid 1\n")?;
    let batches = "batch\nbatch,--workers,1\nbatch,--workers,16\n";
    assert_forms(&rt, rt.alloc(), batches, Outcome::Done, "job 1\nok\n")?;
    assert_forms(&rt, rt.alloc(), OTHERS, Outcome::Usage, "")
}

/// Where the words are none that it knows, the program reads nothing.
#[test]
fn reads_nothing_without_words(rt: HostRuntime) -> Result<(), AllocError> {
    let mut source = SureSource::new(bytes_of(rt.alloc(), "screen\npoint A 1 2\n")?);
    let mut sink = SureSink::new(rt.alloc());
    let none = Vec::new(rt.alloc());
    let first = run_with_views(&rt, rt.alloc(), &none, &mut source, &mut sink)?;
    assert_eq!(rt; first, Outcome::Usage);
    let words = words_of(rt.alloc(), "run")?;
    let second = run_with_views(&rt, rt.alloc(), &words, &mut source, &mut sink)?;
    assert_eq!(rt; second, Outcome::Done);
    assert_eq!(rt; sink.held(), b"ok\n".as_slice());
    Ok(())
}

/// The words, and how their line begins: an independent program counted the answers. The two
/// counts add up to the lines without `screen` and `ledger`.
const SEEDS: &str = "\
gen,0|gen 0 lines 1019 ok 904 refused 113 proved\x20
gen,7|gen 7 lines 1019 ok 899 refused 118 proved\x20
gen,7,--workers,1|gen 7 lines 1019 ok 899 refused 118 proved\x20
gen,7,--workers,16|gen 7 lines 1019 ok 899 refused 118 proved\x20
gen,4294967295|gen 4294967295 lines 1019 ok 911 refused 106 proved\x20
";

#[test]
fn counts_the_answers_to_a_seed(rt: HostRuntime) -> Result<(), AllocError> {
    for line in SEEDS.lines() {
        let (words, front) = line.split_once('|').unwrap_or((line, ""));
        let (ended, sink) = run_over(&rt, rt.alloc(), words, Vec::new(rt.alloc()))?;
        assert_eq!(rt; ended, Outcome::Done, "{words}");
        assert!(rt; sink.held().starts_with(front.as_bytes()), "{words}");
    }
    Ok(())
}
