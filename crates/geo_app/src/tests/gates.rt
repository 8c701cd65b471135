//! Gates that see who searches, and how often.

use super::figures::figure;
use super::tables::{assert_case, bytes_of, case_of, run_gated};
use crate::program::Outcome;
use geo_settle::Gate;
use std::alloc::{AllocError, Global};
use std::process::Abort;
use std::sync::atomic::{AtomicBool, AtomicU64, Ordering};
use std::thread::{self, Threads};

const FALSE_CLAIM: &str =
    "false collinear A X Y at A.x=0 A.y=1 B.x=1 B.y=0 C.x=0 C.y=-1 D.t=0 E.t=1 F.t=1\n";

/// Holds whoever claims first until another worker has claimed, for at most 2^30 turns.
#[derive(Drop)]
struct Held {
    /// Whether a worker has claimed.
    begun: AtomicBool,
    /// Whether worker 0 and worker 1 have claimed.
    zero: AtomicBool,
    one: AtomicBool,
    /// Whether the turns were spent.
    spent: AtomicBool,
}

impl Held {
    fn both_came(&self) -> bool {
        self.zero.load(Ordering::SeqCst) && self.one.load(Ordering::SeqCst)
    }

    fn hold(&self) {
        for _ in 0..1u32 << 30 {
            if self.both_came() {
                return;
            }
            thread::yield_now();
        }
        self.spent.store(true, Ordering::SeqCst);
    }
}

impl Gate for Held {
    fn passed(&self, worker: u64, _chunk: Option<u64>) {
        match worker {
            0 => self.zero.store(true, Ordering::SeqCst),
            1 => self.one.store(true, Ordering::SeqCst),
            _ => {}
        }
        if !self.begun.swap(true, Ordering::SeqCst) {
            self.hold();
        }
    }
}

/// Two workers share a search, and find the least failing index: number 1,467 of 10,800, in
/// the second of 11 chunks.
#[test]
fn two_workers_claim(rt: HostRuntime) -> Result<(), AllocError> {
    let gate = Held {
        begun: AtomicBool::new(false),
        zero: AtomicBool::new(false),
        one: AtomicBool::new(false),
        spent: AtomicBool::new(false),
    };
    let desargues = figure("desargues");
    let script = format!(in rt.alloc(); "{desargues}claim collinear X Y A\nledger\n")?;
    let input = script.into_bytes();
    let (ended, sink) = run_gated(&rt, rt.alloc(), "run,--workers,2", input, &gate)?;
    assert_eq!(rt; ended, Outcome::Done);
    assert!(rt; sink.held().ends_with(FALSE_CLAIM.as_bytes()));
    assert!(rt; gate.both_came());
    assert!(rt; !gate.spent.load(Ordering::SeqCst));
    Ok(())
}

/// Counts its calls by worker and chunk.
#[derive(Drop)]
struct Counted {
    /// Of each of 16 workers in turn: how often it claimed each of 16 chunks, those from the last of
    /// them on together, and how often no chunk was left for it.
    calls: Vec<AtomicU64>,
}

/// What is counted of a worker.
const COLUMNS: u64 = 17;

/// That no chunk was left.
const ENDED: u64 = 16;

impl Counted {
    fn new(alloc: Global) -> Result<Counted, AllocError> {
        let mut calls = Vec::new(alloc);
        for _ in 0..16 * COLUMNS {
            calls.push(AtomicU64::new(0))?;
        }
        Ok(Counted { calls })
    }

    fn at(&self, worker: u64, column: u64) -> Option<&AtomicU64> {
        let place = worker.min(15) * COLUMNS + column.min(ENDED);
        self.calls.get(place as usize)
    }

    fn count(&self, worker: u64, column: u64) -> u64 {
        self.at(worker, column)
            .map_or(0, |calls| calls.load(Ordering::SeqCst))
    }

    /// How often each chunk was claimed by whatever worker, as far as one was.
    fn chunks(&self, alloc: Global) -> Result<String, AllocError> {
        let mut all = String::new(alloc);
        for chunk in 0..ENDED {
            let mut claimed = 0u64;
            for worker in 0..16 {
                claimed = claimed.saturating_add(self.count(worker, chunk));
            }
            if claimed > 0 {
                let count = format!(in alloc; " {claimed}")?;
                all.push_str(&count)?;
            }
        }
        Ok(all)
    }
}

impl Gate for Counted {
    fn passed(&self, worker: u64, chunk: Option<u64>) {
        let column = chunk.map_or(ENDED, |chunk| chunk.min(15));
        if let Some(calls) = self.at(worker, column) {
            calls.fetch_add(1, Ordering::SeqCst);
        }
    }
}

/// Each case begins with a line `@ WORDS:SEARCHES:WORKERS:CHUNKS`: how many searches there are, by how
/// many workers each, and how often each chunk of 1,024 points is claimed. By hand: `same A X` has 90
/// points, Pappus' theorem 2,025, what is noticed of its figure at most 360, the premise of `lie` 800,
/// the relation 486, and three free points 27. A verdict on a statement is kept, and none on an
/// expression; the jobs of a batch search by themselves.
const SEARCHES: &str = "\
@ run:1:1: 1
& bend
ledger > proved same A X
@ run,--workers,2:1:2: 1
& bend
ledger > proved same A X
drag A 2 3
ledger > proved same A X
@ run,--workers,2:1:2: 1
point A 0 0
point B 1 0
point C 0 1
claim collinear A B C
ledger > false collinear A B C at A.x=0 A.y=0 B.x=0 B.y=1 C.x=1 C.y=0
drag A 2 3
ledger > false collinear A B C at A.x=0 A.y=0 B.x=0 B.y=1 C.x=1 C.y=0
certify collinear A B C > {\"claim\":[\"triple\",0,1,2],\"elements\":[[0,\"point\",\"free\"],[1,\"point\",\"free\"],[2,\"point\",\"free\"]],\"values\":[[0,0],[1,0],[2,0],[3,1],[4,1],[5,0]],\"verdict\":\"false\",\"version\":2}
@ run,--workers,16:1:16: 1
point A 0 0
point B 1 0
point C 0 1
certify collinear A B C > {\"claim\":[\"triple\",0,1,2],\"elements\":[[0,\"point\",\"free\"],[1,\"point\",\"free\"],[2,\"point\",\"free\"]],\"values\":[[0,0],[1,0],[2,0],[3,1],[4,1],[5,0]],\"verdict\":\"false\",\"version\":2}
claim collinear A B C
ledger > false collinear A B C at A.x=0 A.y=0 B.x=0 B.y=1 C.x=1 C.y=0
@ run,--workers,16:7:16: 7 1
fixpoint A 0 1 1
fixpoint B 2 1 1
& pappus from C on
ledger ~ proved collinear X Y Z
@ run,--workers,16:1:16: 1
point A 0 0
point B 1 2
join l A B
on P l 1
on Q l 2
on R l 3
infer lie P Q R l > inferred on R l
infer lie P Q R l > inferred on R l
@ run,--workers,16:2:16: 2
point A 0 0
point B 1 0
point C 0 1
point D 1 1
point E 2 3
zero [A,B,C] [A,D,E] - [A,B,D] [A,C,E] + [A,B,E] [A,C,D] > proved zero
zero [A,B,C] [A,D,E] - [A,B,D] [A,C,E] + [A,B,E] [A,C,D] > proved zero
@ batch,--workers,2:0:0:
# one job > job 1
& bend
ledger > proved same A X
";

/// Compares how often each chunk was claimed, and that each of so many workers ended each search.
fn assert_searches<R: Threads + Sync + Abort>(
    rt: &R,
    alloc: Global,
    gate: &Counted,
    about: &str,
) -> Result<(), AllocError> {
    let (searches, rest) = about.split_once(':').unwrap_or((about, ""));
    let (workers, chunks) = rest.split_once(':').unwrap_or((rest, ""));
    let searches: u64 = searches.parse().unwrap_or(u64::MAX);
    let workers: u64 = workers.parse().unwrap_or(u64::MAX);
    assert_eq!(rt; gate.chunks(alloc)?.as_str(), chunks, "{about}");
    for worker in 0..16 {
        let ended = if worker < workers { searches } else { 0 };
        assert_eq!(rt;
            gate.count(worker, ENDED),
            ended,
            "worker {worker} of {about}"
        );
    }
    Ok(())
}

/// The workers of the words search, each statement once, at the gate that is handed in.
#[test]
fn counts_the_searches(rt: HostRuntime) -> Result<(), AllocError> {
    let alloc = rt.alloc();
    for text in SEARCHES.split("@ ").skip(1) {
        let (head, lines) = text.split_once('\n').unwrap_or((text, ""));
        let (words, about) = head.split_once(':').unwrap_or((head, ""));
        let gate = Counted::new(alloc)?;
        let case = case_of(alloc, lines)?;
        let input = bytes_of(alloc, &case.input)?;
        let (ended, sink) = run_gated(&rt, alloc, words, input, &gate)?;
        assert_case(&rt, head, &case, ended, sink.held());
        assert_searches(&rt, alloc, &gate, about)?;
    }
    Ok(())
}

/// Sixteen workers count the same answers to a generated script as one: each of them ends each search
/// that one ends, and the first chunk of each is claimed once.
#[test]
fn generated_scripts_are_searched_by_all_workers(rt: HostRuntime) -> Result<(), AllocError> {
    let alloc = rt.alloc();
    let alone = Counted::new(alloc)?;
    let shared = Counted::new(alloc)?;
    let (_, first) = run_gated(&rt, alloc, "gen,7", Vec::new(alloc), &alone)?;
    let words = "gen,7,--workers,16";
    let (_, second) = run_gated(&rt, alloc, words, Vec::new(alloc), &shared)?;
    assert_eq!(rt; first.held(), second.held());
    assert!(rt; first.held().starts_with(b"gen 7 lines 1019 ok "));
    let searches = alone.count(0, ENDED);
    assert!(rt; searches > 0);
    for worker in 0..16 {
        assert_eq!(rt; shared.count(worker, ENDED), searches, "worker {worker}");
    }
    assert_eq!(rt; alone.count(1, ENDED), 0);
    Ok(())
}
