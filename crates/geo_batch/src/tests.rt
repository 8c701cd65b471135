use crate::{Job, NoMemory, run_all};
use std::alloc::{AllocError, Global};
use std::sync::Arc;
use std::sync::atomic::{AtomicBool, Ordering};
use std::thread::Threads;

/// A number that is doubled.
#[derive(Drop)]
struct Doubling {
    number: u64,
}

impl Job for Doubling {
    ghost use Rattle.std.specs.Prelude.{◌*◌, ◌%◌, ◌^◌};

    ghost done = { λ job. record { number = (job.number * 2) % 2 ^ 64 } };

    fn run<R: Threads + Sync>(&mut self, _rt: &R) -> Result<(), NoMemory> {
        self.number = self.number.wrapping_mul(2);
        Ok(())
    }
}

/// Sixteen jobs come back in their order, each once it has run.
#[test]
fn jobs_in_their_order(rt: HostRuntime) -> Result<(), NoMemory> {
    let numbers = [0, 1, 2, 3, 4, 5, 6, 7, 8, 9, 10, 11, 12, 13, 14, 15];
    let Ok(jobs) = Vec::from_array(rt.alloc(), numbers.map(|number| Doubling { number })) else {
        return Err(NoMemory);
    };
    let done = run_all(&rt, rt.alloc(), jobs)?;
    assert_eq!(rt; done.len(), 16);
    for (place, job) in done.iter().enumerate() {
        assert_eq!(rt; job.number, 2 * place as u64, "place {place}");
    }
    Ok(())
}

/// A job that raises its flag, and waits until the other one's is up: 2^30 turns at most.
#[derive(Drop)]
struct Meeting {
    mine: Arc<AtomicBool, Global>,
    other: Arc<AtomicBool, Global>,
}

impl Job for Meeting {
    ghost done = { λ job. job };

    fn run<R: Threads + Sync>(&mut self, _rt: &R) -> Result<(), NoMemory> {
        self.mine.store(true, Ordering::SeqCst);
        for _ in 0..1u64 << 30 {
            if self.other.load(Ordering::SeqCst) {
                return Ok(());
            }
        }
        Err(NoMemory)
    }
}

/// Two jobs run at one time: neither ends before the other has begun.
#[test]
fn jobs_that_meet(rt: HostRuntime) -> Result<(), AllocError> {
    let first = Arc::new(rt.alloc(), AtomicBool::new(false))?;
    let second = Arc::new(rt.alloc(), AtomicBool::new(false))?;
    let jobs = [
        Meeting {
            mine: first.clone()?,
            other: second.clone()?,
        },
        Meeting {
            mine: second,
            other: first,
        },
    ];
    let Ok(done) = run_all(&rt, rt.alloc(), Vec::from_array(rt.alloc(), jobs)?) else {
        return Err(AllocError);
    };
    assert_eq!(rt; done.len(), 2);
    Ok(())
}
