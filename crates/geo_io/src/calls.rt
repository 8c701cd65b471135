//! The calls of an object in memory, some of which fail.
ghost use Rattle.std.specs.Prelude.{◌≡◌, ◌+◌, ◌==◌, ◌≤◌, IsTrue};
ghost use Rattle.std.specs.List.{list_any};
ghost use Rattle.geo_io.specs.Faults.{Rose};
ghost use Rattle.geo_io.specs.Memory.{first_calls, next_fails, after_next};

use std::marker::Model;

/// The numbers of the calls that fail, the most bytes that a call moves, and the counts so far.
#[derive(Drop)]
pub(super) struct Calls {
    failing: Vec<u64>,
    most: usize,
    made: u64,
    faults: u64,
}

impl Model for Calls {
    ghost use Rattle.std.specs.Prelude.{◌≤◌};
    ghost use Rattle.geo_io.specs.Memory.{Calls};

    ghost Value = { Calls };

    ghost view = { λ s. record {
      failing = s.failing.items;
      most = s.most;
      made = s.made;
      faults = s.faults;
    } };

    ghost invariant = { λ s. 1 ≤ s.most };
}

/// Tells whether the number after `made` stands in the list. After 2^64 − 1 none does.
fn has_after(numbers: &[u64], made: u64) -> bool
    ensures { result ≡ list_any (λ number. number == made + 1) numbers.now }
{
    let next = u128::from(made) + 1;
    numbers.iter().any(|number| u128::from(*number) == next)
}

impl Calls {
    pub(super) fn new(failing: Vec<u64>, most: usize) -> Calls
        requires { 1 ≤ most }
        ensures { result ≡ first_calls failing.items most }
    {
        Calls {
            failing,
            most,
            made: 0,
            faults: 0,
        }
    }

    /// Counts one more call, and tells whether it fails.
    pub(super) fn next_fails(&mut self) -> bool
        ensures fails { result ≡ next_fails self.old }
        ensures after { self.new ≡ after_next self.old }
        ensures counts { self.old.faults ≤ self.new.faults }
        ensures rose { IsTrue result → Rose self.old.faults self.new.faults }
    {
        let fails = has_after(&self.failing, self.made);
        self.made = self.made.saturating_add(1);
        if fails {
            self.faults = self.faults.saturating_add(1);
        }
        fails
    }

    pub(super) fn most(&self) -> usize
        ensures value { result ≡ self.now.most }
        ensures some { 1 ≤ result }
    {
        self.most
    }

    pub(super) fn faults(&self) -> u64
        ensures { result ≡ self.now.faults }
    {
        self.faults
    }
}
