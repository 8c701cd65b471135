//! What a search over a grid is told of what it settles.

use geo_degree::{Axis, Block};
use geo_sketch::NoMemory;
use geo_triple::{Steps, Triple};
use std::alloc::Global;
use std::sync::ledger::Ledger;

/// Room for what is computed on the way to the parts, kept from one point of a grid to the
/// next. What stands where is the form's own matter.
#[derive(Drop)]
pub struct Scratch {
    pub triples: Vec<Triple>,
    pub numbers: Vec<i128>,
}

/// Something that asks whether its parts are 0: a statement about a sketch, or whatever else
/// has parts that are polynomials in some axes. All that a search uses of it is said here.
///
/// A work is a `Scratch` of this form. A fresh one stands for no values; `refresh` makes it
/// stand for some, and `failing` tells of the parts there.
pub trait Form {
    ghost use Rattle.std.specs.Prelude.{◌≡◌, ◌≤◌, ◌+◌, ◌^◌, ◌⊎◌, ◌↔◌, ℕ, ℤ, List, length, map, All, IfOk, false, unsigned_abs};
    ghost use Rattle.geo_height.specs.Capped.{within_limit};
    ghost use Rattle.geo_triple.specs.declared.limits.TheConstants.{STATEMENT_LIMIT};
    ghost use Rattle.geo_degree.specs.Questions.{Question, IsForm, IsZeroAt};
    ghost use Rattle.geo_grid.specs.Values.{AgreeBefore};
    ghost use Rattle.geo_grid.specs.declared.search.form.Scratch.{Scratch};

    /// What it asks: its axes and blocks, and its parts, their coefficients and their height by
    /// these.
    ghost question: { Self → Question };

    /// The works that stand for nothing yet.
    ghost is_fresh: { Self → Scratch → Type 0 };

    /// The values of the axes that a work stands for.
    ghost stands_for: { Self → Scratch → List ℤ → Type 0 };

    /// How many elements of its construction depend on an axis at or after a place.
    ghost moved_count: { Self → ℕ → ℕ };

    /// How many parts it has.
    fn parts(&self) -> usize
        ensures { (xs : List ℤ) → length xs ≡ length (question self.now).axes → length ((question self.now).parts_at xs) ≡ result };

    /// Its axes, each a parameter of a sketch with the degree in it.
    fn axes(&self) -> &[Axis]
        ensures { result.now ≡ (question self.now).axes };

    /// Its blocks: which axes make a triangle and which stand by themselves. Together they cover
    /// its axes, each with its degree. It takes no memory.
    fn blocks(&self) -> &[Block]
        ensures { result.now ≡ (question self.now).blocks };

    /// Its height at a magnitude for each axis; None where it is greater than 2^126.
    fn height(&self, magnitudes: &[u64]) -> Option<u128>
        requires count { length magnitudes.now ≡ length (question self.now).axes }
        requires low { All (λ m. m ≤ 2 ^ 31) magnitudes.now }
        ensures { result ≡ within_limit ((question self.now).height_at magnitudes.now) };

    /// A fresh work.
    fn scratch(&self, alloc: Global) -> Result<Scratch, NoMemory>
        ensures { IfOk result (λ work. is_fresh self.now work) };

    /// How many elements of its construction depend on an axis at or after the place `first`.
    fn nodes_from(&self, first: usize) -> u64
        ensures { result ≡ moved_count self.now first };

    /// Makes a work stand for a value of each axis. Before the place `first` these are the
    /// values for which the work stood, so that what depends on earlier axes alone need not
    /// be evaluated again; a fresh work is evaluated whole. It takes no memory.
    fn refresh<L: Ledger>(
        &self,
        values: &[i64],
        first: usize,
        work: &mut Scratch,
        steps: &mut Steps<L>,
    )
        requires count { length values.now ≡ length (question self.now).axes }
        requires low { (question self.now).height_at (map unsigned_abs values.now) ≤ STATEMENT_LIMIT }
        requires work { is_fresh self.now work.old ⊎ ((xs : List ℤ) × stands_for self.now work.old xs × AgreeBefore first xs values.now) }
        ensures stands { stands_for self.now work.new values.now }
        ensures ticks { ¬ is_fresh self.now work.old → steps.new ≤ steps.old + moved_count self.now first };

    /// Whether a part is not 0 at the values that the work stands for.
    fn failing(&self, work: &Scratch) -> bool
        requires { (xs : List ℤ) × stands_for self.now work.now xs }
        ensures { (xs : List ℤ) → stands_for self.now work.now xs → (result ≡ false) ↔ IsZeroAt (question self.now) xs };

    /// What it asks can be answered by a grid.
    ghost is_form: { (f : Self) → IsForm (question f) };

    /// No fresh work stands for any values.
    ghost not_both: { (f : Self) (work : Scratch) (xs : List ℤ) → is_fresh f work → stands_for f work xs → ⊥ };
}
