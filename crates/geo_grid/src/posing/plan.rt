//! What some elements of a sketch are at many values of some axes, prepared so that it is
//! found without memory and without any look-up.

ghost use Rattle.std.specs.Prelude.{◌≡◌, ◌≤◌, ◌<◌, ◌+◌, ◌-◌, ◌⊎◌, ℕ, ℤ, List, ◌∷◌, [], length, map, true, false, All, Contains, IfOk, OnOk, unsigned_abs};
ghost use Rattle.geo_triple.specs.declared.limits.TheConstants.{STATEMENT_LIMIT, SHORT_LIMIT};
ghost use Rattle.geo_degree.specs.Grids.{axis_magnitude};
ghost use Rattle.geo_sketch.specs.Sketches.{IsDrawn};
ghost use Rattle.geo_sketch.specs.declared.limits.TheConstants.{PARAMETER_LIMIT};
ghost use Rattle.geo_sketch.specs.Lookups.{IsLive};
ghost use Rattle.geo_grid.specs.Codes.{place_in};
ghost use Rattle.geo_grid.specs.Nodes.{triple_there};
ghost use Rattle.geo_grid.specs.Orders.{order_of, start_of};
ghost use Rattle.geo_grid.specs.Plans.{moved_count};
ghost use Rattle.geo_grid.specs.Values.{AgreeBefore};
ghost use Rattle.geo_grid.specs.Works.{AreLow, HasPlace, IsFresh, IsOnGridFrom, StandsFor, triples_of};

use crate::posing::encoding::encode;
use crate::posing::magnitudes::are_on_grid;
use crate::posing::node::{Node, evaluate_node};
use crate::posing::order::find_order;
use crate::posing::shortness::are_short_elements;
use crate::search::Scratch;
use crate::spacing::spaced;
use geo_degree::Axis;
use geo_sketch::{Element, NoMemory, Sketch, place_of};
use geo_triple::{Narrow, Steps, Triple, Wide, Width};
use std::alloc::Global;
use std::marker::Model;
use std::sync::ledger::Ledger;

/// The marks of a work: it stands for nothing; it stands for some values; and these are within
/// the magnitudes on the grid of the axes, so that its numbers fit 64 bits.
const FRESH: i128 = 0;

const WIDE: i128 = 1;

const SHORT: i128 = 2;

/// A plan finds the triples of some named elements of a sketch, which is borrowed, at any
/// values of some axes; every parameter that is no axis is 0. What asks something of these
/// elements, as a statement does, is a condition over a plan: it looks up the places of its
/// elements once, and reads their triples there in each work. Contracts see the sketch, the
/// named elements and the axes. A work is a `Scratch` of this plan. All memory is taken when
/// it is made, and by `scratch`.
#[derive(Drop)]
pub struct Plan<'a> {
    sketch: &'a Sketch,
    named: Vec<u32>,
    axes: Vec<Axis>,
    /// The elements that are needed, in an order of construction: by the last axis on
    /// which they depend, and then by number.
    order: Vec<Element>,
    /// How each of them is evaluated.
    nodes: Vec<Node>,
    /// For each place of an axis, and for one past the last, where the elements begin that
    /// depend on this axis or a later one.
    starts: Vec<usize>,
    /// Whether 64 bits suffice for values within the magnitudes of the axes.
    is_short: bool,
}

impl<'a> Model for Plan<'a> {
    ghost use Rattle.geo_grid.specs.Codes.{IsPlan};
    ghost use Rattle.geo_grid.specs.Plans.{Planned};

    ghost Value = { Planned };

    ghost view = { λ p. record { drawing = p.sketch.now; named = p.named.items; axes = p.axes.items } };

    ghost invariant = { λ p. IsPlan (record { drawing = p.sketch.now; named = p.named.items; axes = p.axes.items }) p.order.items p.nodes.items p.starts.items p.is_short };
}

impl<'a> Plan<'a> {
    /// The plan for some live elements, by their numbers, and some axes. Values that are within
    /// the magnitudes on the grid of these axes are computed in 64 bits where these suffice.
    pub fn of(
        alloc: Global,
        sketch: &'a Sketch,
        named: Vec<u32>,
        axes: Vec<Axis>,
    ) -> Result<Plan<'a>, NoMemory>
        requires live { All (IsLive sketch.now.elements) named.items }
        requires few { length axes.items ≤ PARAMETER_LIMIT }
        ensures { IfOk result (λ plan. plan ≡ record { drawing = sketch.now; named = named.items; axes = axes.items }) }
    {
        let is_short = are_short_elements(sketch, &named, &axes);
        Plan::with_lane(alloc, sketch, named, axes, is_short)
    }

    /// The same, where `is_short` says that 64 bits suffice within these magnitudes.
    pub(crate) fn with_lane(
        alloc: Global,
        sketch: &'a Sketch,
        named: Vec<u32>,
        axes: Vec<Axis>,
        is_short: bool,
    ) -> Result<Plan<'a>, NoMemory>
        requires live { All (IsLive sketch.now.elements) named.items }
        requires short { is_short ≡ true → AreLow SHORT_LIMIT (record { drawing = sketch.now; named = named.items; axes = axes.items }) (map axis_magnitude axes.items) }
        ensures { IfOk result (λ plan. plan ≡ record { drawing = sketch.now; named = named.items; axes = axes.items }) }
    {
        let order = find_order(alloc, sketch, &named, &axes)?;
        let nodes = encode(alloc, &axes, &order.elements)?;
        Ok(Plan {
            sketch,
            named,
            axes,
            order: order.elements,
            nodes,
            starts: order.starts,
            is_short,
        })
    }

    /// The sketch.
    pub fn sketch(&self) -> &Sketch
        ensures { result.now ≡ self.now.drawing }
    {
        self.sketch
    }

    /// The axes.
    pub fn axes(&self) -> &[Axis]
        ensures axes { result.now ≡ self.now.axes }
        ensures drawn { IsDrawn self.now.drawing }
        ensures live { All (IsLive self.now.drawing.elements) self.now.named }
    {
        &self.axes
    }

    /// The place of a named element among the triples of each work.
    pub fn place(&self, n: u32) -> usize
        requires { Contains self.now.named n }
        ensures { HasPlace self.now n result }
    {
        self.find(n)
    }

    /// The same, which is its place among the elements that are needed, in their order.
    pub(crate) fn find(&self, n: u32) -> usize
        ensures place { result ≡ place_in self.now n }
        ensures triple { Contains self.now.named n → HasPlace self.now n result }
    {
        place_of(&self.order, n)
    }

    /// Where the elements begin that depend on the axis at a place or a later one.
    fn start(&self, first: usize) -> usize
        ensures start { result ≡ start_of self.now.drawing.elements self.now.named self.now.axes first }
        ensures drawn { IsDrawn self.now.drawing }
    {
        match self.starts.get(first) {
            Some(start) => *start,
            None => self.nodes.len(),
        }
    }

    /// How many of the elements that are needed depend on the axis at a place or a later
    /// one.
    pub fn nodes_from(&self, first: usize) -> u64
        ensures { result ≡ moved_count self.now first }
    {
        (self.nodes.len() - self.start(first)) as u64
    }

    /// A fresh work, which stands for nothing yet.
    pub fn scratch(&self, alloc: Global) -> Result<Scratch, NoMemory>
        ensures { IfOk result (IsFresh self.now) }
    {
        let triples = spaced(alloc, Triple { a: 0, b: 0, c: 0 }, self.nodes.len())?;
        let numbers = spaced(alloc, FRESH, 1)?;
        Ok(Scratch { triples, numbers })
    }

    /// Makes a work stand for a value of each axis. Before the place `first` these are the
    /// values for which the work stood: elements are evaluated from the first one on that
    /// depends on the axis at that place or a later one, and all of them where the work is
    /// fresh. It takes no memory.
    pub fn refresh<L: Ledger>(
        &self,
        values: &[i64],
        first: usize,
        work: &mut Scratch,
        steps: &mut Steps<L>,
    )
        requires count { length values.now ≡ length self.now.axes }
        requires low { AreLow STATEMENT_LIMIT self.now (map unsigned_abs values.now) }
        requires work { IsFresh self.now work.old ⊎ ((xs : List ℤ) × StandsFor self.now work.old xs × AgreeBefore first xs values.now) }
        ensures stands { StandsFor self.now work.new values.now }
        ensures ticks { ¬ IsFresh self.now work.old → steps.new ≡ steps.old + moved_count self.now first }
    {
        let mark = work.numbers[0];
        let (from, start) = self.begin(mark == FRESH, first);
        if self.takes_lane(mark == WIDE, values, from) {
            put_mark(&mut work.numbers, SHORT);
            self.evaluate::<Narrow, L>(values, start, &mut work.triples, steps);
        } else {
            put_mark(&mut work.numbers, WIDE);
            self.evaluate::<Wide, L>(values, start, &mut work.triples, steps);
        }
    }

    /// From which axis on values are new, and from which element on a work is evaluated.
    fn begin(&self, is_fresh: bool, first: usize) -> (usize, usize)
        ensures fresh { is_fresh ≡ true → result ≡ (0, 0) }
        ensures used { is_fresh ≡ false → result ≡ (first, start_of self.now.drawing.elements self.now.named self.now.axes first) }
        ensures drawn { IsDrawn self.now.drawing }
    {
        let start = self.start(first);
        if is_fresh { (0, 0) } else { (first, start) }
    }

    /// Whether 64 bits suffice: the values are on the grid from an axis on, and a work of
    /// which the others are is gone on from.
    fn takes_lane(&self, was_wide: bool, values: &[i64], from: usize) -> bool
        requires { length values.now ≡ length self.now.axes }
        ensures low { result ≡ true → AreLow SHORT_LIMIT self.now (map axis_magnitude self.now.axes) }
        ensures on_grid { result ≡ true → IsOnGridFrom from self.now.axes values.now }
        ensures narrow { result ≡ true → was_wide ≡ false }
    {
        self.is_short && !was_wide && are_on_grid(&self.axes, values, from)
    }

    /// Whether the work says that its values are within the magnitudes on the grid of the axes.
    pub fn is_on_grid(&self, work: &Scratch) -> bool
        requires { (xs : List ℤ) × StandsFor self.now work.now xs }
        ensures { result ≡ true → (xs : List ℤ) → StandsFor self.now work.now xs → IsOnGridFrom 0 self.now.axes xs }
    {
        work.numbers[0] == SHORT
    }

    /// Evaluates the elements from a place on, where those before it stand.
    fn evaluate<W: Width, L: Ledger>(
        &self,
        values: &[i64],
        start: usize,
        triples: &mut [Triple],
        steps: &mut Steps<L>,
    )
        requires count { length values.now ≡ length self.now.axes }
        requires low { AreLow W.limit self.now (map unsigned_abs values.now) }
        requires room { length triples.old ≡ length (order_of self.now) }
        requires within { start ≤ length (order_of self.now) }
        requires before { (k : ℕ) → k < start → triple_there triples.old k ≡ triple_there (triples_of self.now values.now) k }
        ensures triples { triples.new ≡ triples_of self.now values.now }
        ensures ticks { steps.new ≡ steps.old + (length (order_of self.now) - start) }
    {
        for i in start..self.nodes.len() {
            let triple = evaluate_node::<W, L>(&self.nodes[i], triples, values, steps);
            triples[i] = triple;
        }
    }
}

/// Writes the mark of a work where it has another one.
fn put_mark(numbers: &mut [i128], mark: i128)
    requires { length numbers.old ≡ 1 }
    ensures { numbers.new ≡ mark ∷ [] }
{
    if numbers[0] != mark {
        numbers[0] = mark;
    }
}
