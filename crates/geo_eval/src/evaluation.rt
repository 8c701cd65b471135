//! The heights and the triple of one element, from those of earlier ones.

ghost use Rattle.std.specs.Prelude.{◌≡◌, ◌+◌, max, unsigned_abs, pos, All, Some};
ghost use Rattle.geo_triple.specs.Sums.{of_sizes, cross_sums};
ghost use Rattle.geo_triple.specs.Triple.{blend_of, cross_of, cut_of};
ghost use Rattle.geo_sketch.specs.Assignments.{first_value, second_value};
ghost use Rattle.geo_sketch.specs.Constructions.{AtNamed};
ghost use Rattle.geo_sketch.specs.Heights.{blend_heights, cut_heights};
ghost use Rattle.geo_sketch.specs.Lookups.{numbered};
ghost use Rattle.geo_sketch.specs.Sketches.{IsDrawn};
ghost use Rattle.geo_sketch.specs.Triples.{of_coordinates};
ghost use Rattle.geo_eval.specs.Reaches.{IsSized, IsSizedSlot, current_reach, from_both, from_one, here_by_reach, kept, kept_of, reach_at, reach_by, slot_at};

use crate::here::Here;
use geo_height::Heights;
use geo_sketch::{Def, Element, HEIGHT_LIMIT, Setting, Sketch, of_values};
use geo_triple::{Steps, Triple, blend, cross, cut, primitive};
use std::sync::ledger::Ledger;

/// What is kept of an element, at the current values.
#[derive(Clone, Copy)]
pub(crate) enum Reach {
    /// One of its heights is greater than 2^126.
    Past,
    /// Its heights and its triple.
    Within(Heights, Triple),
}

/// Evaluates an element of the sketch, where what it names is kept: the only way to
/// an evaluation, which ticks once. The list is indexed by numbers.
pub(crate) fn evaluate_element<L: Ledger>(
    sketch: &Sketch,
    element: &Element,
    slots: &[Option<Reach>],
    steps: &mut Steps<L>,
) -> Reach
    requires drawn { IsDrawn sketch.now }
    requires live { numbered sketch.now.elements element.now.number ≡ Some element.now }
    requires sized { All IsSizedSlot slots.now }
    requires known { AtNamed element.now.def (λ k. slot_at slots.now k ≡ kept_of sketch.now k) }
    ensures value { result ≡ current_reach sketch.now element.now.number }
    ensures sized { IsSized result }
    ensures tick { steps.new ≡ steps.old + 1 }
{
    steps.tick();
    reach_of(slots, &element.def, sketch.setting(element.number))
}

/// What is kept of an element with this definition and setting.
fn reach_of(slots: &[Option<Reach>], def: &Def, setting: Setting) -> Reach
    requires { All IsSizedSlot slots.now }
    ensures { result ≡ reach_by def.now setting (reach_at slots.now) }
{
    match def {
        Def::Free => free(first(setting), second(setting)),
        Def::Fixed(a, b, c) => fixed(*a, *b, *c),
        Def::Cut(k) => cut_reach(look_up(slots, *k), first(setting)),
        Def::Blend(k, m) => blend_reach(look_up(slots, *k), look_up(slots, *m), first(setting)),
        Def::Cross(k, m) => cross_reach(look_up(slots, *k), look_up(slots, *m)),
    }
}

fn look_up(slots: &[Option<Reach>], number: u32) -> Reach
    requires { All IsSizedSlot slots.now }
    ensures reach { result ≡ reach_at slots.now number }
    ensures sized { IsSized result }
{
    match slots.get(number as usize) {
        Some(Some(reach)) => *reach,
        _ => Reach::Past,
    }
}

fn first(setting: Setting) -> i64
    ensures { result ≡ first_value setting }
{
    match setting {
        Setting::None => 0,
        Setting::One(t) => t,
        Setting::Two(x, _) => x,
    }
}

fn second(setting: Setting) -> i64
    ensures { result ≡ second_value setting }
{
    match setting {
        Setting::None | Setting::One(_) => 0,
        Setting::Two(_, y) => y,
    }
}

fn free(x: i64, y: i64) -> Reach
    ensures { result ≡ kept (of_sizes (max 1 (unsigned_abs x)) (max 1 (unsigned_abs y)) 1) (of_coordinates x y (pos 1)) }
{
    let heights = Heights::of_free(x.unsigned_abs(), y.unsigned_abs());
    Reach::Within(heights, of_values(x, y, 1))
}

fn fixed(a: i64, b: i64, c: i64) -> Reach
    ensures { result ≡ kept (of_sizes (max 1 (unsigned_abs a)) (max 1 (unsigned_abs b)) (max 1 (unsigned_abs c))) (of_coordinates a b c) }
{
    Reach::Within(Heights::of_fixed(a, b, c), of_values(a, b, c))
}

fn cut_reach(k: Reach, by: i64) -> Reach
    requires { IsSized k }
    ensures { result ≡ from_one k (λ g. cut_heights g (unsigned_abs by)) (λ s. cut_of s by) }
{
    match k {
        Reach::Past => Reach::Past,
        Reach::Within(g, s) => match g.cut(by.unsigned_abs()) {
            Some(heights) => Reach::Within(heights, cut(&s, by)),
            None => Reach::Past,
        },
    }
}

fn blend_reach(k: Reach, m: Reach, by: i64) -> Reach
    requires first { IsSized k }
    requires second { IsSized m }
    ensures { result ≡ from_both k m (λ g h. blend_heights g h (unsigned_abs by)) (λ s t. blend_of s t by) }
{
    match (k, m) {
        (Reach::Within(g, s), Reach::Within(h, t)) => match g.blend(&h, by.unsigned_abs()) {
            Some(heights) => Reach::Within(heights, blend(&s, &t, by)),
            None => Reach::Past,
        },
        _ => Reach::Past,
    }
}

fn cross_reach(k: Reach, m: Reach) -> Reach
    requires first { IsSized k }
    requires second { IsSized m }
    ensures { result ≡ from_both k m cross_sums cross_of }
{
    match (k, m) {
        (Reach::Within(g, s), Reach::Within(h, t)) => match g.cross(&h) {
            Some(heights) => Reach::Within(heights, cross(&s, &t)),
            None => Reach::Past,
        },
        _ => Reach::Past,
    }
}

/// Where an element is, by what is kept of it.
pub(crate) fn here_of_reach(reach: &Reach) -> Here
    requires { IsSized reach.now }
    ensures { result ≡ here_by_reach reach.now }
{
    let Reach::Within(heights, triple) = reach else {
        return Here::Far;
    };
    if heights.largest() > HEIGHT_LIMIT {
        return Here::Far;
    }
    match primitive(triple) {
        Some(found) => Here::At(found),
        None => Here::NullHere,
    }
}
