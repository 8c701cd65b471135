//! What follows each change of a sketch.

ghost use Rattle.std.specs.Prelude.{◌≡◌, ◌<◌, OnOk};
ghost use Rattle.geo_eval.specs.Scenes.{IsSceneOf, Leads, before_of};
ghost use Rattle.geo_guess.specs.Guesses.{IsGuessesOf};
ghost use Rattle.geo_ledger.specs.Changes.{leaving};
ghost use Rattle.geo_ledger.specs.Ledgers.{AreKept};
ghost use Rattle.geo_sketch.specs.Sketches.{blank};
ghost use Rattle.geo_session.specs.Together.{AreFollowersOf};

use geo_eval::Scene;
use geo_guess::{Guesses, changes_by_one_element, dual_keeps_conjectures};
use geo_ledger::{Ledger, kept_through_changes};
use geo_sketch::{Delta, NoMemory, Sketch};
use geo_triple::Steps;
use std::alloc::Global;
use std::marker::Brand;
use std::sync::ledger::{Blank, Ledger as Ledge};
use std::thread::Threads;

/// The scene, the conjectures, and the verdicts that are kept.
#[derive(Drop)]
pub struct Followers {
    pub(crate) scene: Scene,
    pub(crate) guesses: Guesses,
    pub(crate) ledger: Ledger,
}

impl Followers {
    /// Those of the empty sketch.
    pub(crate) fn new(alloc: Global) -> Followers
        ensures { AreFollowersOf blank result }
    {
        Followers {
            scene: Scene::new(alloc),
            guesses: Guesses::new(alloc),
            ledger: Ledger::new(alloc),
        }
    }

    /// Follows a change of the sketch; `forward` is false where it was taken back.
    pub(crate) fn follow<R: Threads + Sync>(
        &mut self,
        rt: &R,
        alloc: Global,
        sketch: &Sketch,
        delta: &Delta,
        forward: bool,
    ) -> Result<(), NoMemory>
        requires leads { Leads sketch.now delta.now forward }
        requires before { AreFollowersOf (before_of sketch.now delta.now forward) self.old }
        ensures { OnOk result (AreFollowersOf sketch.now self.new) }
    {
        let_go(&mut self.ledger, sketch, delta, forward);
        notice(&mut self.guesses, rt, alloc, sketch, delta, forward)?;
        show::<Brand>(&mut self.scene, sketch, delta, forward, Blank::new(1))
    }
}

/// Lets go of the verdicts that name an element that left.
fn let_go(ledger: &mut Ledger, sketch: &Sketch, delta: &Delta, forward: bool)
    requires leads { Leads sketch.now delta.now forward }
    requires kept { AreKept (before_of sketch.now delta.now forward) ledger.old }
    ensures { AreKept sketch.now ledger.new }
{
    kept_through_changes();
    let _drawn = sketch.elements();
    if let Some(number) = leaving(delta, forward) {
        ledger.forget(number);
    }
}

/// Tells the guesses of the element that came or left.
fn notice<R: Threads + Sync>(
    guesses: &mut Guesses,
    rt: &R,
    alloc: Global,
    sketch: &Sketch,
    delta: &Delta,
    forward: bool,
) -> Result<(), NoMemory>
    requires leads { Leads sketch.now delta.now forward }
    requires before { IsGuessesOf guesses.old (before_of sketch.now delta.now forward) }
    ensures { OnOk result (IsGuessesOf guesses.new sketch.now) }
{
    changes_by_one_element();
    dual_keeps_conjectures();
    let _drawn = sketch.elements();
    if let Some(number) = leaving(delta, forward) {
        guesses.dropped(number);
        return Ok(());
    }
    match leaving(delta, !forward) {
        Some(number) => guesses.added(rt, alloc, sketch, number),
        None => Ok(()),
    }
}

/// The number of the element that leaves the sketch by a change. It comes where the change goes
/// the other way.
fn leaving(delta: &Delta, forward: bool) -> Option<u32>
    ensures { result ≡ leaving delta.now forward }
{
    match delta {
        Delta::Added(element, _) if !forward => Some(element.number),
        Delta::Dropped(element, _) if forward => Some(element.number),
        _ => None,
    }
}

/// Lets the scene follow a change.
fn show<L: Ledge>(
    scene: &mut Scene,
    sketch: &Sketch,
    delta: &Delta,
    forward: bool,
    blank: Blank,
) -> Result<(), NoMemory>
    requires leads { Leads sketch.now delta.now forward }
    requires before { IsSceneOf scene.old (before_of sketch.now delta.now forward) }
    requires name { blank.name ≡ L.name }
    requires parts { blank.parts ≡ L.parts }
    requires some { 0 < blank.parts }
    ensures { OnOk result (IsSceneOf scene.new sketch.now) }
{
    let mut steps = Steps::<L>::new(blank);
    scene.apply(sketch, delta, forward, &mut steps)
}
