//! What the views are told of a sketch and of its changes, read from the scene.

ghost use Rattle.std.specs.Prelude.{◌≡◌, ◌++◌, [], ◌∷◌, if◌then◌else◌, IfOk, OnOk, Some, map};
ghost use Rattle.std.specs.List.{filter};
ghost use Rattle.geo_eval.specs.Scenes.{IsSceneOf, Leads};
ghost use Rattle.geo_eval.specs.Shown.{shown_of};
ghost use Rattle.geo_sketch.specs.Dependence.{depends_on};
ghost use Rattle.geo_sketch.specs.Lookups.{numbered};
ghost use Rattle.geo_view.specs.Entries.{AreNear, AreNearChanges};
ghost use Rattle.geo_view.specs.Following.{changes_of, putting};

use crate::shown::Change;
use geo_eval::{Scene, Shown};
use geo_sketch::{Delta, Element, NoMemory, Sketch};
use std::alloc::{AllocError, Global};

/// What is shown of the sketch: the entries of its views.
pub fn shown_of(alloc: Global, sketch: &Sketch, scene: &Scene) -> Result<Vec<Shown>, NoMemory>
    requires { IsSceneOf scene.now sketch.now }
    ensures { IfOk result (λ list. list.items ≡ shown_of sketch.now) }
{
    let mut list = Vec::new(alloc);
    for element in sketch.elements() {
        if list.push(scene.shown(sketch, element)).is_err() {
            return Err(NoMemory);
        }
    }
    Ok(list)
}

/// What the views are told of a change that led to the sketch; `forward` is false where it
/// was taken back, so that it led from the sketch. Of a drag they are told what depends on
/// the dragged element, and nothing else.
pub fn changes_of(
    alloc: Global,
    sketch: &Sketch,
    scene: &Scene,
    delta: &Delta,
    forward: bool,
) -> Result<Vec<Change>, NoMemory>
    requires scene { IsSceneOf scene.now sketch.now }
    requires leads { Leads sketch.now delta.now forward }
    ensures changes { IfOk result (λ list. list.items ≡ changes_of sketch.now delta.now forward) }
{
    match delta {
        Delta::Added(element, _) => {
            if forward {
                coming(alloc, sketch, scene, element)
            } else {
                one(alloc, Change::Gone(element.number))
            }
        }
        Delta::Dropped(element, _) => {
            if forward {
                one(alloc, Change::Gone(element.number))
            } else {
                coming(alloc, sketch, scene, element)
            }
        }
        Delta::Dragged(number, _, _) => moving(alloc, sketch, scene, *number),
        Delta::Claimed(_) => Ok(Vec::new(alloc)),
        Delta::Dual => one(alloc, Change::Dual),
    }
}

fn one(alloc: Global, change: Change) -> Result<Vec<Change>, NoMemory>
    ensures { IfOk result (λ list. list.items ≡ change ∷ []) }
{
    let mut list = Vec::new(alloc);
    match list.push(change) {
        Ok(()) => Ok(list),
        Err(_) => Err(NoMemory),
    }
}

/// An element is put where it is.
fn coming(
    alloc: Global,
    sketch: &Sketch,
    scene: &Scene,
    element: &Element,
) -> Result<Vec<Change>, NoMemory>
    requires scene { IsSceneOf scene.now sketch.now }
    requires live { numbered sketch.now.elements element.now.number ≡ Some element.now }
    ensures { IfOk result (λ list. list.items ≡ putting sketch.now element.now ∷ []) }
{
    one(alloc, Change::Put(scene.shown(sketch, element)))
}

/// Each element that depends on this one is put where it is.
fn moving(
    alloc: Global,
    sketch: &Sketch,
    scene: &Scene,
    number: u32,
) -> Result<Vec<Change>, NoMemory>
    requires { IsSceneOf scene.now sketch.now }
    ensures { IfOk result (λ list. list.items ≡ map (putting sketch.now) (filter (λ e. depends_on sketch.now.elements e.number number) sketch.now.elements)) }
{
    let mut list = Vec::new(alloc);
    for element in sketch.elements() {
        if note_moved(&mut list, sketch, scene, element, number).is_err() {
            return Err(NoMemory);
        }
    }
    Ok(list)
}

/// Notes where an element is, if it depends on this one.
fn note_moved(
    list: &mut Vec<Change>,
    sketch: &Sketch,
    scene: &Scene,
    element: &Element,
    number: u32,
) -> Result<(), AllocError>
    requires scene { IsSceneOf scene.now sketch.now }
    requires live { numbered sketch.now.elements element.now.number ≡ Some element.now }
    ensures { OnOk result (list.new.items ≡ (if depends_on sketch.now.elements element.now.number number then list.old.items ++ (putting sketch.now element.now ∷ []) else list.old.items)) }
{
    if sketch.depends(element.number, number) {
        match list.push(Change::Put(scene.shown(sketch, element))) {
            Ok(()) => Ok(()),
            Err(_) => Err(AllocError),
        }
    } else {
        Ok(())
    }
}
