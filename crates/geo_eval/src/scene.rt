//! The scene that is kept while a sketch changes.

ghost use Rattle.std.specs.Prelude.{◌≡◌, ◌+◌, ◌<◌, All, IsOk, OnErr, OnOk, Some, false, true, if◌then◌else◌, length, slice_index_or, slice_set};
ghost use Rattle.geo_sketch.specs.Changes.{LeadsFrom, LeadsTo, applied, taken_back};
ghost use Rattle.geo_sketch.specs.Constructions.{AtNamed};
ghost use Rattle.geo_sketch.specs.Dependence.{depends_algebra, depends_on};
ghost use Rattle.geo_sketch.specs.Sketches.{Drawing, IsDrawn, blank};
ghost use Rattle.geo_sketch.specs.Lookups.{numbered};
ghost use Rattle.geo_sketch.specs.Tables.{place};
ghost use Rattle.geo_eval.specs.Reaches.{IsSizedSlot, current_reach, kept_of, slot_at};
ghost use Rattle.geo_eval.specs.Scenes.{IsSceneOf, Leads, before_of, dependents, evaluations, here_at, here_in, takes_memory};
ghost use Rattle.geo_eval.specs.Shown.{shown, shown_of};

use crate::evaluation::{Reach, evaluate_element, here_of_reach};
use crate::here::{Here, Shown};
use geo_sketch::{Delta, ELEMENT_LIMIT, Element, NoMemory, Setting, Sketch, depends_by, place_of};
use geo_triple::Steps;
use std::alloc::Global;
use std::marker::Model;
use std::sync::ledger::Ledger;

/// Where each element of a sketch is. A scene is kept while its sketch changes; a
/// change ticks at most once for each element that it moves.
#[derive(Drop)]
pub struct Scene {
    /// Of each number that was given, with none where it is not live.
    slots: Vec<Option<Reach>>,
}

impl Model for Scene {
    ghost use Rattle.std.specs.Prelude.{All, List, Option};
    ghost use Rattle.geo_eval.specs.declared.evaluation.Reach.{Reach};
    ghost use Rattle.geo_eval.specs.Reaches.{IsSizedSlot};

    ghost Value = { List (Option Reach) };

    ghost view = { λ s. s.slots.items };

    ghost invariant = { λ s. All IsSizedSlot s.slots.items };
}

impl Scene {
    /// The scene of the empty sketch.
    pub fn new(alloc: Global) -> Scene
        ensures { IsSceneOf result blank }
    {
        Scene {
            slots: Vec::new(alloc),
        }
    }

    /// Follows a change of the sketch: from the sketch before the change to the one
    /// after it, which is handed in. `forward` is false where the change was taken
    /// back, so that it led from the sketch that is handed in.
    ///
    /// Each evaluation of an element ticks once. After NoMemory the scene is still
    /// that of the sketch before.
    pub fn apply<L: Ledger>(
        &mut self,
        sketch: &Sketch,
        delta: &Delta,
        forward: bool,
        steps: &mut Steps<L>,
    ) -> Result<(), NoMemory>
        requires leads { Leads sketch.now delta.now forward }
        requires before { IsSceneOf self.old (before_of sketch.now delta.now forward) }
        ensures after { OnOk result (IsSceneOf self.new sketch.now) }
        ensures unchanged { OnErr result (self.new ≡ self.old) }
        ensures in_place { takes_memory delta.now forward ≡ false → IsOk result }
        ensures ticks { steps.new ≡ steps.old + evaluations sketch.now delta.now forward }
    {
        let elements = sketch.elements();
        match delta {
            Delta::Added(element, setting) => {
                if forward {
                    return self.take_in(sketch, element, *setting, steps);
                }
                self.take_off(sketch, element, *setting);
            }
            Delta::Dropped(element, setting) => {
                if forward {
                    self.take_out(sketch, element, *setting);
                } else {
                    self.bring_back(sketch, element, *setting, steps);
                }
            }
            Delta::Dragged(number, from, to) => {
                self.follow(sketch, elements, *number, *from, *to, forward, steps);
            }
            Delta::Claimed(_) | Delta::Dual => {}
        }
        Ok(())
    }

    /// Where the element with this number is; none where the number is not live.
    pub fn get(&self, number: u32) -> Option<Here>
        ensures here { (drawing : Drawing) → IsSceneOf self.now drawing → result ≡ here_at drawing number }
        ensures shown { (drawing : Drawing) → IsSceneOf self.now drawing → result ≡ here_in (shown_of drawing) number }
    {
        match self.slots.get(number as usize) {
            Some(Some(reach)) => Some(here_of_reach(reach)),
            _ => None,
        }
    }

    /// What is shown of a live element of the sketch.
    pub fn shown(&self, sketch: &Sketch, element: &Element) -> Shown
        requires scene { IsSceneOf self.now sketch.now }
        requires live { numbered sketch.now.elements element.now.number ≡ Some element.now }
        ensures { result ≡ shown sketch.now element.now }
    {
        match self.get(element.number) {
            Some(here) => Shown {
                number: element.number,
                name: element.name,
                kind: element.kind,
                here,
            },
            None => unreachable!(),
        }
    }

    /// An element was added.
    fn take_in<L: Ledger>(
        &mut self,
        sketch: &Sketch,
        element: &Element,
        setting: Setting,
        steps: &mut Steps<L>,
    ) -> Result<(), NoMemory>
        requires leads { LeadsTo sketch.now (Delta.Added element.now setting) }
        requires before { IsSceneOf self.old (taken_back sketch.now (Delta.Added element.now setting)) }
        ensures after { OnOk result (IsSceneOf self.new sketch.now) }
        ensures unchanged { OnErr result (self.new ≡ self.old) }
        ensures tick { steps.new ≡ steps.old + 1 }
    {
        let reach = evaluate_element(sketch, element, &self.slots, steps);
        match self.slots.push(Some(reach)) {
            Ok(()) => Ok(()),
            Err(_) => Err(NoMemory),
        }
    }

    /// An addition was taken back.
    fn take_off(&mut self, sketch: &Sketch, element: &Element, setting: Setting)
        requires drawn { IsDrawn sketch.now }
        requires leads { LeadsFrom sketch.now (Delta.Added element.now setting) }
        requires before { IsSceneOf self.old (applied sketch.now (Delta.Added element.now setting)) }
        ensures after { IsSceneOf self.new sketch.now }
    {
        let _ = self.slots.pop();
    }

    /// An element was dropped.
    fn take_out(&mut self, sketch: &Sketch, element: &Element, setting: Setting)
        requires leads { LeadsTo sketch.now (Delta.Dropped element.now setting) }
        requires before { IsSceneOf self.old (taken_back sketch.now (Delta.Dropped element.now setting)) }
        ensures after { IsSceneOf self.new sketch.now }
    {
        self.slots[element.number as usize] = None;
    }

    /// A drop was taken back.
    fn bring_back<L: Ledger>(
        &mut self,
        sketch: &Sketch,
        element: &Element,
        setting: Setting,
        steps: &mut Steps<L>,
    )
        requires drawn { IsDrawn sketch.now }
        requires leads { LeadsFrom sketch.now (Delta.Dropped element.now setting) }
        requires before { IsSceneOf self.old (applied sketch.now (Delta.Dropped element.now setting)) }
        ensures after { IsSceneOf self.new sketch.now }
        ensures tick { steps.new ≡ steps.old + 1 }
    {
        let reach = evaluate_element(sketch, element, &self.slots, steps);
        self.slots[element.number as usize] = Some(reach);
    }

    /// An element was dragged, or its drag was taken back: evaluates what depends on
    /// it, and nothing else.
    fn follow<L: Ledger>(
        &mut self,
        sketch: &Sketch,
        elements: &[Element],
        number: u32,
        from: Setting,
        to: Setting,
        forward: bool,
        steps: &mut Steps<L>,
    )
        requires drawn { IsDrawn sketch.now }
        requires elements { elements.now ≡ sketch.now.elements }
        requires leads { Leads sketch.now (Delta.Dragged number from to) forward }
        requires before { IsSceneOf self.old (before_of sketch.now (Delta.Dragged number from to) forward) }
        ensures after { IsSceneOf self.new sketch.now }
        ensures ticks { steps.new ≡ steps.old + dependents sketch.now number }
    {
        let mut moved = [false; ELEMENT_LIMIT];
        for i in 0..elements.len() {
            let element = &elements[i];
            let moves = depends_by(elements, &moved, element, number);
            moved[i] = moves;
            self.renew(sketch, element, moves, steps);
        }
    }

    /// Evaluates a live element anew where it moves.
    fn renew<L: Ledger>(
        &mut self,
        sketch: &Sketch,
        element: &Element,
        moves: bool,
        steps: &mut Steps<L>,
    )
        requires drawn { IsDrawn sketch.now }
        requires live { numbered sketch.now.elements element.now.number ≡ Some element.now }
        requires room { element.now.number < length self.old }
        requires known { AtNamed element.now.def (λ k. slot_at self.old k ≡ kept_of sketch.now k) }
        ensures slots { self.new ≡ (if moves then slice_set self.old element.now.number (Some (current_reach sketch.now element.now.number)) else self.old) }
        ensures tick { steps.new ≡ steps.old + (if moves then 1 else 0) }
    {
        if moves {
            let reach = evaluate_element(sketch, element, &self.slots, steps);
            self.slots[element.number as usize] = Some(reach);
        }
    }
}
