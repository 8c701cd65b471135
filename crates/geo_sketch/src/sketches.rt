//! A sketch, and the calls that change it.

ghost use Rattle.std.specs.Prelude.{◌≡◌, ℕ, IfOk, IsOk, OnErr, OnOk, ◌↔◌, Err, Ok, false, []};
ghost use Rattle.geo_sketch.specs.Sketches.{Drawing, blank, IsDrawn, IsPosed, IsSketch};
ghost use Rattle.geo_sketch.specs.Claims.{claim_of, resolution_of};
ghost use Rattle.geo_sketch.specs.Assignments.{setting_of};
ghost use Rattle.geo_sketch.specs.Changes.{applied, LeadsFrom, LeadsTo, makes_longer, makes_shorter, taken_back};
ghost use Rattle.geo_sketch.specs.Constructions.{AtNamed};
ghost use Rattle.geo_sketch.specs.Dependence.{depends_on};
ghost use Rattle.geo_sketch.specs.Drags.{drag_of};
ghost use Rattle.geo_sketch.specs.Needs.{AtStated, needs};
ghost use Rattle.geo_sketch.specs.PlainStatements.{is_plain};
ghost use Rattle.geo_sketch.specs.Drops.{drop_of, is_used};
ghost use Rattle.geo_sketch.specs.Lookups.{IsLive, find_named, number_named};
ghost use Rattle.geo_sketch.specs.Additions.{addition_of, is_full, would_be_tall, IsSmallSpec};
ghost use Rattle.geo_sketch.specs.declared.changes.Refusal.{Refusal as RefusalWord};

use crate::additions::{count_all_parameters, define, first_setting, is_fixed};
use crate::changes::{Delta, NoMemory, Refusal, Stop};
use crate::claims::{find_meaning, has_claim};
use crate::dependence::find_dependence;
use crate::edits::{exchange_kinds, put_back, remove_number};
use crate::elements::{Def, Element, Kind, Setting, Spec};
use crate::limits::{CLAIM_LIMIT, ELEMENT_LIMIT, HEIGHT_LIMIT, NUMBER_LIMIT, PARAMETER_LIMIT};
use crate::lookups::find_by_name;
use crate::names::Name;
use crate::plain_heights::plain_height_of_new;
use crate::plain_statements::holds_plainly;
use crate::references::{any_refers_to, any_speaks_of};
use crate::statements::{Said, Statement};
use std::alloc::Global;
use std::marker::Model;

/// The live elements of a sketch, the current values of their parameters, the
/// claims, and the next number.
#[derive(Drop)]
pub struct Sketch {
    elements: Vec<Element>,
    /// Of each number that was given, with none where it is not live.
    settings: Vec<Setting>,
    claims: Vec<Statement>,
}

impl Model for Sketch {
    ghost use Rattle.geo_sketch.specs.Sketches.{Drawing, IsSketch};

    ghost Value = { Drawing };

    ghost view = { λ s. record { elements = s.elements.items; settings = s.settings.items; claims = s.claims.items } };

    ghost invariant = { λ s. IsSketch s.elements.items s.settings.items s.claims.items };
}

impl Sketch {
    /// The empty sketch.
    pub fn new(alloc: Global) -> Sketch
        ensures { result ≡ blank }
    {
        Sketch {
            elements: Vec::new(alloc),
            settings: Vec::new(alloc),
            claims: Vec::new(alloc),
        }
    }

    /// The sketch of these elements with these settings, and no claim.
    pub(crate) fn of_parts(alloc: Global, elements: Vec<Element>, settings: Vec<Setting>) -> Sketch
        requires { IsSketch elements.items settings.items [] }
        ensures { result ≡ record { elements = elements.items; settings = settings.items; claims = [] } }
    {
        Sketch {
            elements,
            settings,
            claims: Vec::new(alloc),
        }
    }

    /// The live elements, by rising number.
    pub fn elements(&self) -> &[Element]
        ensures elements { result.now ≡ self.now.elements }
        ensures drawn { IsDrawn self.now }
    {
        &self.elements
    }

    /// The claims, in the order of claiming.
    pub fn claims(&self) -> &[Statement]
        ensures claims { result.now ≡ self.now.claims }
        ensures drawn { IsDrawn self.now }
    {
        &self.claims
    }

    /// The current values of a live element's parameters.
    pub fn setting(&self, number: u32) -> Setting
        ensures { result ≡ setting_of self.now.settings number }
    {
        match self.settings.get(number as usize) {
            Some(setting) => *setting,
            None => Setting::None,
        }
    }

    /// The number of the element with this name.
    pub fn find(&self, name: Name) -> Option<u32>
        ensures { result ≡ number_named self.now.elements name }
    {
        find_by_name(&self.elements, &name).map(|element| element.number)
    }

    /// Adds an element with the next number.
    ///
    /// Refused, by the first that applies: the name is taken, a name that the
    /// definition refers to is unknown or of the wrong kind, a fixed triple is
    /// zero, the sketch is full, or the element would be tall.
    pub fn add(&mut self, name: Name, kind: Kind, spec: &Spec) -> Result<Delta, Stop>
        requires { IsSmallSpec spec.now }
        ensures refused { (r : RefusalWord) → (result ≡ Err (Stop.Refused r)) ↔ (addition_of self.old name kind spec.now ≡ Err r) }
        ensures added { IfOk result (λ d. addition_of self.old name kind spec.now ≡ Ok d) }
        ensures leads { IfOk result (LeadsFrom self.old) }
        ensures after { IfOk result (λ d. self.new ≡ applied self.old d) }
        ensures unchanged { OnErr result (self.new ≡ self.old) }
    {
        match self.find_addition(&name, kind, spec) {
            Ok(delta) => match self.apply(&delta) {
                Ok(()) => Ok(delta),
                Err(_) => Err(Stop::NoMemory),
            },
            Err(refusal) => Err(Stop::Refused(refusal)),
        }
    }

    /// Removes an element, which takes no memory.
    ///
    /// Refused, by the first that applies: the name is unknown, or the element is
    /// named by another one or by a claim.
    pub fn drop_element(&mut self, name: Name) -> Result<Delta, Refusal>
        ensures result { result ≡ drop_of self.old name }
        ensures leads { IfOk result (LeadsFrom self.old) }
        ensures after { IfOk result (λ d. self.new ≡ applied self.old d) }
        ensures unchanged { OnErr result (self.new ≡ self.old) }
    {
        match self.find_drop(&name) {
            Ok(delta) => {
                if let Delta::Dropped(element, setting) = &delta {
                    self.take_out(element, *setting);
                }
                Ok(delta)
            }
            Err(refusal) => Err(refusal),
        }
    }

    /// Sets the values of an element, which takes no memory.
    ///
    /// Refused, by the first that applies: the name is unknown, or the element has
    /// no parameters or another number of them.
    pub fn drag(&mut self, name: Name, to: Setting) -> Result<Delta, Refusal>
        ensures result { result ≡ drag_of self.old name to }
        ensures leads { IfOk result (LeadsFrom self.old) }
        ensures after { IfOk result (λ d. self.new ≡ applied self.old d) }
        ensures unchanged { OnErr result (self.new ≡ self.old) }
    {
        match self.find_drag(&name, to) {
            Ok(delta) => {
                if let Delta::Dragged(number, from, to) = &delta {
                    self.put_values(*number, *from, *to);
                }
                Ok(delta)
            }
            Err(refusal) => Err(refusal),
        }
    }

    /// The statement that is said, with rising numbers.
    ///
    /// Refused, by the first that applies: a name is unknown, an element is of the
    /// wrong kind, or one element is named twice.
    pub fn resolve(&self, said: &Said) -> Result<Statement, Refusal>
        ensures result { result ≡ resolution_of self.now said.now }
        ensures posed { IfOk result (IsPosed self.now.elements) }
    {
        match find_meaning(&self.elements, said) {
            Ok(statement) => match statement.in_order() {
                Some(statement) => Ok(statement),
                None => Err(Refusal::Repeat),
            },
            Err(refusal) => Err(refusal),
        }
    }

    /// Adds the statement that is said to the claims.
    ///
    /// Refused, by the first that applies: a name is unknown, an element is of the
    /// wrong kind, the claims are full, or one element is named twice or the claim
    /// is there already.
    pub fn claim(&mut self, said: &Said) -> Result<Delta, Stop>
        ensures refused { (r : RefusalWord) → (result ≡ Err (Stop.Refused r)) ↔ (claim_of self.old said.now ≡ Err r) }
        ensures claimed { IfOk result (λ d. claim_of self.old said.now ≡ Ok d) }
        ensures leads { IfOk result (LeadsFrom self.old) }
        ensures after { IfOk result (λ d. self.new ≡ applied self.old d) }
        ensures unchanged { OnErr result (self.new ≡ self.old) }
    {
        match self.find_claim(said) {
            Ok(delta) => match self.apply(&delta) {
                Ok(()) => Ok(delta),
                Err(_) => Err(Stop::NoMemory),
            },
            Err(refusal) => Err(Stop::Refused(refusal)),
        }
    }

    /// Exchanges the kinds of all elements, which takes no memory: points become
    /// lines, and lines points.
    pub fn dual(&mut self) -> Delta
        ensures result { result ≡ Delta.Dual }
        ensures leads { LeadsFrom self.old result }
        ensures after { self.new ≡ applied self.old result }
    {
        self.put_dual();
        Delta::Dual
    }

    /// Whether element n is the other one, or its definition names an element that
    /// depends on the other one.
    pub fn depends(&self, n: u32, on: u32) -> bool
        requires { IsLive self.now.elements n }
        ensures { result ≡ depends_on self.now.elements n on }
    {
        find_dependence(&self.elements, n, on)
    }

    /// Whether the statement names an element that depends on element n.
    pub fn needs(&self, statement: &Statement, n: u32) -> bool
        requires { AtStated statement.now (IsLive self.now.elements) }
        ensures { result ≡ needs self.now.elements statement.now n }
    {
        match statement {
            Statement::Null(a) => self.depends(*a, n),
            Statement::Same(a, b) | Statement::On(a, b) => {
                self.depends(*a, n) || self.depends(*b, n)
            }
            Statement::Triple(a, b, c) => {
                self.depends(*a, n) || self.depends(*b, n) || self.depends(*c, n)
            }
        }
    }

    /// Whether the statement holds by construction: one of two incident elements is
    /// cut from the other or is a join or meet with it, or one of three elements is a
    /// blend of the other two.
    pub fn is_plain(&self, statement: &Statement) -> bool
        ensures { result ≡ is_plain self.now.elements statement.now }
    {
        holds_plainly(&self.elements, statement)
    }

    /// Does a change that leads from this sketch.
    pub fn apply(&mut self, delta: &Delta) -> Result<(), NoMemory>
        requires { LeadsFrom self.old delta.now }
        ensures after { OnOk result (self.new ≡ applied self.old delta.now) }
        ensures unchanged { OnErr result (self.new ≡ self.old) }
        ensures in_place { makes_longer delta.now ≡ false → IsOk result }
    {
        match delta {
            Delta::Added(element, setting) => self.put_in(element, *setting),
            Delta::Dropped(element, setting) => {
                self.take_out(element, *setting);
                Ok(())
            }
            Delta::Dragged(number, from, to) => {
                self.put_values(*number, *from, *to);
                Ok(())
            }
            Delta::Claimed(statement) => self.put_claim(statement),
            Delta::Dual => {
                self.put_dual();
                Ok(())
            }
        }
    }

    /// Takes back a change that led to this sketch.
    pub fn revert(&mut self, delta: &Delta) -> Result<(), NoMemory>
        requires { LeadsTo self.old delta.now }
        ensures after { OnOk result (self.new ≡ taken_back self.old delta.now) }
        ensures unchanged { OnErr result (self.new ≡ self.old) }
        ensures in_place { makes_shorter delta.now ≡ false → IsOk result }
    {
        match delta {
            Delta::Added(element, setting) => {
                self.undo_addition(element, *setting);
                Ok(())
            }
            Delta::Dropped(element, setting) => self.undo_drop(element, *setting),
            Delta::Dragged(number, from, to) => {
                self.undo_drag(*number, *from, *to);
                Ok(())
            }
            Delta::Claimed(statement) => {
                self.undo_claim(statement);
                Ok(())
            }
            Delta::Dual => {
                self.put_dual();
                Ok(())
            }
        }
    }

    /// The addition that the name and the definition make.
    fn find_addition(&self, name: &Name, kind: Kind, spec: &Spec) -> Result<Delta, Refusal>
        requires { IsSmallSpec spec.now }
        ensures result { result ≡ addition_of self.now name.now kind spec.now }
        ensures leads { IfOk result (LeadsFrom self.now) }
    {
        if find_by_name(&self.elements, name).is_some() {
            return Err(Refusal::Taken);
        }
        let def = match define(&self.elements, kind, spec) {
            Ok(def) => def,
            Err(refusal) => return Err(refusal),
        };
        if self.is_full_for(&def) {
            return Err(Refusal::Full);
        }
        if self.is_tall_with(&def) {
            return Err(Refusal::Tall);
        }
        let element = Element {
            number: self.settings.len() as u32,
            name: *name,
            kind,
            def,
        };
        Ok(Delta::Added(element, first_setting(spec)))
    }

    /// The drop of the element with this name.
    fn find_drop(&self, name: &Name) -> Result<Delta, Refusal>
        ensures result { result ≡ drop_of self.now name.now }
        ensures leads { IfOk result (LeadsFrom self.now) }
    {
        match find_by_name(&self.elements, name) {
            None => Err(Refusal::Unknown),
            Some(element) => {
                if self.uses(element.number) {
                    Err(Refusal::Used)
                } else {
                    Ok(Delta::Dropped(element, self.setting(element.number)))
                }
            }
        }
    }

    /// The drag of the element with this name.
    fn find_drag(&self, name: &Name, to: Setting) -> Result<Delta, Refusal>
        ensures result { result ≡ drag_of self.now name.now to }
        ensures leads { IfOk result (LeadsFrom self.now) }
    {
        match find_by_name(&self.elements, name) {
            None => Err(Refusal::Unknown),
            Some(element) => {
                if is_fixed(&element.def, to) {
                    Err(Refusal::Fixed)
                } else {
                    let from = self.setting(element.number);
                    Ok(Delta::Dragged(element.number, from, to))
                }
            }
        }
    }

    /// The claim that the statement makes.
    fn find_claim(&self, said: &Said) -> Result<Delta, Refusal>
        ensures result { result ≡ claim_of self.now said.now }
        ensures leads { IfOk result (LeadsFrom self.now) }
    {
        let statement = match find_meaning(&self.elements, said) {
            Ok(statement) => statement,
            Err(refusal) => return Err(refusal),
        };
        if self.claims.len() >= CLAIM_LIMIT {
            return Err(Refusal::Full);
        }
        match statement.in_order() {
            Some(claim) => {
                if has_claim(&self.claims, &claim) {
                    Err(Refusal::Repeat)
                } else {
                    Ok(Delta::Claimed(claim))
                }
            }
            None => Err(Refusal::Repeat),
        }
    }

    fn put_in(&mut self, element: &Element, setting: Setting) -> Result<(), NoMemory>
        requires { LeadsFrom self.old (Delta.Added element.now setting) }
        ensures after { OnOk result (self.new ≡ applied self.old (Delta.Added element.now setting)) }
        ensures unchanged { OnErr result (self.new ≡ self.old) }
    {
        if self.elements.push(*element).is_err() {
            return Err(NoMemory);
        }
        if self.settings.push(setting).is_err() {
            let _ = self.elements.pop();
            return Err(NoMemory);
        }
        Ok(())
    }

    fn undo_addition(&mut self, element: &Element, setting: Setting)
        requires { LeadsTo self.old (Delta.Added element.now setting) }
        ensures { self.new ≡ taken_back self.old (Delta.Added element.now setting) }
    {
        let _ = self.elements.pop();
        let _ = self.settings.pop();
    }

    fn take_out(&mut self, element: &Element, setting: Setting)
        requires { LeadsFrom self.old (Delta.Dropped element.now setting) }
        ensures { self.new ≡ applied self.old (Delta.Dropped element.now setting) }
    {
        self.settings[element.number as usize] = Setting::None;
        remove_number(&mut self.elements, element.number);
    }

    fn undo_drop(&mut self, element: &Element, setting: Setting) -> Result<(), NoMemory>
        requires { LeadsTo self.old (Delta.Dropped element.now setting) }
        ensures after { OnOk result (self.new ≡ taken_back self.old (Delta.Dropped element.now setting)) }
        ensures unchanged { OnErr result (self.new ≡ self.old) }
    {
        if put_back(&mut self.elements, element).is_err() {
            return Err(NoMemory);
        }
        self.settings[element.number as usize] = setting;
        Ok(())
    }

    fn put_values(&mut self, number: u32, from: Setting, to: Setting)
        requires { LeadsFrom self.old (Delta.Dragged number from to) }
        ensures { self.new ≡ applied self.old (Delta.Dragged number from to) }
    {
        self.settings[number as usize] = to;
    }

    fn undo_drag(&mut self, number: u32, from: Setting, to: Setting)
        requires { LeadsTo self.old (Delta.Dragged number from to) }
        ensures { self.new ≡ taken_back self.old (Delta.Dragged number from to) }
    {
        self.settings[number as usize] = from;
    }

    fn put_claim(&mut self, statement: &Statement) -> Result<(), NoMemory>
        requires { LeadsFrom self.old (Delta.Claimed statement.now) }
        ensures after { OnOk result (self.new ≡ applied self.old (Delta.Claimed statement.now)) }
        ensures unchanged { OnErr result (self.new ≡ self.old) }
    {
        match self.claims.push(*statement) {
            Ok(()) => Ok(()),
            Err(_) => Err(NoMemory),
        }
    }

    fn undo_claim(&mut self, statement: &Statement)
        requires { LeadsTo self.old (Delta.Claimed statement.now) }
        ensures { self.new ≡ taken_back self.old (Delta.Claimed statement.now) }
    {
        let _ = self.claims.pop();
    }

    fn put_dual(&mut self)
        ensures after { self.new ≡ applied self.old Delta.Dual }
        ensures leads { LeadsFrom self.old Delta.Dual }
    {
        exchange_kinds(&mut self.elements);
    }

    fn is_full_for(&self, def: &Def) -> bool
        ensures { result ≡ is_full self.now def.now }
    {
        self.elements.len() + 1 > ELEMENT_LIMIT
            || count_all_parameters(&self.elements) + def.parameter_count() > PARAMETER_LIMIT
            || self.settings.len() + 1 > NUMBER_LIMIT
    }

    fn is_tall_with(&self, def: &Def) -> bool
        requires { AtNamed def.now (IsLive self.now.elements) }
        ensures { result ≡ would_be_tall self.now def.now }
    {
        plain_height_of_new(&self.elements, self.settings.len() as u32, def) > HEIGHT_LIMIT
    }

    /// Whether another element or a claim names the element.
    fn uses(&self, number: u32) -> bool
        ensures { result ≡ is_used self.now number }
    {
        any_refers_to(&self.elements, number) || any_speaks_of(&self.claims, number)
    }
}
