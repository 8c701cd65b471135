//! A sketch that is made of a list of definitions.

ghost use Rattle.std.specs.Prelude.{◌≡◌, ◌<◌, ◌++◌, ◌∷◌, [], Some, IfOk, MatchOption, map};
ghost use Rattle.std.specs.Option.{SomeIff};
ghost use Rattle.geo_sketch.specs.Constructions.{AtNamed};
ghost use Rattle.geo_sketch.specs.Followers.{are_below, can_be_defined, can_follow, can_refer, has_kind, has_room, is_small};
ghost use Rattle.geo_sketch.specs.Rebuilding.{at_zero, listed, number_name, rebuilt, settings_from, zeros, AreSound};
ghost use Rattle.geo_sketch.specs.declared.limits.TheConstants.{NUMBER_LIMIT};
ghost use Rattle.geo_sketch.specs.Lookups.{numbered, Rises};

use crate::additions::{count_all_parameters, opposite};
use crate::changes::NoMemory;
use crate::elements::{Def, Element, Kind, Setting};
use crate::limits::{COORDINATE_LIMIT, ELEMENT_LIMIT, HEIGHT_LIMIT, NUMBER_LIMIT, PARAMETER_LIMIT};
use crate::lookups::find_by_number;
use crate::names::Name;
use crate::plain_heights::plain_height_of_new;
use crate::sketches::Sketch;
use std::alloc::Global;

impl Sketch {
    /// The sketch that a list of numbers, kinds and definitions makes, and none where
    /// the list makes no sketch. Element n is named by the letter e and its number, all
    /// values are 0, and there is no claim.
    pub fn rebuild(alloc: Global, list: &[(u32, Kind, Def)]) -> Result<Option<Sketch>, NoMemory>
        ensures exactly { IfOk result (λ o. SomeIff o (AreSound (map listed list.now)) (at_zero (map listed list.now))) }
        ensures computed { IfOk result (λ o. o ≡ rebuilt list.now) }
    {
        let elements = match list_elements(alloc, list) {
            Ok(Some(elements)) => elements,
            Ok(None) => return Ok(None),
            Err(_) => return Err(NoMemory),
        };
        match set_to_zero(alloc, &elements) {
            Ok(settings) => Ok(Some(Sketch::of_parts(alloc, elements, settings))),
            Err(_) => Err(NoMemory),
        }
    }
}

/// The elements of the list, and none where they make no sketch.
fn list_elements(alloc: Global, list: &[(u32, Kind, Def)]) -> Result<Option<Vec<Element>>, NoMemory>
    ensures { IfOk result (λ o. MatchOption o (¬ AreSound (map listed list.now)) (λ v. AreSound (map listed list.now) × (v.items ≡ map listed list.now))) }
{
    let mut elements = Vec::new(alloc);
    for entry in list {
        match follow(&elements, entry) {
            Some(element) => {
                if elements.push(element).is_err() {
                    return Err(NoMemory);
                }
            }
            None => return Ok(None),
        }
    }
    Ok(Some(elements))
}

/// The element of the entry, where it can follow the earlier ones.
fn follow(elements: &[Element], entry: &(u32, Kind, Def)) -> Option<Element>
    requires { AreSound elements.now }
    ensures { SomeIff result (AreSound (elements.now ++ listed entry.now ∷ [])) (listed entry.now) }
{
    let (number, kind, def) = *entry;
    if !can_come_next(elements, number, kind, &def) {
        return None;
    }
    match spell_number(number) {
        Some(name) => Some(Element {
            number,
            name,
            kind,
            def,
        }),
        None => None,
    }
}

/// Whether an entry can follow the elements.
fn can_come_next(elements: &[Element], number: u32, kind: Kind, def: &Def) -> bool
    requires { AreSound elements.now }
    ensures { result ≡ can_follow elements.now number kind def.now }
{
    if !has_only_below(elements, number) || !has_room_for(elements, number, def) {
        return false;
    }
    if !is_definable(elements, number, kind, def) {
        return false;
    }
    plain_height_of_new(elements, number, def) <= HEIGHT_LIMIT
}

fn has_only_below(elements: &[Element], number: u32) -> bool
    ensures { result ≡ are_below elements.now number }
{
    for element in elements {
        if element.number >= number {
            return false;
        }
    }
    true
}

fn has_room_for(elements: &[Element], number: u32, def: &Def) -> bool
    requires { AreSound elements.now }
    ensures { result ≡ has_room elements.now number def.now }
{
    (number as usize) < NUMBER_LIMIT
        && elements.len() < ELEMENT_LIMIT
        && count_all_parameters(elements) + def.parameter_count() <= PARAMETER_LIMIT
}

fn is_definable(elements: &[Element], number: u32, kind: Kind, def: &Def) -> bool
    ensures { result ≡ can_be_defined elements.now number kind def.now }
{
    match def {
        Def::Free => true,
        Def::Fixed(0, 0, 0) => false,
        Def::Fixed(a, b, c) => has_small(*a) && has_small(*b) && has_small(*c),
        Def::Cut(k) => is_referable(elements, number, opposite(kind), *k),
        Def::Blend(k, m) => {
            is_referable(elements, number, kind, *k) && is_referable(elements, number, kind, *m)
        }
        Def::Cross(k, m) => {
            is_referable(elements, number, opposite(kind), *k)
                && is_referable(elements, number, opposite(kind), *m)
        }
    }
}

fn is_referable(elements: &[Element], number: u32, wanted: Kind, k: u32) -> bool
    ensures { result ≡ can_refer elements.now number wanted k }
{
    if k >= number {
        return false;
    }
    match find_by_number(elements, k) {
        Some(element) => element.kind == wanted,
        None => false,
    }
}

fn has_small(coordinate: i64) -> bool
    ensures { result ≡ is_small coordinate }
{
    coordinate.unsigned_abs() <= COORDINATE_LIMIT
}

/// The name of element n, which is the letter e and the number.
fn spell_number(n: u32) -> Option<Name>
    requires { n < NUMBER_LIMIT }
    ensures { result ≡ Some (number_name n) }
{
    let ones = b'0' + (n % 10) as u8;
    if n < 10 {
        return Name::new(&[b'e', ones]);
    }
    let tens = b'0' + (n / 10 % 10) as u8;
    if n < 100 {
        return Name::new(&[b'e', tens, ones]);
    }
    let hundreds = b'0' + (n / 100) as u8;
    Name::new(&[b'e', hundreds, tens, ones])
}

/// The settings of the elements with all values 0.
fn set_to_zero(alloc: Global, elements: &[Element]) -> Result<Vec<Setting>, NoMemory>
    requires { Rises 0 elements.now }
    ensures { IfOk result (λ v. v.items ≡ settings_from 0 elements.now) }
{
    let mut settings = Vec::new(alloc);
    for element in elements {
        if settings
            .resize(element.number as usize, Setting::None)
            .is_err()
        {
            return Err(NoMemory);
        }
        if settings.push(zero_setting(&element.def)).is_err() {
            return Err(NoMemory);
        }
    }
    Ok(settings)
}

fn zero_setting(def: &Def) -> Setting
    ensures { result ≡ zeros def.now }
{
    match def {
        Def::Free => Setting::Two(0, 0),
        Def::Cut(_) | Def::Blend(_, _) => Setting::One(0),
        Def::Fixed(_, _, _) | Def::Cross(_, _) => Setting::None,
    }
}
