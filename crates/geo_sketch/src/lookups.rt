//! Looking elements up in a list by rising number.

ghost use Rattle.std.specs.Prelude.{◌≡◌, ◌≤◌, length, slice_index_or};
ghost use Rattle.geo_sketch.specs.Lookups.{def_at, kind_at, numbered, find_named};
ghost use Rattle.geo_sketch.specs.Tables.{place};

use crate::elements::{Def, Element, Kind};
use crate::names::Name;

/// The element with this name.
pub fn find_by_name(elements: &[Element], name: &Name) -> Option<Element>
    ensures { result ≡ find_named elements.now name.now }
{
    for element in elements {
        if element.name.is(name) {
            return Some(*element);
        }
    }
    None
}

/// The element with this number, in a list by rising number.
pub fn find_by_number(elements: &[Element], number: u32) -> Option<Element>
    ensures { result ≡ numbered elements.now number }
{
    for element in elements {
        if element.number == number {
            return Some(*element);
        }
    }
    None
}

/// The place of the element with this number, or the list's length where there
/// is none.
pub fn place_of(elements: &[Element], number: u32) -> usize
    ensures place { result ≡ place elements.now number }
    ensures within { result ≤ length elements.now }
{
    for (i, element) in elements.iter().enumerate() {
        if element.number == number {
            return i;
        }
    }
    elements.len()
}

/// What a table by places has of the element with this number, and the other value where the
/// table has nothing of it.
pub fn entry_at<T: Copy>(elements: &[Element], table: &[T], number: u32, other: T) -> T
    ensures { result ≡ slice_index_or table.now (place elements.now number) other }
{
    match table.get(place_of(elements, number)) {
        Some(entry) => *entry,
        None => other,
    }
}

/// The kind of the element with this number.
pub fn find_kind(elements: &[Element], number: u32) -> Option<Kind>
    ensures { result ≡ kind_at elements.now number }
{
    find_by_number(elements, number).map(|element| element.kind)
}

/// The definition of the element with this number.
pub fn find_def(elements: &[Element], number: u32) -> Option<Def>
    ensures { result ≡ def_at elements.now number }
{
    find_by_number(elements, number).map(|element| element.def)
}
