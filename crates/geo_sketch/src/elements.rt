//! Elements: what each one is, how it is defined, and where it is set.

ghost use Rattle.std.specs.Prelude.{◌≡◌};
ghost use Rattle.geo_sketch.specs.Assignments.{first_value, own_parameters, parameters_in, second_value};
ghost use Rattle.geo_sketch.specs.Sketches.{parameter_count};

use crate::names::Name;
use crate::parameters::{OwnParameters, first_parameter, second_parameter};

/// What an element is at present; duality exchanges the two.
#[derive(Clone, Copy, PartialEq, Eq, Debug)]
pub enum Kind {
    Point,
    Line,
}

/// How the triple of an element is made of those of earlier elements, which are
/// named by their numbers, and of its own parameters.
#[derive(Clone, Copy, PartialEq, Eq, Debug)]
pub enum Def {
    /// Two parameters x and y, in the triple (x, y, 1).
    Free,
    /// These coordinates.
    Fixed(i64, i64, i64),
    /// An element of the other kind, times (1, 0, -t), for a parameter t.
    Cut(u32),
    /// The first plus t times the second, both of this kind, for a parameter t.
    Blend(u32, u32),
    /// The join of two points, or the meet of two lines.
    Cross(u32, u32),
}

impl Def {
    /// How many parameters an element with this definition has.
    pub fn parameter_count(&self) -> usize
        ensures { result ≡ parameter_count self.now }
    {
        match self {
            Def::Free => 2,
            Def::Cut(_) | Def::Blend(_, _) => 1,
            Def::Fixed(_, _, _) | Def::Cross(_, _) => 0,
        }
    }
}

/// A definition as a script states it: references by name, parameters with their
/// first values.
#[derive(Clone, Copy, Debug)]
pub enum Spec {
    Free(i64, i64),
    Fixed(i64, i64, i64),
    Cut(Name, i64),
    Blend(Name, Name, i64),
    Cross(Name, Name),
}

/// The current values of an element's own parameters.
#[derive(Clone, Copy, PartialEq, Eq, Debug)]
pub enum Setting {
    None,
    One(i64),
    Two(i64, i64),
}

impl Setting {
    /// The value of the first parameter, and 0 where there is none.
    pub fn first(&self) -> i64
        ensures { result ≡ first_value self.now }
    {
        match self {
            Setting::None => 0,
            Setting::One(t) => *t,
            Setting::Two(x, _) => *x,
        }
    }

    /// The value of the second parameter, and 0 where there is none.
    pub fn second(&self) -> i64
        ensures { result ≡ second_value self.now }
    {
        match self {
            Setting::None | Setting::One(_) => 0,
            Setting::Two(_, y) => *y,
        }
    }
}

/// An element: numbers are given from 0 in the order of additions. It has its first
/// and its second parameter where it is Free, its first one where it is a Cut or a
/// Blend, and none otherwise.
#[derive(Clone, Copy, Debug)]
pub struct Element {
    pub number: u32,
    pub name: Name,
    pub kind: Kind,
    pub def: Def,
}

impl Element {
    /// Its parameters.
    pub fn parameters(&self) -> OwnParameters
        ensures { parameters_in result ≡ own_parameters self.now.number self.now.def }
    {
        let first = first_parameter(self.number);
        match self.def {
            Def::Free => OwnParameters::Two(first, second_parameter(self.number)),
            Def::Cut(_) | Def::Blend(_, _) => OwnParameters::One(first),
            Def::Fixed(_, _, _) | Def::Cross(_, _) => OwnParameters::None,
        }
    }
}
