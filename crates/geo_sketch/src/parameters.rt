//! Which parameters are those of an element.

ghost use Rattle.std.specs.Prelude.{◌≡◌};
ghost use Rattle.geo_sketch.specs.Assignments.{element_of_parameter, first_parameter, second_parameter};

/// The parameters of an element, by rising number.
#[derive(Clone, Copy, PartialEq, Eq, Debug)]
pub enum OwnParameters {
    None,
    One(u64),
    Two(u64, u64),
}

/// The first parameter of the element with this number, as far as it has one.
pub fn first_parameter(number: u32) -> u64
    ensures { result ≡ first_parameter number }
{
    2 * u64::from(number)
}

/// The second parameter of the element with this number, as far as it has one.
pub fn second_parameter(number: u32) -> u64
    ensures { result ≡ second_parameter number }
{
    2 * u64::from(number) + 1
}

/// The number of the element whose parameter it is.
pub fn element_of_parameter(parameter: u32) -> u32
    ensures { result ≡ element_of_parameter parameter }
{
    parameter / 2
}
