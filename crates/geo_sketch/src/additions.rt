//! What an addition makes, or the first refusal that applies.

ghost use Rattle.std.specs.Prelude.{◌≡◌, ℕ, ◌+◌, ◌≤◌, ◌<◌, length, sum_by, IfOk};
ghost use Rattle.geo_sketch.specs.Sketches.{element_parameters, other, values_in};
ghost use Rattle.geo_sketch.specs.declared.limits.TheConstants.{ELEMENT_LIMIT};
ghost use Rattle.geo_sketch.specs.Drags.{is_fixed_for};
ghost use Rattle.geo_sketch.specs.Additions.{definition_of, first_setting_of, referred, both_referred};
ghost use Rattle.geo_sketch.specs.Lookups.{find_named};

use crate::changes::Refusal;
use crate::elements::{Def, Element, Kind, Setting, Spec};
use crate::lookups::find_by_name;
use crate::names::Name;

/// The definition that a new element of this kind gets; refused as unknown, kind
/// or zero.
pub(crate) fn define(elements: &[Element], kind: Kind, spec: &Spec) -> Result<Def, Refusal>
    ensures { result ≡ definition_of elements.now kind spec.now }
{
    match spec {
        Spec::Free(_, _) => Ok(Def::Free),
        Spec::Fixed(0, 0, 0) => Err(Refusal::Zero),
        Spec::Fixed(a, b, c) => Ok(Def::Fixed(*a, *b, *c)),
        Spec::Cut(k, _) => match refer(elements, k, opposite(kind)) {
            Ok(k) => Ok(Def::Cut(k)),
            Err(refusal) => Err(refusal),
        },
        Spec::Blend(k, m, _) => match refer_to_both(elements, k, m, kind) {
            Ok((k, m)) => Ok(Def::Blend(k, m)),
            Err(refusal) => Err(refusal),
        },
        Spec::Cross(k, m) => match refer_to_both(elements, k, m, opposite(kind)) {
            Ok((k, m)) => Ok(Def::Cross(k, m)),
            Err(refusal) => Err(refusal),
        },
    }
}

/// The number of the element with this name, which shall be of this kind.
fn refer(elements: &[Element], name: &Name, wanted: Kind) -> Result<u32, Refusal>
    ensures { result ≡ referred (find_named elements.now name.now) wanted }
{
    match find_by_name(elements, name) {
        None => Err(Refusal::Unknown),
        Some(element) if element.kind == wanted => Ok(element.number),
        Some(_) => Err(Refusal::Kind),
    }
}

/// The numbers of the elements with these names, which shall be of this kind.
fn refer_to_both(
    elements: &[Element],
    first: &Name,
    second: &Name,
    wanted: Kind,
) -> Result<(u32, u32), Refusal>
    ensures { result ≡ both_referred (find_named elements.now first.now) (find_named elements.now second.now) wanted }
{
    match (
        find_by_name(elements, first),
        find_by_name(elements, second),
    ) {
        (Some(p), Some(q)) if p.kind == wanted && q.kind == wanted => Ok((p.number, q.number)),
        (Some(_), Some(_)) => Err(Refusal::Kind),
        _ => Err(Refusal::Unknown),
    }
}

/// The values that a new element begins with.
pub(crate) fn first_setting(spec: &Spec) -> Setting
    ensures { result ≡ first_setting_of spec.now }
{
    match spec {
        Spec::Free(x, y) => Setting::Two(*x, *y),
        Spec::Cut(_, t) | Spec::Blend(_, _, t) => Setting::One(*t),
        Spec::Fixed(_, _, _) | Spec::Cross(_, _) => Setting::None,
    }
}

/// Whether an element with this definition has no parameters, or another number of
/// them than these values.
pub(crate) fn is_fixed(def: &Def, setting: Setting) -> bool
    ensures { result ≡ is_fixed_for def.now setting }
{
    let count = def.parameter_count();
    count == 0 || count_values(setting) != count
}

fn count_values(setting: Setting) -> usize
    ensures { result ≡ values_in setting }
{
    match setting {
        Setting::None => 0,
        Setting::One(_) => 1,
        Setting::Two(_, _) => 2,
    }
}

/// How many parameters the elements have.
pub(crate) fn count_all_parameters(elements: &[Element]) -> usize
    requires { length elements.now ≤ ELEMENT_LIMIT }
    ensures { result ≡ sum_by element_parameters elements.now }
{
    let mut count = 0;
    for element in elements {
        count += element.def.parameter_count();
    }
    count
}

pub(crate) fn opposite(kind: Kind) -> Kind
    ensures { result ≡ other kind }
{
    match kind {
        Kind::Point => Kind::Line,
        Kind::Line => Kind::Point,
    }
}
