//! The triple that a definition makes of those of earlier elements.

ghost use Rattle.std.specs.Prelude.{◌≡◌, ◌≤◌, pos};
ghost use Rattle.geo_sketch.specs.Constructions.{AtNamed};
ghost use Rattle.geo_sketch.specs.Triples.{of_coordinates, size_by, triple_by};

use crate::elements::Def;
use geo_triple::{Triple, Width};

/// Triples of elements, looked up by number, or by whatever stands for the numbers in definitions.
pub trait LookUp {
    ghost use Rattle.std.specs.Prelude.{ℕ};
    ghost use Rattle.geo_triple.specs.declared.Triple.{Triple as Coordinates};

    /// The triples.
    ghost at: { Self → ℕ → Coordinates };

    /// Which numbers may be looked up.
    ghost Knows: { Self → ℕ → Type 0 };

    fn triple(&self, number: u32) -> &Triple
        requires { Knows self.now number }
        ensures { result.now ≡ at self.now number };
}

/// The triple of an element with this definition, by the values of its own parameters, and by 0
/// where it has none.
pub fn triple_by<W: Width, L: LookUp>(def: &Def, first: i64, second: i64, triples: &L) -> Triple
    requires known { AtNamed def.now (L.Knows triples.now) }
    requires low { size_by def.now first (L.at triples.now) ≤ W.limit }
    ensures { result ≡ triple_by def.now first second (L.at triples.now) }
{
    match def {
        Def::Free => of_values(first, second, 1),
        Def::Fixed(a, b, c) => of_values(*a, *b, *c),
        Def::Cut(k) => W::cut(triples.triple(*k), first),
        Def::Blend(k, m) => W::blend(triples.triple(*k), triples.triple(*m), first),
        Def::Cross(k, m) => W::cross(triples.triple(*k), triples.triple(*m)),
    }
}

/// The triple of three given coordinates.
pub fn of_values(a: i64, b: i64, c: i64) -> Triple
    ensures { result ≡ of_coordinates a b c }
{
    Triple {
        a: i128::from(a),
        b: i128::from(b),
        c: i128::from(c),
    }
}
