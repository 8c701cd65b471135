//! Small quantities: their laws are proved, and the laws of the crate are used through them.

ghost use Rattle.std.specs.Prelude.{◌≡◌, ◌≢◌, ◌+◌, ◌<◌, ℕ, List, [], ◌∷◌, length, ℤ, pos};
ghost use Rattle.geo_law.specs.Coefficients.{AreDistinct};
ghost use Rattle.geo_law.specs.Grids.{IsZeroEverywhere};
ghost use Rattle.geo_law.specs.Triangles.{HasEnoughForTriangles, IsZeroOnTriangles};
ghost use Rattle.geo_law.specs.Examples.{bilinear_value, point, bilinear_coefficients, bilinear_table, multiple_value};
ghost use Rattle.geo_law.specs.ExampleLaws.{bilinear_agrees, bilinear_pairs, bilinear_pairs_agree};

use crate::{PairQuantity, Quantity, zero_on_grid, zero_on_triangles};

/// `constant + first * x + second * y + both * x * y`, of the two variables x and y.
#[derive(Clone, Copy)]
struct Bilinear {
    constant: i64,
    first: i64,
    second: i64,
    both: i64,
}

impl Quantity for Bilinear {
    ghost variables = { λ q. 2 };

    ghost value = { λ q xs. bilinear_value q xs };

    ghost coefficients = { λ q xs place. bilinear_coefficients q xs place };

    ghost agrees = { λ q xs place x. bilinear_agrees q xs place x };
}

impl PairQuantity for Bilinear {
    ghost pairs = { λ q. (0, 1) ∷ [] };

    ghost table = { λ q xs p. bilinear_table q };

    ghost pairs_apart = { λ q. bilinear_pairs };

    ghost pairs_agree = { λ q xs p x y. bilinear_pairs_agree q xs p x y };
}

/// A multiple of the one variable.
#[derive(Clone, Copy)]
struct Multiple {
    number: i64,
}

impl Quantity for Multiple {
    ghost use Rattle.geo_law.specs.ExampleLaws.{multiple_agrees};

    ghost variables = { λ q. 1 };

    ghost value = { λ q xs. multiple_value q.number xs };

    ghost coefficients = { λ q xs place. pos 0 ∷ q.number ∷ [] };

    ghost agrees = { λ q xs place x. multiple_agrees q.number xs place x };
}

/// The quantity behind a reference: an implementation that stands on the laws of another.
#[derive(Clone, Copy)]
struct Referred<'a, Q> {
    to: &'a Q,
}

impl<'a, Q: Quantity> Quantity for Referred<'a, Q> {
    ghost variables = { λ q. Q.variables q.to.now };

    ghost value = { λ q xs. Q.value q.to.now xs };

    ghost coefficients = { λ q xs place. Q.coefficients q.to.now xs place };

    ghost agrees = { λ q xs place x. Q.agrees q.to.now xs place x };
}

impl<'a, Q: PairQuantity> PairQuantity for Referred<'a, Q> {
    ghost pairs = { λ q. Q.pairs q.to.now };

    ghost table = { λ q xs p. Q.table q.to.now xs p };

    ghost pairs_apart = { λ q. Q.pairs_apart q.to.now };

    ghost pairs_agree = { λ q xs p x y. Q.pairs_agree q.to.now xs p x y };
}

/// What is 0 at the four corners of a rectangle is 0 everywhere.
fn zero_at_corners(form: &Bilinear)
    ensures { (xs ys : List ℤ) → AreDistinct xs → AreDistinct ys → length xs ≡ 2 → length ys ≡ 2 →
        ((i j : ℕ) → i < 2 → j < 2 → bilinear_value form.now (point xs ys i j) ≡ pos 0) →
        IsZeroEverywhere (bilinear_value form.now) 2 }
{
    zero_on_grid(form);
}

/// What is 0 at six points that form a triangle is 0 everywhere.
fn zero_at_six_points(form: &Bilinear)
    ensures { (xs ys : List ℤ) → AreDistinct xs → AreDistinct ys → length xs ≡ 3 → length ys ≡ 3 →
        ((i j : ℕ) → i + j < 3 → bilinear_value form.now (point xs ys i j) ≡ pos 0) →
        IsZeroEverywhere (bilinear_value form.now) 2 }
{
    zero_on_triangles(form);
}

/// A multiple that is 0 at one value other than 0 is 0 everywhere.
fn zero_at_one_value(multiple: &Multiple)
    ensures { (r : ℤ) → r ≢ pos 0 → multiple_value multiple.now.number (r ∷ []) ≡ pos 0 →
        IsZeroEverywhere (multiple_value multiple.now.number) 1 }
{
    zero_on_grid(multiple);
}

/// The law on triangles for any quantity, by way of a reference to it.
fn zero_by_reference<Q: PairQuantity>(to: &Q)
    ensures { (grid : List (List ℤ)) →
        HasEnoughForTriangles (Q.variables to.now) (Q.pairs to.now) (Q.coefficients to.now) (Q.table to.now) grid →
        IsZeroOnTriangles (Q.value to.now) (Q.variables to.now) (Q.pairs to.now) grid →
        IsZeroEverywhere (Q.value to.now) (Q.variables to.now) }
{
    zero_on_triangles(&Referred { to });
}
