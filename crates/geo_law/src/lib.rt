//! Laws of polynomials with whole coefficients: how many zeros make one zero everywhere.
//!
//! Each law is a function that does nothing. A coefficient list begins with the coefficient of the power 0.
#![tactic(auto)]

ghost use Rattle.std.specs.Prelude.{◌≡◌, ◌≢◌, ◌≤◌, ◌<◌, ◌+◌, ℕ, suc, max, List, [], length, ℤ, pos, ◌+ℤ◌, ◌*ℤ◌, All, Contains, slice_set};
ghost use Rattle.geo_law.specs.Coefficients.{value_at, sum_of_lists, product_of_lists, AreDistinct, IsZero, IsRoot, IsQuotient};
ghost use Rattle.geo_law.specs.Tables.{value_of_table, IsTriangle, sum_of_tables, product_of_tables};
ghost use Rattle.geo_law.specs.Grids.{HasEnoughValues, IsZeroOnGrid, IsZeroEverywhere};
ghost use Rattle.geo_law.specs.Triangles.{ArePairs, HasEnoughForTriangles, IsZeroOnTriangles};

mod examples;

/// Lists are added entry by entry.
#[tactic(auto, using(crate::proofs::CoefficientLaws::sums))]
pub fn add_lists()
    ensures value { (p q : List ℤ) (x : ℤ) →
        value_at (sum_of_lists p q) x ≡ value_at p x +ℤ value_at q x }
    ensures length { (p q : List ℤ) → length (sum_of_lists p q) ≡ max (length p) (length q) }
{}

/// The degrees of the factors add up.
#[tactic(auto, using(crate::proofs::CoefficientLaws::products))]
pub fn multiply_lists()
    ensures value { (p q : List ℤ) (x : ℤ) →
        value_at (product_of_lists p q) x ≡ value_at p x *ℤ value_at q x }
    ensures length { (p q : List ℤ) (m n : ℕ) →
        length p ≤ m + 1 → length q ≤ n + 1 → length (product_of_lists p q) ≤ m + n + 1 }
{}

/// Tables are added row by row.
#[tactic(auto, using(crate::proofs::TableLaws::sums))]
pub fn add_tables()
    ensures value { (p q : List (List ℤ)) (x y : ℤ) →
        value_of_table (sum_of_tables p q) x y ≡ value_of_table p x y +ℤ value_of_table q x y }
    ensures degree { (side : ℕ) (p q : List (List ℤ)) →
        IsTriangle side p → IsTriangle side q → IsTriangle side (sum_of_tables p q) }
{}

/// The total degrees of the factors add up. A total degree of m makes a triangle of side m + 1.
#[tactic(auto, using(crate::proofs::TableLaws::products))]
pub fn multiply_tables()
    ensures value { (p q : List (List ℤ)) (x y : ℤ) →
        value_of_table (product_of_tables p q) x y ≡ value_of_table p x y *ℤ value_of_table q x y }
    ensures degree { (m n : ℕ) (p q : List (List ℤ)) →
        IsTriangle (suc m) p → IsTriangle (suc n) q → IsTriangle (suc (m + n)) (product_of_tables p q) }
{}

/// A list that is not empty, with root r, is `x - r` times a list that is one shorter.
#[tactic(auto, using(crate::proofs::CoefficientLaws::by_root))]
pub fn divide_by_root()
    ensures { (p : List ℤ) (r : ℤ) → p ≢ [] → IsRoot p r → (q : List ℤ) × IsQuotient p r q }
{}

/// A list that has no more entries than it has distinct roots has only entries 0.
#[tactic(auto, using(crate::proofs::CoefficientLaws::by_roots))]
pub fn too_many_roots()
    ensures { (p roots : List ℤ) →
        AreDistinct roots → length p ≤ length roots → All (IsRoot p) roots → All IsZero p }
{}

/// Where the product of two lists is 0 everywhere and the first is not 0 at one place, the
/// second has only entries 0.
pub fn no_product_is_zero()
    ensures { (p q : List ℤ) (r : ℤ) → value_at p r ≢ pos 0 →
        ((x : ℤ) → value_at p x *ℤ value_at q x ≡ pos 0) → All IsZero q }
{}

/// A whole number for each list of whole numbers, which has one entry for each variable.
pub trait Quantity {
    /// How many variables it has.
    ghost variables: { Self → ℕ };

    /// The whole number for a list of that length.
    ghost value: { Self → List ℤ → ℤ };

    /// The coefficient list in the variable at a place, where all others are fixed.
    ghost coefficients: { Self → List ℤ → ℕ → List ℤ };

    /// Computes nothing. What stands below it is a law, which each implementation proves.
    fn stated(&self) {}

    /// Where x is put at a place, the quantity is the value of the coefficient list at x.
    ghost agrees: { (q : Self) (xs : List ℤ) (place : ℕ) (x : ℤ) →
        length xs ≡ variables q → place < variables q →
        value q (slice_set xs place x) ≡ value_at (coefficients q xs place) x };
}

/// A quantity that is 0 on a grid with enough values for each variable is 0 everywhere.
pub fn zero_on_grid<Q: Quantity>(quantity: &Q)
    ensures { (grid : List (List ℤ)) →
        HasEnoughValues (Q.variables quantity.now) (Q.coefficients quantity.now) grid →
        IsZeroOnGrid (Q.value quantity.now) grid →
        IsZeroEverywhere (Q.value quantity.now) (Q.variables quantity.now) }
{}

/// A quantity that has, in some pairs of its variables, a table of coefficients.
pub trait PairQuantity: Quantity {
    /// The two places of each pair.
    ghost pairs: { Self → List (ℕ × ℕ) };

    /// The table in the two variables of a pair, where all others are fixed.
    ghost table: { Self → List ℤ → ℕ × ℕ → List (List ℤ) };

    /// The places are below the number of variables, and no two of them are the same.
    ghost pairs_apart: { (q : Self) → ArePairs (Self.variables q) (pairs q) };

    /// Where x and y are put at the two places of a pair, the quantity is the table's value there.
    ghost pairs_agree: { (q : Self) (xs : List ℤ) (p : ℕ × ℕ) (x y : ℤ) →
        length xs ≡ Self.variables q → Contains (pairs q) p →
        Self.value q (slice_set (slice_set xs p.0 x) p.1 y) ≡ value_of_table (table q xs p) x y };
}

/// A quantity that is 0 on triangles in its pairs, with enough values for each other variable,
/// is 0 everywhere.
pub fn zero_on_triangles<Q: PairQuantity>(quantity: &Q)
    ensures { (grid : List (List ℤ)) →
        HasEnoughForTriangles (Q.variables quantity.now) (Q.pairs quantity.now)
        (Q.coefficients quantity.now) (Q.table quantity.now) grid →
        IsZeroOnTriangles (Q.value quantity.now) (Q.variables quantity.now) (Q.pairs quantity.now) grid →
        IsZeroEverywhere (Q.value quantity.now) (Q.variables quantity.now) }
{}
