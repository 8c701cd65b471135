//! Laws of the whole numbers that proofs in every other crate stand on.
#![tactic(auto)]

ghost use Rattle.std.specs.Prelude.{◌≡◌, ℕ, ◌+◌, ◌*◌, ◌≤◌, ℤ, pos, ◌+ℤ◌, ◌-ℤ◌, ◌*ℤ◌, ◌⊎◌, unsigned_abs};

/// A product that is 0 has a factor that is 0.
#[tactic(auto, using(crate::proofs::Integers::zero_product))]
pub fn zero_has_no_divisors()
    ensures { (a b : ℤ) → a *ℤ b ≡ pos 0 → (a ≡ pos 0) ⊎ (b ≡ pos 0) }
{}

/// A product of two sums of two squares is a sum of two squares.
#[tactic(auto, using(crate::proofs::Identities::two_squares))]
pub fn two_squares_multiply()
    ensures { (a b c d : ℤ) → (a *ℤ a +ℤ b *ℤ b) *ℤ (c *ℤ c +ℤ d *ℤ d) ≡ (a *ℤ c -ℤ b *ℤ d) *ℤ (a *ℤ c -ℤ b *ℤ d) +ℤ (a *ℤ d +ℤ b *ℤ c) *ℤ (a *ℤ d +ℤ b *ℤ c) }
{}

/// The absolute value of `a * b - c * d` is bounded by the bounds of the four numbers.
#[tactic(auto, using(crate::proofs::AbsoluteValues::minors))]
pub fn minor_is_bounded()
    ensures { (a b c d : ℤ) (k l m n : ℕ) → unsigned_abs a ≤ k → unsigned_abs b ≤ l → unsigned_abs c ≤ m → unsigned_abs d ≤ n → unsigned_abs (a *ℤ b -ℤ c *ℤ d) ≤ k * l + m * n }
{}
