//! Laws of the definitions: functions that do nothing, whose contracts are the laws.

ghost use Rattle.std.specs.Prelude.{◌≡◌, ◌↔◌, ℕ, ◌≤◌, unsigned_abs, ℤ, pos, ◌+ℤ◌, ◌*ℤ◌, neg_ℤ, Option, Some, None};
ghost use Rattle.geo_triple.specs.declared.Triple.{Triple};
ghost use Rattle.geo_triple.specs.Triple.{blend_of, cross_of, cut_of, determinant_of, dot_of, size_of, zero_triple};
ghost use Rattle.geo_triple.specs.Height.{blend_height, cross_height, cut_height, determinant_height, dot_height};
ghost use Rattle.geo_triple.specs.Sums.{Sizes, sizes_of, largest_of, FitIn, cross_sums, dot_sum, determinant_sum, blend_sums, cut_sums};
ghost use Rattle.geo_triple.specs.Primitive.{IsPrimitiveOf, primitive_of};

/// A triple has at most one primitive triple.
pub fn only_one_primitive()
    ensures { (t u v : Triple) → IsPrimitiveOf t u → IsPrimitiveOf t v → u ≡ v }
{}

/// Each triple but the zero triple has a primitive triple, which `primitive_of` computes.
pub fn primitive_or_zero()
    ensures primitive { (t u : Triple) → (primitive_of t ≡ Some u) ↔ IsPrimitiveOf t u }
    ensures zero { (t : Triple) → (primitive_of t ≡ None) ↔ (t ≡ zero_triple) }
{}

/// The coordinates of a cut.
pub fn cut_in_coordinates()
    ensures { (t : Triple) (by : ℤ) → cut_of t by ≡ record { a = neg_ℤ (by *ℤ t.b); b = t.c +ℤ by *ℤ t.a; c = neg_ℤ t.b } }
{}

/// What is constructed lies where it is meant to lie: a join on both its points, a cut on its line
/// and on the vertical line through (by, 0), a blend in line with its two arguments.
pub fn incidences_by_construction()
    ensures join_of_first { (s t : Triple) → dot_of s (cross_of s t) ≡ pos 0 }
    ensures join_of_second { (s t : Triple) → dot_of t (cross_of s t) ≡ pos 0 }
    ensures cut { (s : Triple) (by : ℤ) → dot_of s (cut_of s by) ≡ pos 0 }
    ensures cut_at { (s : Triple) (by : ℤ) → dot_of record { a = pos 1; b = pos 0; c = neg_ℤ by } (cut_of s by) ≡ pos 0 }
    ensures blend { (s t : Triple) (by : ℤ) → determinant_of (blend_of s t by) s t ≡ pos 0 }
{}

/// What is computed is at most what the height rule says, where m and n (or k, m and n) bound the
/// sizes of what it is computed from.
pub fn heights_bound_sizes()
    ensures cross { (s t : Triple) (m n : ℕ) → size_of s ≤ m → size_of t ≤ n → size_of (cross_of s t) ≤ cross_height m n }
    ensures dot { (s t : Triple) (m n : ℕ) → size_of s ≤ m → size_of t ≤ n → unsigned_abs (dot_of s t) ≤ dot_height m n }
    ensures determinant { (s t u : Triple) (k m n : ℕ) → size_of s ≤ k → size_of t ≤ m → size_of u ≤ n → unsigned_abs (determinant_of s t u) ≤ determinant_height k m n }
    ensures blend { (s t : Triple) (by : ℤ) (m n k : ℕ) → size_of s ≤ m → size_of t ≤ n → unsigned_abs by ≤ k → size_of (blend_of s t by) ≤ blend_height m n k }
    ensures cut { (s : Triple) (by : ℤ) (m k : ℕ) → size_of s ≤ m → unsigned_abs by ≤ k → size_of (cut_of s by) ≤ cut_height m k }
{}

/// What is computed is, in each coordinate, at most its sum of absolute products, where g and h (or
/// g, h and k) bound the coordinates of what it is computed from.
pub fn sums_bound_sizes()
    ensures cross { (s t : Triple) (g h : Sizes) → FitIn (sizes_of s) g → FitIn (sizes_of t) h → FitIn (sizes_of (cross_of s t)) (cross_sums g h) }
    ensures dot { (s t : Triple) (g h : Sizes) → FitIn (sizes_of s) g → FitIn (sizes_of t) h → unsigned_abs (dot_of s t) ≤ dot_sum g h }
    ensures determinant { (s t u : Triple) (g h k : Sizes) → FitIn (sizes_of s) g → FitIn (sizes_of t) h → FitIn (sizes_of u) k → unsigned_abs (determinant_of s t u) ≤ determinant_sum g h k }
    ensures blend { (s t : Triple) (by : ℤ) (g h : Sizes) (m : ℕ) → FitIn (sizes_of s) g → FitIn (sizes_of t) h → unsigned_abs by ≤ m → FitIn (sizes_of (blend_of s t by)) (blend_sums g h m) }
    ensures cut { (s : Triple) (by : ℤ) (g : Sizes) (m : ℕ) → FitIn (sizes_of s) g → unsigned_abs by ≤ m → FitIn (sizes_of (cut_of s by)) (cut_sums g m) }
{}

/// The sums grow with what they are made of: so a caller that keeps bounds of all coordinates, and
/// sees that their sums are within the limit, meets each call's condition.
pub fn sums_grow()
    ensures largest { (g h : Sizes) → FitIn g h → largest_of g ≤ largest_of h }
    ensures cross { (g h k l : Sizes) → FitIn g h → FitIn k l → FitIn (cross_sums g k) (cross_sums h l) }
    ensures dot { (g h k l : Sizes) → FitIn g h → FitIn k l → dot_sum g k ≤ dot_sum h l }
    ensures determinant { (g h i j k l : Sizes) → FitIn g h → FitIn i j → FitIn k l → determinant_sum g i k ≤ determinant_sum h j l }
    ensures blend { (g h k l : Sizes) (m n : ℕ) → FitIn g h → FitIn k l → m ≤ n → FitIn (blend_sums g k m) (blend_sums h l n) }
    ensures cut { (g h : Sizes) (m n : ℕ) → FitIn g h → m ≤ n → FitIn (cut_sums g m) (cut_sums h n) }
{}

/// Each sum is at most what the height rule says: so a call's condition is met where the height rule
/// stays within the limit.
pub fn plain_heights_suffice()
    ensures cross { (s t : Triple) → largest_of (cross_sums (sizes_of s) (sizes_of t)) ≤ cross_height (size_of s) (size_of t) }
    ensures dot { (s t : Triple) → dot_sum (sizes_of s) (sizes_of t) ≤ dot_height (size_of s) (size_of t) }
    ensures minors { (s t u : Triple) → largest_of (cross_sums (sizes_of t) (sizes_of u)) ≤ determinant_height (size_of s) (size_of t) (size_of u) }
    ensures determinant { (s t u : Triple) → determinant_sum (sizes_of s) (sizes_of t) (sizes_of u) ≤ determinant_height (size_of s) (size_of t) (size_of u) }
    ensures blend { (s t : Triple) (m : ℕ) → largest_of (blend_sums (sizes_of s) (sizes_of t) m) ≤ blend_height (size_of s) (size_of t) m }
    ensures cut { (s : Triple) (m : ℕ) → largest_of (cut_sums (sizes_of s) m) ≤ cut_height (size_of s) m }
{}
