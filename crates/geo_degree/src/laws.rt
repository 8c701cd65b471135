//! Laws of degrees and grids: functions that do nothing, whose contracts are the laws.

ghost use Rattle.std.specs.Prelude.{◌≡◌, ℕ, ◌+◌, ◌<◌, ◌≤◌, ◌↔◌, suc, ℤ, pos, unsigned_abs, Some, List, length, map, slice_index_or, slice_set, All, AllPairs, Contains};
ghost use Rattle.std.specs.List.{AllZip};
ghost use Rattle.geo_law.specs.Coefficients.{AreDistinct, value_at};
ghost use Rattle.geo_law.specs.Tables.{IsTriangle, value_of_table};
ghost use Rattle.geo_sketch.specs.declared.elements.Def.TheVariants.{Free};
ghost use Rattle.geo_sketch.specs.declared.elements.Element.{Element as Entry};
ghost use Rattle.geo_sketch.specs.declared.statements.Statement.{Statement as Posed};
ghost use Rattle.geo_sketch.specs.declared.verdicts.Verdict.{Verdict as Found};
ghost use Rattle.geo_sketch.specs.Assignments.{first_parameter, second_parameter};
ghost use Rattle.geo_sketch.specs.Sketches.{Drawing, IsDrawn, IsPosed};
ghost use Rattle.geo_sketch.specs.declared.limits.TheConstants.{PARAMETER_LIMIT};
ghost use Rattle.geo_sketch.specs.Lookups.{numbered};
ghost use Rattle.geo_sketch.specs.Triples.{triple_at};
ghost use Rattle.geo_sketch.specs.Statements.{parts_at, Holds};
ghost use Rattle.geo_triple.specs.Zero.{coordinates, AreZero};
ghost use Rattle.geo_degree.specs.declared.grids.Axis.{Axis as GridAxis};
ghost use Rattle.geo_degree.specs.declared.grids.Block.{Block as GridBlock};
ghost use Rattle.geo_degree.specs.Blocks.{AreDigits, point_count, points_of, points_of_all, rank};
ghost use Rattle.geo_degree.specs.Degrees.{degree_of, element_degree_limit, statement_degree, statement_degree_limit};
ghost use Rattle.geo_degree.specs.Grids.{axes_of, axis, axis_values, grid_point, grid_size, grid_value, values_on};
ghost use Rattle.geo_degree.specs.PairPolynomials.{AreTriangles, coordinate_tables, part_tables, tables_of, values_of_tables, with_pair};
ghost use Rattle.geo_degree.specs.Polynomials.{AreShort, assignment_on, coordinate_lists, lists_of, part_lists, parts_along, values_at, with_value};
ghost use Rattle.geo_degree.specs.Questions.{Question, IsClear, IsForm, IsZeroEverywhere, grid_magnitudes, grid_of, point};
ghost use Rattle.geo_degree.specs.VerdictFunction.{verdict_of};
ghost use Rattle.geo_degree.specs.Verdicts.{question_of, statement_parts, ArePaired, IsAmong, IsVerdict, IsStatementVerdict, coefficients_over, height_over, parts_over, table_over};
ghost use Rattle.geo_degree.specs.declared.limits.TheConstants.{SIZE_LIMIT};

/// In each parameter p, with all others fixed at any whole numbers, each coordinate of
/// an element is the value of its coefficient list, which has at most as many entries
/// as the degree and one more.
pub fn coordinates_are_polynomials()
    ensures values { (drawing : Drawing) (n p : ℕ) (v : ℕ → ℤ) (x : ℤ) → IsDrawn drawing → values_at (coordinate_lists (lists_of drawing.elements n v p)) x ≡ coordinates (triple_at drawing.elements n (with_value v p x)) }
    ensures lengths { (drawing : Drawing) (n p : ℕ) (v : ℕ → ℤ) → IsDrawn drawing → AreShort (degree_of drawing.elements n p + 1) (coordinate_lists (lists_of drawing.elements n v p)) }
{}

/// Along any curve, on which each parameter is a polynomial in one variable, each part of a
/// statement is the value of its coefficient list.
pub fn parts_are_polynomials_along_curves()
    ensures { (drawing : Drawing) (s : Posed) (curve : ℕ → List ℤ) (x : ℤ) → IsDrawn drawing → values_at (parts_along drawing.elements s curve) x ≡ parts_at drawing.elements s (assignment_on curve x) }
{}

/// The same of each part of a statement.
pub fn parts_are_polynomials()
    ensures values { (drawing : Drawing) (s : Posed) (p : ℕ) (v : ℕ → ℤ) (x : ℤ) → IsDrawn drawing → values_at (part_lists drawing.elements s v p) x ≡ parts_at drawing.elements s (with_value v p x) }
    ensures lengths { (drawing : Drawing) (s : Posed) (p : ℕ) (v : ℕ → ℤ) → IsDrawn drawing → AreShort (statement_degree drawing.elements s p + 1) (part_lists drawing.elements s v p) }
{}

/// In the two parameters of element m together, with all others fixed at any whole
/// numbers, each coordinate of an element is the value of its table of coefficients, whose
/// total degree is at most the degree in the first of them. So is each part of a statement.
pub fn pairs_are_polynomials()
    ensures coordinate_values { (drawing : Drawing) (n m : ℕ) (v : ℕ → ℤ) (x y : ℤ) → IsDrawn drawing → values_of_tables (coordinate_tables (tables_of drawing.elements n v m)) x y ≡ coordinates (triple_at drawing.elements n (with_pair v m x y)) }
    ensures coordinate_degrees { (drawing : Drawing) (n m : ℕ) (v : ℕ → ℤ) → IsDrawn drawing → AreTriangles (degree_of drawing.elements n (first_parameter m)) (coordinate_tables (tables_of drawing.elements n v m)) }
    ensures part_values { (drawing : Drawing) (s : Posed) (m : ℕ) (v : ℕ → ℤ) (x y : ℤ) → IsDrawn drawing → values_of_tables (part_tables drawing.elements s v m) x y ≡ parts_at drawing.elements s (with_pair v m x y) }
    ensures part_degrees { (drawing : Drawing) (s : Posed) (m : ℕ) (v : ℕ → ℤ) → IsDrawn drawing → AreTriangles (statement_degree drawing.elements s (first_parameter m)) (part_tables drawing.elements s v m) }
{}

/// Elements and statements have one degree in both parameters of a free element.
pub fn pairs_have_one_degree()
    ensures element { (drawing : Drawing) (n m : ℕ) (e : Entry) → IsDrawn drawing → numbered drawing.elements m ≡ Some e → e.def ≡ Free → degree_of drawing.elements n (first_parameter m) ≡ degree_of drawing.elements n (second_parameter m) }
    ensures statement { (drawing : Drawing) (s : Posed) (m : ℕ) (e : Entry) → IsDrawn drawing → numbered drawing.elements m ≡ Some e → e.def ≡ Free → statement_degree drawing.elements s (first_parameter m) ≡ statement_degree drawing.elements s (second_parameter m) }
{}

/// The degree in one parameter is at most 25 for an element and 75 for a statement,
/// since no element is tall: 3 to the power of the degree is at most the plain height at
/// magnitude 3.
pub fn degrees_are_low()
    ensures element { (drawing : Drawing) (n p : ℕ) → IsDrawn drawing → degree_of drawing.elements n p ≤ element_degree_limit }
    ensures statement { (drawing : Drawing) (s : Posed) (p : ℕ) → IsDrawn drawing → statement_degree drawing.elements s p ≤ statement_degree_limit }
{}

/// The axes of a statement are the parameters in which its degree is above 0, each once,
/// by rising parameter.
pub fn axes_are_the_parameters()
    ensures all { (drawing : Drawing) (s : Posed) (p : ℕ) → IsDrawn drawing → 0 < statement_degree drawing.elements s p → Contains (axes_of drawing.elements s) (axis p (statement_degree drawing.elements s p)) }
    ensures none_else { (drawing : Drawing) (s : Posed) → All (λ (a : GridAxis). (a.degree ≡ statement_degree drawing.elements s a.param) × (0 < a.degree)) (axes_of drawing.elements s) }
    ensures rising { (drawing : Drawing) (s : Posed) → IsDrawn drawing → AllPairs (λ (a b : GridAxis). a.param < b.param) (axes_of drawing.elements s) }
{}

/// The parts of a statement are what they are at the values of its axes, with 0 for all
/// other parameters.
pub fn parts_by_the_axes_alone()
    ensures { (drawing : Drawing) (s : Posed) (v : ℕ → ℤ) → IsDrawn drawing → parts_at drawing.elements s v ≡ statement_parts drawing.elements s (values_on (axes_of drawing.elements s) v) }
{}

/// Assignments that agree in all parameters in which its degree is above 0 give a
/// statement the same parts.
pub fn parts_by_own_parameters()
    ensures { (drawing : Drawing) (s : Posed) (v w : ℕ → ℤ) → IsDrawn drawing → ((p : ℕ) → 0 < statement_degree drawing.elements s p → v p ≡ w p) → parts_at drawing.elements s v ≡ parts_at drawing.elements s w }
{}

/// An axis of degree d has d + 1 values, which differ.
pub fn axis_has_enough_values()
    ensures distinct { (a : GridAxis) → AreDistinct (axis_values a) }
    ensures count { (a : GridAxis) → length (axis_values a) ≡ a.degree + 1 }
{}

/// A triangle of degree d has (d + 1)(d + 2) / 2 points. A point of a grid has one value for
/// each axis, which is in absolute value at most the magnitude of the axis.
pub fn points_have_a_value_for_each_axis()
    ensures count { (b : GridBlock) → length (points_of b) ≡ point_count b }
    ensures one_each { (q : Question) (i : ℕ) → IsForm q → i < grid_size (grid_of q) → length (point q i) ≡ length q.axes }
    ensures bounded { (q : Question) (i : ℕ) → IsForm q → i < grid_size (grid_of q) → AllZip (λ x m. unsigned_abs x ≤ m) (point q i) (grid_magnitudes q) }
{}

/// Each index has digits, and no two lists of digits have one index. The values at a point
/// are those whose numbers are the digits.
pub fn points_are_numbered_by_digits()
    ensures each_has_digits { (bs : List GridBlock) (i : ℕ) → i < grid_size (points_of_all bs) → (ds : List ℕ) × AreDigits bs ds × (rank bs ds ≡ i) }
    ensures within { (bs : List GridBlock) (ds : List ℕ) → AreDigits bs ds → rank bs ds < grid_size (points_of_all bs) }
    ensures one_index { (bs : List GridBlock) (ds es : List ℕ) → AreDigits bs ds → AreDigits bs es → rank bs ds ≡ rank bs es → ds ≡ es }
    ensures values { (bs : List GridBlock) (ds : List ℕ) → AreDigits bs ds → grid_point (points_of_all bs) (rank bs ds) ≡ map grid_value ds }
{}

/// A grid within the limit of its size has at most as many axes as a sketch has parameters,
/// since a Pair has at least 3 points and a One at least 2.
pub fn grids_have_few_axes()
    ensures { (q : Question) → IsForm q → grid_size (grid_of q) ≤ SIZE_LIMIT → length q.axes ≤ PARAMETER_LIMIT }
{}

/// What is 0 at every grid point is 0 at all whole-number values of the axes: a part has, in
/// each Pair, a total degree that is at most the Pair's, and in each other axis a degree that
/// is at most the axis's (Zhang, Yang and Deng 1990, on triangles).
pub fn clear_is_zero_everywhere()
    ensures { (q : Question) → IsForm q → IsClear q → IsZeroEverywhere q }
{}

/// A statement asks what a grid can answer: its parts are polynomials in its axes and in the
/// two of each Pair, with the degrees of these, and its height bounds them.
pub fn statements_are_forms()
    ensures { (drawing : Drawing) (s : Posed) → IsDrawn drawing → IsPosed drawing.elements s → IsForm (question_of drawing.elements s) }
{}

/// A statement holds where its parts are 0 at all values of its axes, and only there.
pub fn holds_by_the_axes_alone()
    ensures { (drawing : Drawing) (s : Posed) → IsDrawn drawing → Holds drawing.elements s ↔ IsZeroEverywhere (question_of drawing.elements s) }
{}

/// A statement that holds is 0 at every assignment of whole numbers, finite or not, and one
/// that is 0 at each of them holds.
pub fn holds_at_every_assignment()
    ensures { (drawing : Drawing) (s : Posed) → IsDrawn drawing → Holds drawing.elements s ↔ ((v : ℕ → ℤ) → AreZero (parts_at drawing.elements s v)) }
{}

/// Over any axes whose parameters rise, each part of a statement is in each axis, with all
/// others fixed, the value of a coefficient list with at most as many entries as its degree
/// there and one more. In two axes that are the parameters of one element it is the value of
/// a table whose total degree is at most the degree in the first. Its height at magnitudes
/// that bound the values bounds it.
pub fn parts_over_any_axes()
    ensures agrees { (drawing : Drawing) (s : Posed) (axes : List GridAxis) (xs : List ℤ) (k place : ℕ) (x : ℤ) → IsDrawn drawing → AllPairs (λ (a b : GridAxis). a.param < b.param) axes → length xs ≡ length axes → place < length axes → slice_index_or (parts_over drawing.elements s axes (slice_set xs place x)) k (pos 0) ≡ value_at (coefficients_over drawing.elements s axes xs k place) x }
    ensures short { (drawing : Drawing) (s : Posed) (axes : List GridAxis) (xs : List ℤ) (k place : ℕ) → IsDrawn drawing → length (coefficients_over drawing.elements s axes xs k place) ≤ statement_degree drawing.elements s (slice_index_or axes place (axis 0 0)).param + 1 }
    ensures pairs_agree { (drawing : Drawing) (s : Posed) (axes : List GridAxis) (xs : List ℤ) (k : ℕ) (p : ℕ × ℕ) (x y : ℤ) → IsDrawn drawing → AllPairs (λ (a b : GridAxis). a.param < b.param) axes → length xs ≡ length axes → ArePaired axes p → slice_index_or (parts_over drawing.elements s axes (slice_set (slice_set xs p.0 x) p.1 y)) k (pos 0) ≡ value_of_table (table_over drawing.elements s axes xs k p) x y }
    ensures low { (drawing : Drawing) (s : Posed) (axes : List GridAxis) (xs : List ℤ) (k : ℕ) (p : ℕ × ℕ) → IsDrawn drawing → ArePaired axes p → IsTriangle (suc (statement_degree drawing.elements s (slice_index_or axes p.0 (axis 0 0)).param)) (table_over drawing.elements s axes xs k p) }
    ensures bounded { (drawing : Drawing) (s : Posed) (axes : List GridAxis) (xs : List ℤ) (ms : List ℕ) (k : ℕ) → IsDrawn drawing → AllZip (λ x m. unsigned_abs x ≤ m) xs ms → unsigned_abs (slice_index_or (parts_over drawing.elements s axes xs) k (pos 0)) ≤ height_over drawing.elements s axes ms }
{}

/// Where all parameters in which its degree is above 0 are among the axes, the parts of a
/// statement are what they are at the values of the axes, with 0 for all other parameters;
/// and it holds where they are 0 at all values of the axes, and only there.
pub fn holds_by_any_axes()
    ensures parts { (drawing : Drawing) (s : Posed) (axes : List GridAxis) (v : ℕ → ℤ) → IsDrawn drawing → ((p : ℕ) → 0 < statement_degree drawing.elements s p → IsAmong axes p) → parts_at drawing.elements s v ≡ parts_over drawing.elements s axes (values_on axes v) }
    ensures holds { (drawing : Drawing) (s : Posed) (axes : List GridAxis) → IsDrawn drawing → ((p : ℕ) → 0 < statement_degree drawing.elements s p → IsAmong axes p) → Holds drawing.elements s ↔ ((xs : List ℤ) → length xs ≡ length axes → AreZero (parts_over drawing.elements s axes xs)) }
{}

/// A statement that holds is 0 at every grid point. No statement has two verdicts, and no
/// question has.
pub fn one_verdict()
    ensures clear { (drawing : Drawing) (s : Posed) → Holds drawing.elements s → IsClear (question_of drawing.elements s) }
    ensures one { (drawing : Drawing) (s : Posed) (r t : Found) → IsStatementVerdict drawing.elements s r → IsStatementVerdict drawing.elements s t → r ≡ t }
    ensures of_questions { (q : Question) (r t : Found) → IsForm q → IsVerdict q (IsZeroEverywhere q) r → IsVerdict q (IsZeroEverywhere q) t → r ≡ t }
{}

/// The verdict as a function is the verdict, on questions and on statements, and no other is.
pub fn verdict_of_is_the_verdict()
    ensures verdict { (q : Question) → IsForm q → IsVerdict q (IsZeroEverywhere q) (verdict_of q) }
    ensures no_other { (q : Question) (r : Found) → IsForm q → IsVerdict q (IsZeroEverywhere q) r → r ≡ verdict_of q }
    ensures of_statements { (drawing : Drawing) (s : Posed) → IsDrawn drawing → IsPosed drawing.elements s → IsStatementVerdict drawing.elements s (verdict_of (question_of drawing.elements s)) }
    ensures no_other_of_statements { (drawing : Drawing) (s : Posed) (r : Found) → IsDrawn drawing → IsPosed drawing.elements s → IsStatementVerdict drawing.elements s r → r ≡ verdict_of (question_of drawing.elements s) }
{}
