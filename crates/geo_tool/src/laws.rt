//! Laws of the expansion of a script.

ghost use Rattle.std.specs.Prelude.{◌≡◌, ◌+◌, ◌*◌, ◌≤◌, ◌++◌, ◌∷◌, [], ℕ, List, false, length, map, take};
ghost use Rattle.std.specs.List.{AllByRecursion};
ghost use Rattle.geo_parse.specs.Words.{words};
ghost use Rattle.geo_tool.specs.Expansion.{after_line, bench_after, begins_tool, empty_bench, expansion_from, expansion_of, given_by};
ghost use Rattle.geo_parse.specs.declared.limits.TheConstants.{LINE_LIMIT};

/// Lines that are fed one by one to a new expander give the expansion of their list: each
/// adds what it gives to the expansion of those before it. A body that is open at the end
/// gives nothing.
pub fn fed_one_by_one()
    ensures start { bench_after [] ≡ empty_bench }
    ensures nothing { expansion_of [] ≡ [] }
    ensures after { (lines : List (List ℕ)) (line : List ℕ) → bench_after (lines ++ line ∷ []) ≡ after_line (bench_after lines) line }
    ensures given { (lines : List (List ℕ)) (line : List ℕ) → expansion_of (lines ++ line ∷ []) ≡ expansion_of lines ++ given_by (bench_after lines) line }
    ensures cut { (front back : List (List ℕ)) → expansion_of (front ++ back) ≡ expansion_of front ++ expansion_from (bench_after front) back }
{}

/// A script in which no line begins with the word `tool` is its own expansion.
pub fn own_expansion()
    ensures { (lines : List (List ℕ)) → AllByRecursion (λ line. begins_tool (words line) ≡ false) lines → expansion_of lines ≡ lines }
{}

/// A line that is fed gives at most 32 lines.
pub fn few_lines_given()
    ensures each { (lines : List (List ℕ)) (line : List ℕ) → length (given_by (bench_after lines) line) ≤ 32 }
    ensures all { (lines : List (List ℕ)) → length (expansion_of lines) ≤ 32 * length lines }
{}

/// Lines of which no more than the first 201 bytes are kept expand as whole ones do, as far as
/// the first 201 bytes of each line that is given.
pub fn cut_lines_expand_alike()
    ensures { (lines : List (List ℕ)) → map (take (LINE_LIMIT + 1)) (expansion_of (map (take (LINE_LIMIT + 1)) lines)) ≡ map (take (LINE_LIMIT + 1)) (expansion_of lines) }
{}
