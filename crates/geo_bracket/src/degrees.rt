//! The degree of an expression in a parameter.

ghost use Rattle.std.specs.Prelude.{◌≡◌, ◌*◌, ◌≤◌, length};
ghost use Rattle.geo_sketch.specs.Lookups.{IsLive};
ghost use Rattle.geo_degree.specs.Degrees.{statement_degree_limit};
ghost use Rattle.geo_bracket.specs.Expressions.{bracket_degree, expression_degree, statement_of};
ghost use Rattle.geo_bracket.specs.Terms.{AtEach, AtProduct, IsSmall, degree_of_product};

use crate::expressions::{Bracket, Term};
use geo_degree::Degrees;
use geo_sketch::Statement;

/// The largest degree of a term about live elements. An element counts once for each place at
/// which it stands, and a term counts whatever its number is.
pub(crate) fn degree(degrees: &Degrees, terms: &[Term<u32>], p: u32) -> u64
    requires live { AtEach (IsLive degrees.now) terms.now }
    requires small { IsSmall terms.now }
    ensures { result ≡ expression_degree degrees.now terms.now p }
{
    let mut largest = 0;
    for term in terms {
        largest = largest.max(degree_of_term(degrees, term.brackets(), p));
    }
    largest
}

/// The sum of the degrees of some brackets.
fn degree_of_term(degrees: &Degrees, brackets: &[Bracket<u32>], p: u32) -> u64
    requires live { AtProduct (IsLive degrees.now) brackets.now }
    requires few { length brackets.now ≤ 8 }
    ensures { result ≡ degree_of_product (bracket_degree degrees.now p) brackets.now }
{
    let mut sum = 0;
    for bracket in brackets {
        sum += degrees.of_statement(&statement_of(bracket), p);
    }
    sum
}

/// The statement whose one part is the bracket, though an element may stand in it twice.
pub(crate) fn statement_of(bracket: &Bracket<u32>) -> Statement
    ensures { result ≡ statement_of bracket.now }
{
    Statement::Triple(bracket.first, bracket.second, bracket.third)
}
