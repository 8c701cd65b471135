//! The value of an expression, from the triples of its elements.

ghost use Rattle.std.specs.Prelude.{◌≡◌, ◌<◌, ◌≤◌, ◌+◌, ◌^◌, ◌+ℤ◌, ◌*ℤ◌, ◌↔◌, false, length, pos, unsigned_abs};
ghost use Rattle.geo_triple.specs.declared.limits.TheConstants.{STATEMENT_LIMIT};
ghost use Rattle.geo_bracket.specs.Posing.{bracket_size, bracket_there};
ghost use Rattle.geo_bracket.specs.Terms.{AtBracket, AtEach, AtProduct, height_of_sum, height_of_term, product_of, sum_of};

use crate::expressions::{Bracket, Term};
use geo_triple::{Triple, Width};

/// Whether the value of terms by the places of the triples is not 0.
pub(crate) fn is_not_zero<W: Width>(terms: &[Term<usize>], triples: &[Triple]) -> bool
    requires inside { AtEach (λ n. n < length triples.now) terms.now }
    requires low { height_of_sum (bracket_size triples.now) terms.now ≤ W.limit }
    ensures { (result ≡ false) ↔ (sum_of (bracket_there triples.now) terms.now ≡ pos 0) }
{
    value_at::<W>(terms, triples) != 0
}

fn value_at<W: Width>(terms: &[Term<usize>], triples: &[Triple]) -> i128
    requires inside { AtEach (λ n. n < length triples.now) terms.now }
    requires low { height_of_sum (bracket_size triples.now) terms.now ≤ W.limit }
    ensures { result ≡ sum_of (bracket_there triples.now) terms.now }
{
    let mut sum = 0;
    for term in terms {
        sum = plus(sum, value_of_term::<W>(term, triples));
    }
    sum
}

fn plus(x: i128, y: i128) -> i128
    requires { unsigned_abs x + unsigned_abs y ≤ STATEMENT_LIMIT }
    ensures { result ≡ x +ℤ y }
{
    x + y
}

fn value_of_term<W: Width>(term: &Term<usize>, triples: &[Triple]) -> i128
    requires inside { AtProduct (λ n. n < length triples.now) term.now.brackets }
    requires low { height_of_term (bracket_size triples.now) term.now ≤ W.limit }
    ensures { result ≡ term.now.number *ℤ product_of (bracket_there triples.now) term.now.brackets }
{
    let mut product = i128::from(term.number());
    for bracket in term.brackets() {
        product = W::product(product, value_of_bracket::<W>(bracket, triples));
    }
    product
}

fn value_of_bracket<W: Width>(bracket: &Bracket<usize>, triples: &[Triple]) -> i128
    requires inside { AtBracket (λ n. n < length triples.now) bracket.now }
    requires low { bracket_size triples.now bracket.now ≤ W.limit }
    ensures { result ≡ bracket_there triples.now bracket.now }
{
    W::det(
        &triples[bracket.first],
        &triples[bracket.second],
        &triples[bracket.third],
    )
}
