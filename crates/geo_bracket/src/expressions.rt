//! Bracket expressions: sums of products of determinants.

ghost use Rattle.std.specs.Prelude.{◌≡◌};
ghost use Rattle.geo_bracket.specs.Terms.{IsSmall};

use geo_sketch::Name;
use std::marker::Model;

/// Three elements, for the determinant of their triples.
#[derive(Clone, Copy, Debug)]
pub struct Bracket<N> {
    pub first: N,
    pub second: N,
    pub third: N,
}

/// A number times the product of some brackets.
#[derive(Drop)]
pub struct Term<N> {
    number: i64,
    brackets: Vec<Bracket<N>>,
}

impl<N> Model for Term<N> {
    ghost use Rattle.geo_bracket.specs.declared.expressions.Bracket.{Bracket as Three};
    ghost use Rattle.geo_bracket.specs.Terms.{Product};

    ghost Value = { Product (Three N) };

    ghost view = { λ t. record { number = t.number; brackets = t.brackets.items } };
}

impl<N> Term<N> {
    /// The number times the product of the brackets.
    pub fn new(number: i64, brackets: Vec<Bracket<N>>) -> Term<N>
        ensures { result ≡ record { number = number; brackets = brackets.items } }
    {
        Term { number, brackets }
    }

    /// The number, with its sign.
    pub fn number(&self) -> i64
        ensures { result ≡ self.now.number }
    {
        self.number
    }

    /// The brackets, in their order.
    pub fn brackets(&self) -> &[Bracket<N>]
        ensures { result.now ≡ self.now.brackets }
    {
        &self.brackets
    }
}

/// An expression as it is read: the elements have names.
#[derive(Drop)]
pub struct SaidExpression {
    terms: Vec<Term<Name>>,
}

impl Model for SaidExpression {
    ghost use Rattle.std.specs.Prelude.{ℕ, List};
    ghost use Rattle.geo_bracket.specs.declared.expressions.Bracket.{Bracket as Three};
    ghost use Rattle.geo_bracket.specs.Terms.{IsSmall, Product};

    ghost Value = { List (Product (Three (List ℕ))) };

    ghost view = { λ e. e.terms.items };

    ghost invariant = { λ e. IsSmall e.terms.items };
}

impl SaidExpression {
    /// The sum of the terms.
    pub(crate) fn new(terms: Vec<Term<Name>>) -> SaidExpression
        requires { IsSmall terms.items }
        ensures { result ≡ terms.items }
    {
        SaidExpression { terms }
    }

    /// The terms, in their order.
    pub fn terms(&self) -> &[Term<Name>]
        ensures terms { result.now ≡ self.now }
        ensures small { IsSmall self.now }
    {
        &self.terms
    }
}

/// An expression about elements by their numbers.
#[derive(Drop)]
pub struct Expression {
    terms: Vec<Term<u32>>,
}

impl Model for Expression {
    ghost use Rattle.geo_bracket.specs.Expressions.{Terms};
    ghost use Rattle.geo_bracket.specs.Terms.{IsSmall};

    ghost Value = { Terms };

    ghost view = { λ e. e.terms.items };

    ghost invariant = { λ e. IsSmall e.terms.items };
}

impl Expression {
    /// The sum of the terms.
    pub(crate) fn new(terms: Vec<Term<u32>>) -> Expression
        requires { IsSmall terms.items }
        ensures { result ≡ terms.items }
    {
        Expression { terms }
    }

    /// The terms, in their order.
    pub fn terms(&self) -> &[Term<u32>]
        ensures terms { result.now ≡ self.now }
        ensures small { IsSmall self.now }
    {
        &self.terms
    }
}
