//! Expressions, asked of a sketch.

ghost use Rattle.std.specs.Prelude.{◌≡◌, IfOk, Err, Ok, option_map};
ghost use Rattle.std.specs.List.{list_all};
ghost use Rattle.geo_sketch.specs.declared.changes.Refusal.{Refusal as RefusalWord};
ghost use Rattle.geo_sketch.specs.Lookups.{IsLive};
ghost use Rattle.geo_bracket.specs.Expressions.{IsPosedExpression};
ghost use Rattle.geo_bracket.specs.Grammar.{all_read};
ghost use Rattle.geo_bracket.specs.Resolving.{are_of_one_kind, is_of_one_kind, judged, numbers_of, numbers_of_bracket, numbers_of_term, resolved};
ghost use Rattle.geo_bracket.specs.Terms.{AtEach};

use crate::expressions::{Bracket, Expression, SaidExpression, Term};
use crate::heights::is_great;
use geo_sketch::{Element, Name, Refusal, Sketch, Stop, find_by_number};
use std::alloc::{AllocError, Global};

impl SaidExpression {
    /// The expression about the elements that have these names. Refused as unknown where no
    /// element has a name, as kind where the three elements of a bracket are not of one kind, as
    /// great where its height with all magnitudes 3 is greater than 2^126; the first that applies.
    pub fn resolve(&self, alloc: Global, sketch: &Sketch) -> Result<Expression, Stop>
        ensures resolved { IfOk result (λ e. resolved sketch.now.elements self.now ≡ Ok e) }
        ensures posed { IfOk result (IsPosedExpression sketch.now.elements) }
        ensures refused { (r : RefusalWord) → result ≡ Err (Stop.Refused r) → resolved sketch.now.elements self.now ≡ Err r }
    {
        let elements = sketch.elements();
        match number_terms(alloc, sketch, self.terms()) {
            Ok(Some(terms)) => match judge(sketch, elements, Expression::new(terms)) {
                Ok(expression) => Ok(expression),
                Err(refusal) => Err(Stop::Refused(refusal)),
            },
            Ok(None) => Err(Stop::Refused(Refusal::Unknown)),
            Err(AllocError) => Err(Stop::NoMemory),
        }
    }
}

/// The expression, unless kinds differ in a bracket or it is great.
fn judge(
    sketch: &Sketch,
    elements: &[Element],
    expression: Expression,
) -> Result<Expression, Refusal>
    requires elements { elements.now ≡ sketch.now.elements }
    requires live { AtEach (IsLive sketch.now.elements) expression }
    ensures { result ≡ judged sketch.now.elements expression }
{
    if !are_of_one_kind(elements, expression.terms()) {
        return Err(Refusal::Kind);
    }
    if is_great(sketch, &expression) {
        return Err(Refusal::Great);
    }
    Ok(expression)
}

fn are_of_one_kind(elements: &[Element], terms: &[Term<u32>]) -> bool
    ensures { result ≡ are_of_one_kind elements.now terms.now }
{
    for term in terms {
        if !are_all_of_one_kind(elements, term.brackets()) {
            return false;
        }
    }
    true
}

fn are_all_of_one_kind(elements: &[Element], brackets: &[Bracket<u32>]) -> bool
    ensures { result ≡ list_all (is_of_one_kind elements.now) brackets.now }
{
    for bracket in brackets {
        if !is_of_one_kind(elements, bracket) {
            return false;
        }
    }
    true
}

fn is_of_one_kind(elements: &[Element], bracket: &Bracket<u32>) -> bool
    ensures { result ≡ is_of_one_kind elements.now bracket.now }
{
    match (
        find_by_number(elements, bracket.first),
        find_by_number(elements, bracket.second),
        find_by_number(elements, bracket.third),
    ) {
        (Some(first), Some(second), Some(third)) => {
            second.kind == first.kind && third.kind == first.kind
        }
        _ => false,
    }
}

/// The terms with numbers for names; None where a name is unknown.
fn number_terms(
    alloc: Global,
    sketch: &Sketch,
    terms: &[Term<Name>],
) -> Result<Option<Vec<Term<u32>>>, AllocError>
    ensures { IfOk result (λ o. option_map (λ ts. ts.items) o ≡ numbers_of sketch.now.elements terms.now) }
{
    let mut numbered = Vec::new(alloc);
    for term in terms {
        match number_term(alloc, sketch, term)? {
            Some(found) => numbered.push(found)?,
            None => return Ok(None),
        }
    }
    Ok(Some(numbered))
}

fn number_term(
    alloc: Global,
    sketch: &Sketch,
    term: &Term<Name>,
) -> Result<Option<Term<u32>>, AllocError>
    ensures { IfOk result (λ o. o ≡ numbers_of_term sketch.now.elements term.now) }
{
    match number_brackets(alloc, sketch, term.brackets())? {
        Some(brackets) => Ok(Some(Term::new(term.number(), brackets))),
        None => Ok(None),
    }
}

fn number_brackets(
    alloc: Global,
    sketch: &Sketch,
    brackets: &[Bracket<Name>],
) -> Result<Option<Vec<Bracket<u32>>>, AllocError>
    ensures { IfOk result (λ o. option_map (λ bs. bs.items) o ≡ all_read (numbers_of_bracket sketch.now.elements) brackets.now) }
{
    let mut numbered = Vec::new(alloc);
    for bracket in brackets {
        match number_bracket(sketch, bracket) {
            Some(found) => numbered.push(found)?,
            None => return Ok(None),
        }
    }
    Ok(Some(numbered))
}

fn number_bracket(sketch: &Sketch, bracket: &Bracket<Name>) -> Option<Bracket<u32>>
    ensures { result ≡ numbers_of_bracket sketch.now.elements bracket.now }
{
    match (
        sketch.find(bracket.first),
        sketch.find(bracket.second),
        sketch.find(bracket.third),
    ) {
        (Some(first), Some(second), Some(third)) => Some(Bracket {
            first,
            second,
            third,
        }),
        _ => None,
    }
}
