//! The elements that an expression names, and the places of their triples in a plan.

ghost use Rattle.std.specs.Prelude.{◌≡◌, ◌++◌, All, Contains, IfOk, OnOk};
ghost use Rattle.std.specs.List.{AllZip};
ghost use Rattle.geo_bracket.specs.Posing.{IsPlacedBracket, IsPlacedTerm, named_in, named_in_product};
ghost use Rattle.geo_bracket.specs.Terms.{AtBracket, AtEach, AtProduct};

use crate::expressions::{Bracket, Term};
use geo_grid::Plan;
use geo_sketch::NoMemory;
use std::alloc::{AllocError, Global};

/// The numbers of the elements at all places, in their order.
pub(crate) fn name_elements(alloc: Global, terms: &[Term<u32>]) -> Result<Vec<u32>, NoMemory>
    ensures { IfOk result (λ named. named.items ≡ named_in terms.now) }
{
    let mut named = Vec::new(alloc);
    for term in terms {
        if add_names(term.brackets(), &mut named).is_err() {
            return Err(NoMemory);
        }
    }
    Ok(named)
}

fn add_names(brackets: &[Bracket<u32>], named: &mut Vec<u32>) -> Result<(), AllocError>
    ensures { OnOk result (named.new.items ≡ named.old.items ++ named_in_product brackets.now) }
{
    for bracket in brackets {
        named.push(bracket.first)?;
        named.push(bracket.second)?;
        named.push(bracket.third)?;
    }
    Ok(())
}

/// The terms by the places of the triples of their elements, which the plan names.
pub(crate) fn place_terms(
    alloc: Global,
    plan: &Plan,
    terms: &[Term<u32>],
) -> Result<Vec<Term<usize>>, NoMemory>
    requires { AtEach (Contains plan.now.named) terms.now }
    ensures { IfOk result (λ placed. AllZip (IsPlacedTerm plan.now) terms.now placed.items) }
{
    let mut placed = Vec::new(alloc);
    for term in terms {
        let brackets = place_brackets(alloc, plan, term.brackets())?;
        let Ok(()) = placed.push(Term::new(term.number(), brackets)) else {
            return Err(NoMemory);
        };
    }
    Ok(placed)
}

fn place_brackets(
    alloc: Global,
    plan: &Plan,
    brackets: &[Bracket<u32>],
) -> Result<Vec<Bracket<usize>>, NoMemory>
    requires { AtProduct (Contains plan.now.named) brackets.now }
    ensures { IfOk result (λ placed. AllZip (IsPlacedBracket plan.now) brackets.now placed.items) }
{
    let mut placed = Vec::new(alloc);
    for bracket in brackets {
        let Ok(()) = placed.push(place_bracket(plan, bracket)) else {
            return Err(NoMemory);
        };
    }
    Ok(placed)
}

fn place_bracket(plan: &Plan, bracket: &Bracket<u32>) -> Bracket<usize>
    requires { AtBracket (Contains plan.now.named) bracket.now }
    ensures { IsPlacedBracket plan.now bracket.now result }
{
    Bracket {
        first: plan.place(bracket.first),
        second: plan.place(bracket.second),
        third: plan.place(bracket.third),
    }
}
