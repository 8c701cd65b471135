//! The statements to be tried when an element comes.

ghost use Rattle.std.specs.Prelude.{◌≡◌, ◌≤◌, ◌++◌, IfOk, OnOk, drop, length, map, take};
ghost use Rattle.geo_sketch.specs.Tables.{place};
ghost use Rattle.geo_sketch.specs.declared.statements.Statement.TheVariants as statement;
ghost use Rattle.geo_guess.specs.Candidates.{ending_in, numbers, statements_after, triples_ending_in};

use geo_sketch::{Element, NoMemory, Statement, place_of};
use std::alloc::Global;

/// The statements that end in element n, or in one with a greater number.
pub(crate) fn statements_from(
    alloc: Global,
    elements: &[Element],
    n: u32,
) -> Result<Vec<Statement>, NoMemory>
    ensures { IfOk result (λ v. v.items ≡ statements_after (take (place elements.now n) (numbers elements.now)) (drop (place elements.now n) (numbers elements.now))) }
{
    let numbers = numbers_of(alloc, elements)?;
    statements_after_place(alloc, &numbers, place_of(elements, n))
}

fn numbers_of(alloc: Global, elements: &[Element]) -> Result<Vec<u32>, NoMemory>
    ensures { IfOk result (λ v. v.items ≡ numbers elements.now) }
{
    let mut numbers = Vec::new(alloc);
    for element in elements {
        if numbers.push(element.number).is_err() {
            return Err(NoMemory);
        }
    }
    Ok(numbers)
}

/// The statements that end in a number from this place on.
fn statements_after_place(
    alloc: Global,
    numbers: &[u32],
    start: usize,
) -> Result<Vec<Statement>, NoMemory>
    requires { start ≤ length numbers.now }
    ensures { IfOk result (λ v. v.items ≡ statements_after (take start numbers.now) (drop start numbers.now)) }
{
    let mut statements = Vec::new(alloc);
    for i in start..numbers.len() {
        push_ending_in(&mut statements, numbers[i], &numbers[..i])?;
    }
    Ok(statements)
}

fn push_ending_in(statements: &mut Vec<Statement>, n: u32, below: &[u32]) -> Result<(), NoMemory>
    ensures { OnOk result (statements.new.items ≡ statements.old.items ++ ending_in n below.now) }
{
    if statements.push(Statement::Null(n)).is_err() {
        return Err(NoMemory);
    }
    push_same(statements, n, below)?;
    push_on(statements, n, below)?;
    push_triples(statements, n, below)
}

fn push_same(statements: &mut Vec<Statement>, n: u32, below: &[u32]) -> Result<(), NoMemory>
    ensures { OnOk result (statements.new.items ≡ statements.old.items ++ map (λ k. statement.Same k n) below.now) }
{
    for k in below {
        if statements.push(Statement::Same(*k, n)).is_err() {
            return Err(NoMemory);
        }
    }
    Ok(())
}

fn push_on(statements: &mut Vec<Statement>, n: u32, below: &[u32]) -> Result<(), NoMemory>
    ensures { OnOk result (statements.new.items ≡ statements.old.items ++ map (λ k. statement.On k n) below.now) }
{
    for k in below {
        if statements.push(Statement::On(*k, n)).is_err() {
            return Err(NoMemory);
        }
    }
    Ok(())
}

fn push_triples(statements: &mut Vec<Statement>, n: u32, below: &[u32]) -> Result<(), NoMemory>
    ensures { OnOk result (statements.new.items ≡ statements.old.items ++ triples_ending_in n below.now) }
{
    for j in 0..below.len() {
        push_triples_from(statements, below[j], n, &below[j + 1..])?;
    }
    Ok(())
}

fn push_triples_from(
    statements: &mut Vec<Statement>,
    j: u32,
    n: u32,
    between: &[u32],
) -> Result<(), NoMemory>
    ensures { OnOk result (statements.new.items ≡ statements.old.items ++ map (λ k. statement.Triple j k n) between.now) }
{
    for k in between {
        if statements.push(Statement::Triple(j, *k, n)).is_err() {
            return Err(NoMemory);
        }
    }
    Ok(())
}
