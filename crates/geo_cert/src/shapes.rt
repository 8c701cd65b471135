//! The rows of a certificate: an element, a claim, a degree, a value, and values of a grid.

ghost use Rattle.std.specs.Prelude.{◌≡◌, option_map};
ghost use Rattle.serde_json.specs.View.{items_view};
ghost use Rattle.geo_cert.specs.Entries.{rows_shown};
ghost use Rattle.geo_cert.specs.Reading.{claim_in, def_in, degree_in, element_in, grid_rows_in, pair_degree_in, pair_rows_in, said_def_in, statement_in, value_in};

use crate::degree_lists::DegreeEntry;
use crate::rows::{at_end, next_count, next_row, next_whole, next_word};
use crate::words::{ClaimWord, DefWord, claim_word, def_word, kind_of};
use geo_sketch::{Def, Kind, Statement};
use serde_json::Value;

/// The values of an entry of a grid, before they are read as numbers.
#[derive(Clone, Copy, Drop)]
pub enum GridRows<'a> {
    One(u32, &'a [Value]),
    Pair(u32, u32, &'a [Value], &'a [Value]),
}

/// An element: its number, its kind and its definition.
pub fn element_of(values: &[Value]) -> Option<(u32, Kind, Def)>
    ensures { result ≡ element_in (items_view values.now) }
{
    let (number, rest) = next_count(values)?;
    let (kind, rest) = next_word(rest)?;
    let kind = kind_of(kind)?;
    let def = said_def_of(rest)?;
    Some((number, kind, def))
}

/// A definition, behind the word for it.
fn said_def_of(values: &[Value]) -> Option<Def>
    ensures { result ≡ said_def_in (items_view values.now) }
{
    let (word, rest) = next_word(values)?;
    let word = def_word(word)?;
    def_of(word, rest)
}

fn def_of(word: DefWord, values: &[Value]) -> Option<Def>
    ensures { result ≡ def_in word (items_view values.now) }
{
    match word {
        DefWord::Free => at_end(Def::Free, values),
        DefWord::Fixed => {
            let (a, rest) = next_whole(values)?;
            let (b, rest) = next_whole(rest)?;
            let (c, rest) = next_whole(rest)?;
            at_end(Def::Fixed(a, b, c), rest)
        }
        DefWord::Cut => {
            let (k, rest) = next_count(values)?;
            at_end(Def::Cut(k), rest)
        }
        DefWord::Blend => {
            let (k, rest) = next_count(values)?;
            let (m, rest) = next_count(rest)?;
            at_end(Def::Blend(k, m), rest)
        }
        DefWord::Cross => {
            let (k, rest) = next_count(values)?;
            let (m, rest) = next_count(rest)?;
            at_end(Def::Cross(k, m), rest)
        }
    }
}

/// A claim, behind the word for it.
pub fn claim_of(values: &[Value]) -> Option<Statement>
    ensures { result ≡ claim_in (items_view values.now) }
{
    let (word, rest) = next_word(values)?;
    let word = claim_word(word)?;
    statement_of(word, rest)
}

fn statement_of(word: ClaimWord, values: &[Value]) -> Option<Statement>
    ensures { result ≡ statement_in word (items_view values.now) }
{
    let (n, rest) = next_count(values)?;
    if let ClaimWord::Null = word {
        return at_end(Statement::Null(n), rest);
    }
    let (m, rest) = next_count(rest)?;
    match word {
        ClaimWord::Null | ClaimWord::Same => at_end(Statement::Same(n, m), rest),
        ClaimWord::On => at_end(Statement::On(n, m), rest),
        ClaimWord::Triple => {
            let (k, rest) = next_count(rest)?;
            at_end(Statement::Triple(n, m, k), rest)
        }
    }
}

/// A degree: one parameter or two, and a whole number.
pub fn degree_of(values: &[Value]) -> Option<DegreeEntry>
    ensures { result ≡ degree_in (items_view values.now) }
{
    let (p, behind) = next_count(values)?;
    let (degree, rest) = next_whole(behind)?;
    match rest.split_first() {
        None => Some(DegreeEntry::One(p, degree)),
        Some(_) => pair_degree_of(p, behind),
    }
}

fn pair_degree_of(p: u32, values: &[Value]) -> Option<DegreeEntry>
    ensures { result ≡ pair_degree_in p (items_view values.now) }
{
    let (q, rest) = next_count(values)?;
    let (degree, rest) = next_whole(rest)?;
    at_end(DegreeEntry::Pair(p, q, degree), rest)
}

/// A parameter with its value.
pub fn value_of(values: &[Value]) -> Option<(u32, i64)>
    ensures { result ≡ value_in (items_view values.now) }
{
    let (param, rest) = next_count(values)?;
    let (value, rest) = next_whole(rest)?;
    at_end((param, value), rest)
}

/// One parameter or two, each with a row of values.
pub fn grid_rows_of(values: &[Value]) -> Option<GridRows<'_>>
    ensures { option_map rows_shown result ≡ grid_rows_in (items_view values.now) }
{
    let (p, behind) = next_count(values)?;
    match next_row(behind) {
        Some((row, rest)) => match rest.split_first() {
            None => Some(GridRows::One(p, row)),
            Some(_) => None,
        },
        None => pair_rows_of(p, behind),
    }
}

fn pair_rows_of(p: u32, values: &[Value]) -> Option<GridRows<'_>>
    ensures { option_map rows_shown result ≡ pair_rows_in p (items_view values.now) }
{
    let (q, rest) = next_count(values)?;
    let (first, rest) = next_row(rest)?;
    let (second, rest) = next_row(rest)?;
    match rest.split_first() {
        None => Some(GridRows::Pair(p, q, first, second)),
        Some(_) => None,
    }
}
