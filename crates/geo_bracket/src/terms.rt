//! Terms, read from the words between signs.

ghost use Rattle.std.specs.Prelude.{◌≡◌, ◌≤◌, IfOk, length, option_map};
ghost use Rattle.std.specs.List.{position_or_len};
ghost use Rattle.geo_parse.specs.Words.{texts};
ghost use Rattle.geo_bracket.specs.Grammar.{brackets_of, is_minus, is_sign, signed_number, term_of, terms_between, terms_of};

use crate::brackets::read_brackets;
use crate::expressions::Term;
use crate::limits::FACTOR_LIMIT;
use geo_parse::read_natural;
use geo_sketch::Name;
use std::alloc::{AllocError, Global};

/// Reads the terms of an expression, of which the first may have a sign; None where one of them
/// is none.
pub(crate) fn read_terms(
    alloc: Global,
    words: &[&[u8]],
) -> Result<Option<Vec<Term<Name>>>, AllocError>
    ensures { IfOk result (λ o. option_map (λ ts. ts.items) o ≡ terms_of (texts words.now)) }
{
    match words {
        [] => Ok(None),
        [first, others @ ..] => {
            if is_minus(first) {
                read_signed(alloc, true, others)
            } else {
                read_signed(alloc, false, words)
            }
        }
    }
}

/// Reads the terms that signs part, the first one behind `-` where `minus` says so.
fn read_signed(
    alloc: Global,
    minus: bool,
    words: &[&[u8]],
) -> Result<Option<Vec<Term<Name>>>, AllocError>
    ensures { IfOk result (λ o. option_map (λ ts. ts.items) o ≡ terms_between minus (texts words.now)) }
{
    let mut terms = Vec::new(alloc);
    let mut negative = minus;
    let mut rest = words;
    let mut end = count_before_sign(rest);
    while let Some(sign) = rest.get(end) {
        match read_term(alloc, negative, &rest[..end])? {
            Some(term) => terms.push(term)?,
            None => return Ok(None),
        }
        negative = is_minus(sign);
        rest = &rest[end + 1..];
        end = count_before_sign(rest);
    }
    match read_term(alloc, negative, rest)? {
        Some(term) => terms.push(term)?,
        None => return Ok(None),
    }
    Ok(Some(terms))
}

/// How many words stand before the first sign.
fn count_before_sign(words: &[&[u8]]) -> usize
    ensures count { result ≡ position_or_len is_sign (texts words.now) }
    ensures within { result ≤ length words.now }
{
    for (i, word) in words.iter().enumerate() {
        if is_sign(word) {
            return i;
        }
    }
    words.len()
}

/// Reads a number or none, and then brackets.
fn read_term(alloc: Global, minus: bool, words: &[&[u8]]) -> Result<Option<Term<Name>>, AllocError>
    ensures { IfOk result (λ o. o ≡ term_of minus (texts words.now)) }
{
    let [first, others @ ..] = words else {
        return Ok(None);
    };
    match read_natural(first) {
        Some(n) => read_product(alloc, signed_number(minus, n), others),
        None => read_product(alloc, signed_number(minus, 1), words),
    }
}

fn signed_number(minus: bool, n: u16) -> i64
    ensures { result ≡ signed_number minus n }
{
    if minus { -i64::from(n) } else { i64::from(n) }
}

/// Reads one to eight brackets, for the product of the number with them.
fn read_product(
    alloc: Global,
    number: i64,
    words: &[&[u8]],
) -> Result<Option<Term<Name>>, AllocError>
    ensures { IfOk result (λ o. o ≡ brackets_of number (texts words.now)) }
{
    if !(1..=FACTOR_LIMIT).contains(&words.len()) {
        return Ok(None);
    }
    match read_brackets(alloc, words)? {
        Some(brackets) => Ok(Some(Term::new(number, brackets))),
        None => Ok(None),
    }
}

#[tactic(auto, unfolding(crate::specs::Grammar::is_sign))]
fn is_sign(word: &[u8]) -> bool
    ensures { result ≡ is_sign word.now }
{
    word == b"+".as_slice() || word == b"-".as_slice()
}

#[tactic(auto, unfolding(crate::specs::Grammar::is_minus))]
fn is_minus(word: &[u8]) -> bool
    ensures { result ≡ is_minus word.now }
{
    word == b"-".as_slice()
}
