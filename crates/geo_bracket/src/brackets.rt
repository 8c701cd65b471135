//! Brackets, read from words.

ghost use Rattle.std.specs.Prelude.{◌≡◌, ◌∷◌, [], IfNone, IfOk, IfSome, option_map};
ghost use Rattle.std.specs.List.{position, slice_split};
ghost use Rattle.geo_sketch.specs.Names.{name_of};
ghost use Rattle.geo_parse.specs.Words.{texts};
ghost use Rattle.geo_bracket.specs.Grammar.{all_read, bracket_by, bracket_of, is_comma, three_named};

use crate::expressions::Bracket;
use geo_sketch::Name;
use std::alloc::{AllocError, Global};

/// Reads words as brackets, in their order; None where one of them is none.
pub(crate) fn read_brackets(
    alloc: Global,
    words: &[&[u8]],
) -> Result<Option<Vec<Bracket<Name>>>, AllocError>
    ensures { IfOk result (λ o. option_map (λ bs. bs.items) o ≡ all_read bracket_of (texts words.now)) }
{
    let mut brackets = Vec::new(alloc);
    for word in words {
        match read_bracket(word) {
            Some(bracket) => brackets.push(bracket)?,
            None => return Ok(None),
        }
    }
    Ok(Some(brackets))
}

/// Reads a word as a bracket.
#[tactic(auto, unfolding(crate::specs::Grammar::bracket_of))]
fn read_bracket(word: &[u8]) -> Option<Bracket<Name>>
    ensures { result ≡ bracket_of word.now }
{
    match word {
        [b'[', inside @ .., b']'] => read_three(inside),
        _ => None,
    }
}

/// Reads three names that commas part.
#[tactic(auto, using(crate::proofs::ReadLemmas::too_many))]
fn read_three(bytes: &[u8]) -> Option<Bracket<Name>>
    ensures { result ≡ three_named (slice_split is_comma bytes.now) }
{
    let (first, rest) = cut_at_comma(bytes)?;
    let (second, third) = cut_at_comma(rest)?;
    match cut_at_comma(third) {
        Some(_) => None,
        None => name_three(first, second, third),
    }
}

fn name_three(first: &[u8], second: &[u8], third: &[u8]) -> Option<Bracket<Name>>
    ensures { result ≡ bracket_by (name_of first.now) (name_of second.now) (name_of third.now) }
{
    Some(Bracket {
        first: Name::new(first)?,
        second: Name::new(second)?,
        third: Name::new(third)?,
    })
}

/// The bytes before the first comma, and those behind it.
fn cut_at_comma(bytes: &[u8]) -> Option<(&[u8], &[u8])>
    ensures some { IfSome result (λ cut. slice_split is_comma bytes.now ≡ cut.0.now ∷ slice_split is_comma cut.1.now) }
    ensures none { IfNone result (slice_split is_comma bytes.now ≡ bytes.now ∷ []) }
{
    match first_comma(bytes) {
        Some(place) => Some((&bytes[..place], &bytes[place + 1..])),
        None => None,
    }
}

/// Where the first comma stands.
fn first_comma(bytes: &[u8]) -> Option<usize>
    ensures { result ≡ position is_comma bytes.now }
{
    bytes.iter().position(|b| *b == b',')
}
