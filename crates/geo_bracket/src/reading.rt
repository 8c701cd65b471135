//! Expressions read from lines.

ghost use Rattle.std.specs.Prelude.{◌≡◌, IfOk, Err, Ok};
ghost use Rattle.geo_sketch.specs.declared.changes.Refusal.{Refusal as RefusalWord};
ghost use Rattle.geo_parse.specs.Words.{texts};
ghost use Rattle.geo_parse.specs.WordsLeft.{words_left};
ghost use Rattle.geo_bracket.specs.Grammar.{said_by, said_of};

use crate::expressions::SaidExpression;
use crate::limits::TERM_LIMIT;
use crate::terms::read_terms;
use geo_parse::{Words, split_words};
use geo_sketch::{Refusal, Stop};
use std::alloc::{AllocError, Global};

/// Reads an expression from the words of a line behind the first one, which is not looked at.
/// Refused as arity where there is no second word, as shape where the words are no expression.
pub fn read_expression(alloc: Global, line: &[u8]) -> Result<SaidExpression, Stop>
    ensures said { IfOk result (λ e. said_of line.now ≡ Ok e) }
    ensures refused { (r : RefusalWord) → result ≡ Err (Stop.Refused r) → said_of line.now ≡ Err r }
{
    let mut left = split_words(line);
    left.next();
    match gather(alloc, left) {
        Ok(words) => read_words(alloc, &words),
        Err(AllocError) => Err(Stop::NoMemory),
    }
}

/// The words that are left.
fn gather(alloc: Global, words: Words<'_>) -> Result<Vec<&[u8]>, AllocError>
    ensures { IfOk result (λ found. texts found.items ≡ words_left words.entry) }
{
    let mut found = Vec::new(alloc);
    for word in words {
        found.push(word)?;
    }
    Ok(found)
}

/// Reads an expression from its words.
fn read_words(alloc: Global, words: &[&[u8]]) -> Result<SaidExpression, Stop>
    ensures said { IfOk result (λ e. said_by (texts words.now) ≡ Ok e) }
    ensures refused { (r : RefusalWord) → result ≡ Err (Stop.Refused r) → said_by (texts words.now) ≡ Err r }
{
    if words.is_empty() {
        return Err(Stop::Refused(Refusal::Arity));
    }
    match read_terms(alloc, words) {
        Ok(Some(terms)) if terms.len() <= TERM_LIMIT => Ok(SaidExpression::new(terms)),
        Ok(_) => Err(Stop::Refused(Refusal::Shape)),
        Err(AllocError) => Err(Stop::NoMemory),
    }
}
