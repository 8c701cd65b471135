//! Steps read from lines.

ghost use Rattle.std.specs.Prelude.{◌≡◌};
ghost use Rattle.geo_sketch.specs.Names.{name_of};
ghost use Rattle.geo_parse.specs.WordsLeft.{words_left};
ghost use Rattle.geo_infer.specs.Words.{four_said, named_step, step_of, three_said};

use crate::rules::{Rule, SaidStep};
use geo_parse::{Words, split_words};
use geo_sketch::{Name, Refusal};

/// Reads a step from the words of a line behind the first one, which is not looked at. Refused
/// as command where a second word is no rule's, as arity for a wrong count of words, as name
/// where a word is no name.
pub fn read_step(line: &[u8]) -> Result<SaidStep, Refusal>
    ensures { result ≡ step_of line.now }
{
    let mut left = split_words(line);
    left.next();
    let Some(word) = left.next() else {
        return Err(Refusal::Arity);
    };
    match Rule::read(word) {
        Some(rule) => read_names(rule, left),
        None => Err(Refusal::Command),
    }
}

/// Reads the names behind the word of a rule.
fn read_names(rule: Rule, words: Words<'_>) -> Result<SaidStep, Refusal>
    ensures { result ≡ named_step rule (words_left words.entry) }
{
    let mut left = words;
    let (Some(a), Some(b), Some(c)) = (left.next(), left.next(), left.next()) else {
        return Err(Refusal::Arity);
    };
    let fourth = left.next();
    if left.next().is_some() {
        return Err(Refusal::Arity);
    }
    match fourth {
        Some(d) if rule.names_four() => say_four(rule, a, b, c, d),
        None if !rule.names_four() => say_three(rule, a, b, c),
        _ => Err(Refusal::Arity),
    }
}

fn say_three(rule: Rule, a: &[u8], b: &[u8], c: &[u8]) -> Result<SaidStep, Refusal>
    ensures { result ≡ three_said rule (name_of a.now) (name_of b.now) (name_of c.now) }
{
    match (Name::new(a), Name::new(b), Name::new(c)) {
        (Some(a), Some(b), Some(c)) => Ok(SaidStep {
            rule,
            a,
            b,
            c,
            d: None,
        }),
        _ => Err(Refusal::Name),
    }
}

fn say_four(rule: Rule, a: &[u8], b: &[u8], c: &[u8], d: &[u8]) -> Result<SaidStep, Refusal>
    ensures { result ≡ four_said rule (name_of a.now) (name_of b.now) (name_of c.now) (name_of d.now) }
{
    match (Name::new(a), Name::new(b), Name::new(c), Name::new(d)) {
        (Some(a), Some(b), Some(c), Some(d)) => Ok(SaidStep {
            rule,
            a,
            b,
            c,
            d: Some(d),
        }),
        _ => Err(Refusal::Name),
    }
}
