//! Statements read from words.

ghost use Rattle.std.specs.Prelude.{◌≡◌, ◌∷◌, Some, IfOk, IfErr};
ghost use Rattle.geo_parse.specs.Words.{texts};
ghost use Rattle.geo_parse.specs.Grammar.{FillAll, statement_parts};
ghost use Rattle.geo_parse.specs.CommandWords.{text_of_statement};
ghost use Rattle.geo_parse.specs.Refusals.{form_of_statement, names_in};
ghost use Rattle.geo_parse.specs.Readers.{misfit, refusal_by};

use crate::command_words::StatementWord;
use crate::operands::{one_name, three_names, two_names};
use geo_sketch::{Refusal, Said};

/// Reads what stands behind `claim` or `certify`.
#[tactic(auto, unfolding(crate::specs::Readers::misfit))]
pub fn read_statement(words: &[&[u8]]) -> Result<Said, Refusal>
    ensures ok { IfOk result (λ s. FillAll (statement_parts s) (texts words.now)) }
    ensures err { IfErr result (λ r. refusal_by (form_of_statement (texts words.now)) ≡ Some r) }
{
    match words {
        [] => Err(Refusal::Arity),
        [first, names @ ..] => match StatementWord::read(first) {
            Some(word) => said_of(word, names),
            None => Err(Refusal::Command),
        },
    }
}

fn said_of(word: StatementWord, names: &[&[u8]]) -> Result<Said, Refusal>
    ensures ok { IfOk result
        (λ s. FillAll (statement_parts s) (text_of_statement word ∷ texts names.now)) }
    ensures err { IfErr result (λ r. misfit (names_in word) 0 (texts names.now) ≡ Some r) }
{
    match word {
        StatementWord::Null => Ok(Said::Null(one_name(names)?)),
        StatementWord::Same => {
            let (n, m) = two_names(names)?;
            Ok(Said::Same(n, m))
        }
        StatementWord::On => {
            let (n, m) = two_names(names)?;
            Ok(Said::On(n, m))
        }
        StatementWord::Collinear => {
            let (n, m, k) = three_names(names)?;
            Ok(Said::Collinear(n, m, k))
        }
        StatementWord::Concurrent => {
            let (n, m, k) = three_names(names)?;
            Ok(Said::Concurrent(n, m, k))
        }
    }
}
