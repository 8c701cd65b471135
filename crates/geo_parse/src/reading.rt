//! Commands read from words.

ghost use Rattle.std.specs.Prelude.{◌≡◌, ◌∷◌, Some, IfOk, IfErr};
ghost use Rattle.geo_parse.specs.Words.{texts};
ghost use Rattle.geo_parse.specs.CommandWords.{text_of_command};
ghost use Rattle.geo_parse.specs.Grammar.{FillAll, parts};
ghost use Rattle.geo_parse.specs.Refusals.{form_behind};
ghost use Rattle.geo_parse.specs.Readers.{misfit, refusal_by, refusal_of_words, word_of_free, word_of_fixed, word_of_cut, word_of_blend, word_of_cross};

use crate::command_words::CommandWord;
use crate::commands::Command;
use crate::operands::{
    name_and_three_values, name_and_two_values, name_and_value, no_operand, one_name, one_value,
    three_names, three_names_and_value, two_names_and_value,
};
use crate::statements::read_statement;
use geo_sketch::{Kind, Refusal, Setting, Spec};

/// Reads a command from its words.
pub fn read_command(words: &[&[u8]]) -> Result<Command, Refusal>
    ensures ok { IfOk result (λ c. FillAll (parts c) (texts words.now)) }
    ensures err { IfErr result (λ r. refusal_of_words (texts words.now) ≡ Some r) }
{
    match words {
        [] => Err(Refusal::Command),
        [first, operands @ ..] => match CommandWord::read(first) {
            Some(word) => read_operands(word, operands),
            None => Err(Refusal::Command),
        },
    }
}

fn read_operands(word: CommandWord, words: &[&[u8]]) -> Result<Command, Refusal>
    ensures ok { IfOk result (λ c. FillAll (parts c) (text_of_command word ∷ texts words.now)) }
    ensures err { IfErr result (λ r. refusal_by (form_behind word (texts words.now)) ≡ Some r) }
{
    match word {
        CommandWord::Point => free(Kind::Point, words),
        CommandWord::Line => free(Kind::Line, words),
        CommandWord::FixPoint => fixed(Kind::Point, words),
        CommandWord::FixLine => fixed(Kind::Line, words),
        CommandWord::On => cut(Kind::Point, words),
        CommandWord::Through => cut(Kind::Line, words),
        CommandWord::Along => blend(Kind::Point, words),
        CommandWord::Pencil => blend(Kind::Line, words),
        CommandWord::Join => cross(Kind::Line, words),
        CommandWord::Meet => cross(Kind::Point, words),
        CommandWord::Drag => drag(words),
        CommandWord::Drop => Ok(Command::Drop(one_name(words)?)),
        CommandWord::Claim => Ok(Command::Claim(read_statement(words)?)),
        CommandWord::Certify => Ok(Command::Certify(read_statement(words)?)),
        CommandWord::Dual => no_operand(words).map(|_| Command::Dual),
        CommandWord::Undo => no_operand(words).map(|_| Command::Undo),
        CommandWord::Redo => no_operand(words).map(|_| Command::Redo),
        CommandWord::Screen => no_operand(words).map(|_| Command::Screen),
        CommandWord::Conjectures => no_operand(words).map(|_| Command::Conjectures),
        CommandWord::Ledger => no_operand(words).map(|_| Command::Ledger),
        CommandWord::Svg => no_operand(words).map(|_| Command::Svg),
        CommandWord::Show => Ok(Command::Show(one_value(words)?)),
        CommandWord::Close => Ok(Command::Close(one_value(words)?)),
    }
}

fn free(kind: Kind, words: &[&[u8]]) -> Result<Command, Refusal>
    ensures ok { IfOk result
        (λ c. FillAll (parts c) (text_of_command (word_of_free kind) ∷ texts words.now)) }
    ensures err { IfErr result (λ r. misfit 1 2 (texts words.now) ≡ Some r) }
{
    let (name, x, y) = name_and_two_values(words)?;
    Ok(Command::Add(name, kind, Spec::Free(x, y)))
}

fn fixed(kind: Kind, words: &[&[u8]]) -> Result<Command, Refusal>
    ensures ok { IfOk result
        (λ c. FillAll (parts c) (text_of_command (word_of_fixed kind) ∷ texts words.now)) }
    ensures err { IfErr result (λ r. misfit 1 3 (texts words.now) ≡ Some r) }
{
    let (name, a, b, c) = name_and_three_values(words)?;
    Ok(Command::Add(name, kind, Spec::Fixed(a, b, c)))
}

fn cut(kind: Kind, words: &[&[u8]]) -> Result<Command, Refusal>
    ensures ok { IfOk result
        (λ c. FillAll (parts c) (text_of_command (word_of_cut kind) ∷ texts words.now)) }
    ensures err { IfErr result (λ r. misfit 2 1 (texts words.now) ≡ Some r) }
{
    let (name, other, t) = two_names_and_value(words)?;
    Ok(Command::Add(name, kind, Spec::Cut(other, t)))
}

fn blend(kind: Kind, words: &[&[u8]]) -> Result<Command, Refusal>
    ensures ok { IfOk result
        (λ c. FillAll (parts c) (text_of_command (word_of_blend kind) ∷ texts words.now)) }
    ensures err { IfErr result (λ r. misfit 3 1 (texts words.now) ≡ Some r) }
{
    let (name, first, second, t) = three_names_and_value(words)?;
    Ok(Command::Add(name, kind, Spec::Blend(first, second, t)))
}

fn cross(kind: Kind, words: &[&[u8]]) -> Result<Command, Refusal>
    ensures ok { IfOk result
        (λ c. FillAll (parts c) (text_of_command (word_of_cross kind) ∷ texts words.now)) }
    ensures err { IfErr result (λ r. misfit 3 0 (texts words.now) ≡ Some r) }
{
    let (name, first, second) = three_names(words)?;
    Ok(Command::Add(name, kind, Spec::Cross(first, second)))
}

fn drag(words: &[&[u8]]) -> Result<Command, Refusal>
    ensures ok { IfOk result
        (λ c. FillAll (parts c) (text_of_command CommandWord.Drag ∷ texts words.now)) }
    ensures err { IfErr result
        (λ r. refusal_by (form_behind CommandWord.Drag (texts words.now)) ≡ Some r) }
{
    if words.len() == 2 {
        let (name, x) = name_and_value(words)?;
        Ok(Command::Drag(name, Setting::One(x)))
    } else {
        let (name, x, y) = name_and_two_values(words)?;
        Ok(Command::Drag(name, Setting::Two(x, y)))
    }
}
