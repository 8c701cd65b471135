//! The words behind a command word, as names and numbers.

ghost use Rattle.std.specs.Prelude.{◌≡◌, ℕ, List, [], ◌∷◌, Some, None, true, false, length, IfOk, IfErr, FitsSigned};
ghost use Rattle.std.specs.Int.{w64};
ghost use Rattle.geo_sketch.specs.Names.{is_name};
ghost use Rattle.geo_parse.specs.Words.{texts};
ghost use Rattle.geo_parse.specs.Numbers.{number_of};
ghost use Rattle.geo_parse.specs.Grammar.{FillAll, Fills, name, number};
ghost use Rattle.geo_parse.specs.Readers.{misfit};

use crate::numbers::read_number;
use geo_sketch::{Name, Refusal};

pub fn read_name(word: &[u8]) -> Result<Name, Refusal>
    ensures ok { IfOk result (λ n. Fills (name n) word.now) }
    ensures err { IfErr result (λ r. (r ≡ Refusal.Name) × (is_name word.now ≡ false)) }
{
    match Name::new(word) {
        Some(name) => Ok(name),
        None => Err(Refusal::Name),
    }
}

pub fn read_value(word: &[u8]) -> Result<i64, Refusal>
    ensures ok { IfOk result (λ z. number_of word.now ≡ Some z) }
    ensures range { IfOk result (λ z. FitsSigned w64 z) }
    ensures err { IfErr result (λ r. (r ≡ Refusal.Number) × (number_of word.now ≡ None)) }
{
    match read_number(word) {
        Some(value) => Ok(value),
        None => Err(Refusal::Number),
    }
}

#[tactic(auto, unfolding(crate::specs::Readers::misfit))]
pub fn no_operand(words: &[&[u8]]) -> Result<(), Refusal>
    ensures ok { IfOk result (λ v. FillAll [] (texts words.now)) }
    ensures err { IfErr result (λ r. misfit 0 0 (texts words.now) ≡ Some r) }
{
    match words {
        [] => Ok(()),
        _ => Err(Refusal::Arity),
    }
}

#[tactic(auto, unfolding(crate::specs::Readers::misfit))]
pub fn one_name(words: &[&[u8]]) -> Result<Name, Refusal>
    ensures ok { IfOk result (λ v. FillAll (name v ∷ []) (texts words.now)) }
    ensures err { IfErr result (λ r. misfit 1 0 (texts words.now) ≡ Some r) }
{
    match words {
        [n] => Ok(read_name(n)?),
        _ => Err(Refusal::Arity),
    }
}

#[tactic(auto, unfolding(crate::specs::Readers::misfit))]
pub fn two_names(words: &[&[u8]]) -> Result<(Name, Name), Refusal>
    ensures ok { IfOk result (λ v. FillAll (name v.0 ∷ name v.1 ∷ []) (texts words.now)) }
    ensures err { IfErr result (λ r. misfit 2 0 (texts words.now) ≡ Some r) }
{
    match words {
        [n, m] => Ok((read_name(n)?, read_name(m)?)),
        _ => Err(Refusal::Arity),
    }
}

#[tactic(auto, unfolding(crate::specs::Readers::misfit))]
pub fn three_names(words: &[&[u8]]) -> Result<(Name, Name, Name), Refusal>
    ensures ok { IfOk result
        (λ v. FillAll (name v.0 ∷ name v.1 ∷ name v.2 ∷ []) (texts words.now)) }
    ensures err { IfErr result (λ r. misfit 3 0 (texts words.now) ≡ Some r) }
{
    match words {
        [n, m, k] => Ok((read_name(n)?, read_name(m)?, read_name(k)?)),
        _ => Err(Refusal::Arity),
    }
}

#[tactic(auto, unfolding(crate::specs::Readers::misfit))]
pub fn one_value(words: &[&[u8]]) -> Result<i64, Refusal>
    ensures ok { IfOk result (λ v. FillAll (number v ∷ []) (texts words.now)) }
    ensures range { IfOk result (λ v. FitsSigned w64 v) }
    ensures err { IfErr result (λ r. misfit 0 1 (texts words.now) ≡ Some r) }
{
    match words {
        [x] => Ok(read_value(x)?),
        _ => Err(Refusal::Arity),
    }
}

#[tactic(auto, unfolding(crate::specs::Readers::misfit))]
pub fn name_and_value(words: &[&[u8]]) -> Result<(Name, i64), Refusal>
    ensures ok { IfOk result (λ v. FillAll (name v.0 ∷ number v.1 ∷ []) (texts words.now)) }
    ensures range { IfOk result (λ v. FitsSigned w64 v.1) }
    ensures err { IfErr result (λ r. misfit 1 1 (texts words.now) ≡ Some r) }
{
    match words {
        [n, x] => Ok((read_name(n)?, read_value(x)?)),
        _ => Err(Refusal::Arity),
    }
}

#[tactic(auto, unfolding(crate::specs::Readers::misfit))]
pub fn name_and_two_values(words: &[&[u8]]) -> Result<(Name, i64, i64), Refusal>
    ensures ok { IfOk result
        (λ v. FillAll (name v.0 ∷ number v.1 ∷ number v.2 ∷ []) (texts words.now)) }
    ensures range { IfOk result (λ v. FitsSigned w64 v.1 × FitsSigned w64 v.2) }
    ensures err { IfErr result (λ r. misfit 1 2 (texts words.now) ≡ Some r) }
{
    match words {
        [n, x, y] => Ok((read_name(n)?, read_value(x)?, read_value(y)?)),
        _ => Err(Refusal::Arity),
    }
}

#[tactic(auto, unfolding(crate::specs::Readers::misfit))]
pub fn name_and_three_values(words: &[&[u8]]) -> Result<(Name, i64, i64, i64), Refusal>
    ensures ok { IfOk result
        (λ v. FillAll (name v.0 ∷ number v.1 ∷ number v.2 ∷ number v.3 ∷ []) (texts words.now)) }
    ensures range { IfOk result
        (λ v. FitsSigned w64 v.1 × FitsSigned w64 v.2 × FitsSigned w64 v.3) }
    ensures err { IfErr result (λ r. misfit 1 3 (texts words.now) ≡ Some r) }
{
    match words {
        [n, a, b, c] => Ok((
            read_name(n)?,
            read_value(a)?,
            read_value(b)?,
            read_value(c)?,
        )),
        _ => Err(Refusal::Arity),
    }
}

#[tactic(auto, unfolding(crate::specs::Readers::misfit))]
pub fn two_names_and_value(words: &[&[u8]]) -> Result<(Name, Name, i64), Refusal>
    ensures ok { IfOk result
        (λ v. FillAll (name v.0 ∷ name v.1 ∷ number v.2 ∷ []) (texts words.now)) }
    ensures range { IfOk result (λ v. FitsSigned w64 v.2) }
    ensures err { IfErr result (λ r. misfit 2 1 (texts words.now) ≡ Some r) }
{
    match words {
        [n, m, t] => Ok((read_name(n)?, read_name(m)?, read_value(t)?)),
        _ => Err(Refusal::Arity),
    }
}

#[tactic(auto, unfolding(crate::specs::Readers::misfit))]
pub fn three_names_and_value(words: &[&[u8]]) -> Result<(Name, Name, Name, i64), Refusal>
    ensures ok { IfOk result
        (λ v. FillAll (name v.0 ∷ name v.1 ∷ name v.2 ∷ number v.3 ∷ []) (texts words.now)) }
    ensures range { IfOk result (λ v. FitsSigned w64 v.3) }
    ensures err { IfErr result (λ r. misfit 3 1 (texts words.now) ≡ Some r) }
{
    match words {
        [n, m, k, t] => Ok((read_name(n)?, read_name(m)?, read_name(k)?, read_value(t)?)),
        _ => Err(Refusal::Arity),
    }
}
