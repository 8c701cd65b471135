//! The words of a certificate.

ghost use Rattle.std.specs.Prelude.{◌≡◌};
ghost use Rattle.geo_cert.specs.Words.{claim_word_of, def_word_of, kind_word_of};

use geo_sketch::Kind;

/// What a definition is.
#[derive(Clone, Copy)]
pub enum DefWord {
    Free,
    Fixed,
    Cut,
    Blend,
    Cross,
}

/// What a claim says.
#[derive(Clone, Copy)]
pub enum ClaimWord {
    Null,
    Same,
    On,
    Triple,
}

/// The kind that a word is for.
#[tactic(auto, unfolding(crate::specs::Words::kind_word_of))]
pub fn kind_of(word: &str) -> Option<Kind>
    ensures { result ≡ kind_word_of word.now }
{
    if word == "point" {
        Some(Kind::Point)
    } else if word == "line" {
        Some(Kind::Line)
    } else {
        None
    }
}

/// The kind of definition that a word is for.
#[tactic(auto, unfolding(crate::specs::Words::def_word_of))]
pub fn def_word(word: &str) -> Option<DefWord>
    ensures { result ≡ def_word_of word.now }
{
    if word == "free" {
        Some(DefWord::Free)
    } else if word == "fixed" {
        Some(DefWord::Fixed)
    } else if word == "cut" {
        Some(DefWord::Cut)
    } else if word == "blend" {
        Some(DefWord::Blend)
    } else if word == "cross" {
        Some(DefWord::Cross)
    } else {
        None
    }
}

/// The kind of claim that a word is for.
#[tactic(auto, unfolding(crate::specs::Words::claim_word_of))]
pub fn claim_word(word: &str) -> Option<ClaimWord>
    ensures { result ≡ claim_word_of word.now }
{
    if word == "null" {
        Some(ClaimWord::Null)
    } else if word == "same" {
        Some(ClaimWord::Same)
    } else if word == "on" {
        Some(ClaimWord::On)
    } else if word == "triple" {
        Some(ClaimWord::Triple)
    } else {
        None
    }
}
