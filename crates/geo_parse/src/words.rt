//! The words of a line.

ghost use Rattle.std.specs.Prelude.{◌≡◌, ℕ, ◌<◌, ◌≤◌, [], ◌∷◌, true, false, length, slice_index, IfSome, IfNone};
ghost use Rattle.geo_parse.specs.Words.{is_blank, words};
ghost use Rattle.geo_parse.specs.WordsLeft.{words_left};

/// The words of a line that are still to come, each a part of the line.
#[derive(Clone, Copy, Drop)]
pub struct Words<'a> {
    rest: &'a [u8],
}

/// The words of a line, which spaces and tabs part.
pub fn split_words(line: &[u8]) -> Words<'_>
    ensures words { words_left result ≡ words line.now }
    ensures few { length (words line.now) ≤ length line.now }
{
    Words { rest: line }
}

impl<'a> Iterator for Words<'a> {
    ghost use Rattle.std.specs.Iterator.{YieldsFirstRef, item_count};
    ghost use Rattle.geo_parse.specs.WordsLeft.{words_left};

    type Item = &'a [u8];

    ghost next_gives = { YieldsFirstRef words_left };

    ghost remaining = { item_count words_left };

    fn next(&mut self) -> Option<&'a [u8]> {
        let (word, rest) = first_word(self.rest)?;
        self.rest = rest;
        Some(word)
    }
}

/// The first word, and the bytes behind it.
fn first_word(bytes: &[u8]) -> Option<(&[u8], &[u8])>
    ensures some { IfSome result (λ found. words bytes.now ≡ found.0.now ∷ words found.1.now) }
    ensures none { IfNone result (words bytes.now ≡ []) }
{
    let line = trimmed(bytes);
    let len = word_len(line);
    if len == 0 {
        None
    } else {
        Some(line.split_at(len))
    }
}

/// The bytes from the first that is not blank on.
fn trimmed(bytes: &[u8]) -> &[u8]
    ensures same { words result.now ≡ words bytes.now }
    ensures first { 0 < length result.now → is_blank (slice_index result.now 0) ≡ false }
{
    let mut rest = bytes;
    while let [first, others @ ..] = rest {
        if !is_blank(*first) {
            return rest;
        }
        rest = others;
    }
    rest
}

/// How many bytes stand before the first blank.
fn word_len(bytes: &[u8]) -> usize
    ensures within { result ≤ length bytes.now }
    ensures word { (k : ℕ) → k < result → is_blank (slice_index bytes.now k) ≡ false }
    ensures ends { result < length bytes.now → is_blank (slice_index bytes.now result) ≡ true }
{
    for (i, b) in bytes.iter().enumerate() {
        if is_blank(*b) {
            return i;
        }
    }
    bytes.len()
}

fn is_blank(b: u8) -> bool
    ensures { result ≡ is_blank b }
{
    b == b' ' || b == b'\t'
}
