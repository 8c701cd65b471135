//! Uses of tools, and the lines that they give.

ghost use Rattle.std.specs.Prelude.{◌≡◌, ◌≤◌, ◌++◌, ◌∷◌, OnOk, length, map, option_map, slice_get};
ghost use Rattle.std.specs.List.{flat_map, join_with_byte, list_all};
ghost use Rattle.std.specs.Char.{is_ascii_alphanumeric};
ghost use Rattle.geo_parse.specs.WordsLeft.{words_left};
ghost use Rattle.geo_tool.specs.Asked.{asked_line, asked_lines, asked_word};
ghost use Rattle.geo_tool.specs.Uses.{changed_word, is_own_name, numbered_word, used_by};
ghost use Rattle.geo_parse.specs.declared.limits.TheConstants.{LINE_LIMIT};

use crate::expanded::Expanded;
use crate::tools::{Tool, find_tool, is_ordinary};
use geo_parse::{Words, split_words};
use geo_sketch::{Name, are_alphanumeric};
use std::alloc::{AllocError, Global};

/// A use of a tool: the body of the tool, the name that is put before the tool's own
/// names, and the further words.
#[derive(Clone, Copy, Drop)]
pub struct Use<'a> {
    body: &'a [Vec<u8>],
    prefix: &'a [u8],
    others: Words<'a>,
}

/// The use that the words ask for.
pub fn read_use<'a>(tools: &'a [Tool], words: Words<'a>) -> Option<Use<'a>>
    requires { length (words_left words) ≤ LINE_LIMIT }
    ensures { option_map asked_lines result ≡ used_by tools.now (words_left words.entry) }
{
    let mut left = words;
    if left.next()? != b"use".as_slice() {
        return None;
    }
    let tool = find_tool(tools, left.next()?)?;
    let prefix = left.next()?;
    Name::new(prefix)?;
    if left.count() != tool.arity {
        return None;
    }
    Some(Use {
        body: &tool.body,
        prefix,
        others: left,
    })
}

/// Appends the lines that a use gives.
pub fn put_use(alloc: Global, asked: &Use<'_>, out: &mut Expanded) -> Result<(), AllocError>
    ensures { OnOk result (out.new ≡ out.old ++ asked_lines asked.now) }
{
    for line in asked.body {
        let mut changed = Vec::new(alloc);
        put_line(line, asked, &mut changed)?;
        out.push(changed)?;
    }
    Ok(())
}

/// Appends what stands for a line of the body.
#[tactic(auto, unfolding(crate::specs::Uses::changed_line))]
fn put_line(line: &[u8], asked: &Use<'_>, out: &mut Vec<u8>) -> Result<(), AllocError>
    ensures { OnOk result (out.new.items ≡ out.old.items ++ asked_line asked.now line.now) }
{
    if is_ordinary(line) {
        out.extend_from_slice(line)?;
        Ok(())
    } else {
        put_words(split_words(line), asked, out)
    }
}

/// Appends what stands for each of the words, with one space between two.
fn put_words(words: Words<'_>, asked: &Use<'_>, out: &mut Vec<u8>) -> Result<(), AllocError>
    ensures { OnOk result (out.new.items
        ≡ out.old.items ++ join_with_byte 32 (map (asked_word asked.now) (words_left words.entry))) }
{
    let mut left = words;
    let Some(first) = left.next() else {
        return Ok(());
    };
    put_word(first, asked, out)?;
    put_others(left, asked, out)?;
    Ok(())
}

/// Appends what stands for each of the words, behind a space.
fn put_others(words: Words<'_>, asked: &Use<'_>, out: &mut Vec<u8>) -> Result<(), AllocError>
    ensures { OnOk result (out.new.items
        ≡ out.old.items ++ flat_map (λ word. 32 ∷ asked_word asked.now word) (words_left words.entry)) }
{
    let mut left = words;
    while let Some(word) = left.next() {
        out.push(b' ')?;
        put_word(word, asked, out)?;
    }
    Ok(())
}

/// Appends what stands for a word.
fn put_word(word: &[u8], asked: &Use<'_>, out: &mut Vec<u8>) -> Result<(), AllocError>
    ensures { OnOk result (out.new.items ≡ out.old.items ++ asked_word asked.now word.now) }
{
    let (front, back) = stand_in(word, asked.prefix, asked.others);
    out.extend_from_slice(front)?;
    out.extend_from_slice(back)?;
    Ok(())
}

/// What stands for a word, in two parts.
fn stand_in<'a>(word: &'a [u8], prefix: &'a [u8], others: Words<'a>) -> (&'a [u8], &'a [u8])
    ensures { result.0.now ++ result.1.now ≡ changed_word prefix.now (words_left others.entry) word.now }
{
    let [first, rest @ ..] = word else {
        return (word, b"");
    };
    if *first != b'$' {
        return (word, b"");
    }
    if is_own_name(rest) {
        return (prefix, rest);
    }
    match numbered_word(others, rest) {
        Some(other) => (other, b""),
        None => (word, b""),
    }
}

fn is_own_name(bytes: &[u8]) -> bool
    ensures { result ≡ is_own_name bytes.now }
{
    match bytes {
        [] => false,
        [first, rest @ ..] => first.is_ascii_alphabetic() && are_alphanumeric(rest),
    }
}

/// The further word that one digit numbers.
fn numbered_word<'a>(others: Words<'a>, bytes: &[u8]) -> Option<&'a [u8]>
    ensures { option_map (λ word. word.now) result ≡ numbered_word (words_left others.entry) bytes.now }
{
    match bytes {
        [d] if (b'1'..=b'9').contains(d) => nth_word(others, usize::from(*d - b'1')),
        _ => None,
    }
}

fn nth_word<'a>(words: Words<'a>, k: usize) -> Option<&'a [u8]>
    ensures { option_map (λ word. word.now) result ≡ slice_get (words_left words.entry) k }
{
    let mut left = words;
    left.nth(k)
}
