//! Tools, and the lines that define them.

ghost use Rattle.std.specs.Prelude.{◌≡◌, ◌≤◌, OnOk, length, option_map};
ghost use Rattle.geo_parse.specs.WordsLeft.{words_left};
ghost use Rattle.geo_parse.specs.Grammar.{is_plain};
ghost use Rattle.std.specs.List.{list_all};
ghost use Rattle.geo_tool.specs.Tools.{arity_of, is_end, is_ordinary, opened_by, telling_words, tool_named};
ghost use Rattle.geo_tool.specs.Expansion.{with_line};
ghost use Rattle.geo_parse.specs.declared.limits.TheConstants.{LINE_LIMIT};

use crate::limits::TOOL_LIMIT;
use geo_parse::{LINE_LIMIT, Words, are_plain, split_words};
use geo_sketch::Name;
use std::alloc::{AllocError, Global};
use std::marker::Model;

/// A tool: its name, how many further words a use of it has, and the lines of its body.
#[derive(Drop)]
pub struct Tool {
    name: Name,
    pub arity: usize,
    pub body: Vec<Vec<u8>>,
}

impl Model for Tool {
    ghost use Rattle.std.specs.Prelude.{map};
    ghost use Rattle.geo_tool.specs.Tools.{Definition};

    ghost Value = { Definition };

    ghost view = { λ t. record { name = t.name; arity = t.arity; body = map (λ line. line.items) t.body.items } };
}

impl Tool {
    /// How many lines the body has.
    pub fn line_count(&self) -> usize
        ensures { result ≡ length self.now.body }
    {
        self.body.len()
    }

    /// Adds a line at the end of the body.
    pub fn push(&mut self, line: Vec<u8>) -> Result<(), AllocError>
        ensures { OnOk result (self.new ≡ with_line self.old line.items) }
    {
        self.body.push(line)?;
        Ok(())
    }
}

/// The first tool with this name.
pub fn find_tool<'a>(tools: &'a [Tool], name: &[u8]) -> Option<&'a Tool>
    ensures { option_map (λ tool. tool.now) result ≡ tool_named tools.now name.now }
{
    for tool in tools {
        if tool.name.bytes() == name {
            return Some(tool);
        }
    }
    None
}

/// The words by which a line may be about a tool.
#[tactic(auto, unfolding(crate::specs::Tools::telling_words))]
pub fn telling_words(line: &[u8]) -> Words<'_>
    ensures words { words_left result ≡ telling_words line.now }
    ensures few { length (words_left result) ≤ LINE_LIMIT }
{
    if is_ordinary(line) {
        split_words(&line[..0])
    } else {
        split_words(line)
    }
}

/// Whether a line is about no tool, by its length or its bytes.
pub fn is_ordinary(line: &[u8]) -> bool
    ensures { result ≡ is_ordinary line.now }
{
    line.len() > LINE_LIMIT || !are_plain(line)
}

/// The tool whose body the words open, still without lines.
pub fn open_tool(alloc: Global, tools: &[Tool], words: Words<'_>) -> Option<Tool>
    ensures { result ≡ opened_by tools.now (words_left words.entry) }
{
    let mut left = words;
    if left.next()? != b"tool".as_slice() {
        return None;
    }
    let name = Name::new(left.next()?)?;
    let arity = read_arity(left.next()?)?;
    if left.next().is_some() {
        return None;
    }
    if tools.len() >= TOOL_LIMIT || find_tool(tools, name.bytes()).is_some() {
        return None;
    }
    Some(Tool {
        name,
        arity,
        body: Vec::new(alloc),
    })
}

fn read_arity(word: &[u8]) -> Option<usize>
    ensures { result ≡ arity_of word.now }
{
    match word {
        [d] if (b'0'..=b'8').contains(d) => Some(usize::from(*d - b'0')),
        _ => None,
    }
}

/// Whether the words close a body.
pub fn is_end(words: Words<'_>) -> bool
    ensures { result ≡ is_end (words_left words.entry) }
{
    let mut left = words;
    let Some(first) = left.next() else {
        return false;
    };
    first == b"end".as_slice() && left.next().is_none()
}
