//! Lines of a script.

ghost use Rattle.std.specs.Prelude.{◌≡◌, ◌↔◌, ℕ, ◌≤◌, Some, None, Ok, Err, take, length};
ghost use Rattle.std.specs.List.{list_all};
ghost use Rattle.geo_sketch.specs.declared.changes.Refusal.{Refusal as ARefusal};
ghost use Rattle.geo_parse.specs.declared.commands.Command.{Command as ACommand};
ghost use Rattle.geo_parse.specs.Words.{words, texts};
ghost use Rattle.geo_parse.specs.Grammar.{IsLine, IsSpelling, IsQuiet, is_plain, is_silent};
ghost use Rattle.geo_parse.specs.Refusals.{refusal_of};
ghost use Rattle.geo_parse.specs.Printing.{IsWritable};
ghost use Rattle.geo_parse.specs.Reading.{read_of};
ghost use Rattle.geo_parse.specs.Readers.{Reads};

use crate::commands::Command;
use crate::limits::LINE_LIMIT;
use crate::reading::read_command;
use crate::words::split_words;
use geo_sketch::Refusal;

/// Room for the words of a line: no command has more than five, and a sixth
/// shows that there are too many.
const ROOM: usize = 6;

/// Reads a line of a script, without its line break: the command that it
/// spells, None where it is blank or a comment, or the first refusal that
/// applies.
pub fn read_line(line: &[u8]) -> Result<Option<Command>, Refusal>
    ensures command { (c : ACommand) → (result ≡ Ok (Some c)) ↔ IsSpelling line.now c }
    ensures quiet { (result ≡ Ok None) ↔ IsQuiet line.now }
    ensures refused { (r : ARefusal) → (result ≡ Err r) ↔ (refusal_of line.now ≡ Some r) }
    ensures writable { (c : ACommand) → result ≡ Ok (Some c) → IsWritable c }
    ensures function { result ≡ read_of line.now }
{
    reading(line)
}

fn reading(line: &[u8]) -> Result<Option<Command>, Refusal>
    ensures { Reads line.now result }
{
    if line.len() > LINE_LIMIT {
        return Err(Refusal::Long);
    }
    if !are_plain(line) {
        return Err(Refusal::Ascii);
    }
    read_plain(line)
}

/// Reads a line that is neither too long nor has a byte that is not plain.
fn read_plain(line: &[u8]) -> Result<Option<Command>, Refusal>
    requires { IsLine line.now }
    ensures { Reads line.now result }
{
    let mut found: [&[u8]; ROOM] = [b"".as_slice(); ROOM];
    let count = gather(line, &mut found);
    let words = &found[..count];
    if is_silent(words) {
        return Ok(None);
    }
    match read_command(words) {
        Ok(command) => Ok(Some(command)),
        Err(refusal) => Err(refusal),
    }
}

/// Writes the first words of a line into `found`, as many as there is room for,
/// and tells how many there are.
fn gather<'a>(line: &'a [u8], found: &mut [&'a [u8]]) -> usize
    ensures within { result ≤ length found.new }
    ensures texts { texts (take result found.new) ≡ take (length found.new) (words line.now) }
{
    let mut left = split_words(line);
    let mut count = 0;
    while count < found.len() {
        let Some(word) = left.next() else {
            return count;
        };
        found[count] = word;
        count += 1;
    }
    count
}

/// Whether all bytes are those of a line: a tab, or ASCII from space to tilde.
pub fn are_plain(bytes: &[u8]) -> bool
    ensures { result ≡ list_all is_plain bytes.now }
{
    bytes.iter().all(|b| is_plain(*b))
}

fn is_plain(b: u8) -> bool
    ensures { result ≡ is_plain b }
{
    b == b'\t' || (b' '..=b'~').contains(&b)
}

fn is_silent(words: &[&[u8]]) -> bool
    ensures { result ≡ is_silent (texts words.now) }
{
    match words {
        [] => true,
        [first, ..] => first.starts_with(b"#"),
    }
}
