use crate::{Command, print_command, read_line, split_words};
use geo_sketch::Refusal;
use std::alloc::Global;
use std::test::Fail;

/// Lines, and behind each what it reads as: the canonical spelling of a
/// command, `-` for nothing, or a refusal.
const CASES: &str = "\
point A 1 2 => point A 1 2
point A 3 => Arity
points A 1 2 => Command
point 9A 1 x => Name
point B 1 1001 => Number
join A A Z => join A A Z
join l A Z => join l A Z
meet l A A => meet l A A
fixpoint F 0 0 0 => fixpoint F 0 0 0
drag A 5 => drag A 5
claim same A A => claim same A A
undo => undo
show 7 => show 7
drop A => drop A
line l -5 0 => line l -5 0
fixline z 0 0 1 => fixline z 0 0 1
on P l 1000 => on P l 1000
through l P -1000 => through l P -1000
along N P Q 3 => along N P Q 3
pencil n l m 2 => pencil n l m 2
drag A 5 6 => drag A 5 6
claim null A => claim null A
claim on P l => claim on P l
claim collinear P Q R => claim collinear P Q R
certify concurrent l m n => certify concurrent l m n
dual => dual
redo => redo
screen => screen
conjectures => conjectures
ledger => ledger
svg => svg
close 32 => close 32
  \t point \t A  01 -0\t  => point A 1 0
point A -0001 0000 => point A -1 0
point A 00001 0 => Number
point A 1001 0 => Number
point A -1001 0 => Number
point A --1 0 => Number
point A - 0 => Number
point A +1 0 => Number
point A 1.0 0 => Number
point ABCDEFGH 1 1 => point ABCDEFGH 1 1
point ABCDEFGHI 1 1 => Name
point a1234567 1 1 => point a1234567 1 1
point A_b 1 1 => Name
point 9 x y => Name
join A 9 B => Name
show 0001 => show 1
show -0 => show 0
show -1 => show -1
show 1001 => Number
show A => Number
show => Arity
show 1 2 => Arity
drag A => Arity
drag A 1 2 3 => Arity
drag A x 2 => Number
dual A => Arity
claim => Arity
certify => Arity
claim foo => Command
claim point A => Command
claim null => Arity
claim null A B => Arity
claim same A => Arity
claim on P => Arity
claim collinear P Q => Arity
claim concurrent l m n k => Arity
claim null 9A => Name
infer => Command
null A => Command
Point A 1 1 => Command
point A 1 2 # no comment => Arity
 => -
 \t  => -
# point A => -
#point A 1 => -
 \t# x => -
";

fn name_of(refusal: Refusal) -> &'static [u8] {
    match refusal {
        Refusal::Long => b"Long",
        Refusal::Ascii => b"Ascii",
        Refusal::Command => b"Command",
        Refusal::Arity => b"Arity",
        Refusal::Name => b"Name",
        Refusal::Number => b"Number",
        _ => b"another",
    }
}

fn answer(alloc: Global, line: &[u8]) -> Result<Vec<u8>, Fail> {
    let mut text = Vec::new(alloc);
    match &read_line(line) {
        Ok(Some(command)) => print_command(command, &mut text)?,
        Ok(None) => text.push(b'-')?,
        Err(refusal) => text.extend_from_slice(name_of(*refusal))?,
    }
    Ok(text)
}

#[test]
fn lines_read_as_they_should(rt: HostRuntime) -> Result<(), Fail> {
    for case in CASES.lines() {
        let (line, expected) = case.split_once(" => ").ok_or("a case has two parts")?;
        let text = answer(rt.alloc(), line.as_bytes())?;
        assert_eq!(rt; text.as_slice(), expected.as_bytes(), "at {line}");
    }
    Ok(())
}

#[test]
fn long_lines_and_other_bytes_are_refused(rt: HostRuntime) -> Result<(), Fail> {
    for (len, expected) in [(199, "undo"), (200, "undo"), (201, "Long")] {
        let mut line = b"undo".to_vec(rt.alloc())?;
        for _ in line.len()..len {
            line.push(b' ')?;
        }
        let text = answer(rt.alloc(), &line)?;
        assert_eq!(rt; text.as_slice(), expected.as_bytes(), "at {len}");
    }
    for byte in [0, 10, 13, 31, 127, 128, 195, 255] {
        let mut line = b"# ".to_vec(rt.alloc())?;
        line.push(byte)?;
        let text = answer(rt.alloc(), &line)?;
        assert_eq!(rt; text.as_slice(), b"Ascii".as_slice(), "at {byte}");
    }
    Ok(())
}

#[test]
fn words_are_split_at_blanks(rt: HostRuntime) -> Result<(), Fail> {
    let mut words = split_words(b" \t claim\ton  P l ");
    assert_eq!(rt; words.next(), Some(b"claim".as_slice()));
    assert_eq!(rt; words.next(), Some(b"on".as_slice()));
    assert_eq!(rt; words.count(), 2);
    assert_eq!(rt; split_words(b" \t").count(), 0);
    Ok(())
}

/// A command is appended, and what stood before it stays.
#[test]
fn a_command_behind_other_bytes(rt: HostRuntime) -> Result<(), Fail> {
    let mut text = Vec::new(rt.alloc());
    text.extend_from_slice(b"ok ")?;
    print_command(&Command::Undo, &mut text)?;
    print_command(&Command::Screen, &mut text)?;
    assert_eq!(rt; text.as_slice(), b"ok undoscreen".as_slice());
    Ok(())
}
