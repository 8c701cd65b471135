//! Commands written as lines.

ghost use Rattle.std.specs.Prelude.{◌≡◌, ℕ, ◌≤◌, [], ◌∷◌, ◌++◌, map, true, Ok, Some, OnOk, OnErr, unsigned_abs};
ghost use Rattle.std.specs.List.{AllByRecursion, list_all, flat_map, join_with_byte};
ghost use Rattle.std.specs.Fmt.{decimal, signed_decimal};
ghost use Rattle.geo_sketch.specs.Names.{is_name};
ghost use Rattle.geo_parse.specs.declared.commands.Command.{Command as ACommand};
ghost use Rattle.geo_parse.specs.declared.commands.Command.TheVariants.{Add as AnAdd};
ghost use Rattle.geo_parse.specs.CommandWords.{text_of_command, text_of_statement};
ghost use Rattle.geo_parse.specs.Grammar.{IsSpelling, parts, statement_parts};
ghost use Rattle.geo_parse.specs.Printing.{canonical, written, IsWritable, IsSmall};
ghost use Rattle.geo_parse.specs.Writers.{Extends, names_of};
ghost use Rattle.geo_parse.specs.Reading.{read_of};

use crate::command_words::{CommandWord, StatementWord};
use crate::commands::Command;
use geo_sketch::{Kind, Name, NoMemory, Said, Setting, Spec};
use std::alloc::AllocError;

/// Appends the canonical spelling of a command to `out`, without a line break:
/// one space between two words, no leading zeros, and `0` for zero.
pub fn print_command(command: &Command, out: &mut Vec<u8>) -> Result<(), NoMemory>
    requires { IsWritable command.now }
    ensures written { OnOk result (out.new.items ≡ out.old.items ++ canonical command.now) }
    ensures spelt { OnOk result (IsSpelling (canonical command.now) command.now) }
    ensures only { OnOk result
        ((other : ACommand) → IsSpelling (canonical command.now) other → other ≡ command.now) }
    ensures read { OnOk result (read_of (canonical command.now) ≡ Ok (Some command.now)) }
    ensures unchanged { OnErr result (out.new.items ≡ out.old.items) }
{
    let before = out.len();
    match put_command(out, command) {
        Ok(()) => Ok(()),
        Err(AllocError) => {
            out.truncate(before);
            Err(NoMemory)
        }
    }
}

fn put_command(out: &mut Vec<u8>, command: &Command) -> Result<(), AllocError>
    requires { IsWritable command.now }
    ensures written { OnOk result (out.new.items ≡ out.old.items ++ canonical command.now) }
    ensures named { OnOk result (list_all is_name (names_of (parts command.now)) ≡ true) }
    ensures kept { Extends out.old.items out.new.items }
{
    match command {
        Command::Add(name, kind, spec) => put_addition(out, name, *kind, spec),
        Command::Drag(_, Setting::None) => unreachable!(),
        Command::Drag(name, Setting::One(x)) => put(out, CommandWord::Drag.text(), &[*name], &[*x]),
        Command::Drag(name, Setting::Two(x, y)) => {
            put(out, CommandWord::Drag.text(), &[*name], &[*x, *y])
        }
        Command::Drop(name) => put(out, CommandWord::Drop.text(), &[*name], &[]),
        Command::Claim(said) => put_claim(out, CommandWord::Claim.text(), said),
        Command::Certify(said) => put_claim(out, CommandWord::Certify.text(), said),
        Command::Dual => put(out, CommandWord::Dual.text(), &[], &[]),
        Command::Undo => put(out, CommandWord::Undo.text(), &[], &[]),
        Command::Redo => put(out, CommandWord::Redo.text(), &[], &[]),
        Command::Screen => put(out, CommandWord::Screen.text(), &[], &[]),
        Command::Conjectures => put(out, CommandWord::Conjectures.text(), &[], &[]),
        Command::Ledger => put(out, CommandWord::Ledger.text(), &[], &[]),
        Command::Svg => put(out, CommandWord::Svg.text(), &[], &[]),
        Command::Show(view) => put(out, CommandWord::Show.text(), &[], &[*view]),
        Command::Close(view) => put(out, CommandWord::Close.text(), &[], &[*view]),
    }
}

fn put_addition(out: &mut Vec<u8>, name: &Name, kind: Kind, spec: &Spec) -> Result<(), AllocError>
    requires { IsWritable (AnAdd name.now kind spec.now) }
    ensures written { OnOk result
        (out.new.items ≡ out.old.items ++ canonical (AnAdd name.now kind spec.now)) }
    ensures named { OnOk result
        (list_all is_name (names_of (parts (AnAdd name.now kind spec.now))) ≡ true) }
    ensures kept { Extends out.old.items out.new.items }
{
    match (kind, spec) {
        (Kind::Point, Spec::Free(x, y)) => {
            put(out, CommandWord::Point.text(), &[*name], &[*x, *y])
        }
        (Kind::Line, Spec::Free(u, v)) => put(out, CommandWord::Line.text(), &[*name], &[*u, *v]),
        (Kind::Point, Spec::Fixed(a, b, c)) => {
            put(out, CommandWord::FixPoint.text(), &[*name], &[*a, *b, *c])
        }
        (Kind::Line, Spec::Fixed(a, b, c)) => {
            put(out, CommandWord::FixLine.text(), &[*name], &[*a, *b, *c])
        }
        (Kind::Point, Spec::Cut(l, t)) => put(out, CommandWord::On.text(), &[*name, *l], &[*t]),
        (Kind::Line, Spec::Cut(p, t)) => {
            put(out, CommandWord::Through.text(), &[*name, *p], &[*t])
        }
        (Kind::Point, Spec::Blend(p, q, t)) => {
            put(out, CommandWord::Along.text(), &[*name, *p, *q], &[*t])
        }
        (Kind::Line, Spec::Blend(l, m, t)) => {
            put(out, CommandWord::Pencil.text(), &[*name, *l, *m], &[*t])
        }
        (Kind::Line, Spec::Cross(p, q)) => put(
            out,
            CommandWord::Join.text(),
            &[*name, *p, *q],
            &[],
        ),
        (Kind::Point, Spec::Cross(l, m)) => {
            put(out, CommandWord::Meet.text(), &[*name, *l, *m], &[])
        }
    }
}

fn put_claim(out: &mut Vec<u8>, head: &[u8], said: &Said) -> Result<(), AllocError>
    ensures written { OnOk result
        (out.new.items
        ≡ out.old.items ++ join_with_byte 32 (head.now ∷ map written (statement_parts said.now))) }
    ensures named { OnOk result (list_all is_name (names_of (statement_parts said.now)) ≡ true) }
    ensures kept { Extends out.old.items out.new.items }
{
    out.extend_from_slice(head)?;
    out.push(b' ')?;
    put_statement(out, said)?;
    Ok(())
}

fn put_statement(out: &mut Vec<u8>, said: &Said) -> Result<(), AllocError>
    ensures written { OnOk result
        (out.new.items
        ≡ out.old.items ++ join_with_byte 32 (map written (statement_parts said.now))) }
    ensures named { OnOk result (list_all is_name (names_of (statement_parts said.now)) ≡ true) }
    ensures kept { Extends out.old.items out.new.items }
{
    match said {
        Said::Null(n) => put(out, StatementWord::Null.text(), &[*n], &[]),
        Said::Same(n, m) => put(out, StatementWord::Same.text(), &[*n, *m], &[]),
        Said::On(p, l) => put(out, StatementWord::On.text(), &[*p, *l], &[]),
        Said::Collinear(p, q, r) => put(out, StatementWord::Collinear.text(), &[*p, *q, *r], &[]),
        Said::Concurrent(l, m, n) => put(out, StatementWord::Concurrent.text(), &[*l, *m, *n], &[]),
    }
}

/// Appends a word, names and numbers, with one space between two.
fn put(out: &mut Vec<u8>, head: &[u8], names: &[Name], numbers: &[i64]) -> Result<(), AllocError>
    requires { AllByRecursion IsSmall numbers.now }
    ensures written { OnOk result
        (out.new.items ≡ out.old.items
        ++ join_with_byte 32 (head.now ∷ (names.now ++ map signed_decimal numbers.now))) }
    ensures named { OnOk result (list_all is_name names.now ≡ true) }
    ensures kept { Extends out.old.items out.new.items }
{
    out.extend_from_slice(head)?;
    put_names(out, names)?;
    put_numbers(out, numbers)?;
    Ok(())
}

/// Appends each name behind a space.
fn put_names(out: &mut Vec<u8>, names: &[Name]) -> Result<(), AllocError>
    ensures written { OnOk result
        (out.new.items ≡ out.old.items ++ flat_map (λ n. 32 ∷ n) names.now) }
    ensures named { OnOk result (list_all is_name names.now ≡ true) }
    ensures kept { Extends out.old.items out.new.items }
{
    for name in names {
        out.push(b' ')?;
        out.extend_from_slice(name.bytes())?;
    }
    Ok(())
}

/// Appends each number behind a space.
fn put_numbers(out: &mut Vec<u8>, numbers: &[i64]) -> Result<(), AllocError>
    requires { AllByRecursion IsSmall numbers.now }
    ensures written { OnOk result
        (out.new.items ≡ out.old.items ++ flat_map (λ z. 32 ∷ signed_decimal z) numbers.now) }
    ensures kept { Extends out.old.items out.new.items }
{
    for number in numbers {
        put_number(out, *number)?;
    }
    Ok(())
}

/// Appends a number behind a space.
fn put_number(out: &mut Vec<u8>, number: i64) -> Result<(), AllocError>
    requires { IsSmall number }
    ensures written { OnOk result (out.new.items ≡ out.old.items ++ 32 ∷ signed_decimal number) }
    ensures kept { Extends out.old.items out.new.items }
{
    out.extend_from_slice(before_digits(number))?;
    put_natural(out, number.unsigned_abs())?;
    Ok(())
}

#[tactic(auto, using(crate::proofs::PrintLemmas::decimal_below_zero, crate::proofs::PrintLemmas::decimal_from_zero))]
fn before_digits(number: i64) -> &'static [u8]
    ensures { 32 ∷ signed_decimal number ≡ result.now ++ decimal (unsigned_abs number) }
{
    if number < 0 { b" -" } else { b" " }
}

fn put_natural(out: &mut Vec<u8>, n: u64) -> Result<(), AllocError>
    ensures written { OnOk result (out.new.items ≡ out.old.items ++ decimal n) }
    ensures kept { Extends out.old.items out.new.items }
{
    if n >= 10 {
        put_natural(out, n / 10)?;
    }
    out.push(b'0' + (n % 10) as u8)?;
    Ok(())
}
