//! The texts of conjectures and of a ledger, appended to the output.

ghost use Rattle.std.specs.Prelude.{◌≡◌, ◌<◌, ◌≤◌, ◌++◌, ◌/◌, ◌%◌, OnOk, codes, flat_map};
ghost use Rattle.geo_guess.specs.Guesses.{IsGuessesOf};
ghost use Rattle.geo_ledger.specs.Ledgers.{AreKept};
ghost use Rattle.geo_sketch.specs.Lookups.{kind_at, numbered};
ghost use Rattle.geo_session.specs.LedgerTexts.{conjecture_line, conjectures_text, first_letter, ledger_line, name_at, parameter_text, second_letter, statement_text, two_names, value_text, values_text, verdict_word, word_for};
ghost use Rattle.geo_session.specs.Printed.{ledger_lines, text_of};
ghost use Rattle.geo_board.specs.declared.limits.TheConstants.{WORKER_LIMIT};

use geo_guess::Guesses;
use geo_ledger::{Entry, Ledger};
use geo_settle::Gate;
use geo_sketch::{
    Def, Element, Kind, NoMemory, Past, Sketch, Statement, Values, Verdict, find_by_number,
    find_kind,
};
use std::alloc::{AllocError, Global};
use std::thread::Threads;

/// Appends a line for each conjecture.
pub(crate) fn write_conjectures(
    sketch: &Sketch,
    guesses: &Guesses,
    out: &mut Vec<u8>,
) -> Result<(), NoMemory>
    requires { IsGuessesOf guesses.now sketch.now }
    ensures { OnOk result (out.new.items ≡ out.old.items ++ conjectures_text sketch.now) }
{
    for statement in guesses.list() {
        if write_conjecture(sketch.elements(), statement, out).is_err() {
            return Err(NoMemory);
        }
    }
    Ok(())
}

fn write_conjecture(
    elements: &[Element],
    statement: &Statement,
    out: &mut Vec<u8>,
) -> Result<(), AllocError>
    ensures { OnOk result (out.new.items ≡ out.old.items ++ conjecture_line elements.now statement.now) }
{
    write_statement(elements, statement, out)?;
    out.extend_from_slice(b"\n")
}

/// Appends the ledger of the sketch. Verdicts that are kept are not found again, and those
/// that are found, by so many workers, are kept.
pub(crate) fn write_ledger<R: Threads + Sync, G: Gate + Sync>(
    rt: &R,
    alloc: Global,
    sketch: &Sketch,
    guesses: &Guesses,
    ledger: &mut Ledger,
    workers: u64,
    gate: &G,
    out: &mut Vec<u8>,
) -> Result<(), NoMemory>
    requires workers { (0 < workers) × (workers ≤ WORKER_LIMIT) }
    requires guesses { IsGuessesOf guesses.now sketch.now }
    requires kept { AreKept sketch.now ledger.old }
    ensures written { OnOk result (out.new.items ≡ out.old.items ++ text_of (ledger_lines sketch.now)) }
    ensures right { OnOk result (AreKept sketch.now ledger.new) }
{
    let entries = ledger.entries(rt, alloc, sketch, guesses, workers, gate)?;
    write_entries(alloc, sketch.elements(), entries, out)
}

/// Appends a line for each entry.
fn write_entries(
    alloc: Global,
    elements: &[Element],
    entries: &[Entry],
    out: &mut Vec<u8>,
) -> Result<(), NoMemory>
    ensures { OnOk result (out.new.items ≡ out.old.items ++ flat_map (λ e. ledger_line elements.now e.statement e.verdict) entries.now) }
{
    for entry in entries {
        if write_line(alloc, elements, &entry.statement, &entry.verdict, out).is_err() {
            return Err(NoMemory);
        }
    }
    Ok(())
}

pub(crate) fn write_line(
    alloc: Global,
    elements: &[Element],
    statement: &Statement,
    verdict: &Verdict,
    out: &mut Vec<u8>,
) -> Result<(), AllocError>
    ensures { OnOk result (out.new.items ≡ out.old.items ++ ledger_line elements.now statement.now verdict.now) }
{
    out.extend_from_slice(word_of_verdict(verdict))?;
    write_statement(elements, statement, out)?;
    if let Verdict::False(values) = verdict {
        write_values(alloc, elements, values, out)?;
    }
    out.extend_from_slice(b"\n")
}

pub(crate) fn word_of_verdict(verdict: &Verdict) -> &'static [u8]
    ensures { result.now ≡ verdict_word verdict.now }
{
    match verdict {
        Verdict::Proved => b"proved ",
        Verdict::False(_) => b"false ",
        Verdict::Unsettled(Past::Size) => b"unsettled grid ",
        Verdict::Unsettled(Past::Height) => b"unsettled height ",
    }
}

/// A statement by the names of its elements, which stand by rising number, but the point
/// before its line.
pub(crate) fn write_statement(
    elements: &[Element],
    statement: &Statement,
    out: &mut Vec<u8>,
) -> Result<(), AllocError>
    ensures { OnOk result (out.new.items ≡ out.old.items ++ statement_text elements.now statement.now) }
{
    match statement {
        Statement::Null(n) => {
            out.extend_from_slice(b"null ")?;
            write_name(elements, *n, out)
        }
        Statement::Same(n, m) => {
            out.extend_from_slice(b"same ")?;
            write_two_names(elements, *n, *m, out)
        }
        Statement::On(n, m) => {
            out.extend_from_slice(b"on ")?;
            write_point_first(elements, *n, *m, out)
        }
        Statement::Triple(n, m, k) => {
            out.extend_from_slice(word_of_triple(find_kind(elements, *n)))?;
            write_name(elements, *n, out)?;
            out.extend_from_slice(b" ")?;
            write_two_names(elements, *m, *k, out)
        }
    }
}

fn word_of_triple(kind: Option<Kind>) -> &'static [u8]
    ensures { result.now ≡ word_for kind (codes "collinear ") (codes "concurrent ") }
{
    match kind {
        Some(Kind::Point) => b"collinear ",
        Some(Kind::Line) => b"concurrent ",
        None => b"",
    }
}

fn write_point_first(
    elements: &[Element],
    n: u32,
    m: u32,
    out: &mut Vec<u8>,
) -> Result<(), AllocError>
    ensures { OnOk result (out.new.items ≡ out.old.items ++ word_for (kind_at elements.now n) (two_names (name_at elements.now n) (name_at elements.now m)) (two_names (name_at elements.now m) (name_at elements.now n))) }
{
    match find_kind(elements, n) {
        Some(Kind::Point) => write_two_names(elements, n, m, out),
        Some(Kind::Line) => write_two_names(elements, m, n, out),
        None => Ok(()),
    }
}

fn write_two_names(
    elements: &[Element],
    first: u32,
    second: u32,
    out: &mut Vec<u8>,
) -> Result<(), AllocError>
    ensures { OnOk result (out.new.items ≡ out.old.items ++ two_names (name_at elements.now first) (name_at elements.now second)) }
{
    write_name(elements, first, out)?;
    out.extend_from_slice(b" ")?;
    write_name(elements, second, out)
}

fn write_name(elements: &[Element], number: u32, out: &mut Vec<u8>) -> Result<(), AllocError>
    ensures { OnOk result (out.new.items ≡ out.old.items ++ name_at elements.now number) }
{
    match find_by_number(elements, number) {
        Some(element) => out.extend_from_slice(element.name.bytes()),
        None => Ok(()),
    }
}

/// The values at which a statement fails; nothing where it has no axes.
pub(crate) fn write_values(
    alloc: Global,
    elements: &[Element],
    values: &Values,
    out: &mut Vec<u8>,
) -> Result<(), AllocError>
    ensures { OnOk result (out.new.items ≡ out.old.items ++ values_text elements.now values.now) }
{
    if values.len() == 0 {
        return Ok(());
    }
    out.extend_from_slice(b" at")?;
    write_all_values(alloc, elements, values, out)
}

fn write_all_values(
    alloc: Global,
    elements: &[Element],
    values: &Values,
    out: &mut Vec<u8>,
) -> Result<(), AllocError>
    ensures { OnOk result (out.new.items ≡ out.old.items ++ flat_map (value_text elements.now) values.now) }
{
    for k in 0..values.len() {
        match values.get(k) {
            Some((parameter, value)) => write_value(alloc, elements, parameter, value, out)?,
            None => unreachable!(),
        }
    }
    Ok(())
}

fn write_value(
    alloc: Global,
    elements: &[Element],
    parameter: u32,
    value: i64,
    out: &mut Vec<u8>,
) -> Result<(), AllocError>
    ensures { OnOk result (out.new.items ≡ out.old.items ++ value_text elements.now (parameter, value)) }
{
    let digits = format!(in alloc; "{value}")?;
    out.extend_from_slice(b" ")?;
    write_parameter(elements, parameter, out)?;
    out.extend_from_slice(digits.as_bytes())
}

fn write_parameter(
    elements: &[Element],
    parameter: u32,
    out: &mut Vec<u8>,
) -> Result<(), AllocError>
    ensures { OnOk result (out.new.items ≡ out.old.items ++ parameter_text (numbered elements.now (parameter / 2)) (parameter % 2)) }
{
    match find_by_number(elements, parameter / 2) {
        Some(element) => {
            out.extend_from_slice(element.name.bytes())?;
            out.extend_from_slice(if parameter % 2 == 0 {
                word_of_first(&element.def, element.kind)
            } else {
                word_of_second(element.kind)
            })
        }
        None => Ok(()),
    }
}

fn word_of_first(def: &Def, kind: Kind) -> &'static [u8]
    ensures { result.now ≡ first_letter def.now kind }
{
    match (def, kind) {
        (Def::Free, Kind::Point) => b".x=",
        (Def::Free, Kind::Line) => b".u=",
        _ => b".t=",
    }
}

fn word_of_second(kind: Kind) -> &'static [u8]
    ensures { result.now ≡ second_letter kind }
{
    match kind {
        Kind::Point => b".y=",
        Kind::Line => b".v=",
    }
}
