//! The text of a table.

ghost use Rattle.std.specs.Prelude.{◌≡◌, ◌++◌, OnOk, codes};
ghost use Rattle.std.specs.Fmt.{signed_decimal};
ghost use Rattle.geo_view.specs.Pictures.{here_text, kind_word, table_line, table_text};

use geo_eval::{Here, Shown};
use geo_sketch::Kind;
use std::alloc::{AllocError, Global};

/// Appends a line for each entry.
pub(crate) fn write_table(
    alloc: Global,
    entries: &[Shown],
    out: &mut Vec<u8>,
) -> Result<(), AllocError>
    ensures { OnOk result (out.new.items ≡ out.old.items ++ table_text entries.now) }
{
    for entry in entries {
        write_line(alloc, entry, out)?;
    }
    Ok(())
}

fn write_line(alloc: Global, entry: &Shown, out: &mut Vec<u8>) -> Result<(), AllocError>
    ensures { OnOk result (out.new.items ≡ out.old.items ++ table_line entry.now) }
{
    out.extend_from_slice(entry.name.bytes())?;
    out.extend_from_slice(b" ")?;
    out.extend_from_slice(word_of_kind(entry.kind))?;
    out.extend_from_slice(b" ")?;
    write_here(alloc, &entry.here, out)?;
    out.extend_from_slice(b"\n")
}

fn word_of_kind(kind: Kind) -> &'static [u8]
    ensures { result.now ≡ kind_word kind }
{
    match kind {
        Kind::Point => b"point",
        Kind::Line => b"line",
    }
}

fn write_here(alloc: Global, here: &Here, out: &mut Vec<u8>) -> Result<(), AllocError>
    ensures { OnOk result (out.new.items ≡ out.old.items ++ here_text here.now) }
{
    match here {
        Here::At(triple) => write_numbers(alloc, triple.a, triple.b, triple.c, out),
        Here::NullHere => out.extend_from_slice(b"null"),
        Here::Far => out.extend_from_slice(b"far"),
    }
}

fn write_numbers(
    alloc: Global,
    a: i128,
    b: i128,
    c: i128,
    out: &mut Vec<u8>,
) -> Result<(), AllocError>
    ensures { OnOk result (out.new.items ≡ out.old.items ++ (signed_decimal a ++ (codes " " ++ (signed_decimal b ++ (codes " " ++ signed_decimal c))))) }
{
    let text = format!(in alloc; "{a} {b} {c}")?;
    out.extend_from_slice(text.as_bytes())
}
