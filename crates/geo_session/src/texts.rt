//! The texts of what is acknowledged or refused, appended to the output.

ghost use Rattle.std.specs.Prelude.{◌≡◌, ◌++◌, OnOk};
ghost use Rattle.geo_session.specs.Texts.{ok_line, refusal_word, refusal_line};

use geo_sketch::{NoMemory, Refusal};
use std::alloc::{AllocError, Global};

/// Appends the line that acknowledges a change.
pub(crate) fn write_ok(out: &mut Vec<u8>) -> Result<(), NoMemory>
    ensures { OnOk result (out.new.items ≡ out.old.items ++ ok_line) }
{
    match out.extend_from_slice(b"ok\n") {
        Ok(()) => Ok(()),
        Err(_) => Err(NoMemory),
    }
}

/// Appends the line of a refusal, with the number of the refused line.
pub(crate) fn write_refusal(
    alloc: Global,
    number: u64,
    refusal: Refusal,
    out: &mut Vec<u8>,
) -> Result<(), AllocError>
    ensures { OnOk result (out.new.items ≡ out.old.items ++ refusal_line number refusal) }
{
    let digits = format!(in alloc; "{number}")?;
    out.extend_from_slice(b"refused ")?;
    out.extend_from_slice(digits.as_bytes())?;
    out.extend_from_slice(b" ")?;
    out.extend_from_slice(word_of_refusal(refusal))?;
    out.extend_from_slice(b"\n")
}

fn word_of_refusal(refusal: Refusal) -> &'static [u8]
    ensures { result.now ≡ refusal_word refusal }
{
    match refusal {
        Refusal::Long => b"long",
        Refusal::Ascii => b"ascii",
        Refusal::Command => b"command",
        Refusal::Arity => b"arity",
        Refusal::Name => b"name",
        Refusal::Number => b"number",
        Refusal::Taken => b"taken",
        Refusal::Unknown => b"unknown",
        Refusal::Kind => b"kind",
        Refusal::Zero => b"zero",
        Refusal::Full => b"full",
        Refusal::Tall => b"tall",
        Refusal::Used => b"used",
        Refusal::Fixed => b"fixed",
        Refusal::Nothing => b"nothing",
        Refusal::Repeat => b"repeat",
        Refusal::View => b"view",
        Refusal::Shape => b"shape",
        Refusal::Great => b"great",
        Refusal::Unproved => b"unproved",
        Refusal::Degenerate => b"degenerate",
    }
}
