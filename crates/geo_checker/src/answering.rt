//! The answer to one line.

ghost use Rattle.std.specs.Prelude.{◌≡◌, ◌++◌, IfOk, OnErr, OnOk};
ghost use Rattle.std.specs.List.{list_all};
ghost use Rattle.geo_checker.specs.Answers.{IsCheckedAs, answer_of, answers_to, answer_text, checked_text, invalid, is_invalid, has_answer, has_invalid, is_blank, text_of};

use geo_cert::{CERTIFICATE_LIMIT, CertStop, read};
use geo_check::{Checked, check};
use geo_sketch::NoMemory;
use std::alloc::{AllocError, Global};

/// Reads and checks a line, without its line break, and appends the answer to `out`; answers
/// whether the line was found invalid. A line of spaces and tabs has no answer. Of a longer
/// line its first 65,537 bytes are enough. After NoMemory `out` is as it was.
#[tactic(auto, unfolding(crate::specs::Answers::answers_to))]
pub fn answer_line(alloc: Global, line: &[u8], out: &mut Vec<u8>) -> Result<bool, NoMemory>
    ensures answered { IfOk result (λ invalid. (out.new.items ≡ out.old.items ++ text_of (answers_to line.now)) × (invalid ≡ has_invalid (answers_to line.now))) }
    ensures unchanged { OnErr result (out.new.items ≡ out.old.items) }
{
    if has_answer(line) {
        write_answer(alloc, line, out)
    } else {
        Ok(false)
    }
}

#[tactic(auto, unfolding(crate::specs::Answers::has_answer))]
fn has_answer(line: &[u8]) -> bool
    ensures { result ≡ has_answer line.now }
{
    line.len() > CERTIFICATE_LIMIT || !are_blank(line)
}

fn are_blank(line: &[u8]) -> bool
    ensures { result ≡ list_all is_blank line.now }
{
    line.iter().all(|byte| *byte == b' ' || *byte == b'\t')
}

/// Appends the answer to a line that has one.
fn write_answer(alloc: Global, line: &[u8], out: &mut Vec<u8>) -> Result<bool, NoMemory>
    ensures answered { IfOk result (λ found. (out.new.items ≡ out.old.items ++ answer_text (answer_of line.now)) × (found ≡ is_invalid (answer_of line.now))) }
    ensures unchanged { OnErr result (out.new.items ≡ out.old.items) }
{
    let (written, found) = match check_line(alloc, line) {
        Ok(checked) => (out.extend_from_slice(text_of(checked)), false),
        Err(CertStop::Bad(number)) => (write_invalid(alloc, number, out), true),
        Err(CertStop::NoMemory) => return Err(NoMemory),
    };
    match written {
        Ok(()) => Ok(found),
        Err(AllocError) => Err(NoMemory),
    }
}

fn check_line(alloc: Global, line: &[u8]) -> Result<Checked, CertStop>
    ensures { IsCheckedAs (answer_of line.now) result }
{
    match read(alloc, line) {
        Ok(certificate) => check(alloc, &certificate),
        Err(stop) => Err(stop),
    }
}

fn text_of(checked: Checked) -> &'static [u8]
    ensures { result.now ≡ checked_text checked }
{
    match checked {
        Checked::Proved => b"valid proved\n",
        Checked::False => b"valid false\n",
    }
}

fn write_invalid(alloc: Global, number: u8, out: &mut Vec<u8>) -> Result<(), AllocError>
    ensures written { OnOk result (out.new.items ≡ out.old.items ++ answer_text (invalid number)) }
    ensures unchanged { OnErr result (out.new.items ≡ out.old.items) }
{
    let text = format!(in alloc; "invalid {number}\n")?;
    out.extend_from_slice(text.as_bytes())
}
