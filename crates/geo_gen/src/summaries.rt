//! The line that counts the answers to a script.

ghost use Rattle.std.specs.Prelude.{◌≡◌, ◌++◌, OnErr, OnOk};
ghost use Rattle.geo_gen.specs.Summaries.{answers_text, counted, summary_of, verdicts_text};

use crate::NoMemory;
use std::alloc::{AllocError, Global};

/// How often a script was answered in which way.
#[derive(Clone, Copy, PartialEq, Eq, Debug)]
pub struct Tally {
    /// All lines, blank ones too.
    pub lines: u64,
    /// Replies `ok`.
    pub ok: u64,
    /// Refused lines.
    pub refused: u64,
    /// The script's ledger by its verdicts: proved, false, and not settled.
    pub proved: u64,
    pub falsified: u64,
    pub unsettled: u64,
}

/// Appends the line that says how a seed's script was answered.
pub fn summary(alloc: Global, seed: u32, tally: &Tally, out: &mut Vec<u8>) -> Result<(), NoMemory>
    ensures written { OnOk result (out.new.items ≡ out.old.items ++ summary_of seed tally.now) }
    ensures unchanged { OnErr result (out.new.items ≡ out.old.items) }
{
    let mut line = Vec::new(alloc);
    if write_summary(alloc, seed, tally, &mut line).is_err() {
        return Err(NoMemory);
    }
    match out.extend_from_slice(&line) {
        Ok(()) => Ok(()),
        Err(AllocError) => Err(NoMemory),
    }
}

fn write_summary(
    alloc: Global,
    seed: u32,
    tally: &Tally,
    out: &mut Vec<u8>,
) -> Result<(), AllocError>
    ensures { OnOk result (out.new.items ≡ out.old.items ++ summary_of seed tally.now) }
{
    write_answers(alloc, seed, tally, out)?;
    write_verdicts(alloc, tally, out)
}

fn write_answers(
    alloc: Global,
    seed: u32,
    tally: &Tally,
    out: &mut Vec<u8>,
) -> Result<(), AllocError>
    ensures { OnOk result (out.new.items ≡ out.old.items ++ answers_text seed tally.now) }
{
    write_count(alloc, b"gen ", u64::from(seed), out)?;
    write_count(alloc, b" lines ", tally.lines, out)?;
    write_count(alloc, b" ok ", tally.ok, out)?;
    write_count(alloc, b" refused ", tally.refused, out)
}

fn write_verdicts(alloc: Global, tally: &Tally, out: &mut Vec<u8>) -> Result<(), AllocError>
    ensures { OnOk result (out.new.items ≡ out.old.items ++ verdicts_text tally.now) }
{
    write_count(alloc, b" proved ", tally.proved, out)?;
    write_count(alloc, b" false ", tally.falsified, out)?;
    write_count(alloc, b" unsettled ", tally.unsettled, out)?;
    out.extend_from_slice(b"\n")
}

#[tactic(auto, unfolding(crate::specs::Summaries::counted))]
fn write_count(alloc: Global, word: &[u8], count: u64, out: &mut Vec<u8>) -> Result<(), AllocError>
    ensures { OnOk result (out.new.items ≡ out.old.items ++ counted word.now count) }
{
    let digits = format!(in alloc; "{count}")?;
    out.extend_from_slice(word)?;
    out.extend_from_slice(digits.as_bytes())
}
