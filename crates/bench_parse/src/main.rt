//! Counts what the lines of a script read as: the program that bench/table.py
//! times.
#![tactic(auto)]

use geo_parse::read_line;
use std::io::{self, Read};

/// How many lines of a script read as what.
struct Counts {
    commands: u64,
    quiet: u64,
    refused: u64,
}

fn counts_of(script: &[u8]) -> Counts {
    let mut counts = Counts {
        commands: 0,
        quiet: 0,
        refused: 0,
    };
    for line in script.split(|b| *b == b'\n') {
        match &read_line(line) {
            Ok(Some(_)) => counts.commands = counts.commands.saturating_add(1),
            Ok(None) => counts.quiet = counts.quiet.saturating_add(1),
            Err(_) => counts.refused = counts.refused.saturating_add(1),
        }
    }
    counts
}

fn main(rt: HostRuntime) -> io::Result<()> {
    let mut script = Vec::new(rt.alloc());
    rt.reader().read_to_end(&mut script)?;
    let Counts {
        commands,
        quiet,
        refused,
    } = counts_of(&script);
    println!(rt; "{commands} commands, {quiet} quiet, {refused} refused")?;
    Ok(())
}
