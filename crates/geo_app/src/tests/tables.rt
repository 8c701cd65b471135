//! Runs of the program over texts, and tables of such runs.

use super::figures::figure;
use crate::program::{Outcome, run_in_memory};
use crate::run_with_views;
use geo_io::{SureSink, SureSource};
use geo_settle::Gate;
use std::alloc::{AllocError, Global};
use std::process::Abort;
use std::thread::Threads;

/// The words of a command line, which stand between commas.
pub fn words_of(alloc: Global, line: &str) -> Result<Vec<String>, AllocError> {
    let mut words = Vec::new(alloc);
    for word in line.split(',') {
        words.push(String::from_str(alloc, word)?)?;
    }
    Ok(words)
}

pub fn bytes_of(alloc: Global, text: &str) -> Result<Vec<u8>, AllocError> {
    let mut bytes = Vec::new(alloc);
    bytes.extend_from_slice(text.as_bytes())?;
    Ok(bytes)
}

/// Runs the program with an empty table, an empty plane and an empty dual plane, as `main` does.
pub fn run_over<R: Threads + Sync>(
    rt: &R,
    alloc: Global,
    words: &str,
    input: Vec<u8>,
) -> Result<(Outcome, SureSink), AllocError> {
    let words = words_of(alloc, words)?;
    let mut source = SureSource::new(input);
    let mut sink = SureSink::new(alloc);
    let outcome = run_with_views(rt, alloc, &words, &mut source, &mut sink)?;
    Ok((outcome, sink))
}

/// Runs the program without views, with a gate.
pub fn run_gated<R: Threads + Sync, G: Gate + Sync>(
    rt: &R,
    alloc: Global,
    words: &str,
    input: Vec<u8>,
    gate: &G,
) -> Result<(Outcome, SureSink), AllocError> {
    let words = words_of(alloc, words)?;
    let mut source = SureSource::new(input);
    let mut sink = SureSink::new(alloc);
    let views = Vec::new(alloc);
    let outcome = run_in_memory(rt, alloc, &words, &mut source, &mut sink, views, gate);
    Ok((outcome, sink))
}

/// How the program ends where this is written.
fn outcome_of(written: &str) -> Outcome {
    if written.contains("refused") || written.contains("invalid") {
        Outcome::SomeRefused
    } else {
        Outcome::Done
    }
}

/// Runs the program over an input, and compares what it writes and how it ends.
pub fn assert_run<R: Threads + Sync + Abort>(
    rt: &R,
    alloc: Global,
    words: &str,
    about: &str,
    input: Vec<u8>,
    written: &str,
) -> Result<(), AllocError> {
    let (outcome, sink) = run_over(rt, alloc, words, input)?;
    assert_eq!(rt; sink.held(), written.as_bytes(), "{about}");
    assert_eq!(rt; outcome, outcome_of(written), "{about}");
    Ok(())
}

/// What is run, what is written for it first, and how that ends.
#[derive(Drop)]
pub struct Case {
    pub input: String,
    pub written: String,
    pub ending: String,
}

impl Case {
    fn new(alloc: Global) -> Case {
        Case {
            input: String::new(alloc),
            written: String::new(alloc),
            ending: String::new(alloc),
        }
    }

    fn ask(&mut self, command: &str) -> Result<(), AllocError> {
        self.input.push_str(command)?;
        self.input.push_str("\n")
    }

    /// Each line of a figure is answered by `ok`.
    fn put_figure(&mut self, name: &str) -> Result<(), AllocError> {
        for command in figure(name).lines() {
            self.ask(command)?;
            self.written.push_str("ok\n")?;
        }
        Ok(())
    }

    fn put_replies(&mut self, replies: &str) -> Result<(), AllocError> {
        for part in replies.split('|') {
            let reply = part.trim();
            if let Some(name) = reply.strip_prefix("& ") {
                self.written.push_str(figure(name))?;
            } else if !reply.is_empty() {
                self.written.push_str(reply)?;
                self.written.push_str("\n")?;
            }
        }
        Ok(())
    }

    fn put(&mut self, line: &str) -> Result<(), AllocError> {
        if let Some(name) = line.strip_prefix("& ") {
            self.put_figure(name)
        } else if let Some((command, last)) = line.split_once(" ~ ") {
            self.ask(command)?;
            self.ending.push_str("\n")?;
            self.ending.push_str(last)?;
            self.ending.push_str("\n")
        } else {
            let (command, replies) = line.split_once(" >").unwrap_or((line, "ok"));
            self.ask(command)?;
            self.put_replies(replies)
        }
    }
}

/// A case of lines: `COMMAND > REPLY | REPLY` is a command with the lines of its reply, of which there
/// may be none, `COMMAND ~ LINE` is the last one, with the last line that is written, and any other
/// line is a command that is answered by `ok`. `& NAME` is a figure, each of whose lines is answered so,
/// or, in the place of a reply, what is said of it.
pub fn case_of(alloc: Global, lines: &str) -> Result<Case, AllocError> {
    let mut case = Case::new(alloc);
    for line in lines.lines() {
        case.put(line)?;
    }
    Ok(case)
}

/// Compares what was written for a case, and how the program ended.
pub fn assert_case<R: Abort>(rt: &R, about: &str, case: &Case, ended: Outcome, held: &[u8]) {
    if case.ending.is_empty() {
        assert_eq!(rt; held, case.written.as_bytes(), "{about}");
    } else {
        assert!(rt; held.starts_with(case.written.as_bytes()), "{about}");
        assert!(rt; held.ends_with(case.ending.as_bytes()), "{about}");
    }
    assert_eq!(rt; ended, outcome_of(&case.written), "{about}");
}

/// Runs the program over each case of a table, in which a line `@ ABOUT` begins a case.
pub fn assert_runs<R: Threads + Sync + Abort>(
    rt: &R,
    alloc: Global,
    words: &str,
    table: &str,
) -> Result<(), AllocError> {
    for text in table.split("@ ").skip(1) {
        let (about, lines) = text.split_once('\n').unwrap_or((text, ""));
        let case = case_of(alloc, lines)?;
        let input = bytes_of(alloc, &case.input)?;
        let (ended, sink) = run_over(rt, alloc, words, input)?;
        assert_case(rt, about, &case, ended, sink.held());
    }
    Ok(())
}
