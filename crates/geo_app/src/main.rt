//! Straightedge geometry: reads a script of points and lines, and writes what it
//! draws.
#![tactic(auto)]

mod answering;
mod batch;
mod boxes;
mod carrying;
mod certified;
mod generated;
mod limits;
mod long_jobs;
mod long_lines;
mod program;
mod refusals;
mod task;
#[cfg(test)]
mod tests;
mod work;

use boxes::add_view;
use geo_io::{ReadSource, Sink, Source, WriteSink};
use geo_settle::OpenGate;
use geo_view::{DualView, PlaneView, TableView, View};
use program::{Outcome, run_program};
use std::alloc::{AllocError, Global};
use std::env;
use std::io::ErrorKind;
use std::process::ExitCode;
use std::thread::Threads;

fn main(rt: HostRuntime) -> ExitCode {
    let outcome = match read_words(&rt) {
        Ok(words) => {
            let mut source = ReadSource::new(rt.stdin());
            let mut sink = WriteSink::new(rt.stdout());
            match run_with_views(&rt, rt.alloc(), &words, &mut source, &mut sink) {
                Ok(outcome) => outcome,
                Err(_) => Outcome::NoMemory,
            }
        }
        Err(outcome) => outcome,
    };
    ExitCode::from(outcome.status())
}

/// Runs the program with an empty table, an empty plane and an empty dual plane.
fn run_with_views<R: Threads + Sync, S: Source, K: Sink>(
    rt: &R,
    alloc: Global,
    words: &[String],
    source: &mut S,
    sink: &mut K,
) -> Result<Outcome, AllocError> {
    let mut views: Vec<Box<dyn View>> = Vec::new(alloc);
    add_view(&mut views, Box::new(alloc, TableView::new(alloc))?)?;
    add_view(&mut views, Box::new(alloc, PlaneView::new(alloc))?)?;
    add_view(&mut views, Box::new(alloc, DualView::new(alloc))?)?;
    Ok(run_program(rt, alloc, words, source, sink, views, &OpenGate))
}

/// The words of the command line, without the program's own name. A word that is
/// no text makes the words no form.
fn read_words(rt: &HostRuntime) -> Result<Vec<String>, Outcome> {
    let mut all = match env::args(rt) {
        Ok(all) => all,
        Err(error) if error.kind() == ErrorKind::OutOfMemory => return Err(Outcome::NoMemory),
        Err(_) => return Err(Outcome::Usage),
    };
    let _ = all.next();
    let mut words = Vec::new(rt.alloc());
    for word in all {
        if words.push(word).is_err() {
            return Err(Outcome::NoMemory);
        }
    }
    Ok(words)
}
