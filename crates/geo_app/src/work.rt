//! A job of a batch: a script that is carried out on its own.

ghost use Rattle.std.specs.Prelude.{◌≡◌, ◌++◌, ◌||◌, map, IfOk, OnOk, List, ℕ, []};
ghost use Rattle.geo_session.specs.Printed.{text_of};
ghost use Rattle.geo_script.specs.Places.{StandsAt, beginning, printed_at, refuses_at};
ghost use Rattle.geo_app.specs.Batches.{job_line};
ghost use Rattle.geo_app.specs.Sheets.{has_line, sheet_of, with_line};

use crate::limits::JOB_SIZE_LIMIT;
use crate::refusals::or_refused;
use geo_batch::{Job, NoMemory};
use geo_script::Script;
use geo_settle::OpenGate;
use geo_view::{NoViews, Views};
use std::alloc::{AllocError, Global};
use std::marker::Model;
use std::thread::Threads;

/// A job, its lines, and once it has run what is written for it.
#[derive(Drop)]
pub struct Work {
    alloc: Global,
    number: u64,
    lines: Vec<Vec<u8>>,
    /// How many bytes it may still have; none where it had too many, and no line is kept.
    room: Option<usize>,
    text: Vec<u8>,
    refused: bool,
}

impl Model for Work {
    ghost use Rattle.std.specs.Prelude.{map};
    ghost use Rattle.geo_app.specs.Sheets.{Sheet};

    ghost Value = { Sheet };

    ghost view = { λ w. record {
      number = w.number;
      lines = map (λ line. line.items) w.lines.items;
      room = w.room;
      text = w.text.items;
      refused = w.refused;
    } };
}

impl Work {
    /// A job without lines.
    #[tactic(auto, unfolding(crate::specs::Batches::is_large))]
    pub fn new(alloc: Global, number: u64) -> Work
        ensures { result ≡ sheet_of number [] }
    {
        Work {
            alloc,
            number,
            lines: Vec::new(alloc),
            room: Some(JOB_SIZE_LIMIT),
            text: Vec::new(alloc),
            refused: false,
        }
    }

    pub fn number(&self) -> u64
        ensures { result ≡ self.now.number }
    {
        self.number
    }

    pub fn has_line(&self) -> bool
        ensures { result ≡ has_line self.now }
    {
        self.room.is_none() || !self.lines.is_empty()
    }

    /// What is written for the job, once it has run.
    pub fn text(&self) -> &[u8]
        ensures { result.now ≡ self.now.text }
    {
        &self.text
    }

    /// Whether the job or a line of it was refused, once it has run.
    pub fn is_refused(&self) -> bool
        ensures { result ≡ self.now.refused }
    {
        self.refused
    }

    /// Adds a line, if the job has room for it.
    pub fn push(&mut self, line: &[u8]) -> Result<(), AllocError>
        ensures { OnOk result (self.new ≡ with_line self.old line.now) }
    {
        let Some(room) = self.room else {
            return Ok(());
        };
        if room <= line.len() {
            self.lines.clear();
            self.room = None;
            return Ok(());
        }
        self.lines.push(line.to_vec(self.alloc)?)?;
        self.room = Some(room - (line.len() + 1));
        Ok(())
    }
}

impl Job for Work {
    ghost use Rattle.geo_app.specs.Sheets.{done_sheet};

    ghost done = { λ sheet. done_sheet sheet };

    fn run<R: Threads + Sync>(&mut self, rt: &R) -> Result<(), NoMemory> {
        let mut text = Vec::new(self.alloc);
        if put_job_line(self.alloc, self.number, &mut text).is_err() {
            return Err(NoMemory);
        }
        if self.room.is_some() {
            self.refused = carry_out_alone(rt, self.alloc, &self.lines, &mut text)?;
        } else {
            if text.extend_from_slice(b"refused job\n").is_err() {
                return Err(NoMemory);
            }
            self.refused = true;
        }
        self.text = text;
        Ok(())
    }
}

/// Appends the line that stands before what is written for a job.
fn put_job_line(alloc: Global, number: u64, out: &mut Vec<u8>) -> Result<(), AllocError>
    ensures { OnOk result (out.new.items ≡ out.old.items ++ job_line number) }
{
    let digits = format!(in alloc; "{number}")?;
    out.extend_from_slice(b"job ")?;
    out.extend_from_slice(digits.as_bytes())?;
    out.extend_from_slice(b"\n")
}

/// Carries out the lines of a script by one worker, appends the replies, and answers whether one
/// of them is a refusal.
fn carry_out_alone<R: Threads + Sync>(
    rt: &R,
    alloc: Global,
    lines: &[Vec<u8>],
    out: &mut Vec<u8>,
) -> Result<bool, NoMemory>
    ensures { IfOk result (λ refused. (out.new.items ≡ out.old.items ++ text_of (printed_at (beginning []) (map (λ line. line.items) lines.now))) × (refused ≡ refuses_at (beginning []) (map (λ line. line.items) lines.now))) }
{
    let mut script = Script::new(alloc, NoViews, 1);
    take_all(rt, alloc, &mut script, lines, out)
}

/// Carries out the lines on a script with nothing done.
fn take_all<R: Threads + Sync, W: Views>(
    rt: &R,
    alloc: Global,
    script: &mut Script<W>,
    lines: &[Vec<u8>],
    out: &mut Vec<u8>,
) -> Result<bool, NoMemory>
    requires { StandsAt W.shows script.old (beginning []) }
    ensures { IfOk result (λ refused. (out.new.items ≡ out.old.items ++ text_of (printed_at (beginning []) (map (λ line. line.items) lines.now))) × (refused ≡ refuses_at (beginning []) (map (λ line. line.items) lines.now))) }
{
    let mut refused = false;
    for line in lines {
        match script.take(rt, alloc, line, out, &OpenGate) {
            Ok(more) => refused = or_refused(refused, more),
            Err(_) => return Err(NoMemory),
        }
    }
    Ok(refused)
}
