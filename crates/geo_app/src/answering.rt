//! What answers the lines of an input, one after the other.

ghost use Rattle.std.specs.Prelude.{◌≤◌, ◌+◌, ◌^◌, IfOk, OnOk};
ghost use Rattle.geo_app.specs.Courses.{Course, IsReplied, IsLastReply};
ghost use Rattle.geo_app.specs.Answering.{Goes, IsReady, count_of};
ghost use Rattle.geo_io.specs.declared.limits.TheConstants.{INPUT_LIMIT};

use crate::batch::Batch;
use geo_checker::answer_line;
use geo_script::Script;
use geo_settle::Gate;
use geo_sketch::NoMemory;
use geo_view::Views;
use std::alloc::Global;
use std::thread::Threads;

/// What answers the lines of an input, one after the other.
#[derive(Drop)]
pub enum Answering<W: Drop> {
    /// A script, whose lines are carried out.
    Script(Script<W>),
    /// Lines that may be certificates, each of which is checked on its own.
    Certificates,
    /// Many scripts, each of which is carried out on its own.
    Batch(Batch),
}

impl<W: Views> Answering<W> {
    /// Takes a line, and appends what is written for it; answers whether something in that is a
    /// refusal, or a certificate is invalid. After NoMemory it can only be dropped.
    pub(crate) fn take<R: Threads + Sync, G: Gate + Sync>(
        &mut self,
        rt: &R,
        alloc: Global,
        line: &[u8],
        out: &mut Vec<u8>,
        gate: &G,
    ) -> Result<bool, NoMemory>
        requires ready { IsReady self.old }
        requires few { count_of self.old ≤ INPUT_LIMIT + 1 }
        ensures replied { IfOk result (λ refused. (course : Course) → Goes W.shows self.old course → IsReplied (Goes W.shows self.new) course line.now refused out.old.items out.new.items) }
        ensures ready { OnOk result (IsReady self.new) }
        ensures count { OnOk result (count_of self.new ≤ count_of self.old + 1) }
    {
        match self {
            Answering::Script(script) => script.take(rt, alloc, line, out, gate),
            Answering::Certificates => answer_line(alloc, line, out),
            Answering::Batch(batch) => batch.take(rt, alloc, line, out),
        }
    }

    /// Takes the end of the input, and appends what is written there; answers whether something in
    /// that is a refusal. Then it can only be dropped.
    pub(crate) fn finish<R: Threads + Sync>(
        &mut self,
        rt: &R,
        alloc: Global,
        out: &mut Vec<u8>,
    ) -> Result<bool, NoMemory>
        requires ready { IsReady self.old }
        requires few { count_of self.old ≤ INPUT_LIMIT + 1 }
        ensures { IfOk result (λ refused. (course : Course) → Goes W.shows self.old course → IsLastReply course refused out.old.items out.new.items) }
    {
        match self {
            Answering::Script(_) | Answering::Certificates => Ok(false),
            Answering::Batch(batch) => batch.finish(rt, alloc, out),
        }
    }
}
