//! Certificates of statements.

ghost use Rattle.std.specs.Prelude.{◌≡◌, ◌<◌, ◌≤◌, ◌++◌, ◌∷◌, [], IfOk, OnOk};
ghost use Rattle.geo_sketch.specs.Claims.{resolution_of};
ghost use Rattle.geo_sketch.specs.Sketches.{IsPosed};
ghost use Rattle.geo_cert.specs.Making.{certificate_by};
ghost use Rattle.geo_ledger.specs.Ledgers.{AreKept};
ghost use Rattle.geo_session.specs.Answers.{State, certified, drawing_of, replied};
ghost use Rattle.geo_session.specs.Certificates.{certificate_line};
ghost use Rattle.geo_session.specs.Printed.{bytes_of, certified_piece, piece_by};
ghost use Rattle.geo_session.specs.Standing.{IsAt, Gives};
ghost use Rattle.geo_session.specs.Together.{IsTogether};
ghost use Rattle.geo_board.specs.declared.limits.TheConstants.{WORKER_LIMIT};

use crate::desk::Desk;
use crate::ledger_texts::write_line;
use crate::state::Reply;
use geo_cert::{Certificate, make, write};
use geo_ledger::Ledger;
use geo_settle::Gate;
use geo_sketch::{NoMemory, Said, Sketch, Statement, Verdict};
use geo_view::Views;
use std::alloc::{AllocError, Global};
use std::thread::Threads;

impl<W: Views> Desk<W> {
    /// Writes the certificate of the statement that is said, or the line of the ledger where
    /// it is not settled.
    pub(crate) fn certify<R: Threads + Sync, G: Gate + Sync>(
        &mut self,
        rt: &R,
        alloc: Global,
        said: &Said,
        out: &mut Vec<u8>,
        gate: &G,
    ) -> Result<Reply, NoMemory>
        requires { IsTogether self.old }
        ensures gives { IfOk result (λ reply. (state : State) → IsAt W.shows self.old state → Gives (certified state (resolution_of (drawing_of state) said.now)) reply out.old.items out.new.items (IsAt W.shows self.new)) }
        ensures together { OnOk result (IsTogether self.new) }
    {
        match self.sketch.resolve(said) {
            Ok(statement) => self.certify_statement(rt, alloc, &statement, out, gate),
            Err(refusal) => self.refuse(alloc, refusal, out),
        }
    }

    fn certify_statement<R: Threads + Sync, G: Gate + Sync>(
        &mut self,
        rt: &R,
        alloc: Global,
        statement: &Statement,
        out: &mut Vec<u8>,
        gate: &G,
    ) -> Result<Reply, NoMemory>
        requires posed { IsPosed self.old.sketch.elements statement.now }
        requires together { IsTogether self.old }
        ensures gives { IfOk result (λ reply. (state : State) → IsAt W.shows self.old state → Gives (replied state (certified_piece (drawing_of state).elements statement.now ∷ [])) reply out.old.items out.new.items (IsAt W.shows self.new)) }
        ensures together { OnOk result (IsTogether self.new) }
    {
        let workers = self.workers.count;
        let ledger = &mut self.followers.ledger;
        write_certified(
            rt,
            alloc,
            &self.sketch,
            statement,
            ledger,
            workers,
            gate,
            out,
        )?;
        Ok(Reply::Accepted)
    }
}

/// Appends the certificate of a statement, or its line of the ledger. The verdict is kept, or
/// found now by so many workers and kept from then on.
fn write_certified<R: Threads + Sync, G: Gate + Sync>(
    rt: &R,
    alloc: Global,
    sketch: &Sketch,
    statement: &Statement,
    ledger: &mut Ledger,
    workers: u64,
    gate: &G,
    out: &mut Vec<u8>,
) -> Result<(), NoMemory>
    requires workers { (0 < workers) × (workers ≤ WORKER_LIMIT) }
    requires posed { IsPosed sketch.now.elements statement.now }
    requires kept { AreKept sketch.now ledger.old }
    ensures written { OnOk result (out.new.items ≡ out.old.items ++ bytes_of (certified_piece sketch.now.elements statement.now)) }
    ensures kept { OnOk result (AreKept sketch.now ledger.new) }
{
    let verdict = ledger.verdict(rt, alloc, sketch, statement, workers, gate)?;
    write_by(alloc, sketch, statement, verdict, out)
}

/// Appends the certificate of a statement with this verdict, or its line of the ledger.
fn write_by(
    alloc: Global,
    sketch: &Sketch,
    statement: &Statement,
    verdict: &Verdict,
    out: &mut Vec<u8>,
) -> Result<(), NoMemory>
    requires { IsPosed sketch.now.elements statement.now }
    ensures { OnOk result (out.new.items ≡ out.old.items ++ bytes_of (piece_by sketch.now.elements statement.now verdict.now (certificate_by sketch.now.elements statement.now verdict.now))) }
{
    match make(alloc, sketch, statement, verdict)? {
        Some(certificate) => write_certificate(alloc, &certificate, out),
        None => match write_line(alloc, sketch.elements(), statement, verdict, out) {
            Ok(()) => Ok(()),
            Err(_) => Err(NoMemory),
        },
    }
}

fn write_certificate(
    alloc: Global,
    certificate: &Certificate,
    out: &mut Vec<u8>,
) -> Result<(), NoMemory>
    ensures { OnOk result (out.new.items ≡ out.old.items ++ certificate_line certificate.now) }
{
    write(alloc, certificate, out)?;
    match out.extend_from_slice(b"\n") {
        Ok(()) => Ok(()),
        Err(AllocError) => Err(NoMemory),
    }
}
