//! Lines taken from a source, one after the other.
ghost use Rattle.std.specs.Prelude.{◌≡◌, ◌+◌, ◌++◌, ◌<◌, ◌≤◌, ◌^◌, ◌⊎◌, ◌↔◌, ℕ, List, [], ◌∷◌, true, false, length, take, IfOk, OnOk, OnErr, IsErrOf, IfSome, MatchResult, MatchOption};
ghost use Rattle.std.specs.Io.KnownBytes.{Consumes, Keeps, IsAtEnd};
ghost use Rattle.geo_io.specs.Faults.{Rose};
ghost use Rattle.geo_io.specs.Lines.{has_line_feed};
ghost use Rattle.geo_io.specs.Pieces.{Takes as TakesBytes};
ghost use Rattle.geo_io.specs.Taking.{Taking, first_taking, lines_left, Takes, GivesLine, GivesNone, StopsBetween, IsRightOnEnd, IsRead, IsKept};
ghost use Rattle.geo_io.specs.declared.limits.TheConstants.{INPUT_LIMIT};

use super::buffer::Buffer;
use super::ends::{LineEnd, NoMemory};
use super::limits::INPUT_LIMIT;
use super::line::{line_feed_at, strip_carriage_return};
use super::streams::Source;
use std::alloc::Global;
use std::marker::Model;

/// Takes the lines of a source, each as soon as the source gave it whole.
#[derive(Drop)]
pub struct Lines {
    alloc: Global,
    limit: usize,
    begun: Vec<u8>,
    buffer: Buffer,
    taken: u64,
    ended: bool,
}

impl Model for Lines {
    ghost use Rattle.std.specs.Prelude.{◌≡◌, ◌++◌, ◌+◌, ◌≤◌, false, length};
    ghost use Rattle.geo_io.specs.Lines.{has_line_feed};
    ghost use Rattle.geo_io.specs.Taking.{Taking};

    ghost Value = { Taking };

    ghost view = { λ s. record {
      limit = s.limit;
      held = s.begun.items ++ s.buffer;
      taken = s.taken;
      ended = s.ended;
    } };

    ghost invariant = { λ s. (has_line_feed s.begun.items ≡ false) × (length s.begun.items ≤ s.limit + 1) };
}

impl Lines {
    /// Nothing taken yet. Of each line `next` gives at most the first `limit` bytes.
    pub fn new(alloc: Global, limit: usize) -> Result<Lines, NoMemory>
        ensures { IfOk result (λ lines. lines ≡ first_taking limit) }
    {
        Ok(Lines {
            alloc,
            limit,
            begun: Vec::new(alloc),
            buffer: Buffer::new(alloc)?,
            taken: 0,
            ended: false,
        })
    }

    /// The number of bytes that were read.
    pub fn taken(&self) -> u64
        ensures { result ≡ self.now.taken }
    {
        self.taken
    }

    /// Gives the next line, without its line feed and the one carriage return directly before
    /// that, cut to its first `limit` bytes. What follows the last line feed is a line too, as it
    /// stands. None comes at the end, and the source is not asked again then.
    pub fn next<S: Source>(&mut self, source: &mut S) -> Result<Option<Vec<u8>>, LineEnd>
        requires room { self.old.taken ≤ INPUT_LIMIT }
        ensures takes { TakesBytes (S.left source.old) (S.left source.new) (λ bytes. Takes self.old self.new bytes × MatchResult result (λ given. MatchOption given (GivesNone self.old self.new bytes) (λ line. GivesLine self.old self.new bytes line.items)) (λ end. end ≡ LineEnd.Failed → StopsBetween self.old bytes)) }
        ensures still { (self.old.ended ≡ true) ⊎ (has_line_feed self.old.held ≡ true) → source.new ≡ source.old }
        ensures end { IsRightOnEnd self.old (S.left source.old) → IsRightOnEnd self.new (S.left source.new) }
        ensures bounded { OnOk result (length self.new.held ≤ self.new.limit + 4097) }
        ensures shorter { IfOk result (λ given. IfSome given (λ _. length self.new.held + self.old.taken < length self.old.held + self.new.taken)) }
        ensures too_long { IsErrOf result LineEnd.TooLong ↔ (INPUT_LIMIT < self.new.taken) }
        ensures counts { S.fault_count source.old ≤ S.fault_count source.new }
        ensures failed { IsErrOf result LineEnd.Failed → Rose (S.fault_count source.old) (S.fault_count source.new) }
    {
        'asks: loop {
            match self.take_whole() {
                Ok(Some(line)) => return Ok(Some(line)),
                Ok(None) => {}
                Err(_) => return Err(LineEnd::NoMemory),
            }
            if self.ended {
                return match self.take_last() {
                    Ok(given) => Ok(given),
                    Err(_) => Err(LineEnd::NoMemory),
                };
            }
            if let Err(end) = self.ask(source) {
                return Err(end);
            }
        }
    }

    /// Gives the first line of which the line feed is held, if there is one.
    fn take_whole(&mut self) -> Result<Option<Vec<u8>>, NoMemory>
        ensures none { IfOk result (λ given. MatchOption given (has_line_feed self.old.held ≡ false) (λ _. has_line_feed self.old.held ≡ true)) }
        ensures line { IfOk result (λ given. MatchOption given (self.new ≡ self.old) (λ line. (rest : List ℕ) → lines_left self.old rest ≡ line.items ∷ lines_left self.new rest)) }
        ensures shorter { IfOk result (λ given. IfSome given (λ _. length self.new.held < length self.old.held)) }
        ensures bounded { OnOk result (length self.new.held ≤ self.new.limit + 4097) }
        ensures limit { self.new.limit ≡ self.old.limit }
        ensures taken { self.new.taken ≡ self.old.taken }
        ensures ended { self.new.ended ≡ self.old.ended }
    {
        let Some(end) = line_feed_at(self.buffer.bytes()) else {
            return Ok(None);
        };
        let part = &self.buffer.bytes()[..end];
        let mut line = joined(self.alloc, self.limit, &self.begun, part)?;
        let len = strip_carriage_return(&line).len();
        line.truncate(len.min(self.limit));
        self.begun.clear();
        self.buffer.pass(end + 1);
        Ok(Some(line))
    }

    /// Gives what is held as the last line, if something is.
    fn take_last(&mut self) -> Result<Option<Vec<u8>>, NoMemory>
        requires no_line { has_line_feed self.old.held ≡ false }
        ensures line { IfOk result (λ given. MatchOption given (lines_left self.old [] ≡ []) (λ line. lines_left self.old [] ≡ line.items ∷ lines_left self.new [])) }
        ensures shorter { IfOk result (λ given. IfSome given (λ _. length self.new.held < length self.old.held)) }
        ensures bounded { OnOk result (length self.new.held ≤ self.new.limit + 4097) }
        ensures limit { self.new.limit ≡ self.old.limit }
        ensures taken { self.new.taken ≡ self.old.taken }
        ensures ended { self.new.ended ≡ self.old.ended }
    {
        if self.begun.is_empty() && self.buffer.bytes().is_empty() {
            return Ok(None);
        }
        let mut line = joined(self.alloc, self.limit, &self.begun, self.buffer.bytes())?;
        line.truncate(self.limit);
        self.begun.clear();
        self.buffer.pass(self.buffer.bytes().len());
        Ok(Some(line))
    }

    /// Reads once. Of the line that was begun the first `limit + 1` bytes stay, since the last of
    /// these may be the carriage return that goes.
    fn ask<S: Source>(&mut self, source: &mut S) -> Result<(), LineEnd>
        requires room { self.old.taken ≤ INPUT_LIMIT }
        requires no_line { has_line_feed self.old.held ≡ false }
        requires not_ended { self.old.ended ≡ false }
        ensures read { TakesBytes (S.left source.old) (S.left source.new) (λ bytes. IsRead self.old self.new bytes × MatchResult result (λ _. IsKept self.old self.new bytes) (λ end. end ≡ LineEnd.Failed → bytes ≡ [])) }
        ensures end { self.new.ended ≡ true → IsAtEnd (S.left source.new) }
        ensures too_long { IsErrOf result LineEnd.TooLong ↔ (INPUT_LIMIT < self.new.taken) }
        ensures counts { S.fault_count source.old ≤ S.fault_count source.new }
        ensures failed { IsErrOf result LineEnd.Failed → Rose (S.fault_count source.old) (S.fault_count source.new) }
    {
        self.begun = match joined(self.alloc, self.limit, &self.begun, self.buffer.bytes()) {
            Ok(begun) => begun,
            Err(_) => return Err(LineEnd::NoMemory),
        };
        if self.buffer.read(source).is_err() {
            return Err(LineEnd::Failed);
        }
        let count = self.buffer.bytes().len();
        self.ended = count == 0;
        self.taken += count as u64;
        if self.taken > INPUT_LIMIT {
            return Err(LineEnd::TooLong);
        }
        Ok(())
    }
}

/// The two parts as one, up to its first `limit + 1` bytes.
fn joined(alloc: Global, limit: usize, begun: &[u8], part: &[u8]) -> Result<Vec<u8>, NoMemory>
    requires { length begun.now ≤ limit + 1 }
    ensures { IfOk result (λ line. line.items ≡ take (limit + 1) (begun.now ++ part.now)) }
{
    let mut line = Vec::new(alloc);
    let room = if begun.len() > limit {
        0
    } else {
        (limit - begun.len()).saturating_add(1)
    };
    let more = &part[..part.len().min(room)];
    if line.extend_from_slice(begun).is_err() || line.extend_from_slice(more).is_err() {
        return Err(NoMemory);
    }
    Ok(line)
}
