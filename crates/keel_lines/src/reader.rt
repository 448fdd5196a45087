// The lines of a source, one at a time.
ghost use Rattle.std.specs.Prelude.{◌≡◌, ◌≤◌, Ok, None, Some, false, true, [], OnErr, IfOk, IfSome, IsErrOf};
ghost use Rattle.keel_base.specs.Counts.{Rose};
ghost use Rattle.keel_lines.specs.Calls.{GivesLine, HoldsFew, IsFinished, IsHeld, PassesLine, PassesInput, IsCut};

use crate::line::{LineEnd, MAX_INPUT, find_end};
use crate::piece::Piece;
use keel_base::{Bytes, Source};
use std::alloc::Global;
use std::marker::Model;
use std::mem;

/// Gives the lines of a source. It holds one line and one piece of the source at most.
#[derive(Drop)]
pub struct LineReader<S: Source> {
    alloc: Global,
    source: S,
    piece: Piece,
    // the beginning of the next line
    line: Bytes,
    passed: usize,
    ended: bool,
}

impl<S: Source> Model for LineReader<S> {
    ghost use Rattle.std.specs.Prelude.{◌++◌};
    ghost use Rattle.keel_lines.specs.Calls.{LinesView};
    ghost use Rattle.keel_lines.specs.Pieces.{rest_of};
    ghost use Rattle.keel_lines.specs.Orders.{IsInOrder};

    ghost Value = { LinesView };

    ghost view = { λ r. record {
      pending = r.line ++ rest_of r.piece;
      passed = r.passed;
      ended = r.ended;
      remaining = S.remaining r.source;
      faults = S.faults r.source;
    } };

    ghost invariant = { λ r. IsInOrder r.line (rest_of r.piece) r.passed r.ended (S.remaining r.source) };
}

impl<S: Source> LineReader<S> {
    /// Nothing is taken of the source yet.
    pub fn new(alloc: Global, source: S) -> Self
        ensures pending { result.pending ≡ [] }
        ensures passed { result.passed ≡ 0 }
        ensures ended { result.ended ≡ false }
        ensures remaining { result.remaining ≡ S.remaining source }
        ensures faults { result.faults ≡ S.faults source }
    {
        LineReader {
            alloc,
            source,
            piece: Piece::new(),
            line: Bytes::new(alloc),
            passed: 0,
            ended: false,
        }
    }

    /// The next line without its newline, which the last one may lack, or `None` at the end of the input. An error
    /// gives no line and loses no byte: behind `Fault` and `OutOfMemory` the call may be made again.
    pub fn next(&mut self) -> Result<Option<Bytes>, LineEnd>
        ensures line { IfOk result (λ next. IfSome next (GivesLine self.old self.new)) }
        ensures end { result ≡ Ok None → IsFinished self.old self.new }
        ensures err { OnErr result (IsHeld self.old self.new) }
        ensures few { HoldsFew self.new }
        ensures too_long { IsErrOf result LineEnd.TooLong → PassesLine self.new }
        ensures long_input { IsErrOf result LineEnd.LongInput → PassesInput self.new }
        ensures fault { IsErrOf result LineEnd.Fault → IsCut self.new }
        ensures cause { IsErrOf result LineEnd.Fault → Rose self.old.faults self.new.faults }
        ensures later { self.old.faults ≤ self.new.faults }
    {
        if self.ended {
            return Ok(None);
        }
        let room = MAX_INPUT - self.passed;
        if find_end(&mut self.source, &mut self.piece, &mut self.line, room)? {
            let line = mem::replace(&mut self.line, Bytes::new(self.alloc));
            self.passed += line.len() + 1;
            return Ok(Some(line));
        }
        self.ended = true;
        if self.line.len() == 0 {
            return Ok(None);
        }
        let line = mem::replace(&mut self.line, Bytes::new(self.alloc));
        self.passed += line.len();
        Ok(Some(line))
    }

    /// Gives the source back. What was taken of it and not given is lost.
    pub fn into_source(self) -> S
        ensures remaining { S.remaining result ≡ self.remaining }
        ensures faults { S.faults result ≡ self.faults }
    {
        self.source
    }
}
