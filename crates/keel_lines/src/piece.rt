// Bytes that were taken of a source at once.
ghost use Rattle.std.specs.Prelude.{◌≡◌, ◌<◌, ◌≤◌, ◌≢◌, ◌==◌, not, true, false, Ok, [], length, drop, IfOk, OnErr};
ghost use Rattle.std.specs.Io.KnownBytes.{IsAtEnd, Keeps, prepend_known};
ghost use Rattle.keel_base.specs.Counts.{HasCause};
ghost use Rattle.keel_lines.specs.Lines.{longest_piece};

use keel_base::{Failed, Source};

/// The bytes of a piece from `start` to `end` were not looked at yet.
#[derive(Drop)]
pub(crate) struct Piece {
    bytes: [u8; 4096],
    start: usize,
    end: usize,
    ghost ordered: { start ≤ end },
    ghost within: { end ≤ 4096 },
}

impl Piece {
    ghost use Rattle.keel_lines.specs.Pieces.{rest_of};

    pub(crate) fn new() -> Self
        ensures { rest_of result ≡ [] }
    {
        Piece {
            bytes: [0; 4096],
            start: 0,
            end: 0,
        }
    }

    /// What was not looked at yet.
    pub(crate) fn rest(&self) -> &[u8]
        ensures value { result.now ≡ rest_of self.now }
        ensures few { length result.now ≤ longest_piece }
    {
        let taken = &self.bytes[..self.end];
        &taken[self.start..]
    }

    /// Leaves so many bytes behind.
    pub(crate) fn skip(&mut self, count: usize)
        requires { count ≤ length (rest_of self.old) }
        ensures { rest_of self.new ≡ drop count (rest_of self.old) }
    {
        self.start += count;
    }

    /// Takes the next piece where this one is behind, and says whether there is a byte; none is the end of the
    /// source. A fault of the source takes nothing.
    pub(crate) fn fill<S: Source>(&mut self, source: &mut S) -> Result<bool, Failed>
        ensures some { IfOk result (λ some. some ≡ not (length (rest_of self.new) == 0)) }
        ensures end { IfOk result (λ some. some ≡ false → IsAtEnd (S.remaining source.new)) }
        ensures err { OnErr result (rest_of self.new ≡ []) }
        ensures kept { Keeps (prepend_known (rest_of self.old) (S.remaining source.old)) (prepend_known (rest_of self.new) (S.remaining source.new)) }
        ensures few { length (rest_of self.new) ≤ longest_piece }
        ensures cause { HasCause (S.faults source.old) (S.faults source.new) result }
    {
        if self.start < self.end {
            return Ok(true);
        }
        self.start = 0;
        self.end = 0;
        let count = source.take(&mut self.bytes)?;
        self.end = count;
        Ok(count > 0)
    }
}
