//! What the lines that a reader gave are of its input, as the contracts of functions that do nothing.
//!
//! `Delivered input view lines` holds of a new reader with no lines, and is kept by each call of `next`.
ghost use Rattle.keel_lines.specs.Laws.{Begins, AddsLine, HoldsLines, EndsLines, FewTaken, FirstGiven, AllGiven, LongIsNext, WholeWithin, WholeTaken};

/// A new reader has given no line of its input.
pub fn begins()
    ensures { Begins }
{}

/// Behind a line given, that line stands behind those before it.
pub fn adds_line()
    ensures { AddsLine }
{}

/// An error leaves the lines that were given.
pub fn holds_lines()
    ensures { HoldsLines }
{}

/// The end leaves them too.
pub fn ends_lines()
    ensures { EndsLines }
{}

/// Of a source at most `MAX_INPUT` bytes and one piece are taken.
pub fn few_taken()
    ensures { FewTaken }
{}

/// The lines given are the first of the input, within its first `MAX_INPUT` bytes.
pub fn are_first()
    ensures { FirstGiven }
{}

/// At the end of the input they are all of its lines, and it has at most `MAX_INPUT` bytes.
pub fn are_all()
    ensures { AllGiven }
{}

/// Where a line is too long, that is the next line of the input, and passes its bytes within the first `MAX_INPUT`.
pub fn long_is_next()
    ensures { LongIsNext }
{}

/// Where the input is too long, the lines given are those that are whole within its first `MAX_INPUT` bytes. No line of
/// these bytes is too long.
pub fn whole_within()
    ensures { WholeWithin }
{}

/// Where the source failed, they are the whole lines among the bytes that were taken of it.
pub fn whole_taken()
    ensures { WholeTaken }
{}
