// Finding the end of the next line.
ghost use Rattle.std.specs.Prelude.{◌≡◌, ◌≢◌, ◌<◌, ◌≤◌, ◌++◌, true, false, [], length, OnErr, IfOk, IsErrOf};
ghost use Rattle.std.specs.Io.KnownBytes.{Consumes, IsAtEnd, Keeps, prepend_known};
ghost use Rattle.keel_base.specs.Counts.{Rose};
ghost use Rattle.keel_lines.specs.Lines.{length_before, longest_piece};
ghost use Rattle.keel_lines.specs.Pieces.{rest_of, mark_if, GoesOn, IsBegun, IsTooLong, IsTooMuch};

use crate::piece::Piece;
use keel_base::{Bytes, Failed, OutOfMemory, Source};
use memchr::memchr;

/// The most bytes of a line, without its newline.
pub const MAX_LINE: usize = 8192;

/// The most bytes of an input.
pub const MAX_INPUT: usize = 67_108_864;

/// Why no line is given.
#[derive(Clone, Copy, Debug, PartialEq, Eq)]
pub enum LineEnd {
    /// The next line passes `MAX_LINE` bytes, within the first `MAX_INPUT` of the input.
    TooLong,
    /// The input passes `MAX_INPUT` bytes, and no further line is whole within them.
    LongInput,
    /// The source failed.
    Fault,
    OutOfMemory,
}

impl From<OutOfMemory> for LineEnd {
    ghost use Rattle.std.specs.Prelude.{◌≡◌};
    ghost use Rattle.keel_lines.specs.declared.line.LineEnd.TheVariants.{OutOfMemory as NoMemory};

    ghost from_gives = { λ _ e. e ≡ NoMemory };

    fn from(_: OutOfMemory) -> Self {
        LineEnd::OutOfMemory
    }
}

impl From<Failed> for LineEnd {
    ghost use Rattle.std.specs.Prelude.{◌≡◌};
    ghost use Rattle.keel_lines.specs.declared.line.LineEnd.TheVariants.{Fault};

    ghost from_gives = { λ _ e. e ≡ Fault };

    fn from(_: Failed) -> Self {
        LineEnd::Fault
    }
}

// How many bytes stand before the first newline.
fn length_before(bytes: &[u8]) -> usize
    ensures length { result ≡ length_before bytes.now }
    ensures within { result ≤ length bytes.now }
{
    match memchr(b'\n', bytes) {
        Some(place) => place,
        None => bytes.len(),
    }
}

// Adds to a line that has begun what the piece has of it, and says whether that ends with the newline. There is
// room for so many bytes, with the newline. An error leaves both as they were.
fn take_part(piece: &mut Piece, line: &mut Bytes, room: usize) -> Result<bool, LineEnd>
    requires some { 0 < length (rest_of piece.old) }
    requires begun { IsBegun room line.old }
    ensures ok { IfOk result (λ found. GoesOn found line.old (rest_of piece.old) line.new (rest_of piece.new) room) }
    ensures line { OnErr result (line.new ≡ line.old) }
    ensures piece { OnErr result (rest_of piece.new ≡ rest_of piece.old) }
    ensures few { length (rest_of piece.new) ≤ longest_piece }
    ensures too_long { IsErrOf result LineEnd.TooLong → IsTooLong room (line.old ++ rest_of piece.old) }
    ensures long_input { IsErrOf result LineEnd.LongInput → IsTooMuch room (line.old ++ rest_of piece.old) }
    ensures fault { result ≢ Err LineEnd.Fault }
{
    let rest = piece.rest();
    let count = length_before(rest);
    let through = rest.len().min(count + 1);
    if (line.len() + count).min(room) > MAX_LINE {
        return Err(LineEnd::TooLong);
    }
    if line.len() + through > room {
        return Err(LineEnd::LongInput);
    }
    line.extend(&rest[..count])?;
    piece.skip(through);
    Ok(count < through)
}

/// Goes on with a line that has begun, up to its newline or the end of the source, and says whether it found the
/// newline. There is room for so many bytes, with the newline. An error loses no byte.
pub(crate) fn find_end<S: Source>(
    source: &mut S,
    piece: &mut Piece,
    line: &mut Bytes,
    room: usize,
) -> Result<bool, LineEnd>
    requires begun { IsBegun room line.old }
    requires bound { room ≤ 67108864 }
    ensures taken { IfOk result (λ found. Consumes (prepend_known (line.old ++ rest_of piece.old) (S.remaining source.old))
        (prepend_known (rest_of piece.new) (S.remaining source.new)) (line.new ++ mark_if found)) }
    ensures begun { IsBegun room line.new }
    ensures few { length (rest_of piece.new) ≤ longest_piece }
    ensures fits { IfOk result (λ found. length (line.new ++ mark_if found) ≤ room) }
    ensures rest { IfOk result (λ found. found ≡ false → rest_of piece.new ≡ []) }
    ensures end { IfOk result (λ found. found ≡ false → IsAtEnd (S.remaining source.new)) }
    ensures err { OnErr result (Keeps (prepend_known (line.old ++ rest_of piece.old) (S.remaining source.old))
        (prepend_known (line.new ++ rest_of piece.new) (S.remaining source.new))) }
    ensures too_long { IsErrOf result LineEnd.TooLong → IsTooLong room (line.new ++ rest_of piece.new) }
    ensures long_input { IsErrOf result LineEnd.LongInput → IsTooMuch room (line.new ++ rest_of piece.new) }
    ensures fault { IsErrOf result LineEnd.Fault → rest_of piece.new ≡ [] }
    ensures cause { IsErrOf result LineEnd.Fault → Rose (S.faults source.old) (S.faults source.new) }
    ensures later { S.faults source.old ≤ S.faults source.new }
{
    'parts: loop {
        if !piece.fill(source)? {
            return Ok(false);
        }
        if take_part(piece, line, room)? {
            return Ok(true);
        }
    }
}
