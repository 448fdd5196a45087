// Where input comes from.
ghost use Rattle.std.specs.Prelude.{◌≡◌, ◌<◌, ◌≤◌, ◌^◌, ℕ, List, IfOk, OnOk, IsErrOf, Option, length};
ghost use Rattle.std.specs.Io.KnownBytes.{ReadConsumes};
ghost use Rattle.keel_base.specs.Counts.{HasCause, Rose};
ghost use Rattle.keel_base.specs.Streams.{TakesAll, TakesMore};

use crate::Failed;
use std::alloc::Global;

pub trait Source: Drop {
    /// The bytes that are left, where they are told.
    ghost remaining: { Self → Option (List ℕ) };

    /// How often it has failed.
    ghost faults: { Self → ℕ };

    /// Takes bytes into the beginning of the buffer, and says how many. None for a buffer with room is the end.
    fn take(&mut self, buffer: &mut [u8]) -> Result<usize, Failed>
        ensures bound { IfOk result (λ n. n ≤ length buffer.new) }
        ensures bytes { ReadConsumes (remaining self.old) (remaining self.new) result buffer.new }
        ensures cause { HasCause (faults self.old) (faults self.new) result };
}

/// Why input was not read to its end.
#[derive(Clone, Copy, Debug, PartialEq, Eq)]
pub enum TakeEnd {
    Fault,
    TooLong,
    OutOfMemory,
}

/// Reads to the end of the input, where it has at most so many bytes.
pub fn take_all<S: Source>(alloc: Global, source: &mut S, limit: usize) -> Result<Vec<u8>, TakeEnd>
    requires { limit < 2 ^ 32 }
    ensures ok { IfOk result (λ input. TakesAll (S.remaining source.old) (S.remaining source.new) limit input.items) }
    ensures later { S.faults source.old ≤ S.faults source.new }
    ensures fault { IsErrOf result TakeEnd.Fault → Rose (S.faults source.old) (S.faults source.new) }
    ensures too_long { IsErrOf result TakeEnd.TooLong → TakesMore (S.remaining source.old) (S.remaining source.new) limit }
{
    let mut input = Vec::new(alloc);
    let mut buffer = [0; 4096];
    'reading: while input.len() <= limit {
        let count = match source.take(&mut buffer) {
            Ok(count) => count,
            Err(_) => return Err(TakeEnd::Fault),
        };
        if count == 0 {
            return Ok(input);
        }
        if input.extend_from_slice(&buffer[..count]).is_err() {
            return Err(TakeEnd::OutOfMemory);
        }
    }
    Err(TakeEnd::TooLong)
}
