// Where output goes.
ghost use Rattle.std.specs.Prelude.{◌≡◌, ◌<◌, ◌≤◌, ℕ, List, IfOk, Option, length};
ghost use Rattle.std.specs.Io.KnownBytes.{WriteAppends};
ghost use Rattle.keel_base.specs.Counts.{HasCause, Rose};
ghost use Rattle.keel_base.specs.Streams.{GivesAll};

use crate::Failed;

pub trait Sink: Drop {
    /// The bytes that were given so far, where they are told.
    ghost held: { Self → Option (List ℕ) };

    /// How often it has failed.
    ghost faults: { Self → ℕ };

    /// Gives bytes from the beginning of these, and says how many.
    fn give(&mut self, bytes: &[u8]) -> Result<usize, Failed>
        ensures bound { IfOk result (λ n. n ≤ length bytes.now) }
        ensures bytes { WriteAppends (held self.old) (held self.new) result bytes.now }
        ensures cause { HasCause (faults self.old) (faults self.new) result }
        // Taking nothing of what there is counts as a fault.
        ensures nothing { IfOk result (λ n. n ≡ 0 → 0 < length bytes.now → Rose (faults self.old) (faults self.new)) };
}

/// Gives all of these bytes; after a fault, a part of them was given.
pub fn give_all<K: Sink>(sink: &mut K, bytes: &[u8]) -> Result<(), Failed>
    ensures bytes { GivesAll (K.held sink.old) (K.held sink.new) bytes.now result }
    ensures cause { HasCause (K.faults sink.old) (K.faults sink.new) result }
{
    let mut given = 0;
    'giving: while given < bytes.len() {
        let count = sink.give(&bytes[given..])?;
        if count == 0 {
            return Err(Failed);
        }
        given += count;
    }
    Ok(())
}
