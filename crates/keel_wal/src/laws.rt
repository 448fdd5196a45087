//! What holds of replays, as the contract of a function that does nothing.
ghost use Rattle.keel_wal.specs.Laws.{SoundIsOrderly};

/// A device as calls and crashes leave it has files with names of the store alone, and no name twice.
pub fn sound_is_orderly()
    ensures { SoundIsOrderly }
{}
