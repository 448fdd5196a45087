//! What holds of the deletion of trash, as the contracts of functions that do nothing.
ghost use Rattle.keel_trash.specs.Laws.{EndIsUnseen};

/// The count of bytes that went stops at 2^128 - 1, which no wait shows: the tick is that of the true count.
pub fn end_is_unseen()
    ensures { EndIsUnseen }
{}
