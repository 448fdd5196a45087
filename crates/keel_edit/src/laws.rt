//! What holds of edits and their spellings, as the contracts of functions that do nothing.
ghost use Rattle.keel_edit.specs.Laws.{OneSpelling, SpellingLength};

/// No two edits of a manifest are spelled the same, so what `encode` gave is read as the edit that it was given.
pub fn one_spelling()
    ensures { OneSpelling }
{}

/// An edit has 33 bytes, 9 for each table that goes, and 49 and its two keys for each that comes.
pub fn spelling_length()
    ensures { SpellingLength }
{}
