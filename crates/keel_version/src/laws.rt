//! What holds of versions and lookups, as the contracts of functions that do nothing.
ghost use Rattle.keel_version.specs.Lookup.{AnyOrder, FindsGreatest, LooksInEach};
ghost use Rattle.keel_version.specs.Applying.{EditsHaveLevels};
ghost use Rattle.keel_version.specs.Behind.{AppliedLeaves, AppliedMayCome, FirstIsLeast, WholeEdit, WholeIsEdit};
ghost use Rattle.keel_version.specs.Ranges.{NearIsMeeting};

/// Of all rows of a key the one of the greatest sequence number is found, and nothing exactly where there is none.
pub fn finds_greatest()
    ensures { FindsGreatest }
{}

/// Looking for a key in each table alone, and keeping the row of the greatest number, finds what looking through
/// all rows does.
pub fn looks_in_each()
    ensures { LooksInEach }
{}

/// The order of the tables makes no difference, where no two rows of the key have one number.
pub fn any_order()
    ensures { AnyOrder }
{}

/// What was decoded can be applied: its levels are 0 to 3.
pub fn edits_have_levels()
    ensures { EditsHaveLevels }
{}

/// Behind an edit stand the tables that come, and those of before that the edit doesn't name; and no others.
pub fn applied_leaves()
    ensures { AppliedLeaves }
{}

/// Where all tables of a version come in one edit, it makes that version of nothing.
pub fn whole_edit()
    ensures { WholeEdit }
{}

/// Behind an edit that a manifest may hold stands what one may hold: tables as edits bring them, and numbers of at
/// most 2^56.
pub fn applied_may_come()
    ensures { AppliedMayCome }
{}

/// So the edit in which all of a version comes is one that a manifest may hold, and is read back.
pub fn whole_is_edit()
    ensures { WholeIsEdit }
{}

/// The first table of a level, which a compaction takes, has the least number there.
pub fn first_is_least()
    ensures { FirstIsLeast }
{}

/// A table of the next level is compacted too exactly where its range meets the range of the seeds taken together.
pub fn near_is_meeting()
    ensures { NearIsMeeting }
{}
