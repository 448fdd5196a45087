//! What holds of merges, as the contracts of functions that do nothing.
ghost use Rattle.keel_merge.specs.Laws.{OneMerge, HandsOutAll, HasTheNewest, SameMap};

/// Rows have one merge.
pub fn one_merge()
    ensures { OneMerge }
{}

/// It has each row that is the newest of its key and stays, and no other.
pub fn has_the_newest()
    ensures { HasTheNewest }
{}

/// It leaves the map that the rows leave.
pub fn same_map()
    ensures { SameMap }
{}

/// What a merge handed out, and what it will hand out, are the merge of its lists behind each call and each refill; so at
/// the end all rows that were handed out are that merge.
pub fn hands_out_all()
    ensures { HandsOutAll }
{}
