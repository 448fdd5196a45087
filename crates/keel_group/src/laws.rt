//! What holds of groups, as the contracts of functions that do nothing.
ghost use Rattle.keel_group.specs.Laws.{IsLongestPrefix, GroupAndRest};

/// The size of a group is that of the longest prefix of the queue that is light enough, or 1 where the first batch
/// alone is too heavy; no other number is.
pub fn longest_prefix()
    ensures { IsLongestPrefix }
{}

/// What a group takes and what it leaves are the queue: in length, batches, tickets and ops.
pub fn group_and_rest()
    ensures { GroupAndRest }
{}
