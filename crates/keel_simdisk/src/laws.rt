//! What the clauses come to, as the contracts of functions that do nothing.
ghost use Rattle.keel_simdisk.specs.Laws.{OneAnswer, OneRead};

/// Nothing but want of memory leaves open which answer a call gets and what stands behind it.
pub fn one_answer()
    ensures changes { OneAnswer }
    ensures reads { OneRead }
{}
