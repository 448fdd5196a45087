//! What holds of the standing error, as the contracts of functions that do nothing.
ghost use Rattle.keel_handler.specs.Laws.{OneStanding, StandingIsFound};

/// Every list of failures has one standing error, so that a handler can only keep that one.
pub fn one_standing()
    ensures { OneStanding }
{}

/// The standing error as a function of the failures is that one.
pub fn standing_is_found()
    ensures { StandingIsFound }
{}
