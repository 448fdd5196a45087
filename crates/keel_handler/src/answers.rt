// What a handler answers.

/// What became of a failure that was noted.
#[derive(Clone, Copy, Debug, PartialEq, Eq)]
pub enum Noted {
    /// It is the standing error now.
    Replaced,
    /// Another error, or none, goes on to stand.
    Kept,
}

/// Whether an automatic attempt to recover is due.
#[derive(Clone, Copy, Debug, PartialEq, Eq)]
pub enum Due {
    /// No attempt is made by itself.
    No,
    /// So many attempts were made, and no other one is made against this error.
    GivenUp { attempts: u32 },
    /// Not before this tick.
    Wait { until: u64 },
    Now,
}
