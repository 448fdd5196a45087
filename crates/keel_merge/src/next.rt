// What a merge answers.
use keel_base::Row;

/// What comes next of a merge.
#[derive(Debug, Drop)]
pub enum Next {
    /// The next row. It is final: no refill can change it.
    Merged(Row),
    /// The list of this number has to be refilled first, or closed.
    Refill(usize),
    /// All was fed, and all rows were handed out.
    End,
}
