// Where bytes stand in a region, and what an index keeps of a change.
use keel_base::Kind;

/// A run of a region's bytes.
#[derive(Clone, Copy, Debug, PartialEq, Eq)]
pub struct Span {
    pub start: usize,
    pub length: usize,
}

/// A change of a key: its sequence number and kind, and the spans of its key and value.
#[derive(Clone, Copy, Debug, PartialEq, Eq)]
pub struct IndexEntry {
    pub seq: u64,
    pub kind: Kind,
    pub key: Span,
    pub value: Span,
}
