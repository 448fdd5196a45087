// Rows: what a change leaves of a key.
use crate::{Bytes, Sequence};

#[derive(Clone, Copy, Debug, PartialEq, Eq)]
pub enum Kind {
    Del,
    Put,
}

/// What a key has behind the change of this sequence number. A deleted key has an empty value.
#[derive(Debug, Drop)]
pub struct Row {
    pub seq: u64,
    pub kind: Kind,
    pub key: Bytes,
    pub value: Bytes,
}

/// Rows in their order.
pub type Rows = Sequence<Row>;

/// Lists of rows in their order.
pub type RowLists = Sequence<Rows>;
