// A row that stands in the bytes of a block.
use keel_base::{Bytes, Kind, OutOfMemory, Row};
use std::alloc::Global;

/// A row whose key and value stand in the bytes of a block.
#[derive(Clone, Copy)]
pub(crate) struct RowView<'a> {
    pub seq: u64,
    pub kind: Kind,
    pub key: &'a [u8],
    pub value: &'a [u8],
}

impl RowView<'_> {
    ghost use Rattle.std.specs.Prelude.{◌≡◌, IfOk};
    ghost use Rattle.keel_table.specs.Walking.{row_shown};

    /// The row, with bytes of its own.
    pub(crate) fn to_row(&self, alloc: Global) -> Result<Row, OutOfMemory>
        ensures { IfOk result (λ row. row ≡ row_shown self.now) }
    {
        Ok(Row {
            seq: self.seq,
            kind: self.kind,
            key: Bytes::from_slice(alloc, self.key)?,
            value: Bytes::from_slice(alloc, self.value)?,
        })
    }
}
