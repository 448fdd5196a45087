// A table in memory, until it is in its file.
ghost use Rattle.std.specs.Prelude.{◌≡◌, ◌+◌, ◌<◌, ◌++◌, [], take, drop, length, get_or, IfOk, OnOk};
ghost use Rattle.keel_table.specs.Building.{piece_bytes};
ghost use Rattle.keel_draft.specs.Drafts.{IsTableFor, added_of, pieces_in};

use crate::gathering::{Gathering, gather};
use keel_base::{Bytes, OutOfMemory};
use keel_edit::Added;
use keel_mem::Mem;
use keel_table::{BlockEntries, Footer, open_bytes};
use std::alloc::Global;
use std::marker::Model;

/// The bytes of a table, and the entries that tell its blocks.
#[derive(Debug, Drop)]
pub struct TableDraft {
    bytes: Bytes,
    footer: Footer,
    entries: BlockEntries,
    least: Bytes,
    greatest: Bytes,
}

// Adds the bytes of a piece, where there is one.
fn extend_with(bytes: &mut Bytes, piece: &Option<Bytes>) -> Result<(), OutOfMemory>
    ensures { OnOk result (bytes.new ≡ bytes.old ++ piece_bytes piece.now) }
{
    match piece {
        Some(piece) => bytes.extend(piece.as_slice()),
        None => Ok(()),
    }
}

// The bytes behind the first ones.
fn behind(bytes: &[u8], offset: u64) -> &[u8]
    ensures { result.now ≡ drop offset bytes.now }
{
    if bytes.len() as u64 <= offset {
        return b"";
    }
    let (_, rest) = bytes.split_at(offset as usize);
    rest
}

// Rows of so many bytes from an offset on, with their check, as far as they are there.
fn block_at(bytes: &[u8], offset: u64, size: u32) -> &[u8]
    ensures { result.now ≡ take (size + 4) (drop offset bytes.now) }
{
    let rest = behind(bytes, offset);
    let size = u64::from(size) + 4;
    if rest.len() as u64 <= size {
        return rest;
    }
    let (part, _) = rest.split_at(size as usize);
    part
}

impl Model for TableDraft {
    ghost use Rattle.keel_draft.specs.Drafts.{Draft};
    ghost use Rattle.keel_draft.specs.TablesInMemory.{draft_in, HoldsDraft};

    ghost Value = { Draft };

    ghost view = { λ t. draft_in t.bytes t.footer t.entries };

    ghost invariant = { λ t. HoldsDraft t.bytes t.footer t.entries t.least t.greatest (draft_in t.bytes t.footer t.entries) };
}

impl TableDraft {
    /// The table of a memtable's rows.
    pub fn of(alloc: Global, mem: &Mem) -> Result<TableDraft, OutOfMemory>
        ensures { IfOk result (IsTableFor mem.now.rows) }
    {
        let Gathering {
            builder,
            mut bytes,
            least,
        } = gather(alloc, mem)?;
        let greatest = Bytes::from_slice(alloc, builder.last_key())?;
        let Ok(pieces) = builder.finish(alloc) else {
            return Err(OutOfMemory);
        };
        extend_with(&mut bytes, &pieces.block)?;
        bytes.extend(pieces.end.as_slice())?;
        // A table that was just made opens, so memory alone may be wanting.
        let Ok((footer, entries)) = open_bytes(alloc, bytes.as_slice()) else {
            return Err(OutOfMemory);
        };
        Ok(TableDraft {
            bytes,
            footer,
            entries,
            least,
            greatest,
        })
    }

    /// How many pieces go into its file: one more than it has blocks.
    pub fn pieces(&self) -> usize
        ensures { result ≡ length (pieces_in self.now) }
    {
        self.entries.as_slice().len() + 1
    }

    /// A piece by its number: the bytes of a block, or those behind the blocks.
    pub fn piece(&self, number: usize) -> &[u8]
        requires { number < length (pieces_in self.now) }
        ensures { result.now ≡ get_or (pieces_in self.now) number [] }
    {
        let bytes = self.bytes.as_slice();
        match self.entries.as_slice().get(number) {
            Some(entry) => block_at(bytes, entry.offset, entry.size),
            None => behind(bytes, self.footer.index),
        }
    }

    /// The greatest sequence number of its memtable.
    pub fn last(&self) -> u64
        ensures { result ≡ self.now.last }
    {
        self.footer.last
    }

    /// Its entry in an edit, where its file has that number.
    pub fn added(&self, alloc: Global, number: u64) -> Result<Added, OutOfMemory>
        ensures { IfOk result (λ added. added ≡ added_of number self.now) }
    {
        Ok(Added {
            level: 0,
            number,
            size: self.bytes.len() as u64,
            rows: self.footer.rows,
            first: self.footer.first,
            last: self.footer.last,
            least: Bytes::from_slice(alloc, self.least.as_slice())?,
            greatest: Bytes::from_slice(alloc, self.greatest.as_slice())?,
        })
    }
}
