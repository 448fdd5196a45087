// Making a table, row by row.
ghost use Rattle.std.specs.Prelude.{◌≡◌, ℕ, ◌+◌, ◌-◌, ◌<◌, ◌≤◌, ◌^◌, ◌∷◌, ◌++◌, List, [], true, nat_lt, length, IfOk, IfErr, OnOk, OnErr};
ghost use Rattle.keel_base.specs.declared.row.Row.{Row as ARow};
ghost use Rattle.keel_base.specs.Keys.{key_lt};
ghost use Rattle.keel_base.specs.Rows.{IsRow};
ghost use Rattle.keel_table.specs.Spelling.{entry_bytes, footer_bytes, checked, FooterFits};

use crate::index::Footer;
use crate::spelling;
use keel_base::{Bytes, OutOfMemory, Row};
use std::alloc::Global;

/// The bytes of rows with which a block is closed.
const BLOCK_SIZE: usize = 4096;

/// The most bytes that are read with their check in one call.
const MOST_BYTES: usize = 0xffff_fffb;

/// How many bytes there are. More than can be read at once would not be held.
fn size_of(bytes: &[u8]) -> Result<u32, OutOfMemory>
    ensures size { IfOk result (λ n. n ≡ length bytes.now) }
{
    if MOST_BYTES < bytes.len() {
        return Err(OutOfMemory);
    }
    Ok(bytes.len() as u32)
}

fn footer(index: u64, size: u32, blocks: u32, rows: u64, first: u64, last: u64) -> Footer
    ensures numbers { result ≡ record { index = index; size = size; blocks = blocks; rows = rows; first = first; last = last } }
    ensures fits { FooterFits result }
{
    Footer {
        index,
        size,
        blocks,
        rows,
        first,
        last,
    }
}

/// Makes a table of rows that come in order. It keeps the rows of the block that is open, as bytes, and the index.
#[derive(Debug, Drop)]
pub struct Builder {
    first: u64,
    last: u64,
    /// The rows of the open block.
    open_rows: Bytes,
    /// The key of the row that was added last.
    last_key: Bytes,
    /// The entries of the closed blocks.
    index: Bytes,
    /// The bytes of the closed blocks, which is where the open one begins.
    offset: u64,
    /// How many blocks are closed.
    blocks: u32,
    /// How many rows were added.
    rows: u64,
}

/// The pieces behind those that `add` gave.
#[derive(Debug, Drop)]
pub struct Pieces {
    /// The last block, where rows are left.
    pub block: Option<Bytes>,
    /// The index and the footer.
    pub end: Bytes,
}

/// A table was not finished, for want of memory. The builder is as it was.
#[derive(Debug, Drop)]
pub struct FinishRefused {
    pub builder: Builder,
}

/// What a closed block adds to a builder.
#[derive(Drop)]
struct Closing {
    entry: Bytes,
    offset: u64,
    blocks: u32,
}

impl Builder {
    ghost use Rattle.keel_table.specs.Building.{IsBuilding, IsTableIn, blocks_given, bytes_given, closed_by, footer_behind, key_before, last_block, left_over, piece_bytes, pieces_bytes, pieces_of};
    ghost use Rattle.keel_table.specs.Spelling.{IsTableOf};

    /// A table of rows whose sequence numbers are from `first` to `last`.
    pub fn new(alloc: Global, first: u64, last: u64) -> Result<Builder, OutOfMemory>
        ensures building { IfOk result (IsBuilding first last [] []) }
        ensures bytes { IfOk result (λ b. bytes_given b ≡ 0) }
        ensures blocks { IfOk result (λ b. blocks_given b ≡ 0) }
    {
        Ok(Builder {
            first,
            last,
            open_rows: Bytes::new(alloc),
            last_key: Bytes::new(alloc),
            index: Bytes::new(alloc),
            offset: 0,
            blocks: 0,
            rows: 0,
        })
    }

    /// The key of the row that was added last, which the next one's is to be over: the empty key at the beginning.
    pub fn last_key(&self) -> &[u8]
        ensures { result.now ≡ key_before self.now }
    {
        self.last_key.as_slice()
    }

    /// How many bytes the pieces have that `add` gave, checks included.
    pub fn size(&self) -> u64
        ensures { result ≡ bytes_given self.now }
    {
        self.offset
    }

    /// How many pieces `add` gave: a block each.
    pub fn blocks(&self) -> u32
        ensures { result ≡ blocks_given self.now }
    {
        self.blocks
    }

    /// How many bytes the rows have that are in no piece yet. Where it is not 0, `finish` gives a block of them.
    pub fn open_size(&self) -> usize
        ensures { result ≡ length (left_over self.now) }
    {
        self.open_rows.len()
    }

    /// Whether the open block stays open behind a row of so many bytes.
    fn has_room(&self, size: usize) -> bool
        ensures { result ≡ nat_lt (length self.now.open_rows + size) 4096 }
    {
        size < BLOCK_SIZE && self.open_rows.len() < BLOCK_SIZE - size
    }

    /// What closing a block of that many bytes of rows adds, whose last key is this.
    fn closing(&self, alloc: Global, size: u32, last: &[u8]) -> Result<Closing, OutOfMemory>
        requires { length last.now < 2 ^ 32 }
        ensures entry { IfOk result (λ c. c.entry ≡ entry_bytes (record { offset = self.now.offset; size = size; last = last.now })) }
        ensures offset { IfOk result (λ c. c.offset ≡ self.now.offset + (size + 4)) }
        ensures blocks { IfOk result (λ c. c.blocks ≡ self.now.blocks + 1) }
    {
        let entry = spelling::entry_bytes(alloc, self.offset, size, last)?;
        // A table of more bytes, blocks or entries than the footer can tell would not be held.
        let Some(offset) = self.offset.checked_add(u64::from(size) + 4) else {
            return Err(OutOfMemory);
        };
        let Some(blocks) = self.blocks.checked_add(1) else {
            return Err(OutOfMemory);
        };
        if MOST_BYTES < entry.len() || MOST_BYTES - entry.len() < self.index.len() {
            return Err(OutOfMemory);
        }
        Ok(Closing {
            entry,
            offset,
            blocks,
        })
    }

    /// Puts a row's bytes into the open block, which stays open.
    fn keep(&mut self, spelled: &[u8], key: Bytes, rows: u64) -> Result<(), OutOfMemory>
        ensures ok { OnOk result (self.new ≡ record self.old { open_rows = self.old.open_rows ++ spelled.now; last_key = key; rows = rows }) }
        ensures err { OnErr result (self.new ≡ self.old) }
    {
        self.open_rows.extend(spelled)?;
        self.last_key = key;
        self.rows = rows;
        Ok(())
    }

    /// Closes the open block behind a row's bytes.
    fn close(
        &mut self,
        alloc: Global,
        spelled: &[u8],
        key: Bytes,
        rows: u64,
    ) -> Result<Bytes, OutOfMemory>
        requires { length key < 2 ^ 32 }
        ensures piece { IfOk result (λ piece. piece ≡ checked (self.old.open_rows ++ spelled.now)) }
        ensures ok { OnOk result (self.new ≡ closed_by (self.old.open_rows ++ spelled.now) key rows self.old) }
        ensures err { OnErr result (self.new ≡ self.old) }
    {
        let mut piece = Bytes::from_slice(alloc, self.open_rows.as_slice())?;
        piece.extend(spelled)?;
        let size = size_of(piece.as_slice())?;
        let closing = self.closing(alloc, size, key.as_slice())?;
        spelling::put_check(&mut piece)?;
        self.index.extend(closing.entry.as_slice())?;
        self.open_rows.truncate(0);
        self.last_key = key;
        self.offset = closing.offset;
        self.blocks = closing.blocks;
        self.rows = rows;
        Ok(piece)
    }

    /// Adds the next row. Where it closes a block, the block's piece is given: the pieces go into the file one
    /// behind the other. For want of memory nothing is added, and the builder is as it was.
    pub fn add(&mut self, alloc: Global, row: &Row) -> Result<Option<Bytes>, OutOfMemory>
        requires is_row { IsRow row.now }
        requires over { key_lt (key_before self.old) row.now.key ≡ true }
        ensures ok { IfOk result (λ piece. (first last : ℕ) (rows : List ARow) (given : List ℕ) → IsBuilding first last rows given self.old
            → IsBuilding first last (rows ++ row.now ∷ []) (given ++ piece_bytes piece) self.new) }
        ensures key { OnOk result (key_before self.new ≡ row.now.key) }
        ensures bytes { IfOk result (λ piece. bytes_given self.new ≡ bytes_given self.old + length (piece_bytes piece)) }
        ensures blocks { IfOk result (λ piece. blocks_given self.new ≡ blocks_given self.old + pieces_of piece) }
        ensures err { OnErr result (self.new ≡ self.old) }
    {
        let Some(rows) = self.rows.checked_add(1) else {
            return Err(OutOfMemory);
        };
        let key = Bytes::from_slice(alloc, row.key.as_slice())?;
        let spelled = spelling::row_bytes(alloc, row)?;
        if self.has_room(spelled.len()) {
            self.keep(spelled.as_slice(), key, rows)?;
            return Ok(None);
        }
        let piece = self.close(alloc, spelled.as_slice(), key, rows)?;
        Ok(Some(piece))
    }

    /// The index with these entries of so many blocks, which end at that offset, and the footer.
    fn end(
        &self,
        alloc: Global,
        index: &[u8],
        offset: u64,
        blocks: u32,
    ) -> Result<Bytes, OutOfMemory>
        ensures bytes { IfOk result (λ b. b ≡ checked index.now ++ footer_bytes (footer_behind index.now offset blocks self.now)) }
        ensures fits { OnOk result (FooterFits (footer_behind index.now offset blocks self.now)) }
    {
        let size = size_of(index)?;
        let footer = footer(offset, size, blocks, self.rows, self.first, self.last);
        spelling::end_bytes(alloc, index, &footer)
    }

    /// The last block, where rows are left, and the end of the table.
    fn pieces(&self, alloc: Global) -> Result<Pieces, OutOfMemory>
        ensures table { IfOk result (λ pieces. (first last : ℕ) (rows : List ARow) (given : List ℕ) → IsBuilding first last rows given self.now
            → IsTableOf first last rows (given ++ pieces_bytes pieces)) }
        ensures blocks { IfOk result (λ pieces. (first last : ℕ) (rows : List ARow) (given : List ℕ) → IsBuilding first last rows given self.now
            → IsTableIn (blocks_given self.now + pieces_of pieces.block) first last rows (given ++ pieces_bytes pieces)) }
        ensures parts { IfOk result (λ pieces. pieces.block ≡ last_block (left_over self.now)) }
    {
        if self.open_rows.len() == 0 {
            let end = self.end(alloc, self.index.as_slice(), self.offset, self.blocks)?;
            return Ok(Pieces { block: None, end });
        }
        let size = size_of(self.open_rows.as_slice())?;
        size_of(self.last_key.as_slice())?;
        let closing = self.closing(alloc, size, self.last_key.as_slice())?;
        let mut index = Bytes::from_slice(alloc, self.index.as_slice())?;
        index.extend(closing.entry.as_slice())?;
        let mut block = Bytes::from_slice(alloc, self.open_rows.as_slice())?;
        spelling::put_check(&mut block)?;
        let end = self.end(alloc, index.as_slice(), closing.offset, closing.blocks)?;
        Ok(Pieces {
            block: Some(block),
            end,
        })
    }

    /// Ends the table: the pieces behind those that `add` gave, a block where rows are left, and the end. So the pieces
    /// are one more than the table has blocks. For want of memory, the one refusal, the builder is handed back as it
    /// was.
    pub fn finish(self, alloc: Global) -> Result<Pieces, FinishRefused>
        ensures ok { IfOk result (λ pieces. (first last : ℕ) (rows : List ARow) (given : List ℕ) → IsBuilding first last rows given self
            → IsTableOf first last rows (given ++ pieces_bytes pieces)) }
        ensures blocks { IfOk result (λ pieces. (first last : ℕ) (rows : List ARow) (given : List ℕ) → IsBuilding first last rows given self
            → IsTableIn (blocks_given self + pieces_of pieces.block) first last rows (given ++ pieces_bytes pieces)) }
        ensures parts { IfOk result (λ pieces. pieces.block ≡ last_block (left_over self)) }
        ensures err { IfErr result (λ refused. refused.builder ≡ self) }
    {
        match self.pieces(alloc) {
            Ok(pieces) => Ok(pieces),
            Err(_) => Err(FinishRefused { builder: self }),
        }
    }
}
