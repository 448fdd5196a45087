// Writing the parts of a table.
ghost use Rattle.std.specs.Prelude.{◌≡◌, ◌<◌, ◌≤◌, ◌^◌, ◌++◌, ◌∷◌, [], length, IfOk, OnOk};
ghost use Rattle.keel_base.specs.Rows.{IsRow};
ghost use Rattle.keel_table.specs.Spelling as spec;

use crate::index::{BlockEntry, Footer};
use keel_base::{Bytes, Kind, OutOfMemory, Row};
use keel_frag::{crc32c, mask};
use std::alloc::Global;

/// The bytes that tell a table.
pub(crate) const MAGIC: [u8; 4] = [b'K', b'T', b'B', b'1'];

#[tactic(auto, unfolding(crate::specs::Spelling::number))]
fn put_number(out: &mut Bytes, number: u64) -> Result<(), OutOfMemory>
    ensures { OnOk result (out.new ≡ out.old ++ spec.number number) }
{
    out.extend(&number.to_le_bytes())
}

#[tactic(auto, unfolding(crate::specs::Spelling::count))]
fn put_count(out: &mut Bytes, count: u32) -> Result<(), OutOfMemory>
    ensures { OnOk result (out.new ≡ out.old ++ spec.count count) }
{
    out.extend(&count.to_le_bytes())
}

/// Puts the masked check of what is there behind it.
#[tactic(auto, unfolding(crate::specs::Spelling::checked))]
pub(crate) fn put_check(out: &mut Bytes) -> Result<(), OutOfMemory>
    ensures { OnOk result (out.new ≡ spec.checked out.old) }
{
    let check = mask(crc32c(out.as_slice()));
    put_count(out, check)
}

fn kind_byte(kind: Kind) -> u8
    ensures { result ≡ spec.kind_byte kind }
{
    match kind {
        Kind::Put => 1,
        Kind::Del => 0,
    }
}

fn put_row(out: &mut Bytes, row: &Row) -> Result<(), OutOfMemory>
    requires { IsRow row.now }
    ensures { OnOk result (out.new ≡ out.old ++ spec.row_bytes row.now) }
{
    put_number(out, row.seq)?;
    out.extend(&[kind_byte(row.kind)])?;
    put_lengths(out, row)?;
    out.extend(row.key.as_slice())?;
    out.extend(row.value.as_slice())
}

fn put_lengths(out: &mut Bytes, row: &Row) -> Result<(), OutOfMemory>
    requires { IsRow row.now }
    ensures { OnOk result (out.new ≡ out.old ++ (spec.count (length row.now.key) ++ spec.count (length row.now.value))) }
{
    put_count(out, row.key.len() as u32)?;
    put_count(out, row.value.len() as u32)
}

/// The bytes of a row.
pub(crate) fn row_bytes(alloc: Global, row: &Row) -> Result<Bytes, OutOfMemory>
    requires { IsRow row.now }
    ensures { IfOk result (λ b. b ≡ spec.row_bytes row.now) }
{
    let mut out = Bytes::new(alloc);
    put_row(&mut out, row)?;
    Ok(out)
}

/// The bytes of an index entry.
pub(crate) fn entry_bytes(
    alloc: Global,
    offset: u64,
    size: u32,
    last: &[u8],
) -> Result<Bytes, OutOfMemory>
    requires { length last.now < 2 ^ 32 }
    ensures { IfOk result (λ b. b ≡ spec.entry_bytes (record { offset = offset; size = size; last = last.now })) }
{
    let mut out = Bytes::new(alloc);
    put_number(&mut out, offset)?;
    put_count(&mut out, size)?;
    put_count(&mut out, last.len() as u32)?;
    out.extend(last)?;
    Ok(out)
}

fn put_footer(out: &mut Bytes, footer: &Footer) -> Result<(), OutOfMemory>
    ensures { OnOk result (out.new ≡ out.old ++ spec.footer_body footer.now) }
{
    put_number(out, footer.index)?;
    put_count(out, footer.size)?;
    put_count(out, footer.blocks)?;
    put_number(out, footer.rows)?;
    put_number(out, footer.first)?;
    put_number(out, footer.last)?;
    out.extend(&MAGIC)
}

/// The index with these entries, and the footer behind it.
pub(crate) fn end_bytes(alloc: Global, index: &[u8], footer: &Footer) -> Result<Bytes, OutOfMemory>
    ensures { IfOk result (λ b. b ≡ spec.checked index.now ++ spec.footer_bytes footer.now) }
{
    let mut out = Bytes::from_slice(alloc, index)?;
    put_check(&mut out)?;
    let mut end = Bytes::new(alloc);
    put_footer(&mut end, footer)?;
    put_check(&mut end)?;
    out.extend(end.as_slice())?;
    Ok(out)
}
