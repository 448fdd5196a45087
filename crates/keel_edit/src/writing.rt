// Writing an edit.
ghost use Rattle.std.specs.Prelude.{◌≡◌, ◌++◌, IfOk, OnOk};
ghost use Rattle.std.specs.List.{flat_map};
ghost use Rattle.keel_edit.specs.Spelling as spec;

use crate::edit::{Added, Edit, Removed};
use keel_base::{Bytes, OutOfMemory};
use std::alloc::Global;

#[tactic(auto, unfolding(crate::specs::Spelling::number))]
fn put_number(out: &mut Bytes, number: u64) -> Result<(), OutOfMemory>
    ensures { OnOk result (out.new ≡ out.old ++ spec.number number) }
{
    out.extend(&number.to_le_bytes())
}

// What has more elements than a count of four bytes can tell is more than memory serves.
#[tactic(auto, unfolding(crate::specs::Spelling::count))]
fn put_count(out: &mut Bytes, count: usize) -> Result<(), OutOfMemory>
    ensures { OnOk result (out.new ≡ out.old ++ spec.count count) }
{
    match u32::try_from(count) {
        Ok(count) => out.extend(&count.to_le_bytes()),
        Err(_) => Err(OutOfMemory),
    }
}

fn put_key(out: &mut Bytes, key: &[u8]) -> Result<(), OutOfMemory>
    ensures { OnOk result (out.new ≡ out.old ++ spec.sized key.now) }
{
    put_count(out, key.len())?;
    out.extend(key)
}

fn put_removed(out: &mut Bytes, table: &Removed) -> Result<(), OutOfMemory>
    ensures { OnOk result (out.new ≡ out.old ++ spec.removed_bytes table.now) }
{
    out.extend(&[table.level])?;
    put_number(out, table.number)
}

fn put_numbers(out: &mut Bytes, table: &Added) -> Result<(), OutOfMemory>
    ensures { OnOk result (out.new ≡ out.old ++ spec.numbers_bytes table.now) }
{
    out.extend(&[table.level])?;
    put_number(out, table.number)?;
    put_number(out, table.size)?;
    put_number(out, table.rows)?;
    put_number(out, table.first)?;
    put_number(out, table.last)
}

fn put_added(out: &mut Bytes, table: &Added) -> Result<(), OutOfMemory>
    ensures { OnOk result (out.new ≡ out.old ++ spec.added_bytes table.now) }
{
    put_numbers(out, table)?;
    put_key(out, table.least.as_slice())?;
    put_key(out, table.greatest.as_slice())
}

fn put_all_removed(out: &mut Bytes, tables: &[Removed]) -> Result<(), OutOfMemory>
    ensures { OnOk result (out.new ≡ out.old ++ flat_map spec.removed_bytes tables.now) }
{
    for table in tables {
        put_removed(out, table)?;
    }
    Ok(())
}

fn put_all_added(out: &mut Bytes, tables: &[Added]) -> Result<(), OutOfMemory>
    ensures { OnOk result (out.new ≡ out.old ++ flat_map spec.added_bytes tables.now) }
{
    for table in tables {
        put_added(out, table)?;
    }
    Ok(())
}

/// The one spelling of the edit: 33 bytes, 9 for each table that goes, and 49 and its two keys for each
/// that comes. Only what `decode` would take back is an edit of a manifest.
#[tactic(auto, unfolding(crate::specs::Spelling::spelling))]
pub fn encode(alloc: Global, edit: &Edit) -> Result<Bytes, OutOfMemory>
    ensures { IfOk result (λ b. b ≡ spec.spelling edit.now) }
{
    let mut out = Bytes::new(alloc);
    let removed = edit.removed.as_slice();
    let added = edit.added.as_slice();
    out.extend(&[1])?;
    put_number(&mut out, edit.min_log)?;
    put_number(&mut out, edit.next_file)?;
    put_number(&mut out, edit.last_seq)?;
    put_count(&mut out, removed.len())?;
    put_all_removed(&mut out, removed)?;
    put_count(&mut out, added.len())?;
    put_all_added(&mut out, added)?;
    Ok(out)
}
