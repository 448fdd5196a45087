// A copy of tables.
ghost use Rattle.std.specs.Prelude.{◌≡◌, IfOk};

use keel_base::OutOfMemory;
use keel_edit::Added;
use std::alloc::Global;

pub(crate) fn copies_of(alloc: Global, tables: &[Added]) -> Result<Vec<Added>, OutOfMemory>
    ensures { IfOk result (λ copies. copies.items ≡ tables.now) }
{
    let mut copies = Vec::new(alloc);
    for table in tables {
        copies.push(table.copy(alloc)?)?;
    }
    Ok(copies)
}
