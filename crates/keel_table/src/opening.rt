// Opening a table.
ghost use Rattle.std.specs.Prelude.{◌≡◌, ◌==◌, None, ◌+◌, ◌<◌, ◌≤◌, ◌^◌, true, length, IfOk};
ghost use Rattle.keel_disk.specs.Seen.{IsQuiet};
ghost use Rattle.keel_table.specs.Answers.{Answers, ChecksDiffer, Finds, fault_in};
ghost use Rattle.keel_table.specs.Fields.{footer_at, in_order};
ghost use Rattle.keel_table.specs.Opening as spec;
ghost use Rattle.keel_table.specs.Tables.{number_of, shown};

use crate::checking::read_checked;
use crate::index::{BlockEntries, Footer};
use crate::reading::{self, is_same};
use crate::spelling::MAGIC;
use crate::{Table, TableFault};
use keel_disk::Disk;
use keel_fields::FieldError;
use std::alloc::Global;

/// The bytes of a table without a row: the check of its index, and its footer.
pub(crate) const LEAST_SIZE: u64 = 52;

/// Whether blocks, index and footer are all of a file of that size.
fn is_whole(footer: &Footer, size: u64) -> bool
    requires { 52 ≤ size }
    ensures { result ≡ (footer.now.index + (footer.now.size + 52) == size) }
{
    let rest = size - LEAST_SIZE;
    u64::from(footer.size) <= rest && footer.index == rest - u64::from(footer.size)
}

#[tactic(auto, unfolding(crate::specs::Opening::footer_of_size))]
pub(crate) fn footer_of_size(body: &[u8], size: u64) -> Result<Footer, TableFault>
    requires { 52 ≤ size }
    ensures found { Finds (λ f. f) result (spec.footer_of_size size (footer_at body.now)) }
    ensures differ { ChecksDiffer result }
    ensures within { IfOk result (λ f. f.index + (f.size + 52) ≡ size) }
{
    let end = size - 48;
    match reading::footer_at(body) {
        Ok((footer, rest)) => {
            if !is_same(rest, &MAGIC) {
                return Err(TableFault::BadShape { at: end + 40 });
            }
            if !is_whole(&footer, size) {
                return Err(TableFault::BadShape { at: end });
            }
            Ok(footer)
        }
        Err(_) => Err(TableFault::BadShape { at: end }),
    }
}

/// The footer of a table of that size.
fn read_footer<D: Disk>(
    alloc: Global,
    disk: &mut D,
    number: u64,
    size: u64,
) -> Result<Footer, TableFault>
    requires { 52 ≤ size }
    ensures answer { Answers (λ f. f) (spec.footer_found size) number (D.seen disk.old).told result }
    ensures within { IfOk result (λ f. f.index + (f.size + 52) ≡ size) }
    ensures differ { ChecksDiffer result }
    ensures quiet { IsQuiet (D.seen disk.old) (fault_in result) (D.seen disk.new) }
{
    match read_checked(alloc, disk, number, size - 48, 44) {
        Ok(body) => footer_of_size(body.as_slice(), size),
        Err(fault) => Err(fault),
    }
}

/// The entries in the bytes of an index.
pub(crate) fn entries_in(
    alloc: Global,
    footer: Footer,
    index: &[u8],
) -> Result<BlockEntries, TableFault>
    requires { footer.index + footer.size < 2 ^ 64 }
    ensures found { Finds (λ entries. entries) result (spec.entries_in footer index.now) }
    ensures order { IfOk result (λ entries. in_order footer.index 0 None entries ≡ true) }
    ensures blocks { IfOk result (λ entries. length entries ≡ footer.blocks) }
    ensures differ { ChecksDiffer result }
{
    let end = footer.index + u64::from(footer.size);
    match reading::entries_at(alloc, footer.index, footer.blocks, index) {
        Ok(entries) => Ok(entries),
        Err(FieldError::OutOfMemory) => Err(TableFault::OutOfMemory),
        Err(FieldError::Bad { left }) => Err(TableFault::BadShape {
            at: end.saturating_sub(left as u64),
        }),
    }
}

/// The entries of the index that the footer tells.
fn read_entries<D: Disk>(
    alloc: Global,
    disk: &mut D,
    number: u64,
    footer: Footer,
) -> Result<BlockEntries, TableFault>
    requires { footer.index + footer.size < 2 ^ 64 }
    ensures answer { Answers (λ entries. entries) (spec.entries_found footer) number (D.seen disk.old).told result }
    ensures order { IfOk result (λ entries. in_order footer.index 0 None entries ≡ true) }
    ensures blocks { IfOk result (λ entries. length entries ≡ footer.blocks) }
    ensures differ { ChecksDiffer result }
    ensures quiet { IsQuiet (D.seen disk.old) (fault_in result) (D.seen disk.new) }
{
    match read_checked(alloc, disk, number, footer.index, footer.size) {
        Ok(index) => entries_in(alloc, footer, index.as_slice()),
        Err(fault) => Err(fault),
    }
}

/// Opens the table of that number in a file of that size: reads and tests its footer and its index.
///
/// The tests stand in this order, and the first that fails is answered. A size below 52 is `BadShape` at 0, and
/// nothing is read. A part that the file doesn't hold in full is `BadShape` where it begins. The footer: its check,
/// the bytes that tell a table, and that blocks, index and footer are the whole file. The index: its check; its
/// entries, one by one; that they are as many as the footer says and follow each other up to the index.
pub fn open_table<D: Disk>(
    alloc: Global,
    disk: &mut D,
    number: u64,
    size: u64,
) -> Result<Table, TableFault>
    ensures small { size < 52 → result ≡ Err (TableFault.BadShape 0) }
    ensures answer { 52 ≤ size → Answers shown (spec.opened size) number (D.seen disk.old).told result }
    ensures number { IfOk result (λ table. number_of table ≡ number) }
    ensures differ { ChecksDiffer result }
    ensures quiet { IsQuiet (D.seen disk.old) (fault_in result) (D.seen disk.new) }
{
    if size < LEAST_SIZE {
        return Err(TableFault::BadShape { at: 0 });
    }
    match read_footer(alloc, disk, number, size) {
        Ok(footer) => match read_entries(alloc, disk, number, footer) {
            Ok(entries) => Ok(Table {
                number,
                footer,
                entries,
            }),
            Err(fault) => Err(fault),
        },
        Err(fault) => Err(fault),
    }
}
