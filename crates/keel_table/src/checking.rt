// Reading a part of a table with the check behind it.
ghost use Rattle.std.specs.Prelude.{◌≡◌, ◌+◌, ◌≤◌, length, take, drop};
ghost use Rattle.std.specs.Int.{w32, from_le_bytes};
ghost use Rattle.keel_disk.specs.Seen.{IsQuiet};
ghost use Rattle.keel_table.specs.Answers.{Answers, ChecksDiffer, Finds, fault_in};
ghost use Rattle.keel_table.specs.Opening as spec;

use crate::TableFault;
use keel_base::{Bytes, FileName};
use keel_disk::{Disk, ReadError};
use keel_frag::{crc32c, mask};
use std::alloc::Global;

/// The check behind so many bytes.
fn stored_behind(part: &[u8], size: usize) -> u32
    requires { size + 4 ≤ length part.now }
    ensures { result ≡ from_le_bytes w32 (take 4 (drop size part.now)) }
{
    let (_, rest) = part.split_at(size);
    let (front, _) = rest.split_at(4);
    u32::from_le_bytes([front[0], front[1], front[2], front[3]])
}

/// The bytes, where this is their check.
#[tactic(auto, unfolding(crate::specs::Opening::compared))]
fn compared(body: Bytes, stored: u32) -> Result<Bytes, TableFault>
    ensures found { Finds (λ b. b) result (spec.compared body stored) }
    ensures differ { ChecksDiffer result }
{
    let computed = mask(crc32c(body.as_slice()));
    if stored == computed {
        Ok(body)
    } else {
        Err(TableFault::BadCheck { stored, computed })
    }
}

/// So many bytes of what begins at that offset, with their check.
#[tactic(auto, unfolding(crate::specs::Opening::tested))]
pub(crate) fn tested(part: Bytes, offset: u64, size: u32) -> Result<Bytes, TableFault>
    ensures found { Finds (λ b. b) result (spec.tested offset size part) }
    ensures differ { ChecksDiffer result }
{
    let size = size as usize;
    if part.len() < size + 4 {
        return Err(TableFault::BadShape { at: offset });
    }
    let stored = stored_behind(part.as_slice(), size);
    let mut body = part;
    body.truncate(size);
    compared(body, stored)
}

/// So many bytes of a table from an offset on, with the check behind them, in one read.
pub(crate) fn read_checked<D: Disk>(
    alloc: Global,
    disk: &mut D,
    number: u64,
    offset: u64,
    size: u32,
) -> Result<Bytes, TableFault>
    ensures answer { Answers (λ b. b) (spec.checked_at offset size) number (D.seen disk.old).told result }
    ensures differ { ChecksDiffer result }
    ensures quiet { IsQuiet (D.seen disk.old) (fault_in result) (D.seen disk.new) }
{
    // More than can be read at once would not be held.
    if u32::MAX - 4 < size {
        return Err(TableFault::OutOfMemory);
    }
    match disk.read_at(alloc, FileName::Table(number), offset, size + 4) {
        Ok(part) => tested(part, offset, size),
        Err(ReadError::Fault(fault)) => Err(TableFault::Device(fault)),
        Err(ReadError::Absent) => Err(TableFault::Absent),
        Err(ReadError::OutOfMemory) => Err(TableFault::OutOfMemory),
    }
}
