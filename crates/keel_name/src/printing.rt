// From a name to its spelling.
ghost use Rattle.std.specs.Prelude.{◌≡◌, ◌++◌, IfOk, OnOk};
ghost use Rattle.keel_base.specs.Name.{numeral, printed};

use keel_base::{Bytes, FileName, OutOfMemory};
use std::alloc::Global;

/// The spelling of a name, whatever its number.
#[tactic(auto, unfolding(keel_base::specs::Name::printed))]
pub fn print(alloc: Global, name: FileName) -> Result<Bytes, OutOfMemory>
    ensures { IfOk result (λ bytes. bytes ≡ printed name) }
{
    match name {
        FileName::Log(number) => around(alloc, b"", number, b".log"),
        FileName::Table(number) => around(alloc, b"", number, b".sst"),
        FileName::Trash(number) => around(alloc, b"", number, b".sst.trash"),
        FileName::Manifest(number) => around(alloc, b"MANIFEST-", number, b""),
        FileName::Current => Bytes::from_slice(alloc, b"CURRENT"),
        FileName::Temp(number) => around(alloc, b"", number, b".dbtmp"),
    }
}

// A number in at least six digits, with what stands before and behind it.
fn around(alloc: Global, before: &[u8], number: u64, behind: &[u8]) -> Result<Bytes, OutOfMemory>
    ensures { IfOk result (λ bytes. bytes ≡ before.now ++ numeral number ++ behind.now) }
{
    let digits = number.to_string(alloc)?;
    let zeros = 6usize.saturating_sub(digits.len());
    let mut bytes = Bytes::from_slice(alloc, before)?;
    bytes.extend(&b"000000"[..zeros])?;
    bytes.extend(digits.as_bytes())?;
    bytes.extend(behind)?;
    Ok(bytes)
}
