// What CURRENT holds: the name of a manifest and a newline.
ghost use Rattle.std.specs.Prelude.{◌≡◌, ℕ, IfNone, IfOk, IfSome};
ghost use Rattle.keel_name.specs.Current.{current_of, NamesManifest};

use crate::printing::print;
use crate::reading::read;
use keel_base::{Bytes, FileName, OutOfMemory};
use std::alloc::Global;

/// The number of the manifest that CURRENT's bytes name. `None` comes exactly where they name none.
pub fn read_current(bytes: &[u8]) -> Option<u64>
    ensures found { IfSome result (NamesManifest bytes.now) }
    ensures none { IfNone result ((number : ℕ) → NamesManifest bytes.now number → ⊥) }
{
    let (newline, name) = bytes.split_last()?;
    if *newline != b'\n' {
        return None;
    }
    match read(name)? {
        FileName::Manifest(number) => Some(number),
        _ => None,
    }
}

/// The bytes of CURRENT that name the manifest of this number.
pub fn print_current(alloc: Global, manifest: u64) -> Result<Bytes, OutOfMemory>
    ensures { IfOk result (λ bytes. bytes ≡ current_of manifest) }
{
    let mut bytes = print(alloc, FileName::Manifest(manifest))?;
    bytes.extend(b"\n")?;
    Ok(bytes)
}
