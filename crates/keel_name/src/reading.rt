// From a spelling to the name.
ghost use Rattle.std.specs.Prelude.{◌≡◌, ◌≢◌, ℕ, ◌++◌, IfSome, IfNone};
ghost use Rattle.keel_base.specs.declared.file_name.FileName.{FileName};
ghost use Rattle.keel_base.specs.Name.{IsFileNumber, IsName, numeral, printed};

use crate::decimal::read_padded;
use keel_base::{FileName, LAST_NUMBER};

/// The name with this spelling. `None` comes exactly where no name of a file of a store has it.
#[tactic(auto, unfolding(keel_base::specs::Name::printed))]
pub fn read(bytes: &[u8]) -> Option<FileName>
    ensures found { IfSome result (λ name. IsName name × (bytes.now ≡ printed name)) }
    ensures none { IfNone result ((name : FileName) → IsName name → bytes.now ≢ printed name) }
{
    if bytes == b"CURRENT".as_slice() {
        return Some(FileName::Current);
    }
    if let Some(number) = between(bytes, b"MANIFEST-", b"") {
        return Some(FileName::Manifest(number));
    }
    if let Some(number) = between(bytes, b"", b".log") {
        return Some(FileName::Log(number));
    }
    if let Some(number) = between(bytes, b"", b".sst") {
        return Some(FileName::Table(number));
    }
    if let Some(number) = between(bytes, b"", b".sst.trash") {
        return Some(FileName::Trash(number));
    }
    if let Some(number) = between(bytes, b"", b".dbtmp") {
        return Some(FileName::Temp(number));
    }
    None
}

// The number of a file between these.
fn between(bytes: &[u8], before: &[u8], behind: &[u8]) -> Option<u64>
    ensures found { IfSome result (λ number. IsFileNumber number × (bytes.now ≡ before.now ++ numeral number ++ behind.now)) }
    ensures none { IfNone result ((number : ℕ) → IsFileNumber number → bytes.now ≢ before.now ++ numeral number ++ behind.now) }
{
    let rest = bytes.strip_prefix(before)?;
    let digits = rest.strip_suffix(behind)?;
    file_number(digits)
}

// The number of a file in at least six digits, with zeros in front only up to six.
fn file_number(digits: &[u8]) -> Option<u64>
    ensures found { IfSome result (λ number. IsFileNumber number × (digits.now ≡ numeral number)) }
    ensures none { IfNone result ((number : ℕ) → IsFileNumber number → digits.now ≢ numeral number) }
{
    match read_padded(digits, 6) {
        Some(number) if 1 <= number && number <= LAST_NUMBER => Some(number),
        _ => None,
    }
}
