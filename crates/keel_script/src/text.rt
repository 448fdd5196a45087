// Texts: any bytes in one word.
ghost use Rattle.std.specs.Prelude.{◌≡◌, ℕ, ◌+◌, ◌<◌, ◌≤◌, true, length, slice_index};
ghost use Rattle.std.specs.Char.{digit_value};
ghost use Rattle.std.specs.Option.{SomeIff};
ghost use Rattle.keel_script.specs.Reading.{Gives, byte_at, bytes_from, text_from};
ghost use Rattle.keel_script.specs.Texts.{is_plain};

use crate::LineError;
use keel_base::{Bytes, OutOfMemory};
use std::alloc::Global;

// The text that a word is.
#[tactic(auto, unfolding(crate::specs::Reading::text_from))]
pub(crate) fn text_of(alloc: Global, word: &[u8]) -> Result<Bytes, LineError>
    ensures { Gives (λ bytes. bytes) result (text_from word.now) }
{
    if word == b"%".as_slice() {
        return Ok(Bytes::new(alloc));
    }
    if word.is_empty() {
        return Err(LineError::NotACommand);
    }
    bytes_of(alloc, word)
}

// The bytes that are spelled one behind another.
fn bytes_of(alloc: Global, word: &[u8]) -> Result<Bytes, LineError>
    ensures { Gives (λ bytes. bytes) result (bytes_from word.now) }
{
    let mut bytes = Bytes::new(alloc);
    let mut rest = word;
    'bytes: loop {
        let (plain, behind) = rest.split_at(plain_length(rest));
        bytes.extend(plain)?;
        if behind.is_empty() {
            return Ok(bytes);
        }
        let (byte, others) = byte_of(behind)?;
        bytes.extend(&[byte])?;
        rest = others;
    }
}

// How many bytes at the front may stand for themselves. They are tried eight at a time, as long as so many are left.
pub(crate) fn plain_length(bytes: &[u8]) -> usize
    ensures within { result ≤ length bytes.now }
    ensures plain { (k : ℕ) → k < result → is_plain (slice_index bytes.now k) ≡ true }
{
    let mut count = 0;
    'eights: while count + 8 <= bytes.len() && are_plain(bytes, count) {
        count += 8;
    }
    plain_to(bytes, count)
}

// Whether the eight bytes from there on may stand for themselves. All of them are tried, which takes no branch.
fn are_plain(bytes: &[u8], from: usize) -> bool
    requires { from + 8 ≤ length bytes.now }
    ensures { result ≡ true → (k : ℕ) → from ≤ k → k < from + 8 → is_plain (slice_index bytes.now k) ≡ true }
{
    is_plain(bytes[from])
        & is_plain(bytes[from + 1])
        & is_plain(bytes[from + 2])
        & is_plain(bytes[from + 3])
        & is_plain(bytes[from + 4])
        & is_plain(bytes[from + 5])
        & is_plain(bytes[from + 6])
        & is_plain(bytes[from + 7])
}

// How far bytes from there on may stand for themselves.
fn plain_to(bytes: &[u8], from: usize) -> usize
    requires { from ≤ length bytes.now }
    ensures behind { from ≤ result }
    ensures within { result ≤ length bytes.now }
    ensures plain { (k : ℕ) → from ≤ k → k < result → is_plain (slice_index bytes.now k) ≡ true }
{
    let mut count = from;
    'bytes: while count < bytes.len() && is_plain(bytes[count]) {
        count += 1;
    }
    count
}

// The first byte, and the spelling of the others.
#[tactic(auto, unfolding(crate::specs::Reading::byte_at))]
fn byte_of(word: &[u8]) -> Result<(u8, &[u8]), LineError>
    ensures { Gives (λ x. (x.0, x.1.now)) result (byte_at word.now) }
{
    match word {
        [b'%', high, low, rest @ ..] => match (digit_of(*high), digit_of(*low)) {
            (Some(high), Some(low)) => Ok((16 * high + low, rest)),
            _ => Err(LineError::NotACommand),
        },
        [byte, rest @ ..] if is_plain(*byte) => Ok((*byte, rest)),
        _ => Err(LineError::NotACommand),
    }
}

// The value of a hexadecimal digit, in either case.
fn digit_of(digit: u8) -> Option<u8>
    ensures { SomeIff result (digit_value digit < 16) (digit_value digit) }
{
    match digit {
        b'0'..=b'9' => Some(digit - b'0'),
        b'a'..=b'f' => Some(digit - b'a' + 10),
        b'A'..=b'F' => Some(digit - b'A' + 10),
        _ => None,
    }
}

// Whether a byte may stand for itself.
pub(crate) fn is_plain(byte: u8) -> bool
    ensures { result ≡ is_plain byte }
{
    33 <= byte && byte <= 126 && byte != b'%'
}
