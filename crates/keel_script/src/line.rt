// Lines that are printed word by word.
ghost use Rattle.std.specs.Prelude.{◌≡◌, ◌<◌, ◌∷◌, ◌++◌, true, OnOk};
ghost use Rattle.std.specs.Fmt.{decimal, digit_glyph};
ghost use Rattle.std.specs.List.{flat_map};
ghost use Rattle.keel_script.specs.Texts.{printed_byte, printed_text};

use crate::text::{is_plain, plain_length};
use itoa::Buffer;
use keel_base::{Bytes, OutOfMemory};

/// Adds a space and a word.
pub fn add_word(line: &mut Bytes, word: &[u8]) -> Result<(), OutOfMemory>
    ensures { OnOk result (line.new ≡ line.old ++ 32 ∷ word.now) }
{
    line.extend(b" ")?;
    line.extend(word)
}

/// Adds a space and a number.
pub fn add_number(line: &mut Bytes, number: u64) -> Result<(), OutOfMemory>
    ensures { OnOk result (line.new ≡ line.old ++ 32 ∷ decimal number) }
{
    let mut digits = Buffer::new();
    add_word(line, digits.format(number).as_bytes())
}

/// Adds a space and a number that 64 bits may be too few for.
pub fn add_great_number(line: &mut Bytes, number: u128) -> Result<(), OutOfMemory>
    ensures { OnOk result (line.new ≡ line.old ++ 32 ∷ decimal number) }
{
    let mut digits = Buffer::new();
    add_word(line, digits.format(number).as_bytes())
}

/// Adds a space and a number for each of these.
pub fn add_numbers(line: &mut Bytes, numbers: &[u128]) -> Result<(), OutOfMemory>
    ensures { OnOk result (line.new ≡ line.old ++ flat_map (λ n. 32 ∷ decimal n) numbers.now) }
{
    for number in numbers {
        add_great_number(line, *number)?;
    }
    Ok(())
}

/// Adds this beginning and numbers.
pub fn numbers(line: &mut Bytes, head: &[u8], numbers: &[u128]) -> Result<(), OutOfMemory>
    ensures { OnOk result (line.new ≡ line.old ++ head.now ++ flat_map (λ n. 32 ∷ decimal n) numbers.now) }
{
    line.extend(head)?;
    add_numbers(line, numbers)
}

/// Adds a space and a text.
pub fn add_text(line: &mut Bytes, text: &Bytes) -> Result<(), OutOfMemory>
    ensures { OnOk result (line.new ≡ line.old ++ 32 ∷ printed_text text.now) }
{
    line.extend(b" ")?;
    match text.as_slice() {
        [] => line.extend(b"%"),
        bytes => add_bytes(line, bytes),
    }
}

fn add_bytes(line: &mut Bytes, bytes: &[u8]) -> Result<(), OutOfMemory>
    ensures { OnOk result (line.new ≡ line.old ++ flat_map printed_byte bytes.now) }
{
    let mut rest = bytes;
    'bytes: loop {
        let (plain, behind) = rest.split_at(plain_length(rest));
        line.extend(plain)?;
        let Some((byte, others)) = behind.split_first() else {
            return Ok(());
        };
        add_byte(line, *byte)?;
        rest = others;
    }
}

// A byte as itself wherever it can be, and as `%` and two digits in upper case otherwise.
fn add_byte(line: &mut Bytes, byte: u8) -> Result<(), OutOfMemory>
    ensures { OnOk result (line.new ≡ line.old ++ printed_byte byte) }
{
    if is_plain(byte) {
        line.extend(&[byte])
    } else {
        line.extend(&[b'%', digit(byte / 16), digit(byte % 16)])
    }
}

fn digit(value: u8) -> u8
    requires { value < 16 }
    ensures { result ≡ digit_glyph true value }
{
    if value < 10 {
        b'0' + value
    } else {
        b'A' + (value - 10)
    }
}
