// Fields at the front of a run of bytes. None of these functions takes memory.
ghost use Rattle.std.specs.Prelude.{◌≢◌};
ghost use Rattle.std.specs.Int.{w32, w64};
ghost use Rattle.keel_fields.specs.Reading.{Gives, number_at, byte_at as a_byte_at, bounded_at, bytes_at as some_bytes_at};

use crate::error::FieldError;

/// One byte, and the bytes behind it.
pub fn u8_at(bytes: &[u8]) -> Result<(u8, &[u8]), FieldError>
    ensures field { Gives (λ x. (x.0, x.1.now)) result (a_byte_at bytes.now) }
    ensures no_memory { result ≢ Err FieldError.OutOfMemory }
{
    match bytes {
        [] => Err(FieldError::Bad { left: 0 }),
        [byte, rest @ ..] => Ok((*byte, rest)),
    }
}

/// A number of four bytes, the least byte first, and the bytes behind it.
pub fn u32_at(bytes: &[u8]) -> Result<(u32, &[u8]), FieldError>
    ensures field { Gives (λ x. (x.0, x.1.now)) result (number_at w32 bytes.now) }
    ensures no_memory { result ≢ Err FieldError.OutOfMemory }
{
    if bytes.len() < 4 {
        return Err(FieldError::Bad { left: bytes.len() });
    }
    let (front, rest) = bytes.split_at(4);
    let number = u32::from_le_bytes([front[0], front[1], front[2], front[3]]);
    Ok((number, rest))
}

/// A number of eight bytes, the least byte first, and the bytes behind it.
pub fn u64_at(bytes: &[u8]) -> Result<(u64, &[u8]), FieldError>
    ensures field { Gives (λ x. (x.0, x.1.now)) result (number_at w64 bytes.now) }
    ensures no_memory { result ≢ Err FieldError.OutOfMemory }
{
    if bytes.len() < 8 {
        return Err(FieldError::Bad { left: bytes.len() });
    }
    let (front, rest) = bytes.split_at(8);
    let number = u64::from_le_bytes([
        front[0], front[1], front[2], front[3], front[4], front[5], front[6], front[7],
    ]);
    Ok((number, rest))
}

/// A number of four bytes. One that is below `least` or over `most` is bad where it begins.
#[tactic(auto, unfolding(crate::specs::Reading::bounded_at))]
pub fn u32_between(bytes: &[u8], least: u32, most: u32) -> Result<(u32, &[u8]), FieldError>
    ensures field { Gives (λ x. (x.0, x.1.now)) result (bounded_at w32 least most bytes.now) }
    ensures no_memory { result ≢ Err FieldError.OutOfMemory }
{
    let (number, rest) = u32_at(bytes)?;
    if least <= number && number <= most {
        Ok((number, rest))
    } else {
        Err(FieldError::Bad { left: bytes.len() })
    }
}

/// A number of eight bytes. One that is below `least` or over `most` is bad where it begins.
#[tactic(auto, unfolding(crate::specs::Reading::bounded_at))]
pub fn u64_between(bytes: &[u8], least: u64, most: u64) -> Result<(u64, &[u8]), FieldError>
    ensures field { Gives (λ x. (x.0, x.1.now)) result (bounded_at w64 least most bytes.now) }
    ensures no_memory { result ≢ Err FieldError.OutOfMemory }
{
    let (number, rest) = u64_at(bytes)?;
    if least <= number && number <= most {
        Ok((number, rest))
    } else {
        Err(FieldError::Bad { left: bytes.len() })
    }
}

/// The first `size` bytes, and those behind them.
pub fn bytes_at(bytes: &[u8], size: usize) -> Result<(&[u8], &[u8]), FieldError>
    ensures field { Gives (λ x. (x.0.now, x.1.now)) result (some_bytes_at size bytes.now) }
    ensures no_memory { result ≢ Err FieldError.OutOfMemory }
{
    if bytes.len() < size {
        return Err(FieldError::Bad { left: bytes.len() });
    }
    let (front, rest) = bytes.split_at(size);
    Ok((front, rest))
}
