// CRC32C and its mask.
ghost use Rattle.std.specs.Prelude.{◌≡◌, ◌+◌, ◌*◌, ◌<◌, ◌∷◌, length, fold};
ghost use Rattle.keel_frag.specs.Checksum as spec;

use crate::crc_table::TABLE;

/// What eight shifts make of a byte, and eight more for each of `more` bytes behind it.
fn shifted_byte(more: usize, byte: u32) -> u32
    requires more { more < 8 }
    requires byte { byte < 256 }
    ensures { result ≡ spec.shift_bits (8 * (more + 1)) byte }
{
    TABLE[256 * more + byte as usize]
}

/// A byte enters the register.
fn shift_byte(register: u32, byte: u8) -> u32
    ensures { result ≡ spec.shift_byte register byte }
{
    let mixed = register ^ u32::from(byte);
    shifted_byte(0, mixed & 0xff) ^ (mixed >> 8)
}

/// What 32 shifts make of four bytes.
fn shifted_by_32(word: u32) -> u32
    ensures { result ≡ spec.shift_bits 32 word }
{
    shifted_byte(3, word & 0xff)
        ^ shifted_byte(2, (word >> 8) & 0xff)
        ^ shifted_byte(1, (word >> 16) & 0xff)
        ^ shifted_byte(0, word >> 24)
}

/// What 64 shifts make of four bytes.
fn shifted_by_64(word: u32) -> u32
    ensures { result ≡ spec.shift_bits 64 word }
{
    shifted_byte(7, word & 0xff)
        ^ shifted_byte(6, (word >> 8) & 0xff)
        ^ shifted_byte(5, (word >> 16) & 0xff)
        ^ shifted_byte(4, word >> 24)
}

/// Eight bytes enter the register at once.
fn shift_eight(register: u32, bytes: &[u8]) -> u32
    requires { length bytes.now ≡ 8 }
    ensures { result ≡ fold spec.shift_byte register bytes.now }
{
    let first = u32::from_le_bytes([bytes[0], bytes[1], bytes[2], bytes[3]]);
    let second = u32::from_le_bytes([bytes[4], bytes[5], bytes[6], bytes[7]]);
    // What doesn't wait for the register goes first.
    shifted_by_32(second) ^ shifted_by_64(register ^ first)
}

/// Bytes enter the register one by one.
fn shift_each(register: u32, bytes: &[u8]) -> u32
    ensures { result ≡ fold spec.shift_byte register bytes.now }
{
    let mut register = register;
    for byte in bytes {
        register = shift_byte(register, *byte);
    }
    register
}

/// Bytes enter the register, as many as can eight at a time.
fn shift_bytes(register: u32, bytes: &[u8]) -> u32
    ensures { result ≡ fold spec.shift_byte register bytes.now }
{
    let mut register = register;
    let mut rest = bytes;
    'eights: while 8 <= rest.len() {
        let (eight, behind) = rest.split_at(8);
        register = shift_eight(register, eight);
        rest = behind;
    }
    shift_each(register, rest)
}

/// The CRC32C of the bytes: the cyclic redundancy check of Castagnoli's polynomial, as in iSCSI
/// (RFC 3720).
#[tactic(auto, unfolding(crate::specs::Checksum::crc32c))]
pub fn crc32c(bytes: &[u8]) -> u32
    ensures { result ≡ spec.crc32c bytes.now }
{
    shift_bytes(u32::MAX, bytes) ^ u32::MAX
}

/// A check as LevelDB and RocksDB store it, so that a check of bytes that hold checks isn't weak.
pub fn mask(crc: u32) -> u32
    ensures { result ≡ spec.mask crc }
{
    crc.rotate_right(15).wrapping_add(0xa282_ead8)
}

/// The masked check of a fragment's type and payload.
#[tactic(auto, unfolding(crate::specs::Checksum::crc32c))]
pub(crate) fn fragment_check(kind: u8, payload: &[u8]) -> u32
    ensures { result ≡ spec.mask (spec.crc32c (kind ∷ payload.now)) }
{
    mask(shift_bytes(shift_byte(u32::MAX, kind), payload) ^ u32::MAX)
}
