use crate::{FieldError, bytes_at, u8_at, u32_at, u32_between, u64_at, u64_between};
use std::test::Fail;

/// A byte, a number of four bytes, one of eight, and two bytes of text with one more behind.
const FIELDS: [u8; 16] = [7, 1, 2, 0, 0, 9, 0, 0, 0, 0, 0, 0, 1, b'a', b'b', b'c'];

#[test]
fn fields_are_read_in_turn(rt: HostRuntime) -> Result<(), Fail> {
    let (byte, rest) = u8_at(&FIELDS)?;
    assert_eq!(rt; byte, 7);
    assert_eq!(rt; u32_between(rest, 0x201, 0x201)?.0, 0x201);
    assert_eq!(rt;
        u32_between(rest, 0x202, 0x300).err(),
        Some(FieldError::Bad { left: 15 })
    );
    let (small, rest) = u32_at(rest)?;
    assert_eq!(rt; small, 0x201);
    assert_eq!(rt;
        u64_between(rest, 9, 0x0100_0000_0000_0009)?.0,
        0x0100_0000_0000_0009
    );
    let (large, rest) = u64_at(rest)?;
    assert_eq!(rt; large, 0x0100_0000_0000_0009);
    let (text, rest) = bytes_at(rest, 2)?;
    assert_eq!(rt; text, b"ab".as_slice());
    assert_eq!(rt; bytes_at(rest, 2).err(), Some(FieldError::Bad { left: 1 }));
    assert_eq!(rt; u8_at(b"").err(), Some(FieldError::Bad { left: 0 }));
    Ok(())
}
