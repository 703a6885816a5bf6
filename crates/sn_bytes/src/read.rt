//! Little-endian numbers at an offset of bytes.

ghost use Rattle.std.specs.Prelude.{◌≡◌};
ghost use Rattle.sn_bytes.specs.Fields.{field_at};

use byteorder::{ByteOrder, LittleEndian};

/// The byte at an offset, or `None` where there is none.
pub fn u8_at(bytes: &[u8], at: usize) -> Option<u8>
    ensures { result ≡ field_at 1 at bytes.now }
{
    bytes.get(at).copied()
}

/// The number in the two bytes at an offset, or `None` where one of them is not inside.
#[tactic(auto, using(crate::proofs::FieldReads::read_inside))]
pub fn u16_at(bytes: &[u8], at: usize) -> Option<u16>
    ensures { result ≡ field_at 2 at bytes.now }
{
    let field = bytes.get(at..at.checked_add(2)?)?;
    Some(LittleEndian::read_u16(field))
}

/// The number in the four bytes at an offset, or `None` where one of them is not inside.
#[tactic(auto, using(crate::proofs::FieldReads::read_inside))]
pub fn u32_at(bytes: &[u8], at: usize) -> Option<u32>
    ensures { result ≡ field_at 4 at bytes.now }
{
    let field = bytes.get(at..at.checked_add(4)?)?;
    Some(LittleEndian::read_u32(field))
}

/// The number in the eight bytes at an offset, or `None` where one of them is not inside.
#[tactic(auto, using(crate::proofs::FieldReads::read_inside))]
pub fn u64_at(bytes: &[u8], at: usize) -> Option<u64>
    ensures { result ≡ field_at 8 at bytes.now }
{
    let field = bytes.get(at..at.checked_add(8)?)?;
    Some(LittleEndian::read_u64(field))
}
