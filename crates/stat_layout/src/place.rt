//! Fields that are put over bytes which are there.

ghost use Rattle.std.specs.Prelude.{◌≡◌, ◌+◌, ◌≤◌, length};
ghost use Rattle.sn_bytes.specs.Fields.{little_bytes};
ghost use Rattle.stat_layout.specs.Places.{placed};

/// Puts bytes over those at an offset.
#[tactic(auto, unfolding(crate::specs::Places::placed))]
pub(crate) fn place(bytes: &mut [u8], offset: usize, field: &[u8])
    requires { offset + length field.now ≤ length bytes.old }
    ensures { bytes.new ≡ placed offset field.now bytes.old }
{
    bytes[offset..offset + field.len()].copy_from_slice(field);
}

/// Puts a number over the byte at an offset.
#[tactic(auto, using(sn_bytes::proofs::FieldWrites::bytes_written))]
pub(crate) fn place_u8(bytes: &mut [u8], offset: usize, value: u8)
    requires { offset + 1 ≤ length bytes.old }
    ensures { bytes.new ≡ placed offset (little_bytes 1 value) bytes.old }
{
    place(bytes, offset, &value.to_le_bytes());
}

/// Puts a number over the two bytes at an offset.
#[tactic(auto, using(sn_bytes::proofs::FieldWrites::bytes_written))]
pub(crate) fn place_u16(bytes: &mut [u8], offset: usize, value: u16)
    requires { offset + 2 ≤ length bytes.old }
    ensures { bytes.new ≡ placed offset (little_bytes 2 value) bytes.old }
{
    place(bytes, offset, &value.to_le_bytes());
}

/// Puts a number over the four bytes at an offset.
#[tactic(auto, using(sn_bytes::proofs::FieldWrites::bytes_written))]
pub(crate) fn place_u32(bytes: &mut [u8], offset: usize, value: u32)
    requires { offset + 4 ≤ length bytes.old }
    ensures { bytes.new ≡ placed offset (little_bytes 4 value) bytes.old }
{
    place(bytes, offset, &value.to_le_bytes());
}

/// Puts a number over the eight bytes at an offset.
#[tactic(auto, using(sn_bytes::proofs::FieldWrites::bytes_written))]
pub(crate) fn place_u64(bytes: &mut [u8], offset: usize, value: u64)
    requires { offset + 8 ≤ length bytes.old }
    ensures { bytes.new ≡ placed offset (little_bytes 8 value) bytes.old }
{
    place(bytes, offset, &value.to_le_bytes());
}
