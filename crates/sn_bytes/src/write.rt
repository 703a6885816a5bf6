//! Little-endian numbers added at the end of bytes.

ghost use Rattle.std.specs.Prelude.{◌≡◌, ◌++◌, length, OnOk, OnErr};
ghost use Rattle.sn_bytes.specs.Fields.{field_at, little_bytes};

use sn_base::{List, Memory};

/// Adds a byte at the end. An `Err` leaves the bytes as they were.
#[tactic(auto, using(crate::proofs::FieldWrites::bytes_written, crate::proofs::FieldWrites::reads_back))]
pub fn put_u8(out: &mut List<u8>, value: u8) -> Result<(), Memory>
    ensures ok { OnOk result (out.new ≡ out.old ++ little_bytes 1 value) }
    ensures back { OnOk result (field_at 1 (length out.old) out.new ≡ Some value) }
    ensures err { OnErr result (out.new ≡ out.old) }
{
    out.push(value)
}

/// Adds a number in two bytes at the end. An `Err` leaves the bytes as they were.
#[tactic(auto, using(crate::proofs::FieldWrites::bytes_written, crate::proofs::FieldWrites::reads_back))]
pub fn put_u16(out: &mut List<u8>, value: u16) -> Result<(), Memory>
    ensures ok { OnOk result (out.new ≡ out.old ++ little_bytes 2 value) }
    ensures back { OnOk result (field_at 2 (length out.old) out.new ≡ Some value) }
    ensures err { OnErr result (out.new ≡ out.old) }
{
    let field: [u8; 2] = value.to_le_bytes();
    out.extend_from_slice(&field)
}

/// Adds a number in four bytes at the end. An `Err` leaves the bytes as they were.
#[tactic(auto, using(crate::proofs::FieldWrites::bytes_written, crate::proofs::FieldWrites::reads_back))]
pub fn put_u32(out: &mut List<u8>, value: u32) -> Result<(), Memory>
    ensures ok { OnOk result (out.new ≡ out.old ++ little_bytes 4 value) }
    ensures back { OnOk result (field_at 4 (length out.old) out.new ≡ Some value) }
    ensures err { OnErr result (out.new ≡ out.old) }
{
    let field: [u8; 4] = value.to_le_bytes();
    out.extend_from_slice(&field)
}

/// Adds a number in eight bytes at the end. An `Err` leaves the bytes as they were.
#[tactic(auto, using(crate::proofs::FieldWrites::bytes_written, crate::proofs::FieldWrites::reads_back))]
pub fn put_u64(out: &mut List<u8>, value: u64) -> Result<(), Memory>
    ensures ok { OnOk result (out.new ≡ out.old ++ little_bytes 8 value) }
    ensures back { OnOk result (field_at 8 (length out.old) out.new ≡ Some value) }
    ensures err { OnErr result (out.new ≡ out.old) }
{
    let field: [u8; 8] = value.to_le_bytes();
    out.extend_from_slice(&field)
}
