//! What a call tells of a node, as the bytes of struct stat.

ghost use Rattle.std.specs.Prelude.{◌≡◌, ◌+◌, ◌≤◌, ◌++◌, length, OnOk, OnErr};
ghost use Rattle.stat_layout.specs.Stats.{HasStatFields, blocks_of, mode_of, stat_record};

use crate::kind::FileKind;
use crate::place::{place_u32, place_u64};
use sn_base::{List, Memory};

/// What a call tells of a node: the fields of struct stat that aren't the same for all.
///
/// stat(2).
#[derive(Clone, Copy, Debug, PartialEq, Eq)]
pub struct Stat {
    /// Which device the node is on: `st_dev`.
    pub dev: u64,
    /// The node's number there: `st_ino`.
    pub ino: u64,
    /// The type in `st_mode`.
    pub kind: FileKind,
    /// The permission bits in `st_mode`, at most 0o777.
    pub permissions: u16,
    /// How many names the node has: `st_nlink`.
    pub nlink: u32,
    /// How many bytes it has: `st_size`.
    pub size: u64,
}

/// The size of struct stat, in bytes.
pub const STAT_SIZE: usize = 128;

/// The number of the user and of the group of every node and of every task, the effective ones too: credentials(7),
/// User and group identifiers. The number is profile.
pub const OWNER: u32 = 1_000;

/// The block size of each node: `st_blksize`.
const BLOCK_SIZE: u32 = 4_096;

/// The bytes of struct stat, as asm-generic/stat.h lays it out. It takes no memory.
#[tactic(auto, using(crate::proofs::Layouts::stat_laid_out, crate::proofs::FieldsRead::stat_fields))]
pub fn stat_bytes(stat: &Stat) -> [u8; STAT_SIZE]
    requires { stat.now.permissions ≤ 511 }
    ensures bytes { result ≡ stat_record stat.now }
    ensures fields { HasStatFields stat.now result }
{
    let Stat {
        dev,
        ino,
        nlink,
        size,
        ..
    } = *stat;
    let mut bytes = [0; STAT_SIZE];
    place_u64(&mut bytes, 0, dev);
    place_u64(&mut bytes, 8, ino);
    place_u32(&mut bytes, 16, mode_of(stat));
    place_u32(&mut bytes, 20, nlink);
    place_u32(&mut bytes, 24, OWNER);
    place_u32(&mut bytes, 28, OWNER);
    place_u64(&mut bytes, 48, size);
    place_u32(&mut bytes, 56, BLOCK_SIZE);
    place_u64(&mut bytes, 64, blocks_of(size));
    bytes
}

/// Adds the bytes of struct stat at the end. An `Err` leaves the bytes as they were.
pub fn put_stat(out: &mut List<u8>, stat: &Stat) -> Result<(), Memory>
    requires { stat.now.permissions ≤ 511 }
    ensures ok { OnOk result (out.new ≡ out.old ++ stat_record stat.now) }
    ensures length { OnOk result (length out.new ≡ length out.old + 128) }
    ensures err { OnErr result (out.new ≡ out.old) }
{
    out.extend_from_slice(&stat_bytes(stat))
}

fn mode_of(stat: &Stat) -> u32
    requires { stat.now.permissions ≤ 511 }
    ensures { result ≡ mode_of stat.now }
{
    stat.kind.type_bits() + u32::from(stat.permissions)
}

fn blocks_of(size: u64) -> u64
    ensures { result ≡ blocks_of size }
{
    size.div_ceil(512)
}
