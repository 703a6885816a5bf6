//! Buffers that one call reads into or writes from, read out of the bytes of struct iovec.

ghost use Rattle.std.specs.Prelude.{◌≡◌, ◌↔◌, ◌+◌, ◌-◌, ◌*◌, ◌/◌, ◌^◌, ◌≤◌, length, nat_le, if◌then◌else◌, IfOk, IfErr};
ghost use Rattle.std.specs.Prelude.{OnOk};
ghost use Rattle.sn_base.specs.Sums.{capped};
ghost use Rattle.stat_layout.specs.IoVecs.{IsVectorFaultOf, IsOutOfRange, IsTooLong, iovec_at, iovecs_in, total_of};
ghost use Rattle.stat_layout.specs.declared.iovec.IoVecErr.TheVariants.{Memory as WantOfMemory};

use sn_base::{List, Memory, capped_add};
use sn_bytes::u64_at;
use std::alloc::Global;

/// A buffer of a guest: where it begins, and how many bytes it has.
///
/// readv(2), struct iovec.
#[derive(Clone, Copy, Debug, PartialEq, Eq)]
pub struct IoVec {
    /// Its first address: `iov_base`.
    pub base: u64,
    /// How many bytes it has: `iov_len`.
    pub length: u64,
}

/// Why a call has no buffers.
#[derive(Clone, Copy, Debug, PartialEq, Eq)]
pub enum IoVecErr {
    /// Fewer than 0 are asked for, or more than `IOV_MAX`.
    Count,
    /// They have more than 2^63 - 1 bytes in all.
    Sum,
    /// They have no more, and there was no memory to keep their records in.
    Memory,
}

impl From<Memory> for IoVecErr {
    ghost from_gives = { λ _ e. e ≡ WantOfMemory };

    fn from(_e: Memory) -> IoVecErr {
        IoVecErr::Memory
    }
}

/// The size of struct iovec, in bytes.
const IOVEC_SIZE: usize = 16;

/// The most buffers that a call takes: limits.h, IOV_MAX.
pub const IOV_MAX: u64 = 1_024;

/// The most bytes that a call's buffers may have: the greatest `ssize_t`.
const LONGEST: u64 = (1 << 63) - 1;

/// How many bytes the records of so many buffers take.
pub fn iovec_bytes(count: u64) -> Result<usize, IoVecErr>
    ensures ok { IfOk result (λ size. size ≡ 16 * count) }
    ensures within { IfOk result (λ size. size ≤ 16 * IOV_MAX) }
    ensures count { (result ≡ Err IoVecErr.Count) ↔ IsOutOfRange count }
    ensures fault { IfErr result (λ e. e ≡ IoVecErr.Count) }
{
    if count > IOV_MAX {
        return Err(IoVecErr::Count);
    }
    Ok(IOVEC_SIZE * count as usize)
}

/// The buffers whose records stand in some bytes, in order. A rest that is shorter than a record isn't looked at.
///
/// `Sum` comes before `Memory`, and nothing is allocated for what is refused.
#[tactic(auto, using(crate::proofs::Buffers::count_in))]
pub fn iovecs(alloc: Global, records: &[u8]) -> Result<List<IoVec>, IoVecErr>
    ensures ok { IfOk result (λ buffers. buffers ≡ iovecs_in records.now) }
    ensures count { IfOk result (λ buffers. length buffers ≡ length records.now / 16) }
    ensures sum { OnOk result (total_of (iovecs_in records.now) ≤ 2 ^ 63 - 1) }
    ensures fault { IfErr result (IsVectorFaultOf records.now) }
    ensures faulty { IsTooLong (iovecs_in records.now) → result ≡ Err IoVecErr.Sum }
{
    if capped_total(records) > LONGEST {
        return Err(IoVecErr::Sum);
    }
    Ok(read_iovecs(alloc, records)?)
}

/// How many bytes the buffers have in all, or `None` where that is more than 2^63 - 1.
#[tactic(auto, using(crate::proofs::Buffers::total_next))]
pub fn total(buffers: &[IoVec]) -> Option<u64>
    ensures { result ≡ (if nat_le (total_of buffers.now) (2 ^ 63 - 1) then Some (total_of buffers.now) else None) }
{
    let mut total = 0;
    for buffer in buffers {
        total = capped_add(total, buffer.length);
    }
    if total > LONGEST { None } else { Some(total) }
}

fn iovec_at(records: &[u8], offset: usize) -> IoVec
    requires { offset + 16 ≤ length records.now }
    ensures { result ≡ iovec_at records.now offset }
{
    IoVec {
        base: u64_at(records, offset).unwrap(),
        length: u64_at(records, offset + 8).unwrap(),
    }
}

/// How many bytes the buffers of all records have, or the greatest number of 64 bits where that is above it.
#[tactic(auto, using(crate::proofs::Buffers::total_more))]
fn capped_total(records: &[u8]) -> u64
    ensures { result ≡ capped (total_of (iovecs_in records.now)) }
{
    let mut total = 0;
    for k in 0..records.len() / IOVEC_SIZE {
        total = capped_add(total, iovec_at(records, IOVEC_SIZE * k).length);
    }
    total
}

#[tactic(auto, using(crate::proofs::Buffers::one_more))]
fn read_iovecs(alloc: Global, records: &[u8]) -> Result<List<IoVec>, Memory>
    ensures { IfOk result (λ buffers. buffers ≡ iovecs_in records.now) }
{
    let count = records.len() / IOVEC_SIZE;
    let mut buffers = List::with_capacity(alloc, count)?;
    for k in 0..count {
        buffers.push(iovec_at(records, IOVEC_SIZE * k))?;
    }
    Ok(buffers)
}
