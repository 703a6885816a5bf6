//! Buffers whose records lie in a guest's memory.

ghost use Rattle.std.specs.Prelude.{◌≡◌, ◌≤◌, ◌^◌, ◌-◌, List, IfOk};
ghost use Rattle.kernel_model.specs.calls.Vectors.{are_accessible, cut};
ghost use Rattle.kernel_model.specs.entries.Parts.{Parts, outcome_in};
ghost use Rattle.guest_access.specs.Lending.{AreThose};
ghost use Rattle.mm_space.specs.Accesses.{readable};
ghost use Rattle.stat_layout.specs.declared.iovec.IoVec.{IoVec as AnIoVec};
ghost use Rattle.stat_layout.specs.IoVecs.{iovecs_in, total_of};
ghost use Rattle.kernel_model.specs.declared.caller.Caller.{Caller as ACaller};
ghost use Rattle.kernel_model.specs.declared.kernel.Kernel.{Kernel as AKernel};
ghost use Rattle.kernel_model.specs.calls.Answers.{Answer};
ghost use Rattle.kernel_model.specs.calls.Vectors.{if_countable, with_buffers};
ghost use Rattle.kernel_model.specs.entries.Parts.{Prog};
ghost use Rattle.call_fs.specs.Records.{GoesOnWith, IsCountable, buffers_in};
ghost use Rattle.call_fs.specs.Transfers.{HasMemory};

use guest_access::{is_accessible, read};
use kernel_model::{GuestArea, GuestSpace, MOST_MOVED, Named};
use mm_areas::Rights;
use sn_base::{List, Memory};
use sn_errno::Errno;
use stat_layout::{IOV_MAX, IoVec, IoVecErr, iovecs, total};
use std::alloc::Global;

/// What becomes of the records of a call's buffers: the call is refused with an error, or the buffers are found.
#[derive(Drop)]
pub enum Vectors {
    Refused(Errno),
    Found(List<IoVec>),
}

/// The buffers of one call: one, or several.
#[derive(Drop)]
pub enum Buffers {
    One(IoVec),
    Several(List<IoVec>),
}

/// The buffers of so many records from an address on. The areas stay as they are.
///
/// EINVAL: more than 1,024 records; EFAULT: a byte of them that may not be read; EINVAL: buffers of more than 2^63 - 1
/// bytes in all.
pub fn buffers_at(
    alloc: Global,
    space: &GuestSpace,
    areas: &mut Named<GuestArea>,
    at: u64,
    count: u64,
) -> Result<Vectors, Memory>
    ensures row { IfOk result (λ v. (c : ACaller) (k : AKernel) (row : List AnIoVec → Prog Answer) →
        HasMemory c k space.now areas.old → GoesOnWith (with_buffers c at count row) row v k) }
    ensures countable { IfOk result IsCountable }
    ensures kept { areas.new ≡ areas.old }
{
    if count > IOV_MAX {
        return Ok(Vectors::Refused(Errno::EINVAL));
    }
    match read(alloc, space, areas, at, 16 * count)? {
        None => Ok(Vectors::Refused(Errno::EFAULT)),
        Some(records) => buffers_in(alloc, records.as_slice()),
    }
}

/// The buffers of records.
fn buffers_in(alloc: Global, records: &[u8]) -> Result<Vectors, Memory>
    ensures row { IfOk result (λ v. (k : AKernel) (row : List AnIoVec → Prog Answer) →
        GoesOnWith (if_countable row (iovecs_in records.now)) row v k) }
    ensures countable { IfOk result IsCountable }
{
    match iovecs(alloc, records) {
        Ok(buffers) => Ok(Vectors::Found(buffers)),
        Err(IoVecErr::Sum) => Ok(Vectors::Refused(Errno::EINVAL)),
        Err(IoVecErr::Memory) => Err(Memory),
        Err(IoVecErr::Count) => unreachable!(),
    }
}

/// How many bytes buffers have in all.
pub(crate) fn bytes_of(buffers: &[IoVec]) -> u64
    requires { total_of buffers.now ≤ 2 ^ 63 - 1 }
    ensures { result ≡ total_of buffers.now }
{
    match total(buffers) {
        Some(total) => total,
        None => unreachable!(),
    }
}

/// The first bytes of buffers, as many as one call moves.
pub(crate) fn cut_all(alloc: Global, buffers: &[IoVec]) -> Result<List<IoVec>, Memory>
    ensures { IfOk result (λ first. first ≡ cut MOST_MOVED buffers.now) }
{
    let mut first = List::with_capacity(alloc, buffers.len())?;
    let mut left = MOST_MOVED;
    for buffer in buffers {
        first.push(IoVec {
            base: buffer.base,
            length: buffer.length.min(left),
        })?;
        left = left.saturating_sub(buffer.length);
    }
    Ok(first)
}

/// Whether each byte of buffers may be accessed by a right. The areas stay as they are.
pub(crate) fn are_accessible(
    alloc: Global,
    space: &GuestSpace,
    areas: &mut Named<GuestArea>,
    right: Rights,
    buffers: &[IoVec],
) -> Result<bool, Memory>
    ensures row { IfOk result (λ b. (s : Parts) → AreThose s areas.old →
        outcome_in s (are_accessible right space.now buffers.now) ≡ b) }
    ensures kept { areas.new ≡ areas.old }
{
    match buffers {
        [first, rest @ ..] => {
            if is_accessible(alloc, space, areas, right, first.base, first.length)? {
                are_accessible(alloc, space, areas, right, rest)
            } else {
                Ok(false)
            }
        }
        [] => Ok(true),
    }
}

/// Whether each byte of buffers may be read. The areas stay as they are.
pub(crate) fn may_be_read(
    alloc: Global,
    space: &GuestSpace,
    areas: &mut Named<GuestArea>,
    buffers: &Buffers,
) -> Result<bool, Memory>
    ensures row { IfOk result (λ b. (s : Parts) → AreThose s areas.old →
        outcome_in s (are_accessible readable space.now (buffers_in buffers.now)) ≡ b) }
    ensures kept { areas.new ≡ areas.old }
{
    match buffers {
        Buffers::One(buffer) => is_accessible(
            alloc,
            space,
            areas,
            Rights::READ,
            buffer.base,
            buffer.length,
        ),
        Buffers::Several(buffers) => {
            are_accessible(alloc, space, areas, Rights::READ, buffers.as_slice())
        }
    }
}
