//! writev, on pipes, the console and the empty input.

ghost use Rattle.std.specs.Prelude.{◌≡◌, ℕ, ◌^◌, ◌-◌, ◌≤◌, Some, length, IfOk, if◌then◌else◌};
ghost use Rattle.sn_errno.specs.declared.errno.Errno.TheVariants.{EBADF};
ghost use Rattle.fd_table.specs.Flags.{may_write};
ghost use Rattle.stat_layout.specs.IoVecs.{total_of};
ghost use Rattle.kernel_model.specs.declared.caller.Caller.{Caller as ACaller};
ghost use Rattle.kernel_model.specs.declared.kernel.Kernel.{Kernel as AKernel};
ghost use Rattle.kernel_model.specs.calls.Answers.{refuses};
ghost use Rattle.kernel_model.specs.declared.open_files.OpenFiles.{OpenFiles as AFiles};
ghost use Rattle.kernel_model.specs.calls.Lookups.{descriptor};
ghost use Rattle.kernel_model.specs.calls.ReadWrite.{writes, writev_row};
ghost use Rattle.kernel_model.specs.calls.Vectors.{with_buffers};
ghost use Rattle.kernel_model.specs.entries.Parts.{done};
ghost use Rattle.call_fs.specs.Lookups.{StandsFor};
ghost use Rattle.call_fs.specs.Transfers.{HasMemory, HasPipeOf, IsSure, IsWriting, Moves};

use crate::lookups::FileInHand;
use crate::transfers::{Transferred, denied, told};
use crate::vectors::{Buffers, Vectors, buffers_at, bytes_of, cut_all};
use crate::writes::writes_from;
use kernel_model::{GuestArea, GuestSpace, MOST_MOVED, Named};
use sn_base::Memory;
use sn_errno::Errno;
use stat_layout::IoVec;
use std::alloc::Global;

/// writev(fd, records, count), with what the descriptor has open: as write, from the buffers of so many records, one
/// behind another. No call moves more than 65,536 bytes. Nothing is read before it is done but the records, and which
/// bytes may be.
///
/// EBADF: the descriptor isn't open, or not for writing; EINVAL: more than 1,024 records; EFAULT: a byte of them that
/// may not be read; EINVAL: buffers of more than 2^63 - 1 bytes in all; EFAULT: a byte of the buffers that may not be
/// read; EPIPE: no read end is left; EAGAIN: with O_NONBLOCK, where it would wait; ENOSPC: the console has no room.
pub fn writev(
    alloc: Global,
    opened: Option<FileInHand<'_>>,
    records: u64,
    count: u64,
    space: &GuestSpace,
    areas: &mut Named<GuestArea>,
    console: usize,
) -> Result<Transferred, Memory>
    ensures row { IfOk result (λ t. (fd : ℕ) (c : ACaller) (k : AKernel) → HasMemory c k space.now areas.old →
        StandsFor k.files c.table (descriptor fd) opened.entry → length k.console ≡ console →
        Moves (writev_row fd records count c) t c k space.now areas.old) }
    ensures sure { IfOk result (λ t. (open_files : AFiles) → HasPipeOf opened.entry open_files → IsSure t open_files) }
    ensures kept { areas.new ≡ areas.old }
{
    match opened {
        None => Ok(denied(Errno::EBADF)),
        Some(opened) => writev_open(alloc, &opened, records, count, space, areas, console),
    }
}

/// A write to what is open, where the access lets the caller write.
fn writev_open(
    alloc: Global,
    opened: &FileInHand<'_>,
    records: u64,
    count: u64,
    space: &GuestSpace,
    areas: &mut Named<GuestArea>,
    console: usize,
) -> Result<Transferred, Memory>
    ensures row { IfOk result (λ t. (c : ACaller) (k : AKernel) →
        IsWriting c k space.now areas.old opened.now console →
        Moves (if may_write opened.now.file.description.access
        then with_buffers c records count (λ buffers. writes c buffers opened.now.file.description)
        else done (refuses EBADF)) t c k space.now areas.old) }
    ensures sure { IfOk result (λ t. (open_files : AFiles) → HasPipeOf (Some opened.now) open_files →
        IsSure t open_files) }
    ensures kept { areas.new ≡ areas.old }
{
    if opened.file.description.access.may_write() {
        writes_records(alloc, opened, records, count, space, areas, console)
    } else {
        Ok(denied(Errno::EBADF))
    }
}

/// A write from the buffers of records.
fn writes_records(
    alloc: Global,
    opened: &FileInHand<'_>,
    records: u64,
    count: u64,
    space: &GuestSpace,
    areas: &mut Named<GuestArea>,
    console: usize,
) -> Result<Transferred, Memory>
    ensures row { IfOk result (λ t. (c : ACaller) (k : AKernel) →
        IsWriting c k space.now areas.old opened.now console →
        Moves (with_buffers c records count (λ buffers. writes c buffers opened.now.file.description)) t c k space.now
        areas.old) }
    ensures sure { IfOk result (λ t. (open_files : AFiles) → HasPipeOf (Some opened.now) open_files →
        IsSure t open_files) }
    ensures kept { areas.new ≡ areas.old }
{
    match buffers_at(alloc, space, areas, records, count)? {
        Vectors::Refused(errno) => Ok(denied(errno)),
        Vectors::Found(buffers) => writes_all(
            alloc,
            opened,
            buffers.as_slice(),
            space,
            areas,
            console,
        ),
    }
}

/// A write from buffers: none of no bytes.
fn writes_all(
    alloc: Global,
    opened: &FileInHand<'_>,
    buffers: &[IoVec],
    space: &GuestSpace,
    areas: &mut Named<GuestArea>,
    console: usize,
) -> Result<Transferred, Memory>
    requires { total_of buffers.now ≤ 2 ^ 63 - 1 }
    ensures row { IfOk result (λ t. (c : ACaller) (k : AKernel) →
        IsWriting c k space.now areas.old opened.now console →
        Moves (writes c buffers.now opened.now.file.description) t c k space.now areas.old) }
    ensures sure { IfOk result (λ t. (open_files : AFiles) → HasPipeOf (Some opened.now) open_files →
        IsSure t open_files) }
    ensures kept { areas.new ≡ areas.old }
{
    let count = bytes_of(buffers);
    if count == 0 {
        Ok(told(0))
    } else {
        let first = cut_all(alloc, buffers)?;
        writes_from(
            alloc,
            opened,
            Buffers::Several(first),
            count.min(MOST_MOVED),
            space,
            areas,
            console,
        )
    }
}
