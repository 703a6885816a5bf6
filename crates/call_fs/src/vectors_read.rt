//! readv, on pipes, the console and the empty input.

ghost use Rattle.std.specs.Prelude.{◌≡◌, ℕ, ◌^◌, ◌-◌, ◌≤◌, IfOk, OnErr, if◌then◌else◌};
ghost use Rattle.sn_errno.specs.declared.errno.Errno.TheVariants.{EBADF};
ghost use Rattle.fd_table.specs.Flags.{may_read};
ghost use Rattle.stat_layout.specs.IoVecs.{total_of};
ghost use Rattle.kernel_model.specs.declared.caller.Caller.{Caller as ACaller};
ghost use Rattle.kernel_model.specs.declared.kernel.Kernel.{Kernel as AKernel};
ghost use Rattle.kernel_model.specs.calls.Answers.{refuses};
ghost use Rattle.kernel_model.specs.declared.open_files.OpenFiles.{OpenFiles as AFiles};
ghost use Rattle.kernel_model.specs.calls.Lookups.{descriptor};
ghost use Rattle.kernel_model.specs.calls.ReadWrite.{reads, readv_row};
ghost use Rattle.kernel_model.specs.calls.Vectors.{with_buffers};
ghost use Rattle.kernel_model.specs.entries.Parts.{done};
ghost use Rattle.call_fs.specs.CallEnd.{IsApartBy};
ghost use Rattle.call_fs.specs.Lookups.{StandsFor};
ghost use Rattle.call_fs.specs.Transfers.{HasMemory, IsReading, IsSure, Moves};

use crate::lookups::FileInHand;
use crate::reads::reads_into;
use crate::transfers::{Transferred, denied, told};
use crate::vectors::{Vectors, buffers_at, bytes_of, cut_all};
use kernel_calls::Context;
use kernel_model::{GuestArea, GuestSpace, MOST_MOVED, Named};
use sn_base::Memory;
use sn_errno::Errno;
use stat_layout::IoVec;
use std::alloc::Global;

/// readv(fd, records, count), with what the descriptor has open: as read, into the buffers of so many records, each
/// filled before the next. No call moves more than 65,536 bytes. An `Err` changes nothing.
///
/// EBADF: the descriptor isn't open, or not for reading; EINVAL: more than 1,024 records; EFAULT: a byte of them that
/// may not be read; EINVAL: buffers of more than 2^63 - 1 bytes in all; EFAULT: a byte of the buffers that may not be
/// written; EAGAIN: with O_NONBLOCK, where it would wait.
pub fn readv(
    alloc: Global,
    context: &Context<'_>,
    opened: Option<FileInHand<'_>>,
    records: u64,
    count: u64,
    space: &mut GuestSpace,
    areas: &mut Named<GuestArea>,
) -> Result<Transferred, Memory>
    ensures row { IfOk result (λ t. (fd : ℕ) (c : ACaller) (k : AKernel) → c.task ≡ context.now.task →
        HasMemory c k space.old areas.old → StandsFor k.files c.table (descriptor fd) opened.entry →
        Moves (readv_row fd records count c) t c k space.new areas.new) }
    ensures sure { IfOk result (λ t. (open_files : AFiles) → IsSure t open_files) }
    ensures apart { IfOk result (λ t. IsApartBy t → (space.new ≡ space.old) × (areas.new ≡ areas.old)) }
    ensures err { OnErr result ((space.new ≡ space.old) × (areas.new ≡ areas.old)) }
{
    match opened {
        None => Ok(denied(Errno::EBADF)),
        Some(opened) => readv_open(alloc, context, &opened, records, count, space, areas),
    }
}

/// A read of what is open, where the access lets the caller read.
fn readv_open(
    alloc: Global,
    context: &Context<'_>,
    opened: &FileInHand<'_>,
    records: u64,
    count: u64,
    space: &mut GuestSpace,
    areas: &mut Named<GuestArea>,
) -> Result<Transferred, Memory>
    ensures row { IfOk result (λ t. (c : ACaller) (k : AKernel) →
        IsReading c k context.now space.old areas.old opened.now →
        Moves (if may_read opened.now.file.description.access
        then with_buffers c records count (λ buffers. reads c buffers opened.now.file.description)
        else done (refuses EBADF)) t c k space.new areas.new) }
    ensures sure { IfOk result (λ t. (open_files : AFiles) → IsSure t open_files) }
    ensures apart { IfOk result (λ t. IsApartBy t → (space.new ≡ space.old) × (areas.new ≡ areas.old)) }
    ensures err { OnErr result ((space.new ≡ space.old) × (areas.new ≡ areas.old)) }
{
    if opened.file.description.access.may_read() {
        reads_records(alloc, context, opened, records, count, space, areas)
    } else {
        Ok(denied(Errno::EBADF))
    }
}

/// A read into the buffers of records.
fn reads_records(
    alloc: Global,
    context: &Context<'_>,
    opened: &FileInHand<'_>,
    records: u64,
    count: u64,
    space: &mut GuestSpace,
    areas: &mut Named<GuestArea>,
) -> Result<Transferred, Memory>
    ensures row { IfOk result (λ t. (c : ACaller) (k : AKernel) →
        IsReading c k context.now space.old areas.old opened.now →
        Moves (with_buffers c records count (λ buffers. reads c buffers opened.now.file.description)) t c k space.new
        areas.new) }
    ensures sure { IfOk result (λ t. (open_files : AFiles) → IsSure t open_files) }
    ensures apart { IfOk result (λ t. IsApartBy t → (space.new ≡ space.old) × (areas.new ≡ areas.old)) }
    ensures err { OnErr result ((space.new ≡ space.old) × (areas.new ≡ areas.old)) }
{
    match buffers_at(alloc, space, areas, records, count)? {
        Vectors::Refused(errno) => Ok(denied(errno)),
        Vectors::Found(buffers) => reads_all(
            alloc,
            context,
            opened,
            buffers.as_slice(),
            space,
            areas,
        ),
    }
}

/// A read into buffers: none of no bytes.
fn reads_all(
    alloc: Global,
    context: &Context<'_>,
    opened: &FileInHand<'_>,
    buffers: &[IoVec],
    space: &mut GuestSpace,
    areas: &mut Named<GuestArea>,
) -> Result<Transferred, Memory>
    requires { total_of buffers.now ≤ 2 ^ 63 - 1 }
    ensures row { IfOk result (λ t. (c : ACaller) (k : AKernel) →
        IsReading c k context.now space.old areas.old opened.now →
        Moves (reads c buffers.now opened.now.file.description) t c k space.new areas.new) }
    ensures sure { IfOk result (λ t. (open_files : AFiles) → IsSure t open_files) }
    ensures apart { IfOk result (λ t. IsApartBy t → (space.new ≡ space.old) × (areas.new ≡ areas.old)) }
    ensures err { OnErr result ((space.new ≡ space.old) × (areas.new ≡ areas.old)) }
{
    let count = bytes_of(buffers);
    if count == 0 {
        Ok(told(0))
    } else {
        let first = cut_all(alloc, buffers)?;
        reads_into(
            alloc,
            context,
            opened,
            first.as_slice(),
            count.min(MOST_MOVED),
            space,
            areas,
        )
    }
}
