//! read, on pipes, the console and the empty input.

ghost use Rattle.std.specs.Prelude.{◌≡◌, ℕ, ◌+◌, ◌≤◌, ◌∷◌, [], Some, length, min, take, IfOk, OnErr};
ghost use Rattle.std.specs.Prelude.{if◌then◌else◌};
ghost use Rattle.sn_errno.specs.declared.errno.Errno.TheVariants.{EBADF};
ghost use Rattle.fd_table.specs.Flags.{may_read};
ghost use Rattle.pipe_core.specs.Pipes.{after_read};
ghost use Rattle.stat_layout.specs.IoVecs.{total_of};
ghost use Rattle.kernel_model.specs.Names.{get_named};
ghost use Rattle.kernel_model.specs.declared.caller.Caller.{Caller as ACaller};
ghost use Rattle.kernel_model.specs.declared.kernel.Kernel.{Kernel as AKernel};
ghost use Rattle.kernel_model.specs.declared.open_files.OpenFiles.{OpenFiles as AFiles};
ghost use Rattle.kernel_model.specs.declared.kernel.Part.TheVariants.{OfPipe};
ghost use Rattle.kernel_model.specs.calls.Answers.{refuses};
ghost use Rattle.kernel_model.specs.calls.Lookups.{descriptor};
ghost use Rattle.kernel_model.specs.calls.ReadWrite.{from_pipe, is_awaited, put_into, read_row, reads, reads_into};
ghost use Rattle.kernel_model.specs.calls.ReadWrite.{reads_of};
ghost use Rattle.kernel_model.specs.calls.Vectors.{cut};
ghost use Rattle.kernel_model.specs.entries.Parts.{done};
ghost use Rattle.call_fs.specs.CallEnd.{IsApartBy};
ghost use Rattle.call_fs.specs.Lookups.{StandsFor};
ghost use Rattle.call_fs.specs.Transfers.{HasMemory, IsReading, IsSure, Moves};

use crate::lookups::FileInHand;
use crate::transfers::{Transfer, Transferred, denied, told, waits};
use crate::vectors::are_accessible;
use fd_table::Object;
use guest_access::{front, scatter};
use kernel_calls::Context;
use kernel_model::{GuestArea, GuestSpace, MOST_MOVED, Named};
use mm_areas::Rights;
use pipe_core::Pipe;
use sn_base::{Made, Memory};
use sn_errno::Errno;
use stat_layout::IoVec;
use std::alloc::Global;

/// read(fd, buffer, count), with what the descriptor has open: the oldest bytes of a pipe, as many as are there and
/// fit, go into the buffer, and their number is the reply: 0 where no write end is left. It waits for bytes. The
/// console and the empty input are at their end. No call moves more than 65,536 bytes. An `Err` changes nothing.
///
/// EBADF: the descriptor isn't open, or not for reading; EFAULT: a byte of the buffer that may not be written; EAGAIN:
/// with O_NONBLOCK, where it would wait.
pub fn read(
    alloc: Global,
    context: &Context<'_>,
    opened: Option<FileInHand<'_>>,
    buffer: IoVec,
    space: &mut GuestSpace,
    areas: &mut Named<GuestArea>,
) -> Result<Transferred, Memory>
    ensures row { IfOk result (λ t. (fd : ℕ) (c : ACaller) (k : AKernel) → c.task ≡ context.now.task →
        HasMemory c k space.old areas.old → StandsFor k.files c.table (descriptor fd) opened.entry →
        Moves (read_row fd buffer.base buffer.length c) t c k space.new areas.new) }
    ensures sure { IfOk result (λ t. (open_files : AFiles) → IsSure t open_files) }
    ensures apart { IfOk result (λ t. IsApartBy t → (space.new ≡ space.old) × (areas.new ≡ areas.old)) }
    ensures err { OnErr result ((space.new ≡ space.old) × (areas.new ≡ areas.old)) }
{
    match opened {
        None => Ok(denied(Errno::EBADF)),
        Some(opened) => read_open(alloc, context, &opened, buffer, space, areas),
    }
}

/// A read of what is open, where the access lets the caller read.
fn read_open(
    alloc: Global,
    context: &Context<'_>,
    opened: &FileInHand<'_>,
    buffer: IoVec,
    space: &mut GuestSpace,
    areas: &mut Named<GuestArea>,
) -> Result<Transferred, Memory>
    ensures row { IfOk result (λ t. (c : ACaller) (k : AKernel) →
        IsReading c k context.now space.old areas.old opened.now →
        Moves (if may_read opened.now.file.description.access then reads c (buffer ∷ []) opened.now.file.description
        else done (refuses EBADF)) t c k space.new areas.new) }
    ensures sure { IfOk result (λ t. (open_files : AFiles) → IsSure t open_files) }
    ensures apart { IfOk result (λ t. IsApartBy t → (space.new ≡ space.old) × (areas.new ≡ areas.old)) }
    ensures err { OnErr result ((space.new ≡ space.old) × (areas.new ≡ areas.old)) }
{
    if opened.file.description.access.may_read() {
        reads(alloc, context, opened, buffer, space, areas)
    } else {
        Ok(denied(Errno::EBADF))
    }
}

/// A read into a buffer: none of no bytes.
fn reads(
    alloc: Global,
    context: &Context<'_>,
    opened: &FileInHand<'_>,
    buffer: IoVec,
    space: &mut GuestSpace,
    areas: &mut Named<GuestArea>,
) -> Result<Transferred, Memory>
    ensures row { IfOk result (λ t. (c : ACaller) (k : AKernel) →
        IsReading c k context.now space.old areas.old opened.now →
        Moves (reads c (buffer ∷ []) opened.now.file.description) t c k space.new areas.new) }
    ensures sure { IfOk result (λ t. (open_files : AFiles) → IsSure t open_files) }
    ensures apart { IfOk result (λ t. IsApartBy t → (space.new ≡ space.old) × (areas.new ≡ areas.old)) }
    ensures err { OnErr result ((space.new ≡ space.old) × (areas.new ≡ areas.old)) }
{
    if buffer.length == 0 {
        Ok(told(0))
    } else {
        let first = cut(buffer);
        reads_into(alloc, context, opened, &[first], first.length, space, areas)
    }
}

/// The first bytes of a buffer, as many as one call moves.
pub(crate) fn cut(buffer: IoVec) -> IoVec
    ensures cut { result ∷ [] ≡ cut MOST_MOVED (buffer ∷ []) }
    ensures within { result.length ≤ MOST_MOVED }
{
    IoVec {
        base: buffer.base,
        length: buffer.length.min(MOST_MOVED),
    }
}

/// A read into buffers of so many bytes in all, which are all tested before.
pub(crate) fn reads_into(
    alloc: Global,
    context: &Context<'_>,
    opened: &FileInHand<'_>,
    buffers: &[IoVec],
    count: u64,
    space: &mut GuestSpace,
    areas: &mut Named<GuestArea>,
) -> Result<Transferred, Memory>
    requires few { count ≤ MOST_MOVED }
    requires all { count ≡ total_of buffers.now }
    ensures row { IfOk result (λ t. (c : ACaller) (k : AKernel) →
        IsReading c k context.now space.old areas.old opened.now →
        Moves (reads_into c opened.now.file.description buffers.now) t c k space.new areas.new) }
    ensures sure { IfOk result (λ t. (open_files : AFiles) → IsSure t open_files) }
    ensures apart { IfOk result (λ t. IsApartBy t → (space.new ≡ space.old) × (areas.new ≡ areas.old)) }
    ensures err { OnErr result ((space.new ≡ space.old) × (areas.new ≡ areas.old)) }
{
    if are_accessible(alloc, space, areas, Rights::WRITE, buffers)? {
        reads_of(alloc, context, opened, buffers, count, space, areas)
    } else {
        Ok(denied(Errno::EFAULT))
    }
}

/// What is read of an object.
fn reads_of(
    alloc: Global,
    context: &Context<'_>,
    opened: &FileInHand<'_>,
    buffers: &[IoVec],
    count: u64,
    space: &mut GuestSpace,
    areas: &mut Named<GuestArea>,
) -> Result<Transferred, Memory>
    requires few { count ≤ MOST_MOVED }
    requires all { count ≡ total_of buffers.now }
    ensures row { IfOk result (λ t. (c : ACaller) (k : AKernel) →
        IsReading c k context.now space.old areas.old opened.now →
        Moves (reads_of c opened.now.file.description.nonblock buffers.now opened.now.file.description.object) t c k
        space.new areas.new) }
    ensures sure { IfOk result (λ t. (open_files : AFiles) → IsSure t open_files) }
    ensures apart { IfOk result (λ t. IsApartBy t → (space.new ≡ space.old) × (areas.new ≡ areas.old)) }
    ensures err { OnErr result ((space.new ≡ space.old) × (areas.new ≡ areas.old)) }
{
    match opened.file.description.object {
        Object::Node(_) => Ok(denied(Errno::ENOSYS)),
        Object::PipeEnd { pipe: name, .. } => match opened.pipe {
            None => Ok(denied(Errno::EBADF)),
            Some(pipe) => from_pipe(
                alloc,
                context,
                opened.file.description.nonblock,
                buffers,
                count,
                name,
                pipe,
                space,
                areas,
            ),
        },
        Object::Console => Ok(told(0)),
        Object::EmptyInput => Ok(told(0)),
    }
}

/// A read of a pipe.
fn from_pipe(
    alloc: Global,
    context: &Context<'_>,
    nonblock: bool,
    buffers: &[IoVec],
    count: u64,
    name: Made,
    pipe: &Pipe,
    space: &mut GuestSpace,
    areas: &mut Named<GuestArea>,
) -> Result<Transferred, Memory>
    requires few { count ≤ MOST_MOVED }
    requires all { count ≡ total_of buffers.now }
    ensures row { IfOk result (λ t. (c : ACaller) (k : AKernel) → c.task ≡ context.now.task →
        HasMemory c k space.old areas.old → get_named k.files.pipes name.place name.index ≡ Some pipe.now →
        Moves (from_pipe c nonblock buffers.now name pipe.now) t c k space.new areas.new) }
    ensures sure { IfOk result (λ t. (open_files : AFiles) → IsSure t open_files) }
    ensures apart { IfOk result (λ t. IsApartBy t → (space.new ≡ space.old) × (areas.new ≡ areas.old)) }
    ensures err { OnErr result ((space.new ≡ space.old) × (areas.new ≡ areas.old)) }
{
    if is_awaited(pipe) {
        Ok(waits(nonblock, name))
    } else {
        take_from(alloc, context, buffers, count, name, pipe, space, areas)
    }
}

/// Whether a pipe has no bytes, and may get some.
fn is_awaited(pipe: &Pipe) -> bool
    ensures { result ≡ is_awaited pipe.now }
{
    pipe.len() == 0 && pipe.writers() > 0
}

/// A pipe's oldest bytes go into buffers, each filled before the next.
fn take_from(
    alloc: Global,
    context: &Context<'_>,
    buffers: &[IoVec],
    count: u64,
    name: Made,
    pipe: &Pipe,
    space: &mut GuestSpace,
    areas: &mut Named<GuestArea>,
) -> Result<Transferred, Memory>
    requires few { count ≤ MOST_MOVED }
    requires all { count ≡ total_of buffers.now }
    ensures row { IfOk result (λ t. (c : ACaller) (k : AKernel) → c.task ≡ context.now.task →
        HasMemory c k space.old areas.old → get_named k.files.pipes name.place name.index ≡ Some pipe.now →
        Moves (put_into c buffers.now (take (total_of buffers.now) pipe.now.bytes)
        ((OfPipe name, Some (after_read pipe.now (total_of buffers.now))) ∷ [])) t c k space.new areas.new) }
    ensures sure { IfOk result (λ t. (open_files : AFiles) → IsSure t open_files) }
    ensures apart { IfOk result (λ t. IsApartBy t → (space.new ≡ space.old) × (areas.new ≡ areas.old)) }
    ensures err { OnErr result ((space.new ≡ space.old) × (areas.new ≡ areas.old)) }
{
    let (oldest, behind) = pipe.oldest();
    let (first, second) = front(oldest, behind, count as usize);
    let moved = first.len() + second.len();
    if scatter(alloc, context.task, space, areas, buffers, first, second)? {
        Ok(Transferred::Replies {
            reply: moved as i64,
            transfer: Transfer::Takes { pipe: name, count },
        })
    } else {
        Ok(denied(Errno::EFAULT))
    }
}
