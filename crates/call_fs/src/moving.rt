//! What becomes of the calls that move bytes, and of pipe2.

ghost use Rattle.std.specs.Prelude.{◌≡◌, ℕ, length, IfOk, OnErr};
ghost use Rattle.task_table.specs.Table.{TaskTable};
ghost use Rattle.kernel_model.specs.declared.caller.Caller.{Caller as ACaller};
ghost use Rattle.kernel_model.specs.declared.kernel.Kernel.{Kernel as AKernel};
ghost use Rattle.kernel_model.specs.declared.open_files.OpenFiles.{OpenFiles as AFiles};
ghost use Rattle.sn_base.specs.declared.made.Made.{Made as AName};
ghost use Rattle.kernel_model.specs.calls.Callers.{context_of};
ghost use Rattle.kernel_model.specs.calls.Lookups.{descriptor};
ghost use Rattle.kernel_model.specs.calls.Pipes.{pipe2_row};
ghost use Rattle.kernel_model.specs.entries.Parts.{parts};
ghost use Rattle.kernel_calls.specs.Prepared.{EndsCaller, EndsTheirs, HasRoomFor, IfWaits, WaitsWith};
ghost use Rattle.call_fs.specs.Asked.{LooksNowhereElse, read_row_by, write_row_by};
ghost use Rattle.call_fs.specs.CallEnd.{ComesTo, HasRoomIn, IfOf, IsApartBy, IsApartIn};
ghost use Rattle.call_fs.specs.Lookups.{StandsFor, end_in};
ghost use Rattle.call_fs.specs.Transfers.{HasMemory, HasPipeOf, IsMoving, IsSure, Moves};

use crate::call_end::CallEnd;
use crate::lookups::{FileInHand, file_in_hand, numbers_of};
use crate::pipes::{PipeCall, pipe2};
use crate::reads::read;
use crate::transfers::Transferred;
use crate::vectors_read::readv;
use crate::vectors_write::writev;
use crate::waiting::{awaited_by, awaited_with_areas};
use crate::writes::write;
use kernel_calls::{Awaited, Context, refused};
use kernel_model::{GuestArea, GuestSpace, Named, OpenFiles};
use mm_areas::Rights;
use sn_base::{Boxed, Memory};
use stat_layout::IoVec;
use std::alloc::Global;

/// How a call names the bytes that it moves: by one buffer, or by records of several.
#[derive(Clone, Copy, Drop)]
pub(crate) enum By {
    Buffer,
    Records,
}

/// What becomes of a read.
pub(crate) fn reading(
    alloc: Global,
    context: &Context<'_>,
    by: By,
    fd: u64,
    at: u64,
    count: u64,
    space: &mut GuestSpace,
    areas: &mut Named<GuestArea>,
    files: &OpenFiles,
) -> Result<CallEnd, Memory>
    ensures row { IfOk result (λ d. (c : ACaller) (k : AKernel) (console : ℕ) →
        IsMoving c k context.now space.old areas.old files.now console →
        ComesTo (read_row_by by fd at count c) d c k space.new areas.new) }
    ensures apart { IfOk result (λ d. IsApartIn d → (space.new ≡ space.old) × (areas.new ≡ areas.old)) }
    ensures sure { IfOk result (λ d. HasRoomIn d files.now) }
    ensures own { IfOk result (λ d. IfOf d (λ o. EndsCaller o context.now.task)) }
    ensures ended { IfOk result (λ d. (task group : ℕ) (list : TaskTable) →
        IfOf d (λ o. EndsTheirs o task group list)) }
    ensures room { IfOk result (λ d. (list : TaskTable) → IfOf d (λ o. HasRoomFor o list)) }
    ensures waits { IfOk result (λ d. (c : ACaller) (k : AKernel) (console : ℕ) →
        IsMoving c k context.now space.old areas.old files.now console → IfOf d (λ o. IfWaits o (λ awaited.
        WaitsWith awaited c.table (parts k) (λ of_row. read_row_by by fd at count c)))) }
    ensures err { OnErr result ((space.new ≡ space.old) × (areas.new ≡ areas.old)) }
{
    let file = file_in_hand(context.table, fd, files);
    match read_by(alloc, context, by, file, at, count, space, areas)? {
        Transferred::Replies { reply, transfer } => Ok(CallEnd::Moves { reply, transfer }),
        Transferred::Waits { .. } => {
            let used = used_by(alloc, by, file, Rights::WRITE, at, count, space);
            Ok(CallEnd::Of(kernel_calls::Called::Waits(used)))
        }
    }
}

/// A read into a buffer, or into those of records.
fn read_by(
    alloc: Global,
    context: &Context<'_>,
    by: By,
    file: Option<FileInHand<'_>>,
    at: u64,
    count: u64,
    space: &mut GuestSpace,
    areas: &mut Named<GuestArea>,
) -> Result<Transferred, Memory>
    ensures row { IfOk result (λ t. (fd : ℕ) (c : ACaller) (k : AKernel) → c.task ≡ context.now.task →
        HasMemory c k space.old areas.old → StandsFor k.files c.table (descriptor fd) file.entry →
        Moves (read_row_by by fd at count c) t c k space.new areas.new) }
    ensures sure { IfOk result (λ t. (open_files : AFiles) → IsSure t open_files) }
    ensures apart { IfOk result (λ t. IsApartBy t → (space.new ≡ space.old) × (areas.new ≡ areas.old)) }
    ensures err { OnErr result ((space.new ≡ space.old) × (areas.new ≡ areas.old)) }
{
    match by {
        By::Buffer => {
            let buffer = IoVec {
                base: at,
                length: count,
            };
            read(alloc, context, file, buffer, space, areas)
        }
        By::Records => readv(alloc, context, file, at, count, space, areas),
    }
}

/// What becomes of a write.
pub(crate) fn writing(
    alloc: Global,
    context: &Context<'_>,
    by: By,
    fd: u64,
    at: u64,
    count: u64,
    space: &GuestSpace,
    areas: &mut Named<GuestArea>,
    console: usize,
    files: &OpenFiles,
) -> Result<CallEnd, Memory>
    ensures row { IfOk result (λ d. (c : ACaller) (k : AKernel) →
        IsMoving c k context.now space.now areas.old files.now console →
        ComesTo (write_row_by by fd at count c) d c k space.now areas.old) }
    ensures sure { IfOk result (λ d. HasRoomIn d files.now) }
    ensures own { IfOk result (λ d. IfOf d (λ o. EndsCaller o context.now.task)) }
    ensures ended { IfOk result (λ d. (task group : ℕ) (list : TaskTable) →
        IfOf d (λ o. EndsTheirs o task group list)) }
    ensures room { IfOk result (λ d. (list : TaskTable) → IfOf d (λ o. HasRoomFor o list)) }
    ensures waits { IfOk result (λ d. (c : ACaller) (k : AKernel) →
        IsMoving c k context.now space.now areas.old files.now console → IfOf d (λ o. IfWaits o (λ awaited.
        WaitsWith awaited c.table (parts k) (λ of_row. write_row_by by fd at count c)))) }
    ensures kept { areas.new ≡ areas.old }
{
    let file = file_in_hand(context.table, fd, files);
    match write_by(alloc, by, file, at, count, space, areas, console)? {
        Transferred::Replies { reply, transfer } => Ok(CallEnd::Moves { reply, transfer }),
        Transferred::Waits { .. } => {
            let used = used_by(alloc, by, file, Rights::READ, at, count, space);
            Ok(CallEnd::Of(kernel_calls::Called::Waits(used)))
        }
    }
}

/// A write from a buffer, or from those of records.
fn write_by(
    alloc: Global,
    by: By,
    file: Option<FileInHand<'_>>,
    at: u64,
    count: u64,
    space: &GuestSpace,
    areas: &mut Named<GuestArea>,
    console: usize,
) -> Result<Transferred, Memory>
    ensures row { IfOk result (λ t. (fd : ℕ) (c : ACaller) (k : AKernel) → HasMemory c k space.now areas.old →
        StandsFor k.files c.table (descriptor fd) file.entry → length k.console ≡ console →
        Moves (write_row_by by fd at count c) t c k space.now areas.old) }
    ensures sure { IfOk result (λ t. (open_files : AFiles) → HasPipeOf file.entry open_files → IsSure t open_files) }
    ensures kept { areas.new ≡ areas.old }
{
    match by {
        By::Buffer => {
            let buffer = IoVec {
                base: at,
                length: count,
            };
            write(alloc, file, buffer, space, areas, console)
        }
        By::Records => writev(alloc, file, at, count, space, areas, console),
    }
}

/// What a read or a write has used that waits.
fn used_by(
    alloc: Global,
    by: By,
    file: Option<FileInHand<'_>>,
    right: Rights,
    at: u64,
    count: u64,
    space: &GuestSpace,
) -> Awaited
    ensures end { (files : AFiles) (table : AName) (number : ℕ) → StandsFor files table number file.entry →
        result.end ≡ end_in files table number }
    ensures areas { LooksNowhereElse by result.areas right space.now at count }
{
    match by {
        By::Buffer => awaited_by(alloc, file, right, at, count, space),
        By::Records => awaited_with_areas(file),
    }
}

/// What becomes of pipe2.
pub(crate) fn piping(
    alloc: Global,
    context: &Context<'_>,
    buffer: u64,
    flags: u64,
    space: &GuestSpace,
    areas: &mut Named<GuestArea>,
    files: &OpenFiles,
) -> Result<CallEnd, Memory>
    ensures row { IfOk result (λ d. (c : ACaller) (k : AKernel) (console : ℕ) →
        IsMoving c k context.now space.now areas.old files.now console →
        ComesTo (pipe2_row (context_of k) buffer flags c) d c k space.now areas.old) }
    ensures sure { IfOk result (λ d. HasRoomIn d files.now) }
    ensures own { IfOk result (λ d. IfOf d (λ o. EndsCaller o context.now.task)) }
    ensures ended { IfOk result (λ d. (task group : ℕ) (list : TaskTable) →
        IfOf d (λ o. EndsTheirs o task group list)) }
    ensures room { IfOk result (λ d. (list : TaskTable) → IfOf d (λ o. HasRoomFor o list)) }
    ensures goes { IfOk result (λ d. IfOf d (λ o. IfWaits o (λ awaited. ⊥))) }
    ensures kept { areas.new ≡ areas.old }
{
    let numbers = numbers_of(context.table, files);
    match pipe2(alloc, numbers, buffer, flags, space, areas)? {
        PipeCall::Refused(errno) => {
            Ok(CallEnd::Of(kernel_calls::Called::Replies(refused(errno))))
        }
        PipeCall::Makes(new) => Ok(CallEnd::MakesPipe(Boxed::new(alloc, new)?)),
    }
}
