//! The table of calls: those on what is open, and all others, which kernel_calls has.

ghost use Rattle.std.specs.Prelude.{◌≡◌, ℕ, IfOk, IsTrue, OnErr, Some};
ghost use Rattle.sn_errno.specs.Calls.{call_numbered};
ghost use Rattle.task_table.specs.Table.{TaskTable, is_live};
ghost use Rattle.kernel_model.specs.declared.caller.Caller.{Caller as ACaller};
ghost use Rattle.kernel_model.specs.declared.kernel.Kernel.{Kernel as AKernel};
ghost use Rattle.kernel_model.specs.calls.Answers.{Answer};
ghost use Rattle.kernel_model.specs.calls.Callers.{Context as RowContext, context_of};
ghost use Rattle.kernel_model.specs.calls.Table.{call_row, row_of_call};
ghost use Rattle.kernel_model.specs.entries.Parts.{Prog, parts};
ghost use Rattle.guest_access.specs.Lending.{AreAlike};
ghost use Rattle.kernel_calls.specs.Prepared.{AnswersKept, EndsCaller, EndsEach, EndsOnly, EndsTheirs, HasRoomFor};
ghost use Rattle.kernel_calls.specs.Prepared.{IfWaits, IsCalling, WaitsWith};
ghost use Rattle.kernel_calls.specs.declared.prepared.Effect.TheVariants.{ChangesFiles};
ghost use Rattle.call_fs.specs.Asked.{IfChanges, IsAsked};
ghost use Rattle.call_fs.specs.CallEnd.{ComesTo, HasRoomIn, IfOf, IsApartIn};
ghost use Rattle.call_fs.specs.Prepared.{AnswersFiles};

use crate::call_end::CallEnd;
use crate::descriptors::{close, dup, dup3, fcntl, ioctl};
use crate::lookups::{numbers_of, open_file};
use crate::moving::{By, piping, reading, writing};
use crate::prepared::FilePrepared;
use crate::seek::{lseek, pread64, pwrite64};
use futex_core::Waiters;
use kernel_calls::{Context, Effect, Prepared};
use kernel_model::{Args, GuestArea, GuestSpace, Named, OpenFiles};
use rv_table::Regs;
use sn_base::{Made, Memory};
use sn_errno::CallNo;
use std::alloc::Global;
use task_table::Tasks;

/// What a call asks for: a read or a write, a pipe, what was prepared of what is open, or none of these.
#[derive(Drop)]
pub(crate) enum Asked {
    Reads(By),
    Writes(By),
    Pipes,
    Changes(Prepared),
    Others,
}

/// The call of a number, of a live task with that memory, with the shared areas there are, with that task list and that
/// futex list, and with what is open, as far as the kernel has it; any other answers ENOSYS. What is mapped is changed
/// at once, and so is what a read puts into memory; what is to be done to the console, the task list, the futex list or
/// what is open is told, and where that may lack memory nothing has changed so far. Of the console it reads only how
/// many bytes that has. An `Err` changes nothing.
pub fn call(
    alloc: Global,
    context: &Context<'_>,
    number: u64,
    registers: &Regs,
    args: &Args,
    space: &mut GuestSpace,
    areas: &mut Named<GuestArea>,
    tasks: &Tasks,
    sleepers: &Waiters,
    console: usize,
    files: &OpenFiles,
) -> Result<CallEnd, Memory>
    requires { IsTrue (is_live tasks.now.tasks context.now.task) }
    ensures row { IfOk result (λ d. (c : ACaller) (k : AKernel) →
        IsCalling c k context.now space.old areas.old tasks.now sleepers.now console → k.files ≡ files.now →
        c.registers ≡ registers.now →
        ComesTo (call_row (context_of k) c number args.now) d c k space.new areas.new) }
    ensures apart { IfOk result (λ d. IsApartIn d → (space.new ≡ space.old) × (areas.new ≡ areas.old)) }
    ensures sure { IfOk result (λ d. HasRoomIn d files.now) }
    ensures own { IfOk result (λ d. IfOf d (λ o. EndsCaller o context.now.task)) }
    ensures ended { IfOk result (λ d. IfOf d (λ o. EndsTheirs o context.now.task context.now.group tasks.now)) }
    ensures waits { IfOk result (λ d. (c : ACaller) (k : AKernel) →
        IsCalling c k context.now space.old areas.old tasks.now sleepers.now console → k.files ≡ files.now →
        IfOf d (λ o. IfWaits o (λ awaited.
        WaitsWith awaited c.table (parts k) (λ context. call_row context c number args.now)))) }
    ensures room { IfOk result (λ d. IfOf d (λ o. HasRoomFor o tasks.now)) }
    ensures err { OnErr result (space.new ≡ space.old) }
    ensures err_areas { OnErr result (AreAlike areas.new areas.old) }
{
    match asked_of(number, context.table, args, files) {
        Asked::Reads(by) => reading(
            alloc, context, by, args.a0, args.a1, args.a2, space, areas, files,
        ),
        Asked::Writes(by) => writing(
            alloc, context, by, args.a0, args.a1, args.a2, space, areas, console, files,
        ),
        Asked::Pipes => piping(alloc, context, args.a0, args.a1, space, areas, files),
        Asked::Changes(prepared) => Ok(CallEnd::Of(kernel_calls::Called::Replies(prepared))),
        Asked::Others => Ok(CallEnd::Of(kernel_calls::call(
            alloc,
            context,
            number,
            registers,
            args,
            space,
            areas,
            tasks,
            sleepers,
            numbers_of(context.table, files),
        )?)),
    }
}

/// What the call of a number asks for.
fn asked_of(number: u64, table: Made, args: &Args, files: &OpenFiles) -> Asked
    ensures asked { IsAsked result (call_numbered number) }
    ensures row { IfChanges result (λ p. (context : RowContext) (c : ACaller) (k : AKernel) → c.table ≡ table →
        k.files ≡ files.now → AnswersKept (call_row context c number args.now) p c.group k) }
    ensures own { IfChanges result (λ p. (task : ℕ) → EndsOnly p.effect task) }
    ensures ended { IfChanges result (λ p. (task group : ℕ) (list : TaskTable) → EndsEach p.effect task group list) }
{
    match CallNo::of(number) {
        Some(call) => asked_by(call, table, args, files),
        None => Asked::Others,
    }
}

/// What a call asks for, a row a call.
#[rattlefmt::skip]
fn asked_by(call: CallNo, table: Made, args: &Args, files: &OpenFiles) -> Asked
    ensures asked { IsAsked result (Some call) }
    ensures row { IfChanges result (λ p. (context : RowContext) (c : ACaller) (k : AKernel) → c.table ≡ table →
        k.files ≡ files.now → AnswersKept (row_of_call context c args.now call) p c.group k) }
    ensures own { IfChanges result (λ p. (task : ℕ) → EndsOnly p.effect task) }
    ensures ended { IfChanges result (λ p. (task group : ℕ) (list : TaskTable) → EndsEach p.effect task group list) }
{
    match call {
        CallNo::Read => Asked::Reads(By::Buffer),
        CallNo::Readv => Asked::Reads(By::Records),
        CallNo::Write => Asked::Writes(By::Buffer),
        CallNo::Writev => Asked::Writes(By::Records),
        CallNo::Pipe2 => Asked::Pipes,
        CallNo::Dup => Asked::Changes(changes(table, dup(numbers_of(table, files), args.a0))),
        CallNo::Dup3 => Asked::Changes(changes(table, dup3(numbers_of(table, files), args.a0, args.a1, args.a2))),
        CallNo::Fcntl => {
            let file = open_file(table, args.a0, files);
            Asked::Changes(changes(table, fcntl(numbers_of(table, files), args.a0, file, args.a1, args.a2)))
        }
        CallNo::Ioctl => Asked::Changes(changes(table, ioctl(numbers_of(table, files), args.a0))),
        CallNo::Close => Asked::Changes(changes(table, close(numbers_of(table, files), args.a0))),
        CallNo::Lseek => Asked::Changes(changes(table, lseek(open_file(table, args.a0, files)))),
        CallNo::Pread64 => Asked::Changes(changes(table, pread64(open_file(table, args.a0, files)))),
        CallNo::Pwrite64 => Asked::Changes(changes(table, pwrite64(open_file(table, args.a0, files)))),
        CallNo::Getcwd | CallNo::Mkdirat | CallNo::Unlinkat | CallNo::Symlinkat | CallNo::Linkat
        | CallNo::Ftruncate | CallNo::Faccessat | CallNo::Chdir | CallNo::Openat | CallNo::Getdents64
        | CallNo::Readlinkat | CallNo::Newfstatat | CallNo::Fstat | CallNo::Exit
        | CallNo::ExitGroup | CallNo::SetTidAddress | CallNo::Futex | CallNo::SetRobustList | CallNo::ClockGettime
        | CallNo::SchedYield | CallNo::Kill | CallNo::RtSigaction | CallNo::RtSigprocmask | CallNo::Uname
        | CallNo::Getpid | CallNo::Getppid | CallNo::Getuid | CallNo::Geteuid | CallNo::Getgid | CallNo::Getegid
        | CallNo::Gettid | CallNo::Brk | CallNo::Munmap | CallNo::Clone | CallNo::Execve | CallNo::Mmap
        | CallNo::Mprotect | CallNo::Wait4 | CallNo::Renameat2 | CallNo::Getrandom => Asked::Others,
    }
}

/// What a call comes to that changes nothing but what is open, for a caller of that table.
#[tactic(auto, using(crate::proofs::Calling::answers_changes))]
fn changes(table: Made, prepared: FilePrepared) -> Prepared
    ensures row { (row : Prog Answer) (c : ACaller) (k : AKernel) (group : ℕ) → c.table ≡ table →
        AnswersFiles row prepared c k → AnswersKept row result group k }
    ensures effect { result.effect ≡ ChangesFiles table prepared.change }
{
    Prepared {
        reply: prepared.reply,
        effect: Effect::ChangesFiles {
            table,
            change: prepared.change,
        },
    }
}
