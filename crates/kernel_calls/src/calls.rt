//! What system calls come to: the table of the calls that the kernel has.

ghost use Rattle.std.specs.Prelude.{◌≡◌, ℕ, false, true, IfOk, IsTrue, OnErr, option_copied};
ghost use Rattle.futex_core.specs.Waiters.{FutexList};
ghost use Rattle.sn_errno.specs.Calls.{call_numbered};
ghost use Rattle.sn_errno.specs.Errors.{reply_of};
ghost use Rattle.sn_errno.specs.declared.errno.Errno.TheVariants.{ENOSYS};
ghost use Rattle.task_table.specs.Table.{is_live};
ghost use Rattle.kernel_model.specs.declared.caller.Caller.{Caller as ACaller};
ghost use Rattle.kernel_model.specs.declared.kernel.Kernel.{Kernel as AKernel};
ghost use Rattle.kernel_model.specs.calls.Callers.{context_of};
ghost use Rattle.kernel_model.specs.calls.Table.{call_row, row_of_call};
ghost use Rattle.kernel_model.specs.entries.Parts.{parts};
ghost use Rattle.kernel_calls.specs.Families.{always_replies, is_on_files};
ghost use Rattle.guest_access.specs.Lending.{AreAlike};
ghost use Rattle.kernel_calls.specs.Prepared.{Answers, Comes, EndsCaller, EndsEach, EndsOnly, EndsTheirs, HasRoomFor};
ghost use Rattle.kernel_calls.specs.Prepared.{HasTable, IfWaits, IsApart, IsCalling, WaitsWith};
ghost use Rattle.kernel_calls.specs.declared.prepared.Effect.TheVariants.{Nothing};

use crate::Context;
use crate::clone::clone;
use crate::ending::{exit, exit_group, set_robust_list, set_tid_address};
use crate::futex::futex;
use crate::identity::{getpid, getppid, gettid, owner, uname};
use crate::mapping::mmap;
use crate::memory::{brk, mprotect, munmap};
use crate::prepared::{Called, Effect, Prepared};
use crate::random::getrandom;
use crate::time::{clock_gettime, sched_yield};
use crate::wait::wait4;
use fd_table::FdTable;
use futex_core::Waiters;
use kernel_model::{Args, GuestArea, GuestSpace, Named};
use rv_table::Regs;
use sn_base::Memory;
use sn_errno::{CallNo, Errno, Reply};
use std::alloc::Global;
use task_table::Tasks;

/// The call of a number, of a live task with that memory, with the shared areas there are, with that task list and that
/// futex list, as far as the kernel has it: those that may do something else than reply here, and the table of the
/// others below. Calls on what is open are of `call_fs`, and none of them comes here: of what is open the caller's
/// descriptor table is looked at alone, where there is one. Any other answers ENOSYS. What is mapped and what lies in
/// memory is changed at once; what is to be done to the task list or the futex list is told, and where that may lack
/// memory nothing has changed so far. An `Err` changes nothing.
#[tactic(auto, using(crate::proofs::Answering::answers_lacking))]
pub fn call(
    alloc: Global,
    context: &Context<'_>,
    number: u64,
    registers: &Regs,
    args: &Args,
    space: &mut GuestSpace,
    areas: &mut Named<GuestArea>,
    tasks: &Tasks,
    sleepers: &Waiters,
    numbers: Option<&FdTable>,
) -> Result<Called, Memory>
    requires lives { IsTrue (is_live tasks.now.tasks context.now.task) }
    requires others { is_on_files (call_numbered number) ≡ false }
    ensures row { IfOk result (λ d. (c : ACaller) (k : AKernel) (console : ℕ) →
        IsCalling c k context.now space.old areas.old tasks.now sleepers.now console →
        HasTable c k (option_copied numbers.entry) → c.registers ≡ registers.now →
        Comes (call_row (context_of k) c number args.now) d c k space.new areas.new) }
    ensures apart { IfOk result (λ d. IsApart d → (space.new ≡ space.old) × (areas.new ≡ areas.old)) }
    ensures own { IfOk result (λ d. EndsCaller d context.now.task) }
    ensures ended { IfOk result (λ d. EndsTheirs d context.now.task context.now.group tasks.now) }
    ensures waits { IfOk result (λ d. (c : ACaller) (k : AKernel) (console : ℕ) →
        IsCalling c k context.now space.old areas.old tasks.now sleepers.now console → IfWaits d (λ awaited.
        WaitsWith awaited c.table (parts k) (λ context. call_row context c number args.now))) }
    ensures room { IfOk result (λ d. HasRoomFor d tasks.now) }
    ensures err { OnErr result (space.new ≡ space.old) }
    ensures err_areas { OnErr result (AreAlike areas.new areas.old) }
{
    let Some(call) = CallNo::of(number) else {
        return Ok(Called::Replies(refused(Errno::ENOSYS)));
    };
    match call {
        CallNo::Futex => futex(alloc, context, args, space, areas, sleepers),
        CallNo::Clone => clone(alloc, context, registers, args, space, areas, tasks),
        CallNo::Wait4 => wait4(alloc, context, args, space, areas, tasks),
        _ => {
            let prepared = replying(alloc, context, call, args, space, areas, tasks, numbers)?;
            Ok(Called::Replies(prepared))
        }
    }
}

/// What a call comes to that always replies, a row a call, with those last that the kernel does not have.
#[rattlefmt::skip]
#[tactic(auto, using(crate::proofs::Answering::answers_lacking))]
fn replying(
    alloc: Global,
    context: &Context<'_>,
    call: CallNo,
    args: &Args,
    space: &mut GuestSpace,
    areas: &mut Named<GuestArea>,
    tasks: &Tasks,
    numbers: Option<&FdTable>,
) -> Result<Prepared, Memory>
    requires lives { IsTrue (is_live tasks.now.tasks context.now.task) }
    requires replies { always_replies call ≡ true }
    ensures row { IfOk result (λ p. (c : ACaller) (k : AKernel) (waiting : FutexList) (console : ℕ) →
        IsCalling c k context.now space.old areas.old tasks.now waiting console →
        HasTable c k (option_copied numbers.entry) →
        Answers (row_of_call (context_of k) c args.now call) p c k space.new areas.new) }
    ensures own { IfOk result (λ p. EndsOnly p.effect context.now.task) }
    ensures ended { IfOk result (λ p. EndsEach p.effect context.now.task context.now.group tasks.now) }
    ensures err { OnErr result (space.new ≡ space.old) }
    ensures err_areas { OnErr result (AreAlike areas.new areas.old) }
{
    match call {
        CallNo::Exit => exit(alloc, context, args.a0, space, areas, tasks),
        CallNo::ExitGroup => exit_group(alloc, context, args.a0, space, areas, tasks),
        CallNo::SetTidAddress => Ok(set_tid_address(context, args.a0)),
        CallNo::SetRobustList => Ok(set_robust_list()),
        CallNo::ClockGettime => clock_gettime(alloc, context, args.a0, args.a1, space, areas),
        CallNo::SchedYield => Ok(sched_yield()),
        CallNo::Uname => uname(alloc, context, args.a0, space, areas),
        CallNo::Getpid => Ok(getpid(context)),
        CallNo::Getppid => Ok(getppid(context, tasks)),
        CallNo::Getuid | CallNo::Geteuid | CallNo::Getgid | CallNo::Getegid => Ok(owner()),
        CallNo::Gettid => Ok(gettid(context)),
        CallNo::Brk => brk(alloc, args.a0, space),
        CallNo::Munmap => munmap(args.a0, args.a1, space),
        CallNo::Mmap => mmap(alloc, context, args, space, areas, numbers),
        CallNo::Mprotect => Ok(mprotect(args.a0, args.a1, args.a2, space)),
        CallNo::Getrandom => getrandom(alloc, context, args.a0, args.a1, args.a2, space, areas),
        CallNo::Getcwd | CallNo::Mkdirat | CallNo::Unlinkat | CallNo::Symlinkat | CallNo::Linkat
        | CallNo::Ftruncate | CallNo::Faccessat | CallNo::Chdir | CallNo::Openat | CallNo::Getdents64
        | CallNo::Readlinkat | CallNo::Newfstatat | CallNo::Fstat | CallNo::Kill | CallNo::RtSigaction
        | CallNo::RtSigprocmask | CallNo::Execve | CallNo::Renameat2 => Ok(refused(Errno::ENOSYS)),
        CallNo::Futex | CallNo::Clone | CallNo::Wait4 | CallNo::Dup | CallNo::Dup3 | CallNo::Fcntl | CallNo::Ioctl
        | CallNo::Close | CallNo::Pipe2 | CallNo::Lseek | CallNo::Read | CallNo::Write | CallNo::Readv
        | CallNo::Writev | CallNo::Pread64 | CallNo::Pwrite64 => unreachable!(),
    }
}

/// A call that is refused with an error.
pub fn refused(errno: Errno) -> Prepared
    ensures reply { result.reply ≡ reply_of errno }
    ensures effect { result.effect ≡ Nothing }
{
    Prepared {
        reply: Reply::of(errno).number(),
        effect: Effect::Nothing,
    }
}
