//! wait4.

ghost use Rattle.std.specs.Prelude.{◌≡◌, ◌==◌, ◌&&◌, ℕ, [], pos, if◌then◌else◌, IfOk, IsFalse, OnErr};
ghost use Rattle.futex_core.specs.Waiters.{FutexList};
ghost use Rattle.mm_space.specs.Handed.{AreaState};
ghost use Rattle.mm_space.specs.Spaces.{AddressSpace};
ghost use Rattle.task_table.specs.Reaps.{reap_end};
ghost use Rattle.task_table.specs.Table.{TaskTable};
ghost use Rattle.task_table.specs.declared.task.ReapEnd.TheVariants.{Reaped};
ghost use Rattle.kernel_model.specs.Names.{NamedMap};
ghost use Rattle.kernel_model.specs.declared.caller.Caller.{Caller as ACaller};
ghost use Rattle.kernel_model.specs.declared.kernel.Kernel.{Kernel as AKernel};
ghost use Rattle.kernel_model.specs.calls.Answers.{not_ready, replies};
ghost use Rattle.kernel_model.specs.calls.Wait.{asked_child, is_child_asked, is_option, reaps_at, wait4_row};
ghost use Rattle.kernel_model.specs.entries.Parts.{done, parts};
ghost use Rattle.kernel_calls.specs.Prepared.{Answers, Comes, EndsCaller, EndsEach, EndsOnly, EndsTheirs, HasRoomFor};
ghost use Rattle.kernel_calls.specs.Prepared.{HasSpace, IfWaits, IsApart, IsCalling};
ghost use Rattle.kernel_calls.specs.Prepared.{WaitsWith};
ghost use Rattle.kernel_calls.specs.declared.prepared.Effect.TheVariants.{Reaps};

use crate::Context;
use crate::calls::refused;
use crate::memory::replied;
use crate::prepared::{Awaited, Called, Effect, Prepared};
use guest_access::write;
use kernel_model::{Args, GuestArea, GuestSpace, Named};
use sn_base::Memory;
use sn_errno::Errno;
use std::alloc::Global;
use task_table::{ReapEnd, Status, Tasks};

/// Any child.
const ANY_CHILD: u32 = u32::MAX;

/// wait4(child, address, options, usage): a child of the caller's thread group that has ended, of lowest number: the
/// one of a number, or any. Its status is put at an address, or nowhere where that is 0; it is nobody's child from then
/// on, and its number is the reply. Child and options are the low 32 bits.
///
/// EINVAL: a child that is neither -1 nor positive, an option that is neither 0 nor WNOHANG, a place for the usage;
/// ECHILD: no such child; EFAULT: a byte of the status that may not be written. Where none has ended the call waits, or
/// with WNOHANG replies 0.
pub(crate) fn wait4(
    alloc: Global,
    context: &Context<'_>,
    args: &Args,
    space: &mut GuestSpace,
    areas: &mut Named<GuestArea>,
    tasks: &Tasks,
) -> Result<Called, Memory>
    ensures row { IfOk result (λ d. (c : ACaller) (k : AKernel) (waiting : FutexList) (console : ℕ) →
        IsCalling c k context.now space.old areas.old tasks.now waiting console →
        Comes (wait4_row args.now.a0 args.now.a1 args.now.a2 args.now.a3 c) d c k space.new areas.new) }
    ensures apart { IfOk result (λ d. IsApart d → (space.new ≡ space.old) × (areas.new ≡ areas.old)) }
    ensures own { IfOk result (λ d. EndsCaller d context.now.task) }
    ensures ended { IfOk result (λ d. EndsTheirs d context.now.task context.now.group tasks.now) }
    ensures waits { IfOk result (λ d. (c : ACaller) (k : AKernel) (waiting : FutexList) (console : ℕ) →
        IsCalling c k context.now space.old areas.old tasks.now waiting console → IfWaits d (λ awaited.
        WaitsWith awaited c.table (parts k)
        (λ context. wait4_row args.now.a0 args.now.a1 args.now.a2 args.now.a3 c))) }
    ensures room { IfOk result (λ d. HasRoomFor d tasks.now) }
    ensures err { OnErr result ((space.new ≡ space.old) × (areas.new ≡ areas.old)) }
{
    let Args {
        a0: child,
        a1: address,
        a2: options,
        a3: usage,
        ..
    } = *args;
    let child = (child % (1 << 32)) as u32;
    let options = (options % (1 << 32)) as u32;
    if !is_asked(child, options, usage) {
        return Ok(Called::Replies(refused(Errno::EINVAL)));
    }
    let which = asked_child(child);
    match tasks.child_to_reap(context.group, which) {
        ReapEnd::NoChild => Ok(Called::Replies(refused(Errno::ECHILD))),
        ReapEnd::NotYet => Ok(not_yet(options)),
        ReapEnd::Reaped { child, status } => Ok(Called::Replies(reap(
            alloc, context, address, child, status, which, space, areas,
        )?)),
    }
}

/// Whether the call may ask so.
fn is_asked(child: u32, options: u32, usage: u64) -> bool
    ensures { result ≡ (is_child_asked child && is_option options && (usage == 0)) }
{
    is_child_asked(child) && is_option(options) && usage == 0
}

/// Whether a child may be asked for so.
fn is_child_asked(child: u32) -> bool
    ensures { result ≡ is_child_asked child }
{
    child == ANY_CHILD || (0 < child && child < 1 << 31)
}

/// Which child is asked for: the one of a number, or any.
fn asked_child(child: u32) -> Option<u32>
    ensures { result ≡ asked_child child }
{
    if child == ANY_CHILD {
        None
    } else {
        Some(child)
    }
}

/// No option, or WNOHANG.
fn is_option(options: u32) -> bool
    ensures { result ≡ is_option options }
{
    options == 0 || options == 1
}

/// The caller has such children, and none of them has ended.
fn not_yet(options: u32) -> Called
    ensures row { (c : ACaller) (k : AKernel) (own : AddressSpace) (shared : NamedMap AreaState) →
        HasSpace c k own → k.areas ≡ shared →
        Comes (if options == 1 then done (replies (pos 0) []) else done not_ready) result c k own shared }
    ensures own { (task : ℕ) → EndsCaller result task }
    ensures ended { (task group : ℕ) (list : TaskTable) → EndsTheirs result task group list }
    ensures waits { IfWaits result (λ awaited. IsFalse (options == 1)) }
    ensures room { (list : TaskTable) → HasRoomFor result list }
{
    if options == 1 {
        Called::Replies(replied(0))
    } else {
        Called::Waits(Awaited {
            end: None,
            areas: false,
        })
    }
}

/// A child has ended: its status is put at an address, or nowhere where that is 0.
fn reap(
    alloc: Global,
    context: &Context<'_>,
    address: u64,
    child: u32,
    status: Status,
    which: Option<u32>,
    space: &mut GuestSpace,
    areas: &mut Named<GuestArea>,
) -> Result<Prepared, Memory>
    ensures row { IfOk result (λ p.
        (c : ACaller) (k : AKernel) (list : TaskTable) (waiting : FutexList) (console : ℕ) →
        IsCalling c k context.now space.old areas.old list waiting console →
        reap_end list.groups context.now.group which ≡ Reaped child status →
        Answers (reaps_at c list address child status) p c k space.new areas.new) }
    ensures own { IfOk result (λ p. (task : ℕ) → EndsOnly p.effect task) }
    ensures ended { IfOk result (λ p. (task group : ℕ) (list : TaskTable) → EndsEach p.effect task group list) }
    ensures err { OnErr result ((space.new ≡ space.old) × (areas.new ≡ areas.old)) }
{
    if address == 0 {
        return Ok(reaped(child, which));
    }
    let number = status.number().to_le_bytes();
    if write(alloc, context.task, space, areas, address, &number)? {
        Ok(reaped(child, which))
    } else {
        Ok(refused(Errno::EFAULT))
    }
}

/// A child is nobody's child any more, and its number is the reply.
fn reaped(child: u32, which: Option<u32>) -> Prepared
    ensures reply { result.reply ≡ pos child }
    ensures effect { result.effect ≡ Reaps which }
{
    Prepared {
        reply: i64::from(child),
        effect: Effect::Reaps { which },
    }
}
