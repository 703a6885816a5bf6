//! The entries of calls: what the call comes to that a task stands at, and the doing of it.

ghost use Rattle.std.specs.Prelude.{◌≡◌, ◌+◌, ◌<◌, true, [], Some, List as Items, IfOk, Ok, pos};
ghost use Rattle.std.specs.Ordering.{int_eq};
ghost use Rattle.sn_errno.specs.Errors.{reply_of};
ghost use Rattle.sn_errno.specs.declared.errno.Errno.TheVariants.{EIO};
ghost use Rattle.kernel_calls.specs.Making.{with_new_child};
ghost use Rattle.kernel_calls.specs.Prepared.{EndsCaller, EndsOnly, HasRoomFor, with_effect};
ghost use Rattle.kernel_model.specs.declared.kernel.Kernel.{Kernel as AKernel};
ghost use Rattle.kernel_model.specs.declared.traps.Next.TheVariants.{Calls};
ghost use Rattle.kernel_model.specs.calls.Answers.{Answer, Replies};
ghost use Rattle.kernel_model.specs.calls.Callers.{context_of};
ghost use Rattle.kernel_model.specs.calls.Table.{call_row};
ghost use Rattle.kernel_model.specs.entries.Areas.{next_row};
ghost use Rattle.kernel_model.specs.entries.Given.{may_meet};
ghost use Rattle.kernel_model.specs.entries.Parts.{Change, Prog, changed, outcome_in, parts};
ghost use Rattle.kernel_model.specs.entries.Steps.{by_answer, call_entry, failing, replied_by, replied_to, same_args, stands_at};
ghost use Rattle.kernel_model.specs.laws.Room.{IsRoomFor};
ghost use Rattle.call_fs.specs.CallEnd.{ComesTo, HasRoomIn, IfOf, IsApartIn};
ghost use Rattle.plain_steps.specs.Doing.{Does, IsThere};
ghost use Rattle.plain_steps.specs.Drafts.{IsCopied, with_draft};
ghost use Rattle.node_numbers.specs.Unused.{AreUnused};

use crate::callers::{context, copied_areas};
use crate::drafts::{CallEntry, Draft};
use crate::effects::{go_on, settle};
use crate::moving::{move_bytes, open_pipe};
use call_fs::{CallEnd, call};
use guest_access::step;
use kernel_calls::{ClonedTask, Prepared, args_of, call_of, make};
use kernel_model::{Args, Caller, Given, Kernel, Next};
use mount_file::MOST_ENTRIES;
use node_numbers::{faulted, is_in_order};
use rv_table::Regs;
use sn_base::{Boxed, Memory};
use sn_errno::{Errno, Reply};
use std::alloc::Global;
use task_table::Tasks;

/// Does the call that a task stands at, where it is that of the entry. No call so far names a child, so one that drew
/// numbers and met no fault fits nothing.
pub(crate) fn call_task(
    alloc: Global,
    kernel: &mut Kernel,
    caller: Caller,
    call: &CallEntry<'_>,
) -> Result<bool, Memory>
    requires few { kernel.old.entries < MOST_ENTRIES }
    requires may { may_meet kernel.old.nodes call.now.given.now ≡ true }
    requires there { IsThere caller kernel.old }
    requires space { IsCopied caller kernel.old }
    ensures { Does (outcome_in (parts kernel.old)
        (call_entry (context_of kernel.old) caller
        call.now.no call.now.args.now call.now.reply call.now.given.now)) kernel.old kernel.new result }
{
    let areas = copied_areas(alloc, kernel)?;
    let mut draft = Draft { caller, areas };
    call_over(alloc, kernel, &mut draft, call)
}

/// As `call_task`, over a draft of the task and the shared areas.
fn call_over(
    alloc: Global,
    kernel: &mut Kernel,
    draft: &mut Draft,
    call: &CallEntry<'_>,
) -> Result<bool, Memory>
    requires few { kernel.old.entries < MOST_ENTRIES }
    requires may { may_meet kernel.old.nodes call.now.given.now ≡ true }
    requires there { IsThere draft.old.caller kernel.old }
    requires space { IsCopied draft.old.caller kernel.old }
    requires areas { kernel.old.areas ≡ draft.old.areas }
    ensures { Does (outcome_in (parts kernel.old)
        (call_entry (context_of kernel.old) draft.old.caller
        call.now.no call.now.args.now call.now.reply call.now.given.now)) kernel.old kernel.new result }
{
    if !stands_at(alloc, draft, call.no, call.args)? {
        return Ok(false);
    }
    if !is_in_order(call.given) {
        return Ok(false);
    }
    if !call.given.rises.is_empty() {
        return failing(alloc, kernel, &draft.caller, call.reply, call.given);
    }
    answer_call(alloc, kernel, draft, call)
}

/// Does the call that a task stands at, which met no fault.
fn answer_call(
    alloc: Global,
    kernel: &mut Kernel,
    draft: &mut Draft,
    call: &CallEntry<'_>,
) -> Result<bool, Memory>
    requires few { kernel.old.entries < MOST_ENTRIES }
    requires there { IsThere draft.old.caller kernel.old }
    requires space { IsCopied draft.old.caller kernel.old }
    requires areas { kernel.old.areas ≡ draft.old.areas }
    ensures { Does (outcome_in (parts kernel.old) (by_answer draft.old.caller call.now.reply call.now.given.now
        (outcome_in (parts kernel.old)
        (call_row (context_of kernel.old) draft.old.caller call.now.no call.now.args.now))))
        kernel.old kernel.new result }
{
    let called = prepare(alloc, kernel, draft, call.no, call.args)?;
    if !call.given.fresh.is_empty() {
        return Ok(false);
    }
    finish(alloc, kernel, draft, call.reply, called)
}

/// Whether a task stands at an ECALL, with that call's number and arguments in its registers. Where it does, the task
/// and the shared areas stay.
fn stands_at(alloc: Global, draft: &mut Draft, no: u64, args: &Args) -> Result<bool, Memory>
    ensures stands { IfOk result (λ b. (k : AKernel) → k.areas ≡ draft.old.areas →
        b ≡ stands_at no args.now draft.old.caller.registers
        (outcome_in (parts k) (next_row draft.old.caller)).next) }
    ensures kept { IfOk result (λ b. b ≡ true → draft.new.caller ≡ draft.old.caller) }
    ensures kept_areas { IfOk result (λ b. b ≡ true → draft.new.areas ≡ draft.old.areas) }
{
    match step(
        alloc,
        draft.caller.task,
        &mut draft.caller.registers,
        &mut draft.caller.space,
        &mut draft.areas,
    )? {
        Next::Calls => Ok(is_call(&draft.caller.registers, no, args)),
        Next::Goes => Ok(false),
        Next::Traps(_) => Ok(false),
        Next::Touches(_) => Ok(false),
    }
}

/// Whether a task's registers have the number and the arguments of a call.
pub(crate) fn is_call(registers: &Regs, no: u64, args: &Args) -> bool
    ensures { result ≡ stands_at no args.now registers.now Calls }
{
    call_of(registers) == no && same_args(&args_of(registers), args)
}

/// Whether two calls have the same arguments.
fn same_args(a: &Args, b: &Args) -> bool
    ensures { result ≡ same_args a.now b.now }
{
    a.a0 == b.a0 && a.a1 == b.a1 && a.a2 == b.a2 && a.a3 == b.a3 && a.a4 == b.a4 && a.a5 == b.a5
}

/// What a call of a task comes to, over its address space and these shared areas, which it changes.
pub(crate) fn prepare(
    alloc: Global,
    kernel: &Kernel,
    draft: &mut Draft,
    no: u64,
    args: &Args,
) -> Result<CallEnd, Memory>
    requires few { kernel.now.entries < MOST_ENTRIES }
    requires there { IsThere draft.old.caller kernel.now }
    requires space { IsCopied draft.old.caller kernel.now }
    requires areas { kernel.now.areas ≡ draft.old.areas }
    ensures row { IfOk result (λ d. ComesTo (call_row (context_of kernel.now) draft.old.caller no args.now) d
        draft.old.caller kernel.now draft.new.caller.space draft.new.areas) }
    ensures apart { IfOk result (λ d. IsApartIn d →
        (draft.new.caller.space ≡ draft.old.caller.space) × (draft.new.areas ≡ draft.old.areas)) }
    ensures own { IfOk result (λ d. IfOf d (λ o. EndsCaller o draft.old.caller.task)) }
    ensures room { IfOk result (λ d. IfOf d (λ o. HasRoomFor o kernel.now.tasks)) }
    ensures sure { IfOk result (λ d. HasRoomIn d kernel.now.files) }
    ensures kept { draft.new.caller ≡ record draft.old.caller { space = draft.new.caller.space } }
{
    let registers = draft.caller.registers;
    let context = context(&draft.caller, kernel.entries + 1, kernel.seed.as_slice());
    call(
        alloc,
        &context,
        no,
        &registers,
        args,
        &mut draft.caller.space,
        &mut draft.areas,
        &kernel.tasks,
        &kernel.sleepers,
        kernel.console.len(),
        &kernel.files,
    )
}

/// Does what has become of a call of a task, which has left the task's memory and the shared areas so: as they were,
/// where it may still lack memory. A call that puts its task to sleep, or that waits, has not replied.
fn finish(
    alloc: Global,
    kernel: &mut Kernel,
    draft: &mut Draft,
    reply: i64,
    called: CallEnd,
) -> Result<bool, Memory>
    requires few { kernel.old.entries < MOST_ENTRIES }
    requires there { IsThere draft.old.caller kernel.old }
    requires own { IfOf called (λ o. EndsCaller o draft.old.caller.task) }
    requires room { IfOf called (λ o. HasRoomFor o kernel.old.tasks) }
    requires sure { HasRoomIn called kernel.old.files }
    requires space { IsApartIn called → IsCopied draft.old.caller kernel.old }
    requires areas { IsApartIn called → kernel.old.areas ≡ draft.old.areas }
    ensures { (row : Prog Answer) →
        ComesTo row called draft.old.caller kernel.old draft.old.caller.space draft.old.areas →
        Does (replied_to draft.old.caller reply (Some []) (outcome_in (parts kernel.old) row))
        kernel.old kernel.new result }
{
    match called {
        CallEnd::Of(kept) => match kept {
            kernel_calls::Called::Replies(prepared) => {
                Ok(answer(kernel, draft, reply, prepared))
            }
            kernel_calls::Called::Makes(child) => make_child(
                alloc,
                kernel,
                &draft.caller,
                reply,
                child,
            ),
            kernel_calls::Called::Sleeps(_) => Ok(false),
            kernel_calls::Called::Waits(_) => Ok(false),
        },
        CallEnd::Moves {
            reply: value,
            transfer,
        } => {
            if reply != value {
                return Ok(false);
            }
            move_bytes(alloc, kernel, draft, value, transfer)
        }
        CallEnd::MakesPipe(pipe) => open_pipe(alloc, kernel, draft, reply, pipe),
    }
}

/// Does what a call of a task comes to, where its reply is that of the entry: the task's memory and the shared areas
/// are as the call left them.
fn answer(kernel: &mut Kernel, draft: &mut Draft, reply: i64, prepared: Prepared) -> bool
    requires there { IsThere draft.old.caller kernel.old }
    requires own { EndsOnly prepared.effect draft.old.caller.task }
    ensures { (changes : Items Change) → changed changes kernel.old
        ≡ with_effect prepared.effect draft.old.caller.group (with_draft draft.old kernel.old) →
        Does (replied_by draft.old.caller reply changes (Replies prepared.reply)) kernel.old kernel.new (Ok result) }
{
    if reply != prepared.reply {
        return false;
    }
    let task = draft.caller.task;
    let registers = draft.caller.registers;
    settle(kernel, draft, prepared.effect);
    go_on(kernel, task, registers, prepared.reply);
    true
}

/// Makes a child of a task, where the child's number is the reply of the entry.
fn make_child(
    alloc: Global,
    kernel: &mut Kernel,
    caller: &Caller,
    reply: i64,
    child: Boxed<ClonedTask>,
) -> Result<bool, Memory>
    requires few { kernel.old.entries < MOST_ENTRIES }
    requires there { IsThere caller.now kernel.old }
    requires room { IsRoomFor kernel.old.tasks }
    ensures { (changes : Items Change) →
        changed changes kernel.old ≡ with_new_child child (kernel.old.entries + 1) caller.now kernel.old →
        Does (replied_by caller.now reply changes (Replies (pos (kernel.old.tasks.last + 1))))
        kernel.old kernel.new result }
{
    let number = next_number(&kernel.tasks);
    if reply != number {
        return Ok(false);
    }
    let context = context(caller, kernel.entries + 1, kernel.seed.as_slice());
    make(
        alloc,
        &context,
        child.into_inner(),
        &mut kernel.tasks,
        &mut kernel.registers,
        &mut kernel.spaces,
        &mut kernel.areas,
        &mut kernel.files,
    )?;
    go_on(kernel, caller.task, caller.registers, number);
    Ok(true)
}

/// The number of the task that is made next.
pub(crate) fn next_number(tasks: &Tasks) -> i64
    ensures { result ≡ pos (tasks.now.last + 1) }
{
    i64::from(tasks.last()) + 1
}

/// Does a call in which a host call failed, which answers EIO.
fn failing(
    alloc: Global,
    kernel: &mut Kernel,
    caller: &Caller,
    reply: i64,
    given: &Given,
) -> Result<bool, Memory>
    requires there { IsThere caller.now kernel.old }
    requires unused { AreUnused given.now.fresh kernel.old }
    ensures { Does (outcome_in (parts kernel.old) (failing caller.now reply given.now)) kernel.old kernel.new result }
{
    if !is_failure(reply) {
        return Ok(false);
    }
    if !faulted(alloc, kernel, given)? {
        return Ok(false);
    }
    go_on(
        kernel,
        caller.task,
        caller.registers,
        Reply::of(Errno::EIO).number(),
    );
    Ok(true)
}

/// Whether a reply is EIO's.
fn is_failure(reply: i64) -> bool
    ensures { result ≡ int_eq reply (reply_of EIO) }
{
    reply == Reply::of(Errno::EIO).number()
}
