//! exit and exit_group, the end of a thread group by a signal, set_tid_address and set_robust_list.

ghost use Rattle.std.specs.Prelude.{◌≡◌, ◌%◌, ℕ, IfOk, IsTrue, None, OnErr, Some, if◌then◌else◌};
ghost use Rattle.futex_core.specs.Waiters.{FutexList};
ghost use Rattle.mm_space.specs.Spaces.{AddressSpace};
ghost use Rattle.task_table.specs.declared.task.Status.TheVariants.{Exited};
ghost use Rattle.task_table.specs.Ends.{ended_tasks, is_last, is_member};
ghost use Rattle.task_table.specs.Table.{TaskTable, is_live};
ghost use Rattle.kernel_model.specs.declared.caller.Caller.{Caller as ACaller};
ghost use Rattle.kernel_model.specs.declared.kernel.Kernel.{Kernel as AKernel};
ghost use Rattle.kernel_model.specs.calls.Ending.{exit_group_row, exit_row, set_robust_list_row, set_tid_address_row};
ghost use Rattle.kernel_calls.specs.Ends.{Ends};
ghost use Rattle.guest_access.specs.Lending.{AreAlike};
ghost use Rattle.kernel_calls.specs.Prepared.{Answers, AnswersKept, EndsEach, EndsGroupAs, EndsOnly, HasSpace};
ghost use Rattle.kernel_calls.specs.Prepared.{IsCalling};
ghost use Rattle.kernel_calls.specs.declared.prepared.Effect.TheVariants.{Nothing};

use crate::clear_words::clear_words;
use crate::memory::replied;
use crate::prepared::Ending;
use crate::{Context, Effect, Prepared};
use kernel_model::{GuestArea, GuestSpace, Named};
use sn_base::{List, Made, Memory};
use std::alloc::Global;
use task_table::{EndedTask, Status, Tasks};

/// exit(status): the caller ends with the low 8 bits of the status, and with the last task of a thread group the group.
/// Its clear word is cleared, where it has one that may be written.
pub(crate) fn exit(
    alloc: Global,
    context: &Context<'_>,
    status: u64,
    space: &mut GuestSpace,
    areas: &mut Named<GuestArea>,
    tasks: &Tasks,
) -> Result<Prepared, Memory>
    requires { IsTrue (is_live tasks.now.tasks context.now.task) }
    ensures row { IfOk result (λ p. (c : ACaller) (k : AKernel) (waiting : FutexList) (console : ℕ) →
        IsCalling c k context.now space.old areas.old tasks.now waiting console →
        Answers (exit_row status c) p c k space.new areas.new) }
    ensures own { IfOk result (λ p. EndsOnly p.effect context.now.task) }
    ensures ended { IfOk result (λ p. EndsEach p.effect context.now.task context.now.group tasks.now) }
    ensures err { OnErr result (space.new ≡ space.old) }
    ensures err_areas { OnErr result (AreAlike areas.new areas.old) }
{
    let ended = tasks.itself(alloc, context.task)?;
    let closes = closed_with(context, tasks);
    let ending = ending_of(alloc, context, exited(status), ended, closes, space, areas)?;
    Ok(Prepared {
        reply: 0,
        effect: Effect::EndsTask {
            task: context.task,
            ending,
        },
    })
}

/// exit_group(status): the caller's thread group ends with the low 8 bits of the status. The clear words of its tasks
/// are cleared, where they may be written.
pub(crate) fn exit_group(
    alloc: Global,
    context: &Context<'_>,
    status: u64,
    space: &mut GuestSpace,
    areas: &mut Named<GuestArea>,
    tasks: &Tasks,
) -> Result<Prepared, Memory>
    ensures row { IfOk result (λ p. (c : ACaller) (k : AKernel) (waiting : FutexList) (console : ℕ) →
        IsCalling c k context.now space.old areas.old tasks.now waiting console →
        Answers (exit_group_row status c) p c k space.new areas.new) }
    ensures own { IfOk result (λ p. EndsOnly p.effect context.now.task) }
    ensures ended { IfOk result (λ p. EndsEach p.effect context.now.task context.now.group tasks.now) }
    ensures err { OnErr result (space.new ≡ space.old) }
    ensures err_areas { OnErr result (AreAlike areas.new areas.old) }
{
    let ending = end_group(alloc, context, exited(status), space, areas, tasks)?;
    Ok(Prepared {
        reply: 0,
        effect: Effect::EndsGroup(ending),
    })
}

/// The descriptor table that is closed where a task ends: that of its thread group, where it is the last of that.
fn closed_with(context: &Context<'_>, tasks: &Tasks) -> Option<Made>
    ensures { result ≡ if is_last tasks.now.tasks context.now.task then Some context.now.table else None }
{
    if tasks.is_last(context.task) {
        Some(context.table)
    } else {
        None
    }
}

/// How a task ends that says how: with the low 8 bits of a status.
fn exited(status: u64) -> Status
    ensures { result ≡ Exited (status % 256) }
{
    Status::Exited((status % 256) as u8)
}

/// How the thread group of a task ends with a status: what is to be done to the task list and the futex list, once the
/// clear words of its tasks are cleared. An `Err` changes nothing.
pub fn end_group(
    alloc: Global,
    context: &Context<'_>,
    status: Status,
    space: &mut GuestSpace,
    areas: &mut Named<GuestArea>,
    tasks: &Tasks,
) -> Result<Ending, Memory>
    ensures ends { IfOk result (λ e. (c : ACaller) (k : AKernel) (waiting : FutexList) (console : ℕ) →
        IsCalling c k context.now space.old areas.old tasks.now waiting console →
        EndsGroupAs status e c k space.new areas.new) }
    ensures ended { IfOk result (λ e. e.ended ≡ ended_tasks (is_member context.now.group) tasks.now.tasks) }
    ensures err { OnErr result (space.new ≡ space.old) }
    ensures err_areas { OnErr result (AreAlike areas.new areas.old) }
{
    let ended = tasks.members(alloc, context.group)?;
    let closes = Some(context.table);
    ending_of(alloc, context, status, ended, closes, space, areas)
}

/// How tasks end with a status, and with which descriptor table, once their clear words are cleared. An `Err` changes
/// nothing.
fn ending_of(
    alloc: Global,
    context: &Context<'_>,
    status: Status,
    ended: List<EndedTask>,
    closes: Option<Made>,
    space: &mut GuestSpace,
    areas: &mut Named<GuestArea>,
) -> Result<Ending, Memory>
    ensures status { IfOk result (λ e. e.status ≡ status) }
    ensures ended { IfOk result (λ e. e.ended ≡ ended) }
    ensures closes { IfOk result (λ e. e.closes ≡ closes) }
    ensures ends { IfOk result (λ e.
        (c : ACaller) (k : AKernel) (list : TaskTable) (waiting : FutexList) (console : ℕ) →
        IsCalling c k context.now space.old areas.old list waiting console →
        Ends ended e c k space.new areas.new) }
    ensures err { OnErr result ((space.new ≡ space.old) × (areas.new ≡ areas.old)) }
{
    let cleared = clear_words(alloc, context, ended.as_slice(), space, areas)?;
    Ok(Ending {
        status,
        ended,
        cleared,
        closes,
    })
}

/// set_tid_address(address): the caller's clear word is there, or nowhere where that is 0. It replies the caller's task
/// number.
#[tactic(auto, using(crate::proofs::Answering::answers_set))]
pub(crate) fn set_tid_address(context: &Context<'_>, address: u64) -> Prepared
    ensures row { (c : ACaller) (k : AKernel) (group : ℕ) → c.task ≡ context.now.task →
        AnswersKept (set_tid_address_row address c) result group k }
    ensures own { (task : ℕ) → EndsOnly result.effect task }
    ensures ended { (task group : ℕ) (list : TaskTable) → EndsEach result.effect task group list }
{
    Prepared {
        reply: i64::from(context.task),
        effect: Effect::SetsClear {
            task: context.task,
            address,
        },
    }
}

/// set_robust_list(head, length): the list is not looked at.
#[tactic(auto, using(crate::proofs::Answering::answers_told))]
pub(crate) fn set_robust_list() -> Prepared
    ensures row { (c : ACaller) (k : AKernel) (own : AddressSpace) → HasSpace c k own →
        Answers set_robust_list_row result c k own k.areas }
    ensures effect { result.effect ≡ Nothing }
{
    replied(0)
}
