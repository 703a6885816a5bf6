//! What a task has ahead of it: what its next instruction does, and what a call there comes to, of which nothing is
//! done.

ghost use Rattle.std.specs.Prelude.{◌≡◌, ◌+◌, ◌<◌, IfOk, pos};
ghost use Rattle.kernel_model.specs.declared.traps.Next.TheVariants.{Calls};
ghost use Rattle.kernel_model.specs.calls.Callers.{context_of};
ghost use Rattle.kernel_model.specs.entries.Parts.{outcome_in, parts};
ghost use Rattle.kernel_model.specs.entries.Waiting.{wait_of};
ghost use Rattle.plain_steps.specs.Ahead.{ahead_at, ahead_in_row, ahead_of, ahead_row, told_by};
ghost use Rattle.plain_steps.specs.Doing.{IsThere};
ghost use Rattle.plain_steps.specs.Drafts.{IsCopied};

use crate::callers::{caller, copied_areas};
use crate::calls::{next_number, prepare};
use crate::drafts::Draft;
use call_fs::CallEnd;
use guest_access::step;
use kernel_calls::{args_of, call_of};
use kernel_model::{Caller, Kernel, Next};
use mount_file::MOST_ENTRIES;
use sn_base::Memory;
use std::alloc::Global;
use task_table::Tasks;

/// What a task has ahead of it.
///
/// - `Nothing`: it does not live, or it sleeps, and no entry of it fits.
/// - `Runs`: its next instruction goes on.
/// - `Ends`: its next instruction traps with that signal.
/// - `Replies`: its next instruction makes a call, with that reply, which is 0 where the task was woken from it.
/// - `Sleeps`: its next instruction makes a call that puts it to sleep.
/// - `Waits`: its next instruction makes a call that waits, and no entry of it fits.
#[derive(Clone, Copy, Debug, PartialEq, Eq)]
pub enum Ahead {
    Nothing,
    Runs,
    Ends(u8),
    Replies(i64),
    Sleeps,
    Waits,
}

/// What the task of a number has ahead of it. The kernel stays as it is.
pub fn look_ahead(alloc: Global, kernel: &mut Kernel, task: u32) -> Result<Ahead, Memory>
    requires few { kernel.old.entries < MOST_ENTRIES }
    ensures told { IfOk result (λ a.
        a ≡ outcome_in (parts kernel.old) (ahead_row (context_of kernel.old) task)) }
    ensures kept { kernel.new ≡ kernel.old }
{
    let Some(caller) = caller(alloc, kernel, task)? else {
        return Ok(Ahead::Nothing);
    };
    ahead_of(alloc, kernel, caller)
}

/// What a live task has ahead of it, by how it stands to the futex list.
fn ahead_of(alloc: Global, kernel: &mut Kernel, caller: Caller) -> Result<Ahead, Memory>
    requires few { kernel.old.entries < MOST_ENTRIES }
    requires there { IsThere caller kernel.old }
    requires space { IsCopied caller kernel.old }
    ensures told { IfOk result (λ a. a ≡ outcome_in (parts kernel.old)
        (ahead_of (context_of kernel.old) caller (wait_of kernel.old.sleepers caller.task))) }
    ensures kept { kernel.new ≡ kernel.old }
{
    if kernel.sleepers.is_asleep(caller.task) {
        return Ok(Ahead::Nothing);
    }
    if kernel.sleepers.is_woken(caller.task) {
        return Ok(Ahead::Replies(0));
    }
    let areas = copied_areas(alloc, kernel)?;
    let mut draft = Draft { caller, areas };
    ahead_over(alloc, kernel, &mut draft)
}

/// What a task has ahead of it that is not on the futex list, over a draft of it and of the shared areas.
fn ahead_over(alloc: Global, kernel: &Kernel, draft: &mut Draft) -> Result<Ahead, Memory>
    requires few { kernel.now.entries < MOST_ENTRIES }
    requires there { IsThere draft.old.caller kernel.now }
    requires space { IsCopied draft.old.caller kernel.now }
    requires areas { kernel.now.areas ≡ draft.old.areas }
    ensures { IfOk result (λ a.
        a ≡ outcome_in (parts kernel.now) (ahead_in_row (context_of kernel.now) draft.old.caller)) }
{
    match step(
        alloc,
        draft.caller.task,
        &mut draft.caller.registers,
        &mut draft.caller.space,
        &mut draft.areas,
    )? {
        Next::Goes => Ok(Ahead::Runs),
        Next::Calls => ahead_in(alloc, kernel, draft),
        Next::Traps(signal) => Ok(Ahead::Ends(signal)),
        Next::Touches(_) => Ok(Ahead::Nothing),
    }
}

/// What the call comes to that a task stands at.
fn ahead_in(alloc: Global, kernel: &Kernel, draft: &mut Draft) -> Result<Ahead, Memory>
    requires few { kernel.now.entries < MOST_ENTRIES }
    requires there { IsThere draft.old.caller kernel.now }
    requires space { IsCopied draft.old.caller kernel.now }
    requires areas { kernel.now.areas ≡ draft.old.areas }
    ensures { IfOk result (λ a.
        a ≡ outcome_in (parts kernel.now) (ahead_at (context_of kernel.now) draft.old.caller Calls)) }
{
    let no = call_of(&draft.caller.registers);
    let args = args_of(&draft.caller.registers);
    let called = prepare(alloc, kernel, draft, no, &args)?;
    Ok(told_by(&called, &kernel.tasks))
}

/// What a call has come to.
fn told_by(called: &CallEnd, tasks: &Tasks) -> Ahead
    ensures { result ≡ told_by called.now (tasks.now.last + 1) }
{
    match called {
        CallEnd::Of(kernel_calls::Called::Replies(prepared)) => Ahead::Replies(prepared.reply),
        CallEnd::Of(kernel_calls::Called::Makes(_)) => Ahead::Replies(next_number(tasks)),
        CallEnd::Of(kernel_calls::Called::Sleeps(_)) => Ahead::Sleeps,
        CallEnd::Of(kernel_calls::Called::Waits(_)) => Ahead::Waits,
        CallEnd::Moves { reply, .. } => Ahead::Replies(*reply),
        CallEnd::MakesPipe(_) => Ahead::Replies(0),
    }
}
