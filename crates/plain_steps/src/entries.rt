//! The entries that call nothing: runs, and ends by a signal.

ghost use Rattle.std.specs.Prelude.{◌≡◌, ◌<◌, None, Some, IsTrue};
ghost use Rattle.std.specs.FinMap as map;
ghost use Rattle.kernel_model.specs.Names.{has_named};
ghost use Rattle.kernel_model.specs.declared.kernel.Part.TheVariants.{OfSpace, OfTask};
ghost use Rattle.kernel_model.specs.entries.Parts.{outcome_in, parts, put};
ghost use Rattle.kernel_model.specs.entries.Steps.{end_row, killed, run_alone, run_row, step_row};
ghost use Rattle.plain_steps.specs.Doing.{Does, IsThere};
ghost use Rattle.plain_steps.specs.Drafts.{IsCopied};

use crate::callers::{context, copied_areas};
use crate::drafts::Draft;
use crate::effects::{put_memory, put_space, settle};
use guest_access::{run, step};
use kernel_calls::{Effect, end_group};
use kernel_model::{Caller, Kernel, Next};
use mount_file::MOST_ENTRIES;
use quantum::QUANTUM;
use sn_base::Memory;
use std::alloc::Global;
use task_table::Status;

/// Runs a task's next instructions, if so many of them neither trap nor call nor touch a shared area, or if it is one
/// that runs with the shared areas that it touches.
pub(crate) fn run_task(
    alloc: Global,
    kernel: &mut Kernel,
    mut caller: Caller,
    n: u32,
) -> Result<bool, Memory>
    requires { IsThere caller kernel.old }
    ensures { Does (outcome_in (parts kernel.old) (run_row n caller)) kernel.old kernel.new result }
{
    if n < 1 || QUANTUM < n {
        return Ok(false);
    }
    let ran = run(
        alloc,
        caller.task,
        &mut caller.registers,
        &mut caller.space,
        n,
    )?;
    if ran.count == n {
        put_run(kernel, &mut caller);
        return Ok(true);
    }
    if n != 1 {
        return Ok(false);
    }
    step_task(alloc, kernel, caller)
}

/// Puts what a run has left of a task in the place of its registers and its memory.
fn put_run(kernel: &mut Kernel, left: &mut Caller)
    requires task { IsTrue (map.contains_key kernel.old.registers left.old.task) }
    requires space { IsTrue (has_named kernel.old.spaces left.old.memory.place left.old.memory.index) }
    ensures { kernel.new ≡ put (OfTask left.old.task) (Some left.old.registers)
        (put (OfSpace left.old.memory) (Some left.old.space) kernel.old) }
{
    kernel
        .registers
        .replace(u64::from(left.task), left.registers);
    put_space(&mut kernel.spaces, left.memory, &mut left.space);
}

/// Runs a task's next instruction, which does not run alone, if it runs with the shared areas that it touches.
fn step_task(alloc: Global, kernel: &mut Kernel, caller: Caller) -> Result<bool, Memory>
    requires there { IsThere caller kernel.old }
    requires alone { run_alone 1 caller ≡ None }
    ensures { Does (outcome_in (parts kernel.old) (step_row caller)) kernel.old kernel.new result }
{
    let areas = copied_areas(alloc, kernel)?;
    let mut draft = Draft { caller, areas };
    step_over(alloc, kernel, &mut draft)
}

/// As `step_task`, over a draft of the task and the shared areas, which take their places where it runs.
fn step_over(alloc: Global, kernel: &mut Kernel, draft: &mut Draft) -> Result<bool, Memory>
    requires there { IsThere draft.old.caller kernel.old }
    requires alone { run_alone 1 draft.old.caller ≡ None }
    requires areas { kernel.old.areas ≡ draft.old.areas }
    ensures { Does (outcome_in (parts kernel.old) (step_row draft.old.caller)) kernel.old kernel.new result }
{
    match step(
        alloc,
        draft.caller.task,
        &mut draft.caller.registers,
        &mut draft.caller.space,
        &mut draft.areas,
    )? {
        Next::Goes => {
            kernel
                .registers
                .replace(u64::from(draft.caller.task), draft.caller.registers);
            put_memory(kernel, draft);
            Ok(true)
        }
        Next::Calls => Ok(false),
        Next::Traps(_) => Ok(false),
        Next::Touches(_) => Ok(false),
    }
}

/// Ends the thread group of a task whose next instruction traps with that signal.
pub(crate) fn end_task(
    alloc: Global,
    kernel: &mut Kernel,
    caller: Caller,
    signal: u8,
) -> Result<bool, Memory>
    requires few { kernel.old.entries < MOST_ENTRIES }
    requires there { IsThere caller kernel.old }
    requires space { IsCopied caller kernel.old }
    ensures { Does (outcome_in (parts kernel.old) (end_row signal caller)) kernel.old kernel.new result }
{
    let areas = copied_areas(alloc, kernel)?;
    let mut draft = Draft { caller, areas };
    end_over(alloc, kernel, &mut draft, signal)
}

/// As `end_task`, over a draft of the task and the shared areas.
fn end_over(
    alloc: Global,
    kernel: &mut Kernel,
    draft: &mut Draft,
    signal: u8,
) -> Result<bool, Memory>
    requires few { kernel.old.entries < MOST_ENTRIES }
    requires there { IsThere draft.old.caller kernel.old }
    requires space { IsCopied draft.old.caller kernel.old }
    requires areas { kernel.old.areas ≡ draft.old.areas }
    ensures { Does (outcome_in (parts kernel.old) (end_row signal draft.old.caller)) kernel.old kernel.new result }
{
    match step(
        alloc,
        draft.caller.task,
        &mut draft.caller.registers,
        &mut draft.caller.space,
        &mut draft.areas,
    )? {
        Next::Traps(trap) => {
            if trap != signal {
                return Ok(false);
            }
            kill(alloc, kernel, draft, signal)
        }
        Next::Goes => Ok(false),
        Next::Calls => Ok(false),
        Next::Touches(_) => Ok(false),
    }
}

/// Ends the thread group of a task by a signal: the clear words of its tasks are cleared in its memory and in these
/// shared areas.
fn kill(alloc: Global, kernel: &mut Kernel, draft: &mut Draft, signal: u8) -> Result<bool, Memory>
    requires few { kernel.old.entries < MOST_ENTRIES }
    requires there { IsThere draft.old.caller kernel.old }
    requires space { IsCopied draft.old.caller kernel.old }
    requires areas { kernel.old.areas ≡ draft.old.areas }
    ensures { Does (outcome_in (parts kernel.old) (killed signal draft.old.caller)) kernel.old kernel.new result }
{
    let context = context(&draft.caller, kernel.entries + 1, kernel.seed.as_slice());
    let ending = end_group(
        alloc,
        &context,
        Status::Killed(signal),
        &mut draft.caller.space,
        &mut draft.areas,
        &kernel.tasks,
    )?;
    settle(kernel, draft, Effect::EndsGroup(ending));
    Ok(true)
}
