//! The entries of tasks on the futex list: one whose call puts it there, and one that was woken.

ghost use Rattle.std.specs.Prelude.{◌≡◌, ◌<◌, Some, Ok};
ghost use Rattle.kernel_model.specs.declared.traps.Next.TheVariants.{Calls};
ghost use Rattle.kernel_model.specs.calls.Callers.{context_of};
ghost use Rattle.kernel_model.specs.entries.Given.{is_quiet};
ghost use Rattle.kernel_model.specs.entries.Parts.{outcome_in, parts};
ghost use Rattle.kernel_model.specs.entries.Steps.{row_of, sleep_at, sleep_row, woken_at, woken_entry};
ghost use Rattle.kernel_model.specs.entries.Waiting.{Awake, Woken, wait_of};
ghost use Rattle.plain_steps.specs.Doing.{Does, IsThere, key_slept_on};
ghost use Rattle.plain_steps.specs.Drafts.{IsCopied};

use crate::callers::copied_areas;
use crate::calls::{is_call, prepare};
use crate::drafts::{CallEntry, Draft};
use crate::effects::go_on;
use call_fs::CallEnd;
use futex_core::FutexKey;
use guest_access::step;
use kernel_calls::{args_of, call_of, sleep};
use kernel_model::{Caller, Entry, Given, Kernel, Next};
use mount_file::MOST_ENTRIES;
use sn_base::Memory;
use std::alloc::Global;

/// Puts a task to sleep whose next instruction makes a call that does so.
pub(crate) fn sleep_task(alloc: Global, kernel: &mut Kernel, caller: Caller) -> Result<bool, Memory>
    requires few { kernel.old.entries < MOST_ENTRIES }
    requires there { IsThere caller kernel.old }
    requires space { IsCopied caller kernel.old }
    requires waits { wait_of kernel.old.sleepers caller.task ≡ Awake }
    ensures { Does (outcome_in (parts kernel.old) (sleep_row (context_of kernel.old) caller))
        kernel.old kernel.new result }
{
    let areas = copied_areas(alloc, kernel)?;
    let mut draft = Draft { caller, areas };
    sleep_over(alloc, kernel, &mut draft)
}

/// As `sleep_task`, over a draft of the task and the shared areas.
fn sleep_over(alloc: Global, kernel: &mut Kernel, draft: &mut Draft) -> Result<bool, Memory>
    requires few { kernel.old.entries < MOST_ENTRIES }
    requires there { IsThere draft.old.caller kernel.old }
    requires space { IsCopied draft.old.caller kernel.old }
    requires areas { kernel.old.areas ≡ draft.old.areas }
    requires waits { wait_of kernel.old.sleepers draft.old.caller.task ≡ Awake }
    ensures { Does (outcome_in (parts kernel.old) (sleep_row (context_of kernel.old) draft.old.caller))
        kernel.old kernel.new result }
{
    match step(
        alloc,
        draft.caller.task,
        &mut draft.caller.registers,
        &mut draft.caller.space,
        &mut draft.areas,
    )? {
        Next::Calls => sleep_in(alloc, kernel, draft),
        Next::Goes => Ok(false),
        Next::Traps(_) => Ok(false),
        Next::Touches(_) => Ok(false),
    }
}

/// Puts a task to sleep that stands at a call, where the call does so. Memory stays as it is.
fn sleep_in(alloc: Global, kernel: &mut Kernel, draft: &mut Draft) -> Result<bool, Memory>
    requires few { kernel.old.entries < MOST_ENTRIES }
    requires there { IsThere draft.old.caller kernel.old }
    requires space { IsCopied draft.old.caller kernel.old }
    requires areas { kernel.old.areas ≡ draft.old.areas }
    requires waits { wait_of kernel.old.sleepers draft.old.caller.task ≡ Awake }
    ensures { Does (outcome_in (parts kernel.old) (sleep_at (context_of kernel.old) draft.old.caller Calls))
        kernel.old kernel.new result }
{
    let no = call_of(&draft.caller.registers);
    let args = args_of(&draft.caller.registers);
    let key = key_slept_on(&prepare(alloc, kernel, draft, no, &args)?);
    match key {
        Some(key) => {
            sleep(&mut kernel.sleepers, draft.caller.task, key)?;
            Ok(true)
        }
        None => Ok(false),
    }
}

/// The futex word on which a call puts its task to sleep, where it does so.
fn key_slept_on(called: &CallEnd) -> Option<FutexKey>
    ensures { result ≡ key_slept_on called.now }
{
    match called {
        CallEnd::Of(kernel_calls::Called::Sleeps(key)) => Some(*key),
        CallEnd::Of(kernel_calls::Called::Replies(_)) => None,
        CallEnd::Of(kernel_calls::Called::Makes(_)) => None,
        CallEnd::Of(kernel_calls::Called::Waits(_)) => None,
        CallEnd::Moves { .. } => None,
        CallEnd::MakesPipe(_) => None,
    }
}

/// Does an entry of a task that was woken, which only the call that it slept in fits.
pub(crate) fn woken(kernel: &mut Kernel, caller: &Caller, entry: &Entry) -> bool
    requires { IsThere caller.now kernel.old }
    ensures { Does (outcome_in (parts kernel.old) (row_of (context_of kernel.old) entry.now caller.now Woken))
        kernel.old kernel.new (Ok result) }
{
    match entry {
        Entry::Call {
            no,
            args,
            given,
            reply,
            ..
        } => {
            let call = CallEntry {
                no: *no,
                args,
                reply: *reply,
                given,
            };
            wake_from(kernel, caller, &call)
        }
        Entry::Run { .. } => false,
        Entry::Sleep { .. } => false,
        Entry::End { .. } => false,
    }
}

/// Takes a task that was woken out of the futex list, and lets it go on behind the call that it slept in, where that is
/// the call of the entry.
fn wake_from(kernel: &mut Kernel, caller: &Caller, call: &CallEntry<'_>) -> bool
    requires { IsThere caller.now kernel.old }
    ensures { Does (outcome_in (parts kernel.old)
        (woken_entry caller.now call.now.no call.now.args.now call.now.reply call.now.given.now))
        kernel.old kernel.new (Ok result) }
{
    if !is_woken_at(caller, call) {
        return false;
    }
    kernel.sleepers.leave(caller.task);
    go_on(kernel, caller.task, caller.registers, 0);
    true
}

/// Whether a call is the one that a task that was woken slept in. It draws and meets nothing, and replies 0.
fn is_woken_at(caller: &Caller, call: &CallEntry<'_>) -> bool
    ensures { result ≡ woken_at caller.now call.now.no call.now.args.now call.now.reply call.now.given.now }
{
    is_call(&caller.registers, call.no, call.args) && is_quiet(call.given) && call.reply == 0
}

fn is_quiet(given: &Given) -> bool
    ensures { result ≡ is_quiet given.now }
{
    given.rises.is_empty() && given.fresh.is_empty()
}
