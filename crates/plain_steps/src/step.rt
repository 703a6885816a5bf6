//! What an entry does to a kernel.

ghost use Rattle.std.specs.Prelude.{◌≡◌, ◌<◌, true, Some};
ghost use Rattle.kernel_model.specs.calls.Callers.{context_of};
ghost use Rattle.kernel_model.specs.entries.Parts.{outcome_in, parts};
ghost use Rattle.kernel_model.specs.entries.Steps.{entry_row, may_enter, row_of};
ghost use Rattle.kernel_model.specs.entries.Waiting.{Awake, wait_of};
ghost use Rattle.plain_steps.specs.Doing.{Does, IsThere};
ghost use Rattle.plain_steps.specs.Drafts.{IsCopied};

use crate::callers::caller;
use crate::calls::call_task;
use crate::drafts::CallEntry;
use crate::entries::{end_task, run_task};
use crate::waiting::{sleep_task, woken};
use kernel_model::{Caller, Entry, Kernel};
use mount_file::MOST_ENTRIES;
use sn_base::Memory;
use std::alloc::Global;

/// Does what an entry does, but for the count of entries, and answers whether the entry fits. It works on copies of the
/// caller's address space and of the shared areas, so that a refusal or want of memory leaves the kernel as it was.
pub fn change(alloc: Global, kernel: &mut Kernel, entry: &Entry) -> Result<bool, Memory>
    requires few { kernel.old.entries < MOST_ENTRIES }
    requires may { may_enter kernel.old.nodes entry.now ≡ true }
    ensures { Does (outcome_in (parts kernel.old) (entry_row (context_of kernel.old) entry.now))
        kernel.old kernel.new result }
{
    let number = entry.task();
    let Some(caller) = caller(alloc, kernel, number)? else {
        return Ok(false);
    };
    enter(alloc, kernel, caller, entry)
}

/// Does what an entry of a live task does, by how the task stands to the futex list.
fn enter(alloc: Global, kernel: &mut Kernel, caller: Caller, entry: &Entry) -> Result<bool, Memory>
    requires few { kernel.old.entries < MOST_ENTRIES }
    requires may { may_enter kernel.old.nodes entry.now ≡ true }
    requires there { IsThere caller kernel.old }
    requires space { IsCopied caller kernel.old }
    ensures { Does (outcome_in (parts kernel.old) (row_of (context_of kernel.old) entry.now caller
        (wait_of kernel.old.sleepers caller.task))) kernel.old kernel.new result }
{
    if kernel.sleepers.is_asleep(caller.task) {
        return Ok(false);
    }
    if kernel.sleepers.is_woken(caller.task) {
        return Ok(woken(kernel, &caller, entry));
    }
    awake(alloc, kernel, caller, entry)
}

/// Does what an entry of a task does that is not on the futex list.
fn awake(alloc: Global, kernel: &mut Kernel, caller: Caller, entry: &Entry) -> Result<bool, Memory>
    requires few { kernel.old.entries < MOST_ENTRIES }
    requires may { may_enter kernel.old.nodes entry.now ≡ true }
    requires there { IsThere caller kernel.old }
    requires space { IsCopied caller kernel.old }
    requires waits { wait_of kernel.old.sleepers caller.task ≡ Awake }
    ensures { Does (outcome_in (parts kernel.old) (row_of (context_of kernel.old) entry.now caller Awake))
        kernel.old kernel.new result }
{
    match entry {
        Entry::Run { n, .. } => run_task(alloc, kernel, caller, *n),
        Entry::Call {
            no,
            args,
            given,
            reply,
            ..
        } => {
            let call = CallEntry {
                no: *no,
                args,
                reply: *reply,
                given,
            };
            call_task(alloc, kernel, caller, &call)
        }
        Entry::Sleep { .. } => sleep_task(alloc, kernel, caller),
        Entry::End { signal, .. } => end_task(alloc, kernel, caller, *signal),
    }
}
