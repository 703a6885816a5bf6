//! Calls that move bytes, and those that make a pipe, where their reply is that of the entry.

ghost use Rattle.std.specs.Prelude.{◌≡◌, ◌+◌, ◌<◌, List as Items, pos};
ghost use Rattle.std.specs.Ordering.{int_eq};
ghost use Rattle.kernel_model.specs.calls.Answers.{Answer, Replies};
ghost use Rattle.kernel_model.specs.calls.Callers.{context_of};
ghost use Rattle.kernel_model.specs.calls.Pipes.{pipe_made};
ghost use Rattle.kernel_model.specs.entries.Parts.{Change, Prog, changed};
ghost use Rattle.kernel_model.specs.entries.Steps.{replied_by};
ghost use Rattle.call_fs.specs.Pipes.{MakesPipe};
ghost use Rattle.call_fs.specs.Transfers.{FitsPipe, after_transfer};
ghost use Rattle.plain_steps.specs.Doing.{Does, IsThere};
ghost use Rattle.plain_steps.specs.Drafts.{IsCopied, with_draft};

use crate::callers::context;
use crate::drafts::Draft;
use crate::effects::{go_on, put_memory};
use call_fs::{NewPipe, Transfer, commit_transfer, make_pipe};
use kernel_model::Kernel;
use mount_file::MOST_ENTRIES;
use sn_base::{Boxed, Memory};
use std::alloc::Global;

/// Moves the bytes of a call that replies a value: the task's memory and the shared areas are as the call left them.
pub(crate) fn move_bytes(
    alloc: Global,
    kernel: &mut Kernel,
    draft: &mut Draft,
    value: i64,
    transfer: Transfer,
) -> Result<bool, Memory>
    requires there { IsThere draft.old.caller kernel.old }
    requires room { FitsPipe transfer kernel.old.files }
    ensures { (changes : Items Change) → changed changes kernel.old
        ≡ after_transfer transfer draft.old.caller.space
        (with_draft draft.old kernel.old) →
        Does (replied_by draft.old.caller value changes (Replies value)) kernel.old kernel.new result }
{
    commit_transfer(
        alloc,
        transfer,
        &draft.caller.space,
        &mut draft.areas,
        &mut kernel.files,
        &mut kernel.console,
    )?;
    let task = draft.caller.task;
    let registers = draft.caller.registers;
    put_memory(kernel, draft);
    go_on(kernel, task, registers, value);
    Ok(true)
}

/// Makes the pipe of a call, which replies 0: so far the task's memory and the shared areas are as they were.
pub(crate) fn open_pipe(
    alloc: Global,
    kernel: &mut Kernel,
    draft: &mut Draft,
    reply: i64,
    new: Boxed<NewPipe>,
) -> Result<bool, Memory>
    requires few { kernel.old.entries < MOST_ENTRIES }
    requires there { IsThere draft.old.caller kernel.old }
    requires space { IsCopied draft.old.caller kernel.old }
    requires areas { kernel.old.areas ≡ draft.old.areas }
    ensures { (row : Prog Answer) (makes : MakesPipe row new (context_of kernel.old) draft.old.caller kernel.old) →
        Does (replied_by draft.old.caller reply
        (pipe_made (context_of kernel.old) draft.old.caller new.ends.buffer new.ends.flags makes.hand makes.table
        (new.ends.first, new.ends.second)).changes (Replies (pos 0))) kernel.old kernel.new result }
{
    if !is_zero(reply) {
        return Ok(false);
    }
    let context = context(&draft.caller, kernel.entries + 1, kernel.seed.as_slice());
    make_pipe(
        alloc,
        &context,
        new.into_inner(),
        &mut draft.caller.space,
        &mut draft.areas,
        &mut kernel.files,
    )?;
    let task = draft.caller.task;
    let registers = draft.caller.registers;
    put_memory(kernel, draft);
    go_on(kernel, task, registers, 0);
    Ok(true)
}

/// Whether a reply is 0.
fn is_zero(reply: i64) -> bool
    ensures { result ≡ int_eq reply (pos 0) }
{
    reply == 0
}
