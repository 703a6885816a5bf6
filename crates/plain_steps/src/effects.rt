//! What a call or an end leaves: its effect beside its task's memory and the shared areas, and its task behind it.

ghost use Rattle.std.specs.Prelude.{◌≡◌, Some, IsTrue};
ghost use Rattle.std.specs.FinMap as map;
ghost use Rattle.kernel_calls.specs.Prepared.{EndsOnly, with_effect};
ghost use Rattle.kernel_model.specs.Names.{has_named, with_named};
ghost use Rattle.kernel_model.specs.declared.kernel.Part.TheVariants.{OfTask};
ghost use Rattle.kernel_model.specs.entries.Parts.{put};
ghost use Rattle.kernel_model.specs.machine.Registers.{replied};
ghost use Rattle.plain_steps.specs.Doing.{IsThere};
ghost use Rattle.plain_steps.specs.Drafts.{with_draft};

use crate::drafts::Draft;
use kernel_calls::{Effect, commit, reply};
use kernel_model::{GuestSpace, Kernel, Named};
use rv_table::Regs;
use sn_base::Made;
use std::mem;

/// Does the effect of a call or an end. The task's memory and the shared areas take their places as they were left.
pub(crate) fn settle(kernel: &mut Kernel, draft: &mut Draft, effect: Effect)
    requires there { IsThere draft.old.caller kernel.old }
    requires own { EndsOnly effect draft.old.caller.task }
    ensures does { kernel.new ≡
        with_effect effect draft.old.caller.group (with_draft draft.old kernel.old) }
    ensures registers { kernel.new.registers ≡ kernel.old.registers }
{
    commit(
        effect,
        draft.caller.group,
        &mut kernel.tasks,
        &mut kernel.sleepers,
        &mut kernel.files,
    );
    put_memory(kernel, draft);
}

/// A task's memory and the shared areas take their places in a kernel. What was there stands where they were.
pub(crate) fn put_memory(kernel: &mut Kernel, draft: &mut Draft)
    requires { IsTrue (has_named kernel.old.spaces draft.old.caller.memory.place draft.old.caller.memory.index) }
    ensures { kernel.new ≡ with_draft draft.old kernel.old }
{
    put_space(
        &mut kernel.spaces,
        draft.caller.memory,
        &mut draft.caller.space,
    );
    mem::swap(&mut kernel.areas, &mut draft.areas);
}

/// An address space takes its place among those that there are. What was there stands where it was.
pub(crate) fn put_space(spaces: &mut Named<GuestSpace>, name: Made, space: &mut GuestSpace)
    requires { IsTrue (has_named spaces.old name.place name.index) }
    ensures { spaces.new ≡ with_named spaces.old name.place name.index space.old }
{
    if let Some(there) = spaces.get_mut(name.place, name.index) {
        mem::swap(there, space);
    }
}

/// Lets a task go on behind its call, with a reply.
pub(crate) fn go_on(kernel: &mut Kernel, task: u32, registers: Regs, value: i64)
    requires { IsTrue (map.contains_key kernel.old.registers task) }
    ensures { kernel.new ≡ put (OfTask task) (Some (replied registers value)) kernel.old }
{
    let mut after = registers;
    reply(&mut after, value);
    kernel.registers.replace(u64::from(task), after);
}
