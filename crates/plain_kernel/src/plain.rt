//! The plain kernel.

ghost use Rattle.std.specs.Prelude.{◌≡◌, ◌<◌, ◌≤◌, length, is_some, unwrap_or, IfOk, IfErr, OnOk, OnErr};
ghost use Rattle.kernel_model.specs.opening.Opening.{opening_of, Opens};
ghost use Rattle.plain_kernel.specs.OpeningTasks.{IsRefusedBy};
ghost use Rattle.kernel_model.specs.calls.Callers.{context_of};
ghost use Rattle.kernel_model.specs.entries.Parts.{outcome_in, parts};
ghost use Rattle.kernel_model.specs.entries.Steps.{step};
ghost use Rattle.plain_steps.specs.Ahead.{ahead_row};

use crate::opening_tasks::{bare, begin_tasks};
use crate::records::is_of;
use host_node::Tree;
use kernel_model::{Entry, Kernel, Opening};
use mount_file::{MOST_ENTRIES, MOST_TASKS, Mounts};
use node_numbers::may_enter;
use plain_steps::{Ahead, change, look_ahead};
use sn_base::{List, Memory};
use sn_errno::Errno;
use std::alloc::Global;

/// A kernel of one thread, which does each entry as the definitions say.
#[derive(Drop)]
pub struct Plain {
    pub kernel: Kernel,
}

/// Why an opening is refused.
///
/// - `Image`: the execve of that task failed, with that error.
/// - `Misfit`: the record is of another mount file (task 0), or does not fit that task.
/// - `Memory`: want of memory.
#[derive(Clone, Copy, Debug, PartialEq, Eq)]
pub enum OpeningErr {
    Image { task: u32, errno: Errno },
    Misfit { task: u32 },
    Memory,
}

impl From<Memory> for OpeningErr {
    ghost use Rattle.plain_kernel.specs.declared.plain.OpeningErr.TheVariants.{Memory as WantOfMemory};

    ghost from_gives = { λ _ e. e ≡ WantOfMemory };

    fn from(_e: Memory) -> OpeningErr {
        OpeningErr::Memory
    }
}

impl Plain {
    /// The kernel that an opening leaves, over a tree for each mount in order.
    pub fn opening(
        alloc: Global,
        mounts: &Mounts,
        trees: &List<Tree>,
        opened: &Opening,
    ) -> Result<Plain, OpeningErr>
        requires { length mounts.now.tasks ≤ MOST_TASKS }
        ensures ok { IfOk result (λ p. opening_of mounts.now trees.now opened.now ≡ Opens p.kernel) }
        ensures refused { IfErr result (IsRefusedBy (opening_of mounts.now trees.now opened.now)) }
    {
        if !is_of(opened, mounts) {
            return Err(OpeningErr::Misfit { task: 0 });
        }
        let mut kernel = bare(alloc, mounts, trees.as_slice())?;
        begin_tasks(
            alloc,
            &mut kernel,
            mounts.tasks.as_slice(),
            opened.tasks.as_slice(),
        )?;
        Ok(Plain { kernel })
    }

    /// Does an entry, and answers whether it fits. A refusal or want of memory leaves the kernel as it was.
    pub fn step(&mut self, alloc: Global, entry: &Entry) -> Result<bool, Memory>
        requires { self.old.kernel.entries < MOST_ENTRIES }
        ensures fits { IfOk result (λ b. b ≡ is_some (step self.old.kernel entry.now)) }
        ensures ok { OnOk result (self.new.kernel ≡ unwrap_or (step self.old.kernel entry.now) self.old.kernel) }
        ensures err { OnErr result (self.new.kernel ≡ self.old.kernel) }
    {
        if !may_enter(&self.kernel.nodes, entry) {
            return Ok(false);
        }
        let fits = change(alloc, &mut self.kernel, entry)?;
        if fits {
            self.kernel.entries += 1;
        }
        Ok(fits)
    }

    /// What a task has ahead of it: that it runs, that a signal ends its group, or what the call comes to that it is
    /// at: the reply with which an entry of it fits, or that it sleeps, or waits. The kernel stays as it is.
    pub fn ahead(&mut self, alloc: Global, task: u32) -> Result<Ahead, Memory>
        requires { self.old.kernel.entries < MOST_ENTRIES }
        ensures told { IfOk result (λ a.
            a ≡ outcome_in (parts self.old.kernel) (ahead_row (context_of self.old.kernel) task)) }
        ensures kept { self.new.kernel ≡ self.old.kernel }
    {
        look_ahead(alloc, &mut self.kernel, task)
    }
}
