//! The atomic steps of the kernel, as the commit log has them.

ghost use Rattle.std.specs.Prelude.{◌≡◌};
ghost use Rattle.kernel_model.specs.entries.Steps.{task_of};

use crate::Given;
use sn_base::List;

/// The six argument registers of a system call, a0 to a5.
#[derive(Clone, Copy, Debug, Drop, PartialEq, Eq)]
pub struct Args {
    pub a0: u64,
    pub a1: u64,
    pub a2: u64,
    pub a3: u64,
    pub a4: u64,
    pub a5: u64,
}

/// One atomic step of the kernel.
///
/// - `Run`: the task's next `n` instructions (1 to 10,000), none of which traps or is an ECALL.
/// - `Call`: the system call that the task stands at, what it drew and met, and its reply.
/// - `Sleep`: the task goes onto the futex list; its `Call` comes once it was woken.
/// - `End`: the task's next instruction traps with that signal, which ends its thread group.
#[derive(Drop)]
pub enum Entry {
    Run {
        task: u32,
        n: u32,
    },
    Call {
        task: u32,
        no: u64,
        args: Args,
        given: Given,
        reply: i64,
    },
    Sleep {
        task: u32,
    },
    End {
        task: u32,
        signal: u8,
    },
}

impl Entry {
    /// The number of the entry's task.
    pub fn task(&self) -> u32
        ensures { result ≡ task_of self.now }
    {
        match self {
            Entry::Run { task, .. } => *task,
            Entry::Call { task, .. } => *task,
            Entry::Sleep { task } => *task,
            Entry::End { task, .. } => *task,
        }
    }
}

/// The entries of a run in order. An entry's place is its index plus 1.
pub type Trace = List<Entry>;
