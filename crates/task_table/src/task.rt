//! What a task and a thread group have, and what the calls on them answer.

ghost use Rattle.std.specs.Prelude.{◌≡◌};

use sn_base::{List, Made, Memory};
use std::alloc::AllocError;

/// How a thread group ended.
#[derive(Clone, Copy, Debug, PartialEq, Eq)]
pub enum Status {
    /// By exit(2) or exit_group(2), with the low 8 bits of the code.
    Exited(u8),
    /// By a signal.
    Killed(u8),
}

impl Status {
    ghost use Rattle.task_table.specs.Status.{status_number};

    /// The number that wait4(2) stores.
    pub fn number(self) -> u32
        ensures { result ≡ status_number self }
    {
        match self {
            Status::Exited(code) => u32::from(code) * 256,
            Status::Killed(signal) => u32::from(signal),
        }
    }
}

/// A task: a thread of a thread group.
#[derive(Clone, Copy, Debug, PartialEq, Eq)]
pub struct Task {
    /// The number of its thread group.
    pub group: u32,
    /// The address of the word that is cleared when the task ends, or 0 for none.
    pub clear: u64,
    /// Whether it lives; else it has ended.
    pub live: bool,
}

/// A thread group: a process.
#[derive(Clone, Copy, Debug, PartialEq, Eq)]
pub struct Group {
    /// The number of the group that may wait for it, or 0 for none.
    pub parent: u32,
    pub memory: Made,
    pub table: Made,
    /// The inode number of its working directory.
    pub cwd: u64,
    /// How it ended; `None` while it lives.
    pub ended: Option<Status>,
}

/// A task that a call ended, with its clear word's address, or 0 for none.
#[derive(Clone, Copy, Debug, PartialEq, Eq)]
pub struct EndedTask {
    pub task: u32,
    pub clear: u64,
}

/// Which tasks a call ended, ascending, and whether their thread group ended with them.
#[derive(Debug, Drop)]
pub struct Ended {
    pub tasks: List<EndedTask>,
    pub group: bool,
}

/// Why no task was made.
#[derive(Clone, Copy, Debug, PartialEq, Eq)]
pub enum CloneErr {
    /// As many tasks live as may live at once.
    Full,
    /// An allocation was refused.
    Memory,
}

impl From<AllocError> for CloneErr {
    ghost use Rattle.task_table.specs.declared.task.CloneErr.TheVariants.{Memory as MemoryWanting};

    ghost from_gives = { λ _ e. e ≡ MemoryWanting };

    fn from(_e: AllocError) -> CloneErr {
        CloneErr::Memory
    }
}

impl From<Memory> for CloneErr {
    ghost use Rattle.task_table.specs.declared.task.CloneErr.TheVariants.{Memory as MemoryWanting};

    ghost from_gives = { λ _ e. e ≡ MemoryWanting };

    fn from(_e: Memory) -> CloneErr {
        CloneErr::Memory
    }
}

/// What waiting for a child comes to.
#[derive(Clone, Copy, Debug, PartialEq, Eq)]
pub enum ReapEnd {
    /// A child that has ended, and how.
    Reaped { child: u32, status: Status },
    /// There are children, and none of them has ended.
    NotYet,
    /// There is no such child.
    NoChild,
}
