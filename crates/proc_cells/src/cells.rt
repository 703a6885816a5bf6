//! Tasks with their registers and memories, shared areas, what is open, the futex list, and the console.

ghost use Rattle.std.specs.Prelude.{◌≡◌, ℕ, IsTrue, IsFalse};
ghost use Rattle.std.specs.FinMap as map;
ghost use Rattle.kernel_model.specs.entries.Given.{has_any};
ghost use Rattle.task_table.specs.Table.{has_ended, is_live, live_numbers, no_tasks};
ghost use Rattle.proc_cells.specs.Beside.{AreAtHome};

use crate::Rooms;
use futex_core::Waiters;
use kernel_model::{GuestArea, GuestSpace, Kernel, Named, OpenFiles};
use rv_table::Regs;
use sn_base::{List, Made, Map};
use std::alloc::Global;
use task_table::Tasks;

/// The task list, registers by task, address spaces and shared areas by the entry that made them, what is open, the
/// futex list, and the console.
pub struct Cells {
    pub tasks: Tasks,
    pub registers: Map<Regs>,
    pub spaces: Named<GuestSpace>,
    pub areas: Named<GuestArea>,
    pub files: OpenFiles,
    pub sleepers: Waiters,
    pub console: List<u8>,
    pub ghost at_home: { AreAtHome tasks registers spaces },
}

/// A live task: its thread group's number, the names of the group's memory and descriptor table, and its registers.
#[derive(Clone, Copy)]
pub struct Standing {
    pub group: u32,
    pub memory: Made,
    pub table: Made,
    pub registers: Regs,
}

impl Cells {
    ghost use Rattle.proc_cells.specs.Beside.{Beside, kernel_with, nothing_beside, nothing_held};
    ghost use Rattle.proc_cells.specs.Cells.{StandsAs, kernel_of};

    /// Cells with nothing in them. It takes no memory.
    #[tactic(auto, using(crate::proofs::Homes::none_at_home))]
    pub fn new(alloc: Global) -> Cells
        ensures none { result.tasks ≡ no_tasks }
        ensures begun { (beside : Beside) (n : ℕ) →
            kernel_of result beside n ≡ kernel_with nothing_held beside n }
    {
        Cells {
            tasks: Tasks::new(alloc),
            registers: Map::new(alloc),
            spaces: Named::new(alloc),
            areas: Named::new(alloc),
            files: OpenFiles::new(alloc),
            sleepers: Waiters::new(alloc),
            console: List::new(alloc),
        }
    }

    /// Whether some task lives.
    pub fn any_live(&self) -> bool
        ensures { result ≡ has_any (live_numbers self.now.tasks.tasks) }
    {
        self.tasks.live() > 0
    }

    /// A live task's group, memory, descriptor table and registers.
    ///
    /// The registers are those that the task has before its next instruction, and the memory is the one that all tasks
    /// of its group share, as they do the table: credentials(7), clone(2).
    pub fn standing(&self, task: u32) -> Standing
        requires { IsTrue (is_live self.now.tasks.tasks task) }
        ensures stands { StandsAs self.now task result }
        ensures there { IsTrue (map.contains_key self.now.tasks.groups result.group) }
        ensures lives { IsFalse (has_ended self.now.tasks.groups result.group) }
        ensures registers { IsTrue (map.contains_key self.now.registers task) }
    {
        let Some(one) = self.tasks.task(task) else {
            unreachable!()
        };
        let number = one.group;
        let Some(group) = self.tasks.group(number) else {
            unreachable!()
        };
        let memory = group.memory;
        let table = group.table;
        let Some(registers) = self.registers.get(u64::from(task)) else {
            unreachable!()
        };
        Standing {
            group: number,
            memory,
            table,
            registers: *registers,
        }
    }

    /// The kernel that the cells are, with nothing beside them, after so many entries.
    pub fn into_kernel(self, alloc: Global, entries: u64) -> Kernel
        ensures { result ≡ kernel_of self nothing_beside entries }
    {
        let Rooms {
            tasks,
            registers,
            spaces,
            areas,
            files,
            sleepers,
            console,
        } = self.into_rooms();
        Kernel {
            tasks,
            registers,
            spaces,
            areas,
            files,
            nodes: Map::new(alloc),
            sleepers,
            console,
            failed: Map::new(alloc),
            mounts: List::new(alloc),
            seed: List::new(alloc),
            entries,
        }
    }

    /// What they hold, each by itself, for who puts more than one of it anew.
    pub fn into_rooms(self) -> Rooms
        ensures tasks { result.tasks ≡ self.tasks }
        ensures registers { result.registers ≡ self.registers }
        ensures spaces { result.spaces ≡ self.spaces }
        ensures areas { result.areas ≡ self.areas }
        ensures files { result.files ≡ self.files }
        ensures sleepers { result.sleepers ≡ self.sleepers }
        ensures console { result.console ≡ self.console }
        ensures at_home { AreAtHome result.tasks result.registers result.spaces }
    {
        let Cells {
            tasks,
            registers,
            spaces,
            areas,
            files,
            sleepers,
            console,
        } = self;
        Rooms {
            tasks,
            registers,
            spaces,
            areas,
            files,
            sleepers,
            console,
        }
    }
}

/// Lets all of it go. Who owns cells lets go of them by this one call, at each exit.
impl Drop for Cells {
    fn drop(self) {
        let Cells {
            tasks: _,
            registers: _,
            spaces: _,
            areas: _,
            files: _,
            sleepers: _,
            console: _,
        } = self;
    }
}
