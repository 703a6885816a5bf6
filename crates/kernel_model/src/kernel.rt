//! The kernel's state, and the parts of it that a step reads and changes.

use crate::{GuestArea, GuestSpace, Named, OpenFiles};
use futex_core::Waiters;
use host_node::Tree;
use mount_file::Mount;
use rv_table::{Area, Regs};
use sn_base::{List, Made, Map};
use sn_text::Name;
use task_table::Tasks;

/// A name in a directory, and the inode number of the node there.
#[derive(Drop)]
pub struct Numbered {
    pub name: Name,
    pub ino: u64,
}

/// A node that has an inode number: the number of its directory (a root's own), whether it is linked there, and
/// what it holds. A child that has a number of its own stands as lent in `tree`, and its number in `numbers`; each
/// other child is there as it was granted.
#[derive(Drop)]
pub struct Node {
    pub parent: u64,
    pub linked: bool,
    pub tree: Tree,
    pub numbers: List<Numbered>,
}

/// The kernel's state: the task list (which tasks and thread groups there are, and how they stand), the registers of
/// tasks by number, address spaces by the place of the entry that made them and an index (those of opening tasks by
/// place 0 and the task's number), shared areas by the place of the entry that made them and an index, what is open
/// (descriptor tables, open file descriptions, pipes), nodes by number, the futex list, the console's bytes, by how
/// much each node's count of faults rose, the mounts, the key of the random stream, and the number of entries so far.
pub struct Kernel {
    pub tasks: Tasks,
    pub registers: Map<Regs>,
    pub spaces: Named<GuestSpace>,
    pub areas: Named<GuestArea>,
    pub files: OpenFiles,
    pub nodes: Map<Node>,
    pub sleepers: Waiters,
    pub console: List<u8>,
    pub failed: Map<u64>,
    pub mounts: List<Mount>,
    pub seed: List<u8>,
    pub entries: u64,
}

/// Lets all of it go. Who owns a kernel lets go of it by this one call, at each exit.
impl Drop for Kernel {
    fn drop(self) {
        let Kernel {
            tasks: _,
            registers: _,
            spaces: _,
            areas: _,
            files: _,
            nodes: _,
            sleepers: _,
            console: _,
            failed: _,
            mounts: _,
            seed: _,
            entries: _,
        } = self;
    }
}

/// A part of the state, as a step reads and changes it.
#[derive(Clone, Copy, Debug, Drop, PartialEq, Eq)]
pub enum Part {
    OfTasks,
    OfTask(u32),
    OfSpace(Made),
    OfArea(Area),
    OfTable(Made),
    OfDescription(Made),
    OfPipe(Made),
    OfNode(u64),
    OfSleepers,
    OfConsole,
    OfFaults,
}
