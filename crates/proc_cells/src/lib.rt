//! The parts that the tasks of a run share, a room for each kind.
//!
//! A caller sees `Cells`: the task list, registers by task, address spaces and shared areas by the entry that made
//! them, what is open, the futex list, and the console, each a field of its own, which calls take as they need them.
//! It begins with none of them (`new`), tells whether some task lives (`any_live`) and how a live task stands
//! (`standing`), is taken apart where a task is opened in more than one of them (`into_rooms`), and becomes a kernel
//! when a run has ended (`into_kernel`). What stands beside the cells, the host's nodes, counts of faults, mounts and
//! seed, isn't here. `specs/` has the kernel that cells are with these beside them (`kernel_of`), a live task of them
//! (`caller_in`), and that nothing changed between two (`AreKept`).
//!
//! Proved: at all times each live task has registers, and its thread group a memory (`at_home`). New cells are the
//! kernel with nothing in it, whatever stands beside them (`none`, `begun`). `standing` tells the group, the memory,
//! the descriptor table and the registers with which a live task is found (`stands`, `registers`), in a group that is
//! there and hasn't ended (`there`, `lives`). The kernel that `into_kernel` leaves is that of the cells, with nothing
//! beside them, and `into_rooms` gives what they hold. `proofs/` has what keeps live tasks at home: ends of tasks and
//! thread groups, children that are waited for, clear words that are set, new tasks, and registers and memories that
//! are set.
//!
//! Not said: what an entry does to them, or which task goes on.
//!
//! Standard: the rooms are the profile's; credentials(7) and clone(2) of the Linux man-pages. No locks.
#![tactic(auto)]

mod cells;
mod rooms;

pub use cells::{Cells, Standing};
pub use rooms::Rooms;
