//! The one-thread kernel that the Sentry is held against: its definitions, and the types that they name.
//!
//! A caller sees plain data: an `Opening`, a `Trace` of `Entry`s, and a `Kernel`, the state, with `Named`, a map of
//! things by the entry that made them. `specs/` says what each of them means, by subject: `machine` (registers at a
//! call, a task at work in an address space of mm_space with shared areas in hand, the next instruction of a task,
//! names of futex words, random bytes, images), `calls` (who calls, and a row for each call, as a decision tree over
//! the state's parts: it replies, puts its task to sleep, or waits), `entries` (the parts; shared areas as they are
//! asked for; what an entry does, which tasks sleep, when a task's step is ready, and a list of entries each of whose
//! steps is defined), `files` (nodes with numbers, and the trees that they are), `opening`, `printed` (the text of a
//! run), and `Words` (the command line). `laws` has the words of laws and of proofs about these.
//!
//! Proved: an entry reads the parts that it uses and changes those that it touches, by nothing but what it reads, and
//! whether a task's next step is ready is told by the parts that are looked at; a write does the same in any context;
//! a child without an inode number stays as it is through each entry that gives it none (`locality`: `same`, `rest`,
//! `touched`, `fits`, `ready`, `write`, `unnumbered`). A copy of an address space, of a shared area or of all areas is
//! the same (`copy`: `copied`, `kept`). `Named` has under each name what was put there, and no call on one name changes
//! another (`value`, `ok`, `after`).
//!
//! Not said: time, which ready task comes next, or what a host is. No call and no step stands here: `kernel_calls` has
//! the calls, and `plain_kernel` a kernel that obeys the definitions.
//!
//! Standards: RISC-V Unprivileged ISA 20191213, ELF-64 Object File Format, Linux man-pages sections 2, 3 and 7.
#![tactic(auto)]

mod area_copies;
mod caller;
mod entry;
mod guest_area;
mod guest_space;
mod kernel;
mod laws;
mod limits;
mod named;
mod open_files;
mod opening;
mod traps;

pub use caller::Caller;
pub use entry::{Args, Entry, Trace};
pub use guest_area::GuestArea;
pub use guest_space::GuestSpace;
pub use kernel::{Kernel, Node, Numbered, Part};
pub use laws::locality;
pub use limits::{CONSOLE_ROOM, LAST_NUMBER, LONGEST_IMAGE, MOST_MOVED, MOST_RANDOM};
pub use named::{Former, Named};
pub use open_files::{OpenFile, OpenFiles};
pub use opening::{Fresh, Given, Left, LeftRise, OpenedTask, Opening, Rise};
pub use traps::Next;
