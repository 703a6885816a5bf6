//! The opening of a run: the tasks of a mount file, opened in order over the granted folder of the mount at `/`.
//!
//! A caller sees `open_tasks`, which has each program execute in turn and begins a task of its image, and answers the
//! processes; where an execve is refused it answers which and why (`OpenErr`). What each drew and met stands in the
//! record of the opening, as an `OpenedTask` for each execve that was done. `numbering` tells the inode numbers of the
//! folder that is mounted at `/`.
//!
//! Proved, where the folder's root tells its tree, whatever trees the other mounts have: the kernel that the state then
//! tells, its processes with the nodes that the folders tell, is the one that the definitions open over all the trees
//! (`begun`); a refusal is that of the first execve that fails, and leaves the trees that the nodes have then
//! (`stopped`); the folder can be put together again, and counts of failed calls rose at most where an execve was
//! refused, and not where memory ran out (`stands`, `standing`).
//! Whatever the root tells, the record is of the programs in order, and its inode numbers run up without a gap
//! (`recorded`).
//!
//! Not said: what a host is, which folder it granted, and what the tasks then do.
//!
//! Standard: Linux man-pages, execve(2), path_resolution(7).
#![tactic(auto)]

mod executing;
mod numbers;
mod opening;

pub use numbers::numbering;
pub use opening::{OpenErr, open_tasks};
