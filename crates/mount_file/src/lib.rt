//! The mount file: what it says of a run, or its first fault.
//!
//! A caller sees a `Mounts`: how long the trace may be, the seed of the random bytes, and the mounts and tasks in the
//! file's order, as records and lists. A task's path is `/` and a name, and that `Name` is what is kept of it.
//!
//! Proved: `read_mounts` answers what the bytes say (`ok`), or their first fault and no other (`fault`, `faulty`), or
//! want of memory; what it answers has a mount at `/`, no two that clash and so far no more than one, and 1 to 64
//! tasks (`form`). Bytes say one thing at most and have one first fault at most (`mounts_same`, `fault_same`,
//! `no_fault` in `proofs/`). `Mount::copy` and `copied_mounts` answer the same mounts, in memory of their own, and
//! `is_same_place` tells whether two places of mounts are one.
//!
//! Not said: whether the folders and images are there, and when memory runs out.
//!
//! Standard: TOML 1.1; Linux man-pages, path_resolution(7), execve(2). The keys and the order of the faults are this
//! project's own.
#![tactic(auto)]

mod fields;
mod keys;
mod mounts;
mod read;
mod rules;
mod tables;
mod values;

pub use mounts::{Mount, MountFault, Mounts, Program, copied_mounts};
pub use read::{LONGEST_MOUNT_FILE, read_mounts};
pub use rules::{MOST_MOUNTS, MOST_TASKS, is_same_place};
pub use values::MOST_ENTRIES;
